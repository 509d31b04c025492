//! What is wrong with a schedule file, or which of its events are refused.

use crate::fault::ViewFault;
use crate::files::play_bytes;
use std::alloc::{AllocError, Global};
use std::fmt::Write as _;
use std::io::Write;
use tds_text::write_whole;
use view_explain::what_is_said;
use view_trace::Exchange;

/// Prints what is wrong with the bytes of a file of this name; of a schedule that is played, which
/// events are refused, by which rule, and what its author may not have meant. It answers whether nothing
/// is wrong and nothing refused.
pub(crate) fn print_explanation<W: Write>(
    alloc: Global,
    name: &str,
    bytes: &[u8],
    output: &mut W,
) -> Result<bool, ViewFault> {
    let (text, is_well) = match play_bytes(alloc, name, bytes) {
        Ok(exchange) => explanation(alloc, name, bytes, &exchange)?,
        Err(ViewFault::Told(text)) => (format!(in alloc; "{text}\n")?, false),
        Err(fault) => return Err(fault),
    };
    write_whole(output, text.as_str())?;
    Ok(is_well)
}

/// What is said of a schedule that is played, and whether none of its events is refused.
fn explanation(
    alloc: Global,
    name: &str,
    bytes: &[u8],
    exchange: &Exchange,
) -> Result<(String, bool), AllocError> {
    let Exchange { events, report, .. } = exchange;
    let said = what_is_said(alloc, name, bytes, events.as_slice(), report)?;
    let mut text = said.refused;
    let is_well = text.is_empty();
    text.push_str(said.remarks.as_str())?;
    if is_well {
        let count = events.len();
        writeln!(
            text,
            "{name}: {count} events, nothing wrong and nothing refused"
        )?;
    }
    Ok((text, is_well))
}
