//! The connections after each event.

use crate::report::report_text;
use std::alloc::{AllocError, Global};
use std::io::Write;
use tds_play::{EventReport, RenderFault, Report, Sequence};
use tds_text::write_whole;

/// Prints each event's line, and behind it the lines of the connections after it.
pub fn print_snapshots<W: Write>(
    alloc: Global,
    report: Report,
    output: &mut W,
) -> Result<(), RenderFault> {
    for (index, event) in report.events.into_vec().into_iter().enumerate() {
        let lines = lines_of(alloc, index.saturating_add(1), event)?;
        write_whole(output, lines.as_str())?;
    }
    Ok(())
}

/// The lines of the event at this place, from 1.
fn lines_of(alloc: Global, place: usize, event: EventReport) -> Result<String, AllocError> {
    let mut events = Vec::new(alloc);
    events.push(event)?;
    let report = Report {
        events: Sequence::new(events),
        requests: Sequence::new(Vec::new(alloc)),
    };
    let text = report_text(alloc, &report)?;
    // A report of this event alone numbers it 1.
    let behind = text.as_slice().get(1..).unwrap_or(&[]);
    let behind = String::from_utf8_lossy(alloc, behind)?;
    format!(in alloc; "{place}{behind}")
}
