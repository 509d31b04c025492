//! The packets of answers.
ghost use Rattle.std.specs.Prelude.{◌≡◌, [], true, IfOk, string_bytes};
ghost use Rattle.tds_show.specs.Answers.{shown_after, closed, shown, shown_message};
ghost use Rattle.tds_show.specs.Messages.{IsPlain};

use crate::tokens::front::{Front, front_of};
use crate::tokens::line::{put_packet_fault, put_refused};
use crate::tokens::message::{Ending, put_tokens};
use std::alloc::{AllocError, Global};
use tds_wire::{Features, TokenParser};

/// The most columns of a result.
const MOST_COLUMNS: u16 = 4096;

/// Appends the lines of the packets that these bytes are, up to the first fault, as of a login that
/// acknowledged neither column encryption nor ranks. Whether there is no fault.
///
/// # Errors
///
/// Where a growth was refused.
pub fn put_answers(alloc: Global, text: &mut String, bytes: &[u8]) -> Result<bool, AllocError>
    ensures { IfOk result (λ is_well.
        record { text = string_bytes text.new; is_well = is_well }
        ≡ shown_after (string_bytes text.old) (shown bytes.now)) }
{
    let features = Features {
        encryption: false,
        ranks: false,
    };
    let mut parser = TokenParser::new(alloc, MOST_COLUMNS, features)?;
    let mut message = Vec::new(alloc);
    put_packets(text, &mut parser, &mut message, bytes)
}

/// The same, with a parser, and a message that has no byte yet.
fn put_packets(
    text: &mut String,
    parser: &mut TokenParser,
    message: &mut Vec<u8>,
    bytes: &[u8],
) -> Result<bool, AllocError>
    requires plain { IsPlain parser.old }
    requires empty { message.old.items ≡ [] }
    ensures { IfOk result (λ is_well.
        record { text = string_bytes text.new; is_well = is_well }
        ≡ shown_after (string_bytes text.old) (shown bytes.now)) }
{
    let mut rest = bytes;
    // Each packet has a byte at least.
    let mut most = bytes.len();
    'packets: while most > 0 {
        most -= 1;
        let front = front_of(rest);
        let Front::Packet(length, ends) = front else {
            return put_message(text, parser, message.as_slice(), &front);
        };
        message.extend_from_slice(&rest[8..length])?;
        rest = &rest[length..];
        if ends {
            if !put_message(text, parser, message.as_slice(), &front)? {
                return Ok(false);
            }
            message.clear();
        }
    }
    put_message(text, parser, message.as_slice(), &Front::Nothing)
}

/// Appends the lines of a message's data, and what is to be said of the packet that ends it, or of
/// what stands in the place of one. Whether that is no fault.
fn put_message(
    text: &mut String,
    parser: &mut TokenParser,
    data: &[u8],
    stop: &Front,
) -> Result<bool, AllocError>
    requires plain { IsPlain parser.old }
    ensures shown { IfOk result (λ is_well.
        record { text = string_bytes text.new; is_well = is_well }
        ≡ shown_after (string_bytes text.old) (shown_message «data».now stop.now)) }
    ensures plain { IfOk result (λ is_well. is_well ≡ true → IsPlain parser.new) }
{
    let ending = put_tokens(text, parser, data)?;
    put_closing(text, ending, stop)
}

/// Appends what is said after the tokens of a message. Whether that is no fault.
fn put_closing(text: &mut String, ending: Ending, stop: &Front) -> Result<bool, AllocError>
    ensures closed { IfOk result (λ is_well.
        record { text = string_bytes text.new; is_well = is_well }
        ≡ shown_after (string_bytes text.old) (closed ending stop.now)) }
    ensures between { IfOk result (λ is_well. is_well ≡ true → ending ≡ Ending.Between) }
{
    match (ending, stop) {
        (Ending::Refused(fault, at), _) => put_refused(text, fault, at)?,
        (_, Front::Refused(fault)) => put_packet_fault(text, fault)?,
        (Ending::Between, Front::Nothing) => return Ok(true),
        (Ending::Between, Front::Packet(..)) => {
            text.push_str("end\n")?;
            return Ok(true);
        }
        (Ending::Inside, _) | (Ending::Between, Front::Cut) => text.push_str("cut\n")?,
    }
    Ok(false)
}
