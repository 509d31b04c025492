//! Events that don't apply.

use json_places::{Outline, Page, Place};
use std::alloc::{AllocError, Global};
use std::fmt::Write;
use tds_play::{Outcome, Refusal, Report};

/// The rule by which an event doesn't apply.
fn rule_of(why: Refusal) -> &'static str {
    match why {
        Refusal::UnknownLease => "there is no such lease, or it has ended",
        Refusal::UnknownTicket => "there is no such ticket, or it has ended",
        Refusal::UnknownConnection => "there is no such connection, or it is cut",
        Refusal::NotIdle => "somebody waits for an answer on the connection",
        Refusal::NotSending => "no packet of a request is to be sent",
        Refusal::NothingToKeep => "there is no transaction to keep",
        Refusal::AllInUse => "all connections are in use",
        Refusal::ConnectionCut => "the connection of this lease or ticket is cut",
        Refusal::NotFree => "the connection is not free",
    }
}

/// Appends a line for each event that is refused, with its rule.
pub(crate) fn put_refusals(
    alloc: Global,
    text: &mut String,
    page: Page<'_>,
    outline: &Outline,
    report: &Report,
) -> Result<(), AllocError> {
    let mut place = Place::start();
    for (index, told) in report.events.as_slice().iter().enumerate() {
        let Outcome::Refused(why) = told.outcome else {
            continue;
        };
        let at = outline.event_at(index);
        place.go_to(page.bytes, at);
        place.put(text, page.name)?;
        write!(text, "event {}, ", index.saturating_add(1))?;
        put_spelled(alloc, text, page.bytes.get(at..).unwrap_or(&[]))?;
        writeln!(text, ", is refused {}: {}", why.number(), rule_of(why))?;
    }
    Ok(())
}

/// Appends the array that bytes begin with, without its spaces, and cut where it is long.
fn put_spelled(alloc: Global, text: &mut String, bytes: &[u8]) -> Result<(), AllocError> {
    let mut spelled = Vec::new(alloc);
    let mut is_text = false;
    for byte in bytes.iter().take(60) {
        is_text ^= *byte == b'"';
        if is_text || !byte.is_ascii_whitespace() {
            spelled.push(*byte)?;
        }
        if !is_text && *byte == b']' {
            return text.push_str(String::from_utf8_lossy(alloc, spelled.as_slice())?.as_str());
        }
    }
    text.push_str(String::from_utf8_lossy(alloc, spelled.as_slice())?.as_str())?;
    text.push_str("..")
}
