//! What is to be said of a schedule.

use std::alloc::{AllocError, Global};
use std::fmt::Write;
use tds_play::{Event, PlayRefusal, ScheduleFault, Setup, read_schedule};
use view_explain::{what_is_said, why_unplayed, why_unread};
use view_trace::{Exchange, play_kept};

/// The name that the lines about a schedule begin with.
pub(crate) const NAME: &str = "schedule";

/// What was found.
#[derive(Clone, Copy)]
pub(crate) enum Finding {
    /// Nothing is wrong, and no event is refused.
    Well,
    /// It isn't played.
    Unplayed,
    /// It is played, and events are refused.
    Refused,
}

#[derive(Drop)]
pub(crate) struct Explanation {
    pub(crate) finding: Finding,
    /// A line for each thing.
    pub(crate) text: String,
}

/// What is to be said of the schedule in these bytes, as `tdsview explain` says it of a file.
pub(crate) fn explain(alloc: Global, bytes: &[u8]) -> Result<Explanation, AllocError> {
    match read_schedule(alloc, bytes) {
        Ok((setup, events)) => explain_events(alloc, bytes, setup, events),
        Err(ScheduleFault::Memory) => Err(AllocError),
        Err(fault) => unplayed(why_unread(alloc, NAME, bytes, &fault)?),
    }
}

fn explain_events(
    alloc: Global,
    bytes: &[u8],
    setup: Setup,
    events: Vec<Event>,
) -> Result<Explanation, AllocError> {
    let count = events.len();
    match play_kept(alloc, setup, events) {
        Ok(exchange) => explain_play(alloc, bytes, &exchange),
        Err(PlayRefusal::Memory) => Err(AllocError),
        Err(_) => unplayed(why_unplayed(alloc, NAME, bytes, setup, count)?),
    }
}

/// These lines say why it isn't played.
fn unplayed(mut text: String) -> Result<Explanation, AllocError> {
    text.push_str("\n")?;
    Ok(Explanation {
        finding: Finding::Unplayed,
        text,
    })
}

fn explain_play(
    alloc: Global,
    bytes: &[u8],
    exchange: &Exchange,
) -> Result<Explanation, AllocError> {
    let Exchange { events, report, .. } = exchange;
    let said = what_is_said(alloc, NAME, bytes, events.as_slice(), report)?;
    let mut text = said.refused;
    let finding = if text.is_empty() {
        Finding::Well
    } else {
        Finding::Refused
    };
    text.push_str(said.remarks.as_str())?;
    if let Finding::Well = finding {
        let count = events.len();
        writeln!(
            text,
            "{NAME}: {count} events, nothing wrong and nothing refused"
        )?;
    }
    Ok(Explanation { finding, text })
}
