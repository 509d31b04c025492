//! A play laid out in sheets.

use crate::hearing::{description_of, title_of};
use crate::sheets::Plan;
use crate::wording::{event_text, refusal_text, setup_text};
use std::alloc::{AllocError, Global};
use std::fmt::Write;
use tds_play::{Opened, Outcome, Refusal, Snapshot};
use view_paint::{Scene, Widths};
use view_trace::Exchange;

/// The most events that are drawn where nothing says which.
const MOST: usize = 300;

/// The most refused events that are listed below the sheets.
const MOST_BELOW: usize = 20;

/// Which events are drawn, from 1.
#[derive(Clone, Copy)]
pub struct Choice {
    /// The first one; without one, the first of all.
    pub from: Option<usize>,
    /// The last one; without one, 300 events are drawn.
    pub to: Option<usize>,
}

impl Choice {
    /// The first and the last event that are drawn, of so many.
    fn of(self, count: usize) -> (usize, usize) {
        let from = self.from.unwrap_or(1).max(1);
        let last = from.saturating_add(MOST.saturating_sub(1));
        let to = self.to.unwrap_or(last).min(count);
        (from, to)
    }
}

/// How the connections that are open at once stand.
#[derive(Clone, Copy, PartialEq, Eq)]
pub enum Arrangement {
    /// One below the other, each with the events about it.
    Below,
    /// Side by side, with all events.
    Beside,
}

/// Lays the play of a file of this name out.
pub(crate) fn lay_out(
    alloc: Global,
    name: &str,
    exchange: &Exchange,
    choice: Choice,
    arrangement: Arrangement,
    widths: Widths,
) -> Result<Scene, AllocError> {
    let (from, to) = choice.of(exchange.events.len());
    let slots = slots_of(alloc, exchange)?;
    let asked = asked_of(alloc, exchange)?;
    let panels = slots.iter().max().copied().unwrap_or(0).saturating_add(1);
    let wide = match arrangement {
        Arrangement::Below => 1,
        Arrangement::Beside => panels,
    };
    let plan = Plan {
        exchange,
        slots: slots.as_slice(),
        asked: asked.as_slice(),
        widths,
        from,
        to,
        has_all: wide == panels,
    };
    let sheets = plan.lay_sheets(alloc, panels)?;
    let below = match plan.has_all {
        true => Vec::new(alloc),
        false => below_of(alloc, exchange, from, to)?,
    };
    Ok(Scene {
        title: title_of(alloc, name)?,
        description: description_of(alloc, exchange)?,
        head: head_of(alloc, exchange, from, to)?,
        width: wide,
        sheets,
        below,
    })
}

/// What the picture is of.
fn head_of(
    alloc: Global,
    exchange: &Exchange,
    from: usize,
    to: usize,
) -> Result<String, AllocError> {
    let count = exchange.events.len();
    let mut head = setup_text(alloc, exchange.setup)?;
    if from > to && count > 0 {
        write!(head, "; none of {count} events")?;
    } else if from > 1 || to < count {
        write!(head, "; events {from} to {to} of {count}")?;
    }
    Ok(head)
}

/// The slot of each connection: when it is opened, the lowest one that no uncut connection has.
fn slots_of(alloc: Global, exchange: &Exchange) -> Result<Vec<usize>, AllocError> {
    let mut slots = Vec::new(alloc);
    let mut holders: Vec<u32> = Vec::new(alloc);
    for told in exchange.report.events.as_slice() {
        let Outcome::Leased {
            conn,
            opened: Opened::New,
            ..
        } = told.outcome
        else {
            continue;
        };
        let slot = free_slot(holders.as_slice(), told.snapshots.as_slice());
        match holders.get_mut(slot) {
            Some(holder) => *holder = conn,
            None => holders.push(conn)?,
        }
        slots.push(slot)?;
    }
    Ok(slots)
}

/// The lowest slot of which the holder is not among these connections; one more where each is.
fn free_slot(holders: &[u32], shown: &[Snapshot]) -> usize {
    let free = holders
        .iter()
        .position(|holder| !shown.iter().any(|it| it.conn == *holder));
    free.unwrap_or(holders.len())
}

/// The place of each request among the events.
fn asked_of(alloc: Global, exchange: &Exchange) -> Result<Vec<usize>, AllocError> {
    let mut asked = Vec::new(alloc);
    for (index, told) in exchange.report.events.as_slice().iter().enumerate() {
        if matches!(told.outcome, Outcome::Asked(_) | Outcome::Cleaning { .. }) {
            asked.push(index)?;
        }
    }
    Ok(asked)
}

/// A line for each refused event that is about no connection.
fn below_of(
    alloc: Global,
    exchange: &Exchange,
    from: usize,
    to: usize,
) -> Result<Vec<String>, AllocError> {
    let mut below = Vec::new(alloc);
    let mut more = 0usize;
    for number in from..=to {
        let Some(why) = refusal_at(exchange, number) else {
            continue;
        };
        if below.len() >= MOST_BELOW {
            more = more.saturating_add(1);
            continue;
        }
        below.push(refused_text(alloc, exchange, number, why)?)?;
    }
    if more > 0 {
        below.push(format!(in alloc; "and {more} more")?)?;
    }
    Ok(below)
}

/// Why the event of this number is refused, where it is and is about no connection.
fn refusal_at(exchange: &Exchange, number: usize) -> Option<Refusal> {
    let index = number.checked_sub(1)?;
    let told = exchange.report.events.as_slice().get(index)?;
    match (exchange.conns.get(index)?, told.outcome) {
        (None, Outcome::Refused(why)) => Some(why),
        _ => None,
    }
}

fn refused_text(
    alloc: Global,
    exchange: &Exchange,
    number: usize,
    why: Refusal,
) -> Result<String, AllocError> {
    let text = match exchange.events.get(number.saturating_sub(1)) {
        Some(event) => event_text(alloc, event)?,
        None => String::new(alloc),
    };
    format!(in alloc; "{number:3} {text}: {}", refusal_text(why))
}
