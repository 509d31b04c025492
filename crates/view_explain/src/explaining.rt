//! What is wrong with a schedule file, in words, and where.

use crate::event::{WrongEvent, is_right};
use crate::outside::{put_limits, put_outside_faults, version_of};
use crate::refusals::put_refusals;
use crate::remarks::{put_open, put_texts};
use json_places::{Findings, Outline, Page, parts_of, put_doubled, put_json_fault, value_at};
use std::alloc::{AllocError, Global};
use std::fmt::Write;
use tds_play::{Event, Report, ScheduleFault, Setup};

/// What is to be said of a schedule that is played: a line each, `NAME:LINE:COLUMN: ..`.
#[derive(Drop)]
pub struct Said {
    /// Which events are refused, by which rule, and which keys stand twice in the file.
    pub refused: String,
    /// Which texts are not in the batch language, and whose caller waits at the end: what may be meant.
    pub remarks: String,
}

/// What is to be said of the schedule in these bytes, a file's of this name. It has these events, and the
/// report is of their play.
pub fn what_is_said(
    alloc: Global,
    name: &str,
    bytes: &[u8],
    events: &[Event],
    report: &Report,
) -> Result<Said, AllocError> {
    let page = Page { name, bytes };
    let outline = Outline::read(alloc, bytes)?;
    let mut refused = String::new(alloc);
    put_doubled(&mut refused, page, outline.members.as_slice())?;
    put_refusals(alloc, &mut refused, page, &outline, report)?;
    let mut remarks = String::new(alloc);
    put_texts(alloc, &mut remarks, page, &outline, events)?;
    put_open(&mut remarks, page, &outline, report)?;
    Ok(Said { refused, remarks })
}

/// Why the bytes of a file of this name, which reading ends with this fault, are no schedule: a line for
/// each thing that is wrong, `NAME:LINE:COLUMN: ..`, without the last line's end.
pub fn why_unread(
    alloc: Global,
    name: &str,
    bytes: &[u8],
    fault: &ScheduleFault,
) -> Result<String, AllocError> {
    let page = Page { name, bytes };
    let mut text = String::new(alloc);
    match fault {
        ScheduleFault::Memory => return Err(AllocError),
        ScheduleFault::Json => put_json_fault(alloc, &mut text, page)?,
        ScheduleFault::Wrong { place } => {
            let outline = Outline::read(alloc, bytes)?;
            put_outside_faults(alloc, &mut text, page, &outline)?;
            put_events(alloc, &mut text, page, &outline, *place)?;
        }
    }
    // The last line's end is its reader's.
    text.pop();
    Ok(text)
}

/// Why the schedule in these bytes, a file's of this name, is read and not played, or not to its end, as
/// `why_unread`.
pub fn why_unplayed(
    alloc: Global,
    name: &str,
    bytes: &[u8],
    setup: Setup,
    events: usize,
) -> Result<String, AllocError> {
    let page = Page { name, bytes };
    let mut text = String::new(alloc);
    let outline = Outline::read(alloc, bytes)?;
    put_limits(&mut text, page, &outline, setup, events)?;
    if text.is_empty() {
        // Nothing else ends a play that has begun.
        writeln!(
            text,
            "{name}: what answered a clean left a transaction, or did no reset"
        )?;
    }
    text.pop();
    Ok(text)
}

/// Appends a line for each event that is wrong, the first of them at this place, from 1. Where it is 0,
/// that is not known.
fn put_events(
    alloc: Global,
    text: &mut String,
    page: Page<'_>,
    outline: &Outline,
    first: usize,
) -> Result<(), AllocError> {
    // Where they are no array, that is told already.
    let start = outline.value_at("events").unwrap_or(0);
    if page.bytes.get(start) != Some(&b'[') {
        return Ok(());
    }
    let version = version_of(alloc, page.bytes, outline)?.unwrap_or(3);
    let mut findings = Findings::new();
    for (index, at) in outline.events.iter().enumerate() {
        let number = index.saturating_add(1);
        if number < first {
            continue;
        }
        let event = value_at(alloc, page.bytes, *at)?;
        if number != first && is_right(&event, version) {
            continue;
        }
        let Some(place) = findings.next(page, *at) else {
            return writeln!(
                text,
                "{}: behind event {index} no more are looked at",
                page.name
            );
        };
        let parts = parts_of(alloc, page.bytes, *at)?;
        let wrong = WrongEvent {
            alloc,
            page,
            version,
            place,
            number,
            at: *at,
            parts: parts.as_slice(),
        };
        wrong.put(text, &event)?;
    }
    Ok(())
}
