//! What may not be meant in a schedule that is played.

use crate::language::{put_reason, wrong_statement};
use json_places::{Findings, Outline, Page, parts_of, unit_at};
use std::alloc::{AllocError, Global};
use std::fmt::Write;
use tds_play::{ClientView, Event, Outcome, Report, RequestReport, RequestStatus};
use tds_request::Request;

/// Appends a line for each batch that is answered by a syntax error, and where its text goes wrong.
pub(crate) fn put_texts(
    alloc: Global,
    text: &mut String,
    page: Page<'_>,
    outline: &Outline,
    events: &[Event],
) -> Result<(), AllocError> {
    let mut findings = Findings::new();
    for (index, event) in events.iter().enumerate() {
        let Event::Ask(_, Request::Batch(batch)) = event else {
            continue;
        };
        let Some((before, statement)) = wrong_statement(alloc, batch.units())? else {
            continue;
        };
        let parts = parts_of(alloc, page.bytes, outline.event_at(index))?;
        let start = parts.as_slice().get(2).copied().unwrap_or(0);
        if let Some(place) = findings.next(page, unit_at(page.bytes, start, before)) {
            place.put(text, page.name)?;
            put_place_in_text(text, index, before)?;
            put_reason(alloc, text, statement)?;
            text.push_str("\n")?;
        }
    }
    findings.put_rest(text, page, "texts that are not in the batch language")
}

/// Appends which event it is, and from where on its text is not in the language.
fn put_place_in_text(text: &mut String, index: usize, before: usize) -> Result<(), AllocError> {
    let event = index.saturating_add(1);
    let column = before.saturating_add(1);
    write!(
        text,
        "remark: event {event}: its text is not in the batch language from column {column} on, \
        and is answered by error 50001: "
    )
}

/// Appends a line for each request whose caller waits at the end, and for what.
pub(crate) fn put_open(
    text: &mut String,
    page: Page<'_>,
    outline: &Outline,
    report: &Report,
) -> Result<(), AllocError> {
    let mut findings = Findings::new();
    for (index, told) in report.events.as_slice().iter().enumerate() {
        let Outcome::Asked(number) = told.outcome else {
            continue;
        };
        let Some(request) = open_request(report, number) else {
            continue;
        };
        if let Some(place) = findings.next(page, outline.event_at(index)) {
            place.put(text, page.name)?;
            let event = index.saturating_add(1);
            write!(
                text,
                "remark: event {event}: at the end request {number} is "
            )?;
            put_due(text, report, request)?;
        }
    }
    findings.put_rest(text, page, "requests whose caller waits")
}

/// The request of this number, where its caller waits at the end.
fn open_request(report: &Report, number: u32) -> Option<&RequestReport> {
    let index = (number as usize).checked_sub(1)?;
    let request = report.requests.as_slice().get(index)?;
    match request.status {
        RequestStatus::Open | RequestStatus::Cancelling => Some(request),
        _ => None,
    }
}

/// Appends how a request stands, and which event is due next on its connection.
fn put_due(text: &mut String, report: &Report, request: &RequestReport) -> Result<(), AllocError> {
    let (lease, conn) = (request.lease, request.conn);
    let status = match request.status {
        RequestStatus::Cancelling => "cancelling",
        _ => "open",
    };
    match due_on(report, conn) {
        Due::Send => writeln!(text, "{status}, and [\"send\",{lease}] is due"),
        Due::ToServer(count) => {
            writeln!(text, "{status}, and [\"to_server\",{conn},{count}] is due")
        }
        Due::ToClient(count) => {
            writeln!(text, "{status}, and [\"to_client\",{conn},{count}] is due")
        }
        Due::Work => writeln!(text, "{status}, and [\"work\",{conn}] is due"),
    }
}

/// The event that a connection waits for.
enum Due {
    Send,
    ToServer(u64),
    ToClient(u64),
    Work,
}

/// What a connection waits for at the end.
fn due_on(report: &Report, conn: u32) -> Due {
    let Some(last) = report.events.as_slice().last() else {
        return Due::Work;
    };
    for snapshot in last.snapshots.as_slice() {
        if snapshot.conn == conn {
            return match (snapshot.client, snapshot.to_server, snapshot.to_client) {
                (ClientView::Sending, _, _) => Due::Send,
                (_, 1.., _) => Due::ToServer(snapshot.to_server),
                (_, _, 1..) => Due::ToClient(snapshot.to_client),
                _ => Due::Work,
            };
        }
    }
    Due::Work
}
