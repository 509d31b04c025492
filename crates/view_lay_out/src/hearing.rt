//! What stands in a picture for those who hear it.

use std::alloc::{AllocError, Global};
use std::fmt::Write;
use tds_play::{Outcome, RequestReport, RequestStatus};
use view_trace::Exchange;

/// How many requests are told.
const MOST: usize = 20;

/// The title of the picture of a file of this name: its last part, in ASCII.
pub(crate) fn title_of(alloc: Global, name: &str) -> Result<String, AllocError> {
    let mut title = String::from_str(alloc, "The play of ")?;
    for character in name.rsplit('/').next().unwrap_or("").chars() {
        match character {
            ' '..='~' => title.push(character)?,
            _ => title.push('?')?,
        }
    }
    Ok(title)
}

/// How many events there are, and what became of each request.
pub(crate) fn description_of(alloc: Global, exchange: &Exchange) -> Result<String, AllocError> {
    let report = &exchange.report;
    let mut refused = 0usize;
    for told in report.events.as_slice() {
        if matches!(told.outcome, Outcome::Refused(_)) {
            refused = refused.saturating_add(1);
        }
    }
    let mut text = String::new(alloc);
    write!(text, "{} events, {refused} refused.", exchange.events.len())?;
    let requests = report.requests.as_slice();
    for (index, request) in requests.iter().take(MOST).enumerate() {
        put_request(&mut text, index.saturating_add(1), request)?;
    }
    if requests.len() > MOST {
        write!(text, " And {} more.", requests.len().saturating_sub(MOST))?;
    }
    Ok(text)
}

fn put_request(
    text: &mut String,
    number: usize,
    request: &RequestReport,
) -> Result<(), AllocError> {
    let RequestReport { lease, conn, .. } = request;
    let status = match request.status {
        RequestStatus::Open => "open",
        RequestStatus::Cancelling => "cancelling",
        RequestStatus::Finished => "finished",
        RequestStatus::Acknowledged => "acknowledged",
        RequestStatus::Unsent => "unsent",
        RequestStatus::Lost => "lost",
    };
    write!(
        text,
        " Request {number}, of lease {lease} on connection {conn}: {status}."
    )
}
