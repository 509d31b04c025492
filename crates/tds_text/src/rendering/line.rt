ghost use Rattle.std.specs.Prelude.{◌≡◌, ◌++◌, OnOk, string_bytes};
ghost use Rattle.tds_text.specs.Lines.{event_line, request_head, request_line, request_block, connection_head, client_text, underway_text, connection_line, status_word, ran_text, client_word, place_text, mark_word};

use crate::rendering::outcome::put_outcome;
use crate::rendering::session::put_session;
use crate::rendering::token::put_token_line;
use std::alloc::AllocError;
use std::fmt::Write;
use tds_packet::Reset;
use tds_session::Session;
use tds_world::{ClientView, EventReport, Place, RequestReport, RequestStatus, Snapshot};

/// Appends the line of the event at a place.
pub(crate) fn put_event(
    text: &mut String,
    place: usize,
    event: &EventReport,
) -> Result<(), AllocError>
    ensures { OnOk result
        (string_bytes text.new ≡ string_bytes text.old ++ event_line place event.now) }
{
    write!(text, "{place} ")?;
    put_outcome(text, event.outcome)?;
    if event.lost {
        text.push_str(" lost")?;
    }
    text.push_str("\n")
}

/// Appends the block of the request of a number.
pub(crate) fn put_request(
    text: &mut String,
    number: usize,
    request: &RequestReport,
) -> Result<(), AllocError>
    ensures { OnOk result
        (string_bytes text.new ≡ string_bytes text.old ++ request_block number request.now) }
{
    put_request_line(text, number, request)?;
    for token in request.tokens.as_slice() {
        put_token_line(text, token)?;
    }
    Ok(())
}

fn put_request_line(
    text: &mut String,
    number: usize,
    request: &RequestReport,
) -> Result<(), AllocError>
    ensures { OnOk result
        (string_bytes text.new ≡ string_bytes text.old ++ request_line number request.now) }
{
    put_request_head(text, number, request)?;
    write!(text, " {} ", status_word_of(request.status))?;
    put_ran(text, &request.ran)?;
    text.push_str("\n")
}

#[tactic(auto, unfolding(crate::specs::Lines::request_head))]
fn put_request_head(
    text: &mut String,
    number: usize,
    request: &RequestReport,
) -> Result<(), AllocError>
    ensures { OnOk result
        (string_bytes text.new ≡ string_bytes text.old ++ request_head number request.now) }
{
    let RequestReport { lease, conn, .. } = request;
    write!(text, "request {number} lease {lease} on {conn}")
}

fn put_ran(text: &mut String, ran: &Option<Session>) -> Result<(), AllocError>
    ensures { OnOk result (string_bytes text.new ≡ string_bytes text.old ++ ran_text ran.now) }
{
    match ran {
        None => text.push_str("not run"),
        Some(session) => {
            text.push_str("ran ")?;
            put_session(text, session)
        }
    }
}

/// Appends the line of a connection.
pub(crate) fn put_connection(text: &mut String, snapshot: &Snapshot) -> Result<(), AllocError>
    ensures { OnOk result
        (string_bytes text.new ≡ string_bytes text.old ++ connection_line snapshot.now) }
{
    put_connection_head(text, snapshot)?;
    text.push_str(" ")?;
    put_place(text, snapshot.place)?;
    put_client(text, snapshot)?;
    text.push_str(" server ")?;
    put_session(text, &snapshot.server)?;
    put_underway(text, snapshot)?;
    text.push_str("\n")
}

#[tactic(auto, unfolding(crate::specs::Lines::connection_head))]
fn put_connection_head(text: &mut String, snapshot: &Snapshot) -> Result<(), AllocError>
    ensures { OnOk result
        (string_bytes text.new ≡ string_bytes text.old ++ connection_head snapshot.now) }
{
    let Snapshot { conn, client, .. } = snapshot;
    write!(text, "connection {conn} {}", client_word_of(*client))
}

#[tactic(auto, unfolding(crate::specs::Lines::client_text))]
fn put_client(text: &mut String, snapshot: &Snapshot) -> Result<(), AllocError>
    ensures { OnOk result
        (string_bytes text.new ≡ string_bytes text.old ++ client_text snapshot.now) }
{
    let descriptor = snapshot.descriptor;
    write!(
        text,
        " descriptor {descriptor} mark {}",
        mark_word_of(snapshot.mark)
    )
}

#[tactic(auto, unfolding(crate::specs::Lines::underway_text))]
fn put_underway(text: &mut String, snapshot: &Snapshot) -> Result<(), AllocError>
    ensures { OnOk result
        (string_bytes text.new ≡ string_bytes text.old ++ underway_text snapshot.now) }
{
    let Snapshot {
        to_server,
        to_client,
        ..
    } = snapshot;
    write!(text, " underway {to_server} {to_client}")
}

fn put_place(text: &mut String, place: Place) -> Result<(), AllocError>
    ensures { OnOk result (string_bytes text.new ≡ string_bytes text.old ++ place_text place) }
{
    match place {
        Place::Leased(lease) => write!(text, "leased {lease}"),
        Place::Kept(ticket) => write!(text, "kept {ticket}"),
        Place::Free => text.push_str("free"),
        Place::Draining => text.push_str("draining"),
    }
}

fn status_word_of(status: RequestStatus) -> &'static str
    ensures { result.now ≡ status_word status }
{
    match status {
        RequestStatus::Open => "open",
        RequestStatus::Cancelling => "cancelling",
        RequestStatus::Finished => "finished",
        RequestStatus::Acknowledged => "acknowledged",
        RequestStatus::Unsent => "unsent",
        RequestStatus::Lost => "lost",
    }
}

fn client_word_of(client: ClientView) -> &'static str
    ensures { result.now ≡ client_word client }
{
    match client {
        ClientView::Idle => "idle",
        ClientView::Sending => "sending",
        ClientView::Reading => "reading",
        ClientView::Cancelling => "cancelling",
    }
}

fn mark_word_of(mark: Option<Reset>) -> &'static str
    ensures { result.now ≡ mark_word mark }
{
    match mark {
        None => "none",
        Some(Reset::Full) => "full",
        Some(Reset::KeepTransaction) => "keep",
    }
}
