//! The connection that an event was about, by what is told of it and of those before it.

use tds_play::{Event, EventReport, Outcome, Refusal};

/// The connection that the event at this place was about; none where it was about all, or about none
/// that there is.
pub(crate) fn conn_of(events: &[Event], told: &[EventReport], index: usize) -> Option<u32> {
    let outcome = told.get(index)?.outcome;
    match events.get(index)? {
        Event::Lease | Event::Resume(_) => match outcome {
            Outcome::Leased { conn, .. } => Some(conn),
            _ => None,
        },
        Event::GiveBack(lease)
        | Event::Keep(lease)
        | Event::Ask(lease, _)
        | Event::Send(lease)
        | Event::Cancel(lease) => lent_under(events, told, index, *lease),
        Event::Abandon(ticket) => kept_by(events, told, index, *ticket),
        Event::Clean(conn)
        | Event::Work(conn)
        | Event::ToServer(conn, _)
        | Event::ToClient(conn, _)
        | Event::Cut(conn) => match outcome {
            Outcome::Refused(Refusal::UnknownConnection) => opened(told, index, *conn),
            _ => Some(*conn),
        },
        Event::RestartServer | Event::RestartClient => None,
    }
}

/// The connection that was lent under this lease in one of the events up to this place.
fn lent_under(events: &[Event], told: &[EventReport], index: usize, lease: u32) -> Option<u32> {
    for place in (0..index.saturating_add(1)).rev() {
        match (events.get(place)?, told.get(place)?.outcome) {
            (
                _,
                Outcome::Leased {
                    lease: it,
                    conn,
                    ..
                },
            ) if it == lease => return Some(conn),
            (Event::Clean(conn), Outcome::Cleaning { lease: it, .. }) if it == lease => {
                return Some(*conn);
            }
            _ => {}
        }
    }
    None
}

/// The connection that this ticket kept since one of the events up to this place.
fn kept_by(events: &[Event], told: &[EventReport], index: usize, ticket: u32) -> Option<u32> {
    for place in (0..index.saturating_add(1)).rev() {
        match (events.get(place)?, told.get(place)?.outcome) {
            (Event::Keep(lease), Outcome::Kept(it)) if it == ticket => {
                return lent_under(events, told, place, *lease);
            }
            _ => {}
        }
    }
    None
}

/// This connection, where it was opened in one of the events up to this place.
fn opened(told: &[EventReport], index: usize, conn: u32) -> Option<u32> {
    for place in (0..index.saturating_add(1)).rev() {
        match told.get(place)?.outcome {
            Outcome::Leased { conn: it, .. } if it == conn => return Some(conn),
            _ => {}
        }
    }
    None
}
