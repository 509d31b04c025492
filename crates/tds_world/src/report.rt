//! What is told of a play, and what the session laws say of it.

pub mod laws;
pub mod losses;

use crate::outcome::Outcome;
use crate::sequence::Sequence;
use tds_packet::Reset;
use tds_session::Session;
use tds_token::Token;

/// All that is told of a play.
#[derive(Debug, Drop)]
pub struct Report {
    /// Of each event, in order.
    pub events: Sequence<EventReport>,
    /// Of each request, in the order in which they were asked.
    pub requests: Sequence<RequestReport>,
}

/// What is told of an event.
#[derive(Debug, Drop)]
pub struct EventReport {
    pub outcome: Outcome,
    /// Whether what carries the connection's bytes failed in this event, so that it was cut.
    pub lost: bool,
    /// Of each connection that isn't cut, as it is after the event, by rising number.
    pub snapshots: Sequence<Snapshot>,
}

/// What is told of a request.
#[derive(Debug, Drop)]
pub struct RequestReport {
    pub lease: u32,
    pub conn: u32,
    pub status: RequestStatus,
    /// The session that it ran in, if a step of its answer was taken: the one after its reset, or
    /// without a reset the one before the first step.
    pub ran: Option<Session>,
    /// The tokens that its caller was given.
    pub tokens: Sequence<Token>,
}

/// What became of a request.
#[derive(Clone, Copy, Debug, PartialEq, Eq)]
pub enum RequestStatus {
    /// Its answer isn't whole yet.
    Open,
    /// It was cancelled, and the attention isn't acknowledged yet.
    Cancelling,
    /// Its answer is whole.
    Finished,
    /// It was cancelled, and the attention is acknowledged.
    Acknowledged,
    /// It was cancelled before its first packet.
    Unsent,
    /// Its connection was cut first.
    Lost,
}

/// A connection after an event.
#[derive(Debug, Drop)]
pub struct Snapshot {
    pub conn: u32,
    pub client: ClientView,
    pub place: Place,
    /// The transaction descriptor that the client heard last; 0 outside a transaction.
    pub descriptor: u64,
    /// The reset that the next request asks for.
    pub mark: Option<Reset>,
    /// The session at the server.
    pub server: Session,
    /// How many bytes are underway to the server.
    pub to_server: u64,
    /// How many bytes are underway to the client.
    pub to_client: u64,
}

/// What a client shows in a snapshot. A broken client shows nothing, since its connection is cut.
#[derive(Clone, Copy, Debug, PartialEq, Eq)]
pub enum ClientView {
    Idle,
    Sending,
    Reading,
    Cancelling,
}

/// Where a connection that isn't cut stands in the pool.
#[derive(Clone, Copy, Debug, PartialEq, Eq)]
pub enum Place {
    /// It is lent under this lease.
    Leased(u32),
    /// This ticket keeps it.
    Kept(u32),
    /// It can be lent.
    Free,
    /// It was given back, and something is still underway.
    Draining,
}
