use tds_request::Request;
use tds_session::OnAttention;

/// What a play begins with.
#[derive(Clone, Copy, Debug, PartialEq, Eq)]
pub struct Setup {
    /// The greatest length of a packet, in bytes with its header: 512 to 32,767, equal at both
    /// ends.
    pub packet_size: u16,
    /// How many connections may be open at once: 1 to 64.
    pub max: u8,
    /// What a server does with its session's transaction where an attention stops an answer.
    pub on_attention: OnAttention,
}

/// One event of a schedule. Leases, tickets, requests and connections are numbered from 1, each in
/// the order in which they come to be.
#[derive(Debug, Drop)]
pub enum Event {
    /// A free connection is lent, or a new one is opened.
    Lease,
    /// The connection that this ticket keeps is lent again, with its transaction.
    Resume(u32),
    /// This lease ends. What is underway on it is cancelled.
    GiveBack(u32),
    /// This lease ends and becomes a ticket, which keeps the connection's transaction.
    Keep(u32),
    /// This ticket ends.
    Abandon(u32),
    /// This connection, which is free, is cleaned: a request of the pool's own goes out, all of it,
    /// and asks for a full reset. Nobody is lent it until the answer has come.
    Clean(u32),
    /// A request is asked under this lease. None of it goes out yet.
    Ask(u32, Request),
    /// The request of this lease sends its next packet.
    Send(u32),
    /// The request of this lease is cancelled.
    Cancel(u32),
    /// The server of this connection does the next step of the answer that is due.
    Work(u32),
    /// Of the bytes underway to this connection's server, at most so many come.
    ToServer(u32, u32),
    /// Of the bytes underway to this connection's client, at most so many come.
    ToClient(u32, u32),
    /// This connection is cut.
    Cut(u32),
    /// The server ends and begins anew: each connection is cut.
    RestartServer,
    /// The client ends and begins anew: each connection is cut, and each lease and ticket ends.
    RestartClient,
}
