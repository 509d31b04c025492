//! What came of a packet.

use tds_listen::ListenFault;

/// What came of a packet.
#[derive(Debug, Drop)]
pub enum Outcome {
    /// The answer goes on, or the acknowledgement of a cancel is still to come.
    More,
    /// The request has its whole answer.
    Finished,
    /// The cancel of the request is acknowledged.
    Acknowledged,
    /// The connection is broken, and nothing of the packet is told.
    Fault(ListenFault),
}

/// What came of a packet, and whose it is.
#[derive(Debug, Drop)]
pub struct Came {
    /// The lease that holds the connection, where one does.
    pub lease: Option<u64>,
    /// The number of its newest request, to which all that is told belongs.
    pub request: u64,
    pub outcome: Outcome,
}
