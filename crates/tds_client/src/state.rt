use crate::fault::ClientFault;

/// What a client is doing.
#[derive(Debug, Drop)]
pub enum ClientState {
    /// No request is underway.
    Idle,
    /// A request was started, and its last packet is not out.
    Sending,
    /// A request is out, and its answer has not ended.
    Reading,
    /// An attention is out, and is not acknowledged.
    Cancelling,
    /// The peer was at fault, or the connection was lost.
    Broken(ClientFault),
}

/// What `send` did.
#[derive(Clone, Copy, PartialEq, Eq, Debug)]
pub enum Sent {
    /// One packet is out, and there are more.
    More,
    /// The last packet is out: the client reads the answer.
    Last,
}

/// What `cancel` did.
#[derive(Clone, Copy, PartialEq, Eq, Debug)]
pub enum Cancelled {
    /// There was nothing to cancel.
    Nothing,
    /// An attention is out already.
    Already,
    /// No packet of the request was out: the client is idle.
    Unsent,
    /// An attention is out now.
    Asked,
}

/// What `take` did.
#[derive(Clone, Copy, PartialEq, Eq, Debug)]
pub enum Taken {
    /// The answer goes on, or the acknowledgement is still to come.
    More,
    /// The answer has ended: the client is idle.
    Finished,
    /// The attention is acknowledged: the client is idle.
    Acknowledged,
    /// A growth was refused. Nothing was taken, and everything is as it was.
    NoMemory,
}
