//! What the calls of a server answer.

/// What came of a packet.
#[derive(Clone, Copy, Debug, PartialEq, Eq)]
pub enum ServerTook {
    /// It is a part of a request's message.
    More,
    /// It ends a request's message, and the request is being answered from now on.
    Request,
    /// It ends a message that is to be ignored, and the message is forgotten.
    Dropped,
    /// It is an attention, and the acknowledgement was appended.
    Acknowledged,
    /// Memory was wanted, and nothing changed.
    NoMemory,
}

/// What a call of `work` did.
#[derive(Clone, Copy, Debug, PartialEq, Eq)]
pub enum Worked {
    /// Nothing: no request is being answered.
    Idle,
    /// One step of the answer, and more are left.
    Step,
    /// The last step of the answer.
    Finished,
}
