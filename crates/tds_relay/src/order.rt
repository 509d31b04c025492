//! What whoever carries the relay's bytes is to do.

/// What is to be done. Tags are those that the relay was given.
#[derive(Clone, Copy, Debug, PartialEq, Eq)]
pub enum Order {
    /// Open a connection for this number, and tell of it by `opening`, then `opened` or `lost`.
    Open(u64),
    /// Something is to be sent to the application or on the connection of this tag.
    Write(usize),
    /// Close what has this tag, behind what the system still takes of what waits for it; and tell of an
    /// application's end by `left`.
    Close(usize),
}
