//! For how long an application keeps the connection that it is lent.

/// For how long.
#[derive(Clone, Copy, PartialEq, Eq)]
pub enum Share {
    /// Until it leaves, or asks for a reset.
    Session,
    /// Until another one needs it, and the server says that nothing would be lost.
    Transaction,
}

impl Share {
    /// What this word says; None where it is none of the two.
    pub fn read(word: &str) -> Option<Share> {
        match word {
            "session" => Some(Share::Session),
            "transaction" => Some(Share::Transaction),
            _ => None,
        }
    }
}
