//! A connection of the pool, as the slab keeps it.
use crate::lease::Turn;
use tds_client::Client;

/// Where a connection stands in its pool.
#[derive(Clone, Copy, PartialEq, Eq, Debug)]
pub enum Place {
    /// It is lent.
    Leased,
    /// It is kept with its transaction.
    Kept,
    /// It may be lent.
    Free,
    /// It was given back, and is free when its client is idle.
    Draining,
    /// A request of the pool's own resets it, and it is free when the answer has come.
    Cleaning,
}

/// A connection: its number, the turn of its lending now or of its next one, where it stands, and its
/// client.
#[derive(Debug, Drop)]
pub(crate) struct Seat {
    pub(crate) number: u32,
    pub(crate) turn: Turn,
    pub(crate) place: Place,
    pub(crate) client: Client,
}
