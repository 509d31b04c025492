//! The room that texts have.

use crate::scene::{Look, Spot};

/// How many digits a number has.
pub fn digits(number: u32) -> usize {
    (number.checked_ilog10().unwrap_or(0) as usize).saturating_add(1)
}

/// How many characters a text has room for.
#[derive(Clone, Copy)]
pub struct Widths {
    /// An event, beside its row.
    pub event: usize,
    /// At the caller.
    pub place: usize,
    /// Between the caller and the client.
    pub client: usize,
    /// Behind the server.
    pub server: usize,
}

impl Widths {
    /// How many characters a line of a text has room for, of which its badge takes so many: at least 4.
    pub fn of(self, spot: Spot, look: Look, badge: usize) -> usize {
        let room = match spot {
            Spot::Place => self.place,
            Spot::Asked | Spot::Told => self.client.saturating_sub(2),
            Spot::Client => self.client,
            Spot::Server => self.server,
        };
        let taken = match look {
            Look::Struck => 2usize,
            Look::Pill => 1,
            _ => 0,
        };
        room.saturating_sub(taken.saturating_add(badge)).max(4)
    }
}
