//! Where a program listens, over TCP or a Unix socket; the links that come there; and how the system looks
//! after a link whose peer may vanish.
#![tactic(auto)]

mod keeping;
mod place;

pub use keeping::{Keeping, USUAL, keep};
pub use place::{Link, Listener, Place};
