//! A play with its packets and its connections, as its trace tells them.
#![tactic(auto)]

mod conns;
mod exchange;
mod packets;

pub use exchange::{Exchange, play_kept};
pub use packets::Packet;
