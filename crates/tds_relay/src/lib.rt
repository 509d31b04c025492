//! A relay's core, without I/O: many applications share few connections to a server.
//!
//! [`Relay`] is told what came of applications and of connections, keeps what is to be sent to each,
//! and says by [`Order`]s which connection is to be opened, who is to be written to, and who closed.
//! An application is lent a connection at its first request, and holds it until it leaves or asks for
//! a reset itself; then the connection is cleaned at once.
#![tactic(auto)]

mod application;
mod fault;
mod index;
pub mod laws;
mod link;
mod links;
mod news;
mod order;
mod outgoing;
mod pool;
mod reading;
mod relay;
pub mod sharing_laws;
mod sorted;
mod state;

pub use order::Order;
pub use pool::{Figures, Heard, Hold, Left, Mode, Pool, Renewed, Served, What};
pub use relay::{Counts, Place, PlaceOn, Relay};

/// The answer of a growth that was refused.
pub type NoMemory = std::alloc::AllocError;
