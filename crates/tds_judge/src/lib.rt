//! A judge of any connection of TDS 7.2 to 7.4. It is handed the bytes of both directions, in the order in
//! which they were seen, and names each breach of MS-TDS and each risk, with its place and its time.
#![tactic(auto)]

mod data;
mod finding;
mod frame;
mod headers;
mod hearing;
mod judge;
pub mod laws;
mod noting;
mod packets;
mod parser;
mod runs;
mod talk;

pub use finding::{Direction, Finding, Level, Name, Spot};
pub use judge::{Judge, Unfinished};
pub use talk::Limits;
pub use tds_wire::Features;

/// The answer of a growth that was refused.
pub type NoMemory = std::alloc::AllocError;
