//! The ends of a connection, fed with bytes: what a client and a server make of whatever comes, in
//! pieces of any size.
#![tactic(auto)]

pub mod all_bytes;
mod ends;
pub mod laws;
mod lending;
mod light;
mod listening;
mod reading;
mod serving;

pub use ends::{ClientEnd, ServerEnd};
pub use listening::{ClientFed, ClientStop, listen};
pub use serving::{ServerFed, ServerStop, serve};

/// What becomes of a request.
pub use tds_world::RequestStatus;

/// The answer of a growth that was refused.
pub type NoMemory = std::alloc::AllocError;
