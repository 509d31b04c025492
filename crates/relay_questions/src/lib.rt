//! What a server is asked before applications share by transactions: whether it tells all that a reset would
//! change. Nothing here does input or output.
#![tactic(auto)]

mod asking;
pub mod laws;
mod request;
mod step;
mod text;

pub use asking::{Answer, Asking, Found};
pub use step::{Question, Step};

/// The answer of a growth that was refused.
pub type NoMemory = std::alloc::AllocError;
