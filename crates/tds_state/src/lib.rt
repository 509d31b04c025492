//! What a server said of its session (MS-TDS 2.2.7.9, 2.2.7.11, 2.2.7.21), and whether it rests: whether,
//! by all that was said, a reset would change nothing of it.
#![tactic(auto)]

mod answers;
mod asked;
mod handles;
mod hearing;
mod kept;
pub mod laws;
mod packets;
mod prefix;
mod reasons;
mod resets;
mod session;
mod spots;
mod states;
mod tracker;
mod values;
mod watch;

pub use asked::{Asked, Call, Request};
pub use handles::{Handles, Returned};
pub use kept::Kept;
pub use reasons::Reason;
pub use session::{Flight, Session};
pub use states::StateSpot;
pub use tracker::Tracker;
pub use values::Values;
pub use watch::Watch;

/// The answer of a growth that was refused.
pub type NoMemory = std::alloc::AllocError;
