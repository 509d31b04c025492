//! The trace of a play: what each event came to, and each call that it made at its carrier, with the
//! bytes. It is kept by a carrier that records, and printed as lines of JSON.
#![tactic(auto)]

mod call;
mod fault;
pub mod laws;
mod lines;
mod recording;
mod run;
mod tracing;

pub use call::{Call, Made};
pub use lines::put_trace;
pub use recording::RecordingCarrier;
pub use run::run_trace;
pub use tracing::{Trace, play_traced};
