//! Recorded sessions, as `beside/tdsprobe` and `drivers/record` write them: a JSON file with every byte both
//! ways. [`read_recording`] finds the requests in it and what each was answered with; a [`Recording`] finds
//! them again.
#![tactic(auto)]

mod digits;
mod fault;
mod gathering;
mod packets;
mod places;
mod reading;
mod recording;

pub use digits::bytes_of;
pub use fault::RecordingFault;
pub use reading::read_recording;
pub use recording::{Exchange, Recorded, Recording, Sought, body_of};
