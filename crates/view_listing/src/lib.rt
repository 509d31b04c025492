//! Listings of a play: its packets, as digits, spelled out, or as frames for Wireshark; and its
//! connections after each event.
#![tactic(auto)]

mod bytes;
mod frames;
mod report;
mod snapshots;

pub use bytes::{BytesForm, print_bytes};
pub use report::report_text;
pub use snapshots::print_snapshots;
