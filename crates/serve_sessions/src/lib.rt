//! One connection of `tdsserve` without input and output: its login, then its session. A [`Peer`] takes what comes,
//! does the steps of answers, as a script says, and tells what is to be sent.
#![tactic(auto)]

mod answering;
mod asked;
mod front;
mod peer;
mod shaping;

pub use front::Took;
pub use peer::{Asked, CROWDED, FULL, MOST_WAITING, Next, Note, Peer};
