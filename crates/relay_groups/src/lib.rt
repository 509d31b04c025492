//! The groups of a relay: applications whose logins are equal, their sockets, and what is told of them. Nothing here opens
//! a connection, or ends one that others hear of.
#![tactic(auto)]

mod asking;
mod authenticating;
mod capacity;
mod checking;
mod counting;
mod dialing;
mod group;
mod joining;
mod leaving;
mod pairs;
mod parting;
mod resting;
mod saying;
mod sending;
mod settling;
mod state;
mod telling;
mod upstream;
mod watched;

pub use asking::{Asked, watch_behind};
pub use capacity::Slot;
pub use group::{Group, Pair, Stage};
pub use joining::Said;
pub use parting::Parting;
pub use resting::{Rest, Resting};
pub use saying::{put_away, put_name};
pub use state::{RelayState, relay_of};
pub use upstream::{Failure, Upstream};
pub use watched::Watched;
