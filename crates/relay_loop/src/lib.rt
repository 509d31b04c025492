//! What a relay does with its sockets: logins on both sides, by which server, what its groups' cores say is
//! to be done, and what follows where a socket ends.
#![tactic(auto)]

mod asking;
mod authenticating;
mod capacity;
mod checking;
mod dial_queue;
mod dialing;
mod disconnecting;
mod ending;
mod event_loop;
mod group_sizes;
mod logins;
mod names;
mod naming;
mod orders;
mod pairs;
mod parting;
mod reaching;
mod reauthenticating;
mod routing;
mod sending;

pub use event_loop::EventLoop;
