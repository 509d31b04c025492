//! The sockets of a relay: what each is and what it is at, which have a turn, what is read and sent, and
//! what a judge finds of that.
#![tactic(auto)]

mod due;
mod ending;
mod judging;
mod link;
mod role;
mod room;
mod sending;
mod socket;
mod sockets;
mod watching;

pub use ending::Cause;
pub use link::{Came, Failed, Link, News};
pub use role::{Application, Coming, Connection, Owed, Role, RoleKind};
pub use room::{Admission, Room};
pub use socket::{Gone, Seen, Socket, names_of};
pub use sockets::{ROUND, Sockets};
