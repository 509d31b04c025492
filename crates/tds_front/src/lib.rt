//! An application's end of a relay: a server's rules for what a client sends (MS-TDS 2.2.1, 2.2.3.1),
//! without an engine. Messages of any kind go through it as they come, and none is held.
//!
//! [`Front`] takes bytes in pieces of any size and says what is to be done: a request begins, these
//! bytes go on behind it, it has ended, it is to be forgotten; an attention is to be acknowledged at
//! once, or to be handed on. Nothing here does input or output.
#![tactic(auto)]

mod fault;
mod front;
pub mod laws;
mod parts;
mod stage;

pub use fault::FrontFault;
pub use front::{Due, Fed, Front, Part, Said};
pub use stage::{Action, Head, Stage};
