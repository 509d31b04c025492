//! The connections of a service, in front of any server: one connection, a table of them, and what
//! each promises.
#![tactic(auto)]

mod connection;
mod hearing;
mod index;
pub mod laws;
mod outcome;
mod place;
mod refusal;
mod seat;
mod service;
pub mod table_laws;

pub use connection::Connection;
pub use outcome::{Came, Outcome};
pub use place::{Place, Rest};
pub use refusal::Refusal;
pub use service::{Asked, Lent, Service};
