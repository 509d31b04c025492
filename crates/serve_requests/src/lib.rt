//! The requests that drivers send first, and what a server of the batch language runs for each: batches of
//! settings and of what a server tells of itself, calls of procedures with texts and parameters, bulk loads.
//!
//! A [`MessageReader`] takes messages of all types; [`Habits`] plans what is run, and what is told of it.
#![tactic(auto)]

mod call;
mod headers;
mod making;
mod message;
mod plan;
mod rows;
mod session;
mod statements;
mod substituting;
mod transactions;

pub use call::{Call, CallFault, Procedure, read_call};
pub use headers::behind_headers;
pub use message::{KEPT_OF_CALL, MessageKind, MessageReader, Stop, Whole};
pub use plan::{Action, End, LONGEST, Plan};
pub use session::Habits;
pub use transactions::transaction_name;
