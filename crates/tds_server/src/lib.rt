//! The server's end of a connection: a state machine without input or output. Packets go in, and
//! bytes come out.
//!
//! [`Server::take`] takes a packet of a request, or an attention. [`Server::work`] does one step of
//! the answer and appends its packet.
#![tactic(auto)]

mod answer;
mod fault;
pub mod laws;
mod message;
mod outcome;
mod packets;
mod server;
mod state;

pub use fault::ServerFault;
pub use outcome::{ServerTook, Worked};
pub use server::Server;
pub use tds_session::{
    Engine, Key, OnAttention, ScriptEngine, Session, Statement, Within, Word, begin_transaction,
    commit_transaction, roll_back_transaction,
};

/// The answer of a growth that was refused.
pub type NoMemory = std::alloc::AllocError;
