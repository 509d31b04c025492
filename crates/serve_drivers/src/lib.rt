//! A server of the batch language for TDS drivers, over TCP or a Unix socket: one thread, many connections.
//!
//! A [`EventLoop`] serves whoever comes, until it is to end or a round at a time.
#![tactic(auto)]

mod connection;
mod log;
mod serving;

pub use log::{Log, Style};
pub use serving::{EventLoop, Manner};
