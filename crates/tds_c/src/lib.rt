//! The client's end of a connection for C, and for whatever can call C: packets, the client and
//! tokens; and a table of connections (`service`). Nothing is kept between two calls: a client is a plain
//! value in the caller's memory, and so is a table.
//!
//! `include/tds.h` declares the client's exports, says what a caller owes, and names each number.
#![tactic(auto)]

mod answers;
mod asking;
pub mod asking_laws;
mod attentions;
mod buffer;
mod calls;
mod client;
mod exports;
mod heard;
mod messages;
mod numbers;
mod packets;
mod requests;
pub mod service;
mod streams;
mod tokens;
mod version;
mod wire;
