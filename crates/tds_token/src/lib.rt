//! The tokens of the Tabular Data Stream (MS-TDS 2.2.7), read exactly where a packet's data spell
//! them, and written so that they are read again.
//!
//! A packet's data are read by `Tokens`, which lends each token as a `TokenRef`. `TokenRef::own`
//! gives the same token in memory of its own, a `Token`, and `put_token` writes one.
#![tactic(auto)]

mod columns;
pub mod done_status;
mod env_change;
mod fault;
mod fits;
pub mod laws;
mod message;
mod reading;
mod row;
mod rows;
mod text;
mod token;
mod tokens;
mod writing;

pub use columns::{Column, ColumnList, ColumnRef, Columns, ColumnsLeft, ColumnsRef};
pub use env_change::EnvChange;
pub use fault::TokenFault;
pub use message::{Message, MessageRef};
pub use row::{Row, RowRef, Values};
pub use rows::Rows;
pub use text::{Text, TextRef};
pub use token::{Token, TokenRef};
pub use tokens::Tokens;
pub use writing::put_token;

/// The answer of a growth that was refused.
pub type NoMemory = std::alloc::AllocError;
