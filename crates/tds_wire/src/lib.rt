//! Where each token of an answer ends (MS-TDS 2.2.7), for every type of column of TDS 7.4, as bytes come
//! in pieces of any size. No value is kept: what is remembered is the shape of each column, a null bitmap,
//! and which number or run of bytes is due.
#![tactic(auto)]

mod cursor;
mod due;
mod fault;
mod features;
mod head;
mod laws;
mod lent;
mod memory;
mod parser;
mod rows;
mod shape;
mod told;
mod types;
mod whole;

pub use cursor::Cursor;
pub use due::{
    At, ColumnField, Due, Field, Inside, KeyField, LabelField, Next, TokenField, TypeField,
    ValueField,
};
pub use fault::{Refusal, WireFault};
pub use features::Features;
pub use head::Head;
pub use laws::{cuts_do_not_matter, tokens_are_passed};
pub use lent::{Fed, LentWalk};
pub use memory::{Column, Memory};
pub use parser::TokenParser;
pub use rows::{row_token, whole_row};
pub use shape::Shape;
pub use told::{Change, ChangeValue, Done, Message, Place, SessionState, Token, Told};
pub use whole::whole_token;

/// The answer of a growth that was refused.
pub type NoMemory = std::alloc::AllocError;
