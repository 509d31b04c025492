//! Tokens of answers that are spelled as a SQL Server spells them (MS-TDS 2.2.7): columns of numbers and
//! of texts, a row, what has changed, messages, and what ends an answer to a call of a procedure.
//!
//! Each call appends one token. A text is UTF-16 units.
#![tactic(auto)]

mod changes;
mod fields;
mod messages;
mod rows;
mod shapes;

pub use changes::{COLLATION, put_collation_change, put_size_change, put_text_change};
pub use messages::{
    DONE_LENGTH, Done, put_done, put_error, put_info, put_login_ack, put_no_utf8,
    put_return_status, put_return_value,
};
pub use rows::{Column, Value, put_columns, put_row};
pub use shapes::{put_shaped_columns, put_shaped_null_row, put_shaped_row};

/// The answer of a growth that was refused.
pub type NoMemory = std::alloc::AllocError;
