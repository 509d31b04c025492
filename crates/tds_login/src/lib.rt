//! The login of a connection (MS-TDS 2.2.6.4, 2.2.6.5): PRELOGIN and LOGIN7 in pieces of any size, and what a
//! server answers to them. Nothing here does input or output, and no password is read or kept.
//!
//! [`Login`] takes bytes until the connection is let in or refused, and says what is to be answered;
//! [`put_answer`] writes it. [`without_line_ends`] and [`is_own_setting`] say what of a batch is a client
//! program's or a driver's own, and not its user's.
#![tactic(auto)]

mod answer;
mod asked;
mod asking;
mod batch;
mod laws;
mod login;

pub use answer::{LoginAnswer, Refusal, Terms, put_answer, put_done, put_error, put_let_in};
pub use asking::{is_let_in, put_login};
pub use batch::{is_own_setting, without_line_ends};
pub use laws::cuts_do_not_matter;
pub use login::{Login, LoginFault, LoginFed};

/// The answer of a growth that was refused.
pub type NoMemory = std::alloc::AllocError;
