//! The tokens of answers' packets as text: where each stands in its message, what it is, and how
//! long it is, for any answer of TDS 7.2 to 7.4.

mod answers;
mod front;
mod line;
mod message;
mod run;

pub use answers::put_answers;
pub use run::run_tokens;
