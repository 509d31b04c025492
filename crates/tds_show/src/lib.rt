//! The bytes of packets, shown as text; the tokens of any answer, shown as text; and the vectors:
//! packets that the readers and the writers are held to.
#![tactic(auto)]

mod ending;
mod showing;
mod tokens;
mod vectors;

pub use showing::run_show;
pub use tokens::{put_answers, run_tokens};
pub use vectors::{VECTORS, Vector, run_vectors, run_vectors_among};
