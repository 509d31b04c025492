//! The texts of a play: the schedule that it is read from, the report that is printed of it, and the
//! command line that asks for it. Nothing here plays.
#![tactic(auto)]

mod arguments;
mod hexadecimal;
mod rendering;
mod schedule;

pub use arguments::{Command, LineFault, read_words};
pub use hexadecimal::{WordFault, word_bytes};
pub use rendering::{
    RenderFault, put_hex2, put_hex4, put_token_line, put_units, render, write_whole,
};
pub use schedule::{ScheduleFault, read_schedule, right_or_wrong_somewhere};

/// The answer of a growth that was refused.
pub type NoMemory = std::alloc::AllocError;
