//! Plays of the model over real bytes: the player, what carries its bytes, and a run from a
//! schedule's bytes to the printed report.
#![tactic(auto)]

mod carrier;
mod feeding;
mod hearing;
pub mod laws;
mod link;
mod memory;
mod player;
mod playing;
mod pool;
mod refusal;
mod request;
mod run;
mod seat;
mod starting;
mod step;
mod worlds;

pub use carrier::{Carrier, CarrierError, EventCarrier};
pub use memory::MemoryCarrier;
pub use playing::{play, play_with};
pub use refusal::PlayRefusal;
pub use run::{play_text, run_play};

/// The texts of a play.
pub use tds_text::{
    Command, LineFault, RenderFault, ScheduleFault, WordFault, read_schedule, read_words, render,
    right_or_wrong_somewhere, word_bytes,
};

/// Packets as text, and the vectors.
pub use tds_show::{run_show, run_vectors};

/// What a play is given, and what it answers.
pub use tds_world::{
    AbandonOutcome, CancelOutcome, ClientView, End, Event, EventReport, GiveBackOutcome, Layer,
    Opened, Outcome, Place, Refusal, Report, RequestReport, RequestStatus, SendOutcome, Sequence,
    Setup, Snapshot, WorkOutcome,
};

/// The answer of a growth that was refused.
pub type NoMemory = std::alloc::AllocError;
