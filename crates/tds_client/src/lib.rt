//! The client's end of a connection that speaks the Tabular Data Stream (MS-TDS): a state machine
//! that does no input or output. Packets go in and tokens come out; what is to be sent is appended
//! to a vector.
#![tactic(auto)]

mod client;
mod fault;
mod heard;
pub mod heard_laws;
pub mod laws;
mod message;
mod packets;
mod sign;
mod state;
pub mod stream_laws;
mod walks;

pub use client::{Client, ClientParts, Fill, NextPacket, StageParts};
pub use fault::{ClientFault, ClientRefusal};
pub use heard::{FinalDone, Heard};
pub use message::MessageKind;
pub use sign::{DoneKind, Rules, Sign, sign_of};
pub use state::{Cancelled, ClientState, Sent, Taken};

/// The answer of a growth that was refused.
pub type NoMemory = std::alloc::AllocError;
