//! Packets of the Tabular Data Stream (MS-TDS 2.2.3.1), read in pieces of any size and written whole.
//!
//! [`PacketReader`] takes bytes as they come and lends each packet once it is whole. [`put_packet`] writes one.
//! Nothing here does input or output: bytes go in and packets come out.
#![tactic(auto)]

mod fault;
mod header;
mod kind;
pub mod laws;
mod passing;
mod reader;
mod size;
mod status;

pub use fault::PacketFault;
pub use header::{Header, put_packet, put_sent, sent_header};
pub use kind::{Direction, Kind};
pub use passing::{Head, HeaderReader, Passed};
pub use reader::{PacketReader, PacketRef};
pub use size::PacketSize;
pub use status::{Reset, Status};

/// The answer of a growth that was refused.
pub type NoMemory = std::alloc::AllocError;
