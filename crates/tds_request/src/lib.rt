//! The requests that a client sends to a server in the Tabular Data Stream (MS-TDS): a batch of
//! statements, and the transaction manager's begin, commit and rollback. Each stands behind
//! ALL_HEADERS, is written as it is spelled, and is read exactly where it is spelled so.
#![tactic(auto)]

mod decoding;
mod encoding;
mod fault;
mod fields;
mod isolation;
pub mod laws;
mod request;
mod text;

pub use decoding::decode;
pub use encoding::{encode, headers};
pub use fault::RequestFault;
pub use isolation::Isolation;
pub use request::{Request, RequestKind};
pub use text::BatchText;

/// The answer of a growth that was refused.
pub type NoMemory = std::alloc::AllocError;
