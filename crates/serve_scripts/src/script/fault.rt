//! Why a file is no script.

use std::alloc::AllocError;

/// Why a file is no script.
#[derive(Debug, Drop, thiserror::Error)]
pub enum ScriptFault {
    /// A line for each thing that is wrong, `NAME:LINE:COLUMN: ..`.
    #[error("{0}")]
    Wrong(String),
    #[error("error: memory")]
    Memory,
}

impl From<AllocError> for ScriptFault {
    fn from(_error: AllocError) -> ScriptFault {
        ScriptFault::Memory
    }
}
