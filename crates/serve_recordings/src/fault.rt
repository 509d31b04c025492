//! Why a file is no recording.

use std::alloc::AllocError;

/// Why a file is no recording.
#[derive(Debug, Drop, thiserror::Error)]
pub enum RecordingFault {
    /// A line, `NAME:LINE:COLUMN: ..`.
    #[error("{0}")]
    Wrong(String),
    #[error("error: memory")]
    Memory,
}

impl From<AllocError> for RecordingFault {
    fn from(_error: AllocError) -> RecordingFault {
        RecordingFault::Memory
    }
}
