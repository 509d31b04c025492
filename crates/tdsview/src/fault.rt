//! What ends a command.

use std::alloc::{AllocError, AllocFailed};
use tds_play::RenderFault;

/// Why a command ends before all is printed.
#[derive(Drop)]
pub(crate) enum ViewFault {
    /// These lines say it.
    Told(String),
    /// A write failed.
    Output,
    /// Memory.
    Memory,
}

impl From<AllocError> for ViewFault {
    fn from(_: AllocError) -> ViewFault {
        ViewFault::Memory
    }
}

impl<T: Drop> From<AllocFailed<T>> for ViewFault {
    fn from(_: AllocFailed<T>) -> ViewFault {
        ViewFault::Memory
    }
}

impl From<RenderFault> for ViewFault {
    fn from(fault: RenderFault) -> ViewFault {
        match fault {
            RenderFault::Write => ViewFault::Output,
            RenderFault::Memory => ViewFault::Memory,
        }
    }
}
