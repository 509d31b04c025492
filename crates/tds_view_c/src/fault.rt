//! Why there is no view.

use std::alloc::AllocError;
use tds_play::RenderFault;

#[derive(Drop)]
pub(crate) enum ViewFault {
    /// The schedule isn't played.
    Unplayed,
    /// Memory.
    Memory,
}

impl From<AllocError> for ViewFault {
    fn from(_: AllocError) -> ViewFault {
        ViewFault::Memory
    }
}

impl From<RenderFault> for ViewFault {
    // A write into a vector fails for want of memory alone.
    fn from(_: RenderFault) -> ViewFault {
        ViewFault::Memory
    }
}
