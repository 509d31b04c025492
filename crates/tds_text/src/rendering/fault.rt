ghost use Rattle.std.specs.Prelude.{◌≡◌};
ghost use Rattle.tds_text.specs.Faults.{render_fault_number};

use std::alloc::AllocError;

/// Why a report's text did not go out whole. A beginning of it did.
#[derive(Debug, Drop)]
pub enum RenderFault {
    /// 1: a write failed, or took no byte.
    Write,
    /// 2: memory.
    Memory,
}

impl RenderFault {
    /// The fault's number.
    pub fn number(&self) -> u8
        ensures { result ≡ render_fault_number self.now }
    {
        match self {
            RenderFault::Write => 1,
            RenderFault::Memory => 2,
        }
    }
}

impl From<AllocError> for RenderFault {
    ghost use Rattle.tds_text.specs.declared.rendering.fault.RenderFault.TheVariants.{Memory};

    ghost from_gives = { λ _ fault. fault ≡ Memory };

    fn from(_: AllocError) -> Self {
        RenderFault::Memory
    }
}
