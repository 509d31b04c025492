ghost use Rattle.std.specs.Prelude.{◌≡◌};
ghost use Rattle.tds_text.specs.Faults.{schedule_fault_number};
ghost use Rattle.tds_text.specs.declared.schedule.fault.ScheduleFault.TheVariants.{Memory};

use std::alloc::{AllocError, AllocFailed};

/// Why bytes were read as no schedule.
#[derive(Debug, Drop)]
pub enum ScheduleFault {
    /// 1: they are no JSON text, or one that the JSON reader doesn't take.
    Json,
    /// 2: the JSON value spells no schedule. The place is that of the first wrong event, from 1, or
    /// 0 where it is wrong outside the events.
    Wrong { place: usize },
    /// 3: memory.
    Memory,
}

impl ScheduleFault {
    /// The fault's number.
    pub fn number(&self) -> u8
        ensures { result ≡ schedule_fault_number self.now }
    {
        match self {
            ScheduleFault::Json => 1,
            ScheduleFault::Wrong { .. } => 2,
            ScheduleFault::Memory => 3,
        }
    }
}

impl From<AllocError> for ScheduleFault {
    ghost from_gives = { λ _ e. e ≡ Memory };

    fn from(_: AllocError) -> Self {
        ScheduleFault::Memory
    }
}

impl<T: Drop> From<AllocFailed<T>> for ScheduleFault {
    ghost from_gives = { λ _ e. e ≡ Memory };

    fn from(_: AllocFailed<T>) -> Self {
        ScheduleFault::Memory
    }
}
