//! What keeps a trace from being printed.
ghost use Rattle.std.specs.Prelude.{◌≡◌, ◌++◌, OnOk, string_bytes};
ghost use Rattle.tds_trace.specs.Faults.{fault_line, of_refusal, of_schedule};

use std::alloc::AllocError;
use std::fmt::Write;
use tds_play::{PlayRefusal, ScheduleFault};

/// What ends a run before the whole trace is printed.
#[derive(Drop)]
pub(crate) enum TraceFault {
    /// Reading failed, or there is more than a schedule file may have.
    File,
    /// What was read is no JSON text.
    Json,
    /// The JSON value spells no schedule: the place of the first wrong event, or 0.
    Schedule(usize),
    /// The schedule isn't played, or not to its end.
    Play(PlayRefusal),
    /// A write of the trace failed.
    Output,
    Memory,
}

impl From<ScheduleFault> for TraceFault {
    ghost from_gives = { λ fault e. e ≡ of_schedule fault };

    fn from(fault: ScheduleFault) -> TraceFault {
        match fault {
            ScheduleFault::Json => TraceFault::Json,
            ScheduleFault::Wrong { place } => TraceFault::Schedule(place),
            ScheduleFault::Memory => TraceFault::Memory,
        }
    }
}

impl From<PlayRefusal> for TraceFault {
    ghost from_gives = { λ refusal e. e ≡ of_refusal refusal };

    fn from(refusal: PlayRefusal) -> TraceFault {
        match refusal {
            PlayRefusal::Memory => TraceFault::Memory,
            PlayRefusal::TooManyEvents => TraceFault::Play(PlayRefusal::TooManyEvents),
            PlayRefusal::WrongSetup => TraceFault::Play(PlayRefusal::WrongSetup),
            PlayRefusal::NotCleaned => TraceFault::Play(PlayRefusal::NotCleaned),
        }
    }
}

impl From<AllocError> for TraceFault {
    ghost use Rattle.tds_trace.specs.declared.fault.TraceFault.TheVariants.{Memory};

    ghost from_gives = { λ _ fault. fault ≡ Memory };

    fn from(_: AllocError) -> TraceFault {
        TraceFault::Memory
    }
}

impl TraceFault {
    /// Appends the fault's line.
    pub(crate) fn put(&self, line: &mut String) -> Result<(), AllocError>
        ensures { OnOk result
            (string_bytes line.new ≡ string_bytes line.old ++ fault_line self.now) }
    {
        match self {
            TraceFault::File => line.push_str("error: file\n"),
            TraceFault::Json => line.push_str("error: json\n"),
            TraceFault::Schedule(place) => write!(line, "error: schedule {place}\n"),
            TraceFault::Play(refusal) => write!(line, "error: play {}\n", refusal.number()),
            TraceFault::Output => line.push_str("error: output\n"),
            TraceFault::Memory => line.push_str("error: memory\n"),
        }
    }
}
