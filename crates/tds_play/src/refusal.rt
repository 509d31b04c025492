ghost use Rattle.std.specs.Prelude.{◌≡◌};
ghost use Rattle.tds_play.specs.Refused.{play_refusal_number};

use std::alloc::{AllocError, AllocFailed};

/// Why there is no report.
#[derive(Debug, Drop)]
pub enum PlayRefusal {
    /// 1: there are more than 10,000 events.
    TooManyEvents,
    /// 2: the packet size is not 512 to 32,767, or the number of connections not 1 to 64.
    WrongSetup,
    /// 3: a growth was refused. The carrier may have been used.
    Memory,
    /// 4: what answered a cleaning left a transaction, or did no reset. The carrier was used.
    NotCleaned,
}

impl PlayRefusal {
    /// The refusal's number, 1 to 4.
    pub fn number(&self) -> u8
        ensures { result ≡ play_refusal_number self.now }
    {
        match self {
            PlayRefusal::TooManyEvents => 1,
            PlayRefusal::WrongSetup => 2,
            PlayRefusal::Memory => 3,
            PlayRefusal::NotCleaned => 4,
        }
    }
}

/// What ends a play between its first event and its last.
#[derive(Debug, Drop)]
pub(crate) enum Stop {
    /// A growth was refused.
    Memory,
    /// The pool closed a connection that was cleaned.
    NotCleaned,
}

impl From<Stop> for PlayRefusal {
    ghost use Rattle.tds_play.specs.Refused.{of_stop};

    ghost from_gives = { λ stop refusal. refusal ≡ of_stop stop };

    fn from(stop: Stop) -> PlayRefusal {
        match stop {
            Stop::Memory => PlayRefusal::Memory,
            Stop::NotCleaned => PlayRefusal::NotCleaned,
        }
    }
}

impl From<AllocError> for Stop {
    fn from(_: AllocError) -> Stop {
        Stop::Memory
    }
}

impl<T: Drop> From<AllocFailed<T>> for Stop {
    fn from(_: AllocFailed<T>) -> Stop {
        Stop::Memory
    }
}

impl From<AllocError> for PlayRefusal {
    ghost use Rattle.tds_play.specs.declared.refusal.PlayRefusal.TheVariants.{Memory};

    ghost from_gives = { λ _ refusal. refusal ≡ Memory };

    fn from(_: AllocError) -> PlayRefusal {
        PlayRefusal::Memory
    }
}

impl<T: Drop> From<AllocFailed<T>> for PlayRefusal {
    ghost use Rattle.tds_play.specs.declared.refusal.PlayRefusal.TheVariants.{Memory};

    ghost from_gives = { λ _ refusal. refusal ≡ Memory };

    fn from(_: AllocFailed<T>) -> PlayRefusal {
        PlayRefusal::Memory
    }
}
