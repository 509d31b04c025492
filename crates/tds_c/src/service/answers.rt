//! What a call answers, as its number.

ghost use Rattle.std.specs.Prelude.{◌≡◌};
ghost use Rattle.tds_c.specs.service.Answers.{refusal_number, rest_number, stop_number};

use tds_service::{Refusal, Rest};

/// Why a call wasn't done.
#[derive(Clone, Copy)]
pub(crate) enum Stop {
    /// 20: the table has more connections than the array has room for.
    NoTable,
    /// 21: what is written has no room.
    NoRoom,
    /// 23: no message, change or DONE has this number; or more waits than a packet holds.
    OutOfRange,
    Refused(Refusal),
}

#[inline(always)]
fn refusal_number(refusal: Refusal) -> u8
    ensures { result ≡ refusal_number refusal }
{
    match refusal {
        Refusal::Memory => 22,
        Refusal::NotIdle => 31,
        Refusal::NotSending => 32,
        Refusal::Broken => 33,
        Refusal::Unknown => 34,
        Refusal::AllInUse => 35,
        Refusal::NotNow => 36,
    }
}

impl Stop {
    #[inline(always)]
    pub(crate) fn number(self) -> u8
        ensures { result ≡ stop_number self }
    {
        match self {
            Stop::NoTable => 20,
            Stop::NoRoom => 21,
            Stop::OutOfRange => 23,
            Stop::Refused(refusal) => refusal_number(refusal),
        }
    }
}

/// Where a connection is that nobody holds.
#[inline(always)]
pub(crate) fn rest_number(rest: Rest) -> u8
    ensures { result ≡ rest_number rest }
{
    match rest {
        Rest::Free => 1,
        Rest::Draining => 2,
        Rest::Closed => 3,
    }
}
