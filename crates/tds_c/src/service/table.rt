//! Which connection is wanted, and the table behind a change of it.

ghost use Rattle.std.specs.Prelude.{◌≡◌, ◌<◌, ◌+◌, ◌-◌, ◌++◌, None, IfSome, IfNone, drop, length, take};
ghost use Rattle.tds_service.specs.Service.{find_by};
ghost use Rattle.tds_c.specs.service.Plain.{seats_of};
ghost use Rattle.tds_c.specs.service.Table.{FirstMet, wanted_test};

use crate::service::plain::TdsSeat;
use crate::service::seat::Wanted;

/// The place in the table of the first connection that is wanted.
#[inline(always)]
pub(crate) fn find(seats: &[TdsSeat], wanted: Wanted) -> Option<usize>
    ensures first { IfSome result (FirstMet (wanted_test wanted) seats.now) }
    ensures none { IfNone result (find_by (wanted_test wanted) (seats_of seats.now) ≡ None) }
{
    for (index, seat) in seats.iter().enumerate() {
        if seat.is_wanted(wanted) {
            return Some(index);
        }
    }
    None
}

/// Takes the seat at an index out: those behind it move up by one.
#[inline(always)]
pub(crate) fn take_out(used: &mut [TdsSeat], index: usize)
    requires { index < length used.old }
    ensures len { length used.new ≡ length used.old }
    ensures front { take (length used.old - 1) used.new
        ≡ take index used.old ++ drop (index + 1) used.old }
{
    used[index..].rotate_left(1);
}
