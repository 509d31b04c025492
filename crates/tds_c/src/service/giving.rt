//! Connections that are given back and lost, and those that have drained.

ghost use Rattle.std.specs.Prelude.{◌≡◌, ◌<◌, ◌≤◌, [], Bool, List, None, length, take};
ghost use Rattle.std.specs.Prelude.{slice_index_or, IfOk, IfErr, OnErr, OnOk};
ghost use Rattle.tds_wire.specs.declared.told.Token.{Token};
ghost use Rattle.tds_service.specs.History.{line_after};
ghost use Rattle.tds_service.specs.Line.{Act};
ghost use Rattle.tds_service.specs.Service as calls;
ghost use Rattle.tds_service.specs.Service.{Reply, Seat, does};
ghost use Rattle.tds_service.specs.Table.{Denies, Steps, rest_of};
ghost use Rattle.tds_c.specs.service.Calls.{Drains, DrainsNot, Leaves};
ghost use Rattle.tds_c.specs.service.Clients.{apart};
ghost use Rattle.tds_c.specs.service.Plain.{line_of, seat_of, table_of, used};
ghost use Rattle.tds_c.specs.service.Table.{FirstMet, StopsAt};

use crate::service::answers::Stop;
use crate::service::plain::{TdsSeat, TdsService};
use crate::service::seat::Wanted;
use crate::service::table::{find, take_out};
use tds_service::{Place, Refusal, Rest};

/// Puts this seat in the place of the one at an index: where it is now that nobody holds it. One that
/// is closed is taken out.
#[inline(always)]
pub(crate) fn settle(
    service: &mut TdsService,
    seats: &mut [TdsSeat],
    index: usize,
    seat: TdsSeat,
    rest: Rest,
)
    requires fits { service.old.count ≤ length seats.old }
    requires within { index < service.old.count }
    ensures table { (test : Seat → Bool) (all : List (Act Token)) (reply : Reply) (c : TdsSeat)
        → c ≡ slice_index_or seats.old index c
        → FirstMet test (used service.old seats.old) index
        → seat.number ≡ c.number → line_of seat ≡ line_after (line_of c) all
        → table_of service.new seats.new ≡ (does (table_of service.old seats.old)
        service.old.given test (seat_of c) (rest_of rest) all reply).service }
    ensures leaves { (c : TdsSeat) → c ≡ slice_index_or seats.old index c
        → seat.number ≡ c.number → apart seat.client ≡ apart c.client
        → Leaves (record { service = service.old; seats = seats.old })
        (record { service = service.new; seats = seats.new }) }
{
    match rest {
        Rest::Free => seats[index] = seat.at(Place::Free),
        Rest::Draining => seats[index] = seat.at(Place::Draining),
        Rest::Closed => {
            take_out(&mut seats[..service.count], index);
            service.count -= 1;
        }
    }
}

/// Ends a lease: what is underway is cancelled, and what is to be sent for that is written to `out`.
#[inline(always)]
pub(crate) fn give_back(
    service: &mut TdsService,
    seats: &mut [TdsSeat],
    lease: u64,
    out: &mut [u8],
    count: &mut usize,
) -> Result<(u64, Rest), Stop>
    requires fits { service.old.count ≤ length seats.old }
    ensures ok { IfOk result (λ done. Steps (calls.GiveBack lease) (table_of service.old seats.old)
        (table_of service.new seats.new) (calls.Back (rest_of done.1)) done.0
        [] (take count.new out.new)) }
    ensures room { OnOk result (count.new ≤ length out.new) }
    ensures leaves { OnOk result (Leaves (record { service = service.old; seats = seats.old })
        (record { service = service.new; seats = seats.new })) }
    ensures stopped { IfErr result (StopsAt (calls.GiveBack lease) (table_of service.old seats.old)
        (length out.old) count.new) }
    ensures err { OnErr result (service.new ≡ service.old) }
    ensures same { OnErr result (seats.new ≡ seats.old) }
    ensures nothing { OnErr result (out.new ≡ out.old) }
{
    *count = 0;
    let Some(index) = find(&seats[..service.count], Wanted::Lease(lease)) else {
        return Err(Stop::Refused(Refusal::Unknown));
    };
    let seat = seats[index];
    // Most are given back so: nothing is cancelled, and nothing is sent for it.
    if seat.is_idle() {
        settle(service, seats, index, seat, Rest::Free);
        return Ok((seat.number, Rest::Free));
    }
    let written = seat.written();
    let bytes = written.as_slice();
    *count = bytes.len();
    if bytes.len() > out.len() {
        return Err(Stop::NoRoom);
    }
    out[..bytes.len()].copy_from_slice(bytes);
    let cancelled = seat.cancelled();
    let rest = cancelled.rest();
    settle(service, seats, index, cancelled, rest);
    Ok((seat.number, rest))
}

/// The connection of this number is lost, and in the table no longer.
#[inline(always)]
pub(crate) fn lost(
    service: &mut TdsService,
    seats: &mut [TdsSeat],
    number: u64,
) -> Result<(), Refusal>
    requires fits { service.old.count ≤ length seats.old }
    ensures ok { OnOk result (Steps (calls.Lost number) (table_of service.old seats.old)
        (table_of service.new seats.new) (calls.Back None) number [] []) }
    ensures leaves { OnOk result (Leaves (record { service = service.old; seats = seats.old })
        (record { service = service.new; seats = seats.new })) }
    ensures refused { IfErr result (Denies (calls.Lost number) (table_of service.old seats.old)) }
    ensures err { OnErr result (service.new ≡ service.old) }
    ensures same { OnErr result (seats.new ≡ seats.old) }
{
    match find(&seats[..service.count], Wanted::Number(number)) {
        Some(index) => {
            take_out(&mut seats[..service.count], index);
            service.count -= 1;
            Ok(())
        }
        None => Err(Refusal::Unknown),
    }
}

/// What came on the connection of this number was heard: one that drains is free once it is idle.
#[inline(always)]
pub(crate) fn drained(
    service: &mut TdsService,
    seats: &mut [TdsSeat],
    number: u64,
) -> Result<Rest, Refusal>
    requires fits { service.old.count ≤ length seats.old }
    ensures ok { IfOk result (Drains number (table_of service.old seats.old)
        (table_of service.new seats.new)) }
    ensures leaves { OnOk result (Leaves (record { service = service.old; seats = seats.old })
        (record { service = service.new; seats = seats.new })) }
    ensures refused { IfErr result (DrainsNot number (table_of service.old seats.old)) }
    ensures err { OnErr result (service.new ≡ service.old) }
    ensures same { OnErr result (seats.new ≡ seats.old) }
{
    let Some(index) = find(&seats[..service.count], Wanted::Number(number)) else {
        return Err(Refusal::Unknown);
    };
    let seat = seats[index];
    let Some(rest) = seat.drained_rest() else {
        return Err(Refusal::NotNow);
    };
    settle(service, seats, index, seat, rest);
    Ok(rest)
}
