//! Connections that are lent: a free one, a new one, one that was kept, one to be cleaned.

ghost use Rattle.std.specs.Prelude.{◌≡◌, ◌<◌, ◌≤◌, ◌+◌, [], ◌∷◌, Bool, Some, true, false, length, nat_lt, if◌then◌else◌};
ghost use Rattle.std.specs.Prelude.{slice_index_or, IfOk, IfErr, OnErr, OnOk};
ghost use Rattle.tds_service.specs.Line as line;
ghost use Rattle.tds_service.specs.Service as calls;
ghost use Rattle.tds_service.specs.Service.{Seat, does, is_idle};
ghost use Rattle.tds_service.specs.Table.{Denies, RefusesIn, Steps, StepsIn};
ghost use Rattle.tds_service.specs.Table.{place_of as place_named};
ghost use Rattle.tds_c.specs.service.Calls.{Leaves, new_apart};
ghost use Rattle.tds_c.specs.service.Clients.{apart};
ghost use Rattle.tds_c.specs.service.Plain.{seat_of, stage_of, table_of, used};
ghost use Rattle.tds_c.specs.service.Table.{FirstMet};

use crate::service::plain::{TdsClient, TdsSeat, TdsService};
use crate::service::seat::Wanted;
use crate::service::table::find;
use tds_packet::Reset;
use tds_service::{Lent, Place, Refusal};

/// The next number of a lease or a ticket.
#[inline(always)]
pub(crate) fn next_given(service: &TdsService) -> Result<u64, Refusal>
    ensures value { IfOk result (λ next. next ≡ service.now.given + 1) }
    ensures used { IfErr result (λ refusal. (refusal ≡ Refusal.Memory)
        × (18446744073709551615 ≤ service.now.given)) }
{
    if service.given == u64::MAX {
        return Err(Refusal::Memory);
    }
    Ok(service.given + 1)
}

/// Lends the connection at an index, which is idle, by the lease of this number; its next request asks
/// for this reset.
#[inline(always)]
pub(crate) fn lend_at(
    service: &mut TdsService,
    seats: &mut [TdsSeat],
    index: usize,
    lease: u64,
    place: Place,
    reset: Reset,
) -> Lent
    requires fits { service.old.count ≤ length seats.old }
    requires within { index < service.old.count }
    requires idle { (c : TdsSeat) → c ≡ slice_index_or seats.old index c
        → is_idle (stage_of c.client) ≡ true }
    ensures lent { (test : Seat → Bool) (c : TdsSeat) → c ≡ slice_index_or seats.old index c
        → FirstMet test (used service.old seats.old) index
        → StepsIn (does (table_of service.old seats.old) lease test (seat_of c)
        (Some (place_named place)) (line.Mark reset ∷ []) (calls.Lent lease c.number true))
        (table_of service.new seats.new) (calls.Lent result.lease result.number result.had)
        result.number [] [] }
    ensures leaves { Leaves (record { service = service.old; seats = seats.old })
        (record { service = service.new; seats = seats.new }) }
{
    let seat = seats[index];
    seats[index] = seat.marked(reset).at(place);
    service.given = lease;
    Lent {
        lease,
        number: seat.number,
        had: true,
    }
}

/// A seat of a new connection, lent by this lease.
#[inline(always)]
#[tactic(auto, unfolding(crate::specs::service::Plain::stage_at, crate::specs::service::Plain::place_at, crate::specs::service::Plain::mark_of))]
fn new_seat(number: u64, lease: u64, size: u16) -> TdsSeat
    ensures seat { seat_of result
        ≡ record { number = number; place = calls.Leased lease; line = line.new_line } }
    ensures apart { apart result.client ≡ new_apart size }
{
    TdsSeat {
        client: TdsClient {
            descriptor: 0,
            sent: 0,
            packets: 0,
            size,
            stage: 0,
            kind: 0,
            fault: 0,
            token_fault: 0,
            mark: 0,
            done: 0,
            columns: 0,
        },
        number,
        holder: lease,
        asked: 0,
        place: 1,
    }
}

/// A new connection, lent by this lease.
#[inline(always)]
fn open(service: &mut TdsService, seats: &mut [TdsSeat], lease: u64) -> Result<Lent, Refusal>
    requires fits { service.old.count ≤ length seats.old }
    requires next { lease ≡ service.old.given + 1 }
    ensures ok { IfOk result (λ lent. StepsIn (calls.opens (table_of service.old seats.old)
        (nat_lt (length (table_of service.old seats.old).seats) (length seats.old)))
        (table_of service.new seats.new) (calls.Lent lent.lease lent.number lent.had) 0 [] []) }
    ensures had { IfOk result (λ lent. lent.had ≡ false) }
    ensures leaves { OnOk result (Leaves (record { service = service.old; seats = seats.old })
        (record { service = service.new; seats = seats.new })) }
    ensures refused { IfErr result (RefusesIn (table_of service.old seats.old)
        (calls.opens (table_of service.old seats.old)
        (nat_lt (length (table_of service.old seats.old).seats) (length seats.old)))) }
    ensures err { OnErr result (service.new ≡ service.old) }
    ensures same { OnErr result (seats.new ≡ seats.old) }
{
    if service.count >= seats.len() {
        return Err(Refusal::AllInUse);
    }
    if service.last == u64::MAX {
        return Err(Refusal::Memory);
    }
    let number = service.last + 1;
    seats[service.count] = new_seat(number, lease, service.size);
    service.count += 1;
    service.last = number;
    service.given = lease;
    Ok(Lent {
        lease,
        number,
        had: false,
    })
}

/// Lends a free connection that is idle, and marks it for a full reset; else a new one.
#[inline(always)]
pub(crate) fn lease(service: &mut TdsService, seats: &mut [TdsSeat]) -> Result<Lent, Refusal>
    requires fits { service.old.count ≤ length seats.old }
    ensures ok { IfOk result (λ lent. Steps calls.Lease (table_of service.old seats.old)
        (table_of service.new seats.new) (calls.Lent lent.lease lent.number lent.had)
        (if lent.had then lent.number else 0) [] []) }
    ensures leaves { OnOk result (Leaves (record { service = service.old; seats = seats.old })
        (record { service = service.new; seats = seats.new })) }
    ensures refused { IfErr result (Denies calls.Lease (table_of service.old seats.old)) }
    ensures err { OnErr result (service.new ≡ service.old) }
    ensures same { OnErr result (seats.new ≡ seats.old) }
{
    let lease = next_given(service)?;
    match find(&seats[..service.count], Wanted::Lendable) {
        Some(index) => Ok(lend_at(
            service,
            seats,
            index,
            lease,
            Place::Leased(lease),
            Reset::Full,
        )),
        None => open(service, seats, lease),
    }
}
