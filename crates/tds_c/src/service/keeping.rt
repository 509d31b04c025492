//! Connections that are kept with their transaction, resumed, and given up; and those that are cleaned.

ghost use Rattle.std.specs.Prelude.{◌≡◌, ◌≤◌, [], ℕ, length, IfOk, IfErr, OnErr, OnOk};
ghost use Rattle.tds_service.specs.Service as calls;
ghost use Rattle.tds_service.specs.Table.{Denies, Steps, rest_of};
ghost use Rattle.tds_service.specs.Table.{place_of as place_named};
ghost use Rattle.tds_c.specs.service.Calls.{Leaves};
ghost use Rattle.tds_c.specs.service.Chosen.{chosen_allows, chosen_call, chosen_place, chosen_reset, chosen_test};
ghost use Rattle.tds_c.specs.service.Plain.{seat_of, table_of};
ghost use Rattle.tds_c.specs.service.Table.{wanted_test};

use crate::service::giving::settle;
use crate::service::lending::{lend_at, next_given};
use crate::service::plain::{TdsSeat, TdsService};
use crate::service::seat::Wanted;
use crate::service::table::find;
use tds_packet::Reset;
use tds_service::{Lent, Place, Refusal, Rest};

/// A connection that a caller chooses: one that was kept, by its ticket; one to be cleaned, by its number.
#[derive(Clone, Copy)]
pub(crate) enum Chosen {
    Kept(u64),
    Unclean(u64),
}

impl Chosen {
    #[inline(always)]
    fn wanted(self) -> Wanted
        ensures { wanted_test result ≡ chosen_test self }
    {
        match self {
            Chosen::Kept(ticket) => Wanted::Ticket(ticket),
            Chosen::Unclean(number) => Wanted::Number(number),
        }
    }

    /// Whether it can be lent now.
    #[inline(always)]
    fn allows(self, seat: &TdsSeat) -> bool
        ensures { result ≡ chosen_allows self (seat_of seat.now) }
    {
        match self {
            Chosen::Kept(_) => seat.is_idle(),
            Chosen::Unclean(_) => seat.is_wanted(Wanted::Lendable),
        }
    }

    /// Where it is, lent by this lease.
    #[inline(always)]
    fn place(self, lease: u64) -> Place
        ensures { place_named result ≡ chosen_place self lease }
    {
        match self {
            Chosen::Kept(_) => Place::Leased(lease),
            Chosen::Unclean(_) => Place::Cleaning(lease),
        }
    }

    /// The reset that its next request asks for.
    #[inline(always)]
    fn reset(self) -> Reset
        ensures { result ≡ chosen_reset self }
    {
        match self {
            Chosen::Kept(_) => Reset::KeepTransaction,
            Chosen::Unclean(_) => Reset::Full,
        }
    }
}

/// Lends the connection that is chosen: one that was kept, to go on with its transaction, whose ticket
/// is spent; or one that can be lent, to be cleaned.
#[inline(always)]
pub(crate) fn lend_chosen(
    service: &mut TdsService,
    seats: &mut [TdsSeat],
    chosen: Chosen,
) -> Result<Lent, Refusal>
    requires fits { service.old.count ≤ length seats.old }
    ensures ok { IfOk result (λ lent. Steps (chosen_call chosen) (table_of service.old seats.old)
        (table_of service.new seats.new) (calls.Lent lent.lease lent.number lent.had)
        lent.number [] []) }
    ensures leaves { OnOk result (Leaves (record { service = service.old; seats = seats.old })
        (record { service = service.new; seats = seats.new })) }
    ensures refused { IfErr result (Denies (chosen_call chosen)
        (table_of service.old seats.old)) }
    ensures err { OnErr result (service.new ≡ service.old) }
    ensures same { OnErr result (seats.new ≡ seats.old) }
{
    let lease = next_given(service)?;
    let Some(index) = find(&seats[..service.count], chosen.wanted()) else {
        return Err(Refusal::Unknown);
    };
    if !chosen.allows(&seats[index]) {
        return Err(Refusal::NotNow);
    }
    let place = chosen.place(lease);
    Ok(lend_at(service, seats, index, lease, place, chosen.reset()))
}

/// Keeps a connection with its transaction, and answers a ticket. The lease is spent.
#[inline(always)]
pub(crate) fn keep(
    service: &mut TdsService,
    seats: &mut [TdsSeat],
    lease: u64,
) -> Result<u64, Refusal>
    requires fits { service.old.count ≤ length seats.old }
    ensures ok { IfOk result (λ ticket. (number : ℕ) × Steps (calls.Keep lease)
        (table_of service.old seats.old) (table_of service.new seats.new) (calls.Ticket ticket)
        number [] []) }
    ensures leaves { OnOk result (Leaves (record { service = service.old; seats = seats.old })
        (record { service = service.new; seats = seats.new })) }
    ensures refused { IfErr result (Denies (calls.Keep lease) (table_of service.old seats.old)) }
    ensures err { OnErr result (service.new ≡ service.old) }
    ensures same { OnErr result (seats.new ≡ seats.old) }
{
    let ticket = next_given(service)?;
    let Some(index) = find(&seats[..service.count], Wanted::Lease(lease)) else {
        return Err(Refusal::Unknown);
    };
    let seat = seats[index];
    if !seat.may_keep() {
        return Err(Refusal::NotNow);
    }
    seats[index] = seat.at(Place::Kept(ticket));
    service.given = ticket;
    Ok(ticket)
}

/// Gives a connection up that was kept. The ticket is spent.
#[inline(always)]
pub(crate) fn abandon(
    service: &mut TdsService,
    seats: &mut [TdsSeat],
    ticket: u64,
) -> Result<(u64, Rest), Refusal>
    requires fits { service.old.count ≤ length seats.old }
    ensures ok { IfOk result (λ done. Steps (calls.Abandon ticket) (table_of service.old seats.old)
        (table_of service.new seats.new) (calls.Back (rest_of done.1)) done.0 [] []) }
    ensures leaves { OnOk result (Leaves (record { service = service.old; seats = seats.old })
        (record { service = service.new; seats = seats.new })) }
    ensures refused { IfErr result (Denies (calls.Abandon ticket)
        (table_of service.old seats.old)) }
    ensures err { OnErr result (service.new ≡ service.old) }
    ensures same { OnErr result (seats.new ≡ seats.old) }
{
    let Some(index) = find(&seats[..service.count], Wanted::Ticket(ticket)) else {
        return Err(Refusal::Unknown);
    };
    let seat = seats[index];
    let rest = seat.rest();
    settle(service, seats, index, seat, rest);
    Ok((seat.number, rest))
}

/// Ends a lease that `clean` gave, where nothing is underway any more.
#[inline(always)]
pub(crate) fn cleaned(
    service: &mut TdsService,
    seats: &mut [TdsSeat],
    lease: u64,
) -> Result<(u64, Rest), Refusal>
    requires fits { service.old.count ≤ length seats.old }
    ensures ok { IfOk result (λ done. Steps (calls.Cleaned lease) (table_of service.old seats.old)
        (table_of service.new seats.new) (calls.Back (rest_of done.1)) done.0 [] []) }
    ensures leaves { OnOk result (Leaves (record { service = service.old; seats = seats.old })
        (record { service = service.new; seats = seats.new })) }
    ensures refused { IfErr result (Denies (calls.Cleaned lease)
        (table_of service.old seats.old)) }
    ensures err { OnErr result (service.new ≡ service.old) }
    ensures same { OnErr result (seats.new ≡ seats.old) }
{
    let Some(index) = find(&seats[..service.count], Wanted::Lease(lease)) else {
        return Err(Refusal::Unknown);
    };
    let seat = seats[index];
    let Some(rest) = seat.clean_rest() else {
        return Err(Refusal::NotNow);
    };
    settle(service, seats, index, seat, rest);
    Ok((seat.number, rest))
}
