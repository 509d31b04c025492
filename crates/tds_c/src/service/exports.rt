//! The exports. Each is the service's call of the same name on the table that the values are.

ghost use Rattle.std.specs.Prelude.{◌≡◌, ◌<◌, ◌≤◌, ℕ, IfErr, IfOk, MatchResult, OnErr, OnOk, length};
ghost use Rattle.tds_service.specs.Service as calls;
ghost use Rattle.tds_service.specs.Service.{has_lease, has_number};
ghost use Rattle.tds_c.specs.service.Calls.{Ends, Finding, Finds, GivesBack, Keeps, Lends, Loses, Settles};
ghost use Rattle.tds_c.specs.service.Calls.{done_number, ended_number, plain_lent};
ghost use Rattle.tds_c.specs.service.Table.{wanted_test};

use crate::service::answers::{Stop, rest_number};
use crate::service::keeping::{Chosen, lend_chosen};
use crate::service::plain::{TdsLent, TdsSeat, TdsService};
use crate::service::seat::Wanted;
use crate::service::table::find;
use crate::service::{giving, keeping, lending};
use tds_service::{Lent, Refusal, Rest};

/// Whether the array has room for the table.
#[inline(always)]
pub(crate) fn fits(service: &TdsService, seats: &[TdsSeat]) -> Result<(), Stop>
    ensures yes { OnOk result (service.now.count ≤ length seats.now) }
    ensures no { IfErr result (λ stop. (stop ≡ Stop.NoTable)
        × (length seats.now < service.now.count)) }
{
    if service.count > seats.len() {
        return Err(Stop::NoTable);
    }
    Ok(())
}

/// Writes a lease, where there is one. 0, or why not.
#[inline(always)]
fn write_lent(answer: Result<Lent, Stop>, lent: &mut TdsLent) -> u8
    ensures number { result ≡ done_number answer }
    ensures ok { IfOk answer (λ l. lent.new ≡ plain_lent l) }
    ensures err { OnErr answer (lent.new ≡ lent.old) }
{
    match answer {
        Ok(l) => {
            *lent = TdsLent {
                lease: l.lease,
                number: l.number,
                had: if l.had { 1 } else { 0 },
            };
            0
        }
        Err(stop) => stop.number(),
    }
}

/// Writes a connection's number, where a lease has ended. Where the connection is, or why not.
#[inline(always)]
fn write_ended(answer: Result<(u64, Rest), Stop>, number: &mut u64) -> u8
    ensures number { result ≡ ended_number answer }
    ensures ok { IfOk answer (λ done. number.new ≡ done.0) }
    ensures err { OnErr answer (number.new ≡ number.old) }
{
    match answer {
        Ok((ended, rest)) => {
            *number = ended;
            rest_number(rest)
        }
        Err(stop) => stop.number(),
    }
}

/// Lends a free connection that is idle, and marks it for a full reset; else a new one, where fewer are
/// there than the array has room for.
#[unsafe(no_mangle)]
pub extern "C" fn tds_service_lease(
    service: &mut TdsService,
    seats: &mut [TdsSeat],
    lent: &mut TdsLent,
) -> u8
    ensures { Lends calls.Lease (record { service = service.old; seats = seats.old })
        (record { service = service.new; seats = seats.new })
        lent.old lent.new result }
{
    if let Err(stop) = fits(service, seats) {
        return write_lent(Err(stop), lent);
    }
    match lending::lease(service, seats) {
        Ok(l) => write_lent(Ok(l), lent),
        Err(refusal) => write_lent(Err(Stop::Refused(refusal)), lent),
    }
}

/// Lends a connection that was kept, to go on with its transaction. The ticket is spent.
#[unsafe(no_mangle)]
pub extern "C" fn tds_service_resume(
    service: &mut TdsService,
    seats: &mut [TdsSeat],
    ticket: u64,
    lent: &mut TdsLent,
) -> u8
    ensures { Lends (calls.Resume ticket) (record { service = service.old; seats = seats.old })
        (record { service = service.new; seats = seats.new })
        lent.old lent.new result }
{
    if let Err(stop) = fits(service, seats) {
        return write_lent(Err(stop), lent);
    }
    match lend_chosen(service, seats, Chosen::Kept(ticket)) {
        Ok(l) => write_lent(Ok(l), lent),
        Err(refusal) => write_lent(Err(Stop::Refused(refusal)), lent),
    }
}

/// Lends the connection of this number, if it is free and idle, to be cleaned: ask a request on it by
/// this lease, then call `tds_service_cleaned`. It is marked for a full reset.
#[unsafe(no_mangle)]
pub extern "C" fn tds_service_clean(
    service: &mut TdsService,
    seats: &mut [TdsSeat],
    number: u64,
    lent: &mut TdsLent,
) -> u8
    ensures { Lends (calls.Clean number) (record { service = service.old; seats = seats.old })
        (record { service = service.new; seats = seats.new })
        lent.old lent.new result }
{
    if let Err(stop) = fits(service, seats) {
        return write_lent(Err(stop), lent);
    }
    match lend_chosen(service, seats, Chosen::Unclean(number)) {
        Ok(l) => write_lent(Ok(l), lent),
        Err(refusal) => write_lent(Err(Stop::Refused(refusal)), lent),
    }
}

/// Ends a lease that `tds_service_clean` gave: 1 where the reset was done and no transaction is open, 3
/// where it wasn't, or the connection is broken.
#[unsafe(no_mangle)]
pub extern "C" fn tds_service_cleaned(
    service: &mut TdsService,
    seats: &mut [TdsSeat],
    lease: u64,
    number: &mut u64,
) -> u8
    ensures { Ends (calls.Cleaned lease) (record { service = service.old; seats = seats.old })
        (record { service = service.new; seats = seats.new })
        number.old number.new result }
{
    if let Err(stop) = fits(service, seats) {
        return write_ended(Err(stop), number);
    }
    match keeping::cleaned(service, seats, lease) {
        Ok(done) => write_ended(Ok(done), number),
        Err(refusal) => write_ended(Err(Stop::Refused(refusal)), number),
    }
}

/// Gives a connection up that was kept. The ticket is spent.
#[unsafe(no_mangle)]
pub extern "C" fn tds_service_abandon(
    service: &mut TdsService,
    seats: &mut [TdsSeat],
    ticket: u64,
    number: &mut u64,
) -> u8
    ensures { Ends (calls.Abandon ticket) (record { service = service.old; seats = seats.old })
        (record { service = service.new; seats = seats.new })
        number.old number.new result }
{
    if let Err(stop) = fits(service, seats) {
        return write_ended(Err(stop), number);
    }
    match keeping::abandon(service, seats, ticket) {
        Ok(done) => write_ended(Ok(done), number),
        Err(refusal) => write_ended(Err(Stop::Refused(refusal)), number),
    }
}

/// Ends a lease: what is underway is cancelled, and what is to be sent for that is written to `out`.
#[unsafe(no_mangle)]
pub extern "C" fn tds_service_give_back(
    service: &mut TdsService,
    seats: &mut [TdsSeat],
    lease: u64,
    out: &mut [u8],
    count: &mut usize,
    number: &mut u64,
) -> u8
    ensures { GivesBack lease (record { service = service.old; seats = seats.old })
        (record { service = service.new; seats = seats.new })
        (record { before = out.old; after = out.new; count = count.new }) number.old number.new
        result }
{
    *count = 0;
    if let Err(stop) = fits(service, seats) {
        return write_ended(Err(stop), number);
    }
    write_ended(giving::give_back(service, seats, lease, out, count), number)
}

/// Keeps a connection with its transaction, and writes a ticket. The lease is spent.
#[unsafe(no_mangle)]
pub extern "C" fn tds_service_keep(
    service: &mut TdsService,
    seats: &mut [TdsSeat],
    lease: u64,
    ticket: &mut u64,
) -> u8
    ensures { Keeps lease (record { service = service.old; seats = seats.old })
        (record { service = service.new; seats = seats.new })
        ticket.old ticket.new result }
{
    if let Err(stop) = fits(service, seats) {
        return stop.number();
    }
    match keeping::keep(service, seats, lease) {
        Ok(given) => {
            *ticket = given;
            0
        }
        Err(refusal) => Stop::Refused(refusal).number(),
    }
}

/// The connection of this number is lost, and in the table no longer.
#[unsafe(no_mangle)]
pub extern "C" fn tds_service_lost(
    service: &mut TdsService,
    seats: &mut [TdsSeat],
    number: u64,
) -> u8
    ensures { Loses number (record { service = service.old; seats = seats.old })
        (record { service = service.new; seats = seats.new }) result }
{
    if let Err(stop) = fits(service, seats) {
        return stop.number();
    }
    match giving::lost(service, seats, number) {
        Ok(()) => 0,
        Err(refusal) => Stop::Refused(refusal).number(),
    }
}

/// What came on the connection of this number was heard by its client: one that drains is free once it
/// is idle.
#[unsafe(no_mangle)]
pub extern "C" fn tds_service_drained(
    service: &mut TdsService,
    seats: &mut [TdsSeat],
    number: u64,
) -> u8
    ensures { Settles number (record { service = service.old; seats = seats.old })
        (record { service = service.new; seats = seats.new }) result }
{
    if let Err(stop) = fits(service, seats) {
        return stop.number();
    }
    match giving::drained(service, seats, number) {
        Ok(rest) => rest_number(rest),
        Err(refusal) => Stop::Refused(refusal).number(),
    }
}

/// The place in the array of the first connection that is wanted.
#[inline(always)]
fn find_in(service: &TdsService, seats: &[TdsSeat], wanted: Wanted) -> Result<usize, Stop>
    ensures { (before after : ℕ) → MatchResult result (λ index. after ≡ index) (λ _. after ≡ before)
        → Finding (wanted_test wanted) (record { service = service.now; seats = seats.now })
        before after result }
{
    if let Err(stop) = fits(service, seats) {
        return Err(stop);
    }
    match find(&seats[..service.count], wanted) {
        Some(index) => Ok(index),
        None => Err(Stop::Refused(Refusal::Unknown)),
    }
}

/// Writes to `index` where the connection of this lease stands in the array.
#[unsafe(no_mangle)]
pub extern "C" fn tds_service_find(
    service: &TdsService,
    seats: &[TdsSeat],
    lease: u64,
    index: &mut usize,
) -> u8
    ensures { Finds (has_lease lease) (record { service = service.now; seats = seats.now })
        index.old index.new result }
{
    match find_in(service, seats, Wanted::Lease(lease)) {
        Ok(at) => {
            *index = at;
            0
        }
        Err(stop) => stop.number(),
    }
}

/// The same of the connection of this number.
#[unsafe(no_mangle)]
pub extern "C" fn tds_service_at(
    service: &TdsService,
    seats: &[TdsSeat],
    number: u64,
    index: &mut usize,
) -> u8
    ensures { Finds (has_number number) (record { service = service.now; seats = seats.now })
        index.old index.new result }
{
    match find_in(service, seats, Wanted::Number(number)) {
        Ok(at) => {
            *index = at;
            0
        }
        Err(stop) => stop.number(),
    }
}
