//! Connections that are lent: a free one, a new one, one that was kept, one to be cleaned.
ghost use Rattle.std.specs.Prelude.{◌≡◌, ◌<◌, ◌≤◌, ◌+◌, [], ℕ, true, false, nat_lt, if◌then◌else◌, length, slice_index_or, slice_set, IfOk, IfErr, OnErr, OnOk};
ghost use Rattle.tds_client.specs.declared.fault.ClientRefusal.{ClientRefusal};
ghost use Rattle.tds_service.specs.declared.seat.Seat.{Seat as CodeSeat};
ghost use Rattle.tds_service.specs.Line as line;
ghost use Rattle.tds_service.specs.Service as calls;
ghost use Rattle.tds_service.specs.Service.{has_number, is_lendable, opens};
ghost use Rattle.tds_service.specs.Beginning.{BeginsAt, MakesAlike};
ghost use Rattle.tds_service.specs.Rising.{numbers_in};
ghost use Rattle.tds_service.specs.Sizes.{KeepsSize, sizes_in};
ghost use Rattle.tds_service.specs.Table.{Keeps, KeepsClients, Opened, Denies, RefusesIn};
ghost use Rattle.tds_service.specs.Table.{Steps, reading_by, seat_in, service_in};
ghost use Rattle.tds_service.specs.Ties.{Does, answer_to, line_in};

use crate::connection::Connection;
use crate::index::{add, go_on, reserve};
use crate::place::Place;
use crate::refusal::Refusal;
use crate::seat::Seat;
use crate::service::Service;
use crate::service::finding::find_lendable;
use tds_packet::Reset;

/// A lease: its number, the connection's, and whether somebody had that before. One that nobody had
/// is to be opened and logged in.
#[derive(Clone, Copy, Debug, PartialEq, Eq)]
pub struct Lent {
    pub lease: u64,
    pub number: u64,
    pub had: bool,
}

fn lent_again(lease: u64, number: u64) -> Lent
    ensures { (result.lease ≡ lease) × (result.number ≡ number) × (result.had ≡ true) }
{
    Lent {
        lease,
        number,
        had: true,
    }
}

/// Lends the connection at an index, which owes this reset then.
fn lend_at(seats: &mut [Seat], index: usize, place: Place, reset: Reset) -> Result<u64, Refusal>
    requires { index < length seats.old }
    ensures ok { IfOk result (λ number. (c : CodeSeat) → c ≡ slice_index_or seats.old index c
        → (d : CodeSeat) × (seats.new ≡ slice_set seats.old index d)
        × (d.number ≡ c.number) × (d.place ≡ place) × (number ≡ c.number)
        × Does (line.Mark reset) (line_in c.connection) (line_in d.connection) line.Marked [] []) }
    ensures refused { IfErr result (λ refusal. (refusal ≡ Refusal.NotNow)
        × ((c : CodeSeat) → c ≡ slice_index_or seats.old index c → (why : ClientRefusal)
        × (answer_to (line_in c.connection) (line.Mark reset) ≡ line.Refused why))) }
    ensures err { OnErr result (seats.new ≡ seats.old) }
    ensures keeps { (n : ℕ) → reading_by (has_number n) seats.new
        ≡ reading_by (has_number n) seats.old }
    ensures sizes { sizes_in seats.new ≡ sizes_in seats.old }
    ensures numbers { numbers_in seats.new ≡ numbers_in seats.old }
{
    let seat = &mut seats[index];
    match seat.connection.mark(reset) {
        Ok(()) => {
            seat.place = place;
            Ok(seat.number)
        }
        Err(_) => Err(Refusal::NotNow),
    }
}

/// The same to clean it, where it can be lent.
fn clean_at(seats: &mut [Seat], index: usize, lease: u64) -> Result<u64, Refusal>
    requires { index < length seats.old }
    ensures ok { IfOk result (λ number. (c : CodeSeat) → c ≡ slice_index_or seats.old index c
        → (d : CodeSeat) × (seats.new ≡ slice_set seats.old index d)
        × (d.number ≡ c.number) × (d.place ≡ Place.Cleaning lease) × (number ≡ c.number)
        × Does (line.Mark Reset.Full) (line_in c.connection) (line_in d.connection)
        line.Marked [] [] × (is_lendable (seat_in c) ≡ true)) }
    ensures refused { IfErr result (λ refusal. (refusal ≡ Refusal.NotNow)
        × ((c : CodeSeat) → c ≡ slice_index_or seats.old index c
        → is_lendable (seat_in c) ≡ false)) }
    ensures err { OnErr result (seats.new ≡ seats.old) }
    ensures keeps { (n : ℕ) → reading_by (has_number n) seats.new
        ≡ reading_by (has_number n) seats.old }
    ensures sizes { sizes_in seats.new ≡ sizes_in seats.old }
    ensures numbers { numbers_in seats.new ≡ numbers_in seats.old }
{
    if seats[index].is_lendable() {
        lend_at(seats, index, Place::Cleaning(lease), Reset::Full)
    } else {
        Err(Refusal::NotNow)
    }
}

impl Service {
    /// The next number of a lease or a ticket.
    pub(crate) fn next_given(&self) -> Result<u64, Refusal>
        ensures value { IfOk result (λ next. next ≡ self.now.given + 1) }
        ensures used { IfErr result (λ refusal. (refusal ≡ Refusal.Memory)
            × (18446744073709551615 ≤ self.now.given)) }
    {
        if self.given == u64::MAX {
            return Err(Refusal::Memory);
        }
        Ok(self.given + 1)
    }

    /// A new connection, lent by this lease.
    fn open(&mut self, lease: u64) -> Result<Lent, Refusal>
        requires { lease ≡ self.old.given + 1 }
        ensures ok { IfOk result (λ lent. Opened (service_in self.old) (service_in self.new)
            lent.lease lent.number lent.had) }
        ensures refused { IfErr result (RefusesIn (service_in self.old) (opens (service_in self.old)
            (nat_lt (length self.old.seats.items) self.old.max))) }
        ensures err { OnErr result (service_in self.new ≡ service_in self.old) }
        ensures keeps { Keeps self.old self.new }
        ensures clients { KeepsClients lease self.old self.new }
        ensures begins { IfOk result (λ lent. BeginsAt lent.number self.old self.new) }
        ensures sizes { KeepsSize self.old self.new }
        ensures makes { MakesAlike self.old self.new }
    {
        if self.seats.len() >= self.max {
            return Err(Refusal::AllInUse);
        }
        if self.last == u64::MAX {
            return Err(Refusal::Memory);
        }
        if self.seats.reserve(1).is_err() {
            return Err(Refusal::Memory);
        }
        let number = self.last + 1;
        let connection = match Connection::new(self.alloc, self.size, self.most, self.features) {
            Ok(connection) => connection,
            Err(_) => return Err(Refusal::Memory),
        };
        if reserve(&mut self.index, self.seats.len() + 1).is_err() {
            return Err(Refusal::Memory);
        }
        let seat = Seat {
            number,
            place: Place::Leased(lease),
            connection,
        };
        self.latest = self.seats.len();
        self.seats.push_reserved(seat);
        add(&mut self.index, lease, number);
        self.last = number;
        self.given = lease;
        Ok(Lent {
            lease,
            number,
            had: false,
        })
    }

    /// Lends a free connection that is idle, and marks it for a full reset; else a new one, where
    /// fewer are there than may be.
    pub fn lease(&mut self) -> Result<Lent, Refusal>
        ensures ok { IfOk result (λ lent. Steps calls.Lease (service_in self.old)
            (service_in self.new) (calls.Lent lent.lease lent.number lent.had)
            (if lent.had then lent.number else 0) [] []) }
        ensures refused { IfErr result (Denies calls.Lease (service_in self.old)) }
        ensures err { OnErr result (service_in self.new ≡ service_in self.old) }
        ensures keeps { Keeps self.old self.new }
        ensures clients { KeepsClients (self.old.given + 1) self.old self.new }
        ensures begins { IfOk result (λ lent. lent.had ≡ false
            → BeginsAt lent.number self.old self.new) }
        ensures sizes { KeepsSize self.old self.new }
        ensures makes { MakesAlike self.old self.new }
    {
        let lease = self.next_given()?;
        match find_lendable(&self.seats, self.index.len()) {
            Some(index) => match lend_at(
                &mut self.seats,
                index,
                Place::Leased(lease),
                Reset::Full,
            ) {
                Ok(number) => {
                    add(&mut self.index, lease, number);
                    self.given = lease;
                    self.latest = index;
                    Ok(lent_again(lease, number))
                }
                Err(refusal) => Err(refusal),
            },
            None => self.open(lease),
        }
    }

    /// Lends a connection that was kept, to go on with its transaction. The ticket is spent.
    pub fn resume(&mut self, ticket: u64) -> Result<Lent, Refusal>
        ensures ok { IfOk result (λ lent. Steps (calls.Resume ticket) (service_in self.old)
            (service_in self.new) (calls.Lent lent.lease lent.number lent.had) lent.number [] []) }
        ensures refused { IfErr result (Denies (calls.Resume ticket) (service_in self.old)) }
        ensures err { OnErr result (service_in self.new ≡ service_in self.old) }
        ensures same { OnErr result (self.new ≡ self.old) }
        ensures keeps { Keeps self.old self.new }
        ensures clients { KeepsClients (self.old.given + 1) self.old self.new }
        ensures sizes { KeepsSize self.old self.new }
        ensures makes { MakesAlike self.old self.new }
    {
        let lease = self.next_given()?;
        match self.find_ticket(ticket) {
            Some(index) => {
                let reset = Reset::KeepTransaction;
                match lend_at(&mut self.seats, index, Place::Leased(lease), reset) {
                    Ok(number) => {
                        go_on(&mut self.index, ticket, lease, number);
                        self.given = lease;
                        self.latest = index;
                        Ok(lent_again(lease, number))
                    }
                    Err(refusal) => Err(refusal),
                }
            }
            None => Err(Refusal::Unknown),
        }
    }

    /// Lends the connection of this number, if it is free and idle, to be cleaned: ask a request on it
    /// by this lease, then call `cleaned`. It is marked for a full reset.
    pub fn clean(&mut self, number: u64) -> Result<Lent, Refusal>
        ensures ok { IfOk result (λ lent. Steps (calls.Clean number) (service_in self.old)
            (service_in self.new) (calls.Lent lent.lease lent.number lent.had) lent.number [] []) }
        ensures refused { IfErr result (Denies (calls.Clean number) (service_in self.old)) }
        ensures err { OnErr result (service_in self.new ≡ service_in self.old) }
        ensures same { OnErr result (self.new ≡ self.old) }
        ensures keeps { Keeps self.old self.new }
        ensures clients { KeepsClients (self.old.given + 1) self.old self.new }
        ensures sizes { KeepsSize self.old self.new }
        ensures makes { MakesAlike self.old self.new }
    {
        let lease = self.next_given()?;
        match self.find_number(number) {
            Some(index) => match clean_at(&mut self.seats, index, lease) {
                Ok(number) => {
                    add(&mut self.index, lease, number);
                    self.given = lease;
                    self.latest = index;
                    Ok(lent_again(lease, number))
                }
                Err(refusal) => Err(refusal),
            },
            None => Err(Refusal::Unknown),
        }
    }
}
