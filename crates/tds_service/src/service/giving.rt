//! Connections that are given back, cleaned, kept, given up and lost.
ghost use Rattle.std.specs.Prelude.{◌≡◌, ◌<◌, ◌++◌, ◌&&◌, [], ◌∷◌, ℕ, true, false, Some, None, length, slice_index_or, slice_set, IfOk, IfErr, OnErr, OnOk};
ghost use Rattle.tds_service.specs.declared.seat.Seat.{Seat as CodeSeat};
ghost use Rattle.tds_service.specs.Line as line;
ghost use Rattle.tds_service.specs.Refusing.{refusal_in};
ghost use Rattle.tds_service.specs.Service as calls;
ghost use Rattle.tds_service.specs.Service.{clean_place, has_number, may_keep, rests};
ghost use Rattle.tds_service.specs.Beginning.{MakesAlike};
ghost use Rattle.tds_service.specs.Rising.{RiseFrom, numbers_in};
ghost use Rattle.tds_service.specs.Sizes.{KeepsSize, sizes_in};
ghost use Rattle.tds_service.specs.Table.{IsAt, Keeps, KeepsBy, KeepsClients, KeepsClientsOff};
ghost use Rattle.tds_service.specs.Table.{KeepsOthers, Denies, Steps, CancelsOut, client_of};
ghost use Rattle.tds_service.specs.Table.{reading_by, rest_of, seat_in, service_in, without_closed};
ghost use Rattle.tds_service.specs.Ties.{DoesAll, answer_to, line_in, cancel_out};

use crate::connection::Connection;
use crate::index::{forget, forget_any, go_on};
use crate::place::{Place, Rest};
use crate::refusal::Refusal;
use crate::seat::Seat;
use crate::service::Service;
use tds_client::ClientRefusal;

/// Cancels what is underway, also on a broken connection, where nothing is.
fn cancel_any(connection: &mut Connection, out: &mut Vec<u8>) -> Result<(), Refusal>
    ensures ok { OnOk result (DoesAll (line.Cancel ∷ []) (line_in connection.old)
        (line_in connection.new) out.old.items out.new.items) }
    ensures stops { OnOk result (out.new.items
        ≡ out.old.items ++ cancel_out connection.old.client.stage) }
    ensures refused { IfErr result (λ refusal. refusal ≡ Refusal.Memory) }
    ensures parser { connection.new.parser ≡ connection.old.parser }
    ensures err { OnErr result (connection.new ≡ connection.old) }
    ensures nothing { OnErr result (out.new.items ≡ out.old.items) }
    ensures size { connection.new.client.size ≡ connection.old.client.size }
{
    match connection.cancel(out) {
        Ok(_) => Ok(()),
        Err(ClientRefusal::Memory) => Err(Refusal::Memory),
        Err(ClientRefusal::Broken) => Ok(()),
        Err(ClientRefusal::NotIdle) => Ok(()),
        Err(ClientRefusal::NotSending) => Ok(()),
    }
}

/// The place of one that nobody holds. One that is to be closed stays where it is.
fn resting(rest: Rest, place: Place) -> Place
    ensures { IsAt (rest_of rest) result }
{
    match rest {
        Rest::Free => Place::Free,
        Rest::Draining => Place::Draining,
        Rest::Closed => place,
    }
}

/// Puts a connection where it is once nobody holds it. One that is to be closed stays where it is.
fn rest_at(seats: &mut [Seat], index: usize) -> (u64, Rest)
    requires { index < length seats.old }
    ensures rests { (c : CodeSeat) → c ≡ slice_index_or seats.old index c
        → (d : CodeSeat) × (seats.new ≡ slice_set seats.old index d)
        × (d.number ≡ c.number) × (result.0 ≡ c.number)
        × (line_in d.connection ≡ line_in c.connection)
        × (rest_of result.1 ≡ rests (line_in c.connection).stage)
        × IsAt (rest_of result.1) d.place }
    ensures keeps { (n : ℕ) → reading_by (has_number n) seats.new
        ≡ reading_by (has_number n) seats.old }
    ensures sizes { sizes_in seats.new ≡ sizes_in seats.old }
    ensures numbers { numbers_in seats.new ≡ numbers_in seats.old }
{
    let seat = &mut seats[index];
    let rest = seat.rest();
    seat.place = resting(rest, seat.place);
    (seat.number, rest)
}

/// The same of one that is given back: what is underway is cancelled.
fn give_back_at(seats: &mut [Seat], index: usize, out: &mut Vec<u8>) -> Result<(u64, Rest), Refusal>
    requires { index < length seats.old }
    ensures ok { IfOk result (λ done. (c : CodeSeat) → c ≡ slice_index_or seats.old index c
        → (d : CodeSeat) × (seats.new ≡ slice_set seats.old index d)
        × (d.number ≡ c.number) × (done.0 ≡ c.number)
        × DoesAll (line.Cancel ∷ []) (line_in c.connection) (line_in d.connection)
        out.old.items out.new.items
        × (rest_of done.1 ≡ rests (line_in d.connection).stage)
        × IsAt (rest_of done.1) d.place) }
    ensures stops { OnOk result ((c : CodeSeat) → c ≡ slice_index_or seats.old index c
        → out.new.items ≡ out.old.items ++ cancel_out c.connection.client.stage) }
    ensures refused { IfErr result (λ refusal. refusal ≡ Refusal.Memory) }
    ensures err { OnErr result (seats.new ≡ seats.old) }
    ensures nothing { OnErr result (out.new.items ≡ out.old.items) }
    ensures keeps { (n : ℕ) → reading_by (has_number n) seats.new
        ≡ reading_by (has_number n) seats.old }
    ensures sizes { sizes_in seats.new ≡ sizes_in seats.old }
    ensures numbers { numbers_in seats.new ≡ numbers_in seats.old }
{
    let seat = &mut seats[index];
    match cancel_any(&mut seat.connection, out) {
        Ok(()) => {
            let rest = seat.rest();
            seat.place = resting(rest, seat.place);
            Ok((seat.number, rest))
        }
        Err(refusal) => Err(refusal),
    }
}

/// The same of one that was cleaned.
fn cleaned_at(seats: &mut [Seat], index: usize) -> Result<(u64, Rest), Refusal>
    requires { index < length seats.old }
    ensures ok { IfOk result (λ done. (c : CodeSeat) → c ≡ slice_index_or seats.old index c
        → (d : CodeSeat) × (seats.new ≡ slice_set seats.old index d)
        × (d.number ≡ c.number) × (done.0 ≡ c.number)
        × (line_in d.connection ≡ line_in c.connection)
        × (Some (rest_of done.1) ≡ clean_place (seat_in c).place (seat_in c).line)
        × IsAt (rest_of done.1) d.place) }
    ensures refused { IfErr result (λ refusal. (refusal ≡ Refusal.NotNow)
        × ((c : CodeSeat) → c ≡ slice_index_or seats.old index c
        → clean_place (seat_in c).place (seat_in c).line ≡ None)) }
    ensures err { OnErr result (seats.new ≡ seats.old) }
    ensures keeps { (n : ℕ) → reading_by (has_number n) seats.new
        ≡ reading_by (has_number n) seats.old }
    ensures sizes { sizes_in seats.new ≡ sizes_in seats.old }
    ensures numbers { numbers_in seats.new ≡ numbers_in seats.old }
{
    let seat = &mut seats[index];
    match seat.clean_rest() {
        Some(rest) => {
            seat.place = resting(rest, seat.place);
            Ok((seat.number, rest))
        }
        None => Err(Refusal::NotNow),
    }
}

/// Keeps a connection with its transaction, for this ticket.
fn keep_at(seats: &mut [Seat], index: usize, ticket: u64) -> Result<u64, Refusal>
    requires { index < length seats.old }
    ensures ok { IfOk result (λ number. (c : CodeSeat) → c ≡ slice_index_or seats.old index c
        → (d : CodeSeat) × (seats.new ≡ slice_set seats.old index d)
        × (d.number ≡ c.number) × (d.place ≡ Place.Kept ticket) × (number ≡ c.number)
        × (line_in d.connection ≡ line_in c.connection)
        × (may_keep (seat_in c) ≡ true)) }
    ensures refused { IfErr result (λ refusal. (refusal ≡ Refusal.NotNow)
        × ((c : CodeSeat) → c ≡ slice_index_or seats.old index c
        → may_keep (seat_in c) ≡ false)) }
    ensures err { OnErr result (seats.new ≡ seats.old) }
    ensures keeps { (n : ℕ) → reading_by (has_number n) seats.new
        ≡ reading_by (has_number n) seats.old }
    ensures sizes { sizes_in seats.new ≡ sizes_in seats.old }
    ensures numbers { numbers_in seats.new ≡ numbers_in seats.old }
{
    let seat = &mut seats[index];
    if seat.is_idle() && seat.connection.is_open() {
        seat.place = Place::Kept(ticket);
        Ok(seat.number)
    } else {
        Err(Refusal::NotNow)
    }
}

/// Takes a connection out that is to be closed.
fn close(seats: &mut Vec<Seat>, index: usize, rest: Rest)
    requires { index < length seats.old.items }
    ensures items { seats.new.items ≡ without_closed rest index seats.old.items }
    ensures rising { (top : ℕ) → RiseFrom 0 (numbers_in seats.old.items) top
        → RiseFrom 0 (numbers_in seats.new.items) top }
{
    match rest {
        Rest::Free => {}
        Rest::Draining => {}
        Rest::Closed => {
            seats.remove(index);
        }
    }
}

impl Service {
    /// Ends a lease: what is underway is cancelled, and what is to be sent for that is appended to
    /// `out`. The lease is spent.
    pub fn give_back(&mut self, lease: u64, out: &mut Vec<u8>) -> Result<(u64, Rest), Refusal>
        ensures ok { IfOk result (λ done. Steps (calls.GiveBack lease) (service_in self.old)
            (service_in self.new) (calls.Back (rest_of done.1)) done.0
            out.old.items out.new.items) }
        ensures stops { OnOk result (CancelsOut lease self.old out.old.items out.new.items) }
        ensures refused { IfErr result (Denies (calls.GiveBack lease) (service_in self.old)) }
        ensures err { OnErr result (service_in self.new ≡ service_in self.old) }
        ensures same { OnErr result (self.new ≡ self.old) }
        ensures nothing { OnErr result (out.new.items ≡ out.old.items) }
        ensures keeps { IfOk result (λ done. KeepsBy done.1 done.0 self.old self.new) }
        ensures keeps_all { OnErr result (Keeps self.old self.new) }
        ensures clients { KeepsClients lease self.old self.new }
        ensures sizes { KeepsSize self.old self.new }
        ensures makes { MakesAlike self.old self.new }
    {
        match self.find_lease(lease) {
            Some(index) => match give_back_at(&mut self.seats, index, out) {
                Ok((number, rest)) => {
                    close(&mut self.seats, index, rest);
                    forget(&mut self.index, lease);
                    Ok((number, rest))
                }
                Err(refusal) => Err(refusal),
            },
            None => Err(Refusal::Unknown),
        }
    }

    /// Ends a lease that `clean` gave: the connection is free where its reset was done and no
    /// transaction is open, and closed where it wasn't, or is broken. `NotNow` while a request is
    /// underway.
    pub fn cleaned(&mut self, lease: u64) -> Result<(u64, Rest), Refusal>
        ensures ok { IfOk result (λ done. Steps (calls.Cleaned lease) (service_in self.old)
            (service_in self.new) (calls.Back (rest_of done.1)) done.0 [] []) }
        ensures refused { IfErr result (Denies (calls.Cleaned lease) (service_in self.old)) }
        ensures err { OnErr result (service_in self.new ≡ service_in self.old) }
        ensures same { OnErr result (self.new ≡ self.old) }
        ensures keeps { IfOk result (λ done. KeepsBy done.1 done.0 self.old self.new) }
        ensures keeps_all { OnErr result (Keeps self.old self.new) }
        ensures clients { KeepsClients lease self.old self.new }
        ensures sizes { KeepsSize self.old self.new }
        ensures makes { MakesAlike self.old self.new }
    {
        match self.find_lease(lease) {
            Some(index) => match cleaned_at(&mut self.seats, index) {
                Ok((number, rest)) => {
                    close(&mut self.seats, index, rest);
                    forget(&mut self.index, lease);
                    Ok((number, rest))
                }
                Err(refusal) => Err(refusal),
            },
            None => Err(Refusal::Unknown),
        }
    }

    /// Keeps a connection with its transaction, and answers a ticket. The lease is spent.
    pub fn keep(&mut self, lease: u64) -> Result<u64, Refusal>
        ensures ok { IfOk result (λ ticket. (number : ℕ) × Steps (calls.Keep lease)
            (service_in self.old) (service_in self.new) (calls.Ticket ticket) number [] []) }
        ensures refused { IfErr result (Denies (calls.Keep lease) (service_in self.old)) }
        ensures err { OnErr result (service_in self.new ≡ service_in self.old) }
        ensures same { OnErr result (self.new ≡ self.old) }
        ensures keeps { Keeps self.old self.new }
        ensures clients { KeepsClients lease self.old self.new }
        ensures sizes { KeepsSize self.old self.new }
        ensures makes { MakesAlike self.old self.new }
    {
        let ticket = self.next_given()?;
        match self.find_lease(lease) {
            Some(index) => match keep_at(&mut self.seats, index, ticket) {
                Ok(number) => {
                    go_on(&mut self.index, lease, ticket, number);
                    self.given = ticket;
                    Ok(ticket)
                }
                Err(refusal) => Err(refusal),
            },
            None => Err(Refusal::Unknown),
        }
    }

    /// Gives a connection up that was kept. The ticket is spent.
    pub fn abandon(&mut self, ticket: u64) -> Result<(u64, Rest), Refusal>
        ensures ok { IfOk result (λ done. Steps (calls.Abandon ticket) (service_in self.old)
            (service_in self.new) (calls.Back (rest_of done.1)) done.0 [] []) }
        ensures refused { IfErr result (Denies (calls.Abandon ticket) (service_in self.old)) }
        ensures err { OnErr result (service_in self.new ≡ service_in self.old) }
        ensures same { OnErr result (self.new ≡ self.old) }
        ensures keeps { IfOk result (λ done. KeepsBy done.1 done.0 self.old self.new) }
        ensures keeps_all { OnErr result (Keeps self.old self.new) }
        ensures clients { (l : ℕ) → client_of l self.new ≡ client_of l self.old }
        ensures sizes { KeepsSize self.old self.new }
        ensures makes { MakesAlike self.old self.new }
    {
        match self.find_ticket(ticket) {
            Some(index) => {
                let (number, rest) = rest_at(&mut self.seats, index);
                close(&mut self.seats, index, rest);
                forget(&mut self.index, ticket);
                Ok((number, rest))
            }
            None => Err(Refusal::Unknown),
        }
    }

    /// The connection of this number is lost, and in the service no longer. Its lease is unknown then.
    pub fn lost(&mut self, number: u64) -> Result<(), Refusal>
        ensures ok { OnOk result (Steps (calls.Lost number) (service_in self.old)
            (service_in self.new) (calls.Back None) number [] []) }
        ensures refused { IfErr result (Denies (calls.Lost number) (service_in self.old)) }
        ensures err { OnErr result (service_in self.new ≡ service_in self.old) }
        ensures same { OnErr result (self.new ≡ self.old) }
        ensures unknown { IfErr result (λ refusal. refusal ≡ Refusal.Unknown) }
        ensures keeps { KeepsOthers number self.old self.new }
        ensures clients { KeepsClientsOff number self.old self.new }
        ensures sizes { KeepsSize self.old self.new }
        ensures makes { MakesAlike self.old self.new }
    {
        match self.find_number(number) {
            Some(index) => {
                let seat = self.seats.remove(index);
                forget_any(&mut self.index, seat.holder());
                Ok(())
            }
            None => Err(Refusal::Unknown),
        }
    }
}
