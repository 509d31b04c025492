//! The connections of a pool, one by one: each function keeps table and slab at one.
ghost use Rattle.std.specs.Prelude.{◌≢◌, ◌∷◌, suc, drop, is_some, ◌≡◌, ◌<◌, length, Bool, Some, None, IfSome, IfNone, ◌++◌, IfErr, OnOk, OnErr, ℕ};
ghost use Rattle.slab.specs.Slab.{get};
ghost use Rattle.tds_client.specs.Session.{ClientSession};
ghost use Rattle.tds_client.specs.Sending.{cancelled};
ghost use Rattle.tds_pool.specs.declared.lease.Lease.{Lease};
ghost use Rattle.tds_pool.specs.declared.lease.Ticket.{Ticket};
ghost use Rattle.tds_pool.specs.declared.lease.Turn.{Turn};
ghost use Rattle.tds_pool.specs.declared.seat.Place.{Place};
ghost use Rattle.tds_numbers.specs.Table.{key_of, key_at, number_at};
ghost use Rattle.tds_pool.specs.Connections.{connections, connection_of, numbered, at_place, lending_ended_at, with_client, taken_out, SameRest};
ghost use Rattle.tds_pool.specs.declared.answers.PoolRefusal.{PoolRefusal};
ghost use Rattle.tds_pool.specs.Lends.{with_client_under};
ghost use Rattle.tds_pool.specs.Calls.{standing, lent_to, kept_for, lent_again, unless_idle, cancels, bytes_behind, IsAsked, settled, is_lent_for, is_kept_for};

use crate::answers::{GivenBack, PoolRefusal};
use crate::clients::{self, mark, resting_place};
use crate::lease::{Lease, Ticket, Turn};
use crate::pool::Pool;
use crate::seat::{Place, Seat};
use tds_numbers::place_of;
use tds_packet::Reset;

/// Whether a connection is lent for this turn.
fn is_lent(seat: &Seat, turn: Turn) -> bool
    ensures { result ≡ is_lent_for turn seat.now.turn seat.now.place }
{
    seat.turn.is(turn) && matches!(seat.place, Place::Leased)
}

/// Whether a connection is kept for this turn.
fn is_kept(seat: &Seat, turn: Turn) -> bool
    ensures { result ≡ is_kept_for turn seat.now.turn seat.now.place }
{
    seat.turn.is(turn) && matches!(seat.place, Place::Kept)
}

/// Whether a connection has this number. A key alone says nothing: the slab gives it out again.
fn has_number(seat: &Seat, number: u32) -> bool
    ensures same { result ≡ Bool.true → seat.now.number ≡ number }
    ensures other { result ≡ Bool.false → seat.now.number ≢ number }
{
    seat.number == number
}

impl Pool {
    /// What stands under this key, if it has this number.
    fn held(&self, key: usize, number: u32) -> Option<&Seat>
        ensures there { IfSome result (λ seat. (get self.now.seats key ≡ Some seat.now)
            × (seat.now.number ≡ number)) }
        ensures found { IfSome result (λ seat. (test : Turn → Place → Bool)
            → test seat.now.turn seat.now.place ≡ Bool.true
            → standing test key number (connections self.now)
            ≡ Some (connection_of number key seat.now)) }
        ensures elsewhere { IfSome result (λ seat. (test : Turn → Place → Bool)
            → test seat.now.turn seat.now.place ≡ Bool.false
            → standing test key number (connections self.now) ≡ None) }
        ensures writes { IfSome result (λ seat. (client : ClientSession)
            → connections (with_client_under self.now key client)
            ≡ with_client number client (connections self.now)) }
        ensures unknown { IfNone result ((test : Turn → Place → Bool)
            → standing test key number (connections self.now) ≡ None) }
    {
        let seat = self.seats.get(key)?;
        let same = has_number(seat, number);
        if same {
            return Some(seat);
        }
        None
    }

    /// What is lent under this key and number, for this turn.
    pub(crate) fn lent(&self, key: usize, number: u32, turn: Turn) -> Option<&Seat>
        ensures there { IfSome result (λ seat. (get self.now.seats key ≡ Some seat.now)
            × (seat.now.number ≡ number)) }
        ensures found { IfSome result (λ seat.
            lent_to (record { key = key; number = number; turn = turn }) (connections self.now)
            ≡ Some (connection_of number key seat.now)) }
        ensures writes { IfSome result (λ seat. (client : ClientSession)
            → connections (with_client_under self.now key client)
            ≡ with_client number client (connections self.now)) }
        ensures unknown { IfNone result
            (lent_to (record { key = key; number = number; turn = turn }) (connections self.now)
            ≡ None) }
    {
        let seat = self.held(key, number)?;
        if is_lent(seat, turn) {
            return Some(seat);
        }
        None
    }

    /// What a lease stands for.
    pub(crate) fn leased(&self, lease: &Lease) -> Option<&Seat>
        ensures there { IfSome result (λ seat. (get self.now.seats lease.now.key ≡ Some seat.now)
            × (seat.now.number ≡ lease.now.number)) }
        ensures found { IfSome result (λ seat. lent_to lease.now (connections self.now)
            ≡ Some (connection_of lease.now.number lease.now.key seat.now)) }
        ensures writes { IfSome result (λ seat. (client : ClientSession)
            → connections (with_client_under self.now lease.now.key client)
            ≡ with_client lease.now.number client (connections self.now)) }
        ensures unknown { IfNone result (lent_to lease.now (connections self.now) ≡ None) }
    {
        self.lent(lease.key, lease.number, lease.turn)
    }

    /// What is kept under this key and number, for this turn.
    pub(crate) fn kept_under(&self, key: usize, number: u32, turn: Turn) -> Option<&Seat>
        ensures there { IfSome result (λ seat. (get self.now.seats key ≡ Some seat.now)
            × (seat.now.number ≡ number)) }
        ensures found { IfSome result (λ seat.
            kept_for (record { key = key; number = number; turn = turn }) (connections self.now)
            ≡ Some (connection_of number key seat.now)) }
        ensures unknown { IfNone result
            (kept_for (record { key = key; number = number; turn = turn }) (connections self.now)
            ≡ None) }
    {
        let seat = self.held(key, number)?;
        if is_kept(seat, turn) {
            return Some(seat);
        }
        None
    }

    /// What a ticket stands for.
    pub(crate) fn kept(&self, ticket: &Ticket) -> Option<&Seat>
        ensures there { IfSome result (λ seat. (get self.now.seats ticket.now.key ≡ Some seat.now)
            × (seat.now.number ≡ ticket.now.number)) }
        ensures found { IfSome result (λ seat. kept_for ticket.now (connections self.now)
            ≡ Some (connection_of ticket.now.number ticket.now.key seat.now)) }
        ensures unknown { IfNone result (kept_for ticket.now (connections self.now) ≡ None) }
    {
        self.kept_under(ticket.key, ticket.number, ticket.turn)
    }

    /// The connection at this place of the table.
    pub(crate) fn seat_at(&self, place: usize) -> &Seat
        requires { place < length self.now.entries }
        ensures there { get self.now.seats (key_at self.now.entries place) ≡ Some result.now }
        ensures number { result.now.number ≡ number_at self.now.entries place }
        ensures next { drop place (connections self.now)
            ≡ connection_of result.now.number (key_at self.now.entries place) result.now
            ∷ drop (suc place) (connections self.now) }
        ensures shown { numbered result.now.number (connections self.now)
            ≡ Some (connection_of result.now.number (key_at self.now.entries place) result.now) }
    {
        match self.seats.get(self.numbers.key(place)) {
            Some(seat) => seat,
            None => unreachable!(),
        }
    }

    /// Puts what is under this key at another place of the pool.
    pub(crate) fn stand(&mut self, key: usize, place: Place)
        ensures shown { IfSome (get self.old.seats key) (λ seat.
            connections self.new ≡ at_place seat.number place (connections self.old)) }
        ensures table { self.new.entries ≡ self.old.entries }
        ensures rest { SameRest self.old self.new }
    {
        let Some(seat) = self.seats.get_mut(key) else {
            return;
        };
        seat.place = place;
    }

    /// Ends a lending of what is under this key, and puts it at another place of the pool.
    pub(crate) fn end_at(&mut self, key: usize, place: Place)
        ensures shown { IfSome (get self.old.seats key) (λ seat.
            connections self.new ≡ lending_ended_at seat.number place (connections self.old)) }
        ensures table { self.new.entries ≡ self.old.entries }
        ensures rest { SameRest self.old self.new }
    {
        let Some(seat) = self.seats.get_mut(key) else {
            return;
        };
        seat.turn = seat.turn.next();
        seat.place = place;
    }

    /// Takes out the connection at this place of the table.
    pub(crate) fn take_out(&mut self, place: usize)
        requires { place < length self.old.entries }
        ensures shown { connections self.new
            ≡ taken_out (number_at self.old.entries place) (connections self.old) }
        ensures gone { numbered (number_at self.old.entries place) (connections self.new) ≡ None }
        ensures rest { SameRest self.old self.new }
    {
        self.seats.try_remove(self.numbers.key(place));
        self.numbers.remove(place);
    }

    /// Lends what is under this key again, its client marked for a reset, unless the client is
    /// broken or not idle.
    pub(crate) fn lend_again(&mut self, key: usize, reset: Reset) -> Result<(), PoolRefusal>
        ensures ok { OnOk result (IfSome (get self.old.seats key) (λ seat.
            unless_idle seat.client.stage ≡ None)) }
        ensures shown { OnOk result (IfSome (get self.old.seats key) (λ seat.
            connections self.new ≡ lent_again seat.number reset (connections self.old))) }
        ensures refused { IfErr result (λ refusal. IfSome (get self.old.seats key) (λ seat.
            unless_idle seat.client.stage ≡ Some refusal)) }
        ensures err { OnErr result (self.new ≡ self.old) }
        ensures rest { SameRest self.old self.new }
    {
        let Some(seat) = self.seats.get_mut(key) else {
            return Ok(());
        };
        mark(&mut seat.client, reset)?;
        seat.place = Place::Leased;
        Ok(())
    }

    /// Cancels what is underway under this key. The only refusal is `Memory`.
    pub(crate) fn cancel(&mut self, key: usize, out: &mut Vec<u8>) -> Result<(), PoolRefusal>
        ensures shown { OnOk result (IfSome (get self.old.seats key) (λ seat. connections self.new
            ≡ cancels seat.number seat.client (connections self.old))) }
        ensures bytes { OnOk result (IfSome (get self.old.seats key) (λ seat. out.new.items
            ≡ out.old.items ++ bytes_behind (cancelled seat.client))) }
        ensures refused { IfErr result (λ refusal. (refusal ≡ PoolRefusal.Memory)
            × IfSome (get self.old.seats key) (λ seat. IsAsked (cancelled seat.client))) }
        ensures err { OnErr result ((self.new ≡ self.old) × (out.new.items ≡ out.old.items)) }
        ensures rest { SameRest self.old self.new }
    {
        let Some(seat) = self.seats.get_mut(key) else {
            return Ok(());
        };
        clients::cancel(&mut seat.client, out)
    }

    /// Nobody holds the connection at this place of the table any more.
    pub(crate) fn settle_at(&mut self, place: usize) -> GivenBack
        requires { place < length self.old.entries }
        ensures answer { result
            ≡ (settled (number_at self.old.entries place) (connections self.old)).answer }
        ensures shown { connections self.new
            ≡ (settled (number_at self.old.entries place) (connections self.old)).connections }
        ensures rest { SameRest self.old self.new }
    {
        let key = self.numbers.key(place);
        let seat = self.seat_at(place);
        let number = seat.number;
        match resting_place(&seat.client) {
            None => {
                self.take_out(place);
                GivenBack::Closed(number)
            }
            Some(Place::Draining) => {
                self.end_at(key, Place::Draining);
                GivenBack::Draining(number)
            }
            Some(rest) => {
                self.end_at(key, rest);
                GivenBack::Free(number)
            }
        }
    }

    /// Nobody holds the connection of this number any more.
    pub(crate) fn settle(&mut self, number: u32) -> GivenBack
        ensures answer { result ≡ (settled number (connections self.old)).answer }
        ensures shown { connections self.new ≡ (settled number (connections self.old)).connections }
        ensures rest { SameRest self.old self.new }
    {
        match self.place_of(number) {
            Some(place) => self.settle_at(place),
            None => GivenBack::Unknown,
        }
    }

    /// The place of this number in the table.
    pub(crate) fn place_of(&self, number: u32) -> Option<usize>
        ensures found { IfSome result (λ place. (place < length self.now.entries)
            × (number_at self.now.entries place ≡ number)
            × (is_some (numbered number (connections self.now)) ≡ Bool.true)) }
        ensures unknown { IfNone result (numbered number (connections self.now) ≡ None) }
        ensures unchanged { IfNone result
            (taken_out number (connections self.now) ≡ connections self.now) }
    {
        place_of(&self.numbers, number)
    }
}
