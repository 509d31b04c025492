//! Which connection is lent next, and new ones.
ghost use Rattle.std.specs.Prelude.{Bool, ◌≡◌, ◌<◌, ◌∷◌, ◌++◌, [], suc, length, drop, None, Some, IfOk, IfErr, IfSome, IfNone, OnOk, OnErr, IsSome, IsOk, is_some, is_none};
ghost use Rattle.slab.specs.Slab.{get};
ghost use Rattle.tds_packet.specs.declared.status.Reset.TheVariants.{Full};
ghost use Rattle.tds_pool.specs.declared.answers.Opened.{Opened};
ghost use Rattle.tds_pool.specs.Connections.{connections, connection_of, first_turn, SameRest};
ghost use Rattle.tds_pool.specs.Calls.{is_free, is_idle, lent_next, lent_again, refuses_new, can_lend, IsRefusal, new_connection, is_lendable};

use crate::answers::{Opened, PoolRefusal};
use crate::clients::idle;
use crate::lease::{Lease, Turn};
use crate::pool::Pool;
use crate::seat::{Place, Seat};
use std::alloc::Global;
use tds_client::Client;
use tds_packet::Reset;

/// Whether a connection is free and its client idle.
fn lendable(seat: &Seat) -> bool
    ensures { result ≡ is_lendable (connection_of 0 0 seat.now) }
{
    match seat.place {
        Place::Leased => false,
        Place::Kept => false,
        Place::Free => idle(&seat.client),
        Place::Draining => false,
        Place::Cleaning => false,
    }
}

impl Pool {
    /// Lends a connection: of the free ones whose client is idle the one with the lowest number,
    /// marked for a full reset. If there is none, and fewer than `max` connections are in the pool,
    /// it is a new one, without a mark. Only that takes memory.
    ///
    /// The first of these refusals: there are `max` connections; every number was used; a growth was
    /// refused.
    pub fn lease(&mut self, alloc: Global) -> Result<(Lease, Opened), PoolRefusal>
        ensures reused { IfOk result (λ given. IfSome (lent_next (connections self.old)) (λ c.
            (given.0.key ≡ c.key) × (given.0.number ≡ c.number)
            × (given.1 ≡ Opened.Reused c.number))) }
        ensures turn { IfOk result (λ given. IfSome (lent_next (connections self.old)) (λ c.
            given.0.turn ≡ c.turn)) }
        ensures reset { OnOk result (IfSome (lent_next (connections self.old)) (λ c.
            (connections self.new ≡ lent_again c.number Full (connections self.old))
            × SameRest self.old self.new)) }
        ensures lends { OnOk result
            (can_lend self.old.max self.old.last (connections self.old) ≡ Bool.true) }
        ensures fails { IfErr result (λ refusal.
            can_lend self.old.max self.old.last (connections self.old) ≡ Bool.true
            → refusal ≡ PoolRefusal.Memory) }
        ensures takes_none { IsSome (lent_next (connections self.old)) → IsOk result }
        ensures new { IfOk result (λ given. IfNone (lent_next (connections self.old))
            ((given.0.number ≡ suc self.old.last) × (given.1 ≡ Opened.New (suc self.old.last))
            × (connections self.new ≡ connections self.old
            ++ new_connection self.old.name (suc self.old.last) given.0.key self.old.size ∷ []))) }
        ensures first { IfOk result (λ given. IfNone (lent_next (connections self.old))
            (given.0.turn ≡ first_turn self.old.name)) }
        ensures used { OnOk result (IfNone (lent_next (connections self.old))
            ((self.new.last ≡ suc self.old.last) × (self.new.max ≡ self.old.max)
            × (self.new.size ≡ self.old.size))) }
        ensures name { OnOk result (self.new.name ≡ self.old.name) }
        ensures allowed { OnOk result (IfNone (lent_next (connections self.old))
            (refuses_new (length (connections self.old)) self.old.max self.old.last ≡ None)) }
        ensures refused { IfErr result (IsRefusal
            (refuses_new (length (connections self.old)) self.old.max self.old.last)) }
        ensures err { OnErr result ((connections self.new ≡ connections self.old)
            × SameRest self.old self.new) }
    {
        match self.next_free() {
            Some((key, number, turn)) => {
                self.lend_again(key, Reset::Full)?;
                Ok((Lease { key, number, turn }, Opened::Reused(number)))
            }
            None => self.open(alloc),
        }
    }

    /// Whether `lease` gives a connection, want of memory aside: one is free, or a new one may be
    /// opened.
    pub fn can_lend(&self) -> bool
        ensures { result ≡ can_lend self.now.max self.now.last (connections self.now) }
    {
        self.next_free().is_some() || self.may_open()
    }

    /// Whether a new connection may be opened.
    fn may_open(&self) -> bool
        ensures { result
            ≡ is_none (refuses_new (length (connections self.now)) self.now.max self.now.last) }
    {
        self.numbers.len() < usize::from(self.max) && self.last < u32::MAX
    }

    /// The key, the number and the turn of the connection that is lent next, if one is free.
    fn next_free(&self) -> Option<(usize, u32, Turn)>
        ensures found { IfSome result (λ it. IfSome (get self.now.seats it.0) (λ seat.
            (seat.number ≡ it.1) × (seat.turn ≡ it.2) × (is_idle seat.client.stage ≡ Bool.true)
            × (lent_next (connections self.now) ≡ Some (connection_of it.1 it.0 seat)))) }
        ensures there { IfSome result (λ it. is_some (get self.now.seats it.0) ≡ Bool.true) }
        ensures none { IfNone result (lent_next (connections self.now) ≡ None) }
    {
        for place in 0..self.numbers.len() {
            let seat = self.seat_at(place);
            if lendable(seat) {
                return Some((self.numbers.key(place), seat.number, seat.turn));
            }
        }
        None
    }

    /// A new connection, where there is room for one. Both growths come first.
    fn open(&mut self, alloc: Global) -> Result<(Lease, Opened), PoolRefusal>
        ensures new { IfOk result (λ given. (given.0.number ≡ suc self.old.last)
            × (given.0.turn ≡ first_turn self.old.name) × (given.1 ≡ Opened.New (suc self.old.last))
            × (connections self.new ≡ connections self.old
            ++ new_connection self.old.name (suc self.old.last) given.0.key self.old.size ∷ [])) }
        ensures used { OnOk result ((self.new.last ≡ suc self.old.last)
            × (self.new.max ≡ self.old.max) × (self.new.size ≡ self.old.size)
            × (self.new.name ≡ self.old.name)) }
        ensures allowed { OnOk result
            (refuses_new (length (connections self.old)) self.old.max self.old.last ≡ None) }
        ensures refused { IfErr result (IsRefusal
            (refuses_new (length (connections self.old)) self.old.max self.old.last)) }
        ensures err { OnErr result ((connections self.new ≡ connections self.old)
            × SameRest self.old self.new) }
    {
        if self.numbers.len() >= usize::from(self.max) {
            return Err(PoolRefusal::AllInUse);
        }
        if self.last == u32::MAX {
            return Err(PoolRefusal::NumbersUsedUp);
        }
        let number = self.last + 1;
        let key = self.add(alloc, number)?;
        let turn = Turn {
            pool: self.name,
            count: 0,
        };
        let lease = Lease { key, number, turn };
        Ok((lease, Opened::New(number)))
    }

    /// Puts a new connection into table and slab.
    fn add(&mut self, alloc: Global, number: u32) -> Result<usize, PoolRefusal>
        requires next { number ≡ suc self.old.last }
        requires room { length self.old.entries < self.old.max }
        ensures new { IfOk result (λ key. connections self.new ≡ connections self.old
            ++ new_connection self.old.name number key self.old.size ∷ []) }
        ensures used { OnOk result ((self.new.last ≡ suc self.old.last)
            × (self.new.max ≡ self.old.max) × (self.new.size ≡ self.old.size)
            × (self.new.name ≡ self.old.name)) }
        ensures memory { IfErr result (λ refusal. refusal ≡ PoolRefusal.Memory) }
        ensures err { OnErr result ((connections self.new ≡ connections self.old)
            × SameRest self.old self.new) }
    {
        self.seats.reserve(1)?;
        let key = self.seats.vacant_key();
        self.numbers.push(number, key)?;
        self.seats.insert_reserved(Seat {
            number,
            turn: Turn {
                pool: self.name,
                count: 0,
            },
            place: Place::Leased,
            client: Client::new(alloc, self.size),
        });
        self.last = number;
        Ok(key)
    }
}
