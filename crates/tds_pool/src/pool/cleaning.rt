//! Connections that are taken back without their lease, and those that the pool cleans.
ghost use Rattle.std.specs.Prelude.{◌≡◌, ◌<◌, ◌++◌, length, IfOk, IfErr, IfSome, IsSomeAnd, IfNone, OnOk, OnErr};
ghost use Rattle.slab.specs.Slab.{get};
ghost use Rattle.tds_client.specs.Sending.{cancelled};
ghost use Rattle.tds_pool.specs.declared.answers.PoolRefusal.{PoolRefusal};
ghost use Rattle.tds_pool.specs.Connections.{connections, connection_of, numbered, SameRest};
ghost use Rattle.tds_numbers.specs.Table.{number_at};
ghost use Rattle.tds_pool.specs.Calls.{IsAsked, IsRefusal, unless_idle, is_held, held_one, taken_back, taken_back_bytes, free_one, refuses_clean, cleaning, not_cleaned, cleaned, looked_at_clean};

use crate::answers::{GivenBack, PoolRefusal};
use crate::clients::{clean_place, start_reset};
use crate::pool::Pool;
use crate::seat::Place;
use tds_request::Request;

/// Whether a connection at this place is held by somebody.
fn is_held(place: Place) -> bool
    ensures { result ≡ is_held place }
{
    match place {
        Place::Leased => true,
        Place::Kept => true,
        Place::Free => false,
        Place::Draining => false,
        Place::Cleaning => false,
    }
}

impl Pool {
    /// Takes a connection back from whoever holds it, as `give_back` and `abandon` do without its
    /// lease or ticket, which is unknown from then on. `Unknown`: nobody holds it. The only refusal
    /// is `Memory`, where an attention is to go out.
    pub fn take_back(&mut self, number: u32, out: &mut Vec<u8>) -> Result<GivenBack, PoolRefusal>
        ensures answer { IfOk result (λ answer.
            answer ≡ (taken_back number (connections self.old)).answer) }
        ensures shown { OnOk result (connections self.new
            ≡ (taken_back number (connections self.old)).connections) }
        ensures bytes { OnOk result (out.new.items
            ≡ out.old.items ++ taken_back_bytes number (connections self.old)) }
        ensures refused { IfErr result (λ refusal. (refusal ≡ PoolRefusal.Memory)
            × IsSomeAnd (held_one number (connections self.old))
            (λ c. IsAsked (cancelled c.client))) }
        ensures err { OnErr result ((self.new ≡ self.old) × (out.new.items ≡ out.old.items)) }
        ensures rest { SameRest self.old self.new }
    {
        let Some(key) = self.held_key(number) else {
            return Ok(GivenBack::Unknown);
        };
        self.cancel(key, out)?;
        Ok(self.settle(number))
    }

    /// The key of a connection that somebody holds.
    fn held_key(&self, number: u32) -> Option<usize>
        ensures found { IfSome result (λ key. IsSomeAnd (get self.now.seats key) (λ seat.
            (seat.number ≡ number) × (held_one number (connections self.now)
            ≡ Some (connection_of number key seat)))) }
        ensures none { IfNone result (held_one number (connections self.now) ≡ None) }
    {
        let place = self.place_of(number)?;
        if is_held(self.seat_at(place).place) {
            return Some(self.numbers.key(place));
        }
        None
    }

    /// The key of a connection that is free.
    fn free_key(&self, number: u32) -> Option<usize>
        ensures found { IfSome result (λ key. IsSomeAnd (get self.now.seats key) (λ seat.
            (seat.number ≡ number) × (free_one number (connections self.now)
            ≡ Some (connection_of number key seat)))) }
        ensures none { IfNone result (free_one number (connections self.now) ≡ None) }
    {
        let place = self.place_of(number)?;
        match self.seat_at(place).place {
            Place::Leased => None,
            Place::Kept => None,
            Place::Free => Some(self.numbers.key(place)),
            Place::Draining => None,
            Place::Cleaning => None,
        }
    }

    /// Cleans a free connection: it stands at `Cleaning`, where nobody is lent it, and its client
    /// has begun this request, which asks for a full reset. Send what its client has to send, hand
    /// it what comes, by `at(number)`, and call `cleaned(number)` behind each piece.
    ///
    /// The first of these refusals: no free connection has this number; its client is broken; it is
    /// not idle; a growth was refused. They leave it free; where a growth was refused, its client
    /// is marked for the reset that the next lease asks for anyway.
    pub fn clean(&mut self, number: u32, request: &Request) -> Result<(), PoolRefusal>
        ensures ok { OnOk result
            (refuses_clean (free_one number (connections self.old)) ≡ None) }
        ensures shown { OnOk result (connections self.new
            ≡ cleaning number request.now (connections self.old)) }
        ensures refused { IfErr result
            (IsRefusal (refuses_clean (free_one number (connections self.old)))) }
        ensures err { IfErr result (λ refusal. IfSome (free_one number (connections self.old))
            (λ _. connections self.new ≡ not_cleaned refusal number (connections self.old))) }
        ensures unknown { IfNone (free_one number (connections self.old)) (self.new ≡ self.old) }
        ensures rest { SameRest self.old self.new }
    {
        let Some(key) = self.free_key(number) else {
            return Err(PoolRefusal::Unknown);
        };
        self.start_cleaning(key, request)
    }

    /// Starts the cleaning of what is under this key.
    fn start_cleaning(&mut self, key: usize, request: &Request) -> Result<(), PoolRefusal>
        ensures ok { OnOk result (IfSome (get self.old.seats key) (λ seat.
            unless_idle seat.client.stage ≡ None)) }
        ensures shown { OnOk result (IfSome (get self.old.seats key) (λ seat.
            connections self.new ≡ cleaning seat.number request.now (connections self.old))) }
        ensures refused { IfErr result (λ refusal. IfSome (get self.old.seats key) (λ seat.
            IsRefusal (unless_idle seat.client.stage) refusal)) }
        ensures err { IfErr result (λ refusal. IfSome (get self.old.seats key) (λ seat.
            connections self.new ≡ not_cleaned refusal seat.number (connections self.old))) }
        ensures rest { SameRest self.old self.new }
    {
        let Some(seat) = self.seats.get_mut(key) else {
            return Ok(());
        };
        if let Err(refusal) = start_reset(&mut seat.client, request) {
            return Err(refusal);
        }
        seat.place = Place::Cleaning;
        Ok(())
    }

    /// Looks at a connection that is being cleaned again: it is free if its client is idle now and
    /// in no transaction, and closed if that is broken or still in one. `Draining`: the answer has
    /// not come. Any other connection is unknown, and nothing changes.
    pub fn cleaned(&mut self, number: u32) -> GivenBack
        ensures answer { result ≡ (cleaned number (connections self.old)).answer }
        ensures shown { connections self.new
            ≡ (cleaned number (connections self.old)).connections }
        ensures rest { SameRest self.old self.new }
    {
        let Some(place) = self.place_of(number) else {
            return GivenBack::Unknown;
        };
        match self.seat_at(place).place {
            Place::Leased => GivenBack::Unknown,
            Place::Kept => GivenBack::Unknown,
            Place::Free => GivenBack::Unknown,
            Place::Draining => GivenBack::Unknown,
            Place::Cleaning => self.look_at(place),
        }
    }

    /// What became of a cleaning at this place of the table.
    fn look_at(&mut self, place: usize) -> GivenBack
        requires { place < length self.old.entries }
        ensures answer { result ≡ (looked_at_clean
            (numbered (number_at self.old.entries place) (connections self.old))
            (connections self.old)).answer }
        ensures shown { connections self.new ≡ (looked_at_clean
            (numbered (number_at self.old.entries place) (connections self.old))
            (connections self.old)).connections }
        ensures rest { SameRest self.old self.new }
    {
        let key = self.numbers.key(place);
        let seat = self.seat_at(place);
        let number = seat.number;
        match clean_place(&seat.client) {
            None => {
                self.take_out(place);
                GivenBack::Closed(number)
            }
            Some(Place::Free) => {
                self.stand(key, Place::Free);
                GivenBack::Free(number)
            }
            Some(_) => GivenBack::Draining(number),
        }
    }
}
