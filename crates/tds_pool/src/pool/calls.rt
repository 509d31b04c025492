//! The calls of a pool.
ghost use Rattle.std.specs.Prelude.{◌≡◌, ◌++◌, Bool, Option, Some, None, IfOk, IfErr, IfSome, IsSomeAnd, IfNone, OnOk, OnErr, IsSome, is_some, option_map};
ghost use Rattle.std.specs.Option.{option_copied, option_copied_mut};
ghost use Rattle.std.specs.Borrow.{sem};
ghost use Rattle.slab.specs.Slab.{get};
ghost use Rattle.tds_client.specs.Session.{ClientSession};
ghost use Rattle.tds_client.specs.Sending.{cancelled};
ghost use Rattle.tds_packet.specs.declared.status.Reset.TheVariants.{KeepTransaction};
ghost use Rattle.tds_pool.specs.declared.seat.Place.TheVariants.{Kept};
ghost use Rattle.tds_pool.specs.Connections.{connections, Connection, SameRest, numbered, at_place, taken_out, with_client};
ghost use Rattle.tds_pool.specs.declared.seat.Seat.{Seat};
ghost use Rattle.tds_numbers.specs.Table.{key_of};
ghost use Rattle.tds_pool.specs.Lends.{LendsClient, LendsNumbered, with_client_under, with_client_numbered};
ghost use Rattle.tds_pool.specs.Calls.{lent_to, kept_for, refuses_keep, refuses_resume, lent_again, abandoned, drained, given_back, given_back_bytes, IsAsked};

use crate::answers::{GivenBack, PoolRefusal};
use crate::clients::check_open;
use crate::lease::{Lease, Ticket};
use crate::pool::Pool;
use crate::seat::Place;
use tds_client::Client;
use tds_packet::Reset;

impl Pool {
    /// The client of a lease; none if the lease is unknown.
    pub fn client(&self, lease: &Lease) -> Option<&Client>
        ensures { option_copied result
            ≡ option_map (λ (c : Connection). c.client) (lent_to lease.now (connections self.now)) }
    {
        let seat = self.leased(lease)?;
        Some(&seat.client)
    }

    /// The client of a lease, to be changed; none if the lease is unknown. The other connections
    /// stay as they are.
    pub fn client_mut(&mut self, lease: &Lease) -> Option<&mut Client>
        ensures* lends { sem 𝓛 (LendsClient self.entry lease.now.key result) }
        ensures value { option_copied_mut result
            ≡ option_map (λ (c : Connection). c.client)
            (lent_to lease.now (connections self.entry.now)) }
        ensures writes { IsSome (lent_to lease.now (connections self.entry.now))
            → (client : ClientSession)
            → connections (with_client_under self.entry.now lease.now.key client)
            ≡ with_client lease.now.number client (connections self.entry.now) }
    {
        let key = self.leased_key(lease)?;
        self.lend(key)
    }

    /// The key of a lease; none if the lease is unknown.
    fn leased_key(&self, lease: &Lease) -> Option<usize>
        ensures found { IfSome result (λ key. (key ≡ lease.now.key)
            × (option_map (λ (seat : Seat). seat.client) (get self.now.seats lease.now.key)
            ≡ option_map (λ (c : Connection). c.client)
            (lent_to lease.now (connections self.now)))) }
        ensures unknown { IfNone result (lent_to lease.now (connections self.now) ≡ None) }
        ensures writes { IsSome (lent_to lease.now (connections self.now))
            → (client : ClientSession)
            → connections (with_client_under self.now lease.now.key client)
            ≡ with_client lease.now.number client (connections self.now) }
    {
        self.leased(lease)?;
        Some(lease.key)
    }

    /// Keeps a connection with its transaction: the lease ends, and a ticket stands for it.
    ///
    /// The first of these refusals: the lease is unknown; the client is broken; it is not idle;
    /// there is no transaction, or a full reset is about to end it.
    pub fn keep(&mut self, lease: Lease) -> Result<Ticket, (Lease, PoolRefusal)>
        ensures ok { OnOk result
            (refuses_keep (lent_to lease (connections self.old)) ≡ None) }
        ensures ticket { IfOk result (λ ticket. (ticket.key ≡ lease.key)
            × (ticket.number ≡ lease.number) × (ticket.turn ≡ lease.turn)) }
        ensures shown { OnOk result (connections self.new
            ≡ at_place lease.number Kept (connections self.old)) }
        ensures refused { IfErr result (λ refused. (refused.0 ≡ lease)
            × (refuses_keep (lent_to lease (connections self.old)) ≡ Some refused.1)) }
        ensures err { OnErr result (self.new ≡ self.old) }
        ensures rest { SameRest self.old self.new }
    {
        if let Err(refusal) = self.check_kept(&lease) {
            return Err((lease, refusal));
        }
        let Lease { key, number, turn } = lease;
        self.stand(key, Place::Kept);
        Ok(Ticket { key, number, turn })
    }

    /// Why this lease can't be kept.
    fn check_kept(&self, lease: &Lease) -> Result<(), PoolRefusal>
        ensures ok { OnOk result
            (refuses_keep (lent_to lease.now (connections self.now)) ≡ None) }
        ensures refused { IfErr result (λ refusal.
            refuses_keep (lent_to lease.now (connections self.now)) ≡ Some refusal) }
        ensures there { OnOk result (IfSome (get self.now.seats lease.now.key) (λ seat.
            seat.number ≡ lease.now.number)) }
        ensures some { OnOk result (IsSome (get self.now.seats lease.now.key)) }
    {
        match self.leased(lease) {
            None => Err(PoolRefusal::Unknown),
            Some(seat) => check_open(&seat.client),
        }
    }

    /// Lends a connection that was kept again, to go on with its transaction: its client is marked
    /// for a reset that keeps the transaction.
    ///
    /// The first of these refusals: the ticket is unknown; the client is broken; it is not idle.
    pub fn resume(&mut self, ticket: Ticket) -> Result<Lease, (Ticket, PoolRefusal)>
        ensures ok { OnOk result
            (refuses_resume (kept_for ticket (connections self.old)) ≡ None) }
        ensures lease { IfOk result (λ lease. (lease.key ≡ ticket.key)
            × (lease.number ≡ ticket.number) × (lease.turn ≡ ticket.turn)) }
        ensures shown { OnOk result (connections self.new
            ≡ lent_again ticket.number KeepTransaction (connections self.old)) }
        ensures refused { IfErr result (λ refused. (refused.0 ≡ ticket)
            × (refuses_resume (kept_for ticket (connections self.old)) ≡ Some refused.1)) }
        ensures err { OnErr result (self.new ≡ self.old) }
        ensures rest { SameRest self.old self.new }
    {
        if self.kept(&ticket).is_none() {
            return Err((ticket, PoolRefusal::Unknown));
        }
        if let Err(refusal) = self.lend_again(ticket.key, Reset::KeepTransaction) {
            return Err((ticket, refusal));
        }
        let Ticket { key, number, turn } = ticket;
        Ok(Lease { key, number, turn })
    }

    /// Gives a kept connection up. It is free if its client is idle then, and closed if that is
    /// broken.
    pub fn abandon(&mut self, ticket: Ticket) -> GivenBack
        ensures answer { result ≡ (abandoned ticket (connections self.old)).answer }
        ensures shown { connections self.new
            ≡ (abandoned ticket (connections self.old)).connections }
        ensures rest { SameRest self.old self.new }
    {
        match self.kept(&ticket) {
            Some(_) => {
                let Ticket {
                    key: _,
                    number,
                    turn: _,
                } = ticket;
                self.settle(number)
            }
            None => {
                let Ticket {
                    key: _,
                    number: _,
                    turn: _,
                } = ticket;
                GivenBack::Unknown
            }
        }
    }

    /// Looks at a draining connection again: it is free if its client is idle now, and closed if
    /// that is broken. Any other connection is unknown, and nothing changes.
    pub fn drained(&mut self, number: u32) -> GivenBack
        ensures answer { result ≡ (drained number (connections self.old)).answer }
        ensures shown { connections self.new
            ≡ (drained number (connections self.old)).connections }
        ensures rest { SameRest self.old self.new }
    {
        let Some(place) = self.place_of(number) else {
            return GivenBack::Unknown;
        };
        match self.seat_at(place).place {
            Place::Leased => GivenBack::Unknown,
            Place::Kept => GivenBack::Unknown,
            Place::Free => GivenBack::Unknown,
            Place::Draining => self.settle_at(place),
            Place::Cleaning => GivenBack::Unknown,
        }
    }

    /// Takes a connection out, wherever it is. Its lease or ticket is unknown from then on. Answers
    /// whether there was one.
    pub fn lost(&mut self, number: u32) -> bool
        ensures answer { result ≡ is_some (numbered number (connections self.old)) }
        ensures shown { connections self.new ≡ taken_out number (connections self.old) }
        ensures gone { numbered number (connections self.new) ≡ None }
        ensures rest { SameRest self.old self.new }
    {
        match self.place_of(number) {
            Some(place) => {
                self.take_out(place);
                true
            }
            None => false,
        }
    }

    /// Gives a connection back: what is underway on it is cancelled. It is free if its client is
    /// idle then; else it drains, and `drained` says when it is free. It is closed if its client was
    /// broken. The only refusal is `Memory`, where an attention is to go out.
    pub fn give_back(
        &mut self,
        lease: Lease,
        out: &mut Vec<u8>,
    ) -> Result<GivenBack, (Lease, PoolRefusal)>
        ensures answer { IfOk result (λ answer.
            answer ≡ (given_back lease (connections self.old)).answer) }
        ensures shown { OnOk result (connections self.new
            ≡ (given_back lease (connections self.old)).connections) }
        ensures bytes { OnOk result (out.new.items
            ≡ out.old.items ++ given_back_bytes lease (connections self.old)) }
        ensures refused { IfErr result (λ refused. (refused.0 ≡ lease)
            × (refused.1 ≡ PoolRefusal.Memory)
            × IsSomeAnd (lent_to lease (connections self.old))
            (λ c. IsAsked (cancelled c.client))) }
        ensures err { OnErr result ((self.new ≡ self.old) × (out.new.items ≡ out.old.items)) }
        ensures rest { SameRest self.old self.new }
    {
        if self.leased(&lease).is_none() {
            let Lease {
                key: _,
                number: _,
                turn: _,
            } = lease;
            return Ok(GivenBack::Unknown);
        }
        if let Err(refusal) = self.cancel(lease.key, out) {
            return Err((lease, refusal));
        }
        let Lease {
            key: _,
            number,
            turn: _,
        } = lease;
        Ok(self.settle(number))
    }
}
