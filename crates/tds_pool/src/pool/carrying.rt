//! What whoever carries a connection's packets calls, by its number.
ghost use Rattle.std.specs.Prelude.{◌≡◌, None, Err, IfOk, IfErr, IfSome, IfNone, OnErr, IsSome, option_map};
ghost use Rattle.std.specs.Option.{option_copied, option_copied_mut};
ghost use Rattle.std.specs.Borrow.{sem};
ghost use Rattle.slab.specs.Slab.{get};
ghost use Rattle.tds_client.specs.Session.{ClientSession};
ghost use Rattle.tds_client.specs.Sending.{Does, IsRefusal, refusal_of, sent};
ghost use Rattle.tds_client.specs.Taking.{Takes, broken_by, taken_of};
ghost use Rattle.tds_packet.specs.declared.kind.Kind.TheVariants.{Answer};
ghost use Rattle.tds_pool.specs.Cleaning.{carried, client_at, is_cleaned};
ghost use Rattle.tds_pool.specs.Connections.{connections, Connection, SameRest, numbered, with_client};
ghost use Rattle.tds_pool.specs.Lends.{LendsNumbered, with_client_numbered};
ghost use Rattle.tds_numbers.specs.Table.{key_of};
ghost use Rattle.tds_pool.specs.declared.seat.Seat.{Seat};

use crate::pool::Pool;
use crate::seat::Place;
use tds_client::{Client, ClientFault, ClientRefusal, Sent, Taken};
use tds_numbers::place_of;
use tds_packet::PacketRef;
use tds_token::Token;

impl Pool {
    /// The client of a connection of this number, for whoever carries its packets; none if there is
    /// no such connection, or if it is being cleaned: `send` and `take` carry the packets of such a
    /// one, and nobody cancels there. A free one that breaks so is passed over by `lease` until
    /// `lost` takes it out.
    pub fn at(&mut self, number: u32) -> Option<&mut Client>
        ensures* lends { sem 𝓛 (LendsNumbered self.entry number result) }
        ensures value { option_copied_mut result
            ≡ option_map (λ (c : Connection). c.client)
            (carried number (connections self.entry.now)) }
        ensures writes { (client : ClientSession)
            → IsSome (carried number (connections self.entry.now))
            → connections (with_client_numbered self.entry.now number client)
            ≡ with_client number client (connections self.entry.now) }
    {
        if self.is_cleaned(number) {
            return None;
        }
        self.client_of(number)
    }

    /// Whether the connection of this number is being cleaned.
    fn is_cleaned(&self, number: u32) -> bool
        ensures { result ≡ is_cleaned (numbered number (connections self.now)) }
    {
        match self.place_of(number) {
            Some(place) => matches!(self.seat_at(place).place, Place::Cleaning),
            None => false,
        }
    }

    /// The client of a connection of this number, wherever it stands.
    fn client_of(&mut self, number: u32) -> Option<&mut Client>
        ensures* lends { sem 𝓛 (LendsNumbered self.entry number result) }
        ensures value { option_copied_mut result
            ≡ option_map (λ (c : Connection). c.client)
            (numbered number (connections self.entry.now)) }
        ensures writes { (client : ClientSession)
            → IsSome (numbered number (connections self.entry.now))
            → connections (with_client_numbered self.entry.now number client)
            ≡ with_client number client (connections self.entry.now) }
    {
        let key = self.key_of(number)?;
        self.lend(key)
    }

    /// The key of this number; none if there is no such connection.
    fn key_of(&self, number: u32) -> Option<usize>
        ensures key { result ≡ key_of self.now.entries number }
        ensures found { IfSome result (λ key.
            option_map (λ (seat : Seat). seat.client) (get self.now.seats key)
            ≡ option_map (λ (c : Connection). c.client) (numbered number (connections self.now))) }
        ensures unknown { IfNone result (numbered number (connections self.now) ≡ None) }
        ensures writes { (client : ClientSession)
            → IsSome (numbered number (connections self.now))
            → connections (with_client_numbered self.now number client)
            ≡ with_client number client (connections self.now) }
    {
        let place = place_of(&self.numbers, number)?;
        Some(self.numbers.key(place))
    }

    /// Appends the next packet of what a connection asks, as `Client::send` does, wherever it
    /// stands; none if there is no such connection.
    pub fn send(&mut self, number: u32, out: &mut Vec<u8>) -> Option<Result<Sent, ClientRefusal>>
        ensures ok { IfSome result (λ it. IfOk it (λ answer.
            Does (sent (client_at number (connections self.old))) answer
            (client_at number (connections self.new)) out.old.items out.new.items)) }
        ensures refused { IfSome result (λ it.
            IfErr it (IsRefusal (refusal_of (sent (client_at number (connections self.old)))))) }
        ensures err { IfSome result (λ it. OnErr it
            ((client_at number (connections self.new) ≡ client_at number (connections self.old))
            × (out.new.items ≡ out.old.items))) }
        ensures shown { IfSome result (λ _. connections self.new ≡ with_client number
            (client_at number (connections self.new)) (connections self.old)) }
        ensures there { IfSome result (λ _. IsSome (numbered number (connections self.old))) }
        ensures none { IfNone result (numbered number (connections self.old) ≡ None) }
        ensures unchanged { IfNone result ((connections self.new ≡ connections self.old)
            × (out.new.items ≡ out.old.items)) }
        ensures rest { SameRest self.old self.new }
    {
        let Some(client) = self.client_of(number) else {
            return None;
        };
        Some(client.send(out))
    }

    /// Takes a packet of an answer that came on a connection, as `Client::take` does, wherever it
    /// stands; none if there is no such connection. `drained` and `cleaned` say what it has come to.
    pub fn take(
        &mut self,
        number: u32,
        packet: PacketRef<'_>,
        told: &mut Vec<Token>,
    ) -> Option<Result<Taken, ClientFault>>
        requires { packet.header.kind ≡ Answer }
        ensures taken { IfSome result (λ it. IfOk it (λ answer.
            Takes (taken_of (client_at number (connections self.old)) packet.entry) answer
            (client_at number (connections self.old)) (client_at number (connections self.new))
            told.old.items told.new.items)) }
        ensures fault { IfSome result (λ it. IfErr it (λ fault.
            taken_of (client_at number (connections self.old)) packet.entry ≡ Err fault)) }
        ensures broken { IfSome result (λ it. IfErr it (λ fault.
            client_at number (connections self.new)
            ≡ broken_by (client_at number (connections self.old)) fault)) }
        ensures nothing { IfSome result (λ it. OnErr it (told.new.items ≡ told.old.items)) }
        ensures shown { IfSome result (λ _. connections self.new ≡ with_client number
            (client_at number (connections self.new)) (connections self.old)) }
        ensures there { IfSome result (λ _. IsSome (numbered number (connections self.old))) }
        ensures none { IfNone result (numbered number (connections self.old) ≡ None) }
        ensures unchanged { IfNone result ((connections self.new ≡ connections self.old)
            × (told.new.items ≡ told.old.items)) }
        ensures rest { SameRest self.old self.new }
    {
        let Some(client) = self.client_of(number) else {
            return None;
        };
        Some(client.take(packet, told))
    }
}
