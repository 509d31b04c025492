//! The pool.
ghost use Rattle.std.specs.Prelude.{◌≡◌, ◌≤◌, [], Some, None, IfSome, IfNone, IsSome, option_map};
ghost use Rattle.std.specs.Option.{option_copied, option_copied_mut};
ghost use Rattle.std.specs.Borrow.{sem};
ghost use Rattle.slab.specs.Slab.{get};
ghost use Rattle.tds_pool.specs.declared.seat.Seat.{Seat};
ghost use Rattle.tds_pool.specs.Connections.{connections};
ghost use Rattle.tds_pool.specs.Lends.{LendsClient};

mod calls;
mod carrying;
mod cleaning;
mod lending;
mod seats;
mod service;
mod storing;

use crate::seat::Seat;
use slab::Slab;
use std::alloc::Global;
use std::marker::Model;
use tds_client::Client;
use tds_numbers::{MOST, Numbers};
use tds_packet::PacketSize;

/// The most connections that `Pool::new` makes a pool for.
const FEW: u8 = 64;

/// The connections that a program shares: at most `max`, each with a number from 1 upward that is
/// never used again.
#[derive(Drop)]
pub struct Pool {
    name: u32,
    max: u16,
    size: PacketSize,
    /// The last number that was used, 0 for none.
    last: u32,
    numbers: Numbers,
    seats: Slab<Seat>,
}

impl Model for Pool {
    ghost use Rattle.tds_pool.specs.Connections.{PoolState, IsPool};
    ghost use Rattle.tds_pool.specs.Fields.{state_of};

    ghost Value = { PoolState };

    ghost view = { state_of };

    ghost invariant = { λ a. IsPool (state_of a) };
}

impl Pool {
    /// A pool for at most `max` connections, from 1 to 64. It takes no memory. Its name is 0.
    pub fn new(alloc: Global, max: u8, size: PacketSize) -> Option<Pool>
        ensures given { 1 ≤ max → max ≤ 64 → IsSome result }
        ensures lawful { IsSome result → (1 ≤ max) × (max ≤ 64) }
        ensures value { IfSome result (λ pool. (connections pool ≡ []) × (pool.max ≡ max)
            × (pool.size ≡ size) × (pool.last ≡ 0)) }
        ensures name { IfSome result (λ pool. pool.name ≡ 0) }
    {
        if max > FEW {
            return None;
        }
        Pool::wide(alloc, u16::from(max), size)
    }

    /// A pool as `new` makes it, for at most `max` connections, from 1 to 1,024.
    pub fn wide(alloc: Global, max: u16, size: PacketSize) -> Option<Pool>
        ensures given { 1 ≤ max → max ≤ 1024 → IsSome result }
        ensures lawful { IsSome result → (1 ≤ max) × (max ≤ 1024) }
        ensures value { IfSome result (λ pool. (connections pool ≡ []) × (pool.max ≡ max)
            × (pool.size ≡ size) × (pool.last ≡ 0)) }
        ensures name { IfSome result (λ pool. pool.name ≡ 0) }
    {
        Pool::named(alloc, 0, max, size)
    }

    /// A pool as `wide` makes it, with a name. A lease of a pool of another name is unknown to it, so
    /// a program with several pools gives each one a name of its own.
    pub fn named(alloc: Global, name: u32, max: u16, size: PacketSize) -> Option<Pool>
        ensures given { 1 ≤ max → max ≤ 1024 → IsSome result }
        ensures lawful { IsSome result → (1 ≤ max) × (max ≤ 1024) }
        ensures value { IfSome result (λ pool. (connections pool ≡ []) × (pool.max ≡ max)
            × (pool.size ≡ size) × (pool.last ≡ 0)) }
        ensures name { IfSome result (λ pool. pool.name ≡ name) }
    {
        if max < 1 || max > MOST {
            return None;
        }
        Some(Pool {
            name,
            max,
            size,
            last: 0,
            numbers: Numbers::new(alloc),
            seats: Slab::new(alloc),
        })
    }

    /// What stands under this key.
    fn seat(&self, key: usize) -> Option<&Seat>
        ensures { option_copied result ≡ get self.now.seats key }
    {
        self.seats.get(key)
    }

    /// Lends the client under this key.
    fn lend(&mut self, key: usize) -> Option<&mut Client>
        ensures* lends { sem 𝓛 (LendsClient self.entry key result) }
        ensures value { option_copied_mut result
            ≡ option_map (λ (seat : Seat). seat.client) (get self.entry.now.seats key) }
    {
        let seat = self.seats.get_mut(key)?;
        Some(&mut seat.client)
    }
}
