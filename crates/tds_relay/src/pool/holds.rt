//! Who holds what.
ghost use Rattle.std.specs.Prelude.{◌≡◌, ◌++◌, ◌∷◌, [], ◌<◌, ◌==◌, ℕ, not, true, filter, OnOk, OnErr};
ghost use Rattle.tds_relay.specs.declared.pool.Hold.{Hold};
ghost use Rattle.tds_relay.specs.Sorted.{Climbs, ids_in, under};
ghost use Rattle.tds_relay.specs.Pool.{find_key, find_lease, find_number, without_lease, without_number};

use super::Hold;
use crate::NoMemory;
use crate::index::{Indexed, add, find};
use std::alloc::Global;
use std::cell::Cell;
use std::marker::Model;

/// What is held, in the order of lending; and by rising keys, leases and numbers, so that each is found by
/// halves.
#[derive(Drop)]
pub(crate) struct Holds {
    list: Vec<Hold>,
    keys: Vec<Indexed<Hold>>,
    leases: Vec<Indexed<Hold>>,
    numbers: Vec<Indexed<Hold>>,
    latest: Latest,
}

/// Where among each of these something was found last.
#[derive(Drop)]
struct Latest {
    key: Cell<usize>,
    lease: Cell<usize>,
    number: Cell<usize>,
}

impl Model for Holds {
    ghost use Rattle.std.specs.Prelude.{◌-◌, min, vec_capacity, vec_len};
    ghost use Rattle.tds_relay.specs.Holding.{AreIndexed, Held};

    ghost Value = { Held };

    ghost view = { λ a. record {
      items = a.list.items;
      room = min (min
          (vec_capacity a.list - vec_len a.list) (vec_capacity a.keys - vec_len a.keys)) (min
          (vec_capacity a.leases - vec_len a.leases)
          (vec_capacity a.numbers - vec_len a.numbers));
    } };

    ghost invariant = { λ a. AreIndexed a.list.items a.keys.items a.leases.items a.numbers.items };
}

impl Holds {
    /// Nothing is held.
    pub(super) fn new(alloc: Global) -> Holds
        ensures { result.items ≡ [] }
    {
        Holds {
            list: Vec::new(alloc),
            keys: Vec::new(alloc),
            leases: Vec::new(alloc),
            numbers: Vec::new(alloc),
            latest: Latest {
                key: Cell::new(0),
                lease: Cell::new(0),
                number: Cell::new(0),
            },
        }
    }

    /// Makes room for one more.
    pub(super) fn reserve(&mut self) -> Result<(), NoMemory>
        ensures items { self.new.items ≡ self.old.items }
        ensures room { OnOk result (0 < self.new.room) }
    {
        self.list.reserve(1)?;
        self.keys.reserve(1)?;
        self.leases.reserve(1)?;
        self.numbers.reserve(1)
    }

    /// Puts one behind the others.
    pub(super) fn push_reserved(&mut self, hold: Hold)
        requires room { 0 < self.old.room }
        ensures items { self.new.items ≡ self.old.items ++ hold ∷ [] }
    {
        self.list.push_reserved(hold);
        add(&mut self.keys, hold.key as u64, hold);
        add(&mut self.leases, hold.lease, hold);
        add(&mut self.numbers, hold.number, hold);
    }

    /// The same, where no room was made.
    pub(super) fn push(&mut self, hold: Hold) -> Result<(), NoMemory>
        ensures items { OnOk result (self.new.items ≡ self.old.items ++ hold ∷ []) }
        ensures err { OnErr result (self.new.items ≡ self.old.items) }
    {
        self.reserve()?;
        self.push_reserved(hold);
        Ok(())
    }
}

/// Takes out what is held by a lease.
pub(super) fn remove_lease(holds: &mut Holds, lease: u64)
    ensures { holds.new.items ≡ without_lease lease holds.old.items }
{
    holds.list.retain(|hold| hold.lease != lease);
    drop_lease(&mut holds.keys, lease);
    drop_lease(&mut holds.leases, lease);
    drop_lease(&mut holds.numbers, lease);
}

/// Takes out what is held of a connection.
pub(super) fn remove_number(holds: &mut Holds, number: u64)
    ensures { holds.new.items ≡ without_number number holds.old.items }
{
    holds.list.retain(|hold| hold.number != number);
    drop_number(&mut holds.keys, number);
    drop_number(&mut holds.leases, number);
    drop_number(&mut holds.numbers, number);
}

/// What an application holds.
pub(super) fn find_key(holds: &Holds, key: usize) -> Option<Hold>
    ensures { result ≡ find_key key holds.now.items }
{
    find(&holds.keys, key as u64, &holds.latest.key)
}

/// What is held by a lease.
pub(super) fn find_lease(holds: &Holds, lease: u64) -> Option<Hold>
    ensures { result ≡ find_lease lease holds.now.items }
{
    find(&holds.leases, lease, &holds.latest.lease)
}

/// Who holds a connection.
pub(super) fn find_number(holds: &Holds, number: u64) -> Option<Hold>
    ensures { result ≡ find_number number holds.now.items }
{
    find(&holds.numbers, number, &holds.latest.number)
}

/// Takes out what is held by a lease.
fn drop_lease(index: &mut Vec<Indexed<Hold>>, lease: u64)
    requires climbs { Climbs (ids_in index.old.items) }
    ensures climbs { Climbs (ids_in index.new.items) }
    ensures drops { (id : ℕ) → under id index.new.items
        ≡ filter (λ (h : Hold). not (h.lease == lease)) (under id index.old.items) }
{
    index.retain(|entry| entry.item.lease != lease);
}

/// Takes out what is held of a connection.
fn drop_number(index: &mut Vec<Indexed<Hold>>, number: u64)
    requires climbs { Climbs (ids_in index.old.items) }
    ensures climbs { Climbs (ids_in index.new.items) }
    ensures drops { (id : ℕ) → under id index.new.items
        ≡ filter (λ (h : Hold). not (h.number == number)) (under id index.old.items) }
{
    index.retain(|entry| entry.item.number != number);
}
