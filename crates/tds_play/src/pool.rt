//! Leases and tickets by their numbers, and the connection that an event is about.
ghost use Rattle.std.specs.Prelude.{◌≡◌, ◌<◌, ◌++◌, ◌∷◌, suc, [], length, min, Option, None, Some, IfOk, IsSome, OnOk};
ghost use Rattle.std.specs.Option.{option_copied};
ghost use Rattle.tds_play.specs.Lending.{found_by, numbered_of};
ghost use Rattle.tds_play.specs.Holdings.{conn_of, ended_of, put_in};
ghost use Rattle.tds_world.specs.World.{numbered};

use std::alloc::{AllocError, Global};
use std::marker::Model;
use std::mem::replace;
use tds_pool::{Lease, Ticket};
use tds_world::Refusal;

/// The number of the next one, where there are so many.
pub(crate) fn next_number(count: usize) -> u32
    ensures value { result ≡ min (suc count) 4294967295 }
    ensures few { count < 4294967295 → result ≡ suc count }
{
    match u32::try_from(count) {
        Ok(count) => count.saturating_add(1),
        Err(_) => u32::MAX,
    }
}

/// What must be spent. Where nobody needs it any more, its connection stays where it is in the
/// pool.
pub(crate) trait Spent {
    fn spend(self);
}

impl Spent for Lease {
    fn spend(self) {
        let _ = self.store();
    }
}

impl Spent for Ticket {
    fn spend(self) {
        let _ = self.store();
    }
}

/// Leases or tickets, numbered from 1 in the order in which they were given. They must be spent.
pub(crate) struct Holdings<T> {
    /// Each of them, or none once it has ended.
    held: Vec<Option<T>>,
}

impl<T> Model for Holdings<T> {
    ghost use Rattle.std.specs.Prelude.{List, Option};

    ghost Value = { List (Option T) };

    ghost view = { λ a. a.held.items };
}

impl<T: Spent> Holdings<T> {
    pub(crate) fn new(alloc: Global) -> Holdings<T>
        ensures { result ≡ [] }
    {
        Holdings {
            held: Vec::new(alloc),
        }
    }

    /// The number that the next one gets.
    pub(crate) fn next(&self) -> u32
        ensures { result ≡ min (suc (length self.now)) 4294967295 }
    {
        next_number(self.held.len())
    }

    /// The next one is given.
    pub(crate) fn give(&mut self, given: T) -> Result<(), AllocError>
        ensures { OnOk result (self.new ≡ self.old ++ Some given ∷ []) }
    {
        self.push(Some(given))
    }

    /// The next one is one that has ended.
    pub(crate) fn skip(&mut self) -> Result<(), AllocError>
        ensures { OnOk result (self.new ≡ self.old ++ None ∷ []) }
    {
        self.push(None)
    }

    /// The next one is this, unless a growth is refused: then it is spent.
    fn push(&mut self, held: Option<T>) -> Result<(), AllocError>
        ensures { OnOk result (self.new ≡ self.old ++ held ∷ []) }
    {
        let Err(failed) = self.held.push(held) else {
            return Ok(());
        };
        if let Some(held) = failed.value {
            held.spend();
        }
        Err(AllocError)
    }

    /// The one with this number, unless it is unknown or has ended.
    pub(crate) fn get(&self, number: u32) -> Option<&T>
        ensures { option_copied result ≡ conn_of self.now number }
    {
        if number == 0 {
            return None;
        }
        match self.held.get(number as usize - 1) {
            None => None,
            Some(held) => held.as_ref(),
        }
    }

    /// The one with this number, which hasn't ended, ends.
    pub(crate) fn end(&mut self, number: u32) -> T
        requires { IsSome (conn_of self.old number) }
        ensures taken { Some result ≡ conn_of self.old number }
        ensures left { self.new ≡ ended_of self.old number }
    {
        let Some(ended) = self.take(number) else {
            // It was looked up, and hasn't ended since.
            unreachable!()
        };
        ended
    }

    /// The one with this number ends, unless it is unknown or has ended.
    fn take(&mut self, number: u32) -> Option<T>
        ensures taken { result ≡ conn_of self.old number }
        ensures left { self.new ≡ ended_of self.old number }
    {
        if number == 0 {
            return None;
        }
        self.take_at(number as usize - 1)
    }

    /// The one at this place, counted from 0, ends, unless it is unknown or has ended.
    pub(crate) fn take_at(&mut self, place: usize) -> Option<T>
        ensures taken { result ≡ conn_of self.old (suc place) }
        ensures left { self.new ≡ ended_of self.old (suc place) }
    {
        match self.held.get_mut(place) {
            None => None,
            Some(held) => held.take(),
        }
    }

    /// The one with this number, which ended, stands there again.
    pub(crate) fn put(&mut self, number: u32, held: T)
        requires { numbered self.old number ≡ Some None }
        ensures { self.new ≡ put_in self.old number held }
    {
        match replace(&mut self.held[number as usize - 1], Some(held)) {
            None => {}
            // It had ended, so that nothing stood there.
            Some(_) => unreachable!(),
        }
    }

    /// How many were given.
    pub(crate) fn len(&self) -> usize
        ensures { result ≡ length self.now }
    {
        self.held.len()
    }

    /// Lets go of all of them.
    pub(crate) fn let_go(self) {
        let Holdings { mut held } = self;
        'held: for _ in 0..held.len() {
            if let Some(last) = held.pop() {
                if let Some(last) = last {
                    last.spend();
                }
            }
        }
        held.destroy_empty();
    }
}

/// The place, counted from 0, of the connection of this number.
pub(crate) fn by_number(count: usize, conn: u32, why: Refusal) -> Result<usize, Refusal>
    ensures value { found_by result ≡ numbered_of count conn why }
    ensures there { IfOk result (λ place. place < count) }
{
    if conn == 0 || conn as usize > count {
        return Err(why);
    }
    Ok(conn as usize - 1)
}
