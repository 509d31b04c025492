//! The table of numbers. Nothing outside of this module reads its field.
ghost use Rattle.std.specs.Prelude.{◌≡◌, ◌≢◌, ◌+◌, ◌<◌, ◌≤◌, ◌++◌, ◌∷◌, ℕ, [], length, Some, None, IfSome, IfNone, OnOk, OnErr};
ghost use Rattle.tds_numbers.specs.Table.{IsTable, AreBelow, number_at, key_at, key_of, without};

use crate::finding::{Numbered, find_in};
use crate::steps::Steps;
use std::alloc::{AllocError, Global};
use std::cmp::Ordering;
use std::marker::{Brand, Model};
use std::sync::ledger::{Blank, Ledger};

/// The most numbers that a table has.
pub const MOST: u16 = 1024;

/// A number, and the key of the slab under which what has it is kept.
#[derive(Clone, Copy, Debug)]
pub struct Entry {
    pub number: u32,
    pub key: usize,
}

impl Numbered for Entry {
    ghost its = { λ e. e.number };

    fn tell<L: Ledger>(&self, number: u64, steps: &mut Steps<L>) -> Ordering {
        steps.tick();
        u64::from(self.number).cmp(&number)
    }
}

/// Numbers, at most 1,024, each above the one before it.
#[derive(Drop)]
pub struct Numbers {
    entries: Vec<Entry>,
}

impl Model for Numbers {
    ghost use Rattle.std.specs.Prelude.{List};
    ghost use Rattle.tds_numbers.specs.declared.numbers.Entry.{Entry};
    ghost use Rattle.tds_numbers.specs.Table.{IsTable};

    ghost Value = { List Entry };

    ghost view = { λ a. a.entries.items };

    ghost invariant = { λ a. IsTable a.entries.items };
}

impl Numbers {
    /// An empty table. It takes no memory.
    pub fn new(alloc: Global) -> Numbers
        ensures { result ≡ [] }
    {
        Numbers {
            entries: Vec::new(alloc),
        }
    }

    /// How many numbers there are.
    pub fn len(&self) -> usize
        ensures count { result ≡ length self.now }
        ensures table { IsTable self.now }
    {
        self.entries.len()
    }

    /// The place of this number, counted from 0: in at most 7 steps among up to 64 numbers, and in at
    /// most 11 among up to 1,024, as many as there may be.
    pub fn find<L: Ledger>(&self, number: u32, steps: &mut Steps<L>) -> Option<usize>
        ensures found { IfSome result (λ place.
            (place < length self.now) × (number_at self.now place ≡ number)) }
        ensures absent { IfNone result
            ((place : ℕ) → place < length self.now → number_at self.now place ≢ number) }
        ensures few { length self.now ≤ 64 → steps.new ≤ steps.old + 7 }
        ensures cost { steps.new ≤ steps.old + 11 }
        ensures table { IsTable self.now }
    {
        find_in(&self.entries, u64::from(number), steps)
    }

    /// The key at this place.
    pub fn key(&self, place: usize) -> usize
        requires { place < length self.now }
        ensures { result ≡ key_at self.now place }
    {
        self.entries[place].key
    }

    /// Puts a number behind the others, which are below it.
    pub fn push(&mut self, number: u32, key: usize) -> Result<(), AllocError>
        requires few { length self.old < 1024 }
        requires below { AreBelow number self.old }
        ensures ok { OnOk result
            (self.new ≡ self.old ++ (record { number = number; key = key }) ∷ []) }
        ensures err { OnErr result (self.new ≡ self.old) }
    {
        self.entries.push(Entry { number, key })?;
        Ok(())
    }

    /// Takes out the number at this place.
    pub fn remove(&mut self, place: usize)
        requires { place < length self.old }
        ensures { self.new ≡ without (number_at self.old place) self.old }
    {
        self.entries.remove(place);
    }
}

/// The place of this number, for a caller that counts nothing.
pub fn place_of(numbers: &Numbers, number: u32) -> Option<usize>
    ensures found { IfSome result (λ place.
        (place < length numbers.now) × (number_at numbers.now place ≡ number)
        × (key_of numbers.now number ≡ Some (key_at numbers.now place))) }
    ensures absent { IfNone result (key_of numbers.now number ≡ None) }
{
    place_counted::<Brand>(numbers, number, Blank::new(1))
}

fn place_counted<L: Ledger>(numbers: &Numbers, number: u32, blank: Blank) -> Option<usize>
    requires name { L.name ≡ blank.name }
    requires parts { L.parts ≡ blank.parts }
    requires some { 0 < blank.parts }
    ensures found { IfSome result (λ place.
        (place < length numbers.now) × (number_at numbers.now place ≡ number)
        × (key_of numbers.now number ≡ Some (key_at numbers.now place))) }
    ensures absent { IfNone result (key_of numbers.now number ≡ None) }
{
    let mut steps = Steps::<L>::from_blank(blank);
    numbers.find(number, &mut steps)
}
