//! A table whose keys are never used again: none is taken for what had its place before.
ghost use Rattle.std.specs.Prelude.{◌≡◌, ◌+◌, ◌*◌, ◌/◌, ◌%◌, ◌<◌, ◌≤◌, ℕ, IfSome, IfNone, Some, None, IsSome, is_some, option_copied};
ghost use Rattle.std.specs.Borrow.{sem};
ghost use Rattle.std.specs.Option.{option_copied_mut};
ghost use Rattle.slab.specs.Slab.{entries, slab_len};
ghost use Rattle.relay_logins.specs.Keys.{OthersStay, known};

use slab::Slab;
use std::alloc::Global;

/// The most places, a bound of each key's lower part.
const PLACES: usize = 16_384;

/// The most keys.
const KEYS: usize = 1 << 48;

/// How many keys were given before this one: a number that an operator can read.
pub fn number_of(key: usize) -> u64
    ensures { result ≡ key / 16384 }
{
    (key / PLACES) as u64
}

/// The place of what has a key: no two have one at a time.
pub fn place_of(key: usize) -> usize
    ensures { result < 16384 }
{
    key % PLACES
}

/// What has a key.
#[derive(Drop)]
pub struct Entry<T> {
    pub key: usize,
    pub value: T,
}

/// Values by keys.
#[derive(Drop)]
pub struct Table<T> {
    slab: Slab<Entry<T>>,
    /// How many keys were given.
    given: usize,
    ghost bounded: { given ≤ 281474976710656 },
}

impl<T: Drop> Table<T> {
    ghost use Rattle.relay_logins.specs.Lends.{lends_if_known, lends_known};

    pub fn new(alloc: Global) -> Table<T>
        ensures { (key : ℕ) → known result.slab key ≡ None }
    {
        Table {
            slab: Slab::new(alloc),
            given: 0,
        }
    }

    /// How many values there are.
    pub fn len(&self) -> usize
        ensures { result ≡ slab_len self.now.slab }
    {
        self.slab.len()
    }

    /// The key that the next value gets; None where there is no room.
    pub fn next_key(&self) -> Option<usize>
        ensures key { IfSome result (λ key.
            key ≡ 16384 * self.now.given + self.now.slab.vacant_key) }
        ensures place { IfSome result (λ key. key % 16384 ≡ self.now.slab.vacant_key) }
        ensures room { IfSome result (λ key. key < 16384 * (self.now.given + 1)) }
        ensures more { IfSome result (λ key. self.now.given < 281474976710656) }
    {
        let place = self.slab.vacant_key();
        if place >= PLACES || self.given >= KEYS {
            return None;
        }
        Some(PLACES * self.given + place)
    }

    /// Puts a value in, and gives its key, which was never given before. None where there is no room or no
    /// memory; then nothing changes.
    pub fn insert(&mut self, value: T) -> Option<usize>
        ensures key { IfSome result (λ key.
            key ≡ 16384 * self.old.given + self.old.slab.vacant_key) }
        ensures was { IfSome result (λ key. known self.old.slab key ≡ None) }
        ensures there { IfSome result (λ key. known self.new.slab key ≡ Some value) }
        ensures fresh { IfSome result (λ key. 16384 * self.old.given ≤ key) }
        ensures given { IfSome result (λ key. key < 16384 * self.new.given) }
        ensures others { IfSome result (λ key. OthersStay key self.old.slab self.new.slab) }
        ensures none { IfNone result ((key : ℕ)
            → known self.new.slab key ≡ known self.old.slab key) }
        ensures grows { self.old.given ≤ self.new.given }
    {
        let key = self.next_key()?;
        if self.slab.insert(Entry { key, value }).is_err() {
            return None;
        }
        self.given += 1;
        Some(key)
    }

    /// What is known by a key.
    pub fn get(&self, key: usize) -> Option<&T>
        ensures { option_copied result ≡ known self.now.slab key }
    {
        match self.slab.get(key % PLACES) {
            Some(entry) if entry.key == key => Some(&entry.value),
            _ => None,
        }
    }

    /// The same for writing.
    pub fn get_mut(&mut self, key: usize) -> Option<&mut T>
        ensures* writes_back { sem 𝓛 (lends_if_known T.row self.entry key result) }
        ensures value { option_copied_mut result ≡ known self.old.slab key }
    {
        if !self.is_known(key) {
            return None;
        }
        Some(self.at_mut(key))
    }

    /// Whether anything is known by a key.
    pub(crate) fn is_known(&self, key: usize) -> bool
        ensures { result ≡ is_some (known self.now.slab key) }
    {
        self.get(key).is_some()
    }

    /// What is known by a key, for writing.
    pub(crate) fn at_mut(&mut self, key: usize) -> &mut T
        requires { IsSome (known self.old.slab key) }
        ensures* writes_back { sem 𝓛 (lends_known T.row self.entry key result) }
        ensures value { Some result.now ≡ known self.old.slab key }
    {
        &mut self.slab[key % PLACES].value
    }

    /// Takes out what is known by a key. Nothing is from then on.
    pub fn try_remove(&mut self, key: usize) -> Option<T>
        ensures value { result ≡ known self.old.slab key }
        ensures gone { known self.new.slab key ≡ None }
        ensures others { OthersStay key self.old.slab self.new.slab }
        ensures given { self.new.given ≡ self.old.given }
    {
        if self.get(key).is_none() {
            return None;
        }
        let entry = self.slab.try_remove(key % PLACES)?;
        Some(entry.value)
    }

    /// All entries.
    pub fn iter(&self) -> slab::Iter<'_, Entry<T>>
        ensures { result ≡ entries self.now.slab }
    {
        self.slab.iter()
    }
}
