//! What stands by rising ids, each found by halves.
ghost use Rattle.std.specs.Prelude.{◌≡◌, ◌≢◌, ◌+◌, ◌-◌, ◌++◌, ◌<◌, ◌≤◌, ◌^◌, ℕ, length, slice_index, true, vec_len, vec_capacity};
ghost use Rattle.tds_relay.specs.Sorted.{Climbs, bound, first, ids_in, one_if, under};

use crate::sorted::place_by;
use std::cell::Cell;
use std::cmp::Ordering;
use std::marker::Brand;
use std::sync::ledger::{Blank, Ledger};
use tds_numbers::{Numbered, Steps};

/// Something, under a number of it.
#[derive(Clone, Copy, Debug)]
pub(crate) struct Indexed<T> {
    pub(crate) id: u64,
    pub(crate) item: T,
}

impl<T> Numbered for Indexed<T> {
    ghost its = { λ e. e.id };

    fn tell<L: Ledger>(&self, number: u64, steps: &mut Steps<L>) -> Ordering {
        steps.tick();
        self.id.cmp(&number)
    }
}

/// Whether what stands under this id begins at this place.
#[inline(always)]
fn begins_at<T>(index: &[Indexed<T>], id: u64, place: usize) -> bool
    ensures within { result ≡ true → place < length index.now }
    ensures here { result ≡ true → slice_index (ids_in index.now) place ≡ id }
    ensures before { result ≡ true → place ≢ 0 → slice_index (ids_in index.now) (place - 1) < id }
{
    if place >= index.len() {
        return false;
    }
    if index[place].id != id {
        return false;
    }
    place == 0 || index[place - 1].id < id
}

/// The first of what stands under this id: in at most as many steps as how many there are has
/// binary digits, so 7 among 64 and 11 among 1,024.
pub(crate) fn find_first<T: Copy, L: Ledger>(
    index: &[Indexed<T>],
    id: u64,
    latest: &Cell<usize>,
    steps: &mut Steps<L>,
) -> Option<T>
    requires climbs { Climbs (ids_in index.now) }
    ensures is { result ≡ first (under id index.now) }
    ensures cost { (most : ℕ) → length index.now < 2 ^ most → steps.new ≤ steps.old + most }
{
    let place = place_by(index, id, false, steps);
    latest.set(place);
    if place >= index.len() {
        return None;
    }
    let entry = index[place];
    if entry.id == id {
        Some(entry.item)
    } else {
        None
    }
}

fn find_counted<T: Copy, L: Ledger>(
    index: &[Indexed<T>],
    id: u64,
    latest: &Cell<usize>,
    blank: Blank,
) -> Option<T>
    requires name { L.name ≡ blank.name }
    requires parts { L.parts ≡ blank.parts }
    requires some { 0 < blank.parts }
    requires climbs { Climbs (ids_in index.now) }
    ensures is { result ≡ first (under id index.now) }
{
    let mut steps = Steps::<L>::from_blank(blank);
    find_first(index, id, latest, &mut steps)
}

/// The same, for a caller that counts nothing: where it stands if the ids follow one another is looked at
/// before.
fn search<T: Copy>(index: &[Indexed<T>], id: u64, latest: &Cell<usize>) -> Option<T>
    requires climbs { Climbs (ids_in index.now) }
    ensures is { result ≡ first (under id index.now) }
{
    let place = follows_at(index, id);
    if begins_at(index, id, place) {
        latest.set(place);
        return Some(index[place].item);
    }
    find_counted::<T, Brand>(index, id, latest, Blank::new(1))
}

/// Where this id stands if the ids follow one another.
#[inline(always)]
fn follows_at<T>(index: &[Indexed<T>], id: u64) -> usize {
    match index.first() {
        Some(first) => id.wrapping_sub(first.id) as usize,
        None => 0,
    }
}

/// The same, and what was found last is looked at before.
pub(crate) fn find<T: Copy>(index: &[Indexed<T>], id: u64, latest: &Cell<usize>) -> Option<T>
    requires climbs { Climbs (ids_in index.now) }
    ensures is { result ≡ first (under id index.now) }
{
    let guess = latest.get();
    if begins_at(index, id, guess) {
        return Some(index[guess].item);
    }
    search(index, id, latest)
}

fn place_behind<T, L: Ledger>(index: &[Indexed<T>], id: u64, blank: Blank) -> usize
    requires name { L.name ≡ blank.name }
    requires parts { L.parts ≡ blank.parts }
    requires some { 0 < blank.parts }
    requires climbs { Climbs (ids_in index.now) }
    ensures within { result ≤ length index.now }
    ensures below { (at : ℕ) → at < result → slice_index (ids_in index.now) at < bound id true }
    ensures above { (at : ℕ) → result ≤ at → at < length index.now
        → bound id true ≤ slice_index (ids_in index.now) at }
{
    let mut steps = Steps::<L>::from_blank(blank);
    place_by(index, id, true, &mut steps)
}

/// Puts this behind what stands under its id.
pub(crate) fn add<T: Copy>(index: &mut Vec<Indexed<T>>, id: u64, item: T)
    requires climbs { Climbs (ids_in index.old.items) }
    requires room { vec_len index.old < vec_capacity index.old }
    ensures climbs { Climbs (ids_in index.new.items) }
    ensures adds { (other : ℕ) → under other index.new.items
        ≡ under other index.old.items ++ one_if id other item }
    ensures len { vec_len index.new ≡ vec_len index.old + 1 }
    ensures capacity { vec_capacity index.old ≤ vec_capacity index.new }
{
    let place = place_behind::<T, Brand>(index, id, Blank::new(1));
    let _ = index.insert(place, Indexed { id, item });
}
