//! Which connection a lease or a ticket has: its number, found by halves among ids that rise.
ghost use Rattle.std.specs.Prelude.{◌≡◌, ◌<◌, ◌≤◌, ◌+◌, ◌^◌, ℕ, length, Some, None, slice_index, IfSome, IfNone, OnOk, OnErr, vec_capacity};
ghost use Rattle.tds_service.specs.Index.{AddsId, ForgetsAny, ForgetsId, GoesOnAs, ids_in, number_held, numbers_held};
ghost use Rattle.tds_service.specs.Rising.{RiseFrom};

use std::alloc::AllocError;
use std::cmp::Ordering;
use std::marker::Brand;
use std::sync::ledger::{Blank, Ledger};
use tds_numbers::{Numbered, Steps, find_in};

/// The id of a lease or a ticket, and the number of the connection that it has.
#[derive(Clone, Copy, Debug)]
pub(crate) struct Indexed {
    pub(crate) id: u64,
    pub(crate) number: u64,
}

impl Numbered for Indexed {
    ghost its = { λ e. e.id };

    fn tell<L: Ledger>(&self, number: u64, steps: &mut Steps<L>) -> Ordering {
        steps.tick();
        self.id.cmp(&number)
    }
}

/// The place of this id, found by halves.
pub(crate) fn find_id<L: Ledger>(index: &[Indexed], id: u64, steps: &mut Steps<L>) -> Option<usize>
    requires rising { (top : ℕ) × RiseFrom 0 (ids_in index.now) top }
    ensures found { IfSome result (λ place. (place < length index.now)
        × (slice_index (ids_in index.now) place ≡ id)) }
    ensures absent { IfNone result (number_held index.now id ≡ None) }
    ensures cost { (most : ℕ) → length index.now < 2 ^ most → steps.new ≤ steps.old + most }
{
    find_in(index, id, steps)
}

/// The number of the connection that stands where this id does if the ids follow one another.
#[inline(always)]
pub(crate) fn guess_number(index: &[Indexed], id: u64) -> Option<u64> {
    let first = index.first()?;
    let entry = index.get(id.wrapping_sub(first.id) as usize)?;
    Some(entry.number)
}

/// The number of the connection that the id at this place has.
pub(crate) fn number_at(index: &[Indexed], place: usize) -> u64
    requires { place < length index.now }
    ensures { result ≡ slice_index (numbers_held index.now) place }
{
    index[place].number
}

fn find_counted<L: Ledger>(index: &[Indexed], id: u64, blank: Blank) -> Option<usize>
    requires name { L.name ≡ blank.name }
    requires parts { L.parts ≡ blank.parts }
    requires some { 0 < blank.parts }
    requires rising { (top : ℕ) × RiseFrom 0 (ids_in index.now) top }
    ensures found { IfSome result (λ place. (place < length index.now)
        × (slice_index (ids_in index.now) place ≡ id)) }
    ensures absent { IfNone result (number_held index.now id ≡ None) }
{
    let mut steps = Steps::<L>::from_blank(blank);
    find_id(index, id, &mut steps)
}

/// Takes an id out, if it is there.
pub(crate) fn forget(index: &mut Vec<Indexed>, id: u64)
    requires rising { (top : ℕ) × RiseFrom 0 (ids_in index.old.items) top }
    ensures forgets { ForgetsId index.old.items index.new.items id }
    ensures capacity { vec_capacity index.new ≡ vec_capacity index.old }
{
    match find_counted::<Brand>(index, id, Blank::new(1)) {
        Some(place) => {
            index.remove(place);
        }
        None => {}
    }
}

/// The same, where there is an id.
pub(crate) fn forget_any(index: &mut Vec<Indexed>, id: Option<u64>)
    requires rising { (top : ℕ) × RiseFrom 0 (ids_in index.old.items) top }
    ensures forgets { ForgetsAny index.old.items index.new.items id }
    ensures capacity { vec_capacity index.new ≡ vec_capacity index.old }
{
    match id {
        Some(was) => forget(index, was),
        None => {}
    }
}

/// Puts the newest id behind the others.
pub(crate) fn add(index: &mut Vec<Indexed>, id: u64, number: u64)
    requires newest { RiseFrom 0 (ids_in index.old.items) id }
    requires room { length index.old.items < vec_capacity index.old }
    ensures adds { AddsId index.old.items index.new.items id number }
    ensures capacity { vec_capacity index.new ≡ vec_capacity index.old }
{
    index.push_reserved(Indexed { id, number });
}

/// Puts the newest id in the place of another one of its connection.
pub(crate) fn go_on(index: &mut Vec<Indexed>, was: u64, id: u64, number: u64)
    requires newest { RiseFrom 0 (ids_in index.old.items) id }
    requires there { number_held index.old.items was ≡ Some number }
    requires room { length index.old.items ≤ vec_capacity index.old }
    ensures goes_on { GoesOnAs index.old.items index.new.items was id number }
    ensures capacity { vec_capacity index.new ≡ vec_capacity index.old }
{
    forget(index, was);
    add(index, id, number);
}

/// Makes room for so many ids.
pub(crate) fn reserve(index: &mut Vec<Indexed>, count: usize) -> Result<(), AllocError>
    ensures items { index.new.items ≡ index.old.items }
    ensures room { OnOk result (count ≤ vec_capacity index.new) }
    ensures err { OnErr result (vec_capacity index.new ≡ vec_capacity index.old) }
{
    index.reserve(count)
}
