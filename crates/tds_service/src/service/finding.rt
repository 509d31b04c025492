//! Which connection is wanted.
ghost use Rattle.std.specs.Prelude.{◌≡◌, ◌<◌, ◌≤◌, ◌+◌, ℕ, length, true, None, IfSome, IfNone};
ghost use Rattle.tds_numbers.specs.Rising.{Rises};
ghost use Rattle.tds_service.specs.Index.{FindEachOther, held_among, holders_in, ids_in};
ghost use Rattle.tds_service.specs.Rising.{RiseFrom, numbers_in};
ghost use Rattle.tds_service.specs.Service.{find_by, has_lease, has_number, has_ticket};
ghost use Rattle.tds_service.specs.Service.{is_lendable, seat_numbered};
ghost use Rattle.tds_service.specs.Table.{FirstMet, seats_in, test_of};

use crate::index::{Indexed, find_id, guess_number, number_at};
use crate::place::Holder;
use crate::seat::Seat;
use crate::service::Service;
use std::marker::Brand;
use std::sync::ledger::{Blank, Ledger};
use tds_numbers::{Steps, find_in};

/// The place in the table of the first connection that can be lent. Where all are held none is looked at.
#[inline(always)]
pub(crate) fn find_lendable(seats: &[Seat], held: usize) -> Option<usize>
    requires held { held ≡ held_among (holders_in seats.now) }
    ensures first { IfSome result (FirstMet is_lendable seats.now) }
    ensures none { IfNone result (find_by is_lendable (seats_in seats.now) ≡ None) }
{
    if held >= seats.len() {
        return None;
    }
    for (index, seat) in seats.iter().enumerate() {
        if seat.is_lendable() {
            return Some(index);
        }
    }
    None
}

impl Service {
    /// Whether the connection at this place has this number.
    #[inline(always)]
    fn is_numbered_at(&self, place: usize, number: u64) -> bool
        ensures { result ≡ true → FirstMet (has_number number) self.now.seats.items place }
    {
        if place >= self.seats.len() {
            return false;
        }
        self.seats[place].number == number
    }

    /// Whether the connection at this place is held by this one.
    #[inline(always)]
    fn is_held_at(&self, place: usize, holder: Holder) -> bool
        ensures { result ≡ true → FirstMet (test_of holder) self.now.seats.items place }
    {
        if place >= self.seats.len() {
            return false;
        }
        self.seats[place].is_held_by(holder)
    }

    /// Where this number stands if the numbers follow one another.
    #[inline(always)]
    fn follows_at(&self, number: u64) -> usize {
        match self.seats.first() {
            Some(first) => number.wrapping_sub(first.number) as usize,
            None => 0,
        }
    }

    /// Where the connection stands that this one holds if ids and numbers follow one another.
    #[inline(always)]
    fn follows_as_held(&self, holder: Holder) -> usize {
        match guess_number(&self.index, holder.id()) {
            Some(number) => self.follows_at(number),
            None => 0,
        }
    }

    /// The place in the table of the connection of this number: where it stands if the numbers follow one
    /// another, or found by halves.
    fn search_number(&self, number: u64) -> Option<usize>
        ensures first { IfSome result (FirstMet (has_number number) self.now.seats.items) }
        ensures none { IfNone result
            (seat_numbered number (seats_in self.now.seats.items) ≡ None) }
    {
        let place = self.follows_at(number);
        if self.is_numbered_at(place, number) {
            return Some(place);
        }
        find_counted::<Brand>(&self.seats, number, Blank::new(1))
    }

    /// The same, of the connection that this one holds.
    fn search_holder(&self, holder: Holder) -> Option<usize>
        ensures first { IfSome result (FirstMet (test_of holder) self.now.seats.items) }
        ensures none { IfNone result
            (find_by (test_of holder) (seats_in self.now.seats.items) ≡ None) }
    {
        let place = self.follows_as_held(holder);
        if self.is_held_at(place, holder) {
            return Some(place);
        }
        held_counted::<Brand>(&self.seats, &self.index, holder, Blank::new(1))
    }

    /// The place in the table of the connection of this number: the latest one, or searched.
    pub(crate) fn find_number(&self, number: u64) -> Option<usize>
        ensures first { IfSome result (FirstMet (has_number number) self.now.seats.items) }
        ensures none { IfNone result
            (seat_numbered number (seats_in self.now.seats.items) ≡ None) }
    {
        if self.is_numbered_at(self.latest, number) {
            return Some(self.latest);
        }
        self.search_number(number)
    }

    /// The place in the table of the connection that this lease holds.
    pub(crate) fn find_lease(&self, lease: u64) -> Option<usize>
        ensures first { IfSome result (FirstMet (has_lease lease) self.now.seats.items) }
        ensures none { IfNone result
            (find_by (has_lease lease) (seats_in self.now.seats.items) ≡ None) }
    {
        if self.is_held_at(self.latest, Holder::Lease(lease)) {
            return Some(self.latest);
        }
        self.search_holder(Holder::Lease(lease))
    }

    /// The place in the table of the connection that this ticket keeps.
    pub(crate) fn find_ticket(&self, ticket: u64) -> Option<usize>
        ensures first { IfSome result (FirstMet (has_ticket ticket) self.now.seats.items) }
        ensures none { IfNone result
            (find_by (has_ticket ticket) (seats_in self.now.seats.items) ≡ None) }
    {
        if self.is_held_at(self.latest, Holder::Ticket(ticket)) {
            return Some(self.latest);
        }
        self.search_holder(Holder::Ticket(ticket))
    }
}

fn find_counted<L: Ledger>(seats: &[Seat], number: u64, blank: Blank) -> Option<usize>
    requires name { L.name ≡ blank.name }
    requires parts { L.parts ≡ blank.parts }
    requires some { 0 < blank.parts }
    requires rising { Rises (numbers_in seats.now) }
    ensures first { IfSome result (FirstMet (has_number number) seats.now) }
    ensures none { IfNone result (seat_numbered number (seats_in seats.now) ≡ None) }
{
    let mut steps = Steps::<L>::from_blank(blank);
    find_in(seats, number, &mut steps)
}

/// The place in the table of the connection that is held by this one: its id is found by halves, and
/// its number. Each search takes at most as many steps as how many connections there are has binary
/// digits: 7 up to 64 connections, 11 up to 1,024.
fn find_held<L: Ledger>(
    seats: &[Seat],
    index: &[Indexed],
    holder: Holder,
    steps: &mut Steps<L>,
) -> Option<usize>
    requires rising { (top : ℕ) × RiseFrom 0 (numbers_in seats.now) top }
    requires ids { (top : ℕ) × RiseFrom 0 (ids_in index.now) top }
    requires finds { FindEachOther (holders_in seats.now) index.now }
    requires few { length index.now ≤ length seats.now }
    ensures first { IfSome result (FirstMet (test_of holder) seats.now) }
    ensures none { IfNone result (find_by (test_of holder) (seats_in seats.now) ≡ None) }
    ensures few { length seats.now ≤ 64 → steps.new ≤ steps.old + 7 + 7 }
    ensures cost { length seats.now ≤ 1024 → steps.new ≤ steps.old + 11 + 11 }
{
    let at = match find_id(index, holder.id(), steps) {
        Some(at) => at,
        None => return None,
    };
    let place = match find_in(seats, number_at(index, at), steps) {
        Some(place) => place,
        None => return None,
    };
    if seats[place].is_held_by(holder) {
        Some(place)
    } else {
        None
    }
}

fn held_counted<L: Ledger>(
    seats: &[Seat],
    index: &[Indexed],
    holder: Holder,
    blank: Blank,
) -> Option<usize>
    requires name { L.name ≡ blank.name }
    requires parts { L.parts ≡ blank.parts }
    requires some { 0 < blank.parts }
    requires rising { (top : ℕ) × RiseFrom 0 (numbers_in seats.now) top }
    requires ids { (top : ℕ) × RiseFrom 0 (ids_in index.now) top }
    requires finds { FindEachOther (holders_in seats.now) index.now }
    requires few { length index.now ≤ length seats.now }
    ensures first { IfSome result (FirstMet (test_of holder) seats.now) }
    ensures none { IfNone result (find_by (test_of holder) (seats_in seats.now) ≡ None) }
{
    let mut steps = Steps::<L>::from_blank(blank);
    find_held(seats, index, holder, &mut steps)
}
