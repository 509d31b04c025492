//! What a service asks of its pool: how many connections stand where, and which ones.
ghost use Rattle.std.specs.Prelude.{◌≡◌, length, is_some, option_map, IfOk};
ghost use Rattle.std.specs.Option.{option_copied};
ghost use Rattle.tds_pool.specs.Connections.{Connection, connections, numbered, SameRest};
ghost use Rattle.tds_pool.specs.Calls.{all_numbers, stands_at, count_at, numbers_at, free_one, closed};

use crate::pool::Pool;
use crate::seat::Place;
use std::alloc::{AllocError, Global};
use tds_client::Client;

/// Whether a place is the wanted one.
fn stands_at(wanted: Place, place: Place) -> bool
    ensures { result ≡ stands_at wanted place }
{
    match wanted {
        Place::Leased => matches!(place, Place::Leased),
        Place::Kept => matches!(place, Place::Kept),
        Place::Free => matches!(place, Place::Free),
        Place::Draining => matches!(place, Place::Draining),
        Place::Cleaning => matches!(place, Place::Cleaning),
    }
}

impl Pool {
    /// How many connections are in the pool.
    pub fn len(&self) -> usize
        ensures { result ≡ length (connections self.now) }
    {
        self.numbers.len()
    }

    /// The numbers of all connections, rising.
    pub fn numbers(&self, alloc: Global) -> Result<Vec<u32>, AllocError>
        ensures { IfOk result (λ numbers. numbers.items ≡ all_numbers (connections self.now)) }
    {
        let mut numbers = Vec::new(alloc);
        'seats: for index in 0..self.numbers.len() {
            numbers.push(self.seat_at(index).number)?;
        }
        Ok(numbers)
    }

    /// The client of the connection of this number, to be looked at; none if there is none.
    pub fn get(&self, number: u32) -> Option<&Client>
        ensures { option_copied result
            ≡ option_map (λ (c : Connection). c.client) (numbered number (connections self.now)) }
    {
        let place = self.place_of(number)?;
        Some(&self.seat_at(place).client)
    }

    /// Where the connection of this number stands; none if there is none.
    pub fn place(&self, number: u32) -> Option<Place>
        ensures { result
            ≡ option_map (λ (c : Connection). c.place) (numbered number (connections self.now)) }
    {
        let place = self.place_of(number)?;
        Some(self.seat_at(place).place)
    }

    /// How many connections stand at this place: how many are lent, kept, free, drain,
    /// or are cleaned.
    pub fn count(&self, place: Place) -> usize
        ensures { result ≡ count_at place (connections self.now) }
    {
        let mut count = 0;
        'seats: for index in 0..self.numbers.len() {
            if stands_at(place, self.seat_at(index).place) {
                count += 1;
            }
        }
        count
    }

    /// The numbers of the connections that stand at this place, rising.
    pub fn numbers_at(&self, alloc: Global, place: Place) -> Result<Vec<u32>, AllocError>
        ensures { IfOk result (λ numbers. numbers.items ≡ numbers_at place (connections self.now)) }
    {
        let mut numbers = Vec::new(alloc);
        'seats: for index in 0..self.numbers.len() {
            let seat = self.seat_at(index);
            if stands_at(place, seat.place) {
                numbers.push(seat.number)?;
            }
        }
        Ok(numbers)
    }

    /// Takes a free connection out of the pool, whatever its client does. Any other one stays.
    /// Answers whether it was free.
    pub fn close(&mut self, number: u32) -> bool
        ensures answer { result ≡ is_some (free_one number (connections self.old)) }
        ensures shown { connections self.new ≡ closed number (connections self.old) }
        ensures rest { SameRest self.old self.new }
    {
        let Some(place) = self.place_of(number) else {
            return false;
        };
        match self.seat_at(place).place {
            Place::Leased => false,
            Place::Kept => false,
            Place::Free => {
                self.take_out(place);
                true
            }
            Place::Draining => false,
            Place::Cleaning => false,
        }
    }
}
