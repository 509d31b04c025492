//! What whoever watches a service may know of a connection.
ghost use Rattle.std.specs.Prelude.{◌≡◌, is_some, option_map};
ghost use Rattle.tds_service.specs.Anew.{begins_anew};
ghost use Rattle.tds_service.specs.Service.{Seat, find_by, is_lendable, is_open, seat_numbered};
ghost use Rattle.tds_service.specs.Table.{place_of, service_in};

use crate::place::Place;
use crate::service::Service;
use crate::service::finding::find_lendable;

impl Service {
    /// Who holds the connection of this number, if there is one.
    pub fn place_on(&self, number: u64) -> Option<Place>
        ensures { option_map place_of result ≡ option_map (λ (c : Seat). c.place)
            (seat_numbered number (service_in self.now).seats) }
    {
        let index = self.find_number(number)?;
        Some(self.seats[index].place)
    }

    /// Whether a transaction is open on the connection of this number, if there is one (MS-TDS 2.2.7.9). One
    /// that the next request's full reset ends isn't counted.
    pub fn is_open_on(&self, number: u64) -> Option<bool>
        ensures { result ≡ option_map (λ (c : Seat).
            is_open c.line.heard.mark c.line.heard.descriptor)
            (seat_numbered number (service_in self.now).seats) }
    {
        let index = self.find_number(number)?;
        Some(self.seats[index].connection.is_open())
    }

    /// Whether the connection of this number owes the news of a reset: its next request asks for one, or its
    /// newest one has, and the server hasn't told that it is done (MS-TDS 2.2.7.9, type 18).
    pub fn owes_reset_on(&self, number: u64) -> Option<bool>
        ensures { result ≡ option_map (λ (c : Seat). is_some c.line.heard.mark)
            (seat_numbered number (service_in self.now).seats) }
    {
        let index = self.find_number(number)?;
        Some(self.seats[index].connection.owes_reset())
    }

    /// Whether the next request on the connection of this number begins a session there: it asks for a full
    /// reset, or is the first one (MS-TDS 2.2.3.1.2).
    pub fn begins_anew_on(&self, number: u64) -> Option<bool>
        ensures { result ≡ option_map (λ (c : Seat). begins_anew c.line)
            (seat_numbered number (service_in self.now).seats) }
    {
        let index = self.find_number(number)?;
        Some(self.seats[index].connection.begins_anew())
    }

    /// Whether a connection is free: the next lease is of one that somebody had before.
    pub fn has_free(&self) -> bool
        ensures { result ≡ is_some (find_by is_lendable (service_in self.now).seats) }
    {
        match find_lendable(&self.seats, self.index.len()) {
            Some(_) => true,
            None => false,
        }
    }
}
