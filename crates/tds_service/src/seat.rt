//! A connection in its service: its number and who holds it.
ghost use Rattle.std.specs.Prelude.{◌≡◌, ◌≢◌, true, false};
ghost use Rattle.tds_service.specs.Index.{holder_in};
ghost use Rattle.tds_service.specs.Service.{clean_place, drained, is_idle, is_lendable, lease_in, rests};
ghost use Rattle.tds_service.specs.Table.{place_of, rest_of, rests_of, seat_in, test_of};
ghost use Rattle.tds_service.specs.Line as line;
ghost use Rattle.tds_service.specs.Ties.{line_in};

use crate::connection::Connection;
use crate::place::{Holder, Place, Rest};
use std::cmp::Ordering;
use std::sync::ledger::Ledger;
use tds_client::ClientState;
use tds_numbers::{Numbered, Steps};

#[derive(Drop)]
pub(crate) struct Seat {
    pub(crate) number: u64,
    pub(crate) place: Place,
    pub(crate) connection: Connection,
}

impl Numbered for Seat {
    ghost its = { λ c. c.number };

    fn tell<L: Ledger>(&self, number: u64, steps: &mut Steps<L>) -> Ordering {
        steps.tick();
        self.number.cmp(&number)
    }
}

impl Seat {
    /// Whether no request is underway on it.
    pub(crate) fn is_idle(&self) -> bool
        ensures { result ≡ is_idle (line_in self.now.connection).stage }
    {
        match self.connection.state() {
            ClientState::Idle => true,
            ClientState::Sending => false,
            ClientState::Reading => false,
            ClientState::Cancelling => false,
            ClientState::Broken(_) => false,
        }
    }

    /// The lease that holds it, where one does.
    pub(crate) fn lease(&self) -> Option<u64>
        ensures { result ≡ lease_in (seat_in self.now).place }
    {
        match self.place {
            Place::Leased(lease) => Some(lease),
            Place::Cleaning(lease) => Some(lease),
            Place::Kept(_) => None,
            Place::Free => None,
            Place::Draining => None,
        }
    }

    /// Whether an answer is being read on it.
    pub(crate) fn is_reading(&self) -> bool
        ensures yes { result ≡ true → (line_in self.now.connection).stage ≡ line.Reading }
        ensures no { result ≡ false → (line_in self.now.connection).stage ≢ line.Reading }
    {
        match self.connection.state() {
            ClientState::Reading => true,
            ClientState::Idle => false,
            ClientState::Sending => false,
            ClientState::Cancelling => false,
            ClientState::Broken(_) => false,
        }
    }

    /// Its place behind what came: one that drains is free once it is idle.
    fn place_behind(&self) -> Place
        ensures { place_of result ≡ drained (seat_in self.now).place (seat_in self.now).line.stage }
    {
        match self.place {
            Place::Draining => {
                if self.is_idle() {
                    Place::Free
                } else {
                    Place::Draining
                }
            }
            Place::Leased(lease) => Place::Leased(lease),
            Place::Cleaning(lease) => Place::Cleaning(lease),
            Place::Kept(ticket) => Place::Kept(ticket),
            Place::Free => Place::Free,
        }
    }

    /// Puts it where it is behind what came.
    pub(crate) fn settle(&mut self)
        ensures { (self.new.number ≡ self.old.number) × (self.new.connection ≡ self.old.connection)
            × (place_of self.new.place
            ≡ drained (seat_in self.old).place (seat_in self.old).line.stage) }
    {
        self.place = self.place_behind();
    }

    /// Whether this one holds it.
    pub(crate) fn is_held_by(&self, holder: Holder) -> bool
        ensures { result ≡ test_of holder (seat_in self.now) }
    {
        match (holder, self.place) {
            (Holder::Lease(lease), Place::Leased(other)) => other == lease,
            (Holder::Lease(lease), Place::Cleaning(other)) => other == lease,
            (Holder::Lease(_), Place::Kept(_)) => false,
            (Holder::Lease(_), Place::Free) => false,
            (Holder::Lease(_), Place::Draining) => false,
            (Holder::Ticket(ticket), Place::Kept(other)) => other == ticket,
            (Holder::Ticket(_), Place::Leased(_)) => false,
            (Holder::Ticket(_), Place::Cleaning(_)) => false,
            (Holder::Ticket(_), Place::Free) => false,
            (Holder::Ticket(_), Place::Draining) => false,
        }
    }

    /// The id of the lease or the ticket that holds it, where one does.
    pub(crate) fn holder(&self) -> Option<u64>
        ensures { result ≡ holder_in self.now.place }
    {
        match self.place {
            Place::Leased(lease) => Some(lease),
            Place::Cleaning(lease) => Some(lease),
            Place::Kept(ticket) => Some(ticket),
            Place::Free => None,
            Place::Draining => None,
        }
    }

    /// Whether it can be lent: it is free and idle.
    pub(crate) fn is_lendable(&self) -> bool
        ensures { result ≡ is_lendable (seat_in self.now) }
    {
        match self.place {
            Place::Free => self.is_idle(),
            Place::Leased(_) => false,
            Place::Cleaning(_) => false,
            Place::Kept(_) => false,
            Place::Draining => false,
        }
    }

    /// Where it is once it is cleaned: none while that goes on, or where it isn't lent for this.
    pub(crate) fn clean_rest(&self) -> Option<Rest>
        ensures { rests_of result ≡ clean_place (seat_in self.now).place (seat_in self.now).line }
    {
        match (self.place, self.connection.state()) {
            (Place::Cleaning(_), ClientState::Idle) => {
                if self.connection.is_clean() {
                    Some(Rest::Free)
                } else {
                    Some(Rest::Closed)
                }
            }
            (Place::Cleaning(_), ClientState::Broken(_)) => Some(Rest::Closed),
            (Place::Cleaning(_), ClientState::Sending) => None,
            (Place::Cleaning(_), ClientState::Reading) => None,
            (Place::Cleaning(_), ClientState::Cancelling) => None,
            (Place::Leased(_), _) => None,
            (Place::Kept(_), _) => None,
            (Place::Free, _) => None,
            (Place::Draining, _) => None,
        }
    }

    /// Where it is once nobody holds it.
    pub(crate) fn rest(&self) -> Rest
        ensures { rest_of result ≡ rests (line_in self.now.connection).stage }
    {
        match self.connection.state() {
            ClientState::Idle => Rest::Free,
            ClientState::Sending => Rest::Draining,
            ClientState::Reading => Rest::Draining,
            ClientState::Cancelling => Rest::Draining,
            ClientState::Broken(_) => Rest::Closed,
        }
    }
}
