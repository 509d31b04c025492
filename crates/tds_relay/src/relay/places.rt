//! Where applications and connections are, for whoever tells an operator of it or sets time limits.
ghost use Rattle.std.specs.Prelude.{◌≡◌, option_copied};
ghost use Rattle.slab.specs.Slab.{get};
ghost use Rattle.tds_relay.specs.Pool.{fault_on};
ghost use Rattle.tds_relay.specs.Faults.{header_fault_in, why_at};
ghost use Rattle.tds_relay.specs.Fronts.{machine_in};
ghost use Rattle.tds_relay.specs.Places.{begun_in, held_by, open_on};
ghost use Rattle.tds_relay.specs.Ties.{pool_in};
ghost use Rattle.tds_relay.specs.Told.{counts_in, has_cancelled, held_name, held_place, holder_name};
ghost use Rattle.tds_relay.specs.Told.{place_on, place_with, told_place, unheld_place};

use super::Relay;
use crate::application::Application;
use crate::state::Asking;
use tds_front::{FrontFault, Stage};
use tds_listen::ListenFault;
use tds_packet::PacketFault;
use tds_service::Place as Seated;

/// Where an application is.
#[derive(Clone, Copy, Debug, PartialEq, Eq)]
pub enum Place {
    /// Nothing of it is underway, and it holds no connection.
    Quiet,
    /// Nothing of it is underway, and it holds the connection of this number.
    Holding(u64),
    /// Its request waits for a connection.
    Waiting,
    /// Its request waits until the connection of this number is logged in, or idle.
    Opening(u64),
    /// Its request is underway on the connection of this number.
    Asking(u64),
    /// Its cancel was handed on on the connection of this number, and isn't acknowledged.
    Cancelling(u64),
    /// It is to be closed.
    Over,
}

/// Where a connection is.
#[derive(Clone, Copy, Debug, PartialEq, Eq)]
pub enum PlaceOn {
    /// It isn't logged in yet.
    Opening,
    /// Nobody holds it, and it may be lent.
    Free,
    /// The application of this key holds it.
    Held(usize),
    /// Nobody holds it, and what was underway on it was cancelled.
    Draining,
    /// The relay resets it.
    Cleaning,
}

/// What a relay has done.
#[derive(Clone, Copy, Debug, PartialEq, Eq)]
pub struct Counts {
    /// Requests that the pool asked for applications. Of one that its application takes back at once nothing may have gone out.
    pub requests: u64,
    /// Attentions that went out for applications' requests: their own, and for what they took back.
    pub cancels: u64,
    /// Connections that were let go or brought, and are cleaned; and those that nobody held which were closed instead.
    pub cleanings: u64,
    pub failed: u64,
}

impl Relay {
    /// Where the application of this key is, if there is one.
    pub fn place_of(&self, key: usize) -> Option<Place>
        ensures { result ≡ told_place (held_by (pool_in self.now.pool) key)
            (get self.now.applications key) }
    {
        let application = self.applications.get(key)?;
        let number = match self.pool.hold_of(key) {
            Some(hold) => Some(hold.number),
            None => None,
        };
        Some(where_is(application, number))
    }

    /// The tag of the connection that the application of this key holds, if there are both.
    pub fn held_tag(&self, key: usize) -> Option<usize>
        ensures { result ≡ held_name key self.now }
    {
        let hold = self.pool.hold_of(key)?;
        self.link(hold.number)?.tag
    }

    /// The tag of the application that holds the connection of this number, if there are both.
    pub fn holder_tag(&self, number: u64) -> Option<usize>
        ensures { result ≡ holder_name number self.now }
    {
        let key = self.pool.key_on(number)?;
        Some(self.applications.get(key)?.tag)
    }

    /// How many requests the application of this key has begun.
    pub fn begun_by(&self, key: usize) -> u64
        ensures { result ≡ begun_in (get self.now.applications key) }
    {
        match self.applications.get(key) {
            Some(application) => application.begun,
            None => 0,
        }
    }

    /// What an application did that the protocol doesn't allow, where it is to be closed for that.
    #[tactic(auto, using(crate::proofs::steps::Faults::why_there, crate::proofs::steps::Faults::why_nobody))]
    pub fn fault_of(&self, key: usize) -> Option<FrontFault>
        ensures { result ≡ why_at key (machine_in self.now) }
    {
        match self.applications.get(key) {
            Some(application) => application.fault(),
            None => None,
        }
    }

    /// What the server said on the connection of this number that no server may, where that is closed for it:
    /// until another one is.
    pub fn fault_on(&self, number: u64) -> Option<&ListenFault>
        ensures { option_copied result ≡ fault_on number (pool_in self.now.pool) }
    {
        self.pool.fault_on(number)
    }

    /// The fault of the header of a packet that came on the connection of this number, where that is closed for
    /// it: until another one is.
    pub fn header_fault_on(&self, number: u64) -> Option<&PacketFault>
        ensures { option_copied result ≡ header_fault_in number self.now.refused }
    {
        match &self.refused {
            Some(refused) => {
                if refused.number == number {
                    Some(&refused.fault)
                } else {
                    None
                }
            }
            None => None,
        }
    }

    /// Where the connection of this number is, if there is one.
    pub fn place_on(&self, number: u64) -> Option<PlaceOn>
        ensures { result ≡ place_on (pool_in self.now.pool) self.now.links.items number }
    {
        let link = self.link(number)?;
        if !link.is_open {
            return Some(PlaceOn::Opening);
        }
        if let Some(key) = self.pool.key_on(number) {
            return Some(PlaceOn::Held(key));
        }
        Some(match self.pool.place_on(number)? {
            Seated::Free => PlaceOn::Free,
            Seated::Draining => PlaceOn::Draining,
            Seated::Cleaning(_) | Seated::Leased(_) | Seated::Kept(_) => PlaceOn::Cleaning,
        })
    }

    /// Whether a transaction is open on the connection of this number, if there is one. One that the next
    /// request's full reset ends isn't counted.
    pub fn is_open_on(&self, number: u64) -> Option<bool>
        ensures { result ≡ open_on (pool_in self.now.pool) number }
    {
        self.pool.is_open_on(number)
    }

    /// The keys of the applications that wait for a connection, the first one first.
    pub fn line(&self) -> &[usize]
        ensures { result.now ≡ (pool_in self.now.pool).line }
    {
        self.pool.line()
    }

    /// What the relay has done.
    pub fn counts(&self) -> Counts
        ensures { result ≡ counts_in self.now }
    {
        let figures = self.pool.figures();
        Counts {
            requests: figures.requests,
            cancels: figures.cancels,
            cleanings: self.cleanings,
            failed: self.failed,
        }
    }
}

/// Where an application is that holds the connection of this number, or none.
fn where_is(application: &Application, number: Option<u64>) -> Place
    ensures { result ≡ place_with number application.now }
{
    if application.state.is_over() {
        return Place::Over;
    }
    match number {
        Some(number) => held(
            number,
            stops(application.front.stage()),
            application.state.asking(),
        ),
        None => unheld(application.state.asking()),
    }
}

/// Whether a cancel was handed on, and isn't acknowledged.
fn stops(stage: Stage) -> bool
    ensures { result ≡ has_cancelled stage }
{
    match stage {
        Stage::Quiet => false,
        Stage::Receiving { .. } => false,
        Stage::Underway { .. } => false,
        Stage::Stopping => true,
        Stage::Broken(_) => false,
    }
}

/// Where an application is that holds no connection.
fn unheld(asking: Asking) -> Place
    ensures { result ≡ unheld_place asking }
{
    match asking {
        Asking::Nothing => Place::Quiet,
        Asking::Waits { .. } => Place::Waiting,
        Asking::Goes => Place::Quiet,
    }
}

/// Where one is that holds the connection of this number.
fn held(number: u64, stops: bool, asking: Asking) -> Place
    ensures { result ≡ held_place number stops asking }
{
    match (asking, stops) {
        (Asking::Waits { .. }, _) => Place::Opening(number),
        (Asking::Nothing, true) => Place::Cancelling(number),
        (Asking::Nothing, false) => Place::Holding(number),
        (Asking::Goes, true) => Place::Cancelling(number),
        (Asking::Goes, false) => Place::Asking(number),
    }
}
