//! A connection in the table: who holds it, what its client is doing, and how it is lent.

ghost use Rattle.std.specs.Prelude.{◌≡◌, Some};
ghost use Rattle.tds_packet.specs.Resets.{strongest};
ghost use Rattle.tds_service.specs.Line as line;
ghost use Rattle.tds_service.specs.Service.{clean_place, is_clean, is_idle, is_open, may_keep, rests};
ghost use Rattle.tds_service.specs.Table.{rest_of, rests_of};
ghost use Rattle.tds_service.specs.Table.{place_of as place_named};
ghost use Rattle.tds_c.specs.service.Calls.{drained_rest};
ghost use Rattle.tds_c.specs.service.Clients.{apart};
ghost use Rattle.tds_c.specs.service.Plain.{line_of, mark_of, place_of, seat_of, stage_of};
ghost use Rattle.tds_c.specs.service.Table.{seen, wanted_test};

use crate::service::plain::TdsSeat;
use tds_packet::Reset;
use tds_service::{Place, Rest};

/// What a client is doing.
#[derive(Clone, Copy)]
pub(crate) enum Stage {
    Idle,
    /// A request was asked, of which no packet is out, or some.
    Unsent,
    Sending,
    Reading,
    Cancelling,
    Broken,
}

/// The connection that is looked for.
#[derive(Clone, Copy)]
pub(crate) enum Wanted {
    Lease(u64),
    Ticket(u64),
    Number(u64),
    Lendable,
}

/// Of a reset and of the one that a mark stands for the stronger one.
#[inline(always)]
#[tactic(auto, unfolding(crate::specs::service::Plain::mark_of))]
fn stronger(reset: Reset, mark: u8) -> u8
    ensures { mark_of result ≡ strongest (Some reset) (mark_of mark) }
{
    match reset {
        Reset::Full => 1,
        Reset::KeepTransaction => { if mark == 1 { 1 } else { 2 } }
    }
}

impl TdsSeat {
    /// What its client is doing.
    #[inline(always)]
    #[tactic(auto, unfolding(crate::specs::service::Plain::stage_at))]
    pub(crate) fn stage(&self) -> Stage
        ensures { result ≡ seen (stage_of self.now.client) }
    {
        match self.client.stage {
            0 => Stage::Idle,
            1 => {
                if self.client.packets == 0 {
                    Stage::Unsent
                } else {
                    Stage::Sending
                }
            }
            2 => Stage::Reading,
            3 => Stage::Cancelling,
            _ => Stage::Broken,
        }
    }

    /// Who holds it.
    #[inline(always)]
    #[tactic(auto, unfolding(crate::specs::service::Plain::place_at))]
    pub(crate) fn place(&self) -> Place
        ensures { place_named result ≡ place_of self.now }
    {
        match self.place {
            1 => Place::Leased(self.holder),
            2 => Place::Cleaning(self.holder),
            3 => Place::Kept(self.holder),
            4 => Place::Draining,
            _ => Place::Free,
        }
    }

    /// The same seat, where this place is.
    #[inline(always)]
    #[tactic(auto, unfolding(crate::specs::service::Plain::place_at))]
    pub(crate) fn at(self, place: Place) -> TdsSeat
        ensures seat { seat_of result ≡ record {
          number = self.number;
          place = place_named place;
          line = line_of self;
        } }
        ensures client { result.client ≡ self.client }
    {
        let (place, holder) = match place {
            Place::Free => (0, 0),
            Place::Leased(lease) => (1, lease),
            Place::Cleaning(lease) => (2, lease),
            Place::Kept(ticket) => (3, ticket),
            Place::Draining => (4, 0),
        };
        TdsSeat {
            place,
            holder,
            ..self
        }
    }

    /// The same seat, with this reset owed by its next request; of two the stronger one is.
    #[inline(always)]
    pub(crate) fn marked(self, reset: Reset) -> TdsSeat
        ensures seat { seat_of result ≡ record {
          number = self.number;
          place = place_of self;
          line = line.marked (line_of self) reset;
        } }
        ensures apart { apart result.client ≡ apart self.client }
    {
        let mut seat = self;
        seat.client.mark = stronger(reset, self.client.mark);
        seat
    }

    #[inline(always)]
    pub(crate) fn is_idle(&self) -> bool
        ensures { result ≡ is_idle (stage_of self.now.client) }
    {
        match self.stage() {
            Stage::Idle => true,
            Stage::Unsent => false,
            Stage::Sending => false,
            Stage::Reading => false,
            Stage::Cancelling => false,
            Stage::Broken => false,
        }
    }

    /// Where it is once nobody holds it.
    #[inline(always)]
    pub(crate) fn rest(&self) -> Rest
        ensures { rest_of result ≡ rests (stage_of self.now.client) }
    {
        match self.stage() {
            Stage::Idle => Rest::Free,
            Stage::Unsent => Rest::Draining,
            Stage::Sending => Rest::Draining,
            Stage::Reading => Rest::Draining,
            Stage::Cancelling => Rest::Draining,
            Stage::Broken => Rest::Closed,
        }
    }

    /// Whether it is the one that is wanted.
    #[inline(always)]
    pub(crate) fn is_wanted(&self, wanted: Wanted) -> bool
        ensures { result ≡ wanted_test wanted (seat_of self.now) }
    {
        match (wanted, self.place()) {
            (Wanted::Lease(lease), Place::Leased(other)) => other == lease,
            (Wanted::Lease(lease), Place::Cleaning(other)) => other == lease,
            (Wanted::Lease(_), Place::Kept(_)) => false,
            (Wanted::Lease(_), Place::Free) => false,
            (Wanted::Lease(_), Place::Draining) => false,
            (Wanted::Ticket(ticket), Place::Kept(other)) => other == ticket,
            (Wanted::Ticket(_), Place::Leased(_)) => false,
            (Wanted::Ticket(_), Place::Cleaning(_)) => false,
            (Wanted::Ticket(_), Place::Free) => false,
            (Wanted::Ticket(_), Place::Draining) => false,
            (Wanted::Number(number), _) => self.number == number,
            (Wanted::Lendable, Place::Free) => self.is_idle(),
            (Wanted::Lendable, Place::Leased(_)) => false,
            (Wanted::Lendable, Place::Cleaning(_)) => false,
            (Wanted::Lendable, Place::Kept(_)) => false,
            (Wanted::Lendable, Place::Draining) => false,
        }
    }

    /// Whether a transaction is open on it, and no full reset is about to end it.
    #[inline(always)]
    #[tactic(auto, unfolding(crate::specs::service::Plain::mark_of))]
    fn is_open(&self) -> bool
        ensures { result ≡ is_open (mark_of self.now.client.mark) self.now.client.descriptor }
    {
        self.client.mark != 1 && self.client.descriptor > 0
    }

    /// Whether it is idle, with a transaction that is open.
    #[inline(always)]
    pub(crate) fn may_keep(&self) -> bool
        ensures { result ≡ may_keep (seat_of self.now) }
    {
        self.is_idle() && self.is_open()
    }

    /// Whether no reset is owed, and no transaction is open.
    #[inline(always)]
    #[tactic(auto, unfolding(crate::specs::service::Plain::mark_of))]
    fn is_clean(&self) -> bool
        ensures { result ≡ is_clean (mark_of self.now.client.mark) self.now.client.descriptor }
    {
        self.client.mark != 1 && self.client.mark != 2 && self.client.descriptor == 0
    }

    /// Where it is once it is cleaned: none while that goes on, or where it isn't lent for this.
    #[inline(always)]
    pub(crate) fn clean_rest(&self) -> Option<Rest>
        ensures { rests_of result ≡ clean_place (place_of self.now) (line_of self.now) }
    {
        match (self.place(), self.stage()) {
            (Place::Cleaning(_), Stage::Idle) => {
                if self.is_clean() {
                    Some(Rest::Free)
                } else {
                    Some(Rest::Closed)
                }
            }
            (Place::Cleaning(_), Stage::Broken) => Some(Rest::Closed),
            (Place::Cleaning(_), Stage::Unsent) => None,
            (Place::Cleaning(_), Stage::Sending) => None,
            (Place::Cleaning(_), Stage::Reading) => None,
            (Place::Cleaning(_), Stage::Cancelling) => None,
            (Place::Leased(_), _) => None,
            (Place::Kept(_), _) => None,
            (Place::Free, _) => None,
            (Place::Draining, _) => None,
        }
    }

    /// Where it is behind what came, if it drains.
    #[inline(always)]
    pub(crate) fn drained_rest(&self) -> Option<Rest>
        ensures { rests_of result ≡ drained_rest (place_of self.now) (stage_of self.now.client) }
    {
        match self.place() {
            Place::Draining => {
                if self.is_idle() {
                    Some(Rest::Free)
                } else {
                    Some(Rest::Draining)
                }
            }
            Place::Leased(_) => None,
            Place::Cleaning(_) => None,
            Place::Kept(_) => None,
            Place::Free => None,
        }
    }
}
