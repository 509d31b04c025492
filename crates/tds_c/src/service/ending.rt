//! What a seat's client makes of a message's end, and where its connection is behind what came.

ghost use Rattle.std.specs.Prelude.{◌≡◌, [], None, true};
ghost use Rattle.tds_client.specs.declared.heard.FinalDone.TheVariants.{Awaited};
ghost use Rattle.tds_client.specs.Hearing.{with_done};
ghost use Rattle.tds_service.specs.Line as line;
ghost use Rattle.tds_service.specs.Line.{heard_at};
ghost use Rattle.tds_service.specs.Packets.{outcome_answer};
ghost use Rattle.tds_service.specs.Service.{Draining, drained, lease_in};
ghost use Rattle.tds_service.specs.Ties.{Hears};
ghost use Rattle.tds_c.specs.service.Clients.{apart};
ghost use Rattle.tds_c.specs.service.Hearing.{end_part};
ghost use Rattle.tds_c.specs.service.Plain.{done_of, line_of, mark_of, place_of, stage_of};

use crate::service::hearing::Hearing;
use crate::service::plain::TdsSeat;
use tds_client::{ClientFault, FinalDone};
use tds_listen::ListenFault;
use tds_service::{Outcome, Place};

/// This came of the end of a message.
#[inline(always)]
fn came(seat: TdsSeat, outcome: Outcome) -> Hearing
    ensures seat { result.seat ≡ seat }
    ensures outcome { result.outcome ≡ outcome }
{
    Hearing {
        seat,
        told: false,
        outcome,
    }
}

impl TdsSeat {
    /// Its client hears that a message has ended, inside a token or between two.
    #[inline(always)]
    #[tactic(auto, unfolding(crate::specs::service::Plain::stage_at))]
    pub(crate) fn end(self, cut: bool) -> Hearing
        ensures hears { Hears (end_part cut) (line_of self) (line_of result.seat)
            (outcome_answer self.asked result.outcome) [] }
        ensures place { place_of result.seat ≡ place_of self }
        ensures number { result.seat.number ≡ self.number }
        ensures apart { apart result.seat.client ≡ apart self.client }
    {
        match self.client.stage {
            0 => self.breaks(1, ClientFault::AnswerInIdle),
            1 => self.breaks(2, ClientFault::AnswerInSending),
            2 => self.end_read(cut),
            3 => self.end_skipped(cut),
            _ => came(self, Outcome::Fault(ListenFault::Client(self.fault()))),
        }
    }

    /// The same seat, where the message that came is over.
    #[inline(always)]
    fn over(self) -> TdsSeat
        ensures line { line_of result ≡ heard_at (line_of self) (stage_of self.client)
            (with_done (line_of self).heard Awaited) }
        ensures place { place_of result ≡ place_of self }
        ensures number { result.number ≡ self.number }
        ensures apart { apart result.client ≡ apart self.client }
    {
        let mut seat = self;
        seat.client.done = 0;
        seat
    }

    /// The same seat, whose client is idle.
    #[inline(always)]
    #[tactic(auto, unfolding(crate::specs::service::Plain::stage_at))]
    fn idle(self) -> TdsSeat
        ensures line { line_of result ≡ heard_at (line_of self) line.Idle (line_of self).heard }
        ensures place { place_of result ≡ place_of self }
        ensures number { result.number ≡ self.number }
        ensures apart { apart result.client ≡ apart self.client }
    {
        let mut seat = self;
        seat.client.stage = 0;
        seat
    }

    /// The same of one that awaits an answer.
    #[inline(always)]
    fn end_read(self, cut: bool) -> Hearing
        requires { stage_of self.client ≡ line.Reading }
        ensures hears { Hears (end_part cut) (line_of self) (line_of result.seat)
            (outcome_answer self.asked result.outcome) [] }
        ensures place { place_of result.seat ≡ place_of self }
        ensures number { result.seat.number ≡ self.number }
        ensures apart { apart result.seat.client ≡ apart self.client }
    {
        if cut {
            return came(self.broken(9), Outcome::Fault(ListenFault::Cut));
        }
        if self.done() == FinalDone::Awaited {
            return self.breaks(6, ClientFault::NoFinalDone);
        }
        match self.mark() {
            Some(_) => came(
                self.over().broken(9),
                Outcome::Fault(ListenFault::ResetUnanswered),
            ),
            None => came(self.over().idle(), Outcome::Finished),
        }
    }

    /// The same of one that awaits an acknowledgement: there it may end anywhere.
    #[inline(always)]
    fn end_skipped(self, cut: bool) -> Hearing
        requires { stage_of self.client ≡ line.Cancelling }
        ensures hears { Hears (end_part cut) (line_of self) (line_of result.seat)
            (outcome_answer self.asked result.outcome) [] }
        ensures place { place_of result.seat ≡ place_of self }
        ensures number { result.seat.number ≡ self.number }
        ensures apart { apart result.seat.client ≡ apart self.client }
    {
        let _ = cut;
        if self.done() == FinalDone::Acknowledged {
            return came(self.over().idle(), Outcome::Acknowledged);
        }
        came(self.over(), Outcome::More)
    }

    /// Whether its client has an answer whole, owes no reset, and its connection doesn't drain.
    #[inline(always)]
    #[tactic(auto, unfolding(crate::specs::service::Plain::stage_at))]
    pub(crate) fn has_answer(&self) -> bool
        ensures stage { result ≡ true → stage_of self.now.client ≡ line.Reading }
        ensures mark { result ≡ true → mark_of self.now.client.mark ≡ None }
        ensures done { result ≡ true → ¬ (done_of self.now.client.done ≡ Awaited) }
        ensures held { result ≡ true → ¬ (place_of self.now ≡ Draining) }
    {
        if self.client.stage != 2 || self.done() == FinalDone::Awaited {
            return false;
        }
        if let Some(_) = self.mark() {
            return false;
        }
        match self.place() {
            Place::Draining => false,
            Place::Leased(_) => true,
            Place::Cleaning(_) => true,
            Place::Kept(_) => true,
            Place::Free => true,
        }
    }

    /// The answer has ended: its client is idle.
    #[inline(always)]
    #[tactic(auto, unfolding(crate::specs::service::Plain::stage_at))]
    pub(crate) fn end_answer(&mut self)
        ensures line { line_of self.new
            ≡ heard_at (line_of self.old) line.Idle (with_done (line_of self.old).heard Awaited) }
        ensures place { place_of self.new ≡ place_of self.old }
        ensures number { self.new.number ≡ self.old.number }
        ensures apart { apart self.new.client ≡ apart self.old.client }
    {
        self.client.stage = 0;
        self.client.done = 0;
    }

    /// The same seat, where it is behind what came: one that drains is free once it is idle.
    #[inline(always)]
    pub(crate) fn settled(self) -> TdsSeat
        ensures line { line_of result ≡ line_of self }
        ensures place { place_of result ≡ drained (place_of self) (stage_of self.client) }
        ensures number { result.number ≡ self.number }
        ensures client { result.client ≡ self.client }
    {
        match self.place() {
            Place::Draining => {
                if self.is_idle() {
                    self.at(Place::Free)
                } else {
                    self
                }
            }
            Place::Leased(_) => self,
            Place::Cleaning(_) => self,
            Place::Kept(_) => self,
            Place::Free => self,
        }
    }

    /// The lease that holds it, where one does.
    #[inline(always)]
    pub(crate) fn lease(&self) -> Option<u64>
        ensures { result ≡ lease_in (place_of self.now) }
    {
        match self.place() {
            Place::Leased(lease) => Some(lease),
            Place::Cleaning(lease) => Some(lease),
            Place::Kept(_) => None,
            Place::Free => None,
            Place::Draining => None,
        }
    }
}
