//! What is wrong with what is said next.

ghost use Rattle.std.specs.Prelude.{◌≡◌, ◌≤◌, ◌<◌, ◌+◌, vec_len, vec_capacity};
ghost use Rattle.tds_judge.specs.Noting as noting;
ghost use Rattle.tds_judge.specs.Talking as talking;

use crate::finding::{Finding, Name, Spot, note};
use crate::talk::{
    Ending, Event, Limits, Reset, Talk, acknowledges, ended_by, goes_on, ignores_early, is_short,
    is_unclear, tells_reset,
};
use tds_wire::Token;

impl Talk {
    fn note_turn(&self, out: &mut Vec<Finding>, spot: Spot)
        requires { vec_len out.old + 2 ≤ vec_capacity out.old }
        ensures items { out.new.items ≡ noting.turn_noted out.old.items self.now spot }
        ensures few { vec_len out.new ≤ vec_len out.old + 2 }
        ensures capacity { vec_capacity out.new ≡ vec_capacity out.old }
    {
        note(out, spot, self.attention, Name::AttentionUnanswered, 0);
        let both = self.underway && !self.attention;
        note(out, spot, both, Name::RequestWhileAnswering, 0);
    }

    fn note_reset(&self, out: &mut Vec<Finding>, spot: Spot, status: u8)
        requires { vec_len out.old + 4 ≤ vec_capacity out.old }
        ensures items { out.new.items ≡ noting.reset_noted out.old.items self.now spot status }
        ensures few { vec_len out.new ≤ vec_len out.old + 4 }
        ensures capacity { vec_capacity out.new ≡ vec_capacity out.old }
    {
        let reset = Reset::of(status);
        let open = self.transaction.descriptor();
        let ends = reset.is_full() && open != 0;
        let twice = reset.is_asked() && self.reset.is_asked() && self.reset_done;
        let reused = self.borrowed && !reset.is_asked();
        note(
            out,
            spot,
            reset.is_both(),
            Name::BothResets,
            u64::from(status),
        );
        note(out, spot, ends, Name::ResetEndsTransaction, open);
        note(out, spot, twice, Name::ResetTwice, 0);
        note(out, spot, reused, Name::SessionReusedWithoutReset, 0);
    }

    fn is_idle_long(&self, limits: &Limits, time: u64) -> bool
        ensures { result ≡ noting.is_idle_long limits.now self.now time }
    {
        self.transaction.descriptor() != 0
            && !self.underway
            && limits.idle != 0
            && time.saturating_sub(self.since) > limits.idle
    }

    fn note_request(
        &self,
        out: &mut Vec<Finding>,
        limits: &Limits,
        spot: Spot,
        status: u8,
        bulk: bool,
    )
        requires { vec_len out.old + 10 ≤ vec_capacity out.old }
        ensures items { out.new.items
            ≡ noting.request_noted out.old.items limits.now self.now spot status bulk }
        ensures few { vec_len out.new ≤ vec_len out.old + 10 }
        ensures capacity { vec_capacity out.new ≡ vec_capacity out.old }
    {
        self.note_turn(out, spot);
        self.note_reset(out, spot, status);
        let idle = self.is_idle_long(limits, spot.time);
        let long = spot.time.saturating_sub(self.since);
        note(out, spot, idle, Name::IdleInTransaction, long);
        let early = ignores_early(status);
        note(out, spot, early, Name::IgnoreUnended, u64::from(status));
        note(out, spot, self.entering, Name::RequestBeforeLogin, 0);
        let bare = bulk && Reset::of(status).is_asked();
        note(out, spot, bare, Name::ResetOnBulkLoad, u64::from(status));
    }

    fn note_attention(&self, out: &mut Vec<Finding>, spot: Spot, size: u16, status: u8)
        requires { vec_len out.old + 2 ≤ vec_capacity out.old }
        ensures items { out.new.items
            ≡ noting.attention_noted out.old.items self.now spot size status }
        ensures few { vec_len out.new ≤ vec_len out.old + 2 }
        ensures capacity { vec_capacity out.new ≡ vec_capacity out.old }
    {
        note(out, spot, self.attention, Name::SecondAttention, 0);
        let wrong = size != 8 || status != 1;
        note(out, spot, wrong, Name::WrongAttention, u64::from(size));
    }

    fn names_wrongly(&self, descriptor: u64) -> bool
        ensures { result ≡ noting.names_wrongly self.now descriptor }
    {
        self.transaction.is_told()
            && self.transaction.descriptor() != descriptor
            && !(self.reset.is_full() && descriptor == 0)
    }

    fn note_names(&self, out: &mut Vec<Finding>, spot: Spot, descriptor: u64)
        requires { vec_len out.old + 3 ≤ vec_capacity out.old }
        ensures items { out.new.items
            ≡ noting.names_noted out.old.items self.now spot descriptor }
        ensures few { vec_len out.new ≤ vec_len out.old + 3 }
        ensures capacity { vec_capacity out.new ≡ vec_capacity out.old }
    {
        let wrong = self.names_wrongly(descriptor);
        let open = self.transaction.descriptor();
        let kept = wrong && self.begun_unheard;
        let dead = wrong && self.ended != 0 && self.ended == descriptor;
        note(out, spot, wrong, Name::WrongDescriptor, open);
        note(out, spot, kept, Name::CancelledBeginKept, open);
        note(out, spot, dead, Name::TransactionEndedUnheard, descriptor);
    }

    /// What is still to be told done of what was asked for is none, and a reset is told done.
    fn is_reset_unasked(&self, token: &Token) -> bool
        ensures { result ≡ noting.resets_unasked self.now token.now }
    {
        let none = !self.owed().is_asked() || self.forgotten;
        tells_reset(token) && self.asked.is_request() && none
    }

    /// What is still to be told done is told behind something that was done of the request.
    fn is_reset_late(&self, token: &Token) -> bool
        ensures { result ≡ noting.resets_late self.now token.now }
    {
        tells_reset(token) && self.owed().is_asked() && self.worked
    }

    /// Something stands behind an acknowledgement, or is to.
    fn goes_on_acknowledged(&self, token: &Token) -> bool
        ensures { result ≡ noting.goes_on_acknowledged self.now token.now }
    {
        let behind = self.is_final && self.acknowledges;
        self.asked.is_request() && (behind || (acknowledges(token) && goes_on(token)))
    }

    fn note_change(&self, out: &mut Vec<Finding>, spot: Spot, token: &Token)
        requires { vec_len out.old + 5 ≤ vec_capacity out.old }
        ensures items { out.new.items
            ≡ noting.change_noted out.old.items self.now spot token.now }
        ensures few { vec_len out.new ≤ vec_len out.old + 5 }
        ensures capacity { vec_capacity out.new ≡ vec_capacity out.old }
    {
        let unasked = self.is_reset_unasked(token);
        let wrong = self.transaction.is_changed_wrongly(token);
        let none = self.transaction.is_ended_in_vain(token) && !self.reset_done;
        let more = self.goes_on_acknowledged(token);
        let open = self.transaction.descriptor();
        note(out, spot, unasked, Name::ResetUnasked, 0);
        note(out, spot, wrong, Name::WrongChange, open);
        note(out, spot, none, Name::NoneEnded, ended_by(token));
        let kind = u64::from(token.kind);
        note(out, spot, more, Name::AcknowledgementNotLast, kind);
        let late = self.is_reset_late(token);
        note(out, spot, late, Name::ResetToldLate, 0);
    }

    fn note_token(&self, out: &mut Vec<Finding>, spot: Spot, token: &Token)
        requires { vec_len out.old + 9 ≤ vec_capacity out.old }
        ensures items { out.new.items
            ≡ noting.token_noted out.old.items self.now spot token.now }
        ensures few { vec_len out.new ≤ vec_len out.old + 9 }
        ensures capacity { vec_capacity out.new ≡ vec_capacity out.old }
    {
        let acknowledges = acknowledges(token);
        let plain = self.asked.is_request() && !self.attention;
        let unasked = acknowledges && plain && !self.doubled;
        let behind = self.is_final && plain && !acknowledges;
        let kind = u64::from(token.kind);
        let old = is_short(token) && !self.dated;
        note(out, spot, unasked, Name::AcknowledgementUnasked, 0);
        note(out, spot, behind, Name::TokenAfterFinalDone, kind);
        note(out, spot, is_unclear(token), Name::UnclearChange, kind);
        note(out, spot, old, Name::OtherVersion, 0);
        self.note_change(out, spot, token);
    }

    /// Whether nothing is to be answered.
    fn is_unawaited(&self) -> bool
        ensures { result ≡ noting.is_unawaited self.now }
    {
        let none = self.asked.is_known() && !self.underway && !self.attention;
        none && !self.doubled && !self.forgotten
    }

    /// Whether an answer is that to a request which wasn't cancelled.
    pub fn is_plain(&self) -> bool
        ensures { result ≡ talking.is_plain self.now }
    {
        self.asked.is_request() && !self.attention && !self.acknowledges
    }

    /// Whether an answer is that to a request or to a login, of which none was cancelled.
    pub fn is_awaited(&self) -> bool
        ensures { result ≡ talking.is_awaited self.now }
    {
        self.asked.is_known() && !self.attention && !self.acknowledges
    }

    /// Whether the end of an answer, between two tokens or not, shows a version that isn't judged.
    fn is_of_another_version(&self, whole: bool) -> bool
        ensures { result ≡ noting.is_of_another_version self.now whole }
    {
        self.is_awaited() && !whole && !self.dated
    }

    /// Whether a reset is still to be told done: none of a bulk load is, nor of what is to be ignored.
    fn is_reset_due(&self) -> bool
        ensures { result ≡ noting.is_reset_due self.now }
    {
        let asked = self.reset.is_asked() && !self.forgotten;
        asked && !self.reset_done && !self.bulk
    }

    fn note_answered(&self, out: &mut Vec<Finding>, spot: Spot, whole: bool)
        requires { vec_len out.old + 5 ≤ vec_capacity out.old }
        ensures items { out.new.items
            ≡ noting.answer_noted out.old.items self.now spot whole }
        ensures few { vec_len out.new ≤ vec_len out.old + 5 }
        ensures capacity { vec_capacity out.new ≡ vec_capacity out.old }
    {
        let plain = self.is_plain();
        let cut = plain && !whole;
        let old = self.is_of_another_version(whole);
        let open = plain && whole && !self.is_final;
        let unreset = plain && self.is_final && self.is_reset_due();
        let ignored = self.attention && !self.acknowledges && self.late && self.ended_since;
        note(out, spot, cut && self.dated, Name::CutToken, 0);
        note(out, spot, old, Name::OtherVersion, 0);
        note(out, spot, open, Name::NoFinalDone, 0);
        note(out, spot, unreset, Name::ResetUnanswered, 0);
        note(out, spot, ignored, Name::AttentionIgnored, 0);
    }

    fn note_closed(&self, out: &mut Vec<Finding>, limits: &Limits, spot: Spot)
        requires { vec_len out.old + 3 ≤ vec_capacity out.old }
        ensures items { out.new.items
            ≡ noting.close_noted out.old.items limits.now self.now spot }
        ensures few { vec_len out.new ≤ vec_len out.old + 3 }
        ensures capacity { vec_capacity out.new ≡ vec_capacity out.old }
    {
        let unread = self.underway && self.asked.is_request();
        let idle = self.is_idle_long(limits, spot.time);
        let long = spot.time.saturating_sub(self.since);
        let open = self.transaction.descriptor();
        note(out, spot, unread, Name::AnswerUnread, 0);
        note(out, spot, idle, Name::IdleInTransaction, long);
        note(out, spot, open != 0, Name::TransactionLeftByClose, open);
    }

    fn note_stopped(&self, out: &mut Vec<Finding>, spot: Spot, ending: Ending, value: u64)
        requires { vec_len out.old + 2 ≤ vec_capacity out.old }
        ensures items { out.new.items
            ≡ noting.stop_noted out.old.items self.now spot ending value }
        ensures few { vec_len out.new ≤ vec_len out.old + 2 }
        ensures capacity { vec_capacity out.new ≡ vec_capacity out.old }
    {
        match ending {
            Ending::WrongToken => {
                note(out, spot, self.dated, Name::WrongToken, value);
                note(out, spot, !self.dated, Name::OtherVersion, value);
            }
            Ending::WrongLength => note(out, spot, true, Name::WrongLength, value),
            Ending::Encrypted => note(out, spot, true, Name::Encrypted, value),
            Ending::NotTds => note(out, spot, true, Name::NotTds, value),
            Ending::OtherVersion => note(out, spot, true, Name::OtherVersion, value),
            Ending::Compute => note(out, spot, true, Name::Compute, value),
            Ending::WrongDirection => note(out, spot, true, Name::WrongDirection, value),
        }
    }

    fn note_size(&self, out: &mut Vec<Finding>, spot: Spot, size: u16, fills: bool)
        requires { vec_len out.old + 2 ≤ vec_capacity out.old }
        ensures items { out.new.items
            ≡ noting.size_noted out.old.items self.now spot size fills }
        ensures few { vec_len out.new ≤ vec_len out.old + 2 }
        ensures capacity { vec_capacity out.new ≡ vec_capacity out.old }
    {
        let over = self.most != 0 && u32::from(size) > self.most;
        let under = fills && u32::from(size) < self.most;
        note(out, spot, over, Name::PacketSize, u64::from(size));
        note(out, spot, under, Name::PacketNotFull, u64::from(size));
    }

    /// Appends what is wrong with what is said now. Of another version nothing is.
    #[tactic(auto, unfolding(crate::specs::Noting::told_by))]
    pub fn note_event(&self, out: &mut Vec<Finding>, limits: &Limits, spot: Spot, event: Event)
        requires { vec_len out.old + 10 ≤ vec_capacity out.old }
        ensures items { out.new.items
            ≡ noting.told_by out.old.items limits.now self.now spot event }
        ensures few { vec_len out.new ≤ vec_len out.old + 10 }
        ensures capacity { vec_capacity out.new ≡ vec_capacity out.old }
    {
        if !self.other {
            self.note_said(out, limits, spot, event);
        }
    }

    fn note_said(&self, out: &mut Vec<Finding>, limits: &Limits, spot: Spot, event: Event)
        requires { vec_len out.old + 10 ≤ vec_capacity out.old }
        ensures items { out.new.items
            ≡ noting.told_here out.old.items limits.now self.now spot event }
        ensures few { vec_len out.new ≤ vec_len out.old + 10 }
        ensures capacity { vec_capacity out.new ≡ vec_capacity out.old }
    {
        match event {
            Event::Packet(size, fills) => self.note_size(out, spot, size, fills),
            Event::Unfinished => note(out, spot, true, Name::UnfinishedMessage, 0),
            Event::Request(status, bulk) => self.note_request(out, limits, spot, status, bulk),
            Event::Attention(size, status) => self.note_attention(out, spot, size, status),
            Event::Later(status) => {
                let asks = Reset::of(status).is_asked();
                let unended = ignores_early(status);
                note(out, spot, asks, Name::ResetOnLaterPacket, u64::from(status));
                note(out, spot, unended, Name::IgnoreUnended, u64::from(status));
            }
            Event::Names(descriptor) => self.note_names(out, spot, descriptor),
            Event::Headers(fault) => {
                let why = u64::from(fault.number());
                note(out, spot, self.dated, Name::WrongHeaders, why);
            }
            Event::Says(token) => self.note_token(out, spot, &token),
            Event::Answered(whole) => self.note_answered(out, spot, whole),
            Event::TakenUp => note(out, spot, true, Name::TakenUp, 0),
            Event::Stops(ending, value) => self.note_stopped(out, spot, ending, value),
            Event::Closed => self.note_closed(out, limits, spot),
            Event::Answer => {
                note(out, spot, self.is_unawaited(), Name::AnswerUnasked, 0);
                note(out, spot, self.asking, Name::AnswerBeforeEnd, 0);
            }
            Event::Borrowed => {
                let busy = self.attention || (self.underway && self.asked.is_request());
                note(out, spot, busy, Name::LentWhileAnswering, 0);
            }
            Event::Login | Event::Ignored => {}
        }
    }
}
