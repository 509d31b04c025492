//! What has been said, when more is said.

ghost use Rattle.std.specs.Prelude.{◌≡◌, ◌≤◌, ◌<◌, ◌+◌, vec_len, vec_capacity};
ghost use Rattle.tds_judge.specs.Noting as noting;
ghost use Rattle.tds_judge.specs.Talking as talking;

use crate::finding::{Finding, Spot};
use crate::talk::{Asked, Event, Limits, Reset, Talk, Transaction, admits, is_long, shows_work};
use tds_wire::{ChangeValue, Done, Token, Told};

impl Talk {
    /// Before anything was seen.
    pub fn new() -> Talk
        ensures { result ≡ talking.new_talk }
    {
        Talk {
            asked: Asked::Unknown,
            underway: false,
            attention: false,
            doubled: false,
            late: false,
            ended_since: false,
            asking: false,
            reset: Reset::None,
            reset_done: false,
            bulk: false,
            forgotten: false,
            transaction: Transaction::Unknown,
            begun: false,
            begun_unheard: false,
            ended: 0,
            is_final: false,
            acknowledges: false,
            borrowed: false,
            since: 0,
            agreed: 0,
            most: 0,
            dated: false,
            other: false,
            entering: false,
            worked: false,
        }
    }

    /// No answer is to come.
    fn awaits_none(&self) -> bool
        ensures { result ≡ talking.awaits_none self.now }
    {
        !self.underway && !self.attention && !self.doubled
    }

    fn begin_request(&mut self, status: u8, bulk: bool)
        ensures { self.new ≡ talking.begins_request self.old status bulk }
    {
        self.asking = status % 2 != 1 && self.awaits_none();
        self.asked = Asked::Request;
        self.underway = true;
        self.late = self.attention;
        self.reset = Reset::of(status);
        self.reset_done = false;
        self.bulk = bulk;
        self.forgotten = false;
        self.begun = false;
        self.borrowed = self.borrowed && self.reset.is_asked();
        self.entering = false;
    }

    fn begin_login(&mut self)
        ensures { self.new ≡ talking.begins_login self.old }
    {
        self.asked = Asked::Login;
        self.underway = true;
        self.asking = false;
        self.reset = Reset::None;
        self.reset_done = false;
        self.bulk = false;
        self.forgotten = false;
        self.begun = false;
        self.transaction = Transaction::Told(0);
        self.entering = true;
    }

    fn cancel(&mut self)
        ensures { self.new ≡ talking.cancels self.old }
    {
        self.doubled = self.doubled || self.attention;
        self.attention = true;
        self.late = false;
        self.ended_since = !self.underway;
        self.asking = false;
        self.forgotten = false;
        self.begun_unheard = self.begun_unheard || (self.begun && self.underway);
    }

    fn change_transaction(&mut self, time: u64, kind: u8, new: u64)
        ensures { self.new ≡ talking.transaction_changed self.old time kind new }
    {
        if kind == 8 || kind == 11 {
            self.transaction = Transaction::begun(kind, new);
            self.begun = true;
            self.begun_unheard = self.attention;
            self.ended = 0;
        } else {
            self.ended = self.transaction.descriptor();
            self.transaction = Transaction::Told(0);
            self.begun = false;
            self.begun_unheard = false;
        }
        self.since = time;
    }

    /// What is still to be told done of what was asked for.
    pub fn owed(&self) -> Reset
        ensures { result ≡ talking.owed self.now.reset_done self.now.reset }
    {
        if self.reset_done {
            Reset::None
        } else {
            self.reset
        }
    }

    fn end_reset(&mut self)
        ensures { self.new ≡ talking.is_reset self.old }
    {
        let keeps = self.owed().keeps();
        self.reset_done = true;
        self.borrowed = false;
        if !keeps {
            self.transaction = Transaction::Told(0);
            self.begun_unheard = false;
        }
    }

    fn hear_change(&mut self, time: u64, kind: u8, value: ChangeValue)
        ensures { self.new ≡ talking.change_heard self.old time kind value }
    {
        match value {
            ChangeValue::Transaction { new, old: _ } => self.change_transaction(time, kind, new),
            ChangeValue::ResetDone => self.end_reset(),
            ChangeValue::PacketSize(size) => self.agreed = size,
            ChangeValue::Values { .. } | ChangeValue::Other => {}
        }
    }

    fn hear_done(&mut self, done: Done)
        ensures { self.new ≡ talking.is_done self.old done }
    {
        let long = is_long(done);
        self.is_final = done.status % 2 != 1;
        self.acknowledges = self.acknowledges || done.status / 32 % 2 == 1;
        self.other = self.other || (!self.dated && !long);
        self.dated = self.dated || long;
    }

    /// What the first byte of a token tells.
    fn hear_kind(&mut self, kind: u8)
        ensures { self.new ≡ talking.kind_heard self.old kind }
    {
        if admits(kind) {
            self.entering = false;
        }
        if shows_work(kind) {
            self.worked = true;
        }
    }

    fn hear_token(&mut self, time: u64, token: &Token)
        ensures { self.new ≡ talking.token_heard self.old time token.now }
    {
        self.hear_kind(token.kind);
        match token.told {
            Told::Done(done) => self.hear_done(done),
            Told::Change(change) => self.hear_change(time, change.kind, change.value),
            Told::Unclear => {
                if token.kind == 0xE3 {
                    self.transaction = Transaction::Unknown;
                }
            }
            Told::Message(_) => {}
            Told::ReturnStatus(_) => {}
            Told::SessionState(_) => {}
            Told::Other => {}
        }
    }

    fn end_answer(&mut self, time: u64, whole: bool)
        ensures { self.new ≡ talking.ends_answer self.old time whole }
    {
        self.since = time;
        self.most = self.agreed;
        self.forgotten = false;
        if self.acknowledges {
            self.underway = if self.attention {
                self.late
            } else {
                self.doubled && self.underway
            };
            self.doubled = self.doubled && self.attention;
            self.attention = false;
            self.late = false;
            self.ended_since = false;
        } else {
            self.other = self.other || (self.is_awaited() && !whole && !self.dated);
            self.underway = false;
            self.late = self.late && !self.ended_since;
            self.ended_since = true;
        }
    }

    #[tactic(auto, unfolding(crate::specs::Talking::talk_by))]
    fn change(&mut self, time: u64, event: Event)
        ensures { self.new ≡ talking.talk_by self.old time event }
    {
        match event {
            Event::Request(status, bulk) => self.begin_request(status, bulk),
            Event::Login => self.begin_login(),
            Event::Attention(_, _) => self.cancel(),
            Event::Names(_) => {
                self.begun_unheard = false;
                self.ended = 0;
                self.dated = true;
            }
            Event::Ignored => {
                self.underway = false;
                self.forgotten = true;
            }
            Event::Answer => {
                self.underway = self.underway || self.forgotten;
                self.is_final = false;
                self.acknowledges = false;
                self.worked = false;
                self.asking = false;
            }
            Event::Says(token) => self.hear_token(time, &token),
            Event::Answered(whole) => self.end_answer(time, whole),
            Event::Borrowed => self.borrowed = true,
            Event::Later(status) => self.asking = self.asking && status % 2 != 1,
            Event::Packet(_, _) | Event::Unfinished | Event::Headers(_) => {}
            Event::TakenUp | Event::Stops(_, _) | Event::Closed => {}
        }
    }

    /// Something is said: appends what is wrong with it.
    pub fn hear(&mut self, out: &mut Vec<Finding>, limits: &Limits, spot: Spot, event: Event)
        requires { vec_len out.old + 10 ≤ vec_capacity out.old }
        ensures items { out.new.items
            ≡ noting.told_by out.old.items limits.now self.old spot event }
        ensures talk { self.new ≡ talking.talk_by self.old spot.time event }
        ensures few { vec_len out.new ≤ vec_len out.old + 10 }
        ensures capacity { vec_capacity out.new ≡ vec_capacity out.old }
    {
        self.note_event(out, limits, spot, event);
        self.change(spot.time, event);
    }
}
