//! A session, by what its server said of it and by what was asked.
ghost use Rattle.std.specs.Prelude.{◌≡◌, ◌≤◌, IfOk, length};
ghost use Rattle.tds_state.specs.Hearing as hearing;
ghost use Rattle.tds_state.specs.Hearing.{state_news, is_kept_whole};
ghost use Rattle.tds_state.specs.Sessions.{all_noted, session_asked, awaits_by, session_cancelled, ended_flight, session_ended, session_told, has_nothing_due, is_followed, has_nothing_open, is_quiet, is_told_home, session_at_login, session_rests, session_sent, flight_settled, flight_stopped};
ghost use Rattle.tds_state.specs.Asking.{asked_call};
ghost use Rattle.tds_state.specs.States.{states_listed};

use crate::NoMemory;
use crate::asked::{Asked, Request};
use crate::handles::Handles;
use crate::hearing::{ends_in_error, has_value, new_value, recovery, returned_value};
use crate::kept::behind;
use crate::resets::{is_full, is_owed, keeps_open, left_by, owed_by};
use crate::states::{behind_state, spot_at, value_at};
use crate::values::Values;
use std::alloc::Global;
use tds_packet::Reset;
use tds_wire::{Change, ChangeValue, SessionState, Token, Told};

/// Where the newest request is.
#[derive(Clone, Copy, Debug, PartialEq, Eq)]
pub enum Flight {
    /// No answer is due.
    Quiet,
    /// Its answer is due, or a login's.
    Asked,
    /// It is cancelled, and that isn't acknowledged.
    Cancelled,
    /// The message with the acknowledgement hasn't ended.
    Stopped,
}

/// What was said of a session.
#[derive(Drop)]
pub struct Session {
    /// Nothing was asked yet.
    pub(crate) is_login: bool,
    /// The login acknowledged session recovery.
    pub(crate) is_acknowledged: bool,
    /// Something couldn't be read or kept: it never rests any more.
    pub(crate) is_lost: bool,
    /// The newest SESSIONSTATE said that the session can be recovered.
    pub(crate) is_recoverable: bool,
    /// There may be what the server doesn't tell, up to a full reset.
    pub(crate) is_pinned: bool,
    /// The last request was cancelled: one whole answer more is awaited.
    pub(crate) awaits: bool,
    /// The descriptor of the transaction that is open, or 0.
    pub(crate) transaction: u64,
    /// The reset that was asked for and isn't done.
    pub(crate) owed: Option<Reset>,
    pub(crate) flight: Flight,
    pub(crate) asked: Asked,
    /// The states by their numbers (StateId), and the values that ENVCHANGE tells by their types.
    pub(crate) states: Values,
    pub(crate) changes: Values,
    pub(crate) handles: Handles,
}

const STATES: usize = 7_168;

const CHANGES: usize = 1_024;

const ENVCHANGE: u8 = 0xe3;

const SESSIONSTATE: u8 = 0xe4;

const FEATUREEXTACK: u8 = 0xae;

const DONEPROC: u8 = 0xfe;

const ERROR: u8 = 0xaa;

const RETURNVALUE: u8 = 0xac;

/// A DONEPROC behind which another one of its message follows (MS-TDS 2.2.7.7).
fn is_followed(kind: u8, status: u16) -> bool
    ensures { result ≡ is_followed kind status }
{
    kind == DONEPROC && status / 128 % 2 == 1
}

fn stopped_by(is_stop: bool, flight: Flight) -> Flight
    ensures { result ≡ flight_stopped is_stop flight }
{
    match flight {
        Flight::Quiet => Flight::Quiet,
        Flight::Asked => Flight::Asked,
        Flight::Cancelled => {
            if is_stop {
                Flight::Stopped
            } else {
                Flight::Cancelled
            }
        }
        Flight::Stopped => Flight::Stopped,
    }
}

/// Notes the values of states.
fn note_all(values: &mut Values, is_recoverable: bool, states: &[u8]) -> bool
    ensures noted { values.new
        ≡ all_noted values.old is_recoverable (states_listed states.now).states }
    ensures whole { result ≡ (states_listed states.now).is_whole }
{
    let mut rest = states;
    'states: while let Some(spot) = spot_at(rest) {
        values.note(is_recoverable, spot.id, value_at(spot, rest));
        rest = behind_state(spot, rest);
    }
    rest.is_empty()
}

pub(crate) fn is_quiet(flight: Flight) -> bool
    ensures { result ≡ is_quiet flight }
{
    match flight {
        Flight::Quiet => true,
        Flight::Asked | Flight::Cancelled | Flight::Stopped => false,
    }
}

fn ended_flight(flight: Flight) -> Flight
    ensures { result ≡ ended_flight flight }
{
    match flight {
        Flight::Quiet | Flight::Asked | Flight::Stopped => Flight::Quiet,
        Flight::Cancelled => Flight::Cancelled,
    }
}

fn awaits_by(flight: Flight, awaits: bool) -> bool
    ensures { result ≡ awaits_by flight awaits }
{
    match flight {
        Flight::Quiet | Flight::Cancelled => awaits,
        Flight::Asked => false,
        Flight::Stopped => true,
    }
}

/// Whether all bytes of a token are kept.
fn is_kept(token: &Token, bytes: &[u8]) -> bool
    ensures { result ≡ is_kept_whole token.now bytes.now }
{
    token.length == bytes.len() as u64
}

impl Session {
    /// Nothing was said yet: the login's answer is due.
    pub(crate) fn new(alloc: Global) -> Result<Session, NoMemory>
        ensures { IfOk result (λ session. session ≡ session_at_login) }
    {
        Ok(Session {
            is_login: true,
            is_acknowledged: false,
            is_lost: false,
            is_recoverable: true,
            is_pinned: false,
            awaits: false,
            transaction: 0,
            owed: None,
            flight: Flight::Asked,
            asked: Asked::new(alloc)?,
            states: Values::new(alloc, STATES)?,
            changes: Values::new(alloc, CHANGES)?,
            handles: Handles::new(),
        })
    }

    /// A request begins, whose first packet asks for this reset.
    pub(crate) fn ask(&mut self, kind: Request, reset: Option<Reset>)
        ensures { self.new ≡ session_asked self.old kind reset }
    {
        self.is_login = false;
        self.is_pinned = !is_full(reset) && (self.is_pinned || self.asked.may_make_handles());
        self.owed = owed_by(reset, self.owed);
        self.handles
            .begin(is_full(reset), is_quiet(self.flight), self.asked.call());
        self.flight = Flight::Asked;
        self.asked.begin(kind);
    }

    pub(crate) fn send(&mut self, bytes: &[u8])
        ensures { self.new ≡ session_sent self.old bytes.now }
    {
        self.asked.take(bytes);
    }

    pub(crate) fn cancel(&mut self)
        ensures { self.new ≡ session_cancelled self.old }
    {
        self.is_pinned = self.asked.is_call() || self.is_pinned;
        self.flight = Flight::Cancelled;
    }

    /// A token of an answer has come, of which these bytes are kept.
    pub(crate) fn hear(&mut self, token: &Token, bytes: &[u8])
        ensures { self.new ≡ session_told self.old (state_news token.now bytes.now) }
    {
        match token.told {
            Told::Done(done) => self.hear_done(token.kind, done.status),
            Told::Change(change) => self.hear_change(change, token, bytes),
            Told::Message(_) => self.handles.fail_if(token.kind == ERROR),
            Told::ReturnStatus(_) => {}
            Told::SessionState(state) => self.hear_states(state, token, bytes),
            Told::Unclear => self.hear_unclear(token.kind),
            Told::Other => self.hear_other(token, bytes),
        }
    }

    /// A token whose fields don't fit.
    fn hear_unclear(&mut self, kind: u8)
        ensures { self.new ≡ session_told self.old (hearing.unclear_news kind) }
    {
        if kind == ENVCHANGE || kind == SESSIONSTATE {
            self.is_lost = true;
        } else {
            self.handles.fail_if(kind == ERROR);
        }
    }

    fn hear_other(&mut self, token: &Token, bytes: &[u8])
        ensures { self.new ≡ session_told self.old (hearing.other_news token.now bytes.now) }
    {
        if token.kind == FEATUREEXTACK {
            self.hear_features(token, bytes);
        } else if token.kind == RETURNVALUE {
            self.hear_returned(token, bytes);
        }
    }

    fn hear_returned(&mut self, token: &Token, bytes: &[u8])
        ensures { self.new ≡ session_told self.old (hearing.news_of_returned token.now bytes.now) }
    {
        let value = if is_kept(token, bytes) {
            returned_value(bytes)
        } else {
            None
        };
        self.handles.take(value);
    }

    pub(crate) fn hear_done(&mut self, kind: u8, status: u16)
        ensures { self.new ≡ session_told self.old (hearing.Done kind status) }
    {
        self.is_pinned = is_followed(kind, status) || self.is_pinned;
        self.flight = stopped_by(status / 32 % 2 == 1, self.flight);
        self.handles.fail_if(ends_in_error(status));
    }

    fn hear_change(&mut self, change: Change, token: &Token, bytes: &[u8])
        ensures { self.new ≡ session_told self.old
            (hearing.news_of_change change.value change.kind token.now bytes.now) }
    {
        match change.value {
            ChangeValue::Transaction { new, .. } => self.transaction = new,
            ChangeValue::ResetDone => self.hear_reset(),
            ChangeValue::PacketSize(_) | ChangeValue::Values { .. } | ChangeValue::Other => {
                self.hear_value(change.kind, token, bytes);
            }
        }
    }

    /// The reset that is owed is done.
    fn hear_reset(&mut self)
        ensures { self.new ≡ session_told self.old hearing.ResetDone }
    {
        let is_full = is_full(self.owed);
        self.is_recoverable = is_full || self.is_recoverable;
        self.is_pinned = keeps_open(self.owed) || self.is_pinned;
        self.transaction = left_by(is_full, self.transaction);
        self.owed = None;
        self.states.reset_if(is_full);
        self.changes.reset_if(is_full);
    }

    fn hear_value(&mut self, kind: u8, token: &Token, bytes: &[u8])
        ensures { self.new
            ≡ session_told self.old (hearing.news_of_value kind token.now bytes.now) }
    {
        if !has_value(kind) {
            return;
        }
        if !is_kept(token, bytes) {
            self.is_lost = true;
            return;
        }
        match new_value(kind, bytes) {
            Some(value) => self.take_value(kind, value),
            None => self.is_lost = true,
        }
    }

    fn take_value(&mut self, kind: u8, value: &[u8])
        requires { length value.now ≤ 65535 }
        ensures { self.new ≡ session_told self.old (hearing.Value kind value.now) }
    {
        let is_over = self.changes.take(self.is_login, kind, value);
        self.is_lost = is_over || self.is_lost;
    }

    fn hear_states(&mut self, state: SessionState, token: &Token, bytes: &[u8])
        ensures { self.new ≡ session_told self.old
            (hearing.news_of_states state.sequence state.is_recoverable token.now bytes.now) }
    {
        if !is_kept(token, bytes) || state.sequence == u32::MAX {
            self.is_lost = true;
            return;
        }
        self.take_states(state.is_recoverable, behind(bytes, 10));
    }

    fn take_states(&mut self, is_recoverable: bool, states: &[u8])
        ensures { self.new
            ≡ session_told self.old (hearing.States is_recoverable (states_listed states.now)) }
    {
        let is_whole = note_all(&mut self.states, is_recoverable, states);
        self.is_lost = !is_whole || self.is_lost;
        self.is_recoverable = is_recoverable;
    }

    fn hear_features(&mut self, token: &Token, bytes: &[u8])
        ensures { self.new ≡ session_told self.old (hearing.news_of_features token.now bytes.now) }
    {
        if !is_kept(token, bytes) {
            self.is_lost = true;
            return;
        }
        if let Some(states) = recovery(behind(bytes, 1)) {
            self.acknowledge(states);
        }
    }

    /// Session recovery is acknowledged, with these initial states.
    fn acknowledge(&mut self, states: &[u8])
        ensures { self.new ≡ session_told self.old (hearing.Recovery states.now) }
    {
        let is_first = self.is_login && !self.is_acknowledged;
        let begins = self.states.begin_if(is_first, states);
        self.is_acknowledged = begins || self.is_acknowledged;
        self.is_lost = !begins || self.is_lost;
    }

    /// Where an answer was due, it is whole.
    fn settle(&mut self, flight: Flight)
        ensures { self.new ≡ record self.old {
          handles
              = flight_settled flight (asked_call self.old.asked) self.old.handles;
        } }
    {
        match flight {
            Flight::Asked => self.handles.settle(self.asked.call()),
            Flight::Quiet | Flight::Cancelled | Flight::Stopped => {}
        }
    }

    /// A message of the server's has ended.
    pub(crate) fn end(&mut self)
        ensures { self.new ≡ session_ended self.old }
    {
        self.settle(self.flight);
        self.awaits = awaits_by(self.flight, self.awaits);
        self.flight = ended_flight(self.flight);
    }

    /// The server tells its states, and each is as the login found it.
    fn is_told_home(&self) -> bool
        ensures { result ≡ is_told_home self.now }
    {
        self.is_acknowledged
            && (!self.is_lost
                && (self.is_recoverable && (self.states.is_home() && self.changes.is_home())))
    }

    /// No transaction, no reset to come, no handle, nothing that isn't told.
    fn is_free(&self) -> bool
        ensures { result ≡ has_nothing_open self.now }
    {
        self.transaction == 0
            && (!is_owed(self.owed)
                && (!self.is_pinned
                    && (!self.asked.may_make_handles() && self.handles.are_closed())))
    }

    /// No answer is due, and nothing that belongs to the last request.
    fn is_done(&self) -> bool
        ensures { result ≡ has_nothing_due self.now }
    {
        is_quiet(self.flight) && (!self.awaits && self.asked.letters < 8)
    }

    pub(crate) fn rests(&self) -> bool
        ensures { result ≡ session_rests self.now }
    {
        self.is_told_home() && (self.is_free() && self.is_done())
    }
}
