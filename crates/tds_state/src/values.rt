//! Values by their numbers: of states, and of what ENVCHANGE tells.

ghost use Rattle.std.specs.Prelude.{◌≡◌, ◌≤◌, ◌&&◌, not, Bool, true, IfOk, length};
ghost use Rattle.std.specs.List.{list_any};
ghost use Rattle.tds_state.specs.Ledgers.{back_if, begun_if, first_astray, first_set, is_home, may_add, may_begin, no_values, value_noted, value_taken_in};
ghost use Rattle.tds_state.specs.States.{states_listed};

use crate::NoMemory;
use crate::kept::Kept;
use crate::states::{behind_state, gives_value, spot_at};
use std::alloc::Global;
use std::marker::Model;

/// The values that a login began with, and of which numbers the newest telling is another one.
#[derive(Drop)]
pub struct Values {
    /// As SESSIONSTATE spells states (MS-TDS 2.2.7.21).
    initial: Kept,
    astray: [bool; 256],
    /// Whether none is known to be astray.
    is_calm: bool,
}

impl Model for Values {
    ghost use Rattle.tds_state.specs.Ledgers.{IsLedger, Ledger, ledger_of};

    ghost Value = { Ledger };

    ghost view = { ledger_of };

    ghost invariant = { IsLedger };
}

/// Whether bytes are states and nothing else.
fn is_listed(bytes: &[u8]) -> bool
    ensures { result ≡ (states_listed bytes.now).is_whole }
{
    let mut rest = bytes;
    'states: while let Some(spot) = spot_at(rest) {
        rest = behind_state(spot, rest);
    }
    rest.is_empty()
}

/// Whether one of these is set.
fn has_any(flags: &[bool]) -> bool
    ensures { result ≡ list_any (λ (b : Bool). b) flags.now }
{
    let mut rest = flags;
    'flags: while let [flag, behind @ ..] = rest {
        if *flag {
            return true;
        }
        rest = behind;
    }
    false
}

/// The place of the first one of these that is set.
fn first_set(flags: &[bool]) -> Option<usize>
    ensures { result ≡ first_set 0 flags.now }
{
    let mut at = 0;
    'flags: while at < flags.len() {
        if flags[at] {
            return Some(at);
        }
        at += 1;
    }
    None
}

impl Values {
    /// None is known, and there is room for so many bytes.
    pub(crate) fn new(alloc: Global, most: usize) -> Result<Values, NoMemory>
        ensures { IfOk result (λ values. values ≡ no_values most) }
    {
        Ok(Values {
            initial: Kept::new(alloc, most)?,
            astray: [false; 256],
            is_calm: true,
        })
    }

    /// Begins with these states, if it may: whether that could be.
    pub(crate) fn begin_if(&mut self, may: bool, states: &[u8]) -> bool
        ensures begins { result ≡ (may && may_begin self.old states.now) }
        ensures values { self.new ≡ begun_if may self.old states.now }
    {
        let begins = may && (self.initial.could_keep(states.len()) && is_listed(states));
        if begins {
            self.initial.clear();
            self.initial.keep(states);
        }
        begins
    }

    /// Begins with this value beside the others, where there is room: whether there is none.
    fn add(&mut self, id: u8, value: &[u8]) -> bool
        requires { length value.now ≤ 65535 }
        ensures over { result ≡ not (may_add self.old value.now) }
        ensures values { self.new ≡ value_taken_in true self.old id value.now }
    {
        let has_room = self.initial.has_room(6 + value.len());
        if has_room {
            let [a, b, c, d] = (value.len() as u32).to_le_bytes();
            self.initial.keep(&[id, 0xff, a, b, c, d]);
            self.initial.keep(value);
        }
        !has_room
    }

    /// This value is told, at the login or later: whether there is no room for it.
    pub(crate) fn take(&mut self, is_login: bool, id: u8, value: &[u8]) -> bool
        requires { length value.now ≤ 65535 }
        ensures over { result ≡ (is_login && not (may_add self.old value.now)) }
        ensures values { self.new ≡ value_taken_in is_login self.old id value.now }
    {
        if is_login {
            self.add(id, value)
        } else {
            self.note(true, id, value);
            false
        }
    }

    /// This value is told.
    pub(crate) fn note(&mut self, is_recoverable: bool, id: u8, value: &[u8])
        ensures { self.new ≡ value_noted self.old is_recoverable id value.now }
    {
        let is_home = is_recoverable && gives_value(self.initial.bytes(), id, value);
        self.astray[usize::from(id)] = !is_home;
        self.is_calm = self.is_calm && is_home;
    }

    /// Behind a full reset, each has its initial value again.
    pub(crate) fn reset_if(&mut self, is_full: bool)
        ensures { self.new ≡ back_if is_full self.old }
    {
        if is_full {
            self.astray = [false; 256];
            self.is_calm = true;
        }
    }

    /// Whether each that was told has its initial value.
    pub(crate) fn is_home(&self) -> bool
        ensures { result ≡ is_home self.now }
    {
        if self.is_calm {
            return true;
        }
        !has_any(&self.astray)
    }

    /// The lowest number that was told and hasn't.
    pub(crate) fn first_astray(&self) -> Option<usize>
        ensures { result ≡ first_astray self.now }
    {
        first_set(&self.astray)
    }
}
