//! What a connection's server keeps for its user.
ghost use Rattle.std.specs.Prelude.{◌≡◌, ◌≤◌, Some, None, if◌then◌else◌};
ghost use Rattle.tds_session.specs.Session.{new_session, value_of, with_value, can_begin, transacting, out_of_transaction, is_in_transaction, can_renew, renewed, after_reset, IsSession};

use std::marker::Model;
use tds_packet::Reset;

/// What a connection's server keeps for its user: the settings of the keys `a` to `z`, and the
/// descriptor of the transaction that it is in, 0 for none. Descriptors are given from 1 upwards,
/// and none of them twice. No call takes memory.
#[derive(Clone, Copy, Debug, PartialEq, Eq)]
pub struct Session {
    settings: [Option<i32>; 26],
    descriptor: u64,
    next_descriptor: u64,
}

impl Model for Session {
    ghost use Rattle.tds_session.specs.Session.{SessionState, IsSession};

    ghost Value = { SessionState };

    ghost view = { λ a. record {
      settings = a.settings;
      descriptor = a.descriptor;
      next_descriptor = a.next_descriptor;
    } };

    ghost invariant = { λ a. IsSession (record {
      settings = a.settings;
      descriptor = a.descriptor;
      next_descriptor = a.next_descriptor;
    }) };

    ghost inverse = { λ s. record {
      settings = s.settings;
      descriptor = s.descriptor;
      next_descriptor = s.next_descriptor;
    } };
}

impl Session {
    /// The session that a connection begins with: no settings, no transaction.
    pub fn new() -> Session
        ensures { result ≡ new_session }
    {
        Session {
            settings: [None; 26],
            descriptor: 0,
            next_descriptor: 1,
        }
    }

    /// The descriptor of the transaction, or 0 outside one.
    pub fn descriptor(&self) -> u64
        ensures value { result ≡ self.now.descriptor }
        ensures session { IsSession self.now }
    {
        self.descriptor
    }

    /// The same session, to work on.
    pub(crate) fn draft(&self) -> Session
        ensures value { result ≡ self.now }
        ensures session { IsSession self.now }
    {
        Session {
            settings: self.settings,
            descriptor: self.descriptor,
            next_descriptor: self.next_descriptor,
        }
    }

    /// The values of the keys `a` to `z`, in their order.
    pub fn settings(&self) -> [Option<i32>; 26]
        ensures { result ≡ self.now.settings }
    {
        self.settings
    }

    /// The value of a key from `a` to `z`, or 0 where it is unset.
    pub fn get(&self, key: u8) -> i32
        requires least { 97 ≤ key }
        requires most { key ≤ 122 }
        ensures { result ≡ value_of self.now key }
    {
        self.settings[usize::from(key - b'a')].unwrap_or(0)
    }

    /// Gives a key from `a` to `z` a value.
    pub fn set(&mut self, key: u8, value: i32)
        requires least { 97 ≤ key }
        requires most { key ≤ 122 }
        ensures { self.new ≡ with_value key value self.old }
    {
        self.settings[usize::from(key - b'a')] = Some(value);
    }

    /// Begins a transaction and answers its descriptor. Inside a transaction, and where the
    /// descriptors are used up, it answers None and changes nothing.
    pub fn begin(&mut self) -> Option<u64>
        ensures answer { result ≡
            (if can_begin self.old then Some self.old.next_descriptor else None) }
        ensures after { self.new ≡ (if can_begin self.old then transacting self.old else self.old) }
    {
        if self.descriptor != 0 || self.next_descriptor == u64::MAX {
            return None;
        }
        self.descriptor = self.next_descriptor;
        self.next_descriptor += 1;
        Some(self.descriptor)
    }

    /// Ends the transaction and answers its descriptor. Outside one it answers None and changes
    /// nothing.
    pub fn end(&mut self) -> Option<u64>
        ensures answer { result ≡
            (if is_in_transaction self.old then Some self.old.descriptor else None) }
        ensures after { self.new ≡ out_of_transaction self.old }
    {
        if self.descriptor == 0 {
            return None;
        }
        let descriptor = self.descriptor;
        self.descriptor = 0;
        Some(descriptor)
    }

    /// Ends the transaction and begins the next one, in one change, and answers the descriptors
    /// ended and begun. Outside a transaction, and where the descriptors are used up, it answers
    /// None and changes nothing.
    pub fn renew(&mut self) -> Option<(u64, u64)>
        ensures answer { result ≡ (if can_renew self.old
            then Some (self.old.descriptor, self.old.next_descriptor) else None) }
        ensures after { self.new ≡ (if can_renew self.old then renewed self.old else self.old) }
    {
        if self.descriptor == 0 || self.next_descriptor == u64::MAX {
            return None;
        }
        let ended = self.descriptor;
        let begun = self.next_descriptor;
        self.descriptor = begun;
        self.next_descriptor = begun + 1;
        Some((ended, begun))
    }

    /// Resets the session (MS-TDS 2.2.3.1.2): its settings are gone, and after a full reset its
    /// transaction too. The next descriptor stays.
    pub fn reset(&mut self, reset: Reset)
        ensures { self.new ≡ after_reset reset self.old }
    {
        self.settings = [None; 26];
        match reset {
            Reset::Full => self.descriptor = 0,
            Reset::KeepTransaction => {}
        }
    }
}
