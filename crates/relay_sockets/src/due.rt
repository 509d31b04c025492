//! When each socket is to be looked at: where something has happened on it, or a limit of its may have run out.
//!
//! What a socket is at changes in its own turn, by what is put for it or taken from where it reads, or by an order: each
//! has it looked at. Who waits goes on waiting since he did, whatever for.

use crate::sockets::Sockets;
use relay_logins::place_of;
use std::alloc::{AllocError, Global};

/// No socket's key.
const NONE: usize = usize::MAX;

/// When the socket that stands at a place is looked at.
#[derive(Clone, Copy)]
struct Due {
    key: usize,
    /// From this millisecond on.
    at: u64,
}

const EMPTY: Due = Due {
    key: NONE,
    at: u64::MAX,
};

/// When each socket is to be looked at, by its place in the table.
#[derive(Drop)]
pub(crate) struct Dues {
    dues: Vec<Due>,
    /// None is to be looked at before this millisecond.
    next: u64,
}

impl Dues {
    pub(crate) fn new(alloc: Global) -> Dues {
        Dues {
            dues: Vec::new(alloc),
            next: u64::MAX,
        }
    }

    /// There is a socket of this key at this place, which is to be looked at.
    pub(crate) fn add(&mut self, place: usize, key: usize) -> Result<(), AllocError> {
        let missing = place.saturating_add(1).saturating_sub(self.dues.len());
        for _ in 0..missing {
            self.dues.push(EMPTY)?;
        }
        if let Some(due) = self.dues.get_mut(place) {
            *due = Due { key, at: 0 };
        }
        self.next = 0;
        Ok(())
    }

    /// The socket at this place is there no more.
    pub(crate) fn remove(&mut self, place: usize) {
        if let Some(due) = self.dues.get_mut(place) {
            *due = EMPTY;
        }
    }

    /// The socket of this key, where it is at this place, is to be looked at from this millisecond on.
    pub(crate) fn set(&mut self, place: usize, key: usize, at: u64) {
        match self.dues.get_mut(place) {
            Some(due) if due.key == key => due.at = at,
            _ => return,
        }
        self.next = self.next.min(at);
    }

    /// All are to be looked at.
    pub(crate) fn set_all(&mut self) {
        for due in self.dues.iter_mut() {
            if due.key != NONE {
                due.at = 0;
            }
        }
        self.next = 0;
    }

    /// Begins to go through those that are to be looked at in this millisecond. False where there is none.
    pub(crate) fn begin(&mut self, now: u64) -> bool {
        let is_due = self.next <= now;
        if is_due {
            self.next = u64::MAX;
        }
        is_due
    }

    /// The first one from this place on that is to be looked at in this millisecond: the place behind it, and its
    /// key. Of the others it is noted when they are.
    pub(crate) fn first(&mut self, from: usize, now: u64) -> Option<(usize, usize)> {
        for place in from..self.dues.len() {
            let due = *self.dues.get(place)?;
            if due.at <= now {
                return Some((place.saturating_add(1), due.key));
            }
            self.next = self.next.min(due.at);
        }
        None
    }

    /// How many places there are.
    pub(crate) fn len(&self) -> usize {
        self.dues.len()
    }
}

impl Sockets {
    /// A socket is to be looked at from this millisecond on, or as soon as something happens on it.
    pub fn look_again(&mut self, key: usize, at: u64) {
        self.dues.set(place_of(key), key, at);
    }

    /// Something has happened on a socket: it is to be looked at.
    pub fn touch(&mut self, key: usize) {
        self.look_again(key, 0);
    }

    /// All are to be looked at.
    pub fn touch_all(&mut self) {
        self.dues.set_all();
    }

    /// None is to be looked at before this millisecond.
    pub fn next_look(&self) -> u64 {
        self.dues.next
    }

    /// How many places sockets have.
    pub fn places(&self) -> usize {
        self.dues.len()
    }

    /// Begins to go through those that are to be looked at in this millisecond. False where there is none.
    pub fn begin_looks(&mut self, now: u64) -> bool {
        self.dues.begin(now)
    }

    /// The first one from this place on that is to be looked at in this millisecond: the place behind it, and its
    /// key.
    pub fn first_due(&mut self, from: usize, now: u64) -> Option<(usize, usize)> {
        self.dues.first(from, now)
    }
}
