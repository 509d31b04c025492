//! Which connections of a group are watched, and what keeps them from resting while somebody comes to wait.

use crate::group::Group;
use crate::state::RelayState;
use relay_sockets::{RoleKind, Sockets};
use std::alloc::{AllocError, Global};
use tds_relay::PlaceOn;

/// A group's reasons are counted once in so many milliseconds at most: each costs a look at all its connections.
const APART: u64 = 10;

/// What of a group is watched.
#[derive(Drop)]
pub struct Watched {
    /// The sockets of its connections, and of some that have ended.
    keys: Vec<usize>,
    /// How many waited when that was seen last.
    waiting: usize,
    /// The millisecond in which reasons were counted last.
    counted: u64,
}

impl Watched {
    pub fn new(alloc: Global) -> Watched {
        Watched {
            keys: Vec::new(alloc),
            waiting: 0,
            counted: 0,
        }
    }

    /// One more is watched. Those that have ended are forgotten.
    pub fn add(&mut self, sockets: &Sockets, key: usize) -> Result<(), AllocError> {
        let mut kept: usize = 0;
        for place in 0..self.keys.len() {
            let Some(other) = self.keys.get(place).copied() else {
                break;
            };
            if sockets.get(other).is_some() {
                if let Some(first) = self.keys.get_mut(kept) {
                    *first = other;
                }
                kept = kept.saturating_add(1);
            }
        }
        self.keys.truncate(kept);
        self.keys.push(key)?;
        Ok(())
    }

    /// Nobody waits.
    pub fn forget_waiting(&mut self) {
        self.waiting = 0;
    }

    /// Whether more wait than did, and reasons weren't counted just now.
    fn has_grown(&mut self, waiting: usize, now: u64) -> bool {
        let before = self.waiting;
        self.waiting = waiting;
        if waiting <= before || now < self.counted.saturating_add(APART) {
            return false;
        }
        self.counted = now;
        true
    }
}

impl RelayState {
    /// Counts why each connection of a group that is held doesn't rest, where somebody has come to wait.
    pub fn count_kept(&mut self, group: usize) {
        let RelayState {
            sockets,
            groups,
            journal,
            ..
        } = self;
        let Some(group) = groups.get_mut(group) else {
            return;
        };
        let waiting = group.waiting().len();
        if !group.watched.has_grown(waiting, journal.moment.millis) {
            return;
        }
        for place in 0..group.watched.keys.len() {
            let Some(key) = group.watched.keys.get(place).copied() else {
                break;
            };
            let Some(socket) = sockets.get(key) else {
                continue;
            };
            let RoleKind::Connection(_, number) = socket.role_kind() else {
                continue;
            };
            if !is_held(group, number) {
                continue;
            }
            if let Some(reason) = socket.why() {
                journal.counts.kept.add(reason);
            }
        }
    }
}

/// Whether an application holds the connection of this number.
pub(crate) fn is_held(group: &mut Group, number: u64) -> bool {
    match group.relay() {
        Some(relay) => matches!(relay.place_on(number), Some(PlaceOn::Held(_))),
        None => false,
    }
}
