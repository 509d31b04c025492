//! Free connections of a group are checked: each is reset anew, which a server must answer in time.

use crate::state::{RelayState, relay_of};
use relay_sockets::{RoleKind, Sockets};
use std::alloc::{AllocError, Global};
use std::io;
use tds_relay::{PlaceOn, Relay};

/// What the core calls an application that there is none of: no socket has this key.
const NOBODY: usize = usize::MAX - 3;

/// The header of a batch's first packet, which isn't the last one (MS-TDS 2.2.3.1). It goes nowhere.
const BEGUN: [u8; 8] = [1, 0, 0, 16, 0, 0, 1, 0];

impl RelayState {
    /// Whether a group wasn't checked for so many milliseconds. Then it is from now on.
    pub fn is_due(&mut self, key: usize, limit: u64) -> bool {
        let now = self.now();
        let Some(group) = self.groups.get_mut(key) else {
            return false;
        };
        if group.is_paused() || now.saturating_sub(group.checked) <= limit {
            return false;
        }
        group.checked = now;
        true
    }

    /// Checks the free connections of a group: each is lent to nobody, and so cleaned behind that. False where there is
    /// no such group.
    pub fn lend_to_nobody(&mut self, group: usize) -> io::Result<bool> {
        let count = self.free_in(group)?;
        let Some(checked) = self.groups.get_mut(group) else {
            return Ok(false);
        };
        let checks = match checked.relay() {
            Some(relay) => lend(relay, count)?,
            None => 0,
        };
        checked.checks = checked.checks.saturating_add(checks);
        Ok(true)
    }

    /// How many connections of a group are free. Each is noted to be checked.
    fn free_in(&mut self, group: usize) -> Result<usize, AllocError> {
        let alloc = self.alloc;
        let RelayState {
            sockets,
            groups,
            ..
        } = self;
        let Some(relay) = relay_of(groups, group) else {
            return Ok(0);
        };
        let keys = free_keys(alloc, sockets, relay, group)?;
        for key in keys.iter() {
            if let Some(socket) = sockets.get_mut(*key) {
                socket.is_checked();
            }
        }
        Ok(keys.len())
    }
}

/// Lends so many connections to nobody. How many requests of the core's count that makes.
fn lend(relay: &mut Relay, count: usize) -> Result<u64, AllocError> {
    let before = relay.counts().requests;
    for _ in 0..count {
        let nobody = relay.enter(NOBODY)?;
        relay.said(nobody, &BEGUN)?;
        relay.left(nobody)?;
    }
    Ok(relay.counts().requests.saturating_sub(before))
}

/// The sockets of a group's free connections.
fn free_keys(
    alloc: Global,
    sockets: &Sockets,
    relay: &Relay,
    group: usize,
) -> Result<Vec<usize>, AllocError> {
    let mut keys = Vec::new(alloc);
    for (_, entry) in sockets.iter() {
        if let RoleKind::Connection(of, number) = entry.value.role_kind() {
            if of == group && relay.place_on(number) == Some(PlaceOn::Free) {
                keys.push(entry.key)?;
            }
        }
    }
    Ok(keys)
}
