//! How many connections there are, and which one is free for longest.

use crate::group::Group;
use crate::state::{RelayState, relay_of};
use relay_logins::Groups;
use relay_sockets::{RoleKind, Sockets};
use tds_relay::PlaceOn;

impl RelayState {
    /// How many connections all groups have together, those too that are being opened.
    pub fn count_all(&self) -> usize {
        count_all(&self.groups)
    }

    /// Whether somebody waits for a connection that isn't open yet.
    pub fn is_wanted(&mut self, group: usize, number: u64) -> bool {
        is_wanted(&mut self.groups, group, number)
    }

    /// The free connection that has been one for longest.
    pub fn longest_free(&mut self) -> Option<usize> {
        let RelayState {
            sockets,
            groups,
            ..
        } = self;
        longest_free(sockets, groups)
    }
}

/// How many connections all groups have together, those too that are being opened.
fn count_all(groups: &Groups<Group>) -> usize {
    let mut count: usize = 0;
    for (_, entry) in groups.iter() {
        let group = &entry.value.inner;
        let more = if group.is_authenticating() {
            1
        } else {
            group.connections()
        };
        count = count.saturating_add(more);
    }
    count
}

/// Whether somebody waits for a connection that isn't open yet.
fn is_wanted(groups: &mut Groups<Group>, group: usize, number: u64) -> bool {
    let Some(relay) = relay_of(groups, group) else {
        return false;
    };
    match relay.place_on(number) {
        Some(PlaceOn::Opening) => relay.holder_tag(number).is_some() || relay.waiting() > 0,
        _ => false,
    }
}

/// The free connection that has been one for longest.
fn longest_free(sockets: &Sockets, groups: &mut Groups<Group>) -> Option<usize> {
    let (mut found, mut since) = (None, u64::MAX);
    for (_, entry) in sockets.iter() {
        let socket = &entry.value;
        if let RoleKind::Connection(group, number) = socket.role_kind() {
            if socket.seen.since < since && is_free(groups, group, number) {
                found = Some(entry.key);
                since = socket.seen.since;
            }
        }
    }
    found
}

fn is_free(groups: &mut Groups<Group>, group: usize, number: u64) -> bool {
    match relay_of(groups, group) {
        Some(relay) => relay.place_on(number) == Some(PlaceOn::Free),
        None => false,
    }
}
