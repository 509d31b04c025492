//! All sockets and groups, and what is told of them.

use crate::group::Group;
use relay_logins::Groups;
use relay_sockets::Sockets;
use relay_status::Journal;
use std::alloc::{AllocError, Global};

/// All sockets and groups, and what is told of them.
#[derive(Drop)]
pub struct RelayState {
    pub alloc: Global,
    pub sockets: Sockets,
    pub groups: Groups<Group>,
    pub journal: Journal,
}

impl RelayState {
    /// The millisecond of this round.
    pub fn now(&self) -> u64 {
        self.journal.moment.millis
    }

    /// The keys of all groups.
    pub fn group_keys(&self) -> Result<Vec<usize>, AllocError> {
        let mut keys = Vec::new(self.alloc);
        for (_, entry) in self.groups.iter() {
            keys.push(entry.key)?;
        }
        Ok(keys)
    }

    /// The keys of the sockets that belong to a group.
    pub fn keys_of(&self, group: usize) -> Result<Vec<usize>, AllocError> {
        let mut keys = Vec::new(self.alloc);
        for (_, entry) in self.sockets.iter() {
            if entry.value.group() == Some(group) {
                keys.push(entry.key)?;
            }
        }
        Ok(keys)
    }
}

/// The relay of a group, once there is one.
pub fn relay_of(groups: &mut Groups<Group>, group: usize) -> Option<&mut tds_relay::Relay> {
    groups.get_mut(group)?.relay()
}
