//! The first login of a group, and who waits until it is authenticated.

use crate::group::Stage;
use crate::state::RelayState;
use relay_sockets::RoleKind;
use std::{io, mem};
use tds_packet::PacketSize;

impl RelayState {
    /// A group gets its relay, with this connection, whose number is answered. One that is shared may have so many.
    pub fn begin_relay(
        &mut self,
        key: usize,
        group: usize,
        size: PacketSize,
        answer: Vec<u8>,
        most: usize,
    ) -> io::Result<Option<u64>> {
        let alloc = self.alloc;
        self.watch_in(key, group, &answer)?;
        let Some(found) = self.groups.get_mut(group) else {
            return Ok(None);
        };
        let most = if found.pair.is_some() { 1 } else { most };
        found.open(alloc, most, size, answer)?;
        let brought = match found.relay() {
            Some(relay) => relay.bring(key)?,
            None => None,
        };
        if brought.is_some() {
            found.first = brought;
        }
        Ok(brought)
    }

    /// Those who waited for a group's first connection are authenticated. Where it isn't shared, its login is forgotten.
    /// Whether nobody is left of it then, so that it ends.
    pub fn end_authenticating(&mut self, group: usize) -> bool {
        let is_alone = !self.groups.is_joined(group);
        if is_alone {
            self.groups.forget_login(group);
        }
        let mut is_left = false;
        if let Some(group) = self.groups.get_mut(group) {
            is_left = group.applications() == 0;
            if is_alone {
                group.forget_answer();
            }
        }
        is_alone && is_left
    }

    /// Who waits until a group's first login is authenticated. None does then.
    pub fn take_authenticating(&mut self, group: usize) -> Vec<usize> {
        let alloc = self.alloc;
        match self.groups.get_mut(group) {
            Some(group) => match &mut group.stage {
                Stage::Authenticating(those) => mem::replace(those, Vec::new(alloc)),
                Stage::Open(..) => Vec::new(alloc),
            },
            None => Vec::new(alloc),
        }
    }

    /// Whether an application still waits until a group's first login is authenticated.
    pub fn has_authenticating(&self, group: usize) -> bool {
        let Some(found) = self.groups.get(group) else {
            return false;
        };
        if let Stage::Authenticating(waiting) = &found.stage {
            for key in waiting.iter() {
                if self.is_authenticating(*key, group) {
                    return true;
                }
            }
        }
        false
    }

    /// Whether a socket is still an application that waits until this one's is.
    pub fn is_authenticating(&self, key: usize, group: usize) -> bool {
        match self.sockets.get(key) {
            Some(socket) => match socket.role_kind() {
                RoleKind::Authenticating(of) | RoleKind::Continuation(of) => of == group,
                _ => false,
            },
            None => false,
        }
    }

    /// The first login of a group was neither authenticated nor refused: those who wait for that are told why.
    pub fn not_authenticated(&mut self, group: usize, why: &str) -> io::Result<()> {
        let waiting = self.take_authenticating(group);
        let _ = self.groups.try_remove(group).is_some();
        for key in waiting.iter() {
            if self.is_authenticating(*key, group) {
                self.put_refusal(*key, why)?;
            }
        }
        Ok(())
    }

    /// Who waits until a group's first login is authenticated waits for a server from now on. False where there is no
    /// such group.
    pub fn begin_waiting(&mut self, group: usize) -> bool {
        match self.groups.get_mut(group) {
            Some(group) if group.is_authenticating() => group.is_unreached = true,
            _ => return false,
        }
        self.sockets.touch_all();
        true
    }

    /// Whether others may join a group whose login no server was asked about for so many milliseconds. Then it counts
    /// as asked now.
    pub fn is_to_authenticate(&mut self, key: usize, limit: u64) -> bool {
        let now = self.now();
        let is_joined = self.groups.is_joined(key);
        let Some(group) = self.groups.get_mut(key) else {
            return false;
        };
        if !is_joined
            || group.is_authenticating()
            || now.saturating_sub(group.authenticated) <= limit
        {
            return false;
        }
        group.authenticated = now;
        true
    }
}
