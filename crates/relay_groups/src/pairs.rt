//! Logins that can't be shared: the two ends, which end together.

use crate::group::Pair;
use crate::state::RelayState;
use relay_logins::Taken;
use relay_sockets::{Role, RoleKind};
use std::io;

impl RelayState {
    /// The two ends of a group, where it isn't shared.
    pub fn pair_of(&self, group: usize) -> Option<Pair> {
        match self.groups.get(group) {
            Some(group) => group.pair,
            None => None,
        }
    }

    /// The two ends are none of each other's any more.
    pub fn unpair(&mut self, group: usize) {
        if let Some(group) = self.groups.get_mut(group) {
            group.pair = None;
        }
    }

    /// Bytes of a continuation came. Whether it is whole now: then the server goes on authenticating. None where the
    /// application is gone.
    pub fn take_continuation(&mut self, key: usize, group: usize, piece: &[u8]) -> Option<Taken> {
        let socket = self.sockets.get_mut(key)?;
        let taken = match &mut socket.role {
            Role::Continuation(_, continuation) => continuation.take(piece),
            _ => Taken::Wrong,
        };
        if matches!(taken, Taken::Whole) {
            socket.role = Role::Authenticating(group);
        }
        Some(taken)
    }

    /// A socket of this key has ended, which was this: the other end of a group that isn't shared ends with
    /// it. True where there was one.
    pub fn part(&mut self, role_kind: RoleKind, key: usize) -> io::Result<bool> {
        let group = match role_kind {
            RoleKind::Authenticating(group) | RoleKind::Continuation(group) => group,
            RoleKind::Application(group, _) | RoleKind::Connection(group, _) => group,
            _ => return Ok(false),
        };
        let Some(pair) = self.pair_of(group) else {
            return Ok(false);
        };
        let other = if pair.application == key {
            pair.connection
        } else {
            pair.application
        };
        self.unpair(group);
        let _ = self.take_out(other)?;
        self.forget(group);
        Ok(true)
    }

    /// An application that was this gets a last answer, and then it is closed: where it isn't in a group
    /// that is shared, its connection is closed now.
    pub fn let_go(&mut self, role_kind: RoleKind) -> io::Result<()> {
        let group = match role_kind {
            RoleKind::Authenticating(group)
            | RoleKind::Continuation(group)
            | RoleKind::Application(group, _) => group,
            _ => return Ok(()),
        };
        let Some(pair) = self.pair_of(group) else {
            return Ok(());
        };
        self.unpair(group);
        let _ = self.take_out(pair.connection)?;
        self.forget(group);
        Ok(())
    }
}
