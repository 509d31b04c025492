//! Which applications rest, so that they may be parted from their connections.

use crate::group::Group;
use crate::resting::Rest;
use crate::state::{RelayState, relay_of};
use crate::watched::is_held;
use relay_logins::Groups;
use relay_sockets::{RoleKind, Sockets};
use relay_status::Done;
use std::alloc::AllocError;
use std::io;
use tds_relay::{Mode, PlaceOn};

/// What came of trying to part one that rests.
#[derive(Clone, Copy)]
pub enum Parting {
    /// There is none.
    Nobody,
    /// It has its connection still.
    Refused,
    /// It is parted.
    Done,
}

impl RelayState {
    /// An answer came on a connection of a group: it may rest by now, which is noted. Whether it does is looked at
    /// where somebody waits: that takes longer.
    pub fn note_rest(&mut self, key: usize, group: usize, number: u64) -> io::Result<()> {
        let RelayState {
            sockets,
            groups,
            ..
        } = self;
        let Some(socket) = sockets.get_mut(key) else {
            return Ok(());
        };
        let Some(group) = groups.get_mut(group) else {
            return Ok(());
        };
        if !is_held(group, number) {
            return Ok(());
        }
        socket.may_rest(group.resting.add(key)?);
        if group.resting.is_long(group.connections()) {
            put_in_order(sockets, group)?;
        }
        Ok(())
    }

    /// Parts an application from its connection where it rests, though nobody waits. Of which group it is, then.
    pub fn park_one(&mut self, key: usize) -> io::Result<Option<usize>> {
        let RelayState {
            sockets,
            groups,
            ..
        } = self;
        let Some(socket) = sockets.get(key) else {
            return Ok(None);
        };
        let RoleKind::Application(group, application) = socket.role_kind() else {
            return Ok(None);
        };
        let Some(relay) = relay_of(groups, group) else {
            return Ok(None);
        };
        let Some(connection) = relay.held_tag(application) else {
            return Ok(None);
        };
        let rests = match sockets.get(connection) {
            Some(socket) => socket.rests() == Some(true),
            None => false,
        };
        if !rests || !relay.park(application)? {
            return Ok(None);
        }
        if let Some(group) = groups.get_mut(group) {
            group.partings = group.partings.saturating_add(1);
        }
        Ok(Some(group))
    }

    pub fn partings_of(&self, group: usize) -> u64 {
        match self.groups.get(group) {
            Some(group) => group.partings,
            None => 0,
        }
    }

    /// Whether more of a group wait than there are connections that are cleaned for them.
    pub fn is_short(&mut self, group: usize) -> bool {
        let Some(group) = self.groups.get_mut(group) else {
            return false;
        };
        if group.mode == Mode::Sessions || group.waiting().is_empty() || group.is_paused() {
            return false;
        }
        let waiting = group.waiting().len();
        waiting > group.count_parted()
    }

    /// Tries the one of a group that has rested longest.
    pub fn park_next(&mut self, group: usize) -> io::Result<Parting> {
        let RelayState {
            sockets,
            groups,
            ..
        } = self;
        let Some((key, number, application)) = longest_resting(sockets, groups, group) else {
            return Ok(Parting::Nobody);
        };
        let Some(relay) = relay_of(groups, group) else {
            return Ok(Parting::Nobody);
        };
        let holder = relay.holder_tag(number);
        if !relay.park(application)? {
            self.rest_again(key, group)?;
            return Ok(Parting::Refused);
        }
        if let Some(holder) = holder {
            sockets.touch(holder);
        }
        self.is_parted(group, number)?;
        Ok(Parting::Done)
    }

    /// An application of a group was parted from the connection of this number.
    fn is_parted(&mut self, group: usize, number: u64) -> Result<(), AllocError> {
        if let Some(group) = self.groups.get_mut(group) {
            group.partings = group.partings.saturating_add(1);
            group.parted.push(number)?;
        }
        Ok(())
    }

    /// A connection that couldn't be had is tried again behind the others.
    fn rest_again(&mut self, key: usize, group: usize) -> Result<(), AllocError> {
        let RelayState {
            sockets,
            groups,
            ..
        } = self;
        if let (Some(socket), Some(group)) = (sockets.get_mut(key), groups.get_mut(group)) {
            socket.may_rest(group.resting.add(key)?);
        }
        Ok(())
    }
}

/// Those that have ended are forgotten.
fn put_in_order(sockets: &Sockets, group: &mut Group) -> Result<(), AllocError> {
    for rest in group.resting.take_all()?.iter() {
        if number_at(sockets, rest).is_some() {
            group.resting.put_back(*rest)?;
        }
    }
    Ok(())
}

/// The number of the connection that has this rest, where it rests still.
fn number_at(sockets: &Sockets, rest: &Rest) -> Option<u64> {
    let socket = sockets.get(rest.key)?;
    let connection = socket.connection()?;
    if connection.rest == rest.number && socket.rests() == Some(true) {
        Some(connection.number)
    } else {
        None
    }
}

/// The connection of a group that has rested longest: its socket, its number, and who holds it. Rests that have
/// ended are passed.
fn longest_resting(
    sockets: &Sockets,
    groups: &mut Groups<Group>,
    key: usize,
) -> Option<(usize, u64, usize)> {
    let group = groups.get_mut(key)?;
    for _ in 0..group.resting.len() {
        let rest = group.resting.take()?;
        let Some(number) = number_at(sockets, &rest) else {
            continue;
        };
        let relay = group.relay()?;
        if let Some(PlaceOn::Held(application)) = relay.place_on(number) {
            return Some((rest.key, number, application));
        }
    }
    None
}
