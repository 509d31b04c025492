//! The turns of sockets: each sends what the system takes, and reads once.

use crate::program::{PIECE, Program};
use relay_groups::{Group, RelayState, relay_of};
use relay_logins::Groups;
use relay_sockets::{Came, RoleKind};
use std::io;
use std::net::Net;
use std::rt::Clock;
use tds_relay::Place;

/// The most turns of a socket in a round, behind which the system is asked what others have.
const TURNS: usize = 4;

/// Behind so many turns time limits are looked at: a round of thousands may take longer than from one look to the
/// next.
const LOOK: usize = 64;

impl Program {
    /// Each socket that has something to do has a turn, and further ones as long as it has more: so what a
    /// turn makes of another socket's costs no call of its own. None has more than a few, so that those who
    /// are reported meanwhile wait no longer than for that.
    pub fn take_turns<R: Net + Clock>(
        &mut self,
        rt: &R,
        buffer: &mut [u8; PIECE],
    ) -> io::Result<()> {
        for _ in 0..TURNS {
            let count = self.event_loop.state.sockets.begin_turns();
            if count == 0 {
                break;
            }
            for place in 0..count {
                if let Some(key) = self.event_loop.state.sockets.turn(place) {
                    self.turn(rt, key, buffer)?;
                }
                if place % LOOK == LOOK - 1 {
                    self.look_at_clock(rt)?;
                    self.look_at_limits(rt)?;
                }
            }
        }
        Ok(())
    }

    /// A socket's turn: it sends what the system takes, and reads once.
    fn turn<R: Net>(&mut self, rt: &R, key: usize, buffer: &mut [u8; PIECE]) -> io::Result<()> {
        let Some(socket) = self.event_loop.state.sockets.get_mut(key) else {
            return Ok(());
        };
        socket.link.listed = false;
        let has_to_send = socket.has_to_send();
        self.event_loop.state.sockets.touch(key);
        if has_to_send && !self.event_loop.state.send(key)? {
            return self.event_loop.closed(rt, key);
        }
        let (role_kind, came) = self.read(key, buffer);
        match came {
            Came::Nothing => Ok(()),
            Came::End => self.event_loop.has_shut(rt, key),
            Came::Failed => self.event_loop.closed(rt, key),
            Came::Bytes(count) => self.came(rt, key, role_kind, &buffer[..count.min(PIECE)]),
        }
    }

    /// Reads once of a socket, where more may be there and there is room for it. Answers the kind of its role, too.
    fn read(&mut self, key: usize, buffer: &mut [u8; PIECE]) -> (RoleKind, Came) {
        let RelayState {
            sockets,
            groups,
            ..
        } = &mut self.event_loop.state;
        let Some(socket) = sockets.get_mut(key) else {
            return (RoleKind::Closing, Came::Nothing);
        };
        let role_kind = socket.role_kind();
        if !socket.link.is_readable() {
            return (role_kind, Came::Nothing);
        }
        let room = room_for(groups, role_kind).min(PIECE);
        if room == 0 {
            return (role_kind, Came::Nothing);
        }
        (role_kind, socket.read(&mut buffer[..room]))
    }

    /// These bytes came on a socket that is this.
    fn came<R: Net>(
        &mut self,
        rt: &R,
        key: usize,
        role_kind: RoleKind,
        piece: &[u8],
    ) -> io::Result<()> {
        let RelayState {
            sockets,
            journal,
            ..
        } = &mut self.event_loop.state;
        if sockets.has_read(key)? {
            sockets.judge(key, piece, journal)?;
        }
        match role_kind {
            RoleKind::Application(group, application) => {
                self.polling.ask();
                self.event_loop.said(rt, key, group, application, piece)
            }
            RoleKind::Connection(group, number) => self
                .event_loop
                .heard(rt, key, group, number, piece),
            RoleKind::StatusClient => self.asked_for(rt, key, piece),
            _ => self.event_loop.came(rt, key, role_kind, piece),
        }
    }
}

/// How many bytes may be read of a socket that is this.
fn room_for(groups: &mut Groups<Group>, role_kind: RoleKind) -> usize {
    match role_kind {
        RoleKind::Handshake
        | RoleKind::Authenticating(_)
        | RoleKind::First(_)
        | RoleKind::Opening(..) => PIECE,
        RoleKind::StatusClient | RoleKind::Continuation(_) | RoleKind::Reauthentication(_) => PIECE,
        RoleKind::Owed | RoleKind::Names => PIECE,
        RoleKind::Application(group, key) => room_of(groups, group, key),
        RoleKind::Connection(group, number) => match relay_of(groups, group) {
            Some(relay) => relay.room_on(number),
            None => PIECE,
        },
        RoleKind::Closing => 0,
    }
}

/// How many bytes of an application may be read: none where its group is held and it holds nothing.
fn room_of(groups: &mut Groups<Group>, group: usize, key: usize) -> usize {
    let Some(group) = groups.get_mut(group) else {
        return PIECE;
    };
    let is_held = group.is_held();
    let Some(relay) = group.relay() else {
        return PIECE;
    };
    if is_held && matches!(relay.place_of(key), Some(Place::Quiet)) {
        return 0;
    }
    relay.room(key)
}
