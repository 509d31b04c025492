//! What waits for a socket is sent.

use crate::group::Group;
use crate::state::{RelayState, relay_of};
use relay_logins::Groups;
use relay_sockets::{Cause, Failed, RoleKind, Socket};
use relay_status::Done;
use std::alloc::AllocError;
use tds_judge::Finding;
use tds_relay::Relay;

/// What came of sending.
#[derive(Clone, Copy)]
enum Sent {
    /// Nothing else is to be done.
    Done,
    /// This socket may be read again.
    Room(usize),
    /// All is sent, and it is to be closed.
    All,
}

impl RelayState {
    /// Sends what the system takes of what waits for a socket. False where it failed, or is to be closed
    /// and has nothing to be sent any more: then it says why it ends.
    pub fn send(&mut self, key: usize) -> Result<bool, AllocError> {
        let RelayState {
            sockets,
            groups,
            journal,
            ..
        } = self;
        let Some((socket, findings)) = sockets.get_judged(key) else {
            return Ok(true);
        };
        let sent = send_to(socket, groups, journal.moment.micros, findings);
        let goes_on = match sent {
            Ok(Sent::All) => {
                socket.cause = Some(Cause::Own);
                false
            }
            Err(Failed) => false,
            Ok(_) => true,
        };
        sockets.tell_findings(key, journal);
        sockets.touch(key);
        if let Ok(Sent::Room(partner)) = sent {
            sockets.touch(partner);
            sockets.read_on(partner)?;
        }
        Ok(goes_on)
    }
}

/// Sends it.
fn send_to(
    socket: &mut Socket,
    groups: &mut Groups<Group>,
    time: u64,
    findings: &mut Vec<Finding>,
) -> Result<Sent, Failed> {
    if !socket.send_out(time, findings)? {
        return Ok(Sent::Done);
    }
    match socket.role_kind() {
        RoleKind::Application(group, key) => match relay_of(groups, group) {
            Some(relay) => send_application(socket, relay, key, time, findings),
            None => Ok(Sent::Done),
        },
        RoleKind::Connection(group, number) => match relay_of(groups, group) {
            Some(relay) => send_on(socket, relay, number, time, findings),
            None => Ok(Sent::Done),
        },
        RoleKind::Closing => Ok(Sent::All),
        RoleKind::Handshake | RoleKind::Authenticating(_) | RoleKind::Continuation(_) => Ok(
            Sent::Done,
        ),
        RoleKind::First(_) | RoleKind::Opening(..) | RoleKind::StatusClient => Ok(Sent::Done),
        RoleKind::Reauthentication(_) | RoleKind::Owed | RoleKind::Names => Ok(Sent::Done),
    }
}

/// Sends what waits for an application.
fn send_application(
    socket: &mut Socket,
    relay: &mut Relay,
    key: usize,
    time: u64,
    findings: &mut Vec<Finding>,
) -> Result<Sent, Failed> {
    let bytes = relay.unsent(key);
    let most = bytes.len();
    if most == 0 {
        socket.is_behind = false;
        return Ok(Sent::Done);
    }
    let count = socket.send(bytes, time, findings)?;
    // The system reports it once it has room for more.
    socket.is_behind = count < most;
    if count == 0 {
        return Ok(Sent::Done);
    }
    socket.is_answered();
    Ok(room_of(relay.sent(key, count)))
}

/// Sends what waits on a connection.
fn send_on(
    socket: &mut Socket,
    relay: &mut Relay,
    number: u64,
    time: u64,
    findings: &mut Vec<Finding>,
) -> Result<Sent, Failed> {
    let bytes = relay.unsent_on(number);
    let most = bytes.len();
    if most == 0 {
        socket.is_behind = false;
        // Where it has opened, all that was kept of a request may be less than a packet: more is read then.
        return Ok(room_of(relay.holder_tag(number)));
    }
    let count = socket.send(bytes, time, findings)?;
    // The system reports it once it has room for more.
    socket.is_behind = count < most;
    if count == 0 {
        return Ok(Sent::Done);
    }
    Ok(room_of(relay.sent_on(number, count)))
}

/// The socket at the other end has room again, where there is one.
fn room_of(partner: Option<usize>) -> Sent {
    match partner {
        Some(key) => Sent::Room(key),
        None => Sent::Done,
    }
}
