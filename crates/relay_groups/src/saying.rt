//! Lines of the log about sockets, written where they wait.

use crate::group::Group;
use crate::state::{RelayState, relay_of};
use relay_logins::{Groups, number_of};
use relay_sockets::{Cause, RoleKind, Socket};
use relay_status::{Journal, NOBODY};
use std::io::Write;
use std::net::SocketAddr;
use tds_relay::Relay;

impl RelayState {
    /// A line about a socket.
    pub fn say(&mut self, what: &str, key: usize, words: &str) {
        let RelayState {
            sockets,
            journal,
            ..
        } = self;
        match sockets.get(key) {
            Some(socket) if socket.is_told => {
                journal.say(what, socket.number, words, &socket.whom())
            }
            _ => {}
        }
    }

    /// The same, with something behind a blank.
    pub fn say_of(&mut self, what: &str, key: usize, words: &str, more: &str) {
        let RelayState {
            sockets,
            journal,
            ..
        } = self;
        match sockets.get(key) {
            Some(socket) if socket.is_told => {
                journal.say_of(what, socket.number, words, more, &socket.whom())
            }
            _ => {}
        }
    }

    /// A line about an order to the group of this number, and where who gave it is: the socket of this key.
    pub fn say_order(&mut self, group: u64, words: &str, by: usize) {
        let RelayState {
            sockets,
            journal,
            ..
        } = self;
        if let Some(socket) = sockets.get(by) {
            journal.say("group", group, words, &socket.whom());
        }
    }

    /// A line about an order to the relay as a whole, and where who gave it is: the socket of this key.
    pub fn note_order(&mut self, words: &str, by: usize) {
        let RelayState {
            sockets,
            journal,
            ..
        } = self;
        if let Some(socket) = sockets.get(by) {
            journal.note_of(words, &socket.whom());
        }
    }

    /// A line about a socket's end: where the other end is a server, its address, and what it did.
    pub fn say_end(&mut self, key: usize, cause: Cause) {
        let RelayState {
            sockets,
            journal,
            ..
        } = self;
        if let Some(socket) = sockets.get(key) {
            put_end(journal, socket, cause);
        }
    }

    /// A line about a connection whose login is refused: by which server, and why.
    pub fn say_refused(&mut self, key: usize, cause: Cause) {
        let RelayState {
            sockets,
            journal,
            ..
        } = self;
        if let Some(socket) = sockets.get(key) {
            put_cause(journal, socket, "connection", "is refused:", cause);
        }
    }

    /// A line about an application whose login the server refuses.
    pub fn say_application_refused(&mut self, key: usize, cause: Cause) {
        let RelayState {
            sockets,
            journal,
            ..
        } = self;
        if let Some(socket) = sockets.get(key) {
            put_cause(journal, socket, "application", "is refused:", cause);
        }
    }

    /// A line about an application that is authenticated.
    pub(crate) fn say_authenticated(&mut self, key: usize, group: usize) {
        let RelayState {
            sockets,
            journal,
            ..
        } = self;
        if let Some(socket) = sockets.get(key) {
            put_authenticated(journal, socket, group);
        }
    }

    /// A line about a connection that is dialed.
    pub fn say_dialed(&mut self, key: usize, address: SocketAddr) {
        let RelayState {
            sockets,
            journal,
            ..
        } = self;
        if let Some(socket) = sockets.get(key) {
            put_dialed(journal, socket, address);
        }
    }

    /// A line about what an application or a server did that it may not, where its socket is closed for that.
    pub(crate) fn say_fault(&mut self, key: usize) {
        let RelayState {
            sockets,
            groups,
            journal,
            ..
        } = self;
        if let Some(socket) = sockets.get(key) {
            put_fault(journal, socket, groups);
        }
    }
}

/// A line about a server's name.
pub fn put_name(journal: &mut Journal, host: &str, words: &str) {
    if let Some(out) = journal.line() {
        let _ = write!(out, "name {host} {words}");
        journal.lines.end(&NOBODY);
    }
}

/// A line about a group.
pub(crate) fn put_group(journal: &mut Journal, group: usize, words: &str, why: &str) {
    if let Some(out) = journal.line() {
        let _ = write!(out, "group {} {words} {why}", number_of(group));
        journal.lines.end(&NOBODY);
    }
}

/// A line about a server that has failed, behind which others are preferred.
pub fn put_away(journal: &mut Journal, server: SocketAddr, cause: Cause) {
    if let Some(out) = journal.line() {
        let _ = write!(out, "server {server} {cause}");
        journal.lines.end(&NOBODY);
    }
}

fn put_end(journal: &mut Journal, socket: &Socket, cause: Cause) {
    if !socket.is_told {
        return;
    }
    if cause.is_failure() {
        put_cause(journal, socket, "socket", "has ended:", cause);
    } else {
        journal.say("socket", socket.number, "is closed", &socket.whom());
    }
}

/// A line with what a socket's other end did.
fn put_cause(journal: &mut Journal, socket: &Socket, what: &str, words: &str, cause: Cause) {
    let Some(out) = journal.line() else {
        return;
    };
    let _ = write!(out, "{what} {} {words} ", socket.number);
    put_other_end(out, socket, cause);
    journal.lines.end(&socket.whom());
}

/// What the other end did: of a server's socket that is its address.
fn put_other_end(out: &mut Vec<u8>, socket: &Socket, cause: Cause) {
    let _ = match (socket.dialed, cause) {
        (Some(address), _) => write!(out, "{address} {cause}"),
        (None, Cause::Refused(_)) => write!(out, "the server {cause}"),
        (None, _) => write!(out, "the other end {cause}"),
    };
}

fn put_authenticated(journal: &mut Journal, socket: &Socket, group: usize) {
    if let Some(out) = journal.line() {
        let (number, group) = (socket.number, number_of(group));
        let _ = write!(out, "application {number} is authenticated, group {group}");
        journal.lines.end(&socket.whom());
    }
}

fn put_dialed(journal: &mut Journal, socket: &Socket, address: SocketAddr) {
    if let Some(out) = journal.line() {
        let _ = write!(out, "connection {} is dialed at {address}", socket.number);
        journal.lines.end(&NOBODY);
    }
}

fn put_fault(journal: &mut Journal, socket: &Socket, groups: &mut Groups<Group>) {
    let number = socket.number;
    match socket.role_kind() {
        RoleKind::Application(group, application) => {
            if let Some(relay) = relay_of(groups, group) {
                put_fault_of(journal, socket, relay, application);
            }
        }
        RoleKind::Connection(group, on) => {
            if let Some(relay) = relay_of(groups, group) {
                put_fault_on(journal, number, relay, on);
            }
        }
        _ => {}
    }
}

/// What an application did that it may not.
fn put_fault_of(journal: &mut Journal, socket: &Socket, relay: &Relay, application: usize) {
    if let Some(fault) = relay.fault_of(application) {
        if let Some(out) = journal.line() {
            let (number, which) = (socket.number, fault.number());
            let _ = write!(out, "application {number} breaks the rules: fault {which}");
            let _ = write!(out, " of an application, {fault:?}");
            journal.lines.end(&socket.whom());
        }
    }
}

/// What the server did that it may not, on the connection of this number.
fn put_fault_on(journal: &mut Journal, number: u64, relay: &Relay, on: u64) {
    if let Some(fault) = relay.fault_on(on) {
        if let Some(out) = journal.line() {
            let which = fault.number();
            let _ = write!(out, "connection {number} breaks the rules: fault {which}");
            let _ = write!(out, " of a server, {fault:?}");
            journal.lines.end(&NOBODY);
        }
    } else if let Some(fault) = relay.header_fault_on(on) {
        if let Some(out) = journal.line() {
            let which = fault.number();
            let _ = write!(out, "connection {number} breaks the rules: fault {which}");
            let _ = write!(out, " of a packet, {fault:?}");
            journal.lines.end(&NOBODY);
        }
    }
}
