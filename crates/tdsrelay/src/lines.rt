//! What is told of each group and each socket.

use crate::program::Program;
use relay_groups::Group;
use relay_logins::number_of;
use relay_settings::{TimeLimits, lesser, server_of};
use relay_sockets::{RoleKind, Socket, names_of};
use relay_status::{At, GroupLine, SocketLine, put_group, put_json_group, put_socket};
use std::io::{self, Write};
use tds_relay::Mode;

/// The most of a wait queue that are told.
const MOST_TOLD: usize = 100;

impl Program {
    /// A group: its figures, a line for each socket of it, and its wait queue, the first one first.
    pub fn put_group(&self, body: &mut Vec<u8>, key: usize) -> io::Result<()> {
        let Some(group) = self.event_loop.state.groups.get(key) else {
            return Ok(());
        };
        put_group(body, &self.line_of_group(key, group))?;
        if let Some(question) = group.because() {
            writeln!(body, "  shares by sessions: {question}")?;
        }
        for (_, entry) in self.event_loop.state.sockets.iter() {
            if entry.value.group() == Some(key) {
                put_socket(body, &self.line_of(&entry.value))?;
            }
        }
        if group.waiting().is_empty() {
            return Ok(());
        }
        write!(body, "  the wait queue: ")?;
        self.put_numbers(body, key, group)?;
        writeln!(body, "")
    }

    /// The applications that are in no group: their login hasn't come yet, or they are owed an error.
    pub fn put_coming(&self, body: &mut Vec<u8>) -> io::Result<()> {
        let mut is_first = true;
        for (_, entry) in self.event_loop.state.sockets.iter() {
            if let RoleKind::Handshake | RoleKind::Owed = entry.value.role_kind() {
                if is_first {
                    write!(body, "\nin no group\n")?;
                }
                is_first = false;
                put_socket(body, &self.line_of(&entry.value))?;
            }
        }
        Ok(())
    }

    /// A group, as an object of JSON.
    pub fn put_json_group(&self, body: &mut Vec<u8>, key: usize, group: &Group) -> io::Result<()> {
        put_json_group(body, &self.line_of_group(key, group))?;
        self.put_numbers(body, key, group)?;
        write!(body, "]")?;
        if let Some(question) = group.because() {
            write!(body, ",\"shares_by_sessions\":\"{question}\"")?;
        }
        write!(body, "}}")
    }

    /// The numbers of a group's wait queue, the first one first.
    fn put_numbers(&self, body: &mut Vec<u8>, key: usize, group: &Group) -> io::Result<()> {
        let mut is_first = true;
        for (application, _) in group.waiting().iter().zip(0..MOST_TOLD) {
            if let Some(number) = self.number_in(key, *application) {
                if !is_first {
                    write!(body, ", ")?;
                }
                is_first = false;
                write!(body, "{number}")?;
            }
        }
        Ok(())
    }

    /// The number of an application of a group.
    fn number_in(&self, group: usize, key: usize) -> Option<u64> {
        for (_, entry) in self.event_loop.state.sockets.iter() {
            if let RoleKind::Application(of, application) = entry.value.role_kind() {
                if of == group && application == key {
                    return Some(entry.value.number);
                }
            }
        }
        None
    }

    fn line_of_group<'a>(&self, key: usize, group: &'a Group) -> GroupLine<'a> {
        GroupLine {
            number: number_of(key),
            is_shared: group.pair.is_none(),
            paused: match group.paused {
                Some(since) => Some(self.seconds_since(since)),
                None => None,
            },
            names: names_of(&group.who),
            most: group.most,
            partings: match group.mode {
                Mode::Sessions => None,
                Mode::Transactions => Some(group.partings),
            },
        }
    }

    pub fn line_of<'a>(&self, socket: &'a Socket) -> SocketLine<'a> {
        let (spid, server) = match socket.connection() {
            Some(connection) => (connection.spid, connection.server),
            None => (0, 0),
        };
        SocketLine {
            role: socket.told(),
            number: socket.number,
            group: match socket.group() {
                Some(key) => Some(number_of(key)),
                None => None,
            },
            at: socket.seen.at,
            seconds: self.seconds_since(socket.seen.since),
            limit: limit_of(socket.seen.at, &self.limits_for(socket.role_kind())),
            partner: socket.partner,
            names: socket.names(),
            peer: socket.peer,
            spid,
            server: server_of(server),
            rests: socket.rests(),
            why: socket.why(),
        }
    }

    fn seconds_since(&self, since: u64) -> u64 {
        self.event_loop.now().saturating_sub(since) / 1000
    }
}

/// The seconds behind which what is at this is closed, 0 for none.
fn limit_of(at: At, limits: &TimeLimits) -> u64 {
    match at {
        At::Login | At::Other => limits.login,
        At::Waiting | At::Opening | At::TakenBack => limits.wait,
        At::Cancelling | At::Draining | At::Cleaning => limits.cancel,
        At::Holding => limits.hold,
        At::InTransaction => lesser(limits.transaction, limits.hold),
        At::Free => limits.idle,
        At::Asking => limits.request,
        At::Quiet | At::Kept | At::Owed | At::Held => 0,
    }
}
