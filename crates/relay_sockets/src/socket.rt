//! A socket.

use crate::ending::Cause;
use crate::link::Link;
use crate::role::{Application, Connection, Owed, Role, RoleKind};
use relay_logins::{Dial, Way, Who};
use relay_status::{At, Judged, Names, Role as Told, Whom};
use std::net::SocketAddr;
use tds_state::Watch;

/// What is known of a socket behind its end: what it was, where it was dialed, and how far its login had come.
#[derive(Clone, Copy)]
pub struct Gone {
    pub role_kind: RoleKind,
    pub dialed: Option<SocketAddr>,
    pub way: Option<Way>,
    /// Whether that login can't be begun anew.
    pub has_continuations: bool,
}

/// What a socket was seen to be at, and since when.
#[derive(Clone, Copy)]
pub struct Seen {
    pub at: At,
    /// What tells two of that apart: a request's number, or who holds a connection.
    pub mark: u64,
    /// The millisecond in which it was first seen there.
    pub since: u64,
}

/// A socket.
#[derive(Drop)]
pub struct Socket {
    pub number: u64,
    /// Whether the log tells of it: not of those who ask what the relay does.
    pub is_told: bool,
    pub link: Link,
    pub role: Role,
    /// What is to be sent in a login, and to whoever asks what the relay does.
    pub out: Vec<u8>,
    /// Who an application says that it is, and where it is.
    pub who: Option<Who>,
    pub peer: Option<SocketAddr>,
    /// Where a connection was dialed.
    pub dialed: Option<SocketAddr>,
    /// The millisecond in which it came, or was logged in.
    pub born: u64,
    pub seen: Seen,
    /// The number of the connection that an application holds, or of who holds a connection, as it was when
    /// that was asked for last.
    pub partner: Option<u64>,
    /// The place among all reports of the one since which bytes of it wait to be read.
    pub order: u64,
    /// Why it ends, as far as that is known.
    pub cause: Option<Cause>,
    /// Whether what its relay has for it may not be sent yet.
    pub is_behind: bool,
    /// Where judging is asked for.
    pub judged: Option<Judged>,
    /// From its login on, of a connection of a group whose applications are parted from theirs.
    pub(crate) watch: Option<Box<Watch>>,
}

impl Socket {
    /// A socket that has come, or was dialed, in this millisecond.
    pub fn new(number: u64, link: Link, role: Role, out: Vec<u8>, now: u64) -> Socket {
        Socket {
            number,
            is_told: !matches!(role, Role::StatusClient(_) | Role::Names),
            link,
            role,
            out,
            who: None,
            peer: None,
            dialed: None,
            born: now,
            seen: Seen {
                at: At::Other,
                mark: 0,
                since: now,
            },
            partner: None,
            order: 0,
            cause: None,
            is_behind: true,
            judged: None,
            watch: None,
        }
    }

    /// It is seen to be at this, in this millisecond. A check doesn't end the time of a free connection. A request
    /// waits from its first bytes on, and not anew for another connection.
    pub fn see(&mut self, at: At, mark: u64, now: u64) {
        if self.seen.at == at && self.seen.mark == mark {
            return;
        }
        let since = self.since(at, mark, now);
        if let Role::Connection(connection) = &mut self.role {
            if at != At::Cleaning {
                connection.checked = None;
            }
        }
        self.seen = Seen { at, mark, since };
    }

    /// Since when it is at what it is seen to be at now.
    fn since(&self, at: At, mark: u64, now: u64) -> u64 {
        if self.seen.mark == mark && self.seen.at.is_wait() && at.is_wait() {
            return self.seen.since;
        }
        let known = match &self.role {
            Role::Connection(connection) if at == At::Free => connection.checked,
            Role::Application(application) if at.is_wait() => application.began(mark),
            _ => None,
        };
        known.unwrap_or(now)
    }

    /// It is free, and is checked now.
    pub fn is_checked(&mut self) {
        if let Role::Connection(connection) = &mut self.role {
            connection.checked = Some(self.seen.since);
        }
    }

    /// The application of a group that it is.
    pub fn application(&mut self) -> Option<&mut Application> {
        match &mut self.role {
            Role::Application(application) => Some(application),
            _ => None,
        }
    }

    /// The connection of a group that it is.
    pub fn connection(&self) -> Option<&Connection> {
        match &self.role {
            Role::Connection(connection) => Some(connection),
            _ => None,
        }
    }

    /// Something of the answer to its request has been sent.
    pub fn is_answered(&mut self) {
        if let Role::Application(application) = &mut self.role {
            application.is_answered = true;
        }
    }

    /// It may rest, for the time that has this number.
    pub fn may_rest(&mut self, number: u64) {
        if let Role::Connection(connection) = &mut self.role {
            connection.rest = number;
        }
    }

    /// An application of a group is to be told this error at its next request.
    pub fn owe(&mut self, number: u32, sentence: String) {
        if let Role::Application(application) = &mut self.role {
            application.owed = Some(Owed { number, sentence });
        }
    }

    /// An application that is owed an error is in no group from now on. Whether it is such a one.
    pub fn begin_owing(&mut self) -> bool {
        let Role::Application(application) = &mut self.role else {
            return false;
        };
        let notices = application.notices;
        let Some(owed) = application.owed.take() else {
            return false;
        };
        self.role = Role::Owed(notices, owed);
        true
    }

    /// The login of a connection, while it goes on.
    pub fn dial(&self) -> Option<&Dial> {
        self.role.dial()
    }

    /// It is logged in, as the connection of this number in a group. The place of its server in the list.
    pub fn opens(&mut self, group: usize, number: u64, now: u64) -> usize {
        let (spid, server) = match self.dial() {
            Some(dial) => (dial.spid, dial.way.server),
            None => (0, 0),
        };
        self.role = Role::Connection(Connection {
            group,
            number,
            spid,
            server,
            checked: None,
            rest: 0,
        });
        self.born = now;
        server
    }

    /// What is known of it behind its end.
    pub fn gone(&self) -> Gone {
        let (way, has_continuations) = match self.dial() {
            Some(dial) => (Some(dial.way), dial.has_continuations),
            None => (None, false),
        };
        Gone {
            role_kind: self.role_kind(),
            dialed: self.dialed,
            way,
            has_continuations,
        }
    }

    /// What is told that it is.
    pub fn told(&self) -> Told {
        match &self.role {
            Role::Handshake(_) | Role::Authenticating(_) | Role::Continuation(..) => Told::Coming,
            Role::Application(_) | Role::Owed(..) => Told::Application,
            Role::First(..) | Role::Opening(..) | Role::Reauthentication(..) => Told::Dialed,
            Role::Connection(_) => Told::Connection,
            Role::Names | Role::StatusClient(_) | Role::Closing => Told::Other,
        }
    }

    /// The group that it belongs to.
    pub fn group(&self) -> Option<usize> {
        self.role.group()
    }

    /// Who an application says that it is.
    pub fn names(&self) -> Option<Names<'_>> {
        self.whom().names
    }

    /// Whose a line of the log about it is.
    pub fn whom(&self) -> Whom<'_> {
        whom_of(&self.who, self.peer)
    }

    /// The kind of its role.
    pub fn role_kind(&self) -> RoleKind {
        self.role.role_kind()
    }
}

/// Whose a line is of an application that says that it is this, and is there.
pub(crate) fn whom_of(who: &Option<Who>, peer: Option<SocketAddr>) -> Whom<'_> {
    let names = match who {
        Some(who) => Some(names_of(who)),
        None => None,
    };
    Whom { names, peer }
}

/// What a login says, as it is told.
pub fn names_of(who: &Who) -> Names<'_> {
    Names {
        host: who.host.as_str(),
        user: who.user.as_str(),
        program: who.program.as_str(),
        database: who.database.as_str(),
    }
}
