//! What a socket is, with what is kept of one that is that.

use relay_logins::{Continuation, Dial, Handshake, Notices};
use relay_status::StatusClient;

/// What a socket is.
#[derive(Drop)]
pub enum Role {
    /// An application that logs in.
    Handshake(Coming),
    /// An application whose login the server authenticates, and one that is asked for a continuation of it.
    Authenticating(usize),
    Continuation(usize, Continuation),
    /// An application of a group.
    Application(Application),
    /// The first connection of a group, which logs in.
    First(usize, Dial),
    /// The connection of this number in a group, which logs in; and one which does.
    Opening(usize, u64, Dial),
    Connection(Connection),
    /// A login of the relay's own, by which a server authenticates that of a group again.
    Reauthentication(usize, Dial),
    /// An application that is in no group any more, and is told this at its next request.
    Owed(Notices, Owed),
    /// Where names are asked.
    Names,
    /// Somebody who asks what the relay does.
    StatusClient(StatusClient),
    /// It is to be closed once what waits for it is sent.
    Closing,
}

/// What a socket is, without what it keeps.
#[derive(Clone, Copy)]
pub enum RoleKind {
    Handshake,
    Authenticating(usize),
    Continuation(usize),
    Application(usize, usize),
    First(usize),
    Opening(usize, u64),
    Connection(usize, u64),
    Reauthentication(usize),
    Owed,
    Names,
    StatusClient,
    Closing,
}

/// An application that logs in.
#[derive(Drop)]
pub struct Coming {
    pub handshake: Handshake,
    /// Whether it is one too many, which is told so at its login.
    pub is_over: bool,
}

/// An application of a group.
#[derive(Drop)]
pub struct Application {
    pub group: usize,
    /// Its key in the group's relay.
    pub key: usize,
    /// Where in its requests it is.
    pub notices: Notices,
    /// What it is told at its next request.
    pub owed: Option<Owed>,
    /// The millisecond since which it has shut its sending side, and waits for its answer.
    pub shut: Option<u64>,
    /// Its requests so far, and the microsecond in which the one began that has no answer yet.
    pub begun: u64,
    pub asked: Option<u64>,
    /// Whether something of that one's answer has been sent.
    pub is_answered: bool,
}

/// An error that an application is owed: its number, and its sentence.
#[derive(Drop)]
pub struct Owed {
    pub number: u32,
    pub sentence: String,
}

/// A connection of a group that is logged in.
#[derive(Clone, Copy)]
pub struct Connection {
    pub group: usize,
    pub number: u64,
    /// Its process at the server, and the server's place in the list.
    pub spid: u16,
    pub server: usize,
    /// Since when it is free, while it is being checked.
    pub checked: Option<u64>,
    /// The number of its last rest.
    pub rest: u64,
}

impl Application {
    /// It has said nothing yet.
    pub fn new(group: usize, key: usize) -> Application {
        Application {
            group,
            key,
            notices: Notices::new(),
            owed: None,
            shut: None,
            begun: 0,
            asked: None,
            is_answered: false,
        }
    }

    /// It has begun so many requests, the newest one now where they are more than before.
    pub fn asks(&mut self, begun: u64, precise: u64) {
        if begun != self.begun {
            self.begun = begun;
            self.asked = Some(precise);
            self.is_answered = false;
        }
    }

    /// The millisecond in which its request of this number began, where that has no answer yet.
    pub(crate) fn began(&self, request: u64) -> Option<u64> {
        match self.asked {
            Some(precise) if request == self.begun => Some(precise / 1000),
            _ => None,
        }
    }
}

impl Role {
    /// The login of a connection, while it goes on.
    pub(crate) fn dial(&self) -> Option<&Dial> {
        match self {
            Role::First(_, dial) => Some(dial),
            Role::Opening(_, _, dial) => Some(dial),
            Role::Reauthentication(_, dial) => Some(dial),
            _ => None,
        }
    }

    /// The group that it belongs to.
    pub(crate) fn group(&self) -> Option<usize> {
        match self {
            Role::Handshake(_) | Role::Owed(..) | Role::Names => None,
            Role::StatusClient(_) | Role::Closing => None,
            Role::Authenticating(group) => Some(*group),
            Role::Application(application) => Some(application.group),
            Role::Continuation(group, _) => Some(*group),
            Role::First(group, _) => Some(*group),
            Role::Opening(group, _, _) => Some(*group),
            Role::Connection(connection) => Some(connection.group),
            Role::Reauthentication(group, _) => Some(*group),
        }
    }

    /// The kind of this.
    pub(crate) fn role_kind(&self) -> RoleKind {
        match self {
            Role::Handshake(_) => RoleKind::Handshake,
            Role::Authenticating(group) => RoleKind::Authenticating(*group),
            Role::Continuation(group, _) => RoleKind::Continuation(*group),
            Role::Application(application) => RoleKind::Application(
                application.group,
                application.key,
            ),
            Role::First(group, _) => RoleKind::First(*group),
            Role::Opening(group, number, _) => RoleKind::Opening(*group, *number),
            Role::Connection(connection) => RoleKind::Connection(
                connection.group,
                connection.number,
            ),
            Role::Reauthentication(group, _) => RoleKind::Reauthentication(*group),
            Role::Owed(..) => RoleKind::Owed,
            Role::Names => RoleKind::Names,
            Role::StatusClient(_) => RoleKind::StatusClient,
            Role::Closing => RoleKind::Closing,
        }
    }
}
