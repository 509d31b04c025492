//! What a socket is, and what it is at.

/// What a socket is.
#[derive(Clone, Copy)]
pub enum Role {
    /// An application that logs in, and one that has.
    Coming,
    Application,
    /// A connection that logs in, and one that has.
    Dialed,
    Connection,
    Other,
}

/// What a socket is at.
#[derive(Clone, Copy, PartialEq, Eq)]
pub enum At {
    /// An application or a connection that logs in, or an application that waits for another's login.
    Login,
    /// An application with nothing underway, which holds no connection.
    Quiet,
    /// It holds none, and something of it has come that isn't read, since its group is paused.
    Kept,
    /// It is none of its group's any more, and is told why at its next request.
    Owed,
    /// An application with nothing underway, which holds a connection.
    Holding,
    /// It holds one on which a transaction is open.
    InTransaction,
    /// An application's request: it waits for a connection, until that is open, or until the server has
    /// acknowledged on it what the application took back before.
    Waiting,
    Opening,
    TakenBack,
    Asking,
    Cancelling,
    /// A connection.
    Free,
    Held,
    Draining,
    Cleaning,
    /// Anything else.
    Other,
}

impl Role {
    /// Its name.
    pub fn words(self) -> &'static str {
        match self {
            Role::Coming | Role::Application => "application",
            Role::Dialed | Role::Connection => "connection",
            Role::Other => "other",
        }
    }
}

impl At {
    /// What a reader is told of it. What it waits for stands in it.
    pub fn words(self) -> &'static str {
        match self {
            At::Login => "logs in",
            At::Quiet => "is quiet",
            At::Kept => "waits for its group to go on",
            At::Owed => "is told at its next request why it has no connection any more",
            At::Holding => "is quiet",
            At::InTransaction => "is quiet with a transaction open",
            At::Waiting => "waits for a connection to be free",
            At::Opening => "waits for its connection to open",
            At::TakenBack => "waits for the acknowledgement of what it took back",
            At::Asking => "has a request underway",
            At::Cancelling => "waits for the acknowledgement of its cancel",
            At::Free => "is free",
            At::Held => "is held",
            At::Draining => "waits for the acknowledgement of a cancel",
            At::Cleaning => "is being cleaned",
            At::Other => "is to be closed",
        }
    }

    /// Whether an application waits for a connection, in one of the ways to do so.
    pub fn is_wait(self) -> bool {
        matches!(self, At::Waiting | At::Opening | At::TakenBack)
    }

    /// What who is at this waits for.
    pub fn awaited(self) -> Option<&'static str> {
        match self {
            At::Waiting => Some("a free connection"),
            At::Opening => Some("its connection to open"),
            At::Kept => Some("its group to go on"),
            At::TakenBack | At::Cancelling | At::Draining => Some("an acknowledgement"),
            _ => None,
        }
    }
}
