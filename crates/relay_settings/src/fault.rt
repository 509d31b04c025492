//! What keeps the program from serving.

use crate::system::SystemError;
use clap::Error;
use clap::error::ErrorKind as UsageKind;
use socket_places::Place;
use std::alloc::AllocError;
use std::io::{self, ErrorKind};
use std::net::SocketAddr;

/// What keeps it from serving.
#[derive(Debug, Drop, thiserror::Error)]
pub enum RelayFault {
    /// The arguments are no lawful arguments, or ask for help or the version.
    #[error("{0}")]
    Usage(Error),
    #[error("error: an argument isn't UTF-8")]
    NoText,
    /// Which argument stands for an address, and as what it is given.
    #[error("error: {0} {1:?} isn't an IP address, a colon and a port, as 127.0.0.1:1433 \
         (`getent ahosts NAME` says an address)")]
    Address(&'static str, String),
    /// As what a server is given.
    #[error("error: SERVER {0:?} isn't an IP address or a name, a colon and a port, as sql.example:1433")]
    Server(String),
    /// A server is named, and no argument says where names are asked.
    #[error("error: SERVER {0:?} is a name: --names unix:PATH says where `tdstls names` answers (docs/RELAY.md)")]
    Unnamed(String),
    /// As what the place is given where names are asked.
    #[error("error: --names takes unix:PATH, and not {0:?}")]
    Names(String),
    /// A server is the relay itself.
    #[error("error: SERVER {0} is where this relay itself listens: give the address of the server behind it")]
    Itself(SocketAddr),
    /// The argument whose count can't be, what may be, and of what; and as what it is given.
    #[error("error: --{0} takes {1} to {2} {3}, and not {4:?}")]
    Count(&'static str, usize, usize, &'static str, String),
    /// As what is given for how long a connection is kept.
    #[error("error: --share takes session or transaction, and not {0:?}")]
    Share(String),
    /// What is wrong with the fields that part groups.
    #[error("error: --group: {0}")]
    Group(String),
    #[error("error: there are more than 8 servers: leave some out")]
    Servers,
    /// As what the addresses of proxies are given.
    #[error("error: --proxy takes one to four IP addresses, as 127.0.0.1,::1, and not {0:?}")]
    Proxies(String),
    /// What is wrong with the configuration file.
    #[error("error: {0}")]
    Config(String),
    /// The argument whose seconds can't be, and as what they are given.
    #[error("error: --{0} takes seconds, 0 to 604800, and not {1:?}")]
    Seconds(&'static str, String),
    #[error("error: --until-input-ends wants a pipe as standard input: {0}")]
    Input(SystemError),
    /// It can't listen there, and why.
    #[error("error: {0}: {1}")]
    Listen(Place, Bar),
    /// The system refuses to go on.
    #[error("error: the system refuses to go on: {0}")]
    Refused(SystemError),
    #[error("error: memory")]
    Memory,
}

/// Why it can't listen at an address.
#[derive(Debug, Drop, thiserror::Error)]
pub enum Bar {
    #[error("this machine has no such address (EADDRNOTAVAIL); `ip address` shows those that it has, and \
         0.0.0.0 is all of them")]
    NoAddress,
    #[error("another program listens there (EADDRINUSE); `ss -ltnp` shows which, and port 0 is one that is free")]
    Taken,
    #[error("another program listens at this socket, or what stands there is no socket; take another path")]
    Served,
    #[error("the system doesn't let this user listen there (EACCES); ports from 1024 on are anybody's")]
    Forbidden,
    /// What the system says.
    #[error("{0}")]
    System(SystemError),
}

impl Bar {
    /// Why it can't there, where the system says this.
    pub fn of(place: &Place, error: io::Error) -> Bar {
        match (place, error.kind()) {
            (Place::Unix(_), ErrorKind::AddrInUse) => Bar::Served,
            (Place::Tcp(_), ErrorKind::AddrNotAvailable) => Bar::NoAddress,
            (Place::Tcp(_), ErrorKind::AddrInUse) => Bar::Taken,
            (Place::Tcp(_), ErrorKind::PermissionDenied) => Bar::Forbidden,
            _ => Bar::System(SystemError::new(error)),
        }
    }
}

impl RelayFault {
    /// The fault where arguments can't be had from the system.
    pub fn of_arguments(error: io::Error) -> RelayFault {
        match error.kind() {
            ErrorKind::OutOfMemory => RelayFault::Memory,
            _ => RelayFault::NoText,
        }
    }

    /// The fault where it can't listen at a place.
    pub fn of_listener(place: Place, error: io::Error) -> RelayFault {
        let bar = Bar::of(&place, error);
        RelayFault::Listen(place, bar)
    }

    /// The fault where the system refuses to go on.
    pub fn of_system(error: io::Error) -> RelayFault {
        match error.kind() {
            ErrorKind::OutOfMemory => RelayFault::Memory,
            _ => RelayFault::Refused(SystemError::new(error)),
        }
    }

    /// The fault where standard input can't end it.
    pub fn of_input(error: io::Error) -> RelayFault {
        RelayFault::Input(SystemError::new(error))
    }

    /// Whether it is told on standard error; help and the version aren't.
    pub fn is_told(&self) -> bool {
        match self {
            RelayFault::Usage(error) => error.use_stderr(),
            _ => true,
        }
    }

    /// The exit status: 2 where an argument is wrong, 1 where the system refuses.
    pub fn status(&self) -> u8 {
        match self {
            RelayFault::Listen(..) | RelayFault::Refused(_) | RelayFault::Memory => 1,
            _ => 2,
        }
    }
}

impl From<AllocError> for RelayFault {
    fn from(_error: AllocError) -> RelayFault {
        RelayFault::Memory
    }
}

impl From<Error> for RelayFault {
    fn from(error: Error) -> RelayFault {
        match error.kind() {
            UsageKind::OutOfMemory => RelayFault::Memory,
            _ => RelayFault::Usage(error),
        }
    }
}
