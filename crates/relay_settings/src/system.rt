//! Errors of the system, by their names.

use std::fmt::{self, Display, Formatter, Write};
use std::io;

/// An error of the system. It is told with its name, as `ECONNREFUSED`.
#[derive(Clone, Copy, Debug)]
pub struct SystemError {
    pub error: io::Error,
}

impl SystemError {
    pub fn new(error: io::Error) -> SystemError {
        SystemError { error }
    }

    /// Its name (errno(3)), where it is one that sockets and files give.
    pub fn name(&self) -> Option<&'static str> {
        match self.error.raw_os_error() {
            Some(code) => name_of(code),
            None => None,
        }
    }
}

impl Display for SystemError {
    fn fmt<W: Write>(&self, f: &mut Formatter<W>) -> fmt::Result {
        match self.name() {
            Some(name) => write!(f, "{name}: {}", self.error),
            None => write!(f, "{}", self.error),
        }
    }
}

fn name_of(code: i32) -> Option<&'static str> {
    let name = match code {
        1 => "EPERM",
        2 => "ENOENT",
        11 => "EAGAIN",
        12 => "ENOMEM",
        13 => "EACCES",
        20 => "ENOTDIR",
        21 => "EISDIR",
        22 => "EINVAL",
        23 => "ENFILE",
        24 => "EMFILE",
        32 => "EPIPE",
        97 => "EAFNOSUPPORT",
        98 => "EADDRINUSE",
        99 => "EADDRNOTAVAIL",
        100 => "ENETDOWN",
        101 => "ENETUNREACH",
        103 => "ECONNABORTED",
        104 => "ECONNRESET",
        105 => "ENOBUFS",
        107 => "ENOTCONN",
        110 => "ETIMEDOUT",
        111 => "ECONNREFUSED",
        112 => "EHOSTDOWN",
        113 => "EHOSTUNREACH",
        _ => return None,
    };
    Some(name)
}
