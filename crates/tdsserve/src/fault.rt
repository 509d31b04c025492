//! What keeps the program from serving.

use clap::Error;
use clap::error::ErrorKind as UsageKind;
use serve_recordings::RecordingFault;
use serve_scripts::ScriptFault;
use socket_places::Place;
use std::alloc::AllocError;
use std::io::{self, ErrorKind};

/// What keeps it from serving.
#[derive(Debug, Drop, thiserror::Error)]
pub enum ServeFault {
    /// The arguments are no lawful arguments, or ask for help or the version.
    #[error("{0}")]
    Usage(Error),
    #[error("error: an argument isn't UTF-8")]
    NoText,
    /// The argument that stands for the address, and what is wrong with it.
    #[error("error: ADDRESS {0:?} {1}")]
    Address(String, String),
    #[error("error: ADDRESS {0:?} isn't this machine's own, as 127.0.0.1 is; --let-others-in listens there, \
         if this machine has the address, and lets everybody in who can reach it, whatever name and password \
         they give")]
    NotOwn(String),
    #[error("error: --pace takes 0 to 60000 milliseconds")]
    Pace,
    #[error("error: --silence takes 0 to 86400 seconds")]
    Silence,
    #[error("error: --until-input-ends wants a pipe as standard input: {0}")]
    Input(io::Error),
    #[error("{0}")]
    Script(ScriptFault),
    #[error("{0}")]
    Recording(RecordingFault),
    /// A file isn't read, and why.
    #[error("{0}")]
    File(String),
    #[error("error: --script and --replay: one of the two")]
    TwoFiles,
    /// It can't listen there, and why.
    #[error("error: {0}: {1}")]
    Listen(Place, Bar),
    /// The system refuses to go on.
    #[error("error: {0}")]
    Refused(io::Error),
    #[error("error: memory")]
    Memory,
}

/// Why it can't listen at a place.
#[derive(Debug, Drop, thiserror::Error)]
pub enum Bar {
    #[error("this machine has no such address; 127.0.0.1 is always one, and `ip address` shows the others")]
    NoAddress,
    #[error("another program listens there; port 0 is one that the system finds free")]
    Taken,
    #[error("another server listens at this socket; end that one first, or take another path")]
    Served,
    #[error("something stands there that is no socket, and stays as it is; take a path where nothing stands")]
    File,
    /// What the system says.
    #[error("{0}")]
    System(io::Error),
}

impl ServeFault {
    /// The fault where arguments can't be had from the system.
    pub fn of_arguments(error: io::Error) -> ServeFault {
        match error.kind() {
            ErrorKind::OutOfMemory => ServeFault::Memory,
            _ => ServeFault::NoText,
        }
    }

    /// Whether it is told on standard error; help and the version aren't.
    pub fn is_told(&self) -> bool {
        match self {
            ServeFault::Usage(error) => error.use_stderr(),
            _ => true,
        }
    }

    /// The exit status: 2 where an argument or the script is wrong, 1 where the system refuses.
    pub fn status(&self) -> u8 {
        match self {
            ServeFault::Listen(..) | ServeFault::Refused(_) | ServeFault::Memory => 1,
            _ => 2,
        }
    }
}

impl From<AllocError> for ServeFault {
    fn from(_error: AllocError) -> ServeFault {
        ServeFault::Memory
    }
}

impl From<Error> for ServeFault {
    fn from(error: Error) -> ServeFault {
        match error.kind() {
            UsageKind::OutOfMemory => ServeFault::Memory,
            _ => ServeFault::Usage(error),
        }
    }
}

impl From<RecordingFault> for ServeFault {
    fn from(fault: RecordingFault) -> ServeFault {
        match fault {
            RecordingFault::Memory => ServeFault::Memory,
            fault => ServeFault::Recording(fault),
        }
    }
}

impl From<ScriptFault> for ServeFault {
    fn from(fault: ScriptFault) -> ServeFault {
        match fault {
            ScriptFault::Memory => ServeFault::Memory,
            fault => ServeFault::Script(fault),
        }
    }
}
