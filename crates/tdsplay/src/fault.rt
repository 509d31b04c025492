use std::alloc::{AllocError, AllocFailed};
use std::io::{self, ErrorKind};
use tds_play::LineFault;
use thiserror::Error;

/// What keeps the program from a run.
#[derive(Debug, Drop, Error)]
pub enum ProgramFault {
    #[error("error: usage")]
    Usage,
    #[error("error: file")]
    File,
    #[error("error: listen")]
    Listen,
    #[error("error: memory")]
    Memory,
    #[error("error: output")]
    Output,
}

impl ProgramFault {
    /// The exit status.
    pub fn status(&self) -> u8 {
        match self {
            ProgramFault::Usage => 2,
            ProgramFault::File
            | ProgramFault::Listen
            | ProgramFault::Memory
            | ProgramFault::Output => 1,
        }
    }

    /// The arguments can't be had.
    pub fn of_arguments(error: io::Error) -> ProgramFault {
        match error.kind() {
            ErrorKind::OutOfMemory => ProgramFault::Memory,
            _ => ProgramFault::Usage,
        }
    }

    /// A file can't be opened.
    pub fn of_file(error: io::Error) -> ProgramFault {
        match error.kind() {
            ErrorKind::OutOfMemory => ProgramFault::Memory,
            _ => ProgramFault::File,
        }
    }
}

impl From<LineFault> for ProgramFault {
    fn from(fault: LineFault) -> ProgramFault {
        match fault {
            LineFault::Usage => ProgramFault::Usage,
            LineFault::Memory => ProgramFault::Memory,
        }
    }
}

impl From<AllocFailed<String>> for ProgramFault {
    fn from(_: AllocFailed<String>) -> ProgramFault {
        ProgramFault::Memory
    }
}

impl From<AllocError> for ProgramFault {
    fn from(_: AllocError) -> ProgramFault {
        ProgramFault::Memory
    }
}
