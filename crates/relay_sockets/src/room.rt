//! How many sockets there may be: the process's limit of descriptors has some for servers and for who asks.

use libc::types::rlimit;
use libc::{RLIMIT_NOFILE, getrlimit};

/// The most sockets at a time.
const MOST: usize = 11_024;

/// What the program needs itself: standard input and output, the listeners, a file of settings, and one that
/// is accepted to be closed.
const OWN: usize = 16;

/// The most that are kept from applications: for servers, and for who asks.
const KEPT: usize = 1_024;

/// How many sockets there may be.
#[derive(Clone, Copy)]
pub struct Room {
    /// Of all kinds together.
    most: usize,
    /// Whether an application has come that was one too many.
    was_full: bool,
}

/// What becomes of an application that comes.
#[derive(Clone, Copy, PartialEq, Eq)]
pub enum Admission {
    Welcome,
    /// One too many: it is told so at its login.
    Told,
    /// There is no room to tell it.
    Closed,
}

impl Room {
    /// What the process's limit of descriptors leaves.
    pub fn new() -> Room {
        let limit = descriptors().saturating_sub(OWN);
        Room {
            most: limit.min(MOST),
            was_full: false,
        }
    }

    /// One comes too many. Whether it is the first one of these.
    pub fn is_newly_full(&mut self) -> bool {
        let is_new = !self.was_full;
        self.was_full = true;
        is_new
    }

    /// Whether one more may be, of so many.
    pub fn has(&self, count: usize) -> bool {
        count < self.most
    }

    /// What becomes of one more application, where there are so many sockets.
    pub fn admission(&self, count: usize) -> Admission {
        let kept = (self.most / 4).min(KEPT);
        if count < self.most - kept {
            Admission::Welcome
        } else if count < self.most - kept / 2 {
            Admission::Told
        } else {
            Admission::Closed
        }
    }
}

/// How many descriptors the process may have: RLIMIT_NOFILE (getrlimit(2)).
fn descriptors() -> usize {
    let mut limit = rlimit {
        rlim_cur: 0,
        rlim_max: 0,
    };
    if getrlimit(RLIMIT_NOFILE, &mut limit) < 0 {
        return KEPT;
    }
    usize::try_from(limit.rlim_cur).unwrap_or(usize::MAX)
}
