//! The log is written: never more than standard error takes at once.

use libc::net as c;
use libc::types::pollfd;
use relay_status::Outbox;
use std::io::{Stderr, Write};

/// The most pieces that are written in a round.
const PIECES: usize = 64;

/// How often, and for how many milliseconds, it is waited for at the end.
const LAST: usize = 10;

const PATIENCE: i32 = 100;

/// The descriptor of standard error.
const ERRORS: i32 = 2;

/// Where the log is written.
#[derive(Drop)]
pub struct Log {
    errors: Stderr,
}

impl Log {
    pub fn new(errors: Stderr) -> Log {
        Log { errors }
    }

    /// Writes what is taken at once of what waits.
    pub fn write(&mut self, lines: &mut Outbox) {
        for _ in 0..PIECES {
            if lines.front().is_empty() || !is_ready(0) {
                return;
            }
            self.write_front(lines);
        }
    }

    /// Writes what waits, and waits for that a second at most.
    pub fn write_last(&mut self, lines: &mut Outbox) {
        for _ in 0..LAST {
            if lines.front().is_empty() {
                return;
            }
            if is_ready(PATIENCE) {
                self.write(lines);
            }
        }
    }

    fn write_front(&mut self, lines: &mut Outbox) {
        match self.errors.write(lines.front()) {
            Ok(count) if count > 0 => lines.written(count),
            // Nobody reads it any more.
            _ => lines.clear(),
        }
    }
}

/// Whether standard error takes 4,096 bytes at once, or refuses them at once. So many milliseconds are waited
/// for that.
fn is_ready(longest: i32) -> bool {
    let mut asked = [pollfd {
        fd: ERRORS,
        events: c::POLLOUT,
        revents: 0,
    }];
    c::poll(&mut asked, longest) > 0
}
