//! Lines of the log that wait to be written. Nobody waits for who reads them: where too many wait, further
//! ones are left out, and counted.

use crate::date::put_time;
use crate::whom::{NOBODY, Whom, put_json_whom, put_whom};
use std::alloc::Global;
use std::io::{self, Write};

/// The most bytes that wait while a line is begun: what a round may say where all come at once.
const MOST: usize = 524_288;

/// So many bytes that are written stand in front of the others at most.
const WRITTEN: usize = 131_072;

/// The most bytes that are written at once: as many as a pipe that is ready takes (pipe(7)).
const PIECE: usize = 4_096;

/// What waits.
#[derive(Drop)]
pub struct Outbox {
    pub(crate) waiting: Vec<u8>,
    /// How many bytes at the front are written.
    start: usize,
    /// How many lines were left out since the last one that wasn't.
    left_out: u64,
    /// Whether each line is an object of JSON, and where the text of the newest one begins.
    pub is_json: bool,
    text: usize,
}

impl Outbox {
    pub fn new(alloc: Global, is_json: bool) -> Outbox {
        Outbox {
            waiting: Vec::new(alloc),
            start: 0,
            left_out: 0,
            is_json,
            text: 0,
        }
    }

    /// Begins a line with this time, in milliseconds since 1970. False where it is left out.
    pub(crate) fn begin(&mut self, time: u64) -> bool {
        if self.waiting.len().saturating_sub(self.start) > MOST {
            self.left_out = self.left_out.saturating_add(1);
            return false;
        }
        if self.left_out > 0 {
            let _ = self.tell_left_out(time);
            self.left_out = 0;
        }
        self.put_front(time).is_ok()
    }

    fn tell_left_out(&mut self, time: u64) -> io::Result<()> {
        self.put_front(time)?;
        let count = self.left_out;
        write!(
            self.waiting,
            "{count} lines are left out here, since nobody has read the log in time"
        )?;
        self.end(&NOBODY);
        Ok(())
    }

    /// What stands before a line's text.
    fn put_front(&mut self, time: u64) -> io::Result<()> {
        if self.is_json {
            write!(self.waiting, "{{\"time\":\"")?;
        }
        put_time(&mut self.waiting, time)?;
        if self.is_json {
            write!(self.waiting, "\",\"text\":\"")?;
        } else {
            write!(self.waiting, " ")?;
        }
        self.text = self.waiting.len();
        Ok(())
    }

    /// Ends a line that was begun, behind its text, with whose it is.
    pub fn end(&mut self, whom: &Whom<'_>) {
        if self.is_json {
            make_plain(&mut self.waiting, self.text);
            let _ = write!(self.waiting, "\"");
            put_json_whom(&mut self.waiting, whom);
            let _ = writeln!(self.waiting, "}}");
        } else {
            put_whom(&mut self.waiting, whom);
            let _ = writeln!(self.waiting, "");
        }
    }

    /// Appends a line without a time.
    pub fn add(&mut self, line: &str) {
        let _ = if self.is_json {
            writeln!(self.waiting, "{{\"text\":\"{line}\"}}")
        } else {
            writeln!(self.waiting, "{line}")
        };
    }

    /// What is to be written next.
    pub fn front(&self) -> &[u8] {
        let rest = match self.waiting.get(self.start..) {
            Some(rest) => rest,
            None => &[],
        };
        &rest[..rest.len().min(PIECE)]
    }

    /// So many bytes of that are written.
    pub fn written(&mut self, count: usize) {
        self.start = self.start.saturating_add(count);
        if self.start >= self.waiting.len() {
            self.clear();
        } else if self.start > WRITTEN {
            let left = self.waiting.len() - self.start;
            self.waiting.copy_within(self.start.., 0);
            self.waiting.truncate(left);
            self.start = 0;
        }
    }

    /// Nobody reads it: what waits is forgotten.
    pub fn clear(&mut self) {
        self.waiting.clear();
        self.start = 0;
    }
}

/// Of a text from this place on, what would need an escape in JSON becomes a `?`.
fn make_plain(text: &mut [u8], from: usize) {
    if let Some(rest) = text.get_mut(from..) {
        for byte in rest.iter_mut() {
            if *byte < b' ' || matches!(*byte, b'"' | b'\\') {
                *byte = b'?';
            }
        }
    }
}
