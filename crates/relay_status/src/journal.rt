//! The log, a line for each thing that happens, and what is counted.

use crate::counts::Counts;
use crate::judged::Blamed;
use crate::latency::Latency;
use crate::outbox::Outbox;
use crate::whom::{NOBODY, Whom};
use judge_words::{level_text, word_of};
use std::alloc::Global;
use std::io::Write;
use tds_judge::Finding;

/// The time since the relay began, and the milliseconds since 1970.
#[derive(Clone, Copy)]
pub struct Moment {
    pub millis: u64,
    pub micros: u64,
    pub time: u64,
}

/// The log, and all counts.
#[derive(Drop)]
pub struct Journal {
    pub lines: Outbox,
    /// Whether each application and each connection has lines.
    pub is_logged: bool,
    /// The time of this round.
    pub moment: Moment,
    pub counts: Counts,
    /// How long requests took, and logins of connections.
    pub requests: Latency,
    pub logins: Latency,
}

impl Journal {
    /// A log that is empty, whose lines are objects of JSON or not.
    pub fn new(alloc: Global, is_logged: bool, is_json: bool) -> Journal {
        Journal {
            lines: Outbox::new(alloc, is_json),
            is_logged,
            moment: Moment {
                millis: 0,
                micros: 0,
                time: 0,
            },
            counts: Counts::none(),
            requests: Latency::none(),
            logins: Latency::none(),
        }
    }

    /// A line about what has this number, where lines are asked for, and whose it is.
    pub fn say(&mut self, what: &str, number: u64, words: &str, whom: &Whom<'_>) {
        if let Some(out) = self.line() {
            let _ = write!(out, "{what} {number} {words}");
            self.lines.end(whom);
        }
    }

    /// The same, with something behind a blank.
    pub fn say_of(&mut self, what: &str, number: u64, words: &str, more: &str, whom: &Whom<'_>) {
        if let Some(out) = self.line() {
            let _ = write!(out, "{what} {number} {words}");
            let _ = write!(out, " {more}");
            self.lines.end(whom);
        }
    }

    /// A line about the relay as a whole, where lines are asked for.
    pub fn note(&mut self, words: &str) {
        self.note_of(words, &NOBODY);
    }

    /// The same, and whose doing it is.
    pub fn note_of(&mut self, words: &str, whom: &Whom<'_>) {
        if let Some(out) = self.line() {
            let _ = write!(out, "{words}");
            self.lines.end(whom);
        }
    }

    /// A line about a finding: its name and its weight, whose it is, the socket, and where it stands.
    pub fn found(&mut self, blamed: Blamed, number: u64, finding: &Finding, whom: &Whom<'_>) {
        if !self.begin_line() {
            return;
        }
        let out = &mut self.lines.waiting;
        let (name, weight) = (word_of(finding.name), level_text(finding.name.level()));
        let _ = write!(out, "found {name} ({weight}) of {}", blamed.words());
        let (offset, value) = (finding.spot.offset, finding.value);
        let _ = write!(out, ", socket {number}, byte {offset}, value {value}");
        self.lines.end(whom);
    }

    /// Begins a line, where lines are asked for: what it says is to be appended, and then it is to be ended.
    /// None where it isn't to be said.
    pub fn line(&mut self) -> Option<&mut Vec<u8>> {
        if self.is_logged && self.begin_line() {
            Some(&mut self.lines.waiting)
        } else {
            None
        }
    }

    fn begin_line(&mut self) -> bool {
        let begins = self.lines.begin(self.moment.time);
        if !begins {
            self.counts.left_out = self.counts.left_out.saturating_add(1);
        }
        begins
    }
}
