//! One event that is wrong.

use crate::similar::similar;
use json_places::{Page, Place, put_standing, put_value};
use serde_json::Value;
use std::alloc::{AllocError, Global};
use std::fmt::Write;

/// What stands behind an event's word.
#[derive(Clone, Copy)]
enum Field {
    Lease,
    Ticket,
    Connection,
    Count,
    Isolation,
    Text,
}

impl Field {
    /// What it is, in words.
    fn wanted(self) -> &'static str {
        match self {
            Field::Lease => "a lease's number, 0 to 4294967295",
            Field::Ticket => "a ticket's number, 0 to 4294967295",
            Field::Connection => "a connection's number, 0 to 4294967295",
            Field::Count => "a count of bytes, 0 to 4294967295",
            Field::Isolation => "an isolation level, 0 to 5",
            Field::Text => "a text of 1 to 2000 UTF-16 units",
        }
    }

    /// Whether a value can stand there.
    fn takes(self, value: &Value) -> bool {
        match self {
            Field::Isolation => value.as_u64().is_some_and(|level| level <= 5),
            Field::Text => match value.as_str() {
                None => false,
                Some(text) => (1..=2000).contains(&text.encode_utf16().count()),
            },
            _ => value
                .as_u64()
                .is_some_and(|number| number <= u64::from(u32::MAX)),
        }
    }
}

/// What an event's array has behind its word, of so many values, in a file of this version; none
/// where there is no such word.
fn fields_of(word: &str, count: usize, version: u64) -> Option<&'static [Field]> {
    match word {
        "commit" | "rollback" if version >= 2 && count == 2 => {
            Some(&[Field::Lease, Field::Isolation])
        }
        "lease" | "restart_server" | "restart_client" => Some(&[]),
        "resume" | "abandon" => Some(&[Field::Ticket]),
        "give_back" | "keep" | "commit" | "rollback" | "send" | "cancel" => Some(&[Field::Lease]),
        "batch" => Some(&[Field::Lease, Field::Text]),
        "begin" => Some(&[Field::Lease, Field::Isolation]),
        "clean" | "work" | "cut" => Some(&[Field::Connection]),
        "to_server" | "to_client" => Some(&[Field::Connection, Field::Count]),
        _ => None,
    }
}

/// The words of events, in the order of their table.
const WORDS: &str = "lease, resume, give_back, keep, abandon, clean, batch, begin, commit, \
    rollback, send, cancel, work, to_server, to_client, cut, restart_server, restart_client";

/// Whether a file of this version has no event of this word yet.
fn is_early(word: &str, version: u64) -> bool {
    version < 4 && word == "clean"
}

/// Whether a value is an event of a file of this version.
pub(crate) fn is_right(event: &Value, version: u64) -> bool {
    let Some([first, fields @ ..]) = event.as_array().map(|values| values.as_slice()) else {
        return false;
    };
    let Some(word) = first.as_str() else {
        return false;
    };
    match fields_of(word, fields.len(), version) {
        Some(wanted) => are_taken(wanted, fields) && !is_early(word, version),
        None => false,
    }
}

/// Whether these values can stand there.
fn are_taken(wanted: &[Field], fields: &[Value]) -> bool {
    for (wanted, value) in wanted.iter().zip(fields.iter()) {
        if !wanted.takes(value) {
            return false;
        }
    }
    wanted.len() == fields.len()
}

/// An event that is wrong.
#[derive(Clone, Copy)]
pub(crate) struct WrongEvent<'a> {
    pub(crate) alloc: Global,
    pub(crate) page: Page<'a>,
    /// The file's version.
    pub(crate) version: u64,
    /// Where the event begins, its number, from 1, how many bytes stand before it, and before its parts.
    pub(crate) place: Place,
    pub(crate) number: usize,
    pub(crate) at: usize,
    pub(crate) parts: &'a [usize],
}

impl WrongEvent<'_> {
    /// Appends what is wrong with it.
    pub(crate) fn put(&self, text: &mut String, event: &Value) -> Result<(), AllocError> {
        match event.as_array().map(|values| values.as_slice()) {
            Some([first, fields @ ..]) => self.put_values(text, first, fields),
            Some([]) => {
                self.put_front(text, self.at)?;
                text.push_str("an event's array begins with its word; here it is empty\n")
            }
            None => {
                self.put_front(text, self.at)?;
                text.push_str("an event is an array that begins with its word; ")?;
                put_standing(self.alloc, text, event)
            }
        }
    }

    /// Appends what is wrong with its word, or with what stands behind it.
    fn put_values(
        &self,
        text: &mut String,
        first: &Value,
        fields: &[Value],
    ) -> Result<(), AllocError> {
        let word = first.as_str().unwrap_or("");
        match fields_of(word, fields.len(), self.version) {
            Some(wanted) => self.put_fields(text, word, wanted, fields),
            None => self.put_no_word(text, first),
        }
    }

    /// Appends that no event has this word.
    fn put_no_word(&self, text: &mut String, first: &Value) -> Result<(), AllocError> {
        self.put_front(text, self.part(0))?;
        let Some(word) = first.as_str() else {
            text.push_str("an event begins with its word; ")?;
            return put_standing(self.alloc, text, first);
        };
        text.push_str("no event begins with ")?;
        put_value(self.alloc, text, first)?;
        match similar(self.alloc, word, WORDS)? {
            Some(other) => writeln!(text, "; did you mean \"{other}\""),
            None => writeln!(text, "; the words are {WORDS}"),
        }
    }

    /// Where a part of it begins.
    fn part(&self, index: usize) -> usize {
        self.parts.get(index).copied().unwrap_or(self.at)
    }

    fn put_front(&self, text: &mut String, at: usize) -> Result<(), AllocError> {
        let mut place = self.place;
        place.go_to(self.page.bytes, at);
        place.put(text, self.page.name)?;
        write!(text, "event {}: ", self.number)
    }

    /// Appends which field is wrong.
    fn put_fields(
        &self,
        text: &mut String,
        word: &str,
        wanted: &[Field],
        fields: &[Value],
    ) -> Result<(), AllocError> {
        if fields.len() != wanted.len() {
            return self.put_count(text, word, wanted, fields.len());
        }
        for (index, (value, wanted)) in fields.iter().zip(wanted.iter()).enumerate() {
            if !wanted.takes(value) {
                let nth = index.saturating_add(1);
                return self.put_other(text, word, nth, wanted.wanted(), value);
            }
        }
        self.put_front(text, self.part(0))?;
        writeln!(text, "this version of schedules has no such \"{word}\"")
    }

    /// Appends which values stand behind its word, and how many stand there.
    fn put_count(
        &self,
        text: &mut String,
        word: &str,
        wanted: &[Field],
        stand: usize,
    ) -> Result<(), AllocError> {
        self.put_front(text, self.part(0))?;
        write!(text, "behind \"{word}\" ")?;
        put_wanted(text, wanted)?;
        match stand {
            1 => text.push_str("; here 1 stands\n"),
            2 if self.is_of_later_version(word) => {
                text.push_str("; here 2 stand, as later versions have it\n")
            }
            count => writeln!(text, "; here {count} stand"),
        }
    }

    /// Whether later versions have the event of this word with a second value.
    fn is_of_later_version(&self, word: &str) -> bool {
        self.version < 2 && matches!(word, "commit" | "rollback")
    }

    /// Appends what the value at this place, from 1, is, and what stands there.
    fn put_other(
        &self,
        text: &mut String,
        word: &str,
        nth: usize,
        wanted: &str,
        value: &Value,
    ) -> Result<(), AllocError> {
        self.put_front(text, self.part(nth))?;
        write!(text, "value {nth} behind \"{word}\" is {wanted}; ")?;
        put_standing(self.alloc, text, value)
    }
}

/// Appends which values stand behind a word.
fn put_wanted(text: &mut String, wanted: &[Field]) -> Result<(), AllocError> {
    match wanted {
        [] => text.push_str("nothing stands"),
        [one] => write!(text, "1 value stands: {}", one.wanted()),
        [first, second] => {
            let (first, second) = (first.wanted(), second.wanted());
            write!(text, "2 values stand: {first}, and {second}")
        }
        _ => Ok(()),
    }
}
