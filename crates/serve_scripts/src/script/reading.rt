//! Script files: a JSON object with the keys `version` and `events`, each event an array that begins with
//! its word.

use crate::script::fields::{Field, event_of, fields_of};
use crate::script::similar::similar;
use crate::script::tokens::fault_of;
use crate::script::{Event, Script, ScriptFault};
use json_places::{
    Key, Outline, Page, Place, Takes, parts_of, put_doubled, put_json_fault, put_place,
    put_standing, put_unknown_keys, put_value, put_value_fault,
};
use serde_json::Value;
use serve_recordings::bytes_of;
use std::alloc::{AllocError, Global};
use std::fmt::Write;

/// The keys of a script.
const KEYS: [Key; 2] = [
    Key {
        name: "version",
        takes: Takes::Whole { least: 1, most: 1 },
        wanted: "the number 1",
    },
    Key {
        name: "events",
        takes: Takes::Array { most: MOST },
        wanted: "an array of at most 1000 events",
    },
];

/// The words of events.
const WORDS: &str = "hold, cross, cut, split, answer, answer_hex, broken_hex, deaf, late, close, \
     refuse, fail_reset, break, untold, left, long, last_number, unrecoverable";

/// The most events of a script.
const MOST: usize = 1000;

/// Reads a script file of this name.
pub fn read_script(alloc: Global, name: &str, bytes: &[u8]) -> Result<Script, ScriptFault> {
    let page = Page { name, bytes };
    let mut text = String::new(alloc);
    match read_page(alloc, &mut text, page)? {
        Some(events) => Ok(Script::of(events)),
        None => Err(wrong(text)),
    }
}

/// The events of a file; or what is wrong with it is appended.
fn read_page(
    alloc: Global,
    text: &mut String,
    page: Page<'_>,
) -> Result<Option<Vec<Event>>, AllocError> {
    match Value::from_slice(alloc, page.bytes) {
        Ok(value) => read_value(alloc, text, page, &value),
        Err(error) if error.is_memory() => Err(AllocError),
        Err(_) => {
            put_json_fault(alloc, text, page)?;
            Ok(None)
        }
    }
}

/// The events of a file that spells this value; or all that is wrong with it is appended.
fn read_value(
    alloc: Global,
    text: &mut String,
    page: Page<'_>,
    value: &Value,
) -> Result<Option<Vec<Event>>, AllocError> {
    let outline = Outline::read(alloc, page.bytes)?;
    put_outside_faults(alloc, text, page, &outline, value)?;
    let events = read_events(alloc, text, page, &outline, value)?;
    Ok(if text.is_empty() { Some(events) } else { None })
}

/// The events that are right; what is wrong with the others is appended. Of too many none is looked at.
fn read_events(
    alloc: Global,
    text: &mut String,
    page: Page<'_>,
    outline: &Outline,
    value: &Value,
) -> Result<Vec<Event>, AllocError> {
    let mut events = Vec::new(alloc);
    let values = match value.get("events") {
        Some(Value::Array(values)) if values.len() <= MOST => values.as_slice(),
        _ => &[],
    };
    // The file is gone over once, however many are wrong.
    let mut place = Place::start();
    for (index, value) in values.iter().enumerate() {
        let at = outline.event_at(index);
        place.go_to(page.bytes, at);
        let event = Numbered {
            number: index.saturating_add(1),
            place,
            at,
        };
        if let Some(event) = read_event(alloc, text, page, event, value)? {
            events.push(event)?;
        }
    }
    Ok(events)
}

/// The fault of these lines, without the last one's end, which is its reader's.
fn wrong(mut lines: String) -> ScriptFault {
    lines.pop();
    ScriptFault::Wrong(lines)
}

/// Appends a line for each thing that is wrong outside of the events.
fn put_outside_faults(
    alloc: Global,
    text: &mut String,
    page: Page<'_>,
    outline: &Outline,
    value: &Value,
) -> Result<(), AllocError> {
    if !value.is_object() {
        put_place(text, page, outline.start)?;
        text.push_str("a script is an object with the keys version and events; ")?;
        return put_standing(alloc, text, value);
    }
    let members = outline.members.as_slice();
    for key in &KEYS {
        put_key_fault(text, page, outline, key, value)?;
    }
    put_unknown_keys(text, page, members, &KEYS, "version and events")?;
    put_doubled(text, page, members)
}

/// Appends a line where a key of a script is missing, or has a value that no script has there.
fn put_key_fault(
    text: &mut String,
    page: Page<'_>,
    outline: &Outline,
    key: &Key,
    value: &Value,
) -> Result<(), AllocError> {
    match outline.value_at(key.name) {
        Some(at) => put_value_fault(text, page, at, key, value),
        None => {
            put_place(text, page, outline.start)?;
            writeln!(text, "the key \"{}\" is missing", key.name)
        }
    }
}

/// An event's number, from 1, its place, and how many bytes stand before it.
#[derive(Clone, Copy)]
struct Numbered {
    number: usize,
    place: Place,
    at: usize,
}

/// An event in a file.
#[derive(Clone, Copy)]
struct Spot<'a> {
    alloc: Global,
    page: Page<'a>,
    event: Numbered,
    /// Where its parts begin.
    parts: &'a [usize],
}

/// The event that stands there; or what is wrong with it is appended.
fn read_event(
    alloc: Global,
    text: &mut String,
    page: Page<'_>,
    event: Numbered,
    value: &Value,
) -> Result<Option<Event>, AllocError> {
    let parts = parts_of(alloc, page.bytes, event.at)?;
    let spot = Spot {
        alloc,
        page,
        event,
        parts: parts.as_slice(),
    };
    spot.read(text, value)
}

impl Spot<'_> {
    /// The event, of this value; or what is wrong with it is appended.
    fn read(&self, text: &mut String, value: &Value) -> Result<Option<Event>, AllocError> {
        if let Some(values) = value.as_array() {
            if let [first, fields @ ..] = values.as_slice() {
                return self.read_fields(text, first, fields);
            }
        }
        self.put_front(text, self.event.at)?;
        text.push_str("an event is an array that begins with its word; ")?;
        put_standing(self.alloc, text, value)?;
        Ok(None)
    }

    /// The event of this word with what stands behind it; or what is wrong with them is appended.
    fn read_fields(
        &self,
        text: &mut String,
        first: &Value,
        fields: &[Value],
    ) -> Result<Option<Event>, AllocError> {
        let word = first.as_str().unwrap_or("");
        let Some(wanted) = fields_of(word) else {
            self.put_no_word(text, first)?;
            return Ok(None);
        };
        if self.put_field_faults(text, word, wanted, fields)? {
            return Ok(None);
        }
        event_of(self.alloc, word, fields)
    }

    /// Where a part of it begins.
    fn part(&self, index: usize) -> usize {
        self.parts.get(index).copied().unwrap_or(self.event.at)
    }

    fn put_front(&self, text: &mut String, at: usize) -> Result<(), AllocError> {
        let mut place = self.event.place;
        place.go_to(self.page.bytes, at);
        place.put(text, self.page.name)?;
        write!(text, "event {}: ", self.event.number)
    }

    /// Appends that no event has this word, and which it may be.
    fn put_no_word(&self, text: &mut String, first: &Value) -> Result<(), AllocError> {
        self.put_front(text, self.part(0))?;
        text.push_str("no event begins with ")?;
        put_value(self.alloc, text, first)?;
        match similar(self.alloc, first.as_str().unwrap_or(""), WORDS)? {
            Some(word) => writeln!(text, "; did you mean \"{word}\""),
            None => writeln!(text, "; the words are {WORDS}"),
        }
    }

    /// Appends which fields behind its word are wrong, and answers whether one is.
    fn put_field_faults(
        &self,
        text: &mut String,
        word: &str,
        wanted: &[Field],
        fields: &[Value],
    ) -> Result<bool, AllocError> {
        if fields.len() != wanted.len() {
            self.put_count(text, word, wanted, fields.len())?;
            return Ok(true);
        }
        let mut is_wrong = false;
        for (index, (value, wanted)) in fields.iter().zip(wanted.iter()).enumerate() {
            if !wanted.takes(value) {
                self.put_other(text, word, index.saturating_add(1), wanted.wanted(), value)?;
                is_wrong = true;
            }
        }
        let has_no_tokens = self.put_tokens_fault(text, word, wanted.last(), fields.last())?;
        Ok(is_wrong || has_no_tokens)
    }

    /// Appends what is wrong with tokens in hexadecimal digits that stand last, and answers whether
    /// something is.
    fn put_tokens_fault(
        &self,
        text: &mut String,
        word: &str,
        wanted: Option<&Field>,
        value: Option<&Value>,
    ) -> Result<bool, AllocError> {
        let (Some(Field::Tokens | Field::AnyTokens), Some(value)) = (wanted, value) else {
            return Ok(false);
        };
        let Some(digits) = value.as_str() else {
            return Ok(false);
        };
        let tokens = match bytes_of(self.alloc, digits)? {
            Ok(tokens) => tokens,
            Err(place) => {
                self.put_front(text, self.part(2))?;
                writeln!(
                    text,
                    "value 2 behind \"{word}\" has no digit at character {place}"
                )?;
                return Ok(true);
            }
        };
        if matches!(wanted, Some(Field::AnyTokens)) {
            return Ok(false);
        }
        let Some((at, why)) = fault_of(self.alloc, tokens.as_slice())? else {
            return Ok(false);
        };
        self.put_front(text, self.part(2))?;
        writeln!(
            text,
            "value 2 behind \"{word}\" is no answer at byte {at}: {why}"
        )?;
        Ok(true)
    }

    /// Appends which values stand behind its word, and how many stand there.
    fn put_count(
        &self,
        text: &mut String,
        word: &str,
        wanted: &[Field],
        stand: usize,
    ) -> Result<(), AllocError> {
        let count = wanted.len();
        self.put_front(text, self.part(0))?;
        write!(text, "behind \"{word}\" stand {count} values")?;
        for (index, wanted) in wanted.iter().enumerate() {
            text.push_str(if index == 0 { ": " } else { ", and " })?;
            text.push_str(wanted.wanted())?;
        }
        writeln!(text, "; here stand {stand}")
    }

    /// Appends what the field at this place, from 1, is, and what stands there.
    fn put_other(
        &self,
        text: &mut String,
        word: &str,
        nth: usize,
        wanted: &str,
        value: &Value,
    ) -> Result<(), AllocError> {
        self.put_front(text, self.part(nth))?;
        write!(text, "value {nth} behind \"{word}\" is {wanted}; ")?;
        put_standing(self.alloc, text, value)
    }
}
