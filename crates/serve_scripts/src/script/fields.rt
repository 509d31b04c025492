//! What stands behind an event's word, and the event that it makes.

use crate::script::{Breach, Event, Pattern, Which};
use serde_json::Value;
use serve_recordings::bytes_of;
use serve_requests::LONGEST;
use serve_states::{Vice, is_state};
use std::alloc::{AllocError, Global};

/// The most that a number in a script may be.
const LARGEST: u64 = 1_000_000;

/// What stands behind an event's word.
#[derive(Clone, Copy)]
pub(crate) enum Field {
    Request,
    Steps,
    Bytes,
    Piece,
    Milliseconds,
    Text,
    Batch,
    Breach,
    State,
    /// Tokens in hexadecimal digits, which are an answer.
    Tokens,
    /// The same, and they need not be one.
    AnyTokens,
}

impl Field {
    /// What it is, in words.
    pub(crate) fn wanted(self) -> &'static str {
        match self {
            Field::Request => "a request's number on its connection, 0 to 1000000, or its text",
            Field::Steps => "a count of steps, 0 to 1000000",
            Field::Bytes => "a count of bytes, 0 to 1000000",
            Field::Piece => "a count of bytes, 1 to 1000000",
            Field::Milliseconds => "a count of milliseconds, 0 to 1000000",
            Field::Text => "a text of a request",
            Field::Batch => "a text of 1 to 2000 units",
            Field::Breach => "one of no_done, no_end, unasked and more",
            Field::State => "the name of a session's state",
            Field::Tokens | Field::AnyTokens => "a text of tokens in hexadecimal digits",
        }
    }

    /// Whether a value can stand there.
    pub(crate) fn takes(self, value: &Value) -> bool {
        match self {
            Field::Request => is_number(value, 0) || value.as_str().is_some(),
            Field::Steps | Field::Bytes | Field::Milliseconds => is_number(value, 0),
            Field::Piece => is_number(value, 1),
            Field::Text | Field::Tokens | Field::AnyTokens => value.as_str().is_some(),
            Field::Breach => breach_of(value.as_str().unwrap_or("")).is_some(),
            Field::State => is_state(value.as_str().unwrap_or("")),
            Field::Batch => match value.as_str() {
                Some(text) => (1..=LONGEST).contains(&text.encode_utf16().count()),
                None => false,
            },
        }
    }
}

/// Whether a value is a number from this one on.
fn is_number(value: &Value, least: u64) -> bool {
    match value.as_u64() {
        Some(number) => number >= least && number <= LARGEST,
        None => false,
    }
}

/// What stands behind a word; none where there is no such word.
pub(crate) fn fields_of(word: &str) -> Option<&'static [Field]> {
    match word {
        "hold" | "cross" => Some(&[Field::Request, Field::Steps]),
        "cut" => Some(&[Field::Request, Field::Bytes]),
        "split" => Some(&[Field::Piece]),
        "answer" => Some(&[Field::Text, Field::Batch]),
        "answer_hex" => Some(&[Field::Text, Field::Tokens]),
        "broken_hex" => Some(&[Field::Text, Field::AnyTokens]),
        "deaf" => Some(&[Field::Request]),
        "late" => Some(&[Field::Request, Field::Milliseconds]),
        "close" => Some(&[Field::Milliseconds]),
        "refuse" | "fail_reset" | "last_number" | "unrecoverable" => Some(&[]),
        "untold" | "left" => Some(&[Field::State]),
        "long" => Some(&[Field::State, Field::Bytes]),
        "break" => Some(&[Field::Request, Field::Breach]),
        _ => None,
    }
}

/// The breach of this name.
fn breach_of(name: &str) -> Option<Breach> {
    match name {
        "no_done" => Some(Breach::NoDone),
        "no_end" => Some(Breach::NoEnd),
        "unasked" => Some(Breach::Unasked),
        "more" => Some(Breach::More),
        _ => None,
    }
}

/// The event of this word with these values, each of which can stand there.
pub(crate) fn event_of(
    alloc: Global,
    word: &str,
    fields: &[Value],
) -> Result<Option<Event>, AllocError> {
    match word {
        "refuse" => Ok(Some(Event::Refuse)),
        "fail_reset" => Ok(Some(Event::FailReset)),
        "split" | "close" => Ok(lone_event(word, fields.first())),
        "answer" | "answer_hex" | "broken_hex" => text_event(alloc, word, fields),
        "last_number" => Ok(Some(Event::Tells(Vice::LastNumber))),
        "unrecoverable" => Ok(Some(Event::Tells(Vice::Unrecoverable))),
        "untold" | "left" | "long" => state_event(alloc, word, fields),
        _ => request_event(alloc, word, fields),
    }
}

/// The event of this word that has a number alone.
fn lone_event(word: &str, value: Option<&Value>) -> Option<Event> {
    let number = number_of(value?)?;
    if word == "split" {
        Some(Event::Split { bytes: number })
    } else {
        Some(Event::Close {
            milliseconds: number,
        })
    }
}

/// The event of this word that is of one state.
fn state_event(alloc: Global, word: &str, fields: &[Value]) -> Result<Option<Event>, AllocError> {
    let [name, rest @ ..] = fields else {
        return Ok(None);
    };
    let name = String::from_str(alloc, name.as_str().unwrap_or(""))?;
    let vice = match (word, rest) {
        ("untold", _) => Vice::Untold(name),
        ("left", _) => Vice::Left(name),
        (_, [number]) => {
            let bytes = number_of(number).unwrap_or(0) as usize;
            Vice::Long { name, bytes }
        }
        _ => return Ok(None),
    };
    Ok(Some(Event::Tells(vice)))
}

/// The event of this word that answers a text.
fn text_event(alloc: Global, word: &str, fields: &[Value]) -> Result<Option<Event>, AllocError> {
    let [text, answer] = fields else {
        return Ok(None);
    };
    let text = pattern_of(alloc, text.as_str().unwrap_or(""))?;
    let answer = answer.as_str().unwrap_or("");
    if word == "answer" {
        let batch = units_of(alloc, answer)?;
        return Ok(Some(Event::Answer { text, batch }));
    }
    match bytes_of(alloc, answer)? {
        Ok(tokens) => Ok(Some(Event::Tokens { text, tokens })),
        Err(_) => Ok(None),
    }
}

/// The event of this word that is of one request.
fn request_event(alloc: Global, word: &str, fields: &[Value]) -> Result<Option<Event>, AllocError> {
    let [request, rest @ ..] = fields else {
        return Ok(None);
    };
    let request = which_of(alloc, request)?;
    match (word, rest) {
        ("deaf", _) => Ok(Some(Event::Deaf { request })),
        ("break", [name]) => {
            let breach = breach_of(name.as_str().unwrap_or("")).unwrap_or(Breach::NoDone);
            Ok(Some(Event::Break { request, breach }))
        }
        (_, [number]) => {
            let number = number_of(number).unwrap_or(0);
            Ok(Some(numbered_event(word, request, number)))
        }
        _ => Ok(None),
    }
}

/// The event of this word that is of one request and has this number.
fn numbered_event(word: &str, request: Which, number: u32) -> Event {
    match word {
        "hold" => Event::Hold {
            request,
            steps: number,
        },
        "cross" => Event::Cross {
            request,
            steps: number,
        },
        "late" => Event::Late {
            request,
            milliseconds: number,
        },
        _ => Event::Cut {
            request,
            bytes: number,
        },
    }
}

/// The request that a value names.
fn which_of(alloc: Global, value: &Value) -> Result<Which, AllocError> {
    match value.as_str() {
        Some(text) => Ok(Which::Text(pattern_of(alloc, text)?)),
        None => Ok(Which::Number(number_of(value).unwrap_or(0))),
    }
}

/// The texts that are like this one: a star at its end stands for anything.
fn pattern_of(alloc: Global, text: &str) -> Result<Pattern, AllocError> {
    let is_front = text.ends_with('*');
    let mut text = units_of(alloc, text)?;
    if is_front {
        let _ = text.pop();
    }
    Ok(Pattern { text, is_front })
}

/// The units of a text.
fn units_of(alloc: Global, text: &str) -> Result<Vec<u16>, AllocError> {
    let mut units = Vec::new(alloc);
    for unit in text.encode_utf16() {
        units.push(unit)?;
    }
    Ok(units)
}

fn number_of(value: &Value) -> Option<u32> {
    u32::try_from(value.as_u64()?).ok()
}
