//! The keys of a file that is an object.

use crate::findings::Findings;
use crate::outline::Member;
use crate::page::Page;
use crate::places::put_place;
use crate::values::put_standing;
use serde_json::Value;
use std::alloc::AllocError;
use std::collections::BTreeSet;
use std::fmt::Write;

/// Which values a key takes.
#[derive(Clone, Copy)]
pub enum Takes {
    /// A whole number, from the least to the most.
    Whole { least: u64, most: u64 },
    /// An array of at most so many items.
    Array { most: usize },
    /// True or false.
    Choice,
}

impl Takes {
    fn takes(self, value: &Value) -> bool {
        match self {
            Takes::Whole { least, most } => value
                .as_u64()
                .is_some_and(|number| least <= number && number <= most),
            Takes::Array { most } => value.as_array().is_some_and(|values| values.len() <= most),
            Takes::Choice => value.is_boolean(),
        }
    }
}

/// A key of a file, the values that it takes, and what these are in words.
#[derive(Clone, Copy)]
pub struct Key {
    pub name: &'static str,
    pub takes: Takes,
    pub wanted: &'static str,
}

/// Appends a line where the value that an object has at a key isn't one that the key takes. The value
/// begins behind so many bytes.
pub fn put_value_fault(
    text: &mut String,
    page: Page<'_>,
    at: usize,
    key: &Key,
    object: &Value,
) -> Result<(), AllocError> {
    match object.get(key.name) {
        Some(value) => put_misfit(text, page, at, key, value),
        None => Ok(()),
    }
}

/// Appends a line where this value, which begins behind so many bytes, isn't one that a key takes.
pub fn put_misfit(
    text: &mut String,
    page: Page<'_>,
    at: usize,
    key: &Key,
    value: &Value,
) -> Result<(), AllocError> {
    if key.takes.takes(value) {
        return Ok(());
    }
    put_place(text, page, at)?;
    write!(text, "\"{}\" is {}; ", key.name, key.wanted)?;
    put_standing(*text.allocator(), text, value)
}

/// Appends a line for each key that is none of these. `names` has them in words.
pub fn put_unknown_keys(
    text: &mut String,
    page: Page<'_>,
    members: &[Member],
    keys: &[Key],
    names: &str,
) -> Result<(), AllocError> {
    let mut findings = Findings::new();
    for member in members {
        if is_of(keys, member.key.as_str()) {
            continue;
        }
        if let Some(place) = findings.next(page, member.key_at) {
            place.put(text, page.name)?;
            let shown = member.key.escape_debug();
            writeln!(text, "the key \"{shown}\" is none of {names}")?;
        }
    }
    findings.put_rest(text, page, "keys that are none of these")
}

/// Whether one of these keys has this name.
fn is_of(keys: &[Key], name: &str) -> bool {
    for key in keys {
        if key.name == name {
            return true;
        }
    }
    false
}

/// Appends a line for each key that stands twice.
pub fn put_doubled(
    text: &mut String,
    page: Page<'_>,
    members: &[Member],
) -> Result<(), AllocError> {
    let mut findings = Findings::new();
    let mut before = BTreeSet::new(*text.allocator());
    for member in members {
        let key = member.key.as_str();
        if before.insert(key)? {
            continue;
        }
        if let Some(place) = findings.next(page, member.key_at) {
            place.put(text, page.name)?;
            let shown = key.escape_debug();
            writeln!(
                text,
                "the key \"{shown}\" stands twice, and the value here counts"
            )?;
        }
    }
    findings.put_rest(text, page, "keys that stand twice")
}
