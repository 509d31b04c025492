//! Where the parts of a file stand that is an object of keys, with a list of events.

use crate::places::{is_space, parts_of};
use serde_json::Value;
use std::alloc::{AllocError, Global};

/// A key of the outermost object, and where it and its value stand.
#[derive(Drop)]
pub struct Member {
    pub key: String,
    pub key_at: usize,
    pub value_at: usize,
}

/// Where the parts of a file stand.
#[derive(Drop)]
pub struct Outline {
    /// Where the outermost value begins.
    pub start: usize,
    pub members: Vec<Member>,
    /// Where each event begins.
    pub events: Vec<usize>,
}

impl Outline {
    /// Reads bytes that are JSON.
    pub fn read(alloc: Global, bytes: &[u8]) -> Result<Outline, AllocError> {
        let start = bytes.iter().position(|byte| !is_space(*byte)).unwrap_or(0);
        let members = match bytes.get(start) {
            Some(b'{') => members_of(alloc, bytes, start)?,
            _ => Vec::new(alloc),
        };
        let mut outline = Outline {
            start,
            members,
            events: Vec::new(alloc),
        };
        if let Some(at) = outline.value_at("events") {
            outline.events = parts_of(alloc, bytes, at)?;
        }
        Ok(outline)
    }

    /// Where the value of a key stands: the last one, where there are several.
    pub fn value_at(&self, key: &str) -> Option<usize> {
        let mut found = None;
        for member in self.members.iter() {
            if member.key.as_str() == key {
                found = Some(member.value_at);
            }
        }
        found
    }

    /// Where an event begins, from 0.
    pub fn event_at(&self, index: usize) -> usize {
        self.events
            .as_slice()
            .get(index)
            .copied()
            .unwrap_or(self.start)
    }
}

/// The keys of the object that begins behind so many bytes.
fn members_of(alloc: Global, bytes: &[u8], start: usize) -> Result<Vec<Member>, AllocError> {
    let parts = parts_of(alloc, bytes, start)?;
    let mut members = Vec::new(alloc);
    put_members(alloc, &mut members, bytes, parts.as_slice())?;
    Ok(members)
}

/// Appends the keys whose parts begin there: each key and its value in turn.
fn put_members(
    alloc: Global,
    members: &mut Vec<Member>,
    bytes: &[u8],
    parts: &[usize],
) -> Result<(), AllocError> {
    for pair in parts.chunks(2) {
        let [key_at, value_at] = pair else {
            break;
        };
        let key = key_of(alloc, bytes.get(*key_at..*value_at).unwrap_or(&[]))?;
        members.push(Member {
            key,
            key_at: *key_at,
            value_at: *value_at,
        })?;
    }
    Ok(())
}

/// The key that bytes spell which hold it and a colon.
fn key_of(alloc: Global, bytes: &[u8]) -> Result<String, AllocError> {
    let end = bytes.iter().rposition(|byte| *byte == b'"').unwrap_or(0);
    // Most keys have no escape, and stand for themselves.
    if let Some(Ok(key)) = bytes.get(1..end).map(|inner| str::from_utf8(inner)) {
        if !key.contains('\\') {
            return String::from_str(alloc, key);
        }
    }
    let spelled = bytes.get(..=end).unwrap_or(&[]);
    match Value::from_slice(alloc, spelled) {
        Ok(value) => String::from_str(alloc, value.as_str().unwrap_or("")),
        Err(_) => Err(AllocError),
    }
}
