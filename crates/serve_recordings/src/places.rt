//! Where in a recording's file something stands.

use json_places::{Outline, Page, parts_of};
use std::alloc::{AllocError, Global};

/// The place of an event: its probe, its connection and itself, each from 0. What is missing of it is that of
/// what it stands in.
#[derive(Clone, Copy, Debug)]
pub(crate) struct Path {
    pub probe: usize,
    pub connection: Option<usize>,
    pub event: Option<usize>,
}

/// Where what stands at this place begins, or its value of this key.
pub(crate) fn offset_of(
    alloc: Global,
    page: Page<'_>,
    path: Path,
    key: &str,
) -> Result<usize, AllocError> {
    let outline = Outline::read(alloc, page.bytes)?;
    let probes = outline.value_at("probes").unwrap_or(outline.start);
    let mut at = part_at(alloc, page, probes, path.probe)?;
    if let Some(connection) = path.connection {
        let connections = value_at(alloc, page, at, "connections")?;
        at = part_at(alloc, page, connections, connection)?;
    }
    if let Some(event) = path.event {
        at = part_at(alloc, page, at, event)?;
    }
    value_at(alloc, page, at, key)
}

/// Where a part of what begins there begins; where it has no such part, where it begins itself.
fn part_at(alloc: Global, page: Page<'_>, at: usize, index: usize) -> Result<usize, AllocError> {
    let parts = parts_of(alloc, page.bytes, at)?;
    Ok(parts.as_slice().get(index).copied().unwrap_or(at))
}

/// Where the value of a key of the object that begins there begins; where it has no such key, where the
/// object begins.
fn value_at(alloc: Global, page: Page<'_>, at: usize, key: &str) -> Result<usize, AllocError> {
    let parts = parts_of(alloc, page.bytes, at)?;
    let mut found = at;
    for pair in parts.as_slice().chunks(2) {
        if let [key_at, value_at] = pair {
            if is_key(page.bytes.get(*key_at..*value_at).unwrap_or(&[]), key) {
                found = *value_at;
            }
        }
    }
    Ok(found)
}

/// Whether bytes spell this key, in its quotes.
fn is_key(bytes: &[u8], key: &str) -> bool {
    match bytes {
        [b'"', inner @ ..] => match inner.get(..key.len()) {
            Some(front) => front == key.as_bytes() && inner.get(key.len()) == Some(&b'"'),
            None => false,
        },
        _ => false,
    }
}
