//! One state of a session.

use crate::names::lowered;
use crate::tokens::put_state;
use std::alloc::{AllocError, Global};

/// A state: what a login leaves it at, what it is now, and what of that was told.
#[derive(Drop)]
pub(crate) struct State {
    pub name: String,
    pub initial: Vec<u8>,
    pub value: Vec<u8>,
    pub is_recoverable: bool,
    /// Whether its value is to be told.
    pub is_due: bool,
    /// Whether it is told in the answer that is underway.
    pub is_underway: bool,
    /// Whether it is never told, and whether a reset leaves it: against the rules.
    pub is_untold: bool,
    pub is_left: bool,
    /// How many bytes its value is told with at least, where it isn't what a login leaves.
    pub length: usize,
}

impl State {
    /// A state as a login leaves it.
    pub(crate) fn new(alloc: Global, name: &str, initial: &[u8]) -> Result<State, AllocError> {
        Ok(State {
            name: String::from_str(alloc, name)?,
            initial: copy(alloc, initial)?,
            value: copy(alloc, initial)?,
            is_recoverable: true,
            is_due: false,
            is_underway: false,
            is_untold: false,
            is_left: false,
            length: 0,
        })
    }

    /// It has this value now.
    pub(crate) fn set(&mut self, value: Vec<u8>, is_recoverable: bool) {
        if self.value.as_slice() != value.as_slice() || self.is_recoverable != is_recoverable {
            self.value = value;
            self.is_recoverable = is_recoverable;
            self.is_due = true;
        }
    }

    /// A reset.
    pub(crate) fn reset(&mut self, alloc: Global) -> Result<(), AllocError> {
        let is_as_it_was = self.is_recoverable && self.value.as_slice() == self.initial.as_slice();
        if !self.is_left && !is_as_it_was {
            let initial = copy(alloc, self.initial.as_slice())?;
            self.set(initial, true);
        }
        Ok(())
    }

    /// Appends it as it is now, with this number.
    pub(crate) fn put(&self, alloc: Global, out: &mut Vec<u8>, id: u8) -> Result<(), AllocError> {
        let mut value = copy(alloc, self.value.as_slice())?;
        if self.value.as_slice() != self.initial.as_slice() {
            for _ in value.len()..self.length {
                value.push(0)?;
            }
        }
        put_state(out, id, value.as_slice())
    }
}

/// The bytes again, in memory of their own.
pub(crate) fn copy(alloc: Global, bytes: &[u8]) -> Result<Vec<u8>, AllocError> {
    let mut copy = Vec::with_capacity(alloc, bytes.len())?;
    copy.extend_from_slice(bytes)?;
    Ok(copy)
}

/// The bytes of a text's first units, its letters as small ones.
pub(crate) fn bytes_of(alloc: Global, text: &[u16]) -> Result<Vec<u8>, AllocError> {
    let mut bytes = Vec::new(alloc);
    for unit in &text[..text.len().min(128)] {
        bytes.extend_from_slice(&lowered(*unit).to_le_bytes())?;
    }
    Ok(bytes)
}

/// The bytes of the units of a text of ASCII.
pub(crate) fn bytes_in(alloc: Global, text: &str) -> Result<Vec<u8>, AllocError> {
    let mut bytes = Vec::new(alloc);
    for byte in text.as_bytes() {
        bytes.extend_from_slice(&[*byte, 0])?;
    }
    Ok(bytes)
}
