//! Bytes that are kept, up to a most.

ghost use Rattle.std.specs.Prelude.{◌≡◌, ◌≤◌, ◌==◌, [], IfOk, drop, length, take};
ghost use Rattle.tds_state.specs.KeptBytes.{has_room, no_bytes_kept, with_more_kept};

use crate::NoMemory;
use std::alloc::Global;
use std::marker::Model;

/// The first bytes of all that come, up to a most. Their room is taken at the beginning.
#[derive(Drop)]
pub struct Kept {
    bytes: Vec<u8>,
    most: usize,
}

impl Model for Kept {
    ghost use Rattle.std.specs.Prelude.{◌≤◌, vec_len, vec_capacity};
    ghost use Rattle.tds_state.specs.KeptBytes.{KeptBytes, keeping_of};

    ghost Value = { KeptBytes };

    ghost view = { keeping_of };

    ghost invariant = { λ k. (vec_len k.bytes ≤ k.most) × (k.most ≤ vec_capacity k.bytes) };
}

/// As many of these as that, the first ones.
pub(crate) fn first_of(most: usize, bytes: &[u8]) -> &[u8]
    ensures front { result.now ≡ take most bytes.now }
    ensures few { length result.now ≤ most }
{
    if bytes.len() > most {
        &bytes[..most]
    } else {
        bytes
    }
}

/// What stands behind so many of these.
pub(crate) fn behind(bytes: &[u8], count: usize) -> &[u8]
    ensures { result.now ≡ drop count bytes.now }
{
    if bytes.len() < count {
        return &[];
    }
    let (_, rest) = bytes.split_at(count);
    rest
}

impl Kept {
    /// None is kept yet, of so many.
    pub(crate) fn new(alloc: Global, most: usize) -> Result<Kept, NoMemory>
        ensures { IfOk result (λ kept. kept ≡ no_bytes_kept most) }
    {
        Ok(Kept {
            bytes: Vec::with_capacity(alloc, most)?,
            most,
        })
    }

    pub(crate) fn bytes(&self) -> &[u8]
        ensures { result.now ≡ self.now.bytes }
    {
        self.bytes.as_slice()
    }

    /// How many can be kept at most.
    pub(crate) fn most(&self) -> usize
        ensures { result ≡ self.now.most }
    {
        self.most
    }

    pub(crate) fn is_empty(&self) -> bool
        ensures { result ≡ (length self.now.bytes == 0) }
    {
        self.bytes.is_empty()
    }

    /// Whether so many more can be kept.
    pub(crate) fn has_room(&self, count: usize) -> bool
        ensures { result ≡ has_room self.now count }
    {
        count <= self.most - self.bytes.len()
    }

    /// Whether so many could be kept, if none were.
    pub(crate) fn could_keep(&self, count: usize) -> bool
        ensures { result ≡ has_room (no_bytes_kept self.now.most) count }
    {
        count <= self.most
    }

    pub(crate) fn clear(&mut self)
        ensures { self.new ≡ no_bytes_kept self.old.most }
    {
        self.bytes.clear();
    }

    /// Keeps as many more as there is room for.
    pub(crate) fn keep(&mut self, more: &[u8])
        ensures { self.new ≡ with_more_kept self.old more.now }
    {
        let front = first_of(self.most - self.bytes.len(), more);
        let _ = self.bytes.extend_from_slice(front);
    }
}
