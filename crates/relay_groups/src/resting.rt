//! The connections of a group that may rest, in the order in which answers came there.

use std::alloc::{AllocError, Global};

/// So many rests are kept however few connections there are.
const LEAST: usize = 64;

/// A socket that may rest, behind an answer, for the time that has this number.
#[derive(Clone, Copy)]
pub struct Rest {
    pub key: usize,
    pub number: u64,
}

/// Those that may rest: noted behind an answer, and looked at where somebody waits. One that rests no more, or didn't,
/// stays among them until then, so each answer costs one of them at most, and none is looked at twice but where
/// they are put in order: behind twice as many as there are connections.
#[derive(Drop)]
pub struct Resting {
    alloc: Global,
    rests: Vec<Rest>,
    /// The place of the one that may have rested longest.
    first: usize,
    /// How many there ever were.
    count: u64,
}

impl Resting {
    pub fn new(alloc: Global) -> Resting {
        Resting {
            alloc,
            rests: Vec::new(alloc),
            first: 0,
            count: 0,
        }
    }

    /// A socket may rest. The number of that.
    pub fn add(&mut self, key: usize) -> Result<u64, AllocError> {
        self.count = self.count.saturating_add(1);
        self.rests.push(Rest {
            key,
            number: self.count,
        })?;
        Ok(self.count)
    }

    /// The one that may have rested longest. It is taken out.
    pub fn take(&mut self) -> Option<Rest> {
        let rest = self.rests.get(self.first).copied()?;
        self.first = self.first.saturating_add(1);
        Some(rest)
    }

    /// How many there are.
    pub fn len(&self) -> usize {
        self.rests.len().saturating_sub(self.first)
    }

    /// Whether there are more than twice as many as connections, or as many are taken out as are there.
    pub fn is_long(&self, connections: usize) -> bool {
        let most = connections.saturating_mul(2).saturating_add(LEAST);
        self.rests.len() > most
    }

    /// Takes out all, which are put in anew as far as they go on.
    pub fn take_all(&mut self) -> Result<Vec<Rest>, AllocError> {
        let mut all = Vec::new(self.alloc);
        for (place, rest) in self.rests.iter().enumerate() {
            if place >= self.first {
                all.push(*rest)?;
            }
        }
        self.rests.clear();
        self.first = 0;
        Ok(all)
    }

    /// Puts one in again, behind those that were.
    pub fn put_back(&mut self, rest: Rest) -> Result<(), AllocError> {
        self.rests.push(rest)?;
        Ok(())
    }
}
