//! Bytes that have passed: how many they are at run time, and which they are to clauses alone.
ghost use Rattle.std.specs.Prelude.{◌≡◌, ◌++◌, [], length, OnOk};
ghost use Rattle.tds_tcp.specs.Pasts.{bytes_seen};

use std::alloc::{AllocError, Global};
use std::marker::Model;
use std::snapshot::Snapshot;

/// Bytes that have passed, in order. No byte is kept: a snapshot has none, so that the list of them
/// is a count, whatever its length.
#[derive(Drop)]
pub(crate) struct Past {
    seen: Vec<Snapshot<u8>>,
}

impl Model for Past {
    ghost use Rattle.std.specs.Prelude.{ℕ, List};
    ghost use Rattle.tds_tcp.specs.Pasts.{bytes_seen};

    ghost Value = { List ℕ };

    ghost view = { λ p. bytes_seen p.seen.items };
}

impl Past {
    pub(crate) fn new(alloc: Global) -> Past
        ensures { result ≡ [] }
    {
        Past {
            seen: Vec::new(alloc),
        }
    }

    /// How many they are.
    pub(crate) fn count(&self) -> usize
        ensures { result ≡ length self.now }
    {
        self.seen.len()
    }

    /// These passed too.
    pub(crate) fn pass(&mut self, bytes: &[u8]) -> Result<(), AllocError>
        ensures { OnOk result (self.new ≡ self.old ++ bytes.now) }
    {
        see_all(&mut self.seen, bytes)
    }
}

/// Appends a snapshot of each byte.
fn see_all(seen: &mut Vec<Snapshot<u8>>, bytes: &[u8]) -> Result<(), AllocError>
    ensures { OnOk result (bytes_seen seen.new.items ≡ bytes_seen seen.old.items ++ bytes.now) }
{
    'bytes: for byte in bytes {
        seen.push(Snapshot::of(byte))?;
    }
    Ok(())
}
