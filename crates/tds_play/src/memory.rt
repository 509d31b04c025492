//! A carrier in memory.
ghost use Rattle.std.specs.Prelude.{◌≡◌, ◌≤◌, ◌<◌, ◌+◌, ℕ, length, take, drop, None, Some, Ok, Err, OnOk};
ghost use Rattle.tds_play.specs.Kept.{kept_after, kept_with, nothing_kept};
ghost use Rattle.tds_play.specs.Memory.{kept_in, pipe_at};
ghost use Rattle.tds_play.specs.declared.carrier.CarrierError.TheVariants.{Memory};

mod queue;

use crate::carrier::{Carrier, CarrierError};
use queue::Queue;
use std::alloc::{AllocError, Global};
use std::collections::BTreeMap;
use tds_packet::Direction;

#[derive(Drop)]
struct MemoryPipe {
    to_server: Queue,
    to_client: Queue,
    is_cut: bool,
}

/// Carries bytes in memory. What comes is what was handed over, and it fails only where a growth is
/// refused.
#[derive(Drop)]
pub struct MemoryCarrier {
    alloc: Global,
    pipes: BTreeMap<u32, MemoryPipe>,
}

impl MemoryCarrier {
    /// A carrier without a connection. It takes no memory.
    pub fn new(alloc: Global) -> MemoryCarrier
        ensures { (conn : ℕ) → ⟦<MemoryCarrier as Carrier>⟧.pipes result conn ≡ None }
    {
        MemoryCarrier {
            alloc,
            pipes: BTreeMap::new(alloc),
        }
    }
}

impl Queue {
    fn new(alloc: Global) -> Queue
        ensures { kept_in result ≡ nothing_kept }
    {
        Queue {
            bytes: Vec::new(alloc),
            place: 0,
        }
    }

    /// Puts bytes after the others.
    fn put(&mut self, bytes: &[u8]) -> Result<(), AllocError>
        ensures { OnOk result (kept_in self.new ≡ kept_with (kept_in self.old) bytes.now) }
    {
        self.bytes.extend_from_slice(bytes)?;
        Ok(())
    }

    /// Takes so many bytes out.
    fn take(&mut self, count: usize, out: &mut Vec<u8>) -> Result<(), AllocError>
        requires { length (kept_in self.old).came + count ≤ length (kept_in self.old).handed }
        ensures count { OnOk result (length out.new.items ≡ length out.old.items + count) }
        ensures kept { OnOk result (take (length out.old.items) out.new.items ≡ out.old.items) }
        ensures queue { OnOk result (kept_in self.new
            ≡ kept_after (kept_in self.old) (drop (length out.old.items) out.new.items)) }
    {
        let end = self.place + count;
        out.extend_from_slice(&self.bytes[self.place..end])?;
        self.place = end;
        Ok(())
    }
}

impl From<AllocError> for CarrierError {
    ghost use Rattle.tds_play.specs.declared.carrier.CarrierError.TheVariants.{Memory};

    ghost from_gives = { λ _ error. error ≡ Memory };

    fn from(_: AllocError) -> CarrierError {
        CarrierError::Memory
    }
}

impl Carrier for MemoryCarrier {
    ghost pipes = { λ m. pipe_at m.pipes };

    fn open(&mut self, conn: u32) -> Result<(), CarrierError> {
        let pipe = MemoryPipe {
            to_server: Queue::new(self.alloc),
            to_client: Queue::new(self.alloc),
            is_cut: false,
        };
        match self.pipes.insert(conn, pipe) {
            Ok(_) => Ok(()),
            Err(_) => Err(CarrierError::Memory),
        }
    }

    fn send(&mut self, conn: u32, direction: Direction, bytes: &[u8]) -> Result<(), CarrierError> {
        let Some(pipe) = self.pipes.get_mut(&conn) else {
            // Bytes are handed over on an open connection only.
            unreachable!()
        };
        match direction {
            Direction::ToServer => pipe.to_server.put(bytes)?,
            Direction::ToClient => pipe.to_client.put(bytes)?,
        }
        Ok(())
    }

    fn carry(
        &mut self,
        conn: u32,
        direction: Direction,
        most: usize,
        out: &mut Vec<u8>,
    ) -> Result<usize, CarrierError> {
        let Some(pipe) = self.pipes.get_mut(&conn) else {
            // Bytes are taken out of an open connection only.
            unreachable!()
        };
        match direction {
            Direction::ToServer => pipe.to_server.take(most, out)?,
            Direction::ToClient => pipe.to_client.take(most, out)?,
        }
        Ok(most)
    }

    fn cut(&mut self, conn: u32) {
        let Some(pipe) = self.pipes.get_mut(&conn) else {
            // Only what was opened is cut.
            unreachable!()
        };
        pipe.is_cut = true;
    }
}
