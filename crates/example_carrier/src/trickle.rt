//! A carrier that brings one byte a call.
ghost use Rattle.std.specs.Prelude.{◌≡◌, ℕ, None};

use std::alloc::Global;
use tds_packet::Direction;
use tds_play::{Carrier, CarrierError, MemoryCarrier};

/// The carrier in memory, but that a call brings one byte. It counts those calls.
#[derive(Drop)]
pub struct Trickle {
    memory: MemoryCarrier,
    bytes: u64,
}

impl Trickle {
    pub fn new(alloc: Global) -> Trickle
        ensures { (conn : ℕ) → ⟦<Trickle as Carrier>⟧.pipes result conn ≡ None }
    {
        Trickle {
            memory: MemoryCarrier::new(alloc),
            bytes: 0,
        }
    }

    /// How many bytes came. It stays at its greatest value.
    pub fn bytes(&self) -> u64 {
        self.bytes
    }
}

impl Carrier for Trickle {
    ghost pipes = { λ t. ⟦<MemoryCarrier as Carrier>⟧.pipes t.memory };

    fn open(&mut self, conn: u32) -> Result<(), CarrierError> {
        self.memory.open(conn)
    }

    fn send(&mut self, conn: u32, direction: Direction, bytes: &[u8]) -> Result<(), CarrierError> {
        self.memory.send(conn, direction, bytes)
    }

    fn carry(
        &mut self,
        conn: u32,
        direction: Direction,
        _most: usize,
        out: &mut Vec<u8>,
    ) -> Result<usize, CarrierError> {
        self.bytes = self.bytes.saturating_add(1);
        self.memory.carry(conn, direction, 1, out)
    }

    fn cut(&mut self, conn: u32) {
        self.memory.cut(conn)
    }
}
