//! Packets of one direction (MS-TDS 2.2.3), from pieces of any size.

ghost use Rattle.std.specs.Prelude.{◌≤◌, IfOk, length};

use std::alloc::{AllocError, Global};
use std::mem;
use tds_packet::{Head, HeaderReader, Passed};

/// What bytes bring.
#[derive(Clone, Copy, Debug)]
pub(crate) enum Front {
    /// The end of a packet with this header.
    Whole(Head),
    /// A part of one, or nothing.
    Part,
    /// No packet: its length is less than its header's.
    Wrong,
}

/// The packet that comes, as far as it has come.
#[derive(Drop)]
pub(crate) struct Packets {
    alloc: Global,
    reader: HeaderReader,
    head: Head,
    data: Vec<u8>,
}

impl Packets {
    /// Before the first packet.
    pub(crate) fn new(alloc: Global) -> Packets {
        Packets {
            alloc,
            reader: HeaderReader::new(),
            head: Head {
                kind: 0,
                status: 0,
                length: 0,
            },
            data: Vec::new(alloc),
        }
    }

    /// Takes bytes of one packet at most: how many, and what they bring.
    pub(crate) fn take(&mut self, piece: &[u8]) -> Result<(usize, Front), AllocError>
        ensures within { IfOk result (λ x. x.0 ≤ length piece.now) }
    {
        let (count, passed) = self.reader.take(piece);
        let is_whole = match passed {
            Passed::Part => false,
            Passed::Wrong => return Ok((count, Front::Wrong)),
            Passed::Begins(head) => {
                self.head = head;
                head.length == 8
            }
            Passed::Data { ends } => {
                self.data.extend_from_slice(&piece[..count])?;
                ends
            }
        };
        let front = if is_whole {
            Front::Whole(self.head)
        } else {
            Front::Part
        };
        Ok((count, front))
    }

    /// The data that have come of the packet, which are kept no longer.
    pub(crate) fn take_data(&mut self) -> Vec<u8> {
        mem::replace(&mut self.data, Vec::new(self.alloc))
    }

    /// How many bytes are missing of a packet whose header has come.
    pub(crate) fn missing(&self) -> usize {
        usize::from(self.reader.due())
    }
}
