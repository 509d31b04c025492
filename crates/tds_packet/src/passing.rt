//! Packets that only pass (MS-TDS 2.2.3.1): where each begins and ends, by its header's length, in any cutting.

ghost use Rattle.std.specs.Prelude.{◌≡◌, ◌<◌, [], min, length, take};
ghost use Rattle.tds_packet.specs.Passing.{next_run, behind_run, run_brings, is_apart};

use std::marker::Model;

/// Of a packet's header what says where the packet ends, and what it is.
#[derive(Clone, Copy, Debug, PartialEq, Eq)]
pub struct Head {
    /// Type (MS-TDS 2.2.3.1.1).
    pub kind: u8,
    /// Status (2.2.3.1.2).
    pub status: u8,
    /// Length in bytes, the header's eight counted (2.2.3.1.3).
    pub length: u16,
}

/// What bytes bring.
#[derive(Clone, Copy, Debug, PartialEq, Eq)]
pub enum Passed {
    /// A part of a header, or nothing.
    Part,
    /// The last byte of a header.
    Begins(Head),
    /// Data, with which their packet ends or doesn't.
    Data { ends: bool },
    /// The last byte of a header whose length is less than its own: no packet.
    Wrong,
}

/// Reads headers alone, of any types, and counts the data behind each. It takes no memory.
#[derive(Debug, Drop)]
pub struct HeaderReader {
    /// The header that comes.
    bytes: [u8; 8],
    /// How many bytes of it have come: fewer than 8.
    came: u8,
    /// How many bytes of data are due behind the last one.
    due: u16,
}

impl Model for HeaderReader {
    ghost use Rattle.tds_packet.specs.Passing.{PacketPlace};

    ghost Value = { PacketPlace };

    ghost use Rattle.tds_packet.specs.Passages.{passing_of, IsHeaderReader};

    ghost view = { passing_of };

    ghost invariant = { IsHeaderReader };
}

impl HeaderReader {
    /// Before the first packet.
    pub fn new() -> HeaderReader
        ensures { result ≡ record { came = []; due = 0 } }
    {
        HeaderReader {
            bytes: [0; 8],
            came: 0,
            due: 0,
        }
    }

    /// Whether a packet has ended, or none has begun.
    pub fn is_between(&self) -> bool
        ensures { result ≡ is_apart self.now }
    {
        self.came == 0 && self.due == 0
    }

    /// How many bytes of data are due behind the last header: none while a header comes.
    pub fn due(&self) -> u16
        ensures { result ≡ self.now.due }
    {
        self.due
    }

    /// Takes the rest of a header, or of a packet's data, as far as it has come. How many bytes, and what they
    /// bring. Behind a wrong header it goes on as behind a packet without data.
    pub fn take(&mut self, piece: &[u8]) -> (usize, Passed)
        ensures count { result.0 ≡ min (next_run self.old) (length piece.now) }
        ensures place { self.new ≡ behind_run self.old (take (next_run self.old) piece.now) }
        ensures says { result.1 ≡ run_brings self.old (take (next_run self.old) piece.now) }
    {
        if self.due > 0 {
            self.take_data(piece)
        } else {
            self.take_header(piece)
        }
    }

    /// The same within a packet's data.
    fn take_data(&mut self, piece: &[u8]) -> (usize, Passed)
        requires { 0 < self.old.due }
        ensures count { result.0 ≡ min (next_run self.old) (length piece.now) }
        ensures place { self.new ≡ behind_run self.old (take (next_run self.old) piece.now) }
        ensures says { result.1 ≡ run_brings self.old (take (next_run self.old) piece.now) }
    {
        let count = usize::from(self.due).min(piece.len());
        self.due -= count as u16;
        (
            count,
            Passed::Data {
                ends: self.due == 0,
            },
        )
    }

    /// The same within a header.
    fn take_header(&mut self, piece: &[u8]) -> (usize, Passed)
        requires { self.old.due ≡ 0 }
        ensures count { result.0 ≡ min (next_run self.old) (length piece.now) }
        ensures place { self.new ≡ behind_run self.old (take (next_run self.old) piece.now) }
        ensures says { result.1 ≡ run_brings self.old (take (next_run self.old) piece.now) }
    {
        let start = usize::from(self.came);
        let count = (8 - start).min(piece.len());
        self.bytes[start..start + count].copy_from_slice(&piece[..count]);
        if start + count < 8 {
            self.came += count as u8;
            return (count, Passed::Part);
        }
        self.came = 0;
        let length = 256 * u16::from(self.bytes[2]) + u16::from(self.bytes[3]);
        if length < 8 {
            return (count, Passed::Wrong);
        }
        self.due = length - 8;
        let head = Head {
            kind: self.bytes[0],
            status: self.bytes[1],
            length,
        };
        (count, Passed::Begins(head))
    }
}
