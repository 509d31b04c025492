//! A continuation of a login by more than LOGIN7: an application's message that goes on to the server as it comes.

use tds_packet::{HeaderReader, Passed};

/// The types of packets that it may have: SSPI (MS-TDS 2.2.6.8), and a federated login's token (2.2.6.3).
const SSPI: u8 = 0x11;

const FEDERATED: u8 = 0x08;

/// The most bytes of a continuation.
const MOST: usize = 131_072;

/// What came of bytes.
#[derive(Clone, Copy)]
pub enum Taken {
    /// They go on, and more are to come.
    More,
    /// They go on, and are the last ones.
    Whole,
    /// They are no continuation.
    Wrong,
}

/// A continuation, as far as it has come.
#[derive(Drop)]
pub struct Continuation {
    /// Where in its packets it is, and whether that is between two.
    packets: HeaderReader,
    is_between: bool,
    /// The type of its first packet, and whether the newest one ends it.
    kind: u8,
    ends: bool,
    count: usize,
    is_whole: bool,
}

impl Continuation {
    pub fn new() -> Continuation {
        Continuation {
            packets: HeaderReader::new(),
            is_between: true,
            kind: 0,
            ends: false,
            count: 0,
            is_whole: false,
        }
    }

    /// Takes bytes.
    pub fn take(&mut self, piece: &[u8]) -> Taken {
        let mut rest = piece;
        for _ in 0..piece.len() {
            let Some(first) = rest.first() else {
                break;
            };
            if self.is_whole || !self.is_of_continuation(*first) {
                return Taken::Wrong;
            }
            let (count, passed) = self.packets.take(rest);
            self.count = self.count.saturating_add(count);
            if self.count > MOST || !self.passes(passed) {
                return Taken::Wrong;
            }
            rest = &rest[count..];
        }
        if self.is_whole {
            Taken::Whole
        } else {
            Taken::More
        }
    }

    /// Whether this byte may stand here: a packet's type is looked at before its header is whole, so that
    /// nothing of another type goes on.
    fn is_of_continuation(&mut self, byte: u8) -> bool {
        if !self.is_between {
            return true;
        }
        if self.count == 0 {
            self.kind = byte;
        }
        byte == self.kind && (byte == SSPI || byte == FEDERATED)
    }

    /// Goes on behind what bytes brought. False where that is no packet.
    fn passes(&mut self, passed: Passed) -> bool {
        match passed {
            Passed::Part => {
                self.is_between = false;
                true
            }
            Passed::Begins(head) => {
                self.ends = head.status & 1 == 1;
                self.go_on(head.length == 8);
                true
            }
            Passed::Data { ends } => {
                self.go_on(ends);
                true
            }
            Passed::Wrong => false,
        }
    }

    /// Goes on to the packet's data, or to the next packet, or ends.
    fn go_on(&mut self, packet_ends: bool) {
        self.is_between = packet_ends;
        self.is_whole = packet_ends && self.ends;
    }
}
