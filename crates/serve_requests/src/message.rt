//! The messages of a logged-in peer (MS-TDS 2.2.1, 2.2.3.1), of all five types, from pieces of any size.

ghost use Rattle.std.specs.Prelude.{◌≤◌, length, IfOk};

use crate::rows::RowCount;
use std::alloc::{AllocError, Global};
use tds_packet::{Direction, Header, PacketSize, Status};

/// The most bytes that are kept of a message. What stands behind them is counted and forgotten.
const KEPT: usize = 16_384;

/// The same of a call, whose parameters may be long.
pub const KEPT_OF_CALL: usize = 1_114_112;

/// What a message is, as the type of its packets says.
#[derive(Clone, Copy, Debug, PartialEq, Eq)]
pub enum MessageKind {
    /// `01`: a batch.
    Batch,
    /// `03`: a call of a procedure.
    Procedure,
    /// `06`: an attention.
    Attention,
    /// `07`: rows of a bulk load.
    BulkLoad,
    /// `0E`: a transaction manager request.
    Transaction,
}

impl MessageKind {
    /// The kind of a message whose packets have this type.
    pub fn of(byte: u8) -> Option<MessageKind> {
        match byte {
            0x01 => Some(MessageKind::Batch),
            0x03 => Some(MessageKind::Procedure),
            0x06 => Some(MessageKind::Attention),
            0x07 => Some(MessageKind::BulkLoad),
            0x0e => Some(MessageKind::Transaction),
            _ => None,
        }
    }
}

/// A message that has come whole.
#[derive(Clone, Copy, Debug)]
pub struct Whole {
    pub kind: MessageKind,
    /// The status of its first packet.
    pub status: Status,
    /// Whether it is to be forgotten.
    pub is_ignored: bool,
}

/// Why no bytes are taken any more.
#[derive(Clone, Copy, Debug, PartialEq, Eq)]
pub enum Stop {
    /// What came is no lawful packet, or not the one that was due.
    Wrong,
    /// Memory was wanted.
    Memory,
}

impl From<AllocError> for Stop {
    fn from(_: AllocError) -> Stop {
        Stop::Memory
    }
}

/// A packet's type and status.
#[derive(Clone, Copy, Debug)]
struct Part {
    kind: MessageKind,
    status: Status,
}

/// Reads messages: `feed` takes bytes up to the end of one packet, `whole` says what message has come,
/// and `done` goes on to the next.
#[derive(Drop)]
pub struct MessageReader {
    alloc: Global,
    size: PacketSize,
    head: [u8; 8],
    /// How many bytes of the header have come.
    came: usize,
    /// How many bytes of the packet are to come behind its header.
    missing: usize,
    packet: Option<Part>,
    /// The first packet of the message that has begun and not ended.
    first: Option<Part>,
    whole: Option<Whole>,
    data: Vec<u8>,
    /// How many bytes of data the message has.
    count: u64,
    rows: Option<RowCount>,
}

impl MessageReader {
    /// A reader of messages whose packets have this size at most.
    pub fn new(alloc: Global, size: PacketSize) -> MessageReader {
        MessageReader {
            alloc,
            size,
            head: [0; 8],
            came: 0,
            missing: 0,
            packet: None,
            first: None,
            whole: None,
            data: Vec::new(alloc),
            count: 0,
            rows: None,
        }
    }

    /// The message that has come, until `done`.
    pub fn whole(&self) -> Option<Whole> {
        self.whole
    }

    /// The first bytes of the message's data.
    pub fn data(&self) -> &[u8] {
        self.data.as_slice()
    }

    /// How many bytes of data the message has.
    pub fn count(&self) -> u64 {
        self.count
    }

    /// Whether all of them are kept.
    pub fn is_kept(&self) -> bool {
        self.count == self.data.len() as u64
    }

    /// The rows of a bulk load, or none where its bytes are no rows.
    pub fn rows(&self) -> Option<u64> {
        match &self.rows {
            Some(rows) => rows.count(),
            None => None,
        }
    }

    /// Goes on to the next message.
    pub fn done(&mut self) {
        self.whole = None;
        self.rows = None;
        self.count = 0;
        if self.data.len() > KEPT {
            self.data = Vec::new(self.alloc);
        } else {
            self.data.clear();
        }
    }

    /// Takes bytes up to the end of one packet, and answers how many; none while a whole message waits.
    pub fn feed(&mut self, piece: &[u8]) -> Result<usize, Stop>
        ensures within { IfOk result (λ count. count ≤ length piece.now) }
    {
        if self.whole.is_some() {
            return Ok(0);
        }
        let body = self.take_head(piece);
        if self.came < 8 {
            return Ok(piece.len());
        }
        if self.packet.is_none() {
            self.begin_packet()?;
        }
        let count = self.missing.min(body.len());
        self.take_data(&body[..count])?;
        self.missing = self.missing.saturating_sub(count);
        if self.missing == 0 {
            self.end_packet()?;
        }
        let left = body.len().saturating_sub(count);
        Ok(piece.len().saturating_sub(left))
    }

    /// Takes what is missing of a packet's header, and lends what stands behind it.
    fn take_head<'a>(&mut self, piece: &'a [u8]) -> &'a [u8] {
        let mut rest = piece;
        for place in 0..8 {
            if place >= self.came {
                let [first, behind @ ..] = rest else {
                    return rest;
                };
                self.head[place] = *first;
                self.came = place + 1;
                rest = behind;
            }
        }
        rest
    }

    /// Reads the header that has come.
    fn begin_packet(&mut self) -> Result<(), Stop> {
        let kind = MessageKind::of(self.head[0]).ok_or(Stop::Wrong)?;
        let header = self.header().ok_or(Stop::Wrong)?;
        let status = header.status;
        let part = Part { kind, status };
        self.missing = usize::from(header.length).saturating_sub(8);
        if kind == MessageKind::Attention {
            if !status.ends_alone() || self.missing > 0 {
                return Err(Stop::Wrong);
            }
        } else {
            self.begin_part(part)?;
        }
        self.packet = Some(part);
        Ok(())
    }

    /// The packet's header. One of a call or of a bulk load is looked at as that of a batch is.
    fn header(&self) -> Option<Header> {
        let mut head = self.head;
        head[0] = 1;
        Header::read(&head, self.size, Direction::ToServer).ok()
    }

    /// A packet begins a message, or goes on with the one that has begun.
    fn begin_part(&mut self, part: Part) -> Result<(), Stop> {
        let begun = self.first;
        match begun {
            Some(first) if first.kind == part.kind => Ok(()),
            Some(_) => Err(Stop::Wrong),
            None if part.status.asks_for_both_resets() => Err(Stop::Wrong),
            None => {
                self.done();
                self.first = Some(part);
                if part.kind == MessageKind::BulkLoad {
                    self.rows = Some(RowCount::new(self.alloc)?);
                }
                Ok(())
            }
        }
    }

    /// Takes bytes of a packet's data: of a bulk load they are counted alone.
    fn take_data(&mut self, bytes: &[u8]) -> Result<(), Stop> {
        self.count = self.count.saturating_add(bytes.len() as u64);
        if let Some(rows) = &mut self.rows {
            rows.take(bytes);
            return Ok(());
        }
        let packet = self.packet;
        let most = match packet {
            Some(part) if part.kind == MessageKind::Procedure => KEPT_OF_CALL,
            _ => KEPT,
        };
        let room = most.saturating_sub(self.data.len());
        self.data
            .extend_from_slice(&bytes[..room.min(bytes.len())])?;
        Ok(())
    }

    /// A packet has ended, and may have ended its message.
    fn end_packet(&mut self) -> Result<(), Stop> {
        self.came = 0;
        let Some(part) = self.packet.take() else {
            return Err(Stop::Wrong);
        };
        if part.kind == MessageKind::Attention {
            self.done();
            self.first = None;
        } else if !part.status.ends() {
            return if part.status.is_ignored() {
                Err(Stop::Wrong)
            } else {
                Ok(())
            };
        }
        let first = self.first.take().unwrap_or(part);
        self.whole = Some(Whole {
            kind: first.kind,
            status: first.status,
            is_ignored: part.status.is_ignored(),
        });
        Ok(())
    }
}
