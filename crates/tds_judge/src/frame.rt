//! Where in its packets a direction is (MS-TDS 2.2.3).

ghost use Rattle.std.specs.Prelude.{◌≡◌};
ghost use Rattle.tds_judge.specs.Framing as framing;
ghost use Rattle.tds_judge.specs.PacketHeads as heads;

use crate::finding::Direction;
use crate::headers::Heading;
use crate::talk::{Ending, Event};
use tds_wire::Refusal;

/// What comes next.
#[derive(Clone, Copy)]
pub enum Due {
    /// A header, of which so many bytes have come: at most 7. They spell this number, highest first.
    Head { got: u8, value: u64 },
    /// So many bytes of a packet's data.
    Data { left: u16 },
}

/// How a direction's messages are known.
#[derive(Clone, Copy)]
pub enum Part {
    /// No header was found yet: the connection was begun in its middle.
    Lost,
    /// In a message whose beginning wasn't seen.
    Passing,
    Between,
    Within,
}

/// What is done with a message's data.
#[derive(Clone, Copy)]
pub enum Inside {
    /// Nothing.
    Skipped,
    /// ALL_HEADERS of a request is read (MS-TDS 2.2.5.3).
    Prefix(Heading),
    /// The parser reads it.
    Walked,
    /// The version in LOGIN7 is read (MS-TDS 2.2.6.4): so many bytes have come.
    Version { place: u8 },
}

/// Where a direction is: what comes next, the type of its message, the status of its packet, and how
/// many bytes have come.
#[derive(Clone, Copy)]
pub struct Frame {
    pub due: Due,
    pub part: Part,
    pub inside: Inside,
    pub kind: u8,
    pub status: u8,
    pub offset: u64,
}

/// A packet's header (MS-TDS 2.2.3.1).
#[derive(Clone, Copy)]
pub struct Head {
    pub kind: u8,
    pub status: u8,
    pub size: u16,
    pub id: u8,
}

/// Eight bytes, the highest first, with one more at their end.
pub fn shifted(value: u64, byte: u8) -> u64
    ensures { result ≡ heads.shifted value byte }
{
    value % 72_057_594_037_927_936 * 256 + u64::from(byte)
}

/// What is done with the data of a request's message.
fn inside_of(kind: u8) -> Inside
    ensures { result ≡ heads.inside_of kind }
{
    if kind == 1 || kind == 3 || kind == 14 {
        Inside::Prefix(Heading::new())
    } else if kind == 16 {
        Inside::Version { place: 0 }
    } else {
        Inside::Skipped
    }
}

/// Whether a direction has packets of this type.
fn is_kind(direction: Direction, kind: u8) -> bool
    ensures { result ≡ heads.is_kind direction kind }
{
    match direction {
        Direction::ToServer => {
            kind == 1
                || kind == 3
                || kind == 6
                || kind == 7
                || kind == 8
                || kind == 14
                || kind == 16
                || kind == 17
                || kind == 18
        }
        Direction::ToClient => kind == 4 || kind == 18,
    }
}

impl Direction {
    fn other(self) -> Direction
        ensures { result ≡ heads.other_way self }
    {
        match self {
            Direction::ToServer => Direction::ToClient,
            Direction::ToClient => Direction::ToServer,
        }
    }
}

impl Head {
    /// The header that eight bytes spell.
    pub fn of(value: u64) -> Head
        ensures { result ≡ heads.head_of value }
    {
        Head {
            kind: (value / 72_057_594_037_927_936 % 256) as u8,
            status: (value / 281_474_976_710_656 % 256) as u8,
            size: (value / 4_294_967_296 % 65_536) as u16,
            id: (value / 256 % 256) as u8,
        }
    }

    /// Whether it can be the header of a packet.
    pub fn is_plausible(self, direction: Direction) -> bool
        ensures { result ≡ heads.is_plausible direction self }
    {
        is_kind(direction, self.kind) && self.size >= 8
    }

    /// Whether the bytes are those of a record of TLS.
    pub fn is_tls(self) -> bool
        ensures { result ≡ heads.is_tls self }
    {
        (self.kind == 20 || self.kind == 21 || self.kind == 22 || self.kind == 23)
            && self.status == 3
    }

    /// Why no packet can have it.
    pub fn fault(self, direction: Direction) -> Event
        ensures { result ≡ heads.fault_of direction self }
    {
        if self.is_tls() {
            Event::Stops(Ending::Encrypted, 0)
        } else if is_kind(direction, self.kind) {
            Event::Stops(Ending::WrongLength, u64::from(self.size))
        } else if is_kind(direction.other(), self.kind) && self.size >= 8 {
            Event::Stops(Ending::WrongDirection, u64::from(self.kind))
        } else {
            Event::Stops(Ending::NotTds, u64::from(self.kind))
        }
    }

    /// Whether it is that of a packet of a request that doesn't end its message, and so has to be full.
    pub fn is_to_fill(self, direction: Direction) -> bool
        ensures { result ≡ heads.is_to_fill direction self }
    {
        match direction {
            Direction::ToServer => {
                self.status % 2 != 1
                    && (self.kind == 1 || self.kind == 3 || self.kind == 7 || self.kind == 14)
            }
            Direction::ToClient => false,
        }
    }

    /// What a message to the server is that begins with it.
    pub fn event(self) -> Event
        ensures { result ≡ heads.event_of self }
    {
        if self.kind == 6 {
            Event::Attention(self.size, self.status)
        } else if self.kind == 1 || self.kind == 3 || self.kind == 7 || self.kind == 14 {
            Event::Request(self.status, self.kind == 7)
        } else {
            Event::Login
        }
    }
}

impl Frame {
    /// Before the first byte.
    pub fn new() -> Frame
        ensures { result ≡ framing.new_frame }
    {
        Frame {
            due: Due::Head { got: 0, value: 0 },
            part: Part::Lost,
            inside: Inside::Skipped,
            kind: 0,
            status: 0,
            offset: 0,
        }
    }

    /// In the data of a packet with this header.
    pub fn opened(self, part: Part, inside: Inside, head: Head) -> Frame
        ensures { result ≡ framing.opened_frame self part inside head }
    {
        Frame {
            due: Due::Data {
                left: head.size.saturating_sub(8),
            },
            part,
            inside,
            kind: head.kind,
            status: head.status,
            offset: self.offset,
        }
    }

    /// What is done with a message's data.
    pub fn inside_of_request(head: Head) -> Inside
        ensures { result ≡ heads.inside_of head.kind }
    {
        inside_of(head.kind)
    }
}

/// Why the judging ends at bytes that the parser refuses: ALTMETADATA or ALTROW, or no token.
pub fn refused(refusal: &Refusal) -> Event
    ensures { result ≡ framing.refused_as refusal.now }
{
    if refusal.fault.number() == 1 && (refusal.byte == 0x88 || refusal.byte == 0xD3) {
        Event::Stops(Ending::Compute, u64::from(refusal.byte))
    } else {
        Event::Stops(Ending::WrongToken, u64::from(refusal.fault.number()))
    }
}
