//! The packets of a connection that is to be drawn (MS-TDS 2.2.3).

ghost use Rattle.std.specs.Prelude.{◌≤◌};

use std::alloc::Global;
use std::io;
use tds_judge::Direction;
use tds_wire::{Change, ChangeValue, Features, TokenParser, Told};

/// What the tokens of a packet to the client say.
#[derive(Clone, Copy)]
pub struct Says {
    /// A transaction begins, or ends.
    pub begins: bool,
    pub ends: bool,
    /// A reset is done.
    pub resets: bool,
    pub is_error: bool,
    /// A DONE, and whether more follows it.
    pub done: bool,
    pub more: bool,
    pub acknowledges: bool,
}

/// A packet that was seen whole.
#[derive(Clone, Copy)]
pub struct Packet {
    pub direction: Direction,
    pub kind: u8,
    pub status: u8,
    pub size: u64,
    /// Its first byte's place, and when its last one was seen.
    pub begin: u64,
    pub time: u64,
    /// How many requests have been begun by then.
    pub request: u32,
    pub says: Says,
}

impl Packet {
    /// Whether a byte of a direction is one of its bytes.
    pub fn has(&self, direction: Direction, offset: u64) -> bool {
        self.direction == direction
            && self.begin <= offset
            && offset < self.begin.saturating_add(self.size)
    }
}

/// Where a direction is in its packets.
#[derive(Clone, Copy)]
enum At {
    /// In none that is known.
    Lost,
    /// So many bytes of a header have come. They spell this number, highest first.
    Head { got: u8, value: u64 },
    Data { left: u64 },
}

/// A direction: where it is, how many bytes have come, and its newest packet.
#[derive(Clone, Copy)]
struct Way {
    at: At,
    offset: u64,
    packet: Packet,
}

/// The packets of a connection.
#[derive(Drop)]
pub struct Packets {
    client: Way,
    server: Way,
    requests: u32,
    /// Inside a message of the client: a packet goes on with it.
    is_within: bool,
    parser: TokenParser,
}

const HEAD: At = At::Head { got: 0, value: 0 };

const NOTHING: Says = Says {
    begins: false,
    ends: false,
    resets: false,
    is_error: false,
    done: false,
    more: false,
    acknowledges: false,
};

impl Way {
    fn new(direction: Direction) -> Way {
        Way {
            at: HEAD,
            offset: 0,
            packet: Packet {
                direction,
                kind: 0,
                status: 0,
                size: 0,
                begin: 0,
                time: 0,
                request: 0,
                says: NOTHING,
            },
        }
    }

    /// How many of so many bytes go up to the end of what they are in.
    fn count(&self, most: usize) -> usize {
        match self.at {
            At::Data { left } if left < most as u64 => left as usize,
            At::Data { .. } => most,
            At::Lost | At::Head { .. } => most.min(1),
        }
    }
}

impl Packets {
    pub fn new(alloc: Global, most: u16) -> io::Result<Packets>
        requires { most ≤ 4096 }
    {
        let features = Features {
            encryption: false,
            ranks: false,
        };
        let parser = TokenParser::new(alloc, most, features)?;
        Ok(Packets {
            client: Way::new(Direction::ToServer),
            server: Way::new(Direction::ToClient),
            requests: 0,
            is_within: false,
            parser,
        })
    }

    /// The connection's number is used again for another one.
    pub fn restart(&mut self) {
        self.client = Way::new(Direction::ToServer);
        self.server = Way::new(Direction::ToClient);
        self.requests = 0;
        self.is_within = false;
        self.parser.restart();
    }

    fn way(&mut self, direction: Direction) -> &mut Way {
        match direction {
            Direction::ToServer => &mut self.client,
            Direction::ToClient => &mut self.server,
        }
    }

    /// How many of these bytes belong together: at least one, where there is one.
    pub fn count(&mut self, direction: Direction, most: usize) -> usize {
        self.way(direction).count(most)
    }

    /// Behind a place a packet begins, if this direction has come there.
    pub fn begin_behind(&mut self, direction: Direction, offset: u64) {
        let way = self.way(direction);
        if way.offset == offset.saturating_add(1) {
            way.at = HEAD;
        }
    }

    /// Takes as many bytes as belong together. The packet that they end, where they do.
    pub fn take(&mut self, direction: Direction, time: u64, bytes: &[u8]) -> Option<Packet> {
        let way = self.way(direction);
        let begin = way.offset;
        way.offset = way.offset.saturating_add(bytes.len() as u64);
        match way.at {
            At::Lost => None,
            At::Head { got, value } => {
                let byte = bytes.first().copied().unwrap_or(0);
                let value = value.wrapping_mul(256).wrapping_add(u64::from(byte));
                if got < 7 {
                    way.at = At::Head {
                        got: got.saturating_add(1),
                        value,
                    };
                    return None;
                }
                self.open(direction, value.to_be_bytes(), begin.saturating_sub(7));
                self.end_if_whole(direction, time)
            }
            At::Data { left } => {
                way.at = At::Data {
                    left: left.saturating_sub(bytes.len() as u64),
                };
                if direction == Direction::ToClient {
                    self.walk(bytes);
                }
                self.end_if_whole(direction, time)
            }
        }
    }

    /// A header has come.
    fn open(&mut self, direction: Direction, head: [u8; 8], begin: u64) {
        let [kind, status, high, low, ..] = head;
        let size = u64::from(high) * 256 + u64::from(low);
        let is_known = is_kind(direction, kind) && size >= 8;
        if is_known && direction == Direction::ToServer {
            if matches!(kind, 1 | 3 | 7 | 14) && !self.is_within {
                self.requests = self.requests.saturating_add(1);
            }
            self.is_within = status % 2 == 0;
        }
        let request = self.requests;
        let way = self.way(direction);
        way.at = match is_known {
            true => At::Data {
                left: size.saturating_sub(8),
            },
            false => At::Lost,
        };
        way.packet = Packet {
            direction,
            kind,
            status,
            size,
            begin,
            time: 0,
            request,
            says: NOTHING,
        };
    }

    /// The packet, where no byte of it is to come.
    fn end_if_whole(&mut self, direction: Direction, time: u64) -> Option<Packet> {
        let way = self.way(direction);
        let At::Data { left: 0 } = way.at else {
            return None;
        };
        way.at = HEAD;
        way.packet.time = time;
        let packet = way.packet;
        let is_last = packet.status % 2 == 1;
        if is_last && direction == Direction::ToClient {
            self.parser.restart();
        }
        Some(packet)
    }

    /// Reads data of an answer, as far as they can be read. That to PRELOGIN has no tokens.
    fn walk(&mut self, bytes: &[u8]) {
        if self.client.packet.kind == 18 || self.server.packet.kind == 18 {
            return;
        }
        let mut rest = bytes;
        for _ in 0..bytes.len() {
            let Ok(fed) = self.parser.feed(rest) else {
                return;
            };
            if let Some(token) = fed.token {
                self.server.packet.says.hear(token.told, token.kind);
            }
            rest = rest.get(fed.count..).unwrap_or(&[]);
            if rest.is_empty() {
                return;
            }
        }
    }
}

impl Says {
    fn hear(&mut self, told: Told, kind: u8) {
        match told {
            Told::Done(done) => {
                self.done = true;
                self.more = done.status % 2 == 1;
                self.acknowledges |= done.status / 32 % 2 == 1;
            }
            Told::Change(change) => self.change(change),
            Told::Message(_) => self.is_error |= kind == 0xAA,
            _ => {}
        }
    }

    fn change(&mut self, change: Change) {
        match change.value {
            ChangeValue::Transaction { .. } if matches!(change.kind, 8 | 11) => self.begins = true,
            ChangeValue::Transaction { .. } => self.ends = true,
            ChangeValue::ResetDone => self.resets = true,
            _ => {}
        }
    }
}

/// Whether a direction has packets of this type.
fn is_kind(direction: Direction, kind: u8) -> bool {
    match direction {
        Direction::ToServer => matches!(kind, 1 | 3 | 6 | 7 | 8 | 14 | 16 | 17 | 18),
        Direction::ToClient => matches!(kind, 4 | 18),
    }
}
