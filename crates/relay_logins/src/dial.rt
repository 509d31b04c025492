//! A connection's login at the server.
ghost use Rattle.std.specs.Prelude.{◌≡◌, ◌++◌, IfOk, IfSome, OnOk, false, true};
ghost use Rattle.relay_logins.specs.Prelogin.{demands_at, demands_from};
ghost use Rattle.relay_logins.specs.Gathering.{EndsMessage, answer_with};
ghost use Rattle.relay_logins.specs.Sending.{login_packets};

use crate::sending::put_login;
use std::alloc::{AllocError, Global};
use tds_packet::{Direction, PacketReader, PacketSize};
use tds_wire::{Change, ChangeValue, Features, Place, TokenParser, Told};

/// PRELOGIN in one packet (MS-TDS 2.2.6.5): version 11.0, encryption isn't supported, no MARS.
const PREPARE: [u8; 32] = [
    0x12, 1, 0, 32, 0, 0, 1, 0, // header: type 12, end of message, 32 bytes
    0, 0, 16, 0, 6, 1, 0, 22, 0, 1, 4, 0, 23, 0, 1, 0xff, // three options
    11, 0, 0, 0, 0, 0, 2, 0,
];

/// The most bytes of a login's answer.
const MOST: usize = 65_536;

/// LOGINACK (MS-TDS 2.2.7.14), SSPI (2.2.7.22) and FEDAUTHINFO (2.2.7.12), which ask for a continuation.
const LOGIN_ACK: u8 = 0xad;

const SSPI: u8 = 0xed;

const FEDERATED: u8 = 0xee;

/// ERROR (MS-TDS 2.2.7.10).
const ERROR: u8 = 0xaa;

/// The type of the change that names another server (MS-TDS 2.2.7.9).
const ROUTING: u8 = 20;

/// The most characters of that server's name.
const MOST_NAMED: usize = 255;

/// What a login acknowledges: no feature is asked for.
pub const FEATURES: Features = Features {
    encryption: false,
    ranks: false,
};

/// What came of bytes.
#[derive(Drop)]
pub enum Dialed {
    More,
    /// It is authenticated: the packet size, and the data of the answer.
    Authenticated(PacketSize, Vec<u8>),
    /// The server asks for a continuation: the data of that.
    Continuation(Vec<u8>),
    /// It is to go to another server.
    Routed(Target),
    /// It is refused: the data of the answer, and the number of its first error, 0 where there is none.
    Refused(Vec<u8>, i32),
    /// The login can't go on with this server.
    Wrong(Unfit),
}

/// Why a login can't go on with a server.
#[derive(Clone, Copy)]
pub enum Unfit {
    /// It demands encryption.
    Encryption,
    /// Its bytes are no packets of an answer.
    NoPackets,
    /// Its answer is too long.
    LongAnswer,
    /// It names another server by what is no name and no address.
    NamesNone,
}

impl Unfit {
    /// What the server does.
    pub fn words(self) -> &'static str {
        match self {
            Unfit::Encryption => {
                "demands encryption, and the relay does not encrypt (tdstls client does)"
            }
            Unfit::NoPackets => "does not answer in packets of TDS (is that a SQL Server's port?)",
            Unfit::LongAnswer => "answers a login with more than 65,536 bytes",
            Unfit::NamesNone => "sends the login on, and names no server",
        }
    }
}

/// How a connection came to its server.
#[derive(Clone, Copy)]
pub struct Way {
    /// The place of the server in the list.
    pub server: usize,
    /// Those that were tried for it, a bit each.
    pub tried: u32,
    /// How often a server has said that it is to go to another one.
    pub hops: u8,
}

/// A server's name or address, and its port.
#[derive(Drop)]
pub struct Target {
    pub host: String,
    pub port: u16,
}

/// What the answer has said so far.
#[derive(Clone, Copy)]
struct Heard {
    is_authenticated: bool,
    asks_for_continuation: bool,
    size: PacketSize,
    /// Where another server's name stands.
    routed: Option<Place>,
    /// The number of the first error, 0 before there is one.
    error: i32,
}

/// A connection's login.
#[derive(Drop)]
pub struct Dial {
    alloc: Global,
    reader: PacketReader,
    parser: TokenParser,
    message: Vec<u8>,
    answer: Vec<u8>,
    is_prepared: bool,
    heard: Heard,
    /// Whether the application was asked for a continuation: the login can't be begun anew then.
    pub has_continuations: bool,
    pub way: Way,
    /// The server's process for it, as the newest packet says.
    pub spid: u16,
}

impl Dial {
    /// A login by this LOGIN7. Its first message is appended to `out`.
    pub fn new(
        alloc: Global,
        message: &[u8],
        way: Way,
        out: &mut Vec<u8>,
    ) -> Result<Option<Dial>, AllocError>
        ensures by { IfOk result (λ made. IfSome made
            (λ dial. dial.message.items ≡ message.now)) }
        ensures unprepared { IfOk result (λ made. IfSome made
            (λ dial. dial.is_prepared ≡ false)) }
    {
        let (Some(most), Some(size)) = (PacketSize::new(32_767), PacketSize::new(4_096)) else {
            return Ok(None);
        };
        out.extend_from_slice(&PREPARE)?;
        Ok(Some(Dial {
            alloc,
            reader: PacketReader::new(alloc, most, Direction::ToClient)?,
            parser: TokenParser::new(alloc, 4_096, FEATURES)?,
            message: message.to_vec(alloc)?,
            answer: Vec::new(alloc),
            is_prepared: false,
            heard: Heard {
                is_authenticated: false,
                asks_for_continuation: false,
                size,
                routed: None,
                error: 0,
            },
            has_continuations: false,
            way,
            spid: 0,
        }))
    }

    /// Takes bytes up to the end of a packet, and answers how many. What is to be sent is appended.
    pub fn take(&mut self, piece: &[u8], out: &mut Vec<u8>) -> Result<(usize, Dialed), AllocError>
        ensures by { self.new.message ≡ self.old.message }
        ensures once { self.old.is_prepared ≡ true → out.new.items ≡ out.old.items }
        ensures kept { self.new.is_prepared ≡ false → out.new.items ≡ out.old.items }
        ensures puts { OnOk result (self.old.is_prepared ≡ false → self.new.is_prepared ≡ true
            → out.new.items ≡ out.old.items ++ login_packets self.old.message.items) }
        ensures demanded { self.old.is_prepared ≡ false
            → demands_from (answer_with self.old.answer.items self.old.reader piece.now)
            (answer_with self.old.answer.items self.old.reader piece.now) ≡ true
            → self.new.is_prepared ≡ false }
        ensures prepares { OnOk result (self.old.is_prepared ≡ false → self.new.is_prepared ≡ true
            → EndsMessage self.old.reader piece.now) }
    {
        let Ok(count) = self.reader.feed(piece) else {
            return Ok((piece.len(), Dialed::Wrong(Unfit::NoPackets)));
        };
        let Some(packet) = self.reader.packet() else {
            return Ok((count, Dialed::More));
        };
        let ends = packet.header.status.ends();
        self.spid = packet.header.spid;
        if self.answer.len() <= MOST {
            self.answer.extend_from_slice(packet.data)?;
        }
        if self.is_prepared {
            look(&mut self.parser, packet.data, &mut self.heard);
        }
        self.reader.done();
        if !ends {
            return Ok((count, Dialed::More));
        }
        Ok((count, self.ended(out)?))
    }

    /// A message has ended.
    fn ended(&mut self, out: &mut Vec<u8>) -> Result<Dialed, AllocError>
        ensures by { self.new.message ≡ self.old.message }
        ensures once { self.old.is_prepared ≡ true → out.new.items ≡ out.old.items }
        ensures kept { self.new.is_prepared ≡ false → out.new.items ≡ out.old.items }
        ensures puts { OnOk result (self.old.is_prepared ≡ false → self.new.is_prepared ≡ true
            → out.new.items ≡ out.old.items ++ login_packets self.old.message.items) }
        ensures demanded { self.old.is_prepared ≡ false
            → demands_from self.old.answer.items self.old.answer.items ≡ true
            → self.new.is_prepared ≡ false }
    {
        let answer = std::mem::replace(&mut self.answer, Vec::new(self.alloc));
        if self.is_prepared {
            return self.answered(answer);
        }
        if demands_encryption(&answer) {
            return Ok(Dialed::Wrong(Unfit::Encryption));
        }
        self.is_prepared = true;
        put_login(out, &self.message)?;
        Ok(Dialed::More)
    }

    /// What the server has answered.
    fn answered(&mut self, answer: Vec<u8>) -> Result<Dialed, AllocError>
        ensures by { self.new.message ≡ self.old.message }
        ensures prepared { self.new.is_prepared ≡ self.old.is_prepared }
    {
        if answer.len() > MOST {
            return Ok(Dialed::Wrong(Unfit::LongAnswer));
        }
        if let Some(place) = self.heard.routed {
            return match target_of(self.alloc, bytes_at(&answer, place))? {
                Some(target) => Ok(Dialed::Routed(target)),
                None => Ok(Dialed::Wrong(Unfit::NamesNone)),
            };
        }
        if self.heard.is_authenticated {
            return Ok(Dialed::Authenticated(self.heard.size, answer));
        }
        if self.heard.asks_for_continuation {
            self.heard.asks_for_continuation = false;
            self.has_continuations = true;
            self.parser.restart();
            return Ok(Dialed::Continuation(answer));
        }
        Ok(Dialed::Refused(answer, self.heard.error))
    }
}

/// Looks for the login's acknowledgement and for the packet size, for a continuation, and for another server.
fn look(parser: &mut TokenParser, data: &[u8], heard: &mut Heard) {
    let mut rest = data;
    for _ in 0..data.len() {
        if rest.is_empty() {
            break;
        }
        let Ok(fed) = parser.feed(rest) else {
            break;
        };
        let (_, others) = rest.split_at(fed.count);
        rest = others;
        if let Some(token) = fed.token {
            heard.is_authenticated = heard.is_authenticated || token.kind == LOGIN_ACK;
            heard.asks_for_continuation = heard.asks_for_continuation
                || token.kind == SSPI
                || token.kind == FEDERATED;
            if let Some(told) = size_told(token.told) {
                heard.size = told;
            }
            if let Some(place) = routing_told(token.told) {
                heard.routed = Some(place);
            }
            if let (0, Told::Message(message), ERROR) = (heard.error, token.told, token.kind) {
                heard.error = message.number;
            }
        }
    }
}

/// Where a token names another server.
fn routing_told(told: Told) -> Option<Place> {
    match told {
        Told::Change(
            Change {
                kind: ROUTING,
                value: ChangeValue::Values { new, .. },
            },
        ) => Some(new),
        _ => None,
    }
}

/// The bytes of an answer that stand at this place.
fn bytes_at(answer: &[u8], place: Place) -> &[u8] {
    let (Ok(start), Ok(length)) = (usize::try_from(place.start), usize::try_from(place.length))
    else {
        return &[];
    };
    match answer.get(start..start.saturating_add(length)) {
        Some(bytes) => bytes,
        None => &[],
    }
}

/// The server that a routing names: protocol 0 (TCP), the port, and the name behind the count of its units.
fn target_of(alloc: Global, value: &[u8]) -> Result<Option<Target>, AllocError> {
    let [0, low, high, _, _, name @ ..] = value else {
        return Ok(None);
    };
    let mut host = String::new(alloc);
    for unit in name.chunks_exact(2).take(MOST_NAMED) {
        match unit {
            [low @ 0x21..=0x7e, 0] => host.push(char::from(*low))?,
            _ => return Ok(None),
        }
    }
    Ok(Some(Target {
        host,
        port: u16::from_le_bytes([*low, *high]),
    }))
}

/// The packet size that a token tells.
fn size_told(told: Told) -> Option<PacketSize> {
    let Told::Change(change) = told else {
        return None;
    };
    let ChangeValue::PacketSize(size) = change.value else {
        return None;
    };
    match u16::try_from(size) {
        Ok(size) => PacketSize::new(size),
        Err(_) => None,
    }
}

/// Whether the answer to PRELOGIN demands that what follows is encrypted.
#[tactic(auto, unfolding(crate::specs::Prelogin::demands_from))]
fn demands_encryption(answer: &[u8]) -> bool
    ensures { result ≡ demands_from answer.now answer.now }
{
    let mut rest = answer;
    while let [kind, high, low, _, _, others @ ..] = rest {
        if *kind == 1 {
            return demands_at(answer, 256 * usize::from(*high) + usize::from(*low));
        }
        if *kind == 0xff {
            return false;
        }
        rest = others;
    }
    false
}

/// Whether the byte of encryption there demands it, or doesn't stand in the answer.
fn demands_at(answer: &[u8], place: usize) -> bool
    ensures { result ≡ demands_at answer.now place }
{
    match answer.get(place) {
        Some(byte) => *byte == 1 || *byte == 3,
        None => true,
    }
}
