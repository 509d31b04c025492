//! A connection's turn: it reads, does some steps, and sends.
ghost use Rattle.std.specs.Prelude.{◌≡◌, ◌-◌, ◌<◌, ◌≤◌, ◌↔◌, length, vec_len};
ghost use Rattle.std.specs.Prelude.{IsTrue, IfOk, IfSome};
ghost use Rattle.serve_drivers.specs.declared.connection.TheConstants.{MOST_READ};
ghost use Rattle.serve_sessions.specs.declared.peer.TheConstants.{MOST_WAITING};

use proxy_header::{HeaderReader, Taken};
use serve_scripts::Script;
use serve_sessions::{CROWDED, FULL, MOST_WAITING, Next, Note, Peer};
use serve_values::Moment;
use socket_places::Link;
use std::alloc::{AllocError, Global};
use std::io::{self, ErrorKind, Read, Write};
use std::net::SocketAddr;
use tds_session::OnAttention;

/// How many milliseconds a peer may take nothing while something waits for it, and how many its login may
/// take.
const PATIENCE: u64 = 10_000;

/// The steps of a turn.
const TURN: u32 = 32;

/// The most bytes that are read in a turn, and that are kept of a peer until they are taken.
const MOST_READ: usize = 4096;

/// A connection with what is to be sent on it.
#[derive(Drop)]
pub struct Connection {
    stream: Link,
    /// The header of the PROXY protocol, while it is due.
    header: Option<HeaderReader>,
    /// Whom it has named, until that is logged.
    pub source: Option<SocketAddr>,
    peer: Peer,
    /// Its number, from 1, for the log.
    pub number: u64,
    /// What came and isn't taken yet.
    rest: Vec<u8>,
    out: Vec<u8>,
    /// How many of the bytes of `out` were sent.
    sent: usize,
    /// How many bytes are to go out before it is cut, where its script says so.
    left: Option<usize>,
    /// Whether more may be there to read.
    pub readable: bool,
    closing: bool,
    /// Whether it is to have a turn.
    pub listed: bool,
    /// The millisecond in which something of `out` was last taken, or in which nothing waited for it last
    /// though it had something to do; in the login also the one in which it came.
    since: u64,
    /// The millisecond in which its newest request came, and the one before which nothing is answered.
    asked: u64,
    late: u64,
    ghost kept: { vec_len rest ≤ MOST_READ },
    ghost waiting: { vec_len out ≤ MOST_WAITING },
}

/// What a connection is to do after its turn.
#[derive(Clone, Copy)]
pub enum Then {
    /// Nothing until the system reports it.
    Wait,
    /// It is to have another turn.
    Again,
    /// The same, but for a while it has nothing to do.
    Later,
    Close,
    /// The same: its script cuts it.
    Cut,
}

/// Why a connection is cut that has kept the server waiting.
#[derive(Clone, Copy, Debug, PartialEq, Eq)]
pub enum Late {
    /// Its login takes too long.
    Login,
    /// It takes nothing though something waits for it.
    Taking,
    /// Nothing came of it, and nothing waits for it.
    Silent,
    /// The same, and its script closes it.
    Idle,
}

impl Connection {
    /// A connection that has come in this millisecond. It has room for all that may ever wait for its peer,
    /// so that what is kept for a peer that reads nothing is this much memory and no more.
    pub fn new(
        alloc: Global,
        stream: Link,
        number: u64,
        on_attention: OnAttention,
        is_real: bool,
        is_proxied: bool,
        now: u64,
    ) -> Result<Connection, AllocError> {
        Ok(Connection {
            stream,
            header: header_of(alloc, is_proxied),
            source: None,
            peer: Peer::new(alloc, on_attention, is_real, number),
            number,
            rest: Vec::with_capacity(alloc, MOST_READ)?,
            out: Vec::with_capacity(alloc, MOST_WAITING)?,
            sent: 0,
            left: None,
            readable: true,
            closing: false,
            listed: false,
            since: now,
            asked: now,
            late: 0,
        })
    }

    /// The time of what comes now.
    pub fn set_now(&mut self, now: Moment) {
        self.peer.set_now(now);
    }

    /// How many milliseconds ago its newest request came.
    pub fn elapsed(&self, now: u64) -> u64 {
        now.saturating_sub(self.asked)
    }

    /// Why it is to be cut now, if it is. A logged-in peer may be silent for so many milliseconds; for as
    /// long as it likes where they are 0. `idle` is the same as its script says it.
    pub fn lateness(&self, silence: u64, idle: Option<u32>, now: u64) -> Option<Late> {
        if self.peer.is_in_login() {
            return late_where(is_too_long(PATIENCE, self.since, now), Late::Login);
        }
        if self.sent < self.out.len() {
            return late_where(is_too_long(PATIENCE, self.since, now), Late::Taking);
        }
        if let Some(most) = idle {
            if !self.peer.is_busy() && is_too_long(u64::from(most), self.since, now) {
                return Some(Late::Idle);
            }
        }
        late_where(
            silence > 0 && is_too_long(silence, self.since, now),
            Late::Silent,
        )
    }

    /// One turn: it reads once, does some steps and sends what the system takes. At a pace, it does one
    /// step.
    pub fn turn(
        &mut self,
        script: &Script,
        paced: bool,
        now: u64,
        notes: &mut Vec<Note>,
    ) -> io::Result<Then> {
        if self.out.is_empty() && !self.peer.is_in_login() {
            self.since = now;
        }
        if self.can_take() && !self.read(script, now, notes)? {
            return Ok(Then::Close);
        }
        let is_late = now < self.late;
        if is_late && self.peer.request() == 0 {
            return Ok(Then::Later);
        }
        if self.peer.is_busy() && !is_late {
            let steps = if paced { 1 } else { TURN };
            self.work(script, steps, notes)?;
        }
        let is_stuck = self.send(script, now)?;
        Ok(self.then(is_late, is_stuck))
    }

    /// Does some steps of its answer.
    fn work(
        &mut self,
        script: &Script,
        steps: u32,
        notes: &mut Vec<Note>,
    ) -> Result<(), AllocError> {
        let from = self.out.len();
        let next = self.peer.work(script, steps, &mut self.out, notes)?;
        self.peer.stamp(&mut self.out, from);
        self.closing = self.closing || matches!(next, Next::Close);
        Ok(())
    }

    /// What it is to do behind a turn.
    fn then(&self, is_late: bool, is_stuck: bool) -> Then {
        if let Some(0) = self.left {
            return Then::Cut;
        }
        if self.closing && self.out.is_empty() {
            return Then::Close;
        }
        let can_send = !self.out.is_empty() && !is_stuck;
        let can_work = self.peer.is_busy() && self.out.len() < FULL;
        if self.can_go_on() || (can_work && !is_late) || can_send {
            Then::Again
        } else if can_work {
            Then::Later
        } else {
            Then::Wait
        }
    }

    /// Whether more of it can be taken now.
    fn can_take(&self) -> bool {
        !self.closing && !self.peer.is_crossing() && self.out.len() < CROWDED
    }

    /// Whether more of it can be taken, and may be there.
    fn can_go_on(&self) -> bool {
        self.can_take() && (self.readable || !self.rest.is_empty())
    }

    /// Takes what is kept; where nothing is, it reads once. False where the peer has gone.
    fn read(&mut self, script: &Script, now: u64, notes: &mut Vec<Note>) -> io::Result<bool> {
        let mut buffer = [0u8; MOST_READ];
        let count = if !self.rest.is_empty() {
            let count = self.rest.len().min(MOST_READ);
            buffer[..count].copy_from_slice(&self.rest[..count]);
            self.rest.clear();
            count
        } else if self.readable {
            match self.stream.read(&mut buffer) {
                Ok(0) => return Ok(false),
                Ok(count) => count,
                Err(error) if error.kind() == ErrorKind::WouldBlock => {
                    self.readable = false;
                    return Ok(true);
                }
                Err(error) => return Err(error),
            }
        } else {
            return Ok(true);
        };
        match self.pass_header(&buffer[..count])? {
            Some(piece) => self.take(script, piece, now, notes)?,
            None => return Ok(false),
        }
        Ok(true)
    }

    /// What of a piece stands behind the header, where one is due. None where that is no header.
    fn pass_header<'a>(&mut self, piece: &'a [u8]) -> Result<Option<&'a [u8]>, AllocError>
        ensures { IfOk result (λ behind. IfSome behind (λ rest.
            length rest.now ≤ length piece.now)) }
    {
        let Some(header) = &mut self.header else {
            return Ok(Some(piece));
        };
        let (count, taken) = header.take(piece)?;
        match taken {
            Taken::More => Ok(Some(&piece[count..])),
            Taken::Wrong => Ok(None),
            Taken::Whole(source) => {
                self.header = None;
                self.source = source.address();
                Ok(Some(&piece[count..]))
            }
        }
    }

    /// Takes what came, and keeps what can't be taken yet.
    fn take(
        &mut self,
        script: &Script,
        piece: &[u8],
        now: u64,
        notes: &mut Vec<Note>,
    ) -> Result<(), AllocError>
        requires { length piece.now ≤ MOST_READ }
    {
        let before = self.peer.request();
        let was_in_login = self.peer.is_in_login();
        let from = self.out.len();
        let (count, next) = self.peer.take(script, piece, &mut self.out, notes)?;
        self.peer.stamp(&mut self.out, from);
        self.closing = matches!(next, Next::Close);
        self.rest.clear();
        self.rest.extend_from_slice(&piece[count..])?;
        if self.peer.request() != before {
            let waiting = self.out.len().saturating_sub(self.sent);
            self.begin(waiting, now);
        } else if was_in_login && !self.peer.is_in_login() {
            self.begin(0, now);
        }
        Ok(())
    }

    /// A request has come, or the login is answered, while so many bytes waited: the script may say when
    /// its answer is cut, and how late it goes out.
    fn begin(&mut self, waiting: usize, now: u64) {
        let orders = self.peer.orders();
        self.left = match orders.cut {
            Some(bytes) => Some(waiting.saturating_add(bytes as usize)),
            None => None,
        };
        self.asked = now;
        self.late = now.saturating_add(u64::from(orders.late));
    }

    /// Sends what the system takes, or one piece where the script splits. True where the system takes no more.
    fn send(&mut self, script: &Script, now: u64) -> io::Result<bool> {
        let piece = script.piece();
        for _ in 0..1024 {
            let Some(rest) = self.out.as_slice().get(self.sent..) else {
                break;
            };
            let most = rest.len().min(self.left.unwrap_or(usize::MAX));
            let most = most.min(piece.unwrap_or(u32::MAX) as usize);
            if most == 0 {
                break;
            }
            match self.stream.write(&rest[..most]) {
                Ok(0) => return Ok(true),
                Ok(count) => {
                    self.sent = self.sent.saturating_add(count);
                    if let Some(left) = self.left {
                        self.left = Some(left.saturating_sub(count));
                    }
                    self.since = now;
                }
                Err(error) if error.kind() == ErrorKind::WouldBlock => return Ok(true),
                Err(error) => return Err(error),
            }
            if piece.is_some() {
                break;
            }
        }
        if self.sent >= self.out.len() {
            self.out.clear();
            self.sent = 0;
        }
        Ok(false)
    }
}

/// Whether more milliseconds than these lie between two.
fn is_too_long(most: u64, since: u64, now: u64) -> bool
    ensures { IsTrue result ↔ (most < now - since) }
{
    now.saturating_sub(since) > most
}

/// This, where it is so.
fn late_where(is_late: bool, late: Late) -> Option<Late> {
    if is_late { Some(late) } else { None }
}

/// A header that is due of a proxy.
fn header_of(alloc: Global, is_proxied: bool) -> Option<HeaderReader> {
    if is_proxied {
        Some(HeaderReader::new(alloc))
    } else {
        None
    }
}
