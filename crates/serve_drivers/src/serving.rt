//! The loop over all connections.

use crate::connection::{Connection, Late, Then};
use crate::log::Log;
use mio::unix::SourceFd;
use mio::{Events, Interest, Poll, Token};
use serve_scripts::Script;
use serve_values::Moment;
use slab::Slab;
use socket_places::{Link, Listener, Place};
use std::alloc::Global;
use std::fs::Files;
use std::io::{self, Write};
use std::mem;
use std::net::{Net, SocketAddr};
use std::rt::Clock;
use std::time::{Duration, Instant};
use tds_session::OnAttention;

/// The token of the listener.
const LISTENER: Token = Token(usize::MAX);

/// The token of standard input, where the server ends with it.
const INPUT: Token = Token(usize::MAX - 1);

/// The most connections at a time.
const MOST: usize = 1024;

/// The most reports of the system that are taken in a round.
pub const ROUND: usize = 256;

/// The milliseconds between two looks at a connection whose answer the script lets wait.
const LATE_TIME: u64 = 5;

/// How a server serves.
#[derive(Clone, Copy, Debug)]
pub struct Manner {
    pub on_attention: OnAttention,
    /// The milliseconds between two steps of an answer.
    pub pace: u64,
    /// How many seconds a logged-in peer may be silent before it is cut; 0 for as long as it likes.
    pub silence: u64,
    /// Whether answers have the shapes of a SQL Server's.
    pub is_real: bool,
    /// Whether each connection begins with who is behind it (the PROXY protocol, version 2).
    pub is_proxied: bool,
}

/// A server with all its connections.
#[derive(Drop)]
pub struct EventLoop<W: Write + Drop> {
    alloc: Global,
    manner: Manner,
    script: Script,
    start: Instant,
    /// The millisecond in which it started, since 1970.
    began: u64,
    poll: Poll,
    listener: Listener,
    connections: Slab<Connection>,
    /// The keys of those that are to have a turn.
    waiting: Vec<usize>,
    /// How many connections have come.
    opened: u64,
    /// The millisecond in which it was last looked who is late.
    swept: u64,
    /// Whether one of those that are to have a turn has something to do at once.
    is_busy: bool,
    /// Whether standard input has ended, with which it ends.
    is_ending: bool,
    log: Log<W>,
}

impl<W: Write + Drop> EventLoop<W> {
    /// A server that listens and has no connection yet.
    pub fn new<R: Net + Files + Clock>(
        rt: &R,
        alloc: Global,
        place: &Place,
        manner: Manner,
        script: Script,
        log: Log<W>,
    ) -> io::Result<EventLoop<W>> {
        let start = Instant::now(rt)?;
        let began = milliseconds(rt.since_1970()?);
        let (poll, listener) = listen(rt, place)?;
        Ok(EventLoop {
            alloc,
            manner,
            script,
            start,
            began,
            poll,
            listener,
            connections: Slab::new(alloc),
            waiting: Vec::new(alloc),
            opened: 0,
            swept: 0,
            is_busy: false,
            is_ending: false,
            log,
        })
    }

    /// From now on it ends in order where standard input ends, which is to be a pipe or a socket: the
    /// system refuses a file. Nothing is read of it.
    pub fn end_with_input(&mut self) -> io::Result<()> {
        let mut input = SourceFd(&0);
        self.poll
            .registry()
            .register(&mut input, INPUT, Interest::READABLE)
    }

    /// Serves until standard input ends, if it is to end with it, or until the system refuses to go on.
    /// Then it has no connection left; it answers how many it had until then.
    pub fn serve<R: Clock>(&mut self, rt: &R) -> io::Result<usize> {
        let mut events = Events::with_capacity(self.alloc, ROUND)?;
        for _ in 0..u64::MAX {
            self.round(rt, &mut events, self.sweep_time())?;
            if self.is_ending {
                break;
            }
        }
        let count = self.connections.len();
        for key in 0..MOST {
            self.close(key, "the server ends");
        }
        Ok(count)
    }

    /// The address that it has, where it listens over TCP.
    pub fn address(&self) -> io::Result<Option<SocketAddr>> {
        self.listener.address()
    }

    /// How many connections it has.
    pub fn count(&self) -> usize {
        self.connections.len()
    }

    /// How many connections have come.
    pub fn opened(&self) -> u64 {
        self.opened
    }

    /// One round: it waits for the system so many milliseconds at most, and not at all where a connection
    /// has more to do; then each connection that has something to do has a turn.
    pub fn round<R: Clock>(
        &mut self,
        rt: &R,
        events: &mut Events<Global>,
        longest: u64,
    ) -> io::Result<()> {
        let timeout = Duration::from_millis(self.timeout(longest));
        self.poll.poll(events, Some(timeout))?;
        let now = milliseconds(self.start.elapsed(rt)?);
        self.hear(events, now)?;
        self.give_turns(now)?;
        if now >= self.swept.saturating_add(self.sweep_time()) {
            self.swept = now;
            self.accept(now);
            self.cut_late(now);
        }
        Ok(())
    }

    /// The milliseconds from one look at who is late to the next.
    fn sweep_time(&self) -> u64 {
        if self.script.idle().is_some() {
            50
        } else {
            1000
        }
    }

    /// Does what the system reported asks for.
    fn hear(&mut self, events: &Events<Global>, now: u64) -> io::Result<()> {
        for event in events.iter() {
            let token = event.token();
            if token == LISTENER {
                self.accept(now);
            } else if token == INPUT {
                self.is_ending = self.is_ending || event.is_read_closed();
            } else {
                let readable = event.is_readable() || event.is_read_closed() || event.is_error();
                self.reported(token.0, readable)?;
            }
        }
        Ok(())
    }

    /// How many milliseconds to wait for the system: none at all where a connection has more to do.
    fn timeout(&self, longest: u64) -> u64 {
        if self.waiting.is_empty() {
            longest
        } else if self.is_busy {
            self.manner.pace
        } else {
            self.manner.pace.max(LATE_TIME)
        }
    }

    /// The system reported a connection, or it has more to do: it is to have a turn.
    fn reported(&mut self, key: usize, readable: bool) -> io::Result<()> {
        if let Some(connection) = self.connections.get_mut(key) {
            if readable {
                connection.readable = true;
            }
            if !connection.listed {
                connection.listed = true;
                self.waiting.push(key)?;
            }
            self.is_busy = self.is_busy || readable;
        }
        Ok(())
    }

    /// Gives a turn to each connection that is to have one.
    fn give_turns(&mut self, now: u64) -> io::Result<()> {
        let turns = mem::replace(&mut self.waiting, Vec::new(self.alloc));
        self.is_busy = false;
        for key in turns.iter() {
            self.give_turn(*key, now)?;
        }
        Ok(())
    }

    fn give_turn(&mut self, key: usize, now: u64) -> io::Result<()> {
        match self.turn_of(key, now) {
            Ok(Then::Wait) => {}
            Ok(Then::Again) => {
                self.is_busy = true;
                return self.reported(key, false);
            }
            Ok(Then::Later) => return self.reported(key, false),
            Ok(Then::Close) => self.close(key, "its end"),
            Ok(Then::Cut) => self.close(key, "its script cuts it"),
            Err(_) => self.close(key, "its link failed"),
        }
        Ok(())
    }

    /// A connection's turn, whose notes are logged.
    fn turn_of(&mut self, key: usize, now: u64) -> io::Result<Then> {
        let Some(connection) = self.connections.get_mut(key) else {
            return Ok(Then::Wait);
        };
        connection.listed = false;
        connection.set_now(Moment::since_1970(self.began.saturating_add(now)));
        let number = connection.number;
        let mut notes = Vec::new(self.alloc);
        let paced = self.manner.pace > 0;
        let then = connection.turn(&self.script, paced, now, &mut notes);
        let elapsed = connection.elapsed(now);
        if let Some(source) = connection.source.take() {
            self.log.named(number, source);
        }
        for note in notes.iter() {
            self.log.noted(number, note, elapsed);
        }
        then
    }

    fn close(&mut self, key: usize, why: &str) {
        if let Some(connection) = self.connections.try_remove(key) {
            self.log.closed(connection.number, why);
        }
    }

    /// Cuts those that are late.
    fn cut_late(&mut self, now: u64) {
        let silence = self.manner.silence.saturating_mul(1000);
        let idle = self.script.idle();
        for key in 0..MOST {
            let late = match self.connections.get(key) {
                Some(connection) => connection.lateness(silence, idle, now),
                None => None,
            };
            match late {
                Some(Late::Login) => self.close(key, "its login took too long"),
                Some(Late::Taking) => self.close(key, "it took nothing for too long"),
                Some(Late::Silent) => self.close(key, "it was silent for too long"),
                Some(Late::Idle) => self.close(key, "its script closes it"),
                None => {}
            }
        }
    }

    /// Accepts all that wait.
    fn accept(&mut self, now: u64) {
        for _ in 0..MOST {
            let Ok((link, from)) = self.listener.accept() else {
                return;
            };
            if !self.take_in(link, from, now) {
                return;
            }
        }
    }

    /// Takes a connection in. One over the most connections is closed at once, and one that the system
    /// doesn't report. False where there is no memory for it.
    fn take_in(&mut self, mut link: Link, from: Option<SocketAddr>, now: u64) -> bool {
        if self.connections.len() >= MOST {
            return true;
        }
        let key = self.connections.vacant_key();
        if link.register(self.poll.registry(), Token(key)).is_err() {
            return true;
        }
        self.opened = self.opened.saturating_add(1);
        let number = self.opened;
        let on_attention = self.manner.on_attention;
        let is_real = self.manner.is_real;
        let is_proxied = self.manner.is_proxied;
        let made = Connection::new(
            self.alloc,
            link,
            number,
            on_attention,
            is_real,
            is_proxied,
            now,
        );
        let Ok(connection) = made else {
            return false;
        };
        let is_in = self.connections.insert(connection).is_ok();
        if is_in {
            self.log.opened(number, from);
        }
        is_in
    }
}

/// A duration in milliseconds.
fn milliseconds(duration: Duration) -> u64 {
    u64::try_from(duration.as_millis()).unwrap_or(u64::MAX)
}

/// A listener there, and what the system reports it to.
fn listen<R: Net + Files>(rt: &R, place: &Place) -> io::Result<(Poll, Listener)> {
    let poll = Poll::new(rt)?;
    let mut listener = Listener::new(rt, place)?;
    listener.register(poll.registry(), LISTENER)?;
    Ok((poll, listener))
}
