//! All sockets, by their keys.

use crate::due::Dues;
use crate::link::{Link, News};
use crate::role::{Application, Role};
use crate::room::{Admission, Room};
use crate::socket::Socket;
use mio::unix::SourceFd;
use mio::{Events, Interest, Poll, Token};
use relay_logins::{Entry, Table, place_of};
use relay_status::raise;
use socket_places::{Keeping, Link as Stream, Listener, Place};
use std::alloc::{AllocError, Global};
use std::fs::Files;
use std::net::Net;
use std::time::Duration;
use std::{io, mem};
use tds_judge::Finding;

/// The most reports of the system that are taken in a round.
pub const ROUND: usize = 256;

/// For so many turns room is kept from one round to the next.
const KEPT: usize = 1_024;

/// All sockets, and which of them are to have a turn.
#[derive(Drop)]
pub struct Sockets {
    pub(crate) alloc: Global,
    poll: Poll,
    pub(crate) table: Table<Socket>,
    /// The keys of those that are to have a turn, and of those that have theirs now.
    waiting: Vec<usize>,
    turns: Vec<usize>,
    /// When each is to be looked at.
    pub(crate) dues: Dues,
    /// How many sockets there were.
    opened: u64,
    /// How many sockets were reported to have bytes while none of theirs waited.
    reports: u64,
    /// Whether both sides are judged.
    pub is_judged: bool,
    /// How many there may be.
    room: Room,
    /// How the system looks after each.
    pub keeping: Keeping,
    /// What was found and isn't told yet.
    pub(crate) findings: Vec<Finding>,
}

impl Sockets {
    /// No socket yet.
    pub fn new<R: Net>(
        rt: &R,
        alloc: Global,
        is_judged: bool,
        keeping: Keeping,
    ) -> io::Result<Sockets> {
        Ok(Sockets {
            alloc,
            poll: Poll::new(rt)?,
            table: Table::new(alloc),
            waiting: Vec::new(alloc),
            turns: Vec::new(alloc),
            dues: Dues::new(alloc),
            opened: 0,
            reports: 0,
            is_judged,
            room: Room::new(),
            keeping,
            findings: Vec::new(alloc),
        })
    }

    /// A listener at this place, which the system reports by this token.
    pub fn listen<R: Net + Files>(
        &self,
        rt: &R,
        place: &Place,
        token: Token,
    ) -> io::Result<Listener> {
        let mut listener = Listener::new(rt, place)?;
        listener.register(self.poll.registry(), token)?;
        Ok(listener)
    }

    /// From now on the system reports the end of standard input by this token. It is to be a pipe or a
    /// socket: the system refuses a file. Nothing is read of it.
    pub fn watch_input(&self, token: Token) -> io::Result<()> {
        let mut input = SourceFd(&0);
        self.poll
            .registry()
            .register(&mut input, token, Interest::READABLE)
    }

    /// From now on the system reports by this token that standard error may be written to: not where it is a
    /// file, which always may.
    pub fn watch_log(&self, token: Token) {
        let mut log = SourceFd(&2);
        let _ = self
            .poll
            .registry()
            .register(&mut log, token, Interest::WRITABLE);
    }

    /// Waits for the system's reports, for so many milliseconds at most, and not at all where a socket is to
    /// have a turn.
    pub fn wait(&mut self, events: &mut Events<Global>, longest: u64) -> io::Result<()> {
        let longest = if self.waiting.is_empty() { longest } else { 0 };
        self.poll.poll(events, Some(Duration::from_millis(longest)))
    }

    /// Those that are to have a turn have theirs now, and none is to have one then. Answers how many they are.
    pub fn begin_turns(&mut self) -> usize {
        let Sockets {
            alloc,
            turns,
            waiting,
            ..
        } = self;
        if turns.capacity() > KEPT {
            *turns = Vec::new(*alloc);
        }
        turns.clear();
        mem::swap(turns, waiting);
        turns.len()
    }

    /// The key of the one that has the turn of this place.
    pub fn turn(&self, place: usize) -> Option<usize> {
        self.turns.get(place).copied()
    }

    pub fn get(&self, key: usize) -> Option<&Socket> {
        self.table.get(key)
    }

    pub fn get_mut(&mut self, key: usize) -> Option<&mut Socket> {
        self.table.get_mut(key)
    }

    /// The application of a group that this one is.
    pub fn application(&mut self, key: usize) -> Option<&mut Application> {
        self.table.get_mut(key)?.application()
    }

    /// A socket, with the list to which what is found of it is appended.
    pub fn get_judged(&mut self, key: usize) -> Option<(&mut Socket, &mut Vec<Finding>)> {
        let Sockets {
            table,
            findings,
            ..
        } = self;
        match table.get_mut(key) {
            Some(socket) => Some((socket, findings)),
            None => None,
        }
    }

    /// All of them.
    pub fn iter(&self) -> slab::Iter<'_, Entry<Socket>> {
        self.table.iter()
    }

    /// The keys of all.
    pub fn keys(&self) -> Result<Vec<usize>, AllocError> {
        let mut keys = Vec::new(self.alloc);
        for (_, entry) in self.table.iter() {
            keys.push(entry.key)?;
        }
        Ok(keys)
    }

    /// The system reported a socket, or it has more to do: it is to have a turn.
    pub fn report(&mut self, key: usize, news: News) -> Result<(), AllocError> {
        let Sockets {
            table,
            waiting,
            reports,
            ..
        } = self;
        let Some(socket) = table.get_mut(key) else {
            return Ok(());
        };
        if !matches!(news, News::Turn) && !socket.link.is_readable() {
            raise(reports);
            socket.order = *reports;
        }
        if socket.link.report(news) {
            waiting.push(key)?;
        }
        Ok(())
    }

    /// A socket may be read on: it is to have a turn, where more may be there.
    pub fn read_on(&mut self, key: usize) -> Result<(), AllocError> {
        match self.table.get(key) {
            Some(socket) if socket.link.is_readable() => self.report(key, News::Turn),
            _ => Ok(()),
        }
    }

    /// What becomes of an application that comes now.
    pub fn admission(&self) -> Admission {
        self.room.admission(self.table.len())
    }

    /// An application comes that is one too many. Whether it is the first one of these.
    pub fn is_newly_full(&mut self) -> bool {
        self.room.is_newly_full()
    }

    /// Takes a socket in, to which these bytes are to be sent, in this millisecond. One too many is closed at
    /// once, and one that the system doesn't report.
    pub fn take_in(
        &mut self,
        mut stream: Stream,
        role: Role,
        out: Vec<u8>,
        now: u64,
    ) -> io::Result<Option<usize>> {
        let Some(key) = self.table.next_key() else {
            return Ok(None);
        };
        if !self.is_reported(&mut stream, key) {
            return Ok(None);
        }
        self.opened = self.opened.saturating_add(1);
        let socket = Socket::new(self.opened, Link::new(stream), role, out, now);
        if self.table.insert(socket).is_none() {
            return Ok(None);
        }
        self.dues.add(place_of(key), key)?;
        self.begin_judging(key)?;
        Ok(Some(key))
    }

    /// Whether there is room for a socket, and the system reports it from now on.
    fn is_reported(&self, stream: &mut Stream, key: usize) -> bool {
        self.room.has(self.table.len())
            && stream.keep(&self.keeping).is_ok()
            && stream.register(self.poll.registry(), Token(key)).is_ok()
    }
}
