//! The requests of recorded connections, each with its answer.

use serve_requests::{MessageKind, behind_headers};
use std::alloc::Global;
use tds_packet::Reset;

/// A request and its answer.
#[derive(Debug, Drop)]
pub struct Exchange {
    pub kind: MessageKind,
    pub reset: Option<Reset>,
    /// The request behind its headers.
    pub body: Vec<u8>,
    /// The data of the message that answered it, or of what came of that; and where in it each packet's end.
    pub answer: Vec<u8>,
    pub ends: Vec<usize>,
    /// How many bytes of its last packet never came; zeros stand in their place.
    pub missing: usize,
    /// How many packets of the answer came before an attention was sent, where one was before its end.
    pub held: Option<usize>,
    /// Whether the answer's message ended.
    pub is_whole: bool,
    /// Whether the server closed the connection behind it.
    pub is_last: bool,
}

/// A connection: its first request's place among those of all connections, and the data of the message that
/// authenticated it, if one did.
#[derive(Debug, Drop)]
pub struct Recorded {
    pub first: usize,
    pub login: Option<Vec<u8>>,
}

/// Recorded connections, with the requests of all of them in order.
#[derive(Debug, Drop)]
pub struct Recording {
    pub exchanges: Vec<Exchange>,
    pub connections: Vec<Recorded>,
}

/// A request that is looked for.
#[derive(Clone, Copy, Debug)]
pub struct Sought<'a> {
    pub kind: MessageKind,
    pub reset: Option<Reset>,
    /// How many bytes it has behind its headers, and the first of them, as far as they are kept.
    pub count: u64,
    pub front: &'a [u8],
}

/// What of a message's data stands behind its headers: the rows of a bulk load have none (MS-TDS 2.2.5.3).
pub fn body_of(kind: MessageKind, data: &[u8]) -> &[u8] {
    if kind == MessageKind::BulkLoad {
        return data;
    }
    match behind_headers(data) {
        Some((_, body)) => body,
        None => data,
    }
}

impl Recording {
    /// No connection.
    pub(crate) fn new(alloc: Global) -> Recording {
        Recording {
            exchanges: Vec::new(alloc),
            connections: Vec::new(alloc),
        }
    }

    /// The place of the first request of the recorded connection of this number, from 1; where there are
    /// fewer connections, they are gone through again.
    pub fn start(&self, number: u64) -> usize {
        match self.connection(number) {
            Some(connection) => connection.first,
            None => 0,
        }
    }

    /// What authenticated the recorded connection of this number; where nothing did, what authenticated the first one.
    pub fn login(&self, number: u64) -> Option<&[u8]> {
        if let Some(connection) = self.connection(number) {
            if let Some(login) = &connection.login {
                return Some(login.as_slice());
            }
        }
        for connection in &self.connections {
            if let Some(login) = &connection.login {
                return Some(login.as_slice());
            }
        }
        None
    }

    fn connection(&self, number: u64) -> Option<&Recorded> {
        let count = self.connections.len() as u64;
        if count == 0 {
            return None;
        }
        let place = number.saturating_sub(1) % count;
        self.connections.get(place as usize)
    }

    /// The first request that is like the sought one from this place on, and then from the beginning on,
    /// with its place.
    pub fn find(&self, from: usize, sought: Sought<'_>) -> Option<(usize, &Exchange)> {
        match self.find_from(from, sought) {
            Some(found) => Some(found),
            None => self.find_from(0, sought),
        }
    }

    /// The same, from this place on alone.
    fn find_from(&self, from: usize, sought: Sought<'_>) -> Option<(usize, &Exchange)> {
        for (place, exchange) in self.exchanges.iter().enumerate() {
            if place >= from && exchange.is(sought) {
                return Some((place, exchange));
            }
        }
        None
    }
}

impl Exchange {
    /// Whether its request is the sought one: in type, reset and body. Of a long body the kept bytes and
    /// their count are compared; of a bulk load none is kept.
    fn is(&self, sought: Sought<'_>) -> bool {
        self.kind == sought.kind
            && self.reset == sought.reset
            && self.body.len() as u64 == sought.count
            && is_front(self.body.as_slice(), sought.front)
    }
}

/// Whether bytes begin with these.
fn is_front(bytes: &[u8], front: &[u8]) -> bool {
    if bytes.len() < front.len() {
        return false;
    }
    for (one, other) in bytes.iter().zip(front.iter()) {
        if *one != *other {
            return false;
        }
    }
    true
}
