//! Names of servers: a helper, `tdstls names`, is asked which addresses they have, over a socket of its own, so that
//! nobody waits for a resolver. What it answers is kept for its time to live, and longer while it answers nothing.
//!
//! A line asks: a name. A line answers: the name, the seconds for which the answer lives, and addresses, the first one
//! preferred; or the name, a `!`, and why it has none.

use crate::event_loop::EventLoop;
use relay_settings::{Named, is_reached_at};
use std::alloc::{AllocError, Global};
use std::net::{IpAddr, SocketAddr};

/// The most bytes of a line.
const MOST: usize = 4_096;

/// The most addresses of a name.
pub(crate) const MOST_ADDRESSES: usize = 4;

/// The milliseconds after which a question counts as not answered, and after which it is put again then.
pub(crate) const PATIENCE: u64 = 10_000;

pub(crate) const AGAIN: u64 = 5_000;

/// The bounds of an answer's time to live, in seconds.
const SHORTEST: u64 = 1;

const LONGEST: u64 = 86_400;

/// A server's name.
#[derive(Drop)]
pub struct Name {
    pub named: Named,
    /// The millisecond from which it is to be asked, and in which it was, while there is no answer.
    pub due: u64,
    pub asked: Option<u64>,
    /// Whether there was an answer, or none came in time.
    pub is_known: bool,
    /// Whether the last one was that there is none.
    pub has_failed: bool,
}

/// What is asked.
#[derive(Drop)]
pub struct Names {
    alloc: Global,
    /// The path of the helper's socket; empty where names aren't asked.
    pub path: String,
    pub list: Vec<Name>,
    /// The key of the socket, while it is there, and the millisecond from which it is dialed again.
    pub link: Option<usize>,
    pub next: u64,
    /// What has come of a line.
    pub(crate) line: Vec<u8>,
}

/// What a line answers.
#[derive(Clone, Copy)]
pub(crate) struct Answer {
    pub(crate) addresses: [Option<IpAddr>; MOST_ADDRESSES],
    /// The milliseconds for which it lives; 0 where it is that there is none.
    pub(crate) life: u64,
}

impl Names {
    pub fn new(alloc: Global) -> Names {
        Names {
            alloc,
            path: String::new(alloc),
            list: Vec::new(alloc),
            link: None,
            next: 0,
            line: Vec::new(alloc),
        }
    }

    /// These are asked from now on, at the socket of this path.
    pub fn begin(&mut self, path: String, named: Vec<Named>) -> Result<(), AllocError> {
        self.path = path;
        for named in named {
            self.list.push(Name {
                named,
                due: 0,
                asked: None,
                is_known: false,
                has_failed: false,
            })?;
        }
        Ok(())
    }

    /// Whether each name was answered, or not in time: before that nobody is authenticated.
    pub fn are_known(&self) -> bool {
        for name in self.list.iter() {
            if !name.is_known {
                return false;
            }
        }
        true
    }

    /// Takes bytes up to a line's end, and answers how many; and whether there is a whole line then.
    pub(crate) fn take(&mut self, piece: &[u8]) -> Result<(usize, bool), AllocError> {
        let mut count: usize = 0;
        for byte in piece {
            count = count.saturating_add(1);
            if *byte == b'\n' {
                return Ok((count, true));
            }
            if self.line.len() < MOST {
                self.line.push(*byte)?;
            }
        }
        Ok((count, false))
    }
}

impl EventLoop {
    /// Whether somebody may be authenticated: the names of servers are known, as far as they are.
    pub fn is_ready(&self) -> bool {
        self.names.are_known()
    }
}

/// What a line answers, and of which name. None where it is no answer.
pub(crate) fn answer_in(line: &str) -> Option<(&str, Answer)> {
    let (host, rest) = line.split_once(' ')?;
    let mut answer = Answer {
        addresses: [None; MOST_ADDRESSES],
        life: 0,
    };
    if rest.starts_with('!') {
        return Some((host, answer));
    }
    let (seconds, rest) = rest.split_once(' ')?;
    let seconds = seconds.parse::<u64>().ok()?;
    answer.life = seconds.clamp(SHORTEST, LONGEST).saturating_mul(1000);
    for (place, word) in answer.addresses.iter_mut().zip(rest.split(' ')) {
        *place = Some(word.parse::<IpAddr>().ok()?);
    }
    Some((host, answer))
}

/// The addresses of an answer that aren't the relay's own, at this port; and whether one is its own.
pub(crate) fn others_in(
    alloc: Global,
    answer: &Answer,
    listen: SocketAddr,
    port: u16,
) -> Result<(Vec<IpAddr>, bool), AllocError> {
    let (mut others, mut has_own) = (Vec::new(alloc), false);
    for address in answer.addresses.iter() {
        if let Some(address) = address {
            if is_reached_at(listen, SocketAddr::new(*address, port)) {
                has_own = true;
            } else {
                others.push(*address)?;
            }
        }
    }
    Ok((others, has_own))
}
