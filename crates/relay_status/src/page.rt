//! Whoever asks what the relay does, over HTTP/1: what he asks for, and the answer's head.

use crate::fields::{Signs, signs_of};
use httparse::Status;
use httparse::spans::{EMPTY_HEADER_SPAN, HeaderSpan, parse_request};
use std::alloc::{AllocError, Global};
use std::io::{self, Write};
use std::net::SocketAddr;

/// The most bytes of a request's head.
const MOST: usize = 4_096;

/// What is answered where there is no such page; where an order comes from another machine, or may be a
/// browser's; where a request is meant for somebody else; and where what came is no request of HTTP.
pub const PAGES: &[u8] = b"there is no such page; those that are: GET /, /json, /metrics; \
POST /kill/GROUP, /pause/GROUP, /resume/GROUP, /reload, /drain\n";

pub const FAR: &[u8] = b"POST is taken from the relay's own machine alone: ask at its 127.0.0.1\n";

pub const UNMEANT: &[u8] =
    b"POST wants the field X-Tdsrelay: 1, and takes nothing of a page in a browser: \
curl -X POST -H 'X-Tdsrelay: 1' http://ADDRESS/..\n";

pub const STRANGE: &[u8] = b"the field Host isn't this address: ask at it by its numbers\n";

pub const NO_HTTP: &[u8] = b"no request of HTTP/1.1 of 4,096 bytes at most came here; \
applications connect to the relay's other address, LISTEN\n";

/// What is asked for.
#[derive(Clone, Copy)]
pub enum Page {
    /// A page of text for a reader.
    Text,
    Json,
    /// The text form that Prometheus reads.
    Metrics,
    /// All that is there of the group of this number is to be closed.
    Kill(u64),
    /// The group of this number is to be paused, and to go on.
    Pause(u64),
    Resume(u64),
    /// The settings are to be read again.
    Reload,
    /// The relay is to end in order.
    Drain,
    /// An order from another machine; one that may be a browser's; and a request whose Host is another one.
    Far,
    Unmeant,
    Strange,
    /// Nothing that is there.
    Unknown,
    /// No request of HTTP.
    Wrong,
}

/// Where somebody asks.
#[derive(Clone, Copy)]
pub enum Door {
    /// A Unix socket, which its owner alone may open.
    Unix,
    /// This address of the relay's; and whether he asks from its machine: only then is anything changed.
    Tcp(SocketAddr, bool),
}

/// Somebody who asks, until his request's head has come.
#[derive(Drop)]
pub struct StatusClient {
    head: Vec<u8>,
    door: Door,
}

impl StatusClient {
    pub fn new(alloc: Global, door: Door) -> StatusClient {
        StatusClient {
            head: Vec::new(alloc),
            door,
        }
    }

    /// Takes bytes, and answers what is asked for, once that is known.
    pub fn take(&mut self, piece: &[u8]) -> Result<Option<Page>, AllocError> {
        self.head.extend_from_slice(piece)?;
        let mut headers = [EMPTY_HEADER_SPAN; 32];
        let asked = match parse_request(&self.head, &mut headers) {
            Ok(Status::Complete(head)) => {
                let (method, path) = (head.method.of(&self.head), head.path.of(&self.head));
                let fields = first(&headers, head.headers);
                Some(page_at(self.door, page_of(method, path), &self.head, fields))
            }
            Ok(Status::Partial) if self.head.len() <= MOST => None,
            _ => Some(Page::Wrong),
        };
        Ok(asked)
    }
}

/// The first ones of some fields.
fn first(fields: &[HeaderSpan], count: usize) -> &[HeaderSpan] {
    &fields[..count.min(fields.len())]
}

/// What is asked for where this is, as far as the fields of its head allow it there.
fn page_at(door: Door, page: Page, head: &[u8], fields: &[HeaderSpan]) -> Page {
    match door {
        Door::Unix => page,
        Door::Tcp(at, is_near) => allowed(page, &signs_of(head, fields, at), is_near),
    }
}

/// What is asked for, where it is allowed to whoever asks over TCP.
fn allowed(page: Page, signs: &Signs, is_near: bool) -> Page {
    if !signs.is_here {
        return Page::Strange;
    }
    match page {
        Page::Text | Page::Json | Page::Metrics | Page::Unknown | Page::Wrong => page,
        _ if !is_near => Page::Far,
        _ if signs.is_of_page || !signs.is_meant => Page::Unmeant,
        _ => page,
    }
}

fn page_of(method: &[u8], path: &[u8]) -> Page {
    match method {
        b"GET" => match path {
            b"/" => Page::Text,
            b"/json" => Page::Json,
            b"/metrics" => Page::Metrics,
            _ => Page::Unknown,
        },
        b"POST" => ordered(path),
        _ => Page::Unknown,
    }
}

/// What is to be changed.
fn ordered(path: &[u8]) -> Page {
    match path {
        b"/reload" => return Page::Reload,
        b"/drain" => return Page::Drain,
        _ => {}
    }
    if let Some(group) = group_behind(path, b"/kill/") {
        return Page::Kill(group);
    }
    if let Some(group) = group_behind(path, b"/pause/") {
        return Page::Pause(group);
    }
    match group_behind(path, b"/resume/") {
        Some(group) => Page::Resume(group),
        None => Page::Unknown,
    }
}

/// The number of a group that stands behind this.
fn group_behind(path: &[u8], front: &[u8]) -> Option<u64> {
    match path.strip_prefix(front) {
        Some(digits) => number_of(digits),
        None => None,
    }
}

/// A group's number.
fn number_of(digits: &[u8]) -> Option<u64> {
    let mut number: u64 = 0;
    if digits.is_empty() || digits.len() > 18 {
        return None;
    }
    for digit in digits {
        if !digit.is_ascii_digit() {
            return None;
        }
        number = number
            .saturating_mul(10)
            .saturating_add(u64::from(*digit - b'0'));
    }
    Some(number)
}

/// Appends an answer with this body.
pub fn put_answer(out: &mut Vec<u8>, status: &str, kind: &str, body: &[u8]) -> io::Result<()> {
    let length = body.len();
    write!(
        out,
        "HTTP/1.1 {status}\r\nContent-Type: {kind}; charset=utf-8\r\nContent-Length: {length}\r\n"
    )?;
    write!(out, "Connection: close\r\n\r\n")?;
    out.extend_from_slice(body)?;
    Ok(())
}
