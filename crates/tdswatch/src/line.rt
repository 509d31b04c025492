//! A line of input.

use memchr::memchr;
use std::str::from_utf8;
use tds_judge::Direction;

/// What a line says of its connection.
#[derive(Clone, Copy)]
pub enum What {
    Bytes(Direction),
    Borrowed,
    Closed,
}

impl What {
    /// Whether nothing more comes of the connection.
    pub fn ends(self) -> bool {
        match self {
            What::Closed => true,
            What::Bytes(_) | What::Borrowed => false,
        }
    }
}

/// A line: its connection, what it says, when, and the digits of its bytes.
#[derive(Clone, Copy)]
pub struct Line<'a> {
    pub stream: u64,
    pub what: What,
    pub time: u64,
    pub digits: &'a [u8],
}

/// Reads `STREAM DIRECTION TIME HEX`; none where it is no such line.
pub fn read_line<'a>(line: &'a [u8]) -> Option<Line<'a>> {
    let (stream, rest) = split_word(line);
    let (what, rest) = split_word(rest);
    let (time, digits) = split_word(rest);
    let stream = read_number(stream)?;
    let time = read_number(time)?;
    let what = read_what(what)?;
    Some(Line {
        stream,
        what,
        time,
        digits,
    })
}

/// What stands before the first space and behind it; all and nothing, where there is none.
fn split_word<'a>(line: &'a [u8]) -> (&'a [u8], &'a [u8]) {
    let end = memchr(b' ', line).unwrap_or(line.len()).min(line.len());
    let (word, rest) = line.split_at(end);
    (word, rest.get(1..).unwrap_or(&[]))
}

fn read_number(word: &[u8]) -> Option<u64> {
    from_utf8(word).ok()?.parse::<u64>().ok()
}

fn read_what(word: &[u8]) -> Option<What> {
    match word {
        b">" => Some(What::Bytes(Direction::ToServer)),
        b"<" => Some(What::Bytes(Direction::ToClient)),
        b"borrow" => Some(What::Borrowed),
        b"close" => Some(What::Closed),
        _ => None,
    }
}
