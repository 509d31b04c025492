//! Where in a file something stands.

use crate::page::Page;
use serde_json::Value;
use std::alloc::{AllocError, Global};
use std::fmt::Write;

/// A place in a file: so many bytes stand before it. Line and column count from 1, and a column is a
/// character.
#[derive(Clone, Copy)]
pub struct Place {
    offset: usize,
    line: usize,
    column: usize,
}

impl Place {
    /// Where a file begins.
    pub fn start() -> Place {
        Place {
            offset: 0,
            line: 1,
            column: 1,
        }
    }

    /// Goes on to where so many bytes stand before it.
    pub fn go_to(&mut self, bytes: &[u8], offset: usize) {
        for byte in bytes.get(self.offset..offset).unwrap_or(&[]) {
            if *byte == b'\n' {
                self.line = self.line.saturating_add(1);
                self.column = 1;
            } else if !is_within_character(*byte) {
                self.column = self.column.saturating_add(1);
            }
        }
        self.offset = offset;
    }

    /// Appends the front of a line about it.
    pub fn put(&self, text: &mut String, name: &str) -> Result<(), AllocError> {
        write!(text, "{name}:{}:{}: ", self.line, self.column)
    }
}

/// Appends the front of a line about what stands behind so many bytes.
pub fn put_place(text: &mut String, page: Page<'_>, offset: usize) -> Result<(), AllocError> {
    let mut place = Place::start();
    place.go_to(page.bytes, offset);
    place.put(text, page.name)
}

/// Whether a byte of UTF-8 isn't its character's first.
fn is_within_character(byte: u8) -> bool {
    (0x80..0xc0).contains(&byte)
}

/// Where a scan of JSON stands.
#[derive(Drop)]
struct Scan {
    /// How many arrays and objects are open.
    depth: usize,
    is_text: bool,
    is_escaped: bool,
    /// A part of the outermost one may begin.
    is_due: bool,
}

impl Scan {
    /// Before the first byte.
    fn new() -> Scan {
        Scan {
            depth: 0,
            is_text: false,
            is_escaped: false,
            is_due: false,
        }
    }

    /// Takes the next byte, and answers whether a part begins with it.
    fn take(&mut self, byte: u8) -> bool {
        if self.is_text {
            self.take_in_text(byte);
            return false;
        }
        match byte {
            b' ' | b'\t' | b'\n' | b'\r' => false,
            b',' | b':' => {
                self.is_due = self.depth == 1;
                false
            }
            b']' | b'}' => {
                self.depth = self.depth.saturating_sub(1);
                false
            }
            _ => self.begin(byte),
        }
    }

    fn take_in_text(&mut self, byte: u8) {
        if self.is_escaped {
            self.is_escaped = false;
        } else {
            self.is_escaped = byte == b'\\';
            self.is_text = byte != b'"';
        }
    }

    /// Takes a byte that begins a value, or goes on with one.
    fn begin(&mut self, byte: u8) -> bool {
        let begins = self.is_due && self.depth == 1;
        if begins {
            self.is_due = false;
        }
        if byte == b'[' || byte == b'{' {
            self.depth = self.depth.saturating_add(1);
            self.is_due = self.depth == 1;
        }
        self.is_text = byte == b'"';
        begins
    }
}

/// Where the parts begin of the array or object that begins behind so many bytes: the items of an
/// array, the keys and values of an object in turn. Of another value there are none.
pub fn parts_of(alloc: Global, bytes: &[u8], offset: usize) -> Result<Vec<usize>, AllocError> {
    let mut parts = Vec::new(alloc);
    let mut scan = Scan::new();
    for (index, byte) in bytes.iter().enumerate().skip(offset) {
        if scan.take(*byte) {
            parts.push(index)?;
        }
        if scan.depth == 0 && !is_space(*byte) {
            break;
        }
    }
    Ok(parts)
}

/// The value that begins behind so many bytes, as it is spelled there.
pub fn spelled_at(bytes: &[u8], offset: usize) -> &[u8] {
    let rest = bytes.get(offset..).unwrap_or(&[]);
    let mut scan = Scan::new();
    let mut end = rest.len();
    for (index, byte) in rest.iter().enumerate() {
        let is_within = scan.is_text || scan.depth > 0;
        if !is_within && index > 0 && ends_word(*byte) {
            end = index;
            break;
        }
        scan.take(*byte);
        if is_within && !scan.is_text && scan.depth == 0 {
            end = index.saturating_add(1);
            break;
        }
    }
    rest.get(..end).unwrap_or(&[])
}

/// Whether a byte that stands behind a number or a word is no part of it.
fn ends_word(byte: u8) -> bool {
    is_space(byte) || matches!(byte, b',' | b':' | b']' | b'}')
}

/// The value that begins behind so many bytes, which are JSON.
pub fn value_at(alloc: Global, bytes: &[u8], offset: usize) -> Result<Value, AllocError> {
    Value::from_slice(alloc, spelled_at(bytes, offset)).map_err(|_| AllocError)
}

/// How many bytes stand before this unit, from 0, of the text that begins behind so many bytes.
pub fn unit_at(bytes: &[u8], offset: usize, unit: usize) -> usize {
    let mut at = offset.saturating_add(1);
    let mut is_second = false;
    for _ in 0..unit {
        if is_second {
            is_second = false;
            continue;
        }
        let spelled = match bytes.get(at..) {
            Some([b'\\', b'u', ..]) => 6usize,
            Some([b'\\', ..]) => 2,
            Some([0xf0..=0xff, ..]) => 4,
            Some([0xe0..=0xef, ..]) => 3,
            Some([0xc0..=0xdf, ..]) => 2,
            _ => 1,
        };
        // A character of four bytes has two units.
        is_second = spelled == 4;
        at = at.saturating_add(spelled);
    }
    at.min(bytes.len())
}

pub(crate) fn is_space(byte: u8) -> bool {
    matches!(byte, b' ' | b'\t' | b'\n' | b'\r')
}
