//! A walk over the bytes of JSON that judges what may stand where.

use crate::places::is_space;
use std::alloc::{AllocError, Global};

/// Whether a byte can stand where it does.
#[derive(Clone, Copy)]
pub(crate) enum Judged {
    Fits,
    /// It can't, for this reason.
    Wrong(&'static str),
    /// It can't.
    CannotStand,
}

/// What may stand next.
#[derive(Clone, Copy, PartialEq, Eq)]
enum Due {
    Value,
    /// A value, or the end of an array.
    FirstValue,
    Key,
    /// A key, or the end of an object.
    FirstKey,
    Colon,
    /// A comma, or the end of what is open.
    Comma,
}

/// What the byte before stands in.
#[derive(Clone, Copy, PartialEq, Eq)]
enum Within {
    Nothing,
    Text,
    /// A text, behind its backslash.
    Escape,
    /// A number, true, false or null.
    Word,
}

/// How many arrays and objects may stand in one another.
const DEEPEST: usize = 127;

const COMMENT: &str = "JSON has no comments";

const QUOTES: &str = "a text stands in double quotes";

const TOO_DEEP: &str = "more than 127 arrays and objects stand in one another";

const BEHIND_COMMA: &str = "nothing stands behind the comma";

const TWO_COMMAS: &str = "there is a comma too many";

const NO_VALUE: &str = "a value is missing behind the colon";

const NO_KEY: &str = "a key stands in double quotes";

const NO_COLON: &str = "a colon is missing behind the key";

const NO_COMMA: &str = "a comma is missing before this";

const GOES_ON: &str = "the file goes on behind the end of its value";

const ARRAY_END: &str = "an array ends with ], and here stands }";

const OBJECT_END: &str = "an object ends with }, and here stands ]";

const COLON: &str = "a colon stands behind a key of an object alone";

const TEXT_END: &str = "a text ends on its line, with a double quote";

const ESCAPE: &str = "JSON has no such escape";

/// Where the walk stands.
#[derive(Drop)]
pub(crate) struct Walk {
    /// The brackets and braces that are open.
    open: Vec<u8>,
    due: Due,
    within: Within,
    /// The last byte outside of texts that is no space; of a text it is a quote.
    last: u8,
}

impl Walk {
    pub(crate) fn new(alloc: Global) -> Walk {
        Walk {
            open: Vec::new(alloc),
            due: Due::Value,
            within: Within::Nothing,
            last: b' ',
        }
    }

    /// Whether one value stands before here, and nothing is open.
    pub(crate) fn is_whole(&self) -> bool {
        let is_in_text = matches!(self.within, Within::Text | Within::Escape);
        self.open.is_empty() && self.due == Due::Comma && !is_in_text
    }

    /// Judges the next byte, and goes on where it fits.
    pub(crate) fn take(&mut self, byte: u8) -> Result<Judged, AllocError> {
        match self.within {
            Within::Text => return Ok(self.take_in_text(byte)),
            Within::Escape => return Ok(self.take_escaped(byte)),
            Within::Word if is_of_word(byte) => return Ok(Judged::Fits),
            Within::Word | Within::Nothing => self.within = Within::Nothing,
        }
        if is_space(byte) {
            return Ok(Judged::Fits);
        }
        let judged = self.judge(byte);
        if matches!(judged, Judged::Fits) {
            self.go_on(byte)?;
        }
        Ok(judged)
    }

    fn take_in_text(&mut self, byte: u8) -> Judged {
        match byte {
            b'"' => self.within = Within::Nothing,
            b'\\' => self.within = Within::Escape,
            0..=31 => return Judged::Wrong(TEXT_END),
            _ => {}
        }
        Judged::Fits
    }

    fn take_escaped(&mut self, byte: u8) -> Judged {
        self.within = Within::Text;
        match byte {
            b'"' | b'\\' | b'/' | b'b' | b'f' | b'n' | b'r' | b't' | b'u' => Judged::Fits,
            _ => Judged::Wrong(ESCAPE),
        }
    }

    /// The innermost bracket or brace that is open.
    fn inner(&self) -> Option<u8> {
        self.open.as_slice().last().copied()
    }

    fn judge(&self, byte: u8) -> Judged {
        match byte {
            b'/' | b'#' => return Judged::Wrong(COMMENT),
            b'\'' => return Judged::Wrong(QUOTES),
            _ => {}
        }
        match self.due {
            Due::Value => self.judge_value(byte),
            Due::FirstValue => match byte {
                b']' => Judged::Fits,
                b'}' => Judged::Wrong(ARRAY_END),
                _ => self.judge_value(byte),
            },
            Due::Key => match byte {
                b'"' => Judged::Fits,
                b']' | b'}' => Judged::Wrong(BEHIND_COMMA),
                b',' => Judged::Wrong(TWO_COMMAS),
                _ => Judged::Wrong(NO_KEY),
            },
            Due::FirstKey => match byte {
                b'"' | b'}' => Judged::Fits,
                b']' => Judged::Wrong(OBJECT_END),
                _ => Judged::Wrong(NO_KEY),
            },
            Due::Colon if byte == b':' => Judged::Fits,
            Due::Colon => Judged::Wrong(NO_COLON),
            Due::Comma => self.judge_behind_value(byte),
        }
    }

    fn judge_value(&self, byte: u8) -> Judged {
        match (self.last, byte) {
            (_, b'[' | b'{') if self.open.len() >= DEEPEST => Judged::Wrong(TOO_DEEP),
            (_, byte) if begins_value(byte) => Judged::Fits,
            (b',', b']' | b'}') => Judged::Wrong(BEHIND_COMMA),
            (b',', b',') => Judged::Wrong(TWO_COMMAS),
            (b':', b',' | b']' | b'}') => Judged::Wrong(NO_VALUE),
            _ => Judged::CannotStand,
        }
    }

    fn judge_behind_value(&self, byte: u8) -> Judged {
        match (self.inner(), byte) {
            (None, _) => Judged::Wrong(GOES_ON),
            (Some(b'['), b'}') => Judged::Wrong(ARRAY_END),
            (Some(b'['), b':') => Judged::Wrong(COLON),
            (Some(b'{'), b']') => Judged::Wrong(OBJECT_END),
            (_, b',' | b']' | b'}') => Judged::Fits,
            (_, byte) if begins_value(byte) => Judged::Wrong(NO_COMMA),
            _ => Judged::CannotStand,
        }
    }

    /// Goes on behind a byte that fits.
    fn go_on(&mut self, byte: u8) -> Result<(), AllocError> {
        self.due = match byte {
            b'[' => Due::FirstValue,
            b'{' => Due::FirstKey,
            b':' => Due::Value,
            b',' if self.inner() == Some(b'{') => Due::Key,
            b',' => Due::Value,
            b'"' if matches!(self.due, Due::Key | Due::FirstKey) => Due::Colon,
            _ => Due::Comma,
        };
        self.last = byte;
        match byte {
            b'[' | b'{' => self.open.push(byte)?,
            b']' | b'}' => self.close(),
            b'"' => self.within = Within::Text,
            b',' | b':' => {}
            _ => self.within = Within::Word,
        }
        Ok(())
    }

    fn close(&mut self) {
        let _ = self.open.pop();
    }
}

fn begins_value(byte: u8) -> bool {
    matches!(byte, b'[' | b'{' | b'"' | b'-' | b't' | b'f' | b'n') || byte.is_ascii_digit()
}

fn is_of_word(byte: u8) -> bool {
    matches!(byte, b'+' | b'-' | b'.') || byte.is_ascii_alphanumeric()
}
