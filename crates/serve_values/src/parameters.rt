//! A parameter's type and value (MS-TDS 2.2.5.4 to 2.2.5.6, 2.2.6.6).

mod scalars;

use crate::encoding::put_chunked;
use crate::text::units_of;
use serve_answers::Value;
use std::alloc::{AllocError, Global};
use tds_wire::{Features, TokenParser};

/// The most bytes of a parameter's value.
pub const MOST_VALUE: usize = 1_048_576;

/// A parameter of a call.
#[derive(Debug, Drop)]
pub struct Parameter<'a> {
    pub name: Vec<u16>,
    pub bytes: TypedBytes<'a>,
}

impl Parameter<'_> {
    /// Its value as a column has it.
    pub fn value(&self, alloc: Global) -> Result<Value, AllocError> {
        self.bytes.own(alloc)
    }
}

/// A type and a value of it, as they came.
#[derive(Clone, Copy, Debug)]
pub struct TypedBytes<'a> {
    pub kind: &'a [u8],
    pub value: &'a [u8],
}

/// RETURNVALUE (MS-TDS 2.2.7.19) before its type, without a name: a type and a value stand behind it as
/// they do in a parameter.
const FRONT: [u8; 11] = [0xac, 0, 0, 0, 0, 0, 0, 0, 0, 0, 0];

/// Reads types and values.
#[derive(Drop)]
pub struct Reading {
    parser: TokenParser,
}

impl Reading {
    pub fn new(alloc: Global) -> Result<Reading, AllocError> {
        let features = Features {
            encryption: false,
            ranks: false,
        };
        Ok(Reading {
            parser: TokenParser::new(alloc, 1, features)?,
        })
    }

    /// The type and the value that these bytes begin with, and what stands behind them.
    pub fn typed<'a>(&mut self, bytes: &'a [u8]) -> Option<(TypedBytes<'a>, &'a [u8])> {
        let kind_length = type_length(bytes)?;
        let (kind, behind) = bytes.split_at_checked(kind_length)?;
        let count = match kind {
            // IMAGE, TEXT, NTEXT have no pointer before their value in a parameter
            [0x22 | 0x23 | 0x63, ..] => long_length(behind)?,
            _ => self.passed(bytes)?.checked_sub(kind_length)?,
        };
        let (value, rest) = behind.split_at_checked(count)?;
        Some((TypedBytes { kind, value }, rest))
    }

    /// How many bytes a type and a value have at the front of these.
    fn passed(&mut self, bytes: &[u8]) -> Option<usize> {
        self.parser.restart();
        let front = self.parser.feed(&FRONT).ok()?;
        if front.token.is_some() {
            return None;
        }
        let fed = self.parser.feed(bytes).ok()?;
        match fed.token {
            Some(_) => Some(fed.count),
            None => None,
        }
    }
}

/// How many bytes a value has behind its length in four bytes, which counted; all bits set is no value.
fn long_length(bytes: &[u8]) -> Option<usize> {
    let [a, b, c, d, ..] = bytes else {
        return None;
    };
    let count = u32::from_le_bytes([*a, *b, *c, *d]);
    if count == u32::MAX {
        return Some(4);
    }
    Some((count as usize).saturating_add(4))
}

/// How many bytes a type has (MS-TDS 2.2.5.6), its first one counted.
fn type_length(bytes: &[u8]) -> Option<usize> {
    let [first, ..] = bytes else {
        return None;
    };
    match *first {
        // of a fixed length: NULL, INT1, BIT, INT2, INT4, DATETIM4, FLT4, MONEY, DATETIME, FLT8, MONEY4, INT8
        0x1f | 0x30 | 0x32 | 0x34 | 0x38 | 0x3a..=0x3e | 0x7a | 0x7f => Some(1),
        // DATEN
        0x28 => Some(1),
        // TIMEN, DATETIME2N, DATETIMEOFFSETN with a scale
        0x29..=0x2b => Some(2),
        // GUID, INTN, BITN, FLTN, MONEYN, DATETIMN; CHAR, VARCHAR, BINARY, VARBINARY of old
        0x24..=0x27 | 0x2d | 0x2f | 0x68 | 0x6d..=0x6f => Some(2),
        // DECIMAL, NUMERIC, DECIMALN, NUMERICN: length, precision, scale
        0x37 | 0x3f | 0x6a | 0x6c => Some(4),
        // BIGVARBIN, BIGBINARY
        0xa5 | 0xad => Some(3),
        // BIGVARCHR, BIGCHAR, NVARCHAR, NCHAR with a collation
        0xa7 | 0xaf | 0xe7 | 0xef => Some(8),
        // IMAGE, SSVARIANT
        0x22 | 0x62 => Some(5),
        // TEXT, NTEXT with a collation
        0x23 | 0x63 => Some(10),
        // XML without a schema
        0xf1 => Some(2),
        _ => None,
    }
}

impl TypedBytes<'_> {
    /// Its value in memory of its own, as a column has it: of its own type, but that IMAGE, TEXT and NTEXT are
    /// told as VARBINARY, VARCHAR and NVARCHAR of any length.
    pub fn own(&self, alloc: Global) -> Result<Value, AllocError> {
        match self.kind {
            [0x22, ..] => long(alloc, &[0xa5, 0xff, 0xff], &[], self.value),
            [0x23, _, _, _, _, collation @ ..] => {
                long(alloc, &[0xa7, 0xff, 0xff], collation, self.value)
            }
            [0x63, _, _, _, _, collation @ ..] => {
                long(alloc, &[0xe7, 0xff, 0xff], collation, self.value)
            }
            // NULL: an INTN without a value
            [0x1f, ..] => as_it_is(alloc, &[0x26, 4], &[0]),
            kind => as_it_is(alloc, kind, self.value),
        }
    }

    /// How many bytes its value has, apart from what says how many these are.
    pub fn count(&self) -> usize {
        match (self.kind, self.value) {
            (
                [0xf1, ..] | [0xa5 | 0xa7 | 0xe7, 0xff, 0xff, ..],
                [_, _, _, _, _, _, _, _, chunks @ ..],
            ) => { count_in(chunks) }
            (_, value) => value.len().saturating_sub(4),
        }
    }

    /// The number that it is, if it is one.
    pub fn number(&self) -> Option<i64> {
        match (self.kind, self.value) {
            ([0x26, _], [_, bytes @ ..]) => number_of(bytes),
            ([0x30 | 0x34 | 0x38 | 0x7f], bytes) => number_of(bytes),
            _ => None,
        }
    }

    /// The text that it is, if it is one that isn't null.
    pub fn text(&self, alloc: Global) -> Result<Option<Vec<u16>>, AllocError> {
        match (self.kind, self.value) {
            ([0xe7 | 0xef, 0xff, 0xff, ..], value) => match joined(alloc, value)? {
                Some(bytes) => Ok(Some(units_of(alloc, bytes.as_slice())?)),
                None => Ok(None),
            },
            ([0xe7 | 0xef, ..], [0xff, 0xff]) => Ok(None),
            ([0xe7 | 0xef, ..], [_, _, bytes @ ..]) => Ok(Some(units_of(alloc, bytes)?)),
            ([0x63, ..], [0xff, 0xff, 0xff, 0xff]) => Ok(None),
            ([0x63, ..], [_, _, _, _, bytes @ ..]) => Ok(Some(units_of(alloc, bytes)?)),
            _ => Ok(None),
        }
    }
}

/// The number that one, two, four or eight bytes spell, the lowest one first; one byte has no sign.
fn number_of(bytes: &[u8]) -> Option<i64> {
    match bytes {
        [a] => Some(i64::from(*a)),
        [a, b] => Some(i64::from(i16::from_le_bytes([*a, *b]))),
        [a, b, c, d] => Some(i64::from(i32::from_le_bytes([*a, *b, *c, *d]))),
        [a, b, c, d, e, f, g, h] => Some(i64::from_le_bytes([*a, *b, *c, *d, *e, *f, *g, *h])),
        _ => None,
    }
}

/// A value of this type.
fn as_it_is(alloc: Global, kind: &[u8], bytes: &[u8]) -> Result<Value, AllocError> {
    Ok(Value {
        kind: copy(alloc, kind)?,
        bytes: copy(alloc, bytes)?,
    })
}

fn copy(alloc: Global, bytes: &[u8]) -> Result<Vec<u8>, AllocError> {
    let mut copy = Vec::with_capacity(alloc, bytes.len())?;
    copy.extend_from_slice(bytes)?;
    Ok(copy)
}

/// A value in chunks, of one that came behind its length in four bytes: all bits set is no value.
fn long(alloc: Global, kind: &[u8], collation: &[u8], value: &[u8]) -> Result<Value, AllocError> {
    let mut typed = as_it_is(alloc, kind, &[])?;
    typed.kind.extend_from_slice(collation)?;
    match value {
        [0xff, 0xff, 0xff, 0xff] => typed.bytes.extend_from_slice(&[0xff; 8])?,
        [_, _, _, _, bytes @ ..] => put_chunked(&mut typed.bytes, bytes)?,
        _ => put_chunked(&mut typed.bytes, &[])?,
    }
    Ok(typed)
}

/// How many bytes stand in chunks, each behind its length in four bytes.
fn count_in(chunks: &[u8]) -> usize {
    let mut rest = chunks;
    let mut sum: usize = 0;
    for _ in 0..chunks.len() {
        let [a, b, c, d, behind @ ..] = rest else {
            break;
        };
        let count = u32::from_le_bytes([*a, *b, *c, *d]) as usize;
        let Some(behind) = behind.get(count..) else {
            break;
        };
        sum = sum.saturating_add(count);
        rest = behind;
    }
    sum
}

/// The bytes of a value in chunks (MS-TDS 2.2.5.2.3), or none of no value.
fn joined(alloc: Global, value: &[u8]) -> Result<Option<Vec<u8>>, AllocError> {
    let [a, b, c, d, e, f, g, h, rest @ ..] = value else {
        return Ok(None);
    };
    if u64::from_le_bytes([*a, *b, *c, *d, *e, *f, *g, *h]) == u64::MAX {
        return Ok(None);
    }
    let mut bytes = Vec::new(alloc);
    put_chunks(&mut bytes, rest)?;
    Ok(Some(bytes))
}

/// Appends what stands in chunks, each behind its length in four bytes.
fn put_chunks(bytes: &mut Vec<u8>, chunks: &[u8]) -> Result<(), AllocError> {
    let mut rest = chunks;
    for _ in 0..chunks.len() {
        let [a, b, c, d, behind @ ..] = rest else {
            break;
        };
        let count = u32::from_le_bytes([*a, *b, *c, *d]) as usize;
        let Some((chunk, behind)) = behind.split_at_checked(count) else {
            break;
        };
        bytes.extend_from_slice(chunk)?;
        rest = behind;
    }
    Ok(())
}
