//! Types and values as columns and rows have them (MS-TDS 2.2.5.4 to 2.2.5.6).

use crate::kinds::{Kind, Length};
use crate::moment::Moment;
use crate::numbers::Decimal;
use crate::scalar::{Scalar, Typed};
use serve_answers::{COLLATION, Value};
use std::alloc::{AllocError, Global};

/// A value as a column has it.
pub(crate) fn encoded(alloc: Global, typed: &Typed) -> Result<Value, AllocError> {
    let mut kind = Vec::new(alloc);
    put_kind(&mut kind, typed.kind)?;
    let mut bytes = Vec::new(alloc);
    match &typed.scalar {
        Scalar::Null => put_null(&mut bytes, typed.kind)?,
        Scalar::Number(number) => put_number(&mut bytes, typed.kind, *number)?,
        Scalar::Moment(moment) => put_moment(&mut bytes, typed.kind, *moment)?,
        Scalar::Bytes(value) => put_counted(&mut bytes, typed.kind, value.as_slice())?,
        Scalar::Text(units) => {
            let text = spelled(alloc, typed.kind, units.as_slice())?;
            put_counted(&mut bytes, typed.kind, text.as_slice())?;
        }
    }
    Ok(Value { kind, bytes })
}

/// Appends a type.
fn put_kind(out: &mut Vec<u8>, kind: Kind) -> Result<(), AllocError> {
    match kind {
        Kind::Bit => out.extend_from_slice(&[0x68, 1]),
        Kind::TinyInt => out.extend_from_slice(&[0x26, 1]),
        Kind::SmallInt => out.extend_from_slice(&[0x26, 2]),
        Kind::Int => out.extend_from_slice(&[0x26, 4]),
        Kind::BigInt => out.extend_from_slice(&[0x26, 8]),
        Kind::Decimal { precision, scale } => {
            out.extend_from_slice(&[0x6a, width(precision), precision, scale])
        }
        Kind::NVarChar(length) => put_text_kind(out, 0xe7, doubled(length)),
        Kind::VarChar(length) => put_text_kind(out, 0xa7, length),
        Kind::VarBinary(length) => put_length(out, 0xa5, length),
        Kind::Xml => out.extend_from_slice(&[0xf1, 0]),
        Kind::Date => out.extend_from_slice(&[0x28]),
        Kind::DateTime => out.extend_from_slice(&[0x6f, 8]),
        Kind::DateTime2 => out.extend_from_slice(&[0x2a, 7]),
    }
}

/// How many bytes a decimal number of so many digits has, its sign counted.
fn width(precision: u8) -> u8 {
    if precision > 9 { 9 } else { 5 }
}

/// The same length in bytes, of units.
fn doubled(length: Length) -> Length {
    match length {
        Length::Most(count) => Length::Most(count.saturating_mul(2)),
        Length::Max => Length::Max,
    }
}

/// Appends a text's type.
fn put_text_kind(out: &mut Vec<u8>, kind: u8, length: Length) -> Result<(), AllocError> {
    put_length(out, kind, length)?;
    out.extend_from_slice(&COLLATION)
}

/// Appends the type of what has a length in two bytes; all bits set are `max`.
fn put_length(out: &mut Vec<u8>, kind: u8, length: Length) -> Result<(), AllocError> {
    let count = match length {
        Length::Most(count) => count,
        Length::Max => u16::MAX,
    };
    out.push(kind)?;
    out.extend_from_slice(&count.to_le_bytes())
}

/// How a type's values say how long they are.
enum Counted {
    /// In one byte.
    Byte,
    /// In two.
    Two,
    /// In eight, and then in chunks (MS-TDS 2.2.5.2.3).
    Chunks,
}

fn count_of(kind: Kind) -> Counted {
    match kind {
        Kind::NVarChar(Length::Max) | Kind::VarChar(Length::Max) => Counted::Chunks,
        Kind::VarBinary(Length::Max) | Kind::Xml => Counted::Chunks,
        Kind::NVarChar(_) | Kind::VarChar(_) | Kind::VarBinary(_) => Counted::Two,
        _ => Counted::Byte,
    }
}

fn put_null(out: &mut Vec<u8>, kind: Kind) -> Result<(), AllocError> {
    match count_of(kind) {
        Counted::Byte => out.extend_from_slice(&[0]),
        Counted::Two => out.extend_from_slice(&[0xff; 2]),
        Counted::Chunks => out.extend_from_slice(&[0xff; 8]),
    }
}

/// Appends bytes behind their count.
fn put_counted(out: &mut Vec<u8>, kind: Kind, bytes: &[u8]) -> Result<(), AllocError> {
    match count_of(kind) {
        Counted::Byte => out.extend_from_slice(&[0]),
        Counted::Two => {
            let bytes = &bytes[..bytes.len().min(8000)];
            out.extend_from_slice(&((bytes.len() % 65_536) as u16).to_le_bytes())?;
            out.extend_from_slice(bytes)
        }
        Counted::Chunks => put_chunked(out, bytes),
    }
}

/// Appends bytes in one chunk, if there are any, and the end of the chunks.
pub(crate) fn put_chunked(out: &mut Vec<u8>, bytes: &[u8]) -> Result<(), AllocError> {
    out.extend_from_slice(&(bytes.len() as u64).to_le_bytes())?;
    if let Ok(count) = u32::try_from(bytes.len()) {
        if count > 0 {
            out.extend_from_slice(&count.to_le_bytes())?;
            out.extend_from_slice(bytes)?;
        }
    }
    out.extend_from_slice(&[0; 4])
}

/// The bytes of a text: of VARCHAR one a unit, a question mark where that has none in Latin 1.
fn spelled(alloc: Global, kind: Kind, units: &[u16]) -> Result<Vec<u8>, AllocError> {
    let mut bytes = Vec::new(alloc);
    for unit in units {
        if matches!(kind, Kind::VarChar(_)) {
            bytes.push(u8::try_from(*unit).unwrap_or(63))?;
        } else {
            bytes.extend_from_slice(&unit.to_le_bytes())?;
        }
    }
    Ok(bytes)
}

/// Appends a number behind its length.
fn put_number(out: &mut Vec<u8>, kind: Kind, number: Decimal) -> Result<(), AllocError> {
    if let Kind::Decimal { precision, .. } = kind {
        return put_decimal(out, precision, number);
    }
    let value = number.within(i64::MIN, i64::MAX).unwrap_or(0);
    let [a, b, c, d, e, f, g, h] = value.to_le_bytes();
    match kind {
        Kind::Bit => out.extend_from_slice(&[1, u8::from(value != 0)]),
        Kind::TinyInt => out.extend_from_slice(&[1, a]),
        Kind::SmallInt => out.extend_from_slice(&[2, a, b]),
        Kind::Int => out.extend_from_slice(&[4, a, b, c, d]),
        Kind::BigInt => out.extend_from_slice(&[8, a, b, c, d, e, f, g, h]),
        _ => put_null(out, kind),
    }
}

/// Appends a decimal number: its length, its sign, 1 for one that isn't below 0, its parts.
fn put_decimal(out: &mut Vec<u8>, precision: u8, number: Decimal) -> Result<(), AllocError> {
    let count = width(precision);
    let [a, b, c, d, e, f, g, h] = number.parts.to_le_bytes();
    out.extend_from_slice(&[count, u8::from(!number.is_negative), a, b, c, d])?;
    if count > 5 {
        out.extend_from_slice(&[e, f, g, h])?;
    }
    Ok(())
}

/// Appends a moment behind its length.
fn put_moment(out: &mut Vec<u8>, kind: Kind, moment: Moment) -> Result<(), AllocError> {
    let [a, b, c, _] = moment.day.to_le_bytes();
    let [t, u, v, w, x, ..] = moment.time.to_le_bytes();
    match kind {
        Kind::Date => out.extend_from_slice(&[3, a, b, c]),
        Kind::DateTime2 => out.extend_from_slice(&[8, t, u, v, w, x, a, b, c]),
        Kind::DateTime => {
            let [a, b, c, d] = moment.days_since_1900().unwrap_or(0).to_le_bytes();
            let [t, u, v, w] = moment.ticks().to_le_bytes();
            out.extend_from_slice(&[8, a, b, c, d, t, u, v, w])
        }
        _ => put_null(out, kind),
    }
}
