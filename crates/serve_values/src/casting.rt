//! What `cast` and `convert` make of a value.

use crate::kinds::{Kind, Length};
use crate::moment::Moment;
use crate::numbers::Decimal;
use crate::scalar::{Refusal, Scalar, Trouble};
use crate::text::{front, is_word, own, trimmed};
use std::alloc::{AllocError, Global};

/// A value as one of this type.
pub(crate) fn cast(alloc: Global, scalar: &Scalar, kind: Kind) -> Result<Scalar, Trouble> {
    if matches!(scalar, Scalar::Null) {
        return Ok(Scalar::Null);
    }
    match kind {
        Kind::Bit => Ok(Scalar::Number(bit(scalar)?)),
        Kind::TinyInt => whole(scalar, 0, 255),
        Kind::SmallInt => whole(scalar, -32_768, 32_767),
        Kind::Int => whole(scalar, i64::from(i32::MIN), i64::from(i32::MAX)),
        Kind::BigInt => whole(scalar, i64::MIN, i64::MAX),
        Kind::Decimal { precision, scale } => {
            let scaled = number_of(scalar)?.scaled(precision, scale);
            Ok(Scalar::Number(scaled.ok_or(Refusal::TooLarge)?))
        }
        Kind::NVarChar(length) | Kind::VarChar(length) => text(alloc, scalar, length),
        Kind::Xml => match scalar {
            Scalar::Text(units) => Ok(Scalar::Text(own(alloc, units.as_slice())?)),
            _ => Err(Trouble::Refused(Refusal::NotDone)),
        },
        Kind::VarBinary(length) => bytes(alloc, scalar, length),
        Kind::Date | Kind::DateTime | Kind::DateTime2 => Ok(Scalar::Moment(moment(scalar, kind)?)),
    }
}

/// The number that a value is.
fn number_of(scalar: &Scalar) -> Result<Decimal, Refusal> {
    match scalar {
        Scalar::Number(number) => Ok(*number),
        Scalar::Text(units) => Decimal::of_text(trimmed(units.as_slice())).ok_or(Refusal::Wrong),
        _ => Err(Refusal::NotDone),
    }
}

/// The whole number, from these to those, that a value is; of a number what stands before its point.
fn whole(scalar: &Scalar, least: i64, most: i64) -> Result<Scalar, Trouble> {
    let number = number_of(scalar)?;
    if matches!(scalar, Scalar::Text(_)) && number.scale > 0 {
        return Err(Trouble::Refused(Refusal::Wrong));
    }
    let found = number.truncated().within(least, most);
    let number = found.ok_or(Refusal::TooLarge)?;
    Ok(Scalar::Number(Decimal::signed(number)))
}

/// 1 for each number but 0, and for the text `true`.
fn bit(scalar: &Scalar) -> Result<Decimal, Refusal> {
    let is_set = match scalar {
        Scalar::Text(units) if is_word(units.as_slice(), b"true") => true,
        Scalar::Text(units) if is_word(units.as_slice(), b"false") => false,
        other => number_of(other)?.parts > 0,
    };
    Ok(Decimal::whole(u64::from(is_set)))
}

/// The text of a value, as much of it as has room; of a number and a time all must have.
fn text(alloc: Global, scalar: &Scalar, length: Length) -> Result<Scalar, Trouble> {
    let most = most_of(length);
    match scalar {
        Scalar::Text(units) => Ok(Scalar::Text(own(alloc, front(units.as_slice(), most))?)),
        Scalar::Number(number) => whole_text(number.text(alloc)?, most),
        Scalar::Moment(moment) => whole_text(moment.text(alloc)?, most),
        _ => Err(Trouble::Refused(Refusal::NotDone)),
    }
}

/// A text that must have room.
fn whole_text(units: Vec<u16>, most: usize) -> Result<Scalar, Trouble> {
    if units.len() > most {
        return Err(Trouble::Refused(Refusal::TooLarge));
    }
    Ok(Scalar::Text(units))
}

/// The bytes of a value, as much as has room: those of a text's units, the low one first.
fn bytes(alloc: Global, scalar: &Scalar, length: Length) -> Result<Scalar, Trouble> {
    let most = most_of(length);
    let mut bytes = Vec::new(alloc);
    match scalar {
        Scalar::Bytes(value) => {
            let count = value.len().min(most);
            bytes.extend_from_slice(&value[..count])?;
        }
        Scalar::Text(units) => put_low_first(&mut bytes, front(units.as_slice(), most))?,
        _ => return Err(Trouble::Refused(Refusal::NotDone)),
    }
    bytes.truncate(most);
    Ok(Scalar::Bytes(bytes))
}

/// Appends units, the low byte of each first.
fn put_low_first(bytes: &mut Vec<u8>, units: &[u16]) -> Result<(), AllocError> {
    for unit in units {
        bytes.extend_from_slice(&unit.to_le_bytes())?;
    }
    Ok(())
}

fn most_of(length: Length) -> usize {
    match length {
        Length::Most(count) => usize::from(count),
        Length::Max => usize::MAX,
    }
}

/// The moment that a value is: of DATE without its time, of DATETIME not before 1900.
fn moment(scalar: &Scalar, kind: Kind) -> Result<Moment, Refusal> {
    let moment = match scalar {
        Scalar::Moment(moment) => *moment,
        Scalar::Text(units) => { Moment::of_text(trimmed(units.as_slice())).ok_or(Refusal::Wrong)? }
        _ => return Err(Refusal::NotDone),
    };
    match kind {
        Kind::Date => Ok(Moment {
            day: moment.day,
            time: 0,
        }),
        Kind::DateTime if moment.days_since_1900().is_none() => Err(Refusal::TooLarge),
        _ => Ok(moment),
    }
}
