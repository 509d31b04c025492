//! Numbers, texts and bytes as a text spells them.

use crate::kinds::{DIGITS, Kind, Length};
use crate::numbers::Decimal;
use crate::scalar::{Scalar, Trouble, Typed};
use crate::text::{Piece, is_word, next_piece, word_of};
use std::alloc::{AllocError, Global};

/// The type of a text.
pub(crate) const TEXT: Kind = Kind::NVarChar(Length::Most(4000));

/// The type of bytes.
const BYTES: Kind = Kind::VarBinary(Length::Most(8000));

/// A value and what stands behind it.
pub(crate) type Read<'a> = (Typed, &'a [u16]);

/// The literal that a text begins with, if it is one.
pub(crate) fn literal_at(alloc: Global, text: &[u16]) -> Result<Read<'_>, Trouble> {
    let (first, behind) = next_piece(text);
    match first {
        Piece::Quoted(inside) => quoted(alloc, inside, behind),
        Piece::Word(word) if is_word(word, b"null") => {
            let (kind, scalar) = (Kind::Int, Scalar::Null);
            Ok((Typed { kind, scalar }, behind))
        }
        // N before a quoted text
        Piece::Word(word) if is_word(word, b"n") => match next_piece(behind) {
            (Piece::Quoted(inside), behind) => quoted(alloc, inside, behind),
            _ => Err(Trouble::Unknown),
        },
        Piece::Word([48, 88 | 120, digits @ ..]) => {
            let scalar = Scalar::Bytes(bytes_of(alloc, digits)?);
            let kind = BYTES;
            Ok((Typed { kind, scalar }, behind))
        }
        _ => {
            let (number, behind) = number_at(text).ok_or(Trouble::Unknown)?;
            Ok((typed(number), behind))
        }
    }
}

/// A text between quotes, in which each quote stands twice.
fn quoted<'a>(alloc: Global, inside: &[u16], behind: &'a [u16]) -> Result<Read<'a>, Trouble> {
    let scalar = Scalar::Text(unescaped(alloc, inside)?);
    Ok((Typed { kind: TEXT, scalar }, behind))
}

fn unescaped(alloc: Global, inside: &[u16]) -> Result<Vec<u16>, AllocError> {
    let mut units = Vec::new(alloc);
    let mut is_second = false;
    for unit in inside {
        if *unit == 39 && !is_second {
            is_second = true;
        } else {
            is_second = false;
            units.push(*unit)?;
        }
    }
    Ok(units)
}

/// A number with its type: INT where it is one, else a decimal number of as many digits as it has.
fn typed(number: Decimal) -> Typed {
    let kind = if number
        .within(i64::from(i32::MIN), i64::from(i32::MAX))
        .is_some()
    {
        Kind::Int
    } else {
        Kind::Decimal {
            precision: number.digits().min(DIGITS),
            scale: number.scale,
        }
    };
    let scalar = Scalar::Number(number);
    Typed { kind, scalar }
}

/// The number that a text begins with, and what stands behind it.
fn number_at(text: &[u16]) -> Option<(Decimal, &[u16])> {
    let (is_negative, text) = match next_piece(text) {
        (Piece::Sign(45), behind) => (true, behind),
        _ => (false, text),
    };
    let (whole, behind) = match next_piece(text) {
        (Piece::Word(whole), behind) => (whole, behind),
        (Piece::Sign(46), behind) => {
            let (fraction, behind) = word_at(behind);
            return Some((Decimal::of_digits(is_negative, &[], fraction)?, behind));
        }
        _ => return None,
    };
    let (fraction, behind) = match behind {
        [46, digits @ ..] => word_at(digits),
        _ => (&[] as &[u16], behind),
    };
    Some((Decimal::of_digits(is_negative, whole, fraction)?, behind))
}

/// The word that a text begins with at once, and what stands behind it.
fn word_at(text: &[u16]) -> (&[u16], &[u16]) {
    match word_of(text) {
        (Piece::Word(word), behind) => (word, behind),
        (_, behind) => (&[], behind),
    }
}

/// The bytes of hexadecimal digits; of an odd count the first is a byte of its own.
fn bytes_of(alloc: Global, digits: &[u16]) -> Result<Vec<u8>, Trouble> {
    let mut bytes = Vec::new(alloc);
    let mut high: u8 = 0;
    let mut is_low = digits.len() % 2 == 1;
    for unit in digits {
        let digit = digit_of(*unit).ok_or(Trouble::Unknown)?;
        if is_low {
            bytes.extend_from_slice(&[high.saturating_mul(16).saturating_add(digit)])?;
            high = 0;
        } else {
            high = digit;
        }
        is_low = !is_low;
    }
    Ok(bytes)
}

/// The value of a hexadecimal digit.
fn digit_of(unit: u16) -> Option<u8> {
    let digit = match unit {
        48..=57 => unit - 48,
        65..=70 => unit - 55,
        97..=102 => unit - 87,
        _ => return None,
    };
    u8::try_from(digit).ok()
}
