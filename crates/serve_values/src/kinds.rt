//! The types that values are converted to, by their names.

use crate::text::{Piece, is_among, is_word, next_piece, number_in};

/// How much a text or bytes may have.
#[derive(Clone, Copy, Debug)]
pub(crate) enum Length {
    /// So many units or bytes at most.
    Most(u16),
    /// `max`.
    Max,
}

/// A type.
#[derive(Clone, Copy, Debug)]
pub(crate) enum Kind {
    Bit,
    TinyInt,
    SmallInt,
    Int,
    BigInt,
    Decimal { precision: u8, scale: u8 },
    NVarChar(Length),
    VarChar(Length),
    VarBinary(Length),
    Xml,
    Date,
    DateTime,
    DateTime2,
}

/// What stands in brackets behind a type's name.
#[derive(Clone, Copy)]
enum Sizes {
    Nothing,
    Max,
    One(u32),
    Two(u32, u32),
}

/// How much a text or bytes may have where nothing is said, and at most.
const USUAL: Length = Length::Most(30);

const MOST_UNITS: u32 = 4000;

const MOST_BYTES: u32 = 8000;

/// The most digits of a decimal number.
pub(crate) const DIGITS: u8 = 18;

/// The type that a text begins with, and what stands behind it.
pub(crate) fn kind_at(text: &[u16]) -> Option<(Kind, &[u16])> {
    let (first, behind) = next_piece(text);
    let (Piece::Word(word) | Piece::Name(word)) = first else {
        return None;
    };
    let (sizes, behind) = sizes_at(behind)?;
    let kind = match sizes {
        Sizes::Nothing => plain_kind(word)?,
        Sizes::Max => kind_of_length(word, Length::Max)?,
        Sizes::One(count) => counted_kind(word, count)?,
        Sizes::Two(precision, scale) => decimal_kind(word, precision, scale)?,
    };
    Some((kind, behind))
}

/// What stands in brackets at the front of a text, and what stands behind them.
fn sizes_at(text: &[u16]) -> Option<(Sizes, &[u16])> {
    let (Piece::Sign(40), inside) = next_piece(text) else {
        return Some((Sizes::Nothing, text));
    };
    let (Piece::Word(word), behind) = next_piece(inside) else {
        return None;
    };
    if is_word(word, b"max") {
        return Some((Sizes::Max, behind_sign(behind, 41)?));
    }
    let first = number_in(word)?;
    let (Piece::Sign(44), second) = next_piece(behind) else {
        return Some((Sizes::One(first), behind_sign(behind, 41)?));
    };
    let (Piece::Word(word), behind) = next_piece(second) else {
        return None;
    };
    let sizes = Sizes::Two(first, number_in(word)?);
    Some((sizes, behind_sign(behind, 41)?))
}

/// What stands behind this sign, if a text begins with it.
pub(crate) fn behind_sign(text: &[u16], sign: u16) -> Option<&[u16]> {
    match next_piece(text) {
        (Piece::Sign(found), behind) if found == sign => Some(behind),
        _ => None,
    }
}

/// The type of this name, without brackets.
fn plain_kind(word: &[u16]) -> Option<Kind> {
    if is_among(word, &[b"int", b"integer"]) {
        Some(Kind::Int)
    } else if is_word(word, b"bigint") {
        Some(Kind::BigInt)
    } else if is_word(word, b"smallint") {
        Some(Kind::SmallInt)
    } else if is_word(word, b"tinyint") {
        Some(Kind::TinyInt)
    } else if is_word(word, b"bit") {
        Some(Kind::Bit)
    } else if is_among(word, &[b"decimal", b"numeric"]) {
        let precision = DIGITS;
        Some(Kind::Decimal {
            precision,
            scale: 0,
        })
    } else {
        other_kind(word)
    }
}

/// The same of what is no number.
fn other_kind(word: &[u16]) -> Option<Kind> {
    if is_word(word, b"xml") {
        Some(Kind::Xml)
    } else if is_word(word, b"date") {
        Some(Kind::Date)
    } else if is_word(word, b"datetime") {
        Some(Kind::DateTime)
    } else if is_word(word, b"datetime2") {
        Some(Kind::DateTime2)
    } else {
        kind_of_length(word, USUAL)
    }
}

/// The type of this name for texts or bytes of this length.
fn kind_of_length(word: &[u16], length: Length) -> Option<Kind> {
    if is_word(word, b"nvarchar") {
        Some(Kind::NVarChar(length))
    } else if is_word(word, b"varchar") {
        Some(Kind::VarChar(length))
    } else if is_word(word, b"varbinary") {
        Some(Kind::VarBinary(length))
    } else {
        None
    }
}

/// The type of this name with one number in its brackets.
fn counted_kind(word: &[u16], count: u32) -> Option<Kind> {
    if is_among(word, &[b"decimal", b"numeric"]) {
        return decimal_kind(word, count, 0);
    }
    if is_word(word, b"datetime2") {
        return if count == 7 {
            Some(Kind::DateTime2)
        } else {
            None
        };
    }
    let most = if is_word(word, b"nvarchar") {
        MOST_UNITS
    } else {
        MOST_BYTES
    };
    if count == 0 || count > most {
        return None;
    }
    kind_of_length(word, Length::Most(u16::try_from(count).ok()?))
}

/// A decimal number's type.
fn decimal_kind(word: &[u16], precision: u32, scale: u32) -> Option<Kind> {
    let precision = u8::try_from(precision).ok()?;
    let scale = u8::try_from(scale).ok()?;
    if !is_among(word, &[b"decimal", b"numeric"]) || scale > precision {
        return None;
    }
    if precision == 0 || precision > DIGITS {
        return None;
    }
    Some(Kind::Decimal { precision, scale })
}
