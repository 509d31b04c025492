//! Texts of UTF-16 units, and the pieces of a statement: words, quoted texts, names in brackets, signs.

ghost use Rattle.std.specs.Prelude.{◌≡◌, ◌≤◌, length, vec_len, IfOk};

use std::alloc::{AllocError, Global};

/// The units that these bytes spell, each unit's low byte first.
pub fn units_of(alloc: Global, bytes: &[u8]) -> Result<Vec<u16>, AllocError> {
    let mut units = Vec::with_capacity(alloc, bytes.len() / 2)?;
    for pair in bytes.chunks_exact(2) {
        if let [low, high] = pair {
            units.push(u16::from_le_bytes([*low, *high]))?;
        }
    }
    Ok(units)
}

/// The units of a text of ASCII.
pub fn units_in(alloc: Global, text: &[u8]) -> Result<Vec<u16>, AllocError>
    ensures { IfOk result (λ units. vec_len units ≡ length text.now) }
{
    let mut units = Vec::with_capacity(alloc, text.len())?;
    for byte in text {
        units.push(u16::from(*byte))?;
    }
    Ok(units)
}

/// The units again, in memory of their own.
pub fn own(alloc: Global, units: &[u16]) -> Result<Vec<u16>, AllocError>
    ensures { IfOk result (λ copy. vec_len copy ≡ length units.now) }
{
    let mut copy = Vec::with_capacity(alloc, units.len())?;
    copy.extend_from_slice(units)?;
    Ok(copy)
}

/// Whether a unit is a blank, a tab or an end of a line.
pub fn is_blank(unit: u16) -> bool {
    matches!(unit, 32 | 9 | 10 | 13)
}

/// A letter of ASCII as a small one; any other unit as it is.
fn lowered(unit: u16) -> u16 {
    match unit {
        65..=90 => unit + 32,
        _ => unit,
    }
}

/// Whether two texts are the same but for small and capital letters.
pub fn is_same(one: &[u16], other: &[u16]) -> bool {
    one.len() == other.len() && begins_with(one, other)
}

/// Whether a text begins with another, but for small and capital letters.
pub fn begins_with(text: &[u16], front: &[u16]) -> bool {
    if text.len() < front.len() {
        return false;
    }
    for (unit, wanted) in text.iter().zip(front.iter()) {
        if lowered(*unit) != lowered(*wanted) {
            return false;
        }
    }
    true
}

/// Whether a word is this one, in small letters of ASCII.
pub fn is_word(word: &[u16], wanted: &[u8]) -> bool {
    if word.len() != wanted.len() {
        return false;
    }
    for (unit, byte) in word.iter().zip(wanted.iter()) {
        if lowered(*unit) != u16::from(*byte) {
            return false;
        }
    }
    true
}

/// Whether a word is among these, in small letters of ASCII.
pub fn is_among(word: &[u16], words: &[&[u8]]) -> bool {
    for wanted in words {
        if is_word(word, wanted) {
            return true;
        }
    }
    false
}

/// As many units of a text as these at most, the first ones.
pub fn front(text: &[u16], most: usize) -> &[u16]
    ensures { length result.now ≤ most }
{
    &text[..most.min(text.len())]
}

/// A text without the blanks and the ends of lines at both its ends.
pub fn trimmed(text: &[u16]) -> &[u16]
    ensures { length result.now ≤ length text.now }
{
    let mut rest = text;
    for _ in 0..text.len() {
        match rest {
            [first, behind @ ..] if is_blank(*first) => rest = behind,
            _ => break,
        }
    }
    without_end(rest)
}

/// A text without the blanks and the ends of lines behind it.
fn without_end(text: &[u16]) -> &[u16]
    ensures { length result.now ≤ length text.now }
{
    let mut count = 0;
    for (place, unit) in text.iter().enumerate() {
        if !is_blank(*unit) {
            count = place.saturating_add(1);
        }
    }
    &text[..count.min(text.len())]
}

/// A piece of a statement.
#[derive(Clone, Copy, Debug)]
pub enum Piece<'a> {
    /// Letters, digits, `_`, `@`, `#`, `$`, and units beyond ASCII.
    Word(&'a [u16]),
    /// What stands between single quotes, in which a quote stands twice.
    Quoted(&'a [u16]),
    /// What stands between brackets or double quotes.
    Name(&'a [u16]),
    Sign(u16),
    /// Nothing is left.
    End,
}

/// Whether a unit may stand in a word.
fn is_of_word(unit: u16) -> bool {
    matches!(unit, 48..=57 | 65..=90 | 97..=122 | 95 | 64 | 35 | 36) || unit > 127
}

/// The first piece of a text, and what stands behind it. Blanks and comments before it are passed.
pub fn next_piece(text: &[u16]) -> (Piece<'_>, &[u16]) {
    let rest = behind_blanks(text);
    match rest {
        [] => (Piece::End, rest),
        // a single quote; a double one; a bracket
        [39, behind @ ..] => closed(behind, 39),
        [34, behind @ ..] => named(closed(behind, 34)),
        [91, behind @ ..] => named(closed(behind, 93)),
        [first, behind @ ..] => {
            if is_of_word(*first) {
                word_of(rest)
            } else {
                (Piece::Sign(*first), behind)
            }
        }
    }
}

/// The same piece as a name.
fn named<'a>(found: (Piece<'a>, &'a [u16])) -> (Piece<'a>, &'a [u16]) {
    match found {
        (Piece::Quoted(name), rest) => (Piece::Name(name), rest),
        other => other,
    }
}

/// The word that a text begins with, and what stands behind it.
pub(crate) fn word_of(text: &[u16]) -> (Piece<'_>, &[u16]) {
    let mut count: usize = 0;
    for unit in text {
        if !is_of_word(*unit) {
            break;
        }
        count = count.saturating_add(1);
    }
    let (word, rest) = text.split_at(count.min(text.len()));
    (Piece::Word(word), rest)
}

/// What stands before the unit that closes it, and what stands behind that; twice, the unit stands for
/// itself. Where nothing closes it, it goes to the end.
fn closed(text: &[u16], end: u16) -> (Piece<'_>, &[u16]) {
    let mut is_escaped = false;
    for (place, unit) in text.iter().enumerate() {
        if is_escaped {
            is_escaped = false;
        } else if *unit == end {
            if text.get(place.saturating_add(1)) == Some(&end) {
                is_escaped = true;
            } else {
                let (inside, rest) = text.split_at(place.min(text.len()));
                return (Piece::Quoted(inside), behind_first(rest));
            }
        }
    }
    (Piece::Quoted(text), &[])
}

/// What stands behind the first unit.
fn behind_first(text: &[u16]) -> &[u16] {
    match text {
        [_, behind @ ..] => behind,
        [] => text,
    }
}

/// What stands behind blanks and comments.
fn behind_blanks(text: &[u16]) -> &[u16] {
    let mut rest = text;
    for _ in 0..text.len() {
        rest = match rest {
            // two hyphens, to the line's end; a slash and a star, to a star and a slash
            [45, 45, behind @ ..] => behind_line(behind),
            [47, 42, behind @ ..] => behind_comment(behind),
            [first, behind @ ..] if is_blank(*first) => behind,
            _ => return rest,
        };
    }
    rest
}

/// What stands behind a line.
fn behind_line(text: &[u16]) -> &[u16] {
    let mut rest = text;
    for _ in 0..text.len() {
        match rest {
            [10 | 13, ..] | [] => break,
            [_, behind @ ..] => rest = behind,
        }
    }
    rest
}

/// What stands behind a star and a slash.
fn behind_comment(text: &[u16]) -> &[u16] {
    let mut rest = text;
    for _ in 0..text.len() {
        match rest {
            [42, 47, after @ ..] => return after,
            [_, behind @ ..] => rest = behind,
            [] => return rest,
        }
    }
    rest
}

/// A number of decimal digits alone, if it is below 2^32.
pub fn number_in(word: &[u16]) -> Option<u32> {
    if word.is_empty() {
        return None;
    }
    let mut number = 0u32;
    for unit in word {
        let digit = unit.checked_sub(48)?;
        if digit > 9 {
            return None;
        }
        number = number.checked_mul(10)?.checked_add(u32::from(digit))?;
    }
    Some(number)
}
