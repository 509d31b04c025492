//! The items of a query that drivers send: literals, what a server tells of itself, parameters, and these
//! converted.

use crate::casting::cast;
use crate::encoding::encoded;
use crate::kinds::{Kind, behind_sign, kind_at};
use crate::literals::{Read, literal_at};
use crate::owns::{Own, own_value};
use crate::parameters::Parameter;
use crate::scalar::{Refusal, Trouble, Typed};
use crate::text::{Piece, is_same, is_word, next_piece, own};
use serve_answers::{Column, Value};
use std::alloc::{AllocError, Global};

/// The most columns of a query.
const MOST: usize = 64;

/// What the items of a query are read with.
#[derive(Clone, Copy, Debug)]
pub struct Query<'a, 'b> {
    pub alloc: Global,
    pub own_values: Own<'a>,
    pub parameters: &'a [Parameter<'b>],
    /// The most bytes of its values.
    pub most: usize,
}

/// What a query gives.
#[derive(Debug, Drop)]
pub enum Found {
    /// Columns with their values.
    Columns(Vec<Column>),
    /// An item isn't understood.
    Unknown,
    /// A value isn't converted.
    Refused(Refusal),
    /// It has too many bytes.
    TooMuch,
}

/// The columns of a query, each with its value.
pub fn columns_of(query: &Query<'_, '_>, items: &[u16]) -> Result<Found, AllocError> {
    let mut columns = Vec::new(query.alloc);
    match put_columns(query, items, &mut columns) {
        Ok(true) => Ok(Found::Columns(columns)),
        Ok(false) => Ok(Found::TooMuch),
        Err(Trouble::Unknown) => Ok(Found::Unknown),
        Err(Trouble::Refused(refusal)) => Ok(Found::Refused(refusal)),
        Err(Trouble::Memory) => Err(AllocError),
    }
}

/// Appends the columns; false where they have too many bytes.
fn put_columns(
    query: &Query<'_, '_>,
    items: &[u16],
    columns: &mut Vec<Column>,
) -> Result<bool, Trouble> {
    let mut rest = items;
    let mut count: usize = 0;
    for _ in 0..MOST {
        let (column, behind) = column_at(query, rest)?;
        count = count.saturating_add(column.value.bytes.len());
        if count > query.most {
            return Ok(false);
        }
        put_column(columns, column)?;
        match next_piece(behind) {
            (Piece::End, _) => return Ok(true),
            (Piece::Sign(44), behind) => rest = behind,
            _ => return Err(Trouble::Unknown),
        }
    }
    Err(Trouble::Unknown)
}

fn put_column(columns: &mut Vec<Column>, column: Column) -> Result<(), AllocError> {
    Ok(columns.push(column)?)
}

/// The first column of a text, and what stands behind it.
fn column_at<'a>(query: &Query<'_, '_>, text: &'a [u16]) -> Result<(Column, &'a [u16]), Trouble> {
    let (value, behind) = value_at(query, text)?;
    let (name, behind) = label_of(behind);
    let name = own(query.alloc, name)?;
    Ok((Column { name, value }, behind))
}

/// The name that stands behind an item, `as NAME` or `NAME`, and what stands behind it.
fn label_of(text: &[u16]) -> (&[u16], &[u16]) {
    let (first, behind) = next_piece(text);
    match first {
        Piece::Word(word) if is_word(word, b"as") => match next_piece(behind) {
            (Piece::Word(name) | Piece::Name(name) | Piece::Quoted(name), behind) => (name, behind),
            _ => (&[], text),
        },
        Piece::Word(name) | Piece::Name(name) => (name, behind),
        _ => (&[], text),
    }
}

/// The value of the first item of a text, and what stands behind it: a parameter's as it came.
fn value_at<'a>(query: &Query<'_, '_>, text: &'a [u16]) -> Result<(Value, &'a [u16]), Trouble> {
    if let Some((parameter, behind)) = parameter_at(query.parameters, text) {
        return Ok((parameter.value(query.alloc)?, behind));
    }
    let (typed, behind) = match function_at(text) {
        Some((Function::Cast, inside)) => cast_at(query, inside)?,
        Some((Function::Convert, inside)) => convert_at(query, inside)?,
        None => plain_at(query, text)?,
    };
    Ok((encoded(query.alloc, &typed)?, behind))
}

/// The parameter whose name a text begins with, and what stands behind that.
fn parameter_at<'a, 'b, 'c>(
    parameters: &'a [Parameter<'b>],
    text: &'c [u16],
) -> Option<(&'a Parameter<'b>, &'c [u16])> {
    let (Piece::Word(name), behind) = next_piece(text) else {
        return None;
    };
    for parameter in parameters {
        if is_same(parameter.name.as_slice(), name) {
            return Some((parameter, behind));
        }
    }
    None
}

/// What converts.
enum Function {
    Cast,
    Convert,
}

/// The function that a text begins with, and what stands behind its opening bracket.
fn function_at(text: &[u16]) -> Option<(Function, &[u16])> {
    let (Piece::Word(word), behind) = next_piece(text) else {
        return None;
    };
    let inside = behind_sign(behind, 40)?;
    if is_word(word, b"cast") {
        Some((Function::Cast, inside))
    } else if is_word(word, b"convert") {
        Some((Function::Convert, inside))
    } else {
        None
    }
}

/// `ITEM as TYPE)`, and what stands behind it.
fn cast_at<'a>(query: &Query<'_, '_>, inside: &'a [u16]) -> Result<Read<'a>, Trouble> {
    let (typed, behind) = source_at(query, inside)?;
    let behind = match next_piece(behind) {
        (Piece::Word(word), behind) if is_word(word, b"as") => behind,
        _ => return Err(Trouble::Unknown),
    };
    let (kind, behind) = kind_at(behind).ok_or(Trouble::Unknown)?;
    let behind = behind_sign(behind, 41).ok_or(Trouble::Unknown)?;
    Ok((converted(query, &typed, kind)?, behind))
}

/// `TYPE, ITEM)`, and what stands behind it.
fn convert_at<'a>(query: &Query<'_, '_>, inside: &'a [u16]) -> Result<Read<'a>, Trouble> {
    let (kind, behind) = kind_at(inside).ok_or(Trouble::Unknown)?;
    let behind = behind_sign(behind, 44).ok_or(Trouble::Unknown)?;
    let (typed, behind) = source_at(query, behind)?;
    let behind = behind_sign(behind, 41).ok_or(Trouble::Unknown)?;
    Ok((converted(query, &typed, kind)?, behind))
}

fn converted(query: &Query<'_, '_>, typed: &Typed, kind: Kind) -> Result<Typed, Trouble> {
    let scalar = cast(query.alloc, &typed.scalar, kind)?;
    Ok(Typed { kind, scalar })
}

/// What is converted: a parameter, or a plain item.
fn source_at<'a>(query: &Query<'_, '_>, text: &'a [u16]) -> Result<Read<'a>, Trouble> {
    match parameter_at(query.parameters, text) {
        Some((parameter, behind)) => Ok((parameter.bytes.typed(query.alloc)?, behind)),
        None => plain_at(query, text),
    }
}

/// A literal, or what a server tells of itself.
fn plain_at<'a>(query: &Query<'_, '_>, text: &'a [u16]) -> Result<Read<'a>, Trouble> {
    if let (Piece::Word(word), behind) = next_piece(text) {
        if let Some(typed) = own_value(query.alloc, word, query.own_values)? {
            return Ok((typed, behind_call(behind)));
        }
    }
    literal_at(query.alloc, text)
}

/// What stands behind the brackets of a call, if they stand there.
fn behind_call(text: &[u16]) -> &[u16] {
    let (Piece::Sign(40), mut rest) = next_piece(text) else {
        return text;
    };
    for _ in 0..text.len() {
        match next_piece(rest) {
            (Piece::Sign(41), behind) => return behind,
            (Piece::End, behind) => return behind,
            (_, behind) => rest = behind,
        }
    }
    rest
}
