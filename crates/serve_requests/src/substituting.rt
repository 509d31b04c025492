//! Parameters in a text of the batch language: each stands for its value.

use crate::plan::LONGEST;
use serve_values::Parameter;
use serve_values::text::{Piece, front, is_same, next_piece, own, units_in};
use std::alloc::{AllocError, Global};

/// The text in which each name of a parameter is its value, a number or a text; where it is longer than a text
/// may be, a part that is too.
pub(crate) fn substituted(
    alloc: Global,
    text: &[u16],
    parameters: &[Parameter<'_>],
) -> Result<Vec<u16>, AllocError> {
    if parameters.is_empty() {
        return own(alloc, text);
    }
    let mut units = Vec::new(alloc);
    let mut rest = text;
    for _ in 0..text.len() {
        let [first, behind @ ..] = rest else {
            break;
        };
        if units.len() > LONGEST {
            break;
        }
        // an at sign
        rest = if *first == 64 {
            put_value(alloc, &mut units, rest, parameters)?
        } else {
            units.push(*first)?;
            behind
        };
    }
    Ok(units)
}

/// Appends the value of the parameter whose name a text begins with, or that name; and lends what stands
/// behind it.
fn put_value<'a>(
    alloc: Global,
    units: &mut Vec<u16>,
    text: &'a [u16],
    parameters: &[Parameter<'_>],
) -> Result<&'a [u16], AllocError> {
    let (Piece::Word(name), rest) = next_piece(text) else {
        return Ok(&[]);
    };
    for parameter in parameters {
        if is_same(parameter.name.as_slice(), name) {
            let value = spelled(alloc, parameter)?;
            units.extend_from_slice(front(value.as_slice(), LONGEST + 1))?;
            return Ok(rest);
        }
    }
    units.extend_from_slice(name)?;
    Ok(rest)
}

/// A parameter's value as a text spells it.
fn spelled(alloc: Global, parameter: &Parameter<'_>) -> Result<Vec<u16>, AllocError> {
    if let Some(number) = parameter.bytes.number() {
        let digits = format!(in alloc; "{number}")?;
        return units_in(alloc, digits.as_bytes());
    }
    Ok(match parameter.bytes.text(alloc)? {
        Some(text) => text,
        None => Vec::new(alloc),
    })
}
