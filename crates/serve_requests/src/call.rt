//! Calls of procedures (MS-TDS 2.2.6.6), read with their parameters.

use serve_values::text::{Piece, is_word, next_piece, own, units_of};
use serve_values::{MOST_VALUE, Parameter, Reading};
use std::alloc::{AllocError, Global};

/// A procedure that is known here.
#[derive(Clone, Copy, Debug, PartialEq, Eq)]
pub enum Procedure {
    /// `sp_executesql`
    ExecuteText,
    /// `sp_prepare`
    Prepare,
    /// `sp_execute`
    Execute,
    /// `sp_prepexec`
    PrepareAndExecute,
    /// `sp_unprepare`
    Unprepare,
    /// `sp_reset_connection`
    Reset,
    /// `sp_getapplock`
    Lock,
    /// `sp_releaseapplock`
    Unlock,
    Other,
}

/// A call.
#[derive(Debug, Drop)]
pub struct Call<'a> {
    pub procedure: Procedure,
    pub name: Vec<u16>,
    pub parameters: Vec<Parameter<'a>>,
}

/// Why a message is no call that is read here.
#[derive(Clone, Copy, Debug, PartialEq, Eq)]
pub enum CallFault {
    /// It ends too early, or has something behind its parameters.
    Wrong,
    /// A parameter's type is not read here, as a table's.
    UnknownType,
    /// It has more than 256 parameters.
    ManyParameters,
    /// It is longer than what is kept of one, or a parameter is.
    Long,
}

/// The most parameters of a call.
const MOST: usize = 256;

/// Reads a call, of the bytes behind its headers.
pub fn read_call(alloc: Global, body: &[u8]) -> Result<Result<Call<'_>, CallFault>, AllocError> {
    let Some((procedure, name, rest)) = procedure_at(body) else {
        return Ok(Err(CallFault::Wrong));
    };
    let name = units_of(alloc, name)?;
    let procedure = match procedure {
        Some(procedure) => procedure,
        None => named(name.as_slice()),
    };
    // two bytes of options
    let [_, _, rest @ ..] = rest else {
        return Ok(Err(CallFault::Wrong));
    };
    let mut parameters = Vec::new(alloc);
    Ok(match read_parameters(alloc, rest, &mut parameters)? {
        Ok(()) => Ok(Call {
            procedure,
            name,
            parameters,
        }),
        Err(fault) => Err(fault),
    })
}

/// A procedure by its number, or the bytes of its name; and what stands behind.
fn procedure_at(body: &[u8]) -> Option<(Option<Procedure>, &[u8], &[u8])> {
    let [low, high, rest @ ..] = body else {
        return None;
    };
    let count = u16::from_le_bytes([*low, *high]);
    if count < 0xffff {
        let (name, rest) = rest.split_at_checked(2 * usize::from(count))?;
        return Some((None, name, rest));
    }
    let [low, high, rest @ ..] = rest else {
        return None;
    };
    let procedure = numbered(u16::from_le_bytes([*low, *high]));
    Some((Some(procedure), &[], rest))
}

/// A procedure by its number (MS-TDS 2.2.6.6).
fn numbered(number: u16) -> Procedure {
    match number {
        10 => Procedure::ExecuteText,
        11 => Procedure::Prepare,
        12 => Procedure::Execute,
        13 => Procedure::PrepareAndExecute,
        15 => Procedure::Unprepare,
        _ => Procedure::Other,
    }
}

/// A procedure by its name, before which a database and a schema may stand.
fn named(name: &[u16]) -> Procedure {
    let name = last_part(name);
    if is_word(name, b"sp_executesql") {
        Procedure::ExecuteText
    } else if is_word(name, b"sp_prepare") {
        Procedure::Prepare
    } else if is_word(name, b"sp_execute") {
        Procedure::Execute
    } else if is_word(name, b"sp_prepexec") {
        Procedure::PrepareAndExecute
    } else if is_word(name, b"sp_unprepare") {
        Procedure::Unprepare
    } else if is_word(name, b"sp_reset_connection") {
        Procedure::Reset
    } else if is_word(name, b"sp_getapplock") {
        Procedure::Lock
    } else if is_word(name, b"sp_releaseapplock") {
        Procedure::Unlock
    } else {
        Procedure::Other
    }
}

/// What of a name stands behind its last dot.
fn last_part(name: &[u16]) -> &[u16] {
    let mut last = name;
    let mut rest = name;
    for _ in 0..name.len() {
        let (piece, behind) = next_piece(rest);
        match piece {
            Piece::Word(part) | Piece::Name(part) => last = part,
            Piece::End => break,
            _ => {}
        }
        rest = behind;
    }
    last
}

/// Reads parameters to the end.
fn read_parameters<'a>(
    alloc: Global,
    body: &'a [u8],
    parameters: &mut Vec<Parameter<'a>>,
) -> Result<Result<(), CallFault>, AllocError> {
    let mut reading = Reading::new(alloc)?;
    let mut rest = body;
    for _ in 0..MOST {
        // a flag that another call follows; nothing may stand behind it here
        if matches!(rest, [] | [0x80] | [0xfe] | [0xff]) {
            return Ok(Ok(()));
        }
        let Some((name, after)) = name_at(rest) else {
            return Ok(Err(CallFault::Wrong));
        };
        let name = units_of(alloc, name)?;
        let Some((bytes, after)) = reading.typed(after) else {
            return Ok(Err(CallFault::UnknownType));
        };
        if bytes.count() > MOST_VALUE {
            return Ok(Err(CallFault::Long));
        }
        parameters.push(Parameter { name, bytes })?;
        rest = after;
    }
    Ok(Err(CallFault::ManyParameters))
}

/// A parameter's name, behind its count of units; and what stands behind it and its status.
fn name_at(bytes: &[u8]) -> Option<(&[u8], &[u8])> {
    let [count, rest @ ..] = bytes else {
        return None;
    };
    let (name, rest) = rest.split_at_checked(2 * usize::from(*count))?;
    match rest {
        [_, rest @ ..] => Some((name, rest)),
        [] => None,
    }
}

/// The name of a parameter in its declarations, as `@p1 int, @p2 nvarchar(10)`, at this place, from 0.
pub fn declared(alloc: Global, declarations: &[u16], place: usize) -> Result<Vec<u16>, AllocError> {
    own(alloc, declared_name(declarations, place))
}

/// The same, lent; nothing where there is none.
fn declared_name(declarations: &[u16], place: usize) -> &[u16] {
    let mut rest = declarations;
    let mut found: usize = 0;
    let mut is_first = true;
    for _ in 0..declarations.len() {
        let (piece, behind) = next_piece(rest);
        rest = behind;
        match piece {
            Piece::Word(name) if is_first => {
                if found == place {
                    return name;
                }
                found = found.saturating_add(1);
                is_first = false;
            }
            // what stands between the brackets of a type is passed, with its commas
            Piece::Sign(40) => rest = behind_bracket(behind),
            Piece::Sign(44) => is_first = true,
            Piece::End => break,
            _ => {}
        }
    }
    &[]
}

/// What stands behind the next closing bracket.
fn behind_bracket(text: &[u16]) -> &[u16] {
    let mut rest = text;
    for _ in 0..text.len() {
        match next_piece(rest) {
            (Piece::Sign(41) | Piece::End, behind) => return behind,
            (_, behind) => rest = behind,
        }
    }
    rest
}
