//! The value that bytes begin with: where its own bytes stand, and how many it has with its prefix.

ghost use Rattle.std.specs.Prelude.{◌≡◌, ◌≤◌, ◌<◌, ◌+◌, length};
ghost use Rattle.tds_rows.specs.Finding.{ValueFound};
ghost use Rattle.tds_rows.specs.Places.{column_value_at, value_at};
ghost use Rattle.tds_wire.specs.Memory.{shape_of};
ghost use Rattle.tds_wire.specs.declared.shape.Shape.TheVariants as shapes;

use crate::numbers::{four_at, two_at};
use crate::parts::{is_absent, parts_length};
use crate::place::Place;
use tds_wire::Column;

/// What is found of a value that begins so many bytes behind its row's first one: where it stands, and how
/// many bytes it has in all. Nothing where the bytes end first.
pub(crate) type Value = Option<(Place, usize)>;

/// So many bytes.
#[inline(always)]
fn fixed_value(count: u8, at: usize, bytes: &[u8]) -> Value
    requires { at + length bytes.now < 18446744073709551616 }
    ensures { ValueFound (value_at at (shapes.Fixed count) bytes.now) bytes.now result }
{
    let length = usize::from(count);
    if bytes.len() < length {
        return None;
    }
    let place = Place {
        start: at as u64,
        length: length as u64,
        null: u8::from(count == 0),
    };
    Some((place, length))
}

/// Behind a count in one byte.
#[inline(always)]
fn byte_value(at: usize, bytes: &[u8]) -> Value
    requires { at + length bytes.now < 18446744073709551616 }
    ensures { ValueFound (value_at at shapes.Byte bytes.now) bytes.now result }
{
    if bytes.is_empty() {
        return None;
    }
    let count = usize::from(bytes[0]);
    if bytes.len() - 1 < count {
        return None;
    }
    let place = Place {
        start: (at + 1) as u64,
        length: count as u64,
        null: u8::from(count == 0),
    };
    Some((place, count + 1))
}

/// Behind a count in two bytes.
#[inline(always)]
fn short_value(at: usize, bytes: &[u8]) -> Value
    requires { at + length bytes.now < 18446744073709551616 }
    ensures { ValueFound (value_at at shapes.Short bytes.now) bytes.now result }
{
    if bytes.len() < 2 {
        return None;
    }
    let count = two_at(bytes, 0);
    let start = (at + 2) as u64;
    if count == 65_535 {
        return Some((
            Place {
                start,
                length: 0,
                null: 1,
            },
            2,
        ));
    }
    if bytes.len() - 2 < count {
        return None;
    }
    let place = Place {
        start,
        length: count as u64,
        null: 0,
    };
    Some((place, count + 2))
}

/// Behind a count in four bytes.
#[inline(always)]
fn long_value(at: usize, bytes: &[u8]) -> Value
    requires { at + length bytes.now < 18446744073709551616 }
    ensures { ValueFound (value_at at shapes.Long bytes.now) bytes.now result }
{
    if bytes.len() < 4 {
        return None;
    }
    let count = four_at(bytes, 0);
    let start = (at + 4) as u64;
    if count == 4_294_967_295 {
        return Some((
            Place {
                start,
                length: 0,
                null: 1,
            },
            4,
        ));
    }
    if bytes.len() - 4 < count {
        return None;
    }
    let place = Place {
        start,
        length: count as u64,
        null: u8::from(count == 0),
    };
    Some((place, count + 4))
}

/// Behind a text pointer, a timestamp and a count in four bytes.
#[inline(always)]
fn pointer_value(at: usize, bytes: &[u8]) -> Value
    requires { at + length bytes.now < 18446744073709551616 }
    ensures { ValueFound (value_at at shapes.Pointer bytes.now) bytes.now result }
{
    if bytes.is_empty() {
        return None;
    }
    let pointer = usize::from(bytes[0]);
    if pointer == 0 {
        let start = (at + 1) as u64;
        return Some((
            Place {
                start,
                length: 0,
                null: 1,
            },
            1,
        ));
    }
    if bytes.len() < pointer + 13 {
        return None;
    }
    let count = four_at(bytes, pointer + 9);
    let start = (at + pointer + 13) as u64;
    if count == 4_294_967_295 {
        return Some((
            Place {
                start,
                length: 0,
                null: 1,
            },
            pointer + 13,
        ));
    }
    if bytes.len() - (pointer + 13) < count {
        return None;
    }
    let place = Place {
        start,
        length: count as u64,
        null: 0,
    };
    Some((place, pointer + 13 + count))
}

/// In parts, behind a length of eight bytes.
#[inline(always)]
fn value_in_parts(at: usize, bytes: &[u8]) -> Value
    requires { at + length bytes.now < 18446744073709551616 }
    ensures { ValueFound (value_at at shapes.Parts bytes.now) bytes.now result }
{
    if bytes.len() < 8 {
        return None;
    }
    let start = (at + 8) as u64;
    if is_absent(bytes) {
        return Some((
            Place {
                start,
                length: 0,
                null: 1,
            },
            8,
        ));
    }
    let Some(length) = parts_length(&bytes[8..]) else {
        return None;
    };
    let place = Place {
        start,
        length: (length - 4) as u64,
        null: 0,
    };
    Some((place, length + 8))
}

/// Of a column.
#[inline(always)]
#[tactic(auto, unfolding(tds_wire::specs::Memory::shape_of))]
fn value_of(column: Column, at: usize, bytes: &[u8]) -> Value
    requires { at + length bytes.now < 18446744073709551616 }
    ensures { ValueFound (value_at at (shape_of column) bytes.now) bytes.now result }
{
    match column.form {
        0 => fixed_value(column.bytes, at, bytes),
        2 => short_value(at, bytes),
        3 => long_value(at, bytes),
        4 => pointer_value(at, bytes),
        5 => value_in_parts(at, bytes),
        _ => byte_value(at, bytes),
    }
}

/// Of a column, whose values may be left out by a null bitmap.
#[inline(always)]
pub(crate) fn column_value(skipped: bool, column: Column, at: usize, bytes: &[u8]) -> Value
    requires { at + length bytes.now < 18446744073709551616 }
    ensures { ValueFound (column_value_at skipped at (shape_of column) bytes.now) bytes.now result }
{
    if skipped {
        let place = Place {
            start: at as u64,
            length: 0,
            null: 1,
        };
        return Some((place, 0));
    }
    value_of(column, at, bytes)
}
