//! The columns of a COLMETADATA (MS-TDS 2.2.7.4).

ghost use Rattle.std.specs.Prelude.{◌≡◌, ◌≢◌, ◌≤◌, ◌<◌, ◌+◌, ◌*◌, ◌-◌, ◌==◌, false, get_or, length, take, true};
ghost use Rattle.tds_rows.specs.Columns.{all_described, collation_of, described_column, described_at, five_from, head_at, is_scaled, listed_columns, precision_of, scale_of, size_of, name_units};
ghost use Rattle.tds_rows.specs.Finding.{Describes, written};
ghost use Rattle.tds_rows.specs.Kinds.{info_of};
ghost use Rattle.tds_rows.specs.Places.{four_from, two_from};
ghost use Rattle.tds_rows.specs.Reading.{Gives};
ghost use Rattle.tds_wire.specs.Layout.{is_ciphered};
ghost use Rattle.tds_wire.specs.Memory.{column_of};
ghost use Rattle.tds_wire.specs.Types.{type_of};
ghost use Rattle.tds_wire.specs.declared.shape.Shape.{Shape as AnyShape};
ghost use Rattle.tds_wire.specs.declared.types.TypeInfo.TheVariants as infos;

use crate::fields::{four, one, pass, two};
use crate::keys::{cipher_if, key_table, table};
use crate::place::{Described, RowColumn, RowFault};
use crate::types::{Kind, kind_of, shape_at};
use tds_wire::{Column, Features, Shape};

/// The byte at this place, or 0 where there is none.
fn byte_at(bytes: &[u8], at: usize) -> u8
    ensures { result ≡ get_or bytes.now at 0 }
{
    match bytes.get(at) {
        Some(byte) => *byte,
        None => 0,
    }
}

fn two_at(bytes: &[u8]) -> u32
    ensures { result ≡ two_from 0 bytes.now }
{
    u32::from(byte_at(bytes, 0)) + 256 * u32::from(byte_at(bytes, 1))
}

fn four_at(bytes: &[u8]) -> u32
    ensures { result ≡ four_from 0 bytes.now }
{
    u32::from(byte_at(bytes, 0))
        + 256 * u32::from(byte_at(bytes, 1))
        + 65_536 * u32::from(byte_at(bytes, 2))
        + 16_777_216 * u32::from(byte_at(bytes, 3))
}

fn five_at(bytes: &[u8], at: usize) -> [u8; 5]
    requires { at ≤ 4 }
    ensures { result ≡ five_from at bytes.now }
{
    [
        byte_at(bytes, at),
        byte_at(bytes, at + 1),
        byte_at(bytes, at + 2),
        byte_at(bytes, at + 3),
        byte_at(bytes, at + 4),
    ]
}

fn is_scaled(kind: u8) -> bool
    ensures { result ≡ is_scaled kind }
{
    kind == 0x29 || kind == 0x2A || kind == 0x2B
}

/// The most bytes that a value has that so many bytes of a type's description tell.
fn plain_size(kind: u8, count: u8, shape: Shape, bytes: &[u8]) -> u32
    ensures { result ≡ size_of kind (infos.Info count shape) bytes.now }
{
    match count {
        0 => match shape {
            Shape::Fixed(size) => u32::from(size),
            _ => 0,
        },
        1 | 3 => if is_scaled(kind) {
            0
        } else {
            u32::from(byte_at(bytes, 0))
        },
        _ => four_at(bytes),
    }
}

fn size_of(byte: u8, kind: Kind, bytes: &[u8]) -> u32
    ensures { result ≡ size_of byte (info_of kind) bytes.now }
{
    match kind {
        Kind::Info(count, shape) => plain_size(byte, count, shape, bytes),
        Kind::Limited(_) => two_at(bytes),
        Kind::Xml => 0,
        Kind::Made => two_at(bytes),
        Kind::Unknown => 0,
    }
}

fn precision_of(kind: Kind, bytes: &[u8]) -> u8
    ensures { result ≡ precision_of (info_of kind) bytes.now }
{
    match kind {
        Kind::Info(count, _) => if count == 3 { byte_at(bytes, 1) } else { 0 },
        _ => 0,
    }
}

fn plain_scale(byte: u8, count: u8, bytes: &[u8]) -> u8
    ensures { (s : AnyShape) → result ≡ scale_of byte (infos.Info count s) bytes.now }
{
    if count == 3 {
        byte_at(bytes, 2)
    } else if is_scaled(byte) {
        byte_at(bytes, 0)
    } else {
        0
    }
}

fn scale_of(byte: u8, kind: Kind, bytes: &[u8]) -> u8
    ensures { result ≡ scale_of byte (info_of kind) bytes.now }
{
    match kind {
        Kind::Info(count, _) => plain_scale(byte, count, bytes),
        _ => 0,
    }
}

fn collation_of(kind: Kind, bytes: &[u8]) -> [u8; 5]
    ensures { result ≡ collation_of (info_of kind) bytes.now }
{
    match kind {
        Kind::Info(9, _) => five_at(bytes, 4),
        Kind::Limited(true) => five_at(bytes, 2),
        _ => [0; 5],
    }
}

fn column_of(shape: Shape) -> Column
    ensures { result ≡ column_of shape }
{
    match shape {
        Shape::Fixed(bytes) => Column { form: 0, bytes },
        Shape::Byte => Column { form: 1, bytes: 0 },
        Shape::Short => Column { form: 2, bytes: 0 },
        Shape::Long => Column { form: 3, bytes: 0 },
        Shape::Pointer => Column { form: 4, bytes: 0 },
        Shape::Parts => Column { form: 5, bytes: 0 },
    }
}

/// A column of this type: its name stands here, and has so many units.
fn column(head: (u32, u16, u8), info: &[u8], shape: Shape, start: u64, units: u8) -> RowColumn
    ensures { result ≡ described_column head.0 head.1 head.2 info.now shape start units }
{
    let (user_type, flags, byte) = head;
    let kind = kind_of(byte);
    RowColumn {
        name_start: start,
        name_length: 2 * u64::from(units),
        size: size_of(byte, kind, info),
        user_type,
        flags,
        kind: byte,
        precision: precision_of(kind, info),
        scale: scale_of(byte, kind, info),
        collation: collation_of(kind, info),
        shape: column_of(shape),
    }
}

/// How many units a column's name has, behind its type.
#[tactic(auto, unfolding(crate::specs::Columns::name_units))]
fn name_units(shape: Shape, ciphered: bool, bytes: &[u8]) -> Result<(u8, &[u8]), RowFault>
    ensures { Gives (λ x. x.0) (λ x. x.1.now) result (name_units shape ciphered bytes.now) }
{
    let rest = table(shape, bytes)?;
    let rest = cipher_if(ciphered, rest)?;
    one(rest)
}

/// The user's type, the flags and the type's byte.
fn head_at(bytes: &[u8]) -> Result<((u32, u16, u8), &[u8]), RowFault>
    ensures { Gives (λ x. x.0) (λ x. x.1.now) result (head_at bytes.now) }
{
    let (user_type, rest) = four(bytes)?;
    let (flags, rest) = two(rest)?;
    let (byte, rest) = one(rest)?;
    Ok(((user_type, flags, byte), rest))
}

/// Whether a column of these flags has crypto metadata.
fn is_ciphered(features: Features, flags: u16) -> bool
    ensures { result ≡ is_ciphered features flags }
{
    features.encryption && flags / 2048 % 2 == 1
}

/// A column of a token of so many bytes.
#[tactic(auto, unfolding(crate::specs::Columns::described_at))]
fn described_at(
    features: Features,
    size: usize,
    bytes: &[u8],
) -> Result<(RowColumn, &[u8]), RowFault>
    ensures { Gives (λ x. x.0) (λ x. x.1.now) result (described_at features size bytes.now) }
{
    let (head, info) = head_at(bytes)?;
    let (shape, rest) = shape_at(kind_of(head.2), info)?;
    let (units, rest) = name_units(shape, is_ciphered(features, head.1), rest)?;
    let start = size.saturating_sub(rest.len()) as u64;
    let rest = pass(rest, 2 * usize::from(units))?;
    Ok((column(head, info, shape, start, units), rest))
}

/// So many columns, to the front of `columns`.
fn all_described<'a>(
    features: Features,
    size: usize,
    count: usize,
    bytes: &'a [u8],
    columns: &mut [RowColumn],
) -> Result<&'a [u8], RowFault>
    requires { count ≤ length columns.old }
    ensures exact { Gives (λ _. take count columns.new) (λ rest. rest.now) result
        (all_described features size count bytes.now) }
    ensures room { length columns.new ≡ length columns.old }
{
    let mut rest = bytes;
    let mut done = 0usize;
    'columns: while done < count {
        match described_at(features, size, rest) {
            Ok((column, more)) => {
                columns[done] = column;
                rest = more;
            }
            Err(fault) => return Err(fault),
        }
        done += 1;
    }
    Ok(rest)
}

/// What a COLMETADATA describes behind its count, to the front of `columns`.
#[tactic(auto, unfolding(crate::specs::Columns::listed_columns))]
fn listed_columns<'a>(
    features: Features,
    size: usize,
    count: u16,
    bytes: &'a [u8],
    columns: &mut [RowColumn],
) -> Result<(Option<usize>, &'a [u8]), RowFault>
    requires { count ≢ 65535 → count ≤ length columns.old }
    ensures exact { Gives (λ x. written x.0 columns.new) (λ x. x.1.now) result
        (listed_columns features size count bytes.now) }
    ensures room { length columns.new ≡ length columns.old }
{
    if count == 65_535 {
        return Ok((None, bytes));
    }
    let rest = key_table(features.encryption, bytes)?;
    let rest = all_described(features, size, usize::from(count), rest, columns)?;
    Ok((Some(usize::from(count)), rest))
}

/// Whether there is no room for so many columns, where they are described.
fn lacks_room(count: u16, room: usize) -> bool
    ensures lacks { result ≡ true → (room < count) × (count ≢ 65535) }
    ensures has { result ≡ false → count ≢ 65535 → count ≤ room }
{
    count != 65_535 && room < usize::from(count)
}

/// The columns that the COLMETADATA describes which bytes begin with, to the front of `columns`, and how
/// many bytes the token has. `features` is what the login acknowledged. It takes no memory.
///
/// # Errors
///
/// Where the bytes are no such token, what is wrong; then any columns may be written.
pub fn columns_of(
    features: Features,
    bytes: &[u8],
    columns: &mut [RowColumn],
) -> Result<Described, RowFault>
    ensures exact { Describes result features bytes.now columns.new }
    ensures room { length columns.new ≡ length columns.old }
{
    let (byte, rest) = match one(bytes) {
        Ok(found) => found,
        Err(fault) => return Err(fault),
    };
    if byte != 0x81 {
        return Err(RowFault::OtherToken);
    }
    let (count, rest) = match two(rest) {
        Ok(found) => found,
        Err(fault) => return Err(fault),
    };
    if lacks_room(count, columns.len()) {
        return Err(RowFault::NoRoom);
    }
    match listed_columns(features, bytes.len(), count, rest, columns) {
        Ok((count, rest)) => Ok(Described {
            count,
            length: bytes.len().saturating_sub(rest.len()),
        }),
        Err(fault) => Err(fault),
    }
}
