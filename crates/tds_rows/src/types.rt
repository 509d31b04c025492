//! Types of columns, and what stands behind a type's byte (MS-TDS 2.2.5.4).

ghost use Rattle.std.specs.Prelude.{◌≡◌};
ghost use Rattle.tds_rows.specs.Kinds.{info_of};
ghost use Rattle.tds_rows.specs.Reading.{Gives};
ghost use Rattle.tds_wire.specs.Layout.{info_at, type_at};
ghost use Rattle.tds_wire.specs.Types.{type_of};
ghost use Rattle.tds_wire.specs.declared.types.TypeInfo.TheVariants as infos;

use crate::fields::{long_name, name, one, pass, two};
use crate::place::RowFault;
use tds_wire::Shape;

/// What stands behind a type's byte, and how values are spelled.
#[derive(Clone, Copy)]
pub(crate) enum Kind {
    /// So many bytes.
    Info(u8, Shape),
    /// The most bytes that a value has, in two bytes, and a collation or none.
    Limited(bool),
    /// XML.
    Xml,
    /// A type that a user has made.
    Made,
    Unknown,
}

/// The type that has this byte.
#[tactic(auto, unfolding(tds_wire::specs::Types::type_of))]
pub(crate) fn kind_of(byte: u8) -> Kind
    ensures { info_of result ≡ type_of byte }
{
    match byte {
        0x1F => Kind::Info(0, Shape::Fixed(0)),
        0x30 | 0x32 => Kind::Info(0, Shape::Fixed(1)),
        0x34 => Kind::Info(0, Shape::Fixed(2)),
        0x38 | 0x3A | 0x3B | 0x7A => Kind::Info(0, Shape::Fixed(4)),
        0x3C | 0x3D | 0x3E | 0x7F => Kind::Info(0, Shape::Fixed(8)),
        0x24 | 0x26 | 0x68 | 0x6D | 0x6E | 0x6F | 0x29 | 0x2A | 0x2B | 0x25 | 0x27 | 0x2D | 0x2F =>
            { Kind::Info(1, Shape::Byte) }
        0x37 | 0x3F | 0x6A | 0x6C => Kind::Info(3, Shape::Byte),
        0x28 => Kind::Info(0, Shape::Byte),
        0xA5 | 0xAD => Kind::Limited(false),
        0xA7 | 0xAF | 0xE7 | 0xEF => Kind::Limited(true),
        0x22 => Kind::Info(4, Shape::Pointer),
        0x23 | 0x63 => Kind::Info(9, Shape::Pointer),
        0x62 => Kind::Info(4, Shape::Long),
        0xF1 => Kind::Xml,
        0xF0 => Kind::Made,
        _ => Kind::Unknown,
    }
}

#[tactic(auto, unfolding(tds_wire::specs::Layout::info_at))]
fn plain(count: u8, shape: Shape, bytes: &[u8]) -> Result<(Shape, &[u8]), RowFault>
    ensures { Gives (λ x. x.0) (λ x. x.1.now) result
        (info_at (infos.Info count shape) bytes.now) }
{
    let rest = pass(bytes, usize::from(count))?;
    Ok((shape, rest))
}

#[tactic(auto, unfolding(tds_wire::specs::Layout::info_at))]
fn limited(collated: bool, bytes: &[u8]) -> Result<(Shape, &[u8]), RowFault>
    ensures { Gives (λ x. x.0) (λ x. x.1.now) result
        (info_at (infos.Limited collated) bytes.now) }
{
    let (most, rest) = two(bytes)?;
    let rest = pass(rest, if collated { 5 } else { 0 })?;
    let shape = if most == 65_535 {
        Shape::Parts
    } else {
        Shape::Short
    };
    Ok((shape, rest))
}

#[tactic(auto, unfolding(tds_wire::specs::Layout::info_at))]
fn xml(bytes: &[u8]) -> Result<(Shape, &[u8]), RowFault>
    ensures { Gives (λ x. x.0) (λ x. x.1.now) result (info_at infos.Xml bytes.now) }
{
    let (schema, rest) = one(bytes)?;
    if schema == 0 {
        return Ok((Shape::Parts, rest));
    }
    let rest = name(rest)?;
    let rest = name(rest)?;
    let rest = long_name(rest)?;
    Ok((Shape::Parts, rest))
}

#[tactic(auto, unfolding(tds_wire::specs::Layout::info_at))]
fn made(bytes: &[u8]) -> Result<(Shape, &[u8]), RowFault>
    ensures { Gives (λ x. x.0) (λ x. x.1.now) result (info_at infos.Made bytes.now) }
{
    let rest = pass(bytes, 2)?;
    let rest = name(rest)?;
    let rest = name(rest)?;
    let rest = name(rest)?;
    let rest = long_name(rest)?;
    Ok((Shape::Parts, rest))
}

#[tactic(auto, unfolding(tds_wire::specs::Layout::info_at))]
fn unknown(bytes: &[u8]) -> Result<(Shape, &[u8]), RowFault>
    ensures { Gives (λ x. x.0) (λ x. x.1.now) result (info_at infos.Unknown bytes.now) }
{
    let _none = bytes.len();
    Err(RowFault::UnknownType)
}

/// How values are spelled, and the bytes behind what stands behind the type's byte.
pub(crate) fn shape_at(kind: Kind, bytes: &[u8]) -> Result<(Shape, &[u8]), RowFault>
    ensures { Gives (λ x. x.0) (λ x. x.1.now) result (info_at (info_of kind) bytes.now) }
{
    match kind {
        Kind::Info(count, shape) => plain(count, shape, bytes),
        Kind::Limited(collated) => limited(collated, bytes),
        Kind::Xml => xml(bytes),
        Kind::Made => made(bytes),
        Kind::Unknown => unknown(bytes),
    }
}

/// The same behind any bytes.
pub(crate) fn type_at(bytes: &[u8]) -> Result<(Shape, &[u8]), RowFault>
    ensures { Gives (λ x. x.0) (λ x. x.1.now) result (type_at bytes.now) }
{
    let (byte, rest) = one(bytes)?;
    shape_at(kind_of(byte), rest)
}
