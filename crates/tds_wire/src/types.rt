//! The types of columns (MS-TDS 2.2.5.4).
ghost use Rattle.std.specs.Prelude.{◌≡◌};
ghost use Rattle.tds_wire.specs.Types.{type_of};

use crate::shape::Shape;

/// What stands behind a column's type, and how its values are spelled.
#[derive(Clone, Copy)]
pub enum TypeInfo {
    /// So many bytes.
    Info(u8, Shape),
    /// The most bytes that a value has, in two bytes, and a collation or none.
    Limited(bool),
    /// XML.
    Xml,
    /// A type that a user has made.
    Made,
    Unknown,
}

/// The type that has this byte.
#[tactic(auto, unfolding(crate::specs::Types::type_of))]
pub fn type_of(byte: u32) -> TypeInfo
    ensures { result ≡ type_of byte }
{
    match byte {
        0x1F => TypeInfo::Info(0, Shape::Fixed(0)),
        0x30 | 0x32 => TypeInfo::Info(0, Shape::Fixed(1)),
        0x34 => TypeInfo::Info(0, Shape::Fixed(2)),
        0x38 | 0x3A | 0x3B | 0x7A => TypeInfo::Info(0, Shape::Fixed(4)),
        0x3C | 0x3D | 0x3E | 0x7F => TypeInfo::Info(0, Shape::Fixed(8)),
        0x24 | 0x26 | 0x68 | 0x6D | 0x6E | 0x6F | 0x29 | 0x2A | 0x2B | 0x25 | 0x27 | 0x2D | 0x2F =>
            { TypeInfo::Info(1, Shape::Byte) }
        0x37 | 0x3F | 0x6A | 0x6C => TypeInfo::Info(3, Shape::Byte),
        0x28 => TypeInfo::Info(0, Shape::Byte),
        0xA5 | 0xAD => TypeInfo::Limited(false),
        0xA7 | 0xAF | 0xE7 | 0xEF => TypeInfo::Limited(true),
        0x22 => TypeInfo::Info(4, Shape::Pointer),
        0x23 | 0x63 => TypeInfo::Info(9, Shape::Pointer),
        0x62 => TypeInfo::Info(4, Shape::Long),
        0xF1 => TypeInfo::Xml,
        0xF0 => TypeInfo::Made,
        _ => TypeInfo::Unknown,
    }
}
