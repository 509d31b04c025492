//! A walk as a plain value.

ghost use Rattle.std.specs.Prelude.{◌≡◌, Some};
ghost use Rattle.tds_walk.specs.Wire as plain;
ghost use Rattle.tds_wire.specs.Memory.{shape_of};

use crate::due::{TdsWireDue, due_code, due_of, fault_from};
use tds_wire::{At, Column, Cursor, Features, Head, Inside, LentWalk, Refusal, Shape, WireFault};

/// What a value or a type belongs to: `struct tds_wire_inside`.
#[repr(C)]
#[derive(Clone, Copy)]
pub struct TdsWireInside {
    pub column: u16,
    /// 0 columns, 1 a parameter, 2 a row, 3 a row with nulls, 4 and 5 what is encrypted.
    pub inside: u8,
    pub base: Column,
}

/// A refusal, or none: `struct tds_wire_refusal`.
#[repr(C)]
#[derive(Clone, Copy)]
pub struct TdsWireRefusal {
    pub at: u64,
    /// 0 none.
    pub fault: u8,
    pub byte: u8,
}

/// A walk: `struct tds_wire`.
#[repr(C)]
#[derive(Clone, Copy)]
pub struct TdsWire {
    pub due: TdsWireDue,
    pub refused: TdsWireRefusal,
    /// The first byte of the token that it is in, and how many bytes of that have been passed.
    pub start: u64,
    pub passed: u64,
    /// For how many columns there is room.
    pub most: u16,
    pub entries: u16,
    pub inside: TdsWireInside,
    pub shape: Column,
    pub kind: u8,
    pub parts: u8,
    pub ciphered: u8,
    pub encryption: u8,
    pub ranks: u8,
    /// The first bytes of that token, and how many of them were kept.
    pub head: [u8; 24],
    pub head_count: u8,
}

/// The bytes of a column's shape.
#[tactic(auto, unfolding(tds_wire::specs::Memory::shape_of))]
fn shape_code(shape: Shape) -> Column
    ensures { shape_of result ≡ shape }
{
    match shape {
        Shape::Fixed(bytes) => Column { form: 0, bytes },
        Shape::Byte => Column { form: 1, bytes: 0 },
        Shape::Short => Column { form: 2, bytes: 0 },
        Shape::Long => Column { form: 3, bytes: 0 },
        Shape::Pointer => Column { form: 4, bytes: 0 },
        Shape::Parts => Column { form: 5, bytes: 0 },
    }
}

/// The shape that a column's bytes say.
#[tactic(auto, unfolding(tds_wire::specs::Memory::shape_of))]
fn shape_from(column: Column) -> Shape
    ensures { result ≡ shape_of column }
{
    match column.form {
        0 => Shape::Fixed(column.bytes),
        2 => Shape::Short,
        3 => Shape::Long,
        4 => Shape::Pointer,
        5 => Shape::Parts,
        _ => Shape::Byte,
    }
}

pub(crate) fn placed(inside: u8, column: u16) -> TdsWireInside
    ensures { result ≡ record {
      column = column;
      inside = inside;
      base = record { form = 0; bytes = 0 };
    } }
{
    TdsWireInside {
        column,
        inside,
        base: Column { form: 0, bytes: 0 },
    }
}

#[tactic(auto, unfolding(crate::specs::Wire::inside_from))]
fn inside_code(inside: Inside) -> TdsWireInside
    ensures { plain.inside_from result ≡ Some inside }
{
    match inside {
        Inside::Columns(left) => placed(0, left),
        Inside::Parameter => placed(1, 0),
        Inside::Row(column) => placed(2, column),
        Inside::NullRow(column) => placed(3, column),
        Inside::ColumnBase(left) => placed(4, left),
        Inside::ParameterBase(shape) => TdsWireInside {
            base: shape_code(shape),
            ..placed(5, 0)
        },
    }
}

#[tactic(auto, unfolding(crate::specs::Wire::inside_from))]
fn inside_of(held: &TdsWireInside) -> Option<Inside>
    ensures { result ≡ plain.inside_from held.now }
{
    match held.inside {
        0 => Some(Inside::Columns(held.column)),
        1 => Some(Inside::Parameter),
        2 => Some(Inside::Row(held.column)),
        3 => Some(Inside::NullRow(held.column)),
        4 => Some(Inside::ColumnBase(held.column)),
        5 => Some(Inside::ParameterBase(shape_from(held.base))),
        _ => None,
    }
}

#[tactic(auto, unfolding(crate::specs::Wire::refusal_from, crate::specs::Wire::fault_from))]
fn refusal_code(refused: Option<Refusal>) -> TdsWireRefusal
    ensures { plain.refusal_from result ≡ Some refused }
{
    match refused {
        None => TdsWireRefusal {
            at: 0,
            fault: 0,
            byte: 0,
        },
        Some(Refusal { fault, byte, at }) => TdsWireRefusal {
            at,
            fault: match fault {
                WireFault::UnknownToken => 1,
                WireFault::NoColumns => 2,
                WireFault::UnknownType => 3,
                WireFault::ManyColumns => 4,
            },
            byte,
        },
    }
}

#[tactic(auto, unfolding(crate::specs::Wire::refusal_from))]
fn refusal_of(held: &TdsWireRefusal) -> Option<Option<Refusal>>
    ensures { result ≡ plain.refusal_from held.now }
{
    if held.fault == 0 {
        return Some(None);
    }
    let fault = fault_from(held.fault)?;
    Some(Some(Refusal {
        fault,
        byte: held.byte,
        at: held.at,
    }))
}

fn truth(number: u8) -> bool
    ensures { result ≡ plain.truth number }
{
    number != 0
}

fn number(truth: bool) -> u8
    ensures { plain.truth result ≡ truth }
{
    if truth { 1 } else { 0 }
}

impl TdsWire {
    /// The walk as a plain value.
    #[tactic(auto, unfolding(crate::specs::Wire::walk_from))]
    pub fn of(walk: &LentWalk) -> TdsWire
        ensures { plain.walk_from result ≡ Some walk.now }
    {
        let at = walk.cursor.at;
        TdsWire {
            due: due_code(at.due),
            refused: refusal_code(walk.refused),
            start: walk.start,
            passed: walk.passed,
            most: walk.cursor.most,
            entries: at.left,
            inside: inside_code(at.inside),
            shape: shape_code(at.shape),
            kind: at.kind,
            parts: at.parts,
            ciphered: number(at.ciphered),
            encryption: number(walk.cursor.features.encryption),
            ranks: number(walk.cursor.features.ranks),
            head: walk.head.bytes,
            head_count: walk.head.count,
        }
    }

    /// The walk that a plain value is, where it is one.
    #[tactic(auto, unfolding(crate::specs::Wire::walk_from))]
    pub fn walk(&self) -> Option<LentWalk>
        ensures { result ≡ plain.walk_from self.now }
    {
        let due = due_of(&self.due)?;
        let inside = inside_of(&self.inside)?;
        let refused = refusal_of(&self.refused)?;
        let at = At {
            due,
            kind: self.kind,
            inside,
            shape: shape_from(self.shape),
            ciphered: truth(self.ciphered),
            left: self.entries,
            parts: self.parts,
        };
        let features = Features {
            encryption: truth(self.encryption),
            ranks: truth(self.ranks),
        };
        Some(LentWalk {
            cursor: Cursor {
                at,
                most: self.most,
                features,
            },
            head: Head {
                bytes: self.head,
                count: self.head_count,
            },
            start: self.start,
            passed: self.passed,
            refused,
        })
    }
}
