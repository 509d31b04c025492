//! What is due in a walk, as a plain value.

ghost use Rattle.std.specs.Prelude.{◌≡◌, Some};
ghost use Rattle.tds_walk.specs.Wire as plain;
ghost use Rattle.tds_wire.specs.declared.due.Due.TheVariants as due_;

use crate::fields::{FieldCode, field_code, field_from};
use tds_wire::{Due, Next, WireFault};

/// What is due in a walk: `struct tds_wire_due`.
#[repr(C)]
#[derive(Clone, Copy)]
pub struct TdsWireDue {
    /// Of a run of bytes, how many are left.
    pub left: u64,
    /// Of a number, what has come of it.
    pub value: u32,
    /// How many bytes are left behind the type of an ENVCHANGE.
    pub change: u16,
    /// 0 a token, 1 a number, 2 a run of bytes, 3 nothing: bytes were refused.
    pub due: u8,
    /// How many bytes of the number are to come, and which one it is.
    pub bytes: u8,
    pub field: u8,
    /// What comes behind the run.
    pub next: u8,
    /// Why bytes were refused.
    pub fault: u8,
}

#[tactic(auto, unfolding(crate::specs::Wire::fault_from))]
pub(crate) fn fault_from(number: u8) -> Option<WireFault>
    ensures { result ≡ plain.fault_from number }
{
    match number {
        1 => Some(WireFault::UnknownToken),
        2 => Some(WireFault::NoColumns),
        3 => Some(WireFault::UnknownType),
        4 => Some(WireFault::ManyColumns),
        _ => None,
    }
}

#[tactic(auto, unfolding(crate::specs::Wire::fault_from))]
fn fault_code(fault: WireFault) -> u8
    ensures { plain.fault_from result ≡ Some fault }
{
    match fault {
        WireFault::UnknownToken => 1,
        WireFault::NoColumns => 2,
        WireFault::UnknownType => 3,
        WireFault::ManyColumns => 4,
    }
}

/// What is behind a run of bytes, by its number and the field's.
#[tactic(auto, unfolding(crate::specs::Wire::next_from))]
fn next_from(number: u8, field: FieldCode) -> Option<Next>
    ensures { result ≡ plain.next_from number field }
{
    match number {
        0 => Some(Next::Ended),
        1 => Some(Next::Then(field_from(field)?)),
        2 => Some(Next::Described),
        3 => Some(Next::Parted),
        4 => Some(Next::Ciphered),
        5 => Some(Next::Named),
        6 => Some(Next::Valued),
        7 => Some(Next::KeyValued),
        8 => Some(Next::Labelled { types: false }),
        9 => Some(Next::Labelled { types: true }),
        10 => Some(Next::Classified),
        _ => None,
    }
}

/// A run's end that needs no more than its number.
fn blank() -> TdsWireDue
    ensures { result ≡ record {
      left = 0;
      value = 0;
      change = 0;
      due = 0;
      bytes = 0;
      field = 0;
      next = 0;
      fault = 0;
    } }
{
    TdsWireDue {
        left: 0,
        value: 0,
        change: 0,
        due: 0,
        bytes: 0,
        field: 0,
        next: 0,
        fault: 0,
    }
}

/// A run of so many bytes.
#[tactic(auto, unfolding(crate::specs::Wire::next_from, crate::specs::Wire::due_from))]
fn run_code(left: u64, next: Next) -> TdsWireDue
    ensures { plain.due_from result ≡ Some (due_.Run left next) }
{
    let run = TdsWireDue {
        left,
        due: 2,
        ..blank()
    };
    match next {
        Next::Ended => TdsWireDue { next: 0, ..run },
        Next::Then(field) => {
            let code = field_code(field);
            TdsWireDue {
                next: 1,
                field: code.code,
                change: code.change,
                ..run
            }
        }
        Next::Described => TdsWireDue { next: 2, ..run },
        Next::Parted => TdsWireDue { next: 3, ..run },
        Next::Ciphered => TdsWireDue { next: 4, ..run },
        Next::Named => TdsWireDue { next: 5, ..run },
        Next::Valued => TdsWireDue { next: 6, ..run },
        Next::KeyValued => TdsWireDue { next: 7, ..run },
        Next::Labelled { types: false } => TdsWireDue { next: 8, ..run },
        Next::Labelled { types: true } => TdsWireDue { next: 9, ..run },
        Next::Classified => TdsWireDue { next: 10, ..run },
    }
}

#[tactic(auto, unfolding(crate::specs::Wire::due_from))]
pub(crate) fn due_code(due: Due) -> TdsWireDue
    ensures { plain.due_from result ≡ Some due }
{
    match due {
        Due::Token => blank(),
        Due::Number { field, left, value } => {
            let code = field_code(field);
            TdsWireDue {
                value,
                change: code.change,
                due: 1,
                bytes: left,
                field: code.code,
                ..blank()
            }
        }
        Due::Run { left, next } => run_code(left, next),
        Due::Broken(fault) => TdsWireDue {
            due: 3,
            fault: fault_code(fault),
            ..blank()
        },
    }
}

#[tactic(auto, unfolding(crate::specs::Wire::due_from))]
pub(crate) fn due_of(held: &TdsWireDue) -> Option<Due>
    ensures { result ≡ plain.due_from held.now }
{
    let field = FieldCode {
        code: held.field,
        change: held.change,
    };
    match held.due {
        0 => Some(Due::Token),
        1 => Some(Due::Number {
            field: field_from(field)?,
            left: held.bytes,
            value: held.value,
        }),
        2 => Some(Due::Run {
            left: held.left,
            next: next_from(held.next, field)?,
        }),
        3 => Some(Due::Broken(fault_from(held.fault)?)),
        _ => None,
    }
}
