//! Values apart from their types, and why an item has none.

use crate::kinds::Kind;
use crate::moment::Moment;
use crate::numbers::Decimal;
use std::alloc::AllocError;

/// A value apart from its type.
#[derive(Debug, Drop)]
pub(crate) enum Scalar {
    Null,
    Number(Decimal),
    Text(Vec<u16>),
    Bytes(Vec<u8>),
    Moment(Moment),
}

/// A value with its type.
#[derive(Debug, Drop)]
pub(crate) struct Typed {
    pub kind: Kind,
    pub scalar: Scalar,
}

/// Why a value isn't converted.
#[derive(Clone, Copy, Debug, PartialEq, Eq)]
pub enum Refusal {
    /// A text is none of the type's values.
    Wrong,
    /// A number has no room in the type.
    TooLarge,
    /// No value of its type is converted to that one.
    NotDone,
}

impl Refusal {
    /// The number by which a SQL Server says it.
    pub fn number(self) -> u32 {
        match self {
            Refusal::Wrong => 245,
            Refusal::TooLarge => 8115,
            Refusal::NotDone => 529,
        }
    }

    /// The same in words.
    pub fn text<'a>(self) -> &'a [u8] {
        match self {
            Refusal::Wrong => b"Conversion failed: the text is no value of this type.",
            Refusal::TooLarge => b"Arithmetic overflow: the number has no room in this type.",
            Refusal::NotDone => {
                b"tdsserve is a test server and does not convert between these types; docs/SERVING.md has those that it does."
            }
        }
    }
}

/// Why an item has no value.
#[derive(Clone, Copy, Debug, PartialEq, Eq)]
pub(crate) enum Trouble {
    /// It isn't understood.
    Unknown,
    Refused(Refusal),
    Memory,
}

impl From<AllocError> for Trouble {
    fn from(_: AllocError) -> Trouble {
        Trouble::Memory
    }
}

impl From<Refusal> for Trouble {
    fn from(refusal: Refusal) -> Trouble {
        Trouble::Refused(refusal)
    }
}
