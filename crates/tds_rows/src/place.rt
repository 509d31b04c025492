//! What a reader of rows answers.
ghost use Rattle.std.specs.Prelude.{◌≡◌};
ghost use Rattle.tds_rows.specs.Faults.{row_fault_number};

use tds_wire::Column;

/// Where a value's own bytes stand in a row's token, from the token's first byte on.
#[repr(C)]
#[derive(Clone, Copy)]
pub struct Place {
    pub start: u64,
    pub length: u64,
    /// 1 where the value is null, else 0.
    pub null: u8,
}

/// A column, as a COLMETADATA describes it.
#[repr(C)]
#[derive(Clone, Copy)]
pub struct RowColumn {
    /// The first byte of its name in the token, and how many there are, two for each unit.
    pub name_start: u64,
    pub name_length: u64,
    /// The most bytes that a value has; 65,535 in parts, where there is no such number.
    pub size: u32,
    /// The user's type.
    pub user_type: u32,
    pub flags: u16,
    /// The type's byte.
    pub kind: u8,
    pub precision: u8,
    pub scale: u8,
    /// Of a text; else zeros.
    pub collation: [u8; 5],
    /// How its values are spelled.
    pub shape: Column,
}

/// What a COLMETADATA describes.
#[derive(Clone, Copy, Debug, PartialEq, Eq)]
pub struct Described {
    /// How many columns; where it describes none, so that those that are known stay, nothing.
    pub count: Option<usize>,
    /// How many bytes the token has.
    pub length: usize,
}

/// Rows one behind the other whose places were found.
#[derive(Clone, Copy, Debug, PartialEq, Eq)]
pub struct RowsPlaced {
    pub rows: usize,
    /// How many bytes they have.
    pub taken: usize,
    /// What stands behind them, where bytes are left.
    pub stop: Option<RowFault>,
}

/// Why bytes are no such token.
#[derive(Clone, Copy, Debug, PartialEq, Eq)]
pub enum RowFault {
    /// The bytes end inside it.
    Short,
    /// The first byte is another token's.
    OtherToken,
    /// A row, and no columns are known.
    NoColumns,
    /// The type of a column is none of TDS 7.2 to 7.4.
    UnknownType,
    /// There is less room than columns.
    NoRoom,
}

impl RowFault {
    /// Its number.
    pub fn number(self) -> u8
        ensures { result ≡ row_fault_number self }
    {
        match self {
            RowFault::Short => 1,
            RowFault::OtherToken => 71,
            RowFault::NoColumns => 72,
            RowFault::UnknownType => 73,
            RowFault::NoRoom => 74,
        }
    }
}
