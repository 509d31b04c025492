//! Columns (MS-TDS 2.2.7.4) and a row of them (2.2.7.17).

use crate::NoMemory;
use crate::fields::{put_short_text, put_u16, put_u32};

/// A value: its type (MS-TDS 2.2.5.4), and what a row has of it.
#[derive(Debug, Drop)]
pub struct Value {
    pub kind: Vec<u8>,
    pub bytes: Vec<u8>,
}

/// A column with its value in the one row that it has.
#[derive(Debug, Drop)]
pub struct Column {
    pub name: Vec<u16>,
    pub value: Value,
}

/// Appends COLMETADATA.
pub fn put_columns(out: &mut Vec<u8>, columns: &[Column]) -> Result<(), NoMemory> {
    out.push(0x81)?;
    put_u16(out, (columns.len() % 65_536) as u16)?;
    for column in columns {
        // no user type; it may be null
        put_u32(out, 0)?;
        put_u16(out, 1)?;
        out.extend_from_slice(column.value.kind.as_slice())?;
        put_short_text(out, column.name.as_slice())?;
    }
    Ok(())
}

/// Appends ROW.
pub fn put_row(out: &mut Vec<u8>, columns: &[Column]) -> Result<(), NoMemory> {
    out.push(0xd1)?;
    for column in columns {
        out.extend_from_slice(column.value.bytes.as_slice())?;
    }
    Ok(())
}
