//! Rows in the shapes of a SQL Server's: columns of four types, an order, null values in a bitmap.

use crate::NoMemory;
use crate::changes::COLLATION;
use crate::fields::{put_u16, put_u32};

/// The text in each row that has one: `row`, as units.
const TEXT: [u8; 6] = [114, 0, 111, 0, 119, 0];

/// 1 January 2025, at midnight, as DATETIME2(7) has it: five bytes of time, three of days since the year 1.
const DATE: [u8; 8] = [0, 0, 0, 0, 0, 0xb3, 0x47, 0x0b];

/// Appends COLMETADATA (MS-TDS 2.2.7.4) of `n` INTN, `t` NVARCHAR(20), `d` DATETIME2(7) and `m`
/// DECIMAL(18, 2), and ORDER (2.2.7.16) by the first.
pub fn put_shaped_columns(out: &mut Vec<u8>) -> Result<(), NoMemory> {
    out.push(0x81)?;
    put_u16(out, 4)?;
    put_column(out, b'n', &[0x26, 4])?;
    let [a, b, c, d, e] = COLLATION;
    put_column(out, b't', &[0xe7, 40, 0, a, b, c, d, e])?;
    put_column(out, b'd', &[0x2a, 7])?;
    put_column(out, b'm', &[0x6a, 9, 18, 2])?;
    out.extend_from_slice(&[0xa9, 2, 0, 1, 0])
}

/// Appends a column of this type, which may be null.
fn put_column(out: &mut Vec<u8>, name: u8, kind: &[u8]) -> Result<(), NoMemory> {
    put_u32(out, 0)?;
    put_u16(out, 9)?;
    out.extend_from_slice(kind)?;
    out.extend_from_slice(&[1, name, 0])
}

/// Appends ROW (MS-TDS 2.2.7.17) of this number: itself, `row`, a date, and itself with two places.
pub fn put_shaped_row(out: &mut Vec<u8>, number: u32) -> Result<(), NoMemory> {
    out.extend_from_slice(&[0xd1, 4])?;
    put_u32(out, number)?;
    put_u16(out, 6)?;
    out.extend_from_slice(&TEXT)?;
    out.push(8)?;
    out.extend_from_slice(&DATE)?;
    // a sign, 1 for above 0, and eight bytes
    out.extend_from_slice(&[9, 1])?;
    out.extend_from_slice(&(u64::from(number) * 100).to_le_bytes())
}

/// Appends NBCROW (MS-TDS 2.2.7.15) of this number: itself and a date; the two others are null.
pub fn put_shaped_null_row(out: &mut Vec<u8>, number: u32) -> Result<(), NoMemory> {
    // the second and the fourth bit of the bitmap
    out.extend_from_slice(&[0xd2, 0x0a, 4])?;
    put_u32(out, number)?;
    out.push(8)?;
    out.extend_from_slice(&DATE)
}
