//! Rows of the batch language in the shapes of a SQL Server's.

use serve_answers::{put_shaped_columns, put_shaped_null_row, put_shaped_row};
use std::alloc::AllocError;

/// How many bytes COLMETADATA of the language's one column has.
const COLUMNS_LENGTH: usize = 13;

/// Whether the data of a step are rows of the language.
pub fn are_rows(data: &[u8]) -> bool {
    matches!(data, [0x81, ..])
}

/// Appends what the data of a step tell, rows with four columns in the place of one; each second row has
/// two null values.
pub fn put_shaped(out: &mut Vec<u8>, data: &[u8]) -> Result<(), AllocError> {
    put_shaped_columns(out)?;
    let mut rest = data.get(COLUMNS_LENGTH..).unwrap_or(&[]);
    let mut has_nulls = false;
    for _ in 0..data.len() {
        let [0xd1, a, b, c, d, behind @ ..] = rest else {
            break;
        };
        put_row(out, u32::from_le_bytes([*a, *b, *c, *d]), has_nulls)?;
        has_nulls = !has_nulls;
        rest = behind;
    }
    out.extend_from_slice(rest)
}

/// Appends a row of this number.
fn put_row(out: &mut Vec<u8>, number: u32, has_nulls: bool) -> Result<(), AllocError> {
    if has_nulls {
        put_shaped_null_row(out, number)
    } else {
        put_shaped_row(out, number)
    }
}
