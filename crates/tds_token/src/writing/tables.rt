//! COLMETADATA and ROW. At want of memory a part may stand behind what was there.

ghost use Rattle.std.specs.Prelude.{◌≡◌, ◌≤◌, ◌++◌, ◌∷◌, OnOk, length};
ghost use Rattle.std.specs.Int.{w16, to_le_bytes};
ghost use Rattle.std.specs.List.{AllByRecursion, flat_map};
ghost use Rattle.tds_token.specs.Layout.{FitsColumn, IsInt, RangedColumn, column_bytes, int_bytes};
ghost use Rattle.tds_token.specs.Vectors.{IsKept};

use crate::columns::Column;
use crate::writing::fields::{put_int, put_short};
use std::alloc::AllocError;

fn put_column(out: &mut Vec<u8>, column: &Column) -> Result<(), AllocError>
    requires { FitsColumn column.now }
    ensures ok { OnOk result (out.new.items ≡ out.old.items ++ column_bytes column.now) }
    ensures ranged { OnOk result (RangedColumn column.now) }
    ensures kept { IsKept out.old.items out.new.items }
{
    let u = column.user_type.to_le_bytes();
    let f = column.flags.to_le_bytes();
    out.extend_from_slice(&[u[0], u[1], u[2], u[3], f[0], f[1], 0x38])?;
    put_short(out, &column.name)
}

/// A COLMETADATA (MS-TDS 2.2.7.4).
pub(crate) fn put_columns(out: &mut Vec<u8>, columns: &[Column]) -> Result<(), AllocError>
    requires most { length columns.now ≤ 16 }
    requires names { AllByRecursion FitsColumn columns.now }
    ensures ok { OnOk result (out.new.items ≡ out.old.items
        ++ 0x81 ∷ (to_le_bytes w16 (length columns.now) ++ flat_map column_bytes columns.now)) }
    ensures ranged { OnOk result (AllByRecursion RangedColumn columns.now) }
    ensures kept { IsKept out.old.items out.new.items }
{
    let n = (columns.len() as u16).to_le_bytes();
    out.extend_from_slice(&[0x81, n[0], n[1]])?;
    'columns: for column in columns {
        put_column(out, column)?;
    }
    Ok(())
}

/// A ROW (MS-TDS 2.2.7.20).
pub(crate) fn put_row(out: &mut Vec<u8>, values: &[i32]) -> Result<(), AllocError>
    ensures ok { OnOk result (out.new.items
        ≡ out.old.items ++ 0xD1 ∷ flat_map int_bytes values.now) }
    ensures ranged { OnOk result (AllByRecursion IsInt values.now) }
    ensures kept { IsKept out.old.items out.new.items }
{
    out.push(0xD1)?;
    'values: for value in values {
        put_int(out, *value)?;
    }
    Ok(())
}
