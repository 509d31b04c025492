//! Single fields.

ghost use Rattle.std.specs.Prelude.{◌≡◌, ◌<◌, ◌++◌, OnOk, OnErr, length};
ghost use Rattle.tds_token.specs.Layout.{AreUnits, IsInt, int_bytes, long_text, short_text};
ghost use Rattle.tds_token.specs.Texts.{units_bytes};
ghost use Rattle.tds_token.specs.Vectors.{IsKept};

use crate::text::Text;
use std::alloc::AllocError;

/// A signed number of four bytes.
pub(crate) fn put_int(out: &mut Vec<u8>, value: i32) -> Result<(), AllocError>
    ensures ok { OnOk result (out.new.items ≡ out.old.items ++ int_bytes value) }
    ensures ranged { IsInt value }
    ensures err { OnErr result (out.new.items ≡ out.old.items) }
{
    out.extend_from_slice(&value.to_le_bytes())
}

/// The units of a text. At want of memory some may stand behind what was there.
fn put_units(out: &mut Vec<u8>, text: &Text) -> Result<(), AllocError>
    ensures ok { OnOk result (out.new.items ≡ out.old.items ++ units_bytes text.now) }
    ensures ranged { OnOk result (AreUnits text.now) }
    ensures kept { IsKept out.old.items out.new.items }
{
    'units: for unit in text.units() {
        out.extend_from_slice(&unit.to_le_bytes())?;
    }
    Ok(())
}

/// A text behind its count in one byte. At want of memory a part may stand there.
pub(crate) fn put_short(out: &mut Vec<u8>, text: &Text) -> Result<(), AllocError>
    requires { length text.now < 256 }
    ensures ok { OnOk result (out.new.items ≡ out.old.items ++ short_text text.now) }
    ensures ranged { OnOk result (AreUnits text.now) }
    ensures kept { IsKept out.old.items out.new.items }
{
    out.push(text.units().len() as u8)?;
    put_units(out, text)
}

/// A text behind its count in two bytes. At want of memory a part may stand there.
pub(crate) fn put_long(out: &mut Vec<u8>, text: &Text) -> Result<(), AllocError>
    requires { length text.now < 65536 }
    ensures ok { OnOk result (out.new.items ≡ out.old.items ++ long_text text.now) }
    ensures ranged { OnOk result (AreUnits text.now) }
    ensures kept { IsKept out.old.items out.new.items }
{
    out.extend_from_slice(&(text.units().len() as u16).to_le_bytes())?;
    put_units(out, text)
}
