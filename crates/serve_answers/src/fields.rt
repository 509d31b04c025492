//! The fields that tokens are made of. All numbers have their low byte first.

ghost use Rattle.std.specs.Prelude.{◌≡◌, ◌++◌, OnOk};
ghost use Rattle.std.specs.Int.{w16, w32, to_le_bytes};

use crate::NoMemory;

/// Appends a number of two bytes.
pub(crate) fn put_u16(out: &mut Vec<u8>, number: u16) -> Result<(), NoMemory>
    ensures { OnOk result (out.new.items ≡ out.old.items ++ to_le_bytes w16 number) }
{
    out.extend_from_slice(&number.to_le_bytes())
}

/// Appends a number of four bytes.
pub(crate) fn put_u32(out: &mut Vec<u8>, number: u32) -> Result<(), NoMemory>
    ensures { OnOk result (out.new.items ≡ out.old.items ++ to_le_bytes w32 number) }
{
    out.extend_from_slice(&number.to_le_bytes())
}

/// Appends units, each of two bytes.
pub(crate) fn put_units(out: &mut Vec<u8>, units: &[u16]) -> Result<(), NoMemory> {
    for unit in units {
        put_u16(out, *unit)?;
    }
    Ok(())
}

/// As many units as these at most, the first ones.
pub(crate) fn front(units: &[u16], most: usize) -> &[u16] {
    &units[..most.min(units.len())]
}

/// Appends a text behind its count of units in one byte; of a longer one 255 units.
pub(crate) fn put_short_text(out: &mut Vec<u8>, text: &[u16]) -> Result<(), NoMemory> {
    let text = front(text, 255);
    out.push((text.len() % 256) as u8)?;
    put_units(out, text)
}

/// Appends a text behind its count of units in two bytes; of a longer one 2,000 units.
pub(crate) fn put_long_text(out: &mut Vec<u8>, text: &[u16]) -> Result<(), NoMemory> {
    let text = front(text, 2000);
    put_u16(out, (text.len() % 65_536) as u16)?;
    put_units(out, text)
}

/// Appends a token with the count of its bytes in front.
pub(crate) fn put_counted(out: &mut Vec<u8>, kind: u8, body: &[u8]) -> Result<(), NoMemory> {
    out.push(kind)?;
    put_u16(out, (body.len() % 65_536) as u16)?;
    out.extend_from_slice(body)
}
