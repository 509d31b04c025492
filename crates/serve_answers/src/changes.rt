//! What has changed of a session (MS-TDS 2.2.7.9).

use crate::NoMemory;
use crate::fields::{put_counted, put_short_text};
use std::alloc::Global;

/// The collation that texts have: Latin1_General, no case (MS-TDS 2.2.5.1.2).
pub const COLLATION: [u8; 5] = [0x09, 0x04, 0xd0, 0x00, 0x34];

/// Appends ENVCHANGE of this type, from one text to another: 1 of the database, 2 of the language.
pub fn put_text_change(
    alloc: Global,
    out: &mut Vec<u8>,
    kind: u8,
    new: &[u16],
    old: &[u16],
) -> Result<(), NoMemory> {
    let mut body = Vec::new(alloc);
    body.push(kind)?;
    put_short_text(&mut body, new)?;
    put_short_text(&mut body, old)?;
    put_counted(out, 0xe3, body.as_slice())
}

/// Appends ENVCHANGE 7: the collation, from none.
pub fn put_collation_change(out: &mut Vec<u8>) -> Result<(), NoMemory> {
    let [a, b, c, d, e] = COLLATION;
    put_counted(out, 0xe3, &[7, 5, a, b, c, d, e, 0])
}

/// Appends ENVCHANGE 4: the packet size, from 4,096.
pub fn put_size_change(alloc: Global, out: &mut Vec<u8>, size: u16) -> Result<(), NoMemory> {
    let digits = format!(in alloc; "{size}")?;
    let new = wide(alloc, digits.as_bytes())?;
    let old = wide(alloc, b"4096")?;
    put_text_change(alloc, out, 4, new.as_slice(), old.as_slice())
}

/// The units of a text of ASCII.
fn wide(alloc: Global, text: &[u8]) -> Result<Vec<u16>, NoMemory> {
    let mut units = Vec::with_capacity(alloc, text.len())?;
    for byte in text {
        units.push(u16::from(*byte))?;
    }
    Ok(units)
}
