//! Messages, and what ends a statement, a procedure or an answer.

ghost use Rattle.std.specs.Prelude.{◌≡◌, ◌++◌, ◌∷◌, OnOk};
ghost use Rattle.std.specs.Int.{w32, to_le_bytes};

use crate::NoMemory;
use crate::fields::{put_counted, put_long_text, put_short_text, put_u16, put_u32};
use std::alloc::Global;

/// The name of this server in messages.
const NAME: [u16; 8] = [116, 100, 115, 115, 101, 114, 118, 101];

/// How many bytes each of the three tokens has that end something.
pub const DONE_LENGTH: usize = 13;

/// The three tokens that end something (MS-TDS 2.2.7.6 to 2.2.7.8).
#[derive(Clone, Copy, Debug, PartialEq, Eq)]
pub enum Done {
    /// `FD`, DONE: a statement of a batch, or the batch.
    Statement,
    /// `FE`, DONEPROC: a procedure.
    Procedure,
    /// `FF`, DONEINPROC: a statement of a procedure.
    InProcedure,
}

impl Done {
    /// Its first byte.
    pub fn byte(self) -> u8 {
        match self {
            Done::Statement => 0xfd,
            Done::Procedure => 0xfe,
            Done::InProcedure => 0xff,
        }
    }
}

/// Appends one of the three tokens that end something, with this status and this count of rows.
pub fn put_done(out: &mut Vec<u8>, done: Done, status: u16, rows: u64) -> Result<(), NoMemory> {
    out.push(done.byte())?;
    put_u16(out, status)?;
    put_u16(out, 0)?;
    out.extend_from_slice(&rows.to_le_bytes())
}

/// Appends INFO of class 0 (MS-TDS 2.2.7.13): it tells of no error.
pub fn put_info(
    alloc: Global,
    out: &mut Vec<u8>,
    number: u32,
    text: &[u16],
) -> Result<(), NoMemory> {
    put_message(alloc, out, 0xab, number, 0, text)
}

/// Appends ERROR of class 16 (MS-TDS 2.2.7.10).
pub fn put_error(
    alloc: Global,
    out: &mut Vec<u8>,
    number: u32,
    text: &[u16],
) -> Result<(), NoMemory> {
    put_message(alloc, out, 0xaa, number, 16, text)
}

/// Appends a message of state 1 in line 1, of no procedure.
fn put_message(
    alloc: Global,
    out: &mut Vec<u8>,
    kind: u8,
    number: u32,
    class: u8,
    text: &[u16],
) -> Result<(), NoMemory> {
    let mut body = Vec::new(alloc);
    put_u32(&mut body, number)?;
    body.extend_from_slice(&[1, class])?;
    put_long_text(&mut body, text)?;
    put_short_text(&mut body, &NAME)?;
    put_short_text(&mut body, &[])?;
    put_u32(&mut body, 1)?;
    put_counted(out, kind, body.as_slice())
}

/// Appends RETURNSTATUS (MS-TDS 2.2.7.18).
pub fn put_return_status(out: &mut Vec<u8>, status: u32) -> Result<(), NoMemory>
    ensures { OnOk result (out.new.items ≡ out.old.items ++ (121 ∷ to_le_bytes w32 status)) }
{
    out.push(0x79)?;
    put_u32(out, status)
}

/// Appends RETURNVALUE (MS-TDS 2.2.7.19) of the parameter at this place, from 0, which has no name: an
/// INTN of four bytes.
pub fn put_return_value(out: &mut Vec<u8>, place: u16, value: u32) -> Result<(), NoMemory> {
    out.push(0xac)?;
    put_u16(out, place)?;
    // no name, an output parameter, no user type, no flags
    out.extend_from_slice(&[0, 1, 0, 0, 0, 0, 0, 0])?;
    // INTN of four bytes, and the value's length
    out.extend_from_slice(&[0x26, 4, 4])?;
    put_u32(out, value)
}

/// Appends LOGINACK (MS-TDS 2.2.7.14) of this version of TDS: by `tdsserve`, so that nobody takes it for a SQL
/// Server, of version 11.0.
pub fn put_login_ack(alloc: Global, out: &mut Vec<u8>, version: u32) -> Result<(), NoMemory> {
    let mut body = Vec::new(alloc);
    body.push(1)?;
    body.extend_from_slice(&version.to_be_bytes())?;
    put_short_text(&mut body, &NAME)?;
    body.extend_from_slice(&[11, 0, 0, 1])?;
    put_counted(out, 0xad, body.as_slice())
}

/// Appends FEATUREEXTACK (MS-TDS 2.2.7.11) of the feature UTF8_SUPPORT: texts aren't sent in UTF-8.
pub fn put_no_utf8(out: &mut Vec<u8>) -> Result<(), NoMemory> {
    out.extend_from_slice(&[0xae, 0x0a, 1, 0, 0, 0, 0, 0xff])
}
