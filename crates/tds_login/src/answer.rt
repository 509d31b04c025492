//! What a login is answered with (MS-TDS 2.2.6.5, 2.2.7.6, 2.2.7.9, 2.2.7.10, 2.2.7.14).
ghost use Rattle.std.specs.Prelude.{◌≡◌, ◌+◌, ◌≤◌, ◌++◌, length, take, vec_len, OnOk, OnErr};
ghost use Rattle.std.specs.Int.{w16, w32, to_le_bytes};
ghost use Rattle.tds_login.specs.Answers as spelled;

use crate::NoMemory;
use std::alloc::Global;
use tds_packet::{Kind, PacketSize, Status, put_sent};

/// What a message of the login is answered with.
#[derive(Clone, Copy, Debug, PartialEq, Eq)]
pub enum LoginAnswer {
    /// PRELOGIN: the server does not encrypt.
    Prepare,
    /// LOGIN7: the connection is logged in.
    LetIn(Terms),
    /// LOGIN7: the connection is refused, and is to be closed behind the answer.
    Refuse(Refusal),
}

/// What holds on a connection that is let in.
#[derive(Clone, Copy, Debug, PartialEq, Eq)]
pub struct Terms {
    /// The version of TDS, as LOGIN7 names it.
    pub version: u32,
    pub size: PacketSize,
}

/// Why a connection is refused.
#[derive(Clone, Copy, Debug, PartialEq, Eq)]
pub enum Refusal {
    /// It asked for a version before TDS 7.2.
    OldVersion,
    /// It demanded encryption.
    Encryption,
}

/// The name of this server in LOGINACK and in errors.
const NAME: &[u8] = b"tdsserve";

/// The answer to PRELOGIN (MS-TDS 2.2.6.5): version 11.0, encryption is not supported, the instance is the
/// right one, no thread is told, and there is one request at a time on a connection.
const PREPARED: [u8; 35] = [
    0, 0, 26, 0, 6, 1, 0, 32, 0, 1, 2, 0, 33, 0, 1, 3, 0, 34, 0, 0, 4, 0, 34, 0, 1, 0xff, //
    11, 0, 0, 0, 0, 0, 2, 0, 0,
];

/// The database of a client that asks for none, as units.
const MAIN: [u16; 4] = [109, 97, 105, 110];

/// The layout of tokens from TDS 7.2 on, or before it.
#[derive(Clone, Copy)]
enum Layout {
    /// Rows are counted in eight bytes, lines in four.
    Wide,
    /// Rows are counted in four bytes, lines in two.
    Narrow,
}

/// Appends the packet of an answer. At want of memory nothing is appended.
pub fn put_answer(alloc: Global, out: &mut Vec<u8>, answer: LoginAnswer) -> Result<(), NoMemory>
    ensures short { vec_len out.new ≤ vec_len out.old + 4096 }
    ensures ok { OnOk result (out.new.items
        ≡ out.old.items ++ spelled.answer_packet (spelled.data_of answer)) }
    ensures err { OnErr result (out.new.items ≡ out.old.items) }
{
    match answer {
        LoginAnswer::Prepare => put_packet(out, &PREPARED),
        LoginAnswer::LetIn(terms) => put_let_in(alloc, out, terms, &MAIN),
        LoginAnswer::Refuse(Refusal::OldVersion) => put_error_as(
            alloc,
            out,
            Layout::Narrow,
            17_832,
            b"This server speaks TDS 7.2 to 7.4, and the client asked for an older version.",
        ),
        LoginAnswer::Refuse(Refusal::Encryption) => put_error(
            alloc,
            out,
            17_835,
            b"This server does not encrypt, and the client demanded encryption.",
        ),
    }
}

/// Appends an answer of one ERROR with this number, and DONE. Of the text, in ASCII, 200 bytes count. At
/// want of memory nothing is appended.
pub fn put_error(alloc: Global, out: &mut Vec<u8>, number: u32, text: &[u8]) -> Result<(), NoMemory>
    ensures short { vec_len out.new ≤ vec_len out.old + 4096 }
    ensures ok { OnOk result (out.new.items
        ≡ out.old.items ++ spelled.answer_packet (spelled.refusal Layout.Wide number text.now)) }
    ensures err { OnErr result (out.new.items ≡ out.old.items) }
{
    put_error_as(alloc, out, Layout::Wide, number, text)
}

/// Appends an answer of DONE alone. At want of memory nothing is appended.
pub fn put_done(alloc: Global, out: &mut Vec<u8>) -> Result<(), NoMemory>
    ensures short { vec_len out.new ≤ vec_len out.old + 21 }
    ensures ok { OnOk result (out.new.items
        ≡ out.old.items ++ spelled.answer_packet (spelled.done Layout.Wide 0)) }
    ensures err { OnErr result (out.new.items ≡ out.old.items) }
{
    let mut data = Vec::new(alloc);
    put_done_token(&mut data, Layout::Wide, 0)?;
    put_packet(out, data.as_slice())
}

/// Appends a packet of an answer, the last of its message. Data that no packet holds are left out.
fn put_packet(out: &mut Vec<u8>, data: &[u8]) -> Result<(), NoMemory>
    ensures short { vec_len out.new ≤ vec_len out.old + 4096 }
    ensures counted { vec_len out.new ≤ vec_len out.old + (8 + length «data».now) }
    ensures ok { OnOk result (out.new.items ≡ out.old.items ++ spelled.answer_packet «data».now) }
    ensures err { OnErr result (out.new.items ≡ out.old.items) }
{
    put_sent(
        out,
        Kind::Answer,
        Status::of_answer(true),
        1,
        front(data, 4_088),
    )
}

/// Appends the answer to a login that is let in: its database, collation, LOGINACK, packet size, DONE. Of
/// the database's name, 128 units count. At want of memory nothing is appended.
pub fn put_let_in(
    alloc: Global,
    out: &mut Vec<u8>,
    terms: Terms,
    database: &[u16],
) -> Result<(), NoMemory>
    ensures short { vec_len out.new ≤ vec_len out.old + 4096 }
    ensures ok { OnOk result (out.new.items
        ≡ out.old.items ++ spelled.answer_packet (spelled.let_in terms database.now)) }
    ensures err { OnErr result (out.new.items ≡ out.old.items) }
{
    let mut data = Vec::new(alloc);
    put_terms(alloc, &mut data, terms, database)?;
    put_packet(out, data.as_slice())
}

/// Appends the tokens of that answer.
fn put_terms(
    alloc: Global,
    data: &mut Vec<u8>,
    terms: Terms,
    database: &[u16],
) -> Result<(), NoMemory>
    ensures { OnOk result («data».new.items
        ≡ «data».old.items ++ spelled.let_in terms database.now) }
{
    put_database(alloc, data, database)?;
    put_counted(data, 0xe3, &[7, 5, 0x09, 0x04, 0xd0, 0, 0x34, 0])?;
    put_acknowledgement(alloc, data, terms.version)?;
    put_size(alloc, data, terms.size)?;
    put_done_token(data, Layout::Wide, 0)
}

/// Appends ENVCHANGE of the database, which was `master`. Of its name, 128 units count.
fn put_database(alloc: Global, data: &mut Vec<u8>, database: &[u16]) -> Result<(), NoMemory>
    ensures { OnOk result («data».new.items
        ≡ «data».old.items ++ spelled.database_change database.now) }
{
    let mut body = Vec::new(alloc);
    put_database_body(&mut body, first_units(database, 128))?;
    put_counted(data, 0xe3, body.as_slice())
}

/// As many units as these at most, the first ones.
fn first_units(units: &[u16], most: usize) -> &[u16]
    ensures front { result.now ≡ take most units.now }
    ensures most { length result.now ≤ most }
{
    &units[..most.min(units.len())]
}

/// Appends what stands behind the count of that ENVCHANGE.
fn put_database_body(body: &mut Vec<u8>, database: &[u16]) -> Result<(), NoMemory>
    requires { length database.now ≤ 128 }
    ensures { OnOk result (body.new.items ≡ body.old.items ++ spelled.database_body database.now) }
{
    body.extend_from_slice(&[1, database.len() as u8])?;
    put_wide(body, database)?;
    put_text(body, b"master")
}

/// Appends units.
fn put_wide(data: &mut Vec<u8>, units: &[u16]) -> Result<(), NoMemory>
    ensures { OnOk result («data».new.items ≡ «data».old.items ++ spelled.wide units.now) }
{
    for unit in units {
        put_u16(data, *unit)?;
    }
    Ok(())
}

/// Appends ENVCHANGE of the packet size.
fn put_size(alloc: Global, data: &mut Vec<u8>, size: PacketSize) -> Result<(), NoMemory>
    ensures { OnOk result («data».new.items ≡ «data».old.items ++ spelled.size_change size) }
{
    let digits = format!(in alloc; "{}", size.get())?;
    put_env_change(alloc, data, 4, digits.as_bytes(), b"4096")
}

/// Appends LOGINACK (MS-TDS 2.2.7.14).
fn put_acknowledgement(alloc: Global, data: &mut Vec<u8>, version: u32) -> Result<(), NoMemory>
    ensures { OnOk result («data».new.items ≡ «data».old.items ++ spelled.login_ack version) }
{
    let mut body = Vec::new(alloc);
    put_acknowledged(&mut body, version)?;
    put_counted(data, 0xad, body.as_slice())
}

/// Appends what stands behind LOGINACK's count of bytes.
fn put_acknowledged(body: &mut Vec<u8>, version: u32) -> Result<(), NoMemory>
    ensures { OnOk result (body.new.items ≡ body.old.items ++ spelled.acknowledged version) }
{
    body.push(1)?;
    body.extend_from_slice(&version.to_be_bytes())?;
    put_text(body, NAME)?;
    body.extend_from_slice(&[11, 0, 0, 1])
}

/// Appends an answer of one ERROR (MS-TDS 2.2.7.10) and DONE, in this layout.
fn put_error_as(
    alloc: Global,
    out: &mut Vec<u8>,
    layout: Layout,
    number: u32,
    text: &[u8],
) -> Result<(), NoMemory>
    ensures short { vec_len out.new ≤ vec_len out.old + 4096 }
    ensures ok { OnOk result (out.new.items
        ≡ out.old.items ++ spelled.answer_packet (spelled.refusal layout number text.now)) }
    ensures err { OnErr result (out.new.items ≡ out.old.items) }
{
    let mut data = Vec::new(alloc);
    put_error_token(alloc, &mut data, layout, number, text)?;
    put_done_token(&mut data, layout, 2)?;
    put_packet(out, data.as_slice())
}

/// Appends ERROR in this layout.
fn put_error_token(
    alloc: Global,
    data: &mut Vec<u8>,
    layout: Layout,
    number: u32,
    text: &[u8],
) -> Result<(), NoMemory>
    ensures { OnOk result («data».new.items
        ≡ «data».old.items ++ spelled.error layout number text.now) }
{
    let mut body = Vec::new(alloc);
    put_error_body(&mut body, layout, number, text)?;
    put_counted(data, 0xaa, body.as_slice())
}

/// Appends what stands behind ERROR's count of bytes. Of the text, 200 bytes count.
fn put_error_body(
    body: &mut Vec<u8>,
    layout: Layout,
    number: u32,
    text: &[u8],
) -> Result<(), NoMemory>
    ensures { OnOk result (body.new.items
        ≡ body.old.items ++ spelled.error_body layout number (take 200 text.now)) }
{
    put_error_head(body, number)?;
    put_long_text(body, front(text, 200))?;
    put_place(body, layout)
}

/// Appends an error's number, its state, 1, and its class, 20.
fn put_error_head(body: &mut Vec<u8>, number: u32) -> Result<(), NoMemory>
    ensures { OnOk result (body.new.items ≡ body.old.items ++ spelled.error_head number) }
{
    put_u32(body, number)?;
    body.extend_from_slice(&[1, 20])
}

/// Appends where an error occurred: on this server, in no procedure, in the first line.
fn put_place(body: &mut Vec<u8>, layout: Layout) -> Result<(), NoMemory>
    ensures { OnOk result (body.new.items ≡ body.old.items ++ spelled.place layout) }
{
    put_text(body, NAME)?;
    put_text(body, b"")?;
    match layout {
        Layout::Wide => put_u32(body, 1),
        Layout::Narrow => put_u16(body, 1),
    }
}

/// As many bytes as these at most, the first ones.
fn front(bytes: &[u8], most: usize) -> &[u8]
    ensures front { result.now ≡ take most bytes.now }
    ensures most { length result.now ≤ most }
    ensures length { length result.now ≤ length bytes.now }
{
    &bytes[..most.min(bytes.len())]
}

/// Appends ENVCHANGE (MS-TDS 2.2.7.9) of this type, from one text to another.
fn put_env_change(
    alloc: Global,
    data: &mut Vec<u8>,
    kind: u8,
    new: &[u8],
    old: &[u8],
) -> Result<(), NoMemory>
    ensures { OnOk result («data».new.items
        ≡ «data».old.items ++ spelled.env_change kind new.now old.now) }
{
    let mut body = Vec::new(alloc);
    body.push(kind)?;
    put_text(&mut body, new)?;
    put_text(&mut body, old)?;
    put_counted(data, 0xe3, body.as_slice())
}

/// Appends DONE (MS-TDS 2.2.7.6) with this status.
fn put_done_token(data: &mut Vec<u8>, layout: Layout, status: u8) -> Result<(), NoMemory>
    ensures short { vec_len «data».new ≤ vec_len «data».old + 13 }
    ensures ok { OnOk result («data».new.items ≡ «data».old.items ++ spelled.done layout status) }
{
    data.extend_from_slice(&[0xfd, status, 0, 0, 0])?;
    match layout {
        Layout::Wide => data.extend_from_slice(&[0; 8]),
        Layout::Narrow => data.extend_from_slice(&[0; 4]),
    }
}

/// Appends a token with the count of its bytes in front.
fn put_counted(data: &mut Vec<u8>, kind: u8, body: &[u8]) -> Result<(), NoMemory>
    ensures { OnOk result («data».new.items ≡ «data».old.items ++ spelled.counted kind body.now) }
{
    data.push(kind)?;
    put_u16(data, (body.len() % 65_536) as u16)?;
    data.extend_from_slice(body)
}

/// Appends a text behind its count of units, in one byte.
fn put_text(data: &mut Vec<u8>, text: &[u8]) -> Result<(), NoMemory>
    ensures { OnOk result («data».new.items ≡ «data».old.items ++ spelled.short_text text.now) }
{
    data.push((text.len() % 256) as u8)?;
    put_units(data, text)
}

/// Appends a text behind its count of units, in two bytes.
fn put_long_text(data: &mut Vec<u8>, text: &[u8]) -> Result<(), NoMemory>
    ensures { OnOk result («data».new.items ≡ «data».old.items ++ spelled.long_text text.now) }
{
    put_u16(data, (text.len() % 65_536) as u16)?;
    put_units(data, text)
}

/// Appends a text of ASCII, each byte a unit.
fn put_units(data: &mut Vec<u8>, text: &[u8]) -> Result<(), NoMemory>
    ensures { OnOk result («data».new.items ≡ «data».old.items ++ spelled.units_of text.now) }
{
    for byte in text {
        data.extend_from_slice(&[*byte, 0])?;
    }
    Ok(())
}

/// Appends two bytes, the lower one first.
fn put_u16(data: &mut Vec<u8>, number: u16) -> Result<(), NoMemory>
    ensures { OnOk result («data».new.items ≡ «data».old.items ++ to_le_bytes w16 number) }
{
    data.extend_from_slice(&number.to_le_bytes())
}

/// Appends four bytes, the lowest one first.
fn put_u32(data: &mut Vec<u8>, number: u32) -> Result<(), NoMemory>
    ensures { OnOk result («data».new.items ≡ «data».old.items ++ to_le_bytes w32 number) }
{
    data.extend_from_slice(&number.to_le_bytes())
}
