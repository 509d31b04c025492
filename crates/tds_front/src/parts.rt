//! What the bytes of an application's message are, one behind another (MS-TDS 2.2.3.1, 2.2.5.3).
ghost use Rattle.std.specs.Prelude.{◌≡◌, ◌≤◌, max};
ghost use Rattle.tds_front.specs.Bytes.{behind_length, body_in, body_count, due_for, kind_from, length_part_behind};
ghost use Rattle.tds_front.specs.Bytes.{part_of, run_of, told_body};

use crate::front::{Due, Part, Said};
use tds_packet::Kind;

/// The types that an application sends.
pub(crate) fn kind_from(byte: u8) -> Option<Kind>
    ensures { result ≡ kind_from byte }
{
    match byte {
        0x01 => Some(Kind::Batch),
        0x03 => Some(Kind::Procedure),
        0x06 => Some(Kind::Attention),
        0x07 => Some(Kind::BulkLoad),
        0x0E => Some(Kind::Transaction),
        _ => None,
    }
}

/// What the first data of a request are.
pub(crate) fn part_of(kind: Kind) -> Part
    ensures { result ≡ part_of kind }
{
    match kind {
        Kind::Batch | Kind::Procedure | Kind::Transaction => Part::Low,
        Kind::Answer | Kind::Attention | Kind::BulkLoad => Part::Body,
    }
}

/// What is due behind a header with so many bytes of data.
pub(crate) fn due_for(count: u16) -> Due
    ensures { result ≡ due_for count }
{
    if count == 0 {
        Due::Type
    } else {
        Due::Data(count)
    }
}

/// How many bytes are read at once, of so many that are there.
pub(crate) fn run_of(part: Part, there: u16) -> u16
    ensures is { result ≡ run_of part there }
    ensures most { result ≤ max 1 there }
{
    match part {
        Part::Low => 1,
        Part::High(_) => 1,
        Part::Third(_) => 1,
        Part::Fourth(_) => 1,
        Part::Headers(left) => left.min(there),
        Part::Body => there,
        Part::Dropped => there,
    }
}

/// How many of them are the body's.
pub(crate) fn body_of(part: Part, run: u16) -> u16
    ensures is { result ≡ body_count part run }
    ensures most { result ≤ run }
{
    match part {
        Part::Low => 0,
        Part::High(_) => 0,
        Part::Third(_) => 0,
        Part::Fourth(_) => 0,
        Part::Headers(_) => 0,
        Part::Body => run,
        Part::Dropped => 0,
    }
}

/// What is due behind them, of which this is the first one.
pub(crate) fn part_behind(part: Part, byte: u8, run: u16) -> Option<Part>
    ensures { result ≡ length_part_behind part byte run }
{
    match part {
        Part::Low => Some(Part::High(byte)),
        Part::High(low) => Some(Part::Third(u16::from(low) + 256 * u16::from(byte))),
        Part::Third(count) => (byte == 0).then_some(Part::Fourth(count)),
        Part::Fourth(count) => {
            if byte == 0 && count >= 4 {
                Some(behind_length(count))
            } else {
                None
            }
        }
        Part::Headers(left) => {
            if left == run {
                Some(Part::Body)
            } else {
                Some(Part::Headers(left.saturating_sub(run)))
            }
        }
        Part::Body => Some(Part::Body),
        Part::Dropped => Some(Part::Dropped),
    }
}

/// What is due behind the length of ALL_HEADERS, of which four bytes are its own.
fn behind_length(count: u16) -> Part
    requires { 4 ≤ count }
    ensures { result ≡ behind_length count }
{
    if count == 4 {
        Part::Body
    } else {
        Part::Headers(count - 4)
    }
}

/// So many bytes of a body, if they are any.
pub(crate) fn told(body: u16) -> Said
    ensures is { result ≡ told_body body }
    ensures body { body_in result ≡ body }
{
    if body == 0 {
        Said::Nothing
    } else {
        Said::Body(usize::from(body))
    }
}
