//! What the relay tells an application itself: an answer of one ERROR (MS-TDS 2.2.7.10) and DONE.

ghost use Rattle.std.specs.Prelude.{◌≤◌, length};

use std::alloc::{AllocError, Global};
use tds_login::Refusal;
use tds_packet::{Kind, Status, put_sent};

/// The number of an error that refuses a login, and its sentence where the application gives no further continuation.
pub const REFUSED: u32 = 50_100;

pub const UNANSWERED: &str = "The application gave no answer in time.";

/// The number of the error of an application too many, and its sentence.
pub const TOO_MANY: u32 = 50_106;

pub const FULL: &str =
    "The relay has as many applications as its limit of open files leaves room for.";

/// The number of the error of who asks for a query notification, and its sentence.
pub const NOTIFIES: u32 = 50_107;

pub const NO_NOTICES: &str = "The relay hands no query notification on: ask for it past the relay.";

/// The number of the error of who waits for a connection that can't be opened.
pub const NOT_OPENED: u32 = 50_105;

/// The name by which the relay calls itself.
const NAME: &str = "tdsrelay";

/// The most characters of a sentence.
const MOST: usize = 200;

/// An error's state, and its class: the connection ends.
const STATE_AND_CLASS: [u8; 2] = [1, 20];

/// Where an error occurred behind the server's name: in no procedure, in the first line. Then DONE (MS-TDS
/// 2.2.7.6), with the bit of an error.
const WIDE_PLACE: [u8; 5] = [0, 1, 0, 0, 0];

const WIDE_DONE: [u8; 13] = [0xfd, 2, 0, 0, 0, 0, 0, 0, 0, 0, 0, 0, 0];

/// The same before TDS 7.2.
const NARROW_PLACE: [u8; 3] = [0, 1, 0];

const NARROW_DONE: [u8; 9] = [0xfd, 2, 0, 0, 0, 0, 0, 0, 0];

/// Appends an answer of one ERROR with this number and sentence, in ASCII, and DONE.
pub fn put_error(
    alloc: Global,
    out: &mut Vec<u8>,
    number: u32,
    sentence: &str,
) -> Result<(), AllocError> {
    let mut data = Vec::new(alloc);
    put_token(&mut data, number, sentence, &WIDE_PLACE)?;
    data.extend_from_slice(&WIDE_DONE)?;
    put_saved(out, &data)
}

/// Appends why a login is refused before the server hears of it.
pub fn put_refusal(alloc: Global, out: &mut Vec<u8>, refusal: Refusal) -> Result<(), AllocError> {
    match refusal {
        Refusal::Encryption => put_error(alloc, out, 17_835, words_of(refusal)),
        Refusal::OldVersion => put_old_version(alloc, out),
    }
}

/// Why it is.
pub fn words_of(refusal: Refusal) -> &'static str {
    match refusal {
        Refusal::Encryption => "This relay does not encrypt, and the client demanded encryption.",
        Refusal::OldVersion => {
            "This relay speaks TDS 7.2 to 7.4, and the client asked for an older version."
        }
    }
}

fn put_old_version(alloc: Global, out: &mut Vec<u8>) -> Result<(), AllocError> {
    let mut data = Vec::new(alloc);
    put_token(
        &mut data,
        17_832,
        words_of(Refusal::OldVersion),
        &NARROW_PLACE,
    )?;
    data.extend_from_slice(&NARROW_DONE)?;
    put_saved(out, &data)
}

/// Appends ERROR: the count of its bytes, and these.
fn put_token(
    data: &mut Vec<u8>,
    number: u32,
    sentence: &str,
    place: &[u8],
) -> Result<(), AllocError> {
    let text = front(sentence.as_bytes());
    // Behind the count: the number, state and class, a count of two bytes, a count of one, and the texts.
    let texts = text.len().saturating_add(NAME.len()).saturating_mul(2);
    let count = texts.saturating_add(place.len()).saturating_add(9);
    data.push(0xaa)?;
    data.extend_from_slice(&((count % 65_536) as u16).to_le_bytes())?;
    data.extend_from_slice(&number.to_le_bytes())?;
    data.extend_from_slice(&STATE_AND_CLASS)?;
    data.extend_from_slice(&((text.len() % 65_536) as u16).to_le_bytes())?;
    put_units(data, text)?;
    data.push((NAME.len() % 256) as u8)?;
    put_units(data, NAME.as_bytes())?;
    data.extend_from_slice(place)
}

/// As many bytes as count of a sentence.
fn front(sentence: &[u8]) -> &[u8]
    ensures { length result.now ≤ 200 }
{
    &sentence[..sentence.len().min(MOST)]
}

/// Appends ASCII as UTF-16.
fn put_units(data: &mut Vec<u8>, text: &[u8]) -> Result<(), AllocError> {
    for byte in text {
        data.extend_from_slice(&[*byte, 0])?;
    }
    Ok(())
}

/// Appends an answer with these data in packets of 4,096 bytes at most.
pub fn put_saved(out: &mut Vec<u8>, answer: &[u8]) -> Result<(), AllocError> {
    let mut left = answer.len();
    let mut packet_id: u8 = 1;
    for chunk in answer.chunks(4_088) {
        left = left.saturating_sub(chunk.len());
        put_sent(
            out,
            Kind::Answer,
            Status::of_answer(left == 0),
            packet_id,
            chunk,
        )?;
        packet_id = packet_id.wrapping_add(1);
    }
    Ok(())
}
