//! What the two messages of a login ask for, read from the first bytes of each.
ghost use Rattle.std.specs.Prelude.{◌≡◌, ◌+◌, ◌≤◌, length, slice_get};
ghost use Rattle.tds_login.specs.Asked.{is_demanding, encryption_of, login_answer_of, number_at, size_for};

use crate::answer::{LoginAnswer, Refusal, Terms};
use crate::login::LoginFault;
use tds_packet::PacketSize;

/// TDS 7.2 as LOGIN7 names it: the first version whose requests have headers.
const TDS_7_2: u32 = 0x7209_0002;

/// TDS 7.4 as LOGIN7 names it.
const TDS_7_4: u32 = 0x7400_0004;

/// The packet size where none is asked for.
const USUAL_SIZE: u32 = 4096;

/// The bytes of LOGIN7 before its texts (MS-TDS 2.2.6.4).
const LEAST_LENGTH: u32 = 94;

/// The token of PRELOGIN's option ENCRYPTION (MS-TDS 2.2.6.5), and the end of its options.
const ENCRYPTION: u8 = 1;

const TERMINATOR: u8 = 0xff;

/// Whether PRELOGIN demands that all that follows is encrypted (MS-TDS 2.2.6.5): ENCRYPT_ON or
/// ENCRYPT_REQ, with a client's certificate or without.
pub(crate) fn demands_encryption(message: &[u8]) -> bool
    ensures { result ≡ is_demanding message.now }
{
    match encryption(message) {
        Some(byte) => byte == 0x01 || byte == 0x03 || byte == 0x81 || byte == 0x83,
        None => false,
    }
}

/// The byte of PRELOGIN's option ENCRYPTION, if it has one among the bytes that are kept.
fn encryption(message: &[u8]) -> Option<u8>
    ensures { result ≡ encryption_of message.now }
{
    for option in 0..message.len() / 5 {
        let at = 5 * option;
        if message[at] == ENCRYPTION {
            return byte_at(
                message,
                256 * usize::from(message[at + 1]) + usize::from(message[at + 2]),
            );
        }
        if message[at] == TERMINATOR {
            return None;
        }
    }
    None
}

/// The byte at a place, if that is among those that are kept.
fn byte_at(message: &[u8], place: usize) -> Option<u8>
    ensures { result ≡ slice_get message.now place }
{
    message.get(place).copied()
}

/// The answer to LOGIN7, of which these are the first bytes and `count` is how many came. A peer that
/// demanded encryption is refused.
pub(crate) fn login_answer(
    message: &[u8],
    count: u32,
    demands_encryption: bool,
) -> Result<LoginAnswer, LoginFault>
    ensures { result ≡ login_answer_of message.now count demands_encryption }
{
    if message.len() < 12 {
        return Err(LoginFault::WrongMessage);
    }
    let length = number_at(message, 0);
    if length < LEAST_LENGTH || length != count {
        return Err(LoginFault::WrongMessage);
    }
    let version = number_at(message, 4);
    if version < TDS_7_2 {
        return Ok(LoginAnswer::Refuse(Refusal::OldVersion));
    }
    if demands_encryption {
        return Ok(LoginAnswer::Refuse(Refusal::Encryption));
    }
    Ok(LoginAnswer::LetIn(Terms {
        version: version.min(TDS_7_4),
        size: size_for(number_at(message, 8)),
    }))
}

/// The number that four bytes spell from this place on, the lowest one first.
fn number_at(message: &[u8], at: usize) -> u32
    requires { at + 4 ≤ length message.now }
    ensures { result ≡ number_at message.now at }
{
    let high = u32::from(message[at + 2]) + 256 * u32::from(message[at + 3]);
    u32::from(message[at]) + 256 * (u32::from(message[at + 1]) + 256 * high)
}

/// The packet size for the one that was asked for: the nearest that there is, and 4,096 where none was
/// asked for.
fn size_for(asked: u32) -> PacketSize
    ensures { result ≡ size_for asked }
{
    let asked = if asked == 0 { USUAL_SIZE } else { asked };
    let size = asked.clamp(512, 32_767) as u16;
    let Some(size) = PacketSize::new(size) else {
        unreachable!();
    };
    size
}
