//! The fields of a message, read from the front of its bytes. All numbers are little-endian.

ghost use Rattle.std.specs.Prelude.{◌≡◌};
ghost use Rattle.std.specs.Int.{w16, w32, w64};
ghost use Rattle.tds_request.specs.Reading.{Gives, byte_at, number_at, byte_is_at, number_is_at};

use crate::fault::RequestFault;
use byteorder::{ByteOrder, LittleEndian};

/// A number of one byte, and the bytes behind it.
pub(crate) fn byte(bytes: &[u8]) -> Result<(u8, &[u8]), RequestFault>
    ensures { Gives (λ x. (x.0, x.1.now)) result (byte_at bytes.now) }
{
    match bytes {
        [] => Err(RequestFault::Short),
        [first, rest @ ..] => Ok((*first, rest)),
    }
}

/// A number of two bytes, and the bytes behind it.
pub(crate) fn number16(bytes: &[u8]) -> Result<(u16, &[u8]), RequestFault>
    ensures { Gives (λ x. (x.0, x.1.now)) result (number_at w16 bytes.now) }
{
    if bytes.len() < 2 {
        return Err(RequestFault::Short);
    }
    let (front, rest) = bytes.split_at(2);
    Ok((LittleEndian::read_u16(front), rest))
}

/// A number of four bytes, and the bytes behind it.
pub(crate) fn number32(bytes: &[u8]) -> Result<(u32, &[u8]), RequestFault>
    ensures { Gives (λ x. (x.0, x.1.now)) result (number_at w32 bytes.now) }
{
    if bytes.len() < 4 {
        return Err(RequestFault::Short);
    }
    let (front, rest) = bytes.split_at(4);
    Ok((LittleEndian::read_u32(front), rest))
}

/// A number of eight bytes, and the bytes behind it.
pub(crate) fn number64(bytes: &[u8]) -> Result<(u64, &[u8]), RequestFault>
    ensures { Gives (λ x. (x.0, x.1.now)) result (number_at w64 bytes.now) }
{
    if bytes.len() < 8 {
        return Err(RequestFault::Short);
    }
    let (front, rest) = bytes.split_at(8);
    Ok((LittleEndian::read_u64(front), rest))
}

/// The bytes behind one byte that must be this one.
#[tactic(auto, unfolding(crate::specs::Reading::byte_is_at))]
pub(crate) fn byte_is(bytes: &[u8], wanted: u8, wrong: RequestFault) -> Result<&[u8], RequestFault>
    ensures { Gives (λ rest. rest.now) result (byte_is_at wanted wrong bytes.now) }
{
    let (found, rest) = byte(bytes)?;
    if found != wanted {
        return Err(wrong);
    }
    Ok(rest)
}

/// The bytes behind a number of two bytes that must be this one.
#[tactic(auto, unfolding(crate::specs::Reading::number_is_at))]
pub(crate) fn number16_is(
    bytes: &[u8],
    wanted: u16,
    wrong: RequestFault,
) -> Result<&[u8], RequestFault>
    ensures { Gives (λ rest. rest.now) result (number_is_at w16 wanted wrong bytes.now) }
{
    let (found, rest) = number16(bytes)?;
    if found != wanted {
        return Err(wrong);
    }
    Ok(rest)
}

/// The bytes behind a number of four bytes that must be this one.
#[tactic(auto, unfolding(crate::specs::Reading::number_is_at))]
pub(crate) fn number32_is(
    bytes: &[u8],
    wanted: u32,
    wrong: RequestFault,
) -> Result<&[u8], RequestFault>
    ensures { Gives (λ rest. rest.now) result (number_is_at w32 wanted wrong bytes.now) }
{
    let (found, rest) = number32(bytes)?;
    if found != wanted {
        return Err(wrong);
    }
    Ok(rest)
}
