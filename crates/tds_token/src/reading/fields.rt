//! Single fields. Where the bytes end inside one, the answer is the fault `short`.

ghost use Rattle.std.specs.Prelude.{◌≡◌, ◌<◌};
ghost use Rattle.std.specs.Int.{w16, w32, w64};
ghost use Rattle.tds_token.specs.Reading.{Gives, run_at, number_at, int_at, byte_at, units_at, sized_at, long_text_at, short_text_at};

use crate::fault::TokenFault;
use crate::text::TextRef;
use byteorder::{ByteOrder, LittleEndian};

/// `n` bytes.
pub(crate) fn run(bytes: &[u8], n: usize, short: TokenFault) -> Result<(&[u8], &[u8]), TokenFault>
    ensures { Gives (λ x. (x.0.now, x.1.now)) result (run_at short n bytes.now) }
{
    if bytes.len() < n {
        return Err(short);
    }
    Ok(bytes.split_at(n))
}

pub(crate) fn byte(bytes: &[u8], short: TokenFault) -> Result<(u8, &[u8]), TokenFault>
    ensures { Gives (λ x. (x.0, x.1.now)) result (byte_at short bytes.now) }
{
    match bytes {
        [] => Err(short),
        [first, rest @ ..] => Ok((*first, rest)),
    }
}

pub(crate) fn number16(bytes: &[u8], short: TokenFault) -> Result<(u16, &[u8]), TokenFault>
    ensures { Gives (λ x. (x.0, x.1.now)) result (number_at short w16 bytes.now) }
{
    if bytes.len() < 2 {
        return Err(short);
    }
    let (front, rest) = bytes.split_at(2);
    Ok((LittleEndian::read_u16(front), rest))
}

pub(crate) fn number32(bytes: &[u8], short: TokenFault) -> Result<(u32, &[u8]), TokenFault>
    ensures { Gives (λ x. (x.0, x.1.now)) result (number_at short w32 bytes.now) }
{
    if bytes.len() < 4 {
        return Err(short);
    }
    let (front, rest) = bytes.split_at(4);
    Ok((LittleEndian::read_u32(front), rest))
}

pub(crate) fn number64(bytes: &[u8], short: TokenFault) -> Result<(u64, &[u8]), TokenFault>
    ensures { Gives (λ x. (x.0, x.1.now)) result (number_at short w64 bytes.now) }
{
    if bytes.len() < 8 {
        return Err(short);
    }
    let (front, rest) = bytes.split_at(8);
    Ok((LittleEndian::read_u64(front), rest))
}

/// A signed number of four bytes.
pub(crate) fn int(bytes: &[u8], short: TokenFault) -> Result<(i32, &[u8]), TokenFault>
    ensures { Gives (λ x. (x.0, x.1.now)) result (int_at short bytes.now) }
{
    let (number, rest) = number32(bytes, short)?;
    Ok((number.cast_signed(), rest))
}

/// A text of `n` units.
pub(crate) fn units(
    bytes: &[u8],
    n: usize,
    short: TokenFault,
) -> Result<(TextRef<'_>, &[u8]), TokenFault>
    requires { n < 65536 }
    ensures { Gives (λ x. (x.0, x.1.now)) result (units_at short n bytes.now) }
{
    let (front, rest) = run(bytes, 2 * n, short)?;
    Ok((TextRef::new(front), rest))
}

/// What stands behind its Length, which must be there whole.
#[tactic(auto, unfolding(crate::specs::Reading::sized_at))]
pub(crate) fn sized(bytes: &[u8]) -> Result<(&[u8], &[u8]), TokenFault>
    ensures { Gives (λ x. (x.0.now, x.1.now)) result (sized_at bytes.now) }
{
    let (n, rest) = number16(bytes, TokenFault::Cut)?;
    run(rest, usize::from(n), TokenFault::Cut)
}

/// A text behind its count in two bytes, inside a Length.
#[tactic(auto, unfolding(crate::specs::Reading::long_text_at))]
pub(crate) fn long_text(bytes: &[u8]) -> Result<(TextRef<'_>, &[u8]), TokenFault>
    ensures { Gives (λ x. (x.0, x.1.now)) result (long_text_at bytes.now) }
{
    let (n, rest) = number16(bytes, TokenFault::WrongLength)?;
    units(rest, usize::from(n), TokenFault::WrongLength)
}

/// A text behind its count in one byte, inside a Length.
#[tactic(auto, unfolding(crate::specs::Reading::short_text_at))]
pub(crate) fn short_text(bytes: &[u8]) -> Result<(TextRef<'_>, &[u8]), TokenFault>
    ensures { Gives (λ x. (x.0, x.1.now)) result (short_text_at bytes.now) }
{
    let (n, rest) = byte(bytes, TokenFault::WrongLength)?;
    units(rest, usize::from(n), TokenFault::WrongLength)
}
