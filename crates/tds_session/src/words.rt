//! The words of the batch language: names, keys and numbers, as units spell them.
ghost use Rattle.std.specs.Prelude.{◌≡◌, ◌<◌, nat_le};
ghost use Rattle.std.specs.List.{list_all};
ghost use Rattle.tds_session.specs.Language.{is_name};
ghost use Rattle.tds_session.specs.Words.{such, is_digit, is_numeral, numeral_value, number_within, signed_of, fits_i32, key_of};

use crate::statement::{Key, Within};

/// The unit of a minus sign.
const MINUS: u16 = 0x2d;

/// Whether a word is this name.
pub(crate) fn is_name(word: &[u16], name: &[u8]) -> bool
    ensures { result ≡ is_name name.now word.now }
{
    match (word, name) {
        ([], []) => true,
        ([unit, units @ ..], [byte, bytes @ ..]) => {
            *unit == u16::from(*byte) && is_name(units, bytes)
        }
        _ => false,
    }
}

/// The key that units spell.
pub(crate) fn key(units: &[u16]) -> Option<Key>
    ensures { result ≡ key_of units.now }
{
    match units {
        [unit] => Key::new(u32::from(*unit)),
        _ => None,
    }
}

/// The number from `LOW` to `HIGH` that units spell.
pub(crate) fn number_within<const LOW: u32, const HIGH: u32>(
    units: &[u16],
) -> Option<Within<LOW, HIGH>>
    ensures { result ≡ number_within LOW HIGH units.now }
{
    Within::new(number(units, HIGH)?)
}

/// The number of 32 bits that units spell, perhaps with a minus sign.
pub(crate) fn signed_number(units: &[u16]) -> Option<i32>
    ensures { result ≡ such fits_i32 (signed_of units.now) }
{
    match units {
        [MINUS, digits @ ..] => {
            let magnitude = number(digits, 0x8000_0000)?;
            if magnitude == 0 {
                return None;
            }
            Some((-i64::from(magnitude)) as i32)
        }
        _ => {
            let magnitude = number(units, 0x7fff_ffff)?;
            Some(magnitude as i32)
        }
    }
}

/// The number that units spell, if it is at most `most`.
fn number(units: &[u16], most: u32) -> Option<u32>
    ensures { result ≡ such (λ n. nat_le n most) (numeral_value units.now) }
{
    if !is_numeral(units) {
        return None;
    }
    let mut value: u64 = 0;
    for unit in units {
        value = value * 10 + u64::from(*unit - 0x30);
        if value > u64::from(most) {
            return None;
        }
    }
    Some(value as u32)
}

/// Whether units are digits, at least one, without a leading zero.
fn is_numeral(units: &[u16]) -> bool
    ensures { result ≡ is_numeral units.now }
{
    match units {
        [] => false,
        [only] => is_digit(*only),
        [first, others @ ..] => *first != 0x30 && is_digit(*first) && are_digits(others),
    }
}

fn are_digits(units: &[u16]) -> bool
    ensures { result ≡ list_all is_digit units.now }
{
    units.iter().all(|unit| is_digit(*unit))
}

fn is_digit(unit: u16) -> bool
    ensures { result ≡ is_digit unit }
{
    matches!(unit, 0x30..=0x39)
}
