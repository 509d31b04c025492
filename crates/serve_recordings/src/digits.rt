//! Bytes in hexadecimal digits.

use std::alloc::{AllocError, Global};

/// The bytes of hexadecimal digits, among which blanks may stand; or at which character, from 0, no digit
/// stands; behind the last one, where the last byte has one digit alone.
pub fn bytes_of(alloc: Global, text: &str) -> Result<Result<Vec<u8>, usize>, AllocError> {
    let mut bytes = Vec::new(alloc);
    let mut high = None;
    let mut count: usize = 0;
    for character in text.chars() {
        if character != ' ' {
            let Some(digit) = digit_of(character) else {
                return Ok(Err(count));
            };
            high = match high {
                None => Some(digit),
                Some(first) => {
                    bytes.push(joined(first, digit))?;
                    None
                }
            };
        }
        count = count.saturating_add(1);
    }
    match high {
        None => Ok(Ok(bytes)),
        Some(_) => Ok(Err(count)),
    }
}

/// The byte of two digits.
fn joined(high: u8, low: u8) -> u8 {
    high.wrapping_mul(16).wrapping_add(low)
}

/// What a hexadecimal digit stands for.
fn digit_of(character: char) -> Option<u8> {
    let digit = character.to_digit(16)?;
    u8::try_from(digit).ok()
}
