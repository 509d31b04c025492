//! Bytes that are written in hexadecimal digits. Most of a capture's lines is these.

use std::alloc::AllocError;
use std::simd::prelude::*;

/// What no digit has for a value.
const NONE: u8 = 0xFF;

/// Puts the bytes that digits spell in the place of what is there. Whether all of them are pairs of digits.
pub fn read_digits(bytes: &mut Vec<u8>, digits: &[u8]) -> Result<bool, AllocError> {
    // Each of them is written below: what was there needn't be cleared.
    bytes.resize(digits.len() / 2, 0)?;
    let (runs, rest) = digits.as_chunks::<32>();
    let (places, last_places) = bytes.as_mut_slice().as_chunks_mut::<16>();
    let mut wrong = u8x16::splat(0);
    for (place, run) in places.iter_mut().zip(runs.iter()) {
        let read = read_run(*run);
        *place = read.bytes.to_array();
        wrong |= read.wrong;
    }
    // What is less than a run is one with zeros behind it.
    let mut run = [b'0'; 32];
    for (place, digit) in run.iter_mut().zip(rest.iter()) {
        *place = *digit;
    }
    let last = read_run(run);
    for (place, byte) in last_places.iter_mut().zip(last.bytes.to_array().iter()) {
        *place = *byte;
    }
    wrong |= last.wrong;
    Ok(wrong.reduce_or() == 0 && digits.len() % 2 == 0)
}

/// Sixteen bytes; and what isn't 0 where one wasn't spelled by digits.
#[derive(Clone, Copy)]
struct Run {
    bytes: u8x16,
    wrong: u8x16,
}

/// Reads the digits of sixteen bytes, of which each has its higher half first.
#[inline(always)]
fn read_run(digits: [u8; 32]) -> Run {
    let digits = u8x32::from_array(digits);
    let high = read_halves(digits.swizzle([
        0, 2, 4, 6, 8, 10, 12, 14, 16, 18, 20, 22, 24, 26, 28, 30,
    ]));
    let low = read_halves(digits.swizzle([
        1, 3, 5, 7, 9, 11, 13, 15, 17, 19, 21, 23, 25, 27, 29, 31,
    ]));
    Run {
        bytes: high.bytes * u8x16::splat(16) | low.bytes,
        wrong: high.wrong | low.wrong,
    }
}

/// The values of sixteen digits.
#[inline(always)]
fn read_halves(digits: u8x16) -> Run {
    let number = digits - u8x16::splat(b'0');
    let letter = (digits | u8x16::splat(0x20)) - u8x16::splat(b'a');
    let none = u8x16::splat(NONE);
    let numbers = number.simd_lt(u8x16::splat(10)).select(number, none);
    let letters = letter
        .simd_lt(u8x16::splat(6))
        .select(letter + u8x16::splat(10), none);
    // Of the two one is none, or both are.
    let values = numbers & letters;
    Run {
        bytes: values,
        wrong: values & u8x16::splat(0xF0),
    }
}
