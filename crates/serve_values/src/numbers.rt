//! Decimal numbers of at most 18 digits, or of a parameter's 64 bits.

use crate::text::units_in;
use std::alloc::{AllocError, Global};

/// 10 to the power of this many.
fn power(count: u8) -> u64 {
    let mut power: u64 = 1;
    for _ in 0..count {
        power = power.saturating_mul(10);
    }
    power
}

/// A number: so many parts, of which 10 to the power of its scale make one.
#[derive(Clone, Copy, Debug)]
pub(crate) struct Decimal {
    pub is_negative: bool,
    pub parts: u64,
    pub scale: u8,
}

impl Decimal {
    /// A whole number.
    pub(crate) fn whole(parts: u64) -> Decimal {
        Decimal {
            is_negative: false,
            parts,
            scale: 0,
        }
    }

    /// A whole number that may have a sign.
    pub(crate) fn signed(number: i64) -> Decimal {
        Decimal {
            is_negative: number < 0,
            parts: number.unsigned_abs(),
            scale: 0,
        }
    }

    /// The number that these digits spell, those behind the point apart; none where they have more than 18, or
    /// are none.
    pub(crate) fn of_digits(is_negative: bool, whole: &[u16], fraction: &[u16]) -> Option<Decimal> {
        let count = whole.len().saturating_add(fraction.len());
        if count == 0 || count > 18 {
            return None;
        }
        let parts = with_digits(with_digits(0, whole)?, fraction)?;
        Some(Decimal {
            is_negative,
            parts,
            scale: u8::try_from(fraction.len()).ok()?,
        })
    }

    /// The number that a text is: a sign, digits, a point, digits.
    pub(crate) fn of_text(text: &[u16]) -> Option<Decimal> {
        let (is_negative, digits) = match text {
            [45, digits @ ..] => (true, digits),
            [43, digits @ ..] => (false, digits),
            digits => (false, digits),
        };
        let (whole, fraction) = split_at_point(digits);
        Decimal::of_digits(is_negative, whole, fraction)
    }

    /// Without what stands behind its point.
    pub(crate) fn truncated(self) -> Decimal {
        Decimal {
            is_negative: self.is_negative,
            parts: self.parts / power(self.scale).max(1),
            scale: 0,
        }
    }

    /// With this scale, rounded; none where it has more digits then than this.
    pub(crate) fn scaled(self, precision: u8, scale: u8) -> Option<Decimal> {
        let parts = if scale >= self.scale {
            self.parts.checked_mul(power(scale - self.scale))?
        } else {
            let by = power(self.scale - scale).max(1);
            self.parts.checked_add(by / 2)? / by
        };
        if parts >= power(precision) {
            return None;
        }
        Some(Decimal {
            is_negative: self.is_negative,
            parts,
            scale,
        })
    }

    /// The whole number that it is from these to those; none where it is another, or has a scale.
    pub(crate) fn within(self, least: i64, most: i64) -> Option<i64> {
        let parts = i64::try_from(self.parts).ok();
        let number = match parts {
            Some(parts) if self.is_negative => parts.checked_neg()?,
            Some(parts) => parts,
            None if self.is_negative && self.parts == 1 << 63 => i64::MIN,
            None => return None,
        };
        if self.scale == 0 && number >= least && number <= most {
            Some(number)
        } else {
            None
        }
    }

    /// How many digits it has, at least one, and as many as stand behind its point.
    pub(crate) fn digits(self) -> u8 {
        let mut count: u8 = 1;
        let mut rest = self.parts / 10;
        for _ in 0..20 {
            if rest > 0 {
                count = count.saturating_add(1);
                rest /= 10;
            }
        }
        count.max(self.scale)
    }

    /// Its text.
    pub(crate) fn text(self, alloc: Global) -> Result<Vec<u16>, AllocError> {
        let sign = if self.is_negative && self.parts > 0 {
            "-"
        } else {
            ""
        };
        let by = power(self.scale).max(1);
        let (whole, behind) = (self.parts / by, self.parts % by);
        let width = usize::from(self.scale);
        let text = if width == 0 {
            format!(in alloc; "{sign}{whole}")?
        } else {
            format!(in alloc; "{sign}{whole}.{behind:0>width$}")?
        };
        units_in(alloc, text.as_bytes())
    }
}

/// What stands before and behind the first point of a text.
fn split_at_point(text: &[u16]) -> (&[u16], &[u16]) {
    for (place, unit) in text.iter().enumerate() {
        if *unit == 46 {
            let (whole, behind) = text.split_at(place.min(text.len()));
            return (whole, behind.get(1..).unwrap_or(&[]));
        }
    }
    (text, &[])
}

/// The number that has these digits behind its own; none where one is no digit, or it is too large.
fn with_digits(number: u64, digits: &[u16]) -> Option<u64> {
    let mut number = number;
    for unit in digits {
        let digit = unit.checked_sub(48)?;
        if digit > 9 {
            return None;
        }
        number = number.checked_mul(10)?.checked_add(u64::from(digit))?;
    }
    Some(number)
}
