//! Parameters that are converted.

use crate::kinds::Kind;
use crate::literals::TEXT;
use crate::numbers::Decimal;
use crate::parameters::{TypedBytes, copy, joined};
use crate::scalar::{Refusal, Scalar, Trouble, Typed};
use std::alloc::{AllocError, Global};

impl TypedBytes<'_> {
    /// It as a value to be converted. Its type doesn't matter then.
    pub(crate) fn typed(&self, alloc: Global) -> Result<Typed, Trouble> {
        if let Some(number) = self.number() {
            let scalar = Scalar::Number(Decimal::signed(number));
            let kind = Kind::BigInt;
            return Ok(Typed { kind, scalar });
        }
        let scalar = match self.text(alloc)? {
            Some(text) => Scalar::Text(text),
            None => self.other(alloc)?,
        };
        Ok(Typed { kind: TEXT, scalar })
    }

    /// The same of what is no whole number and no text of units.
    fn other(&self, alloc: Global) -> Result<Scalar, Trouble> {
        match (self.kind, self.value) {
            ([0x26 | 0x68 | 0x6a | 0x6c, ..], [0]) => Ok(Scalar::Null),
            ([0xa5 | 0xa7 | 0xe7 | 0xef | 0xad | 0xaf, ..], [0xff, 0xff]) => Ok(Scalar::Null),
            ([0x63, ..], [0xff, 0xff, 0xff, 0xff]) => Ok(Scalar::Null),
            ([0x68, _], [_, bit]) => Ok(Scalar::Number(Decimal::whole(u64::from(*bit)))),
            ([0x6a | 0x6c, _, _, scale], [_, sign, parts @ ..]) => {
                let number = decimal_of(*sign, parts, *scale).ok_or(Refusal::TooLarge)?;
                Ok(Scalar::Number(number))
            }
            ([0xa7 | 0xa5 | 0xe7, 0xff, 0xff, ..], value) => match joined(alloc, value)? {
                Some(bytes) => Ok(self.of_bytes(alloc, bytes)?),
                None => Ok(Scalar::Null),
            },
            ([0xa5 | 0xa7 | 0xad | 0xaf, ..], [_, _, bytes @ ..]) => {
                Ok(self.of_bytes(alloc, copy(alloc, bytes)?)?)
            }
            _ => Err(Trouble::Refused(Refusal::NotDone)),
        }
    }

    /// Bytes, or of VARCHAR the text that they are in Latin 1.
    fn of_bytes(&self, alloc: Global, bytes: Vec<u8>) -> Result<Scalar, AllocError> {
        if !matches!(self.kind, [0xa7 | 0xaf, ..]) {
            return Ok(Scalar::Bytes(bytes));
        }
        let mut units = Vec::with_capacity(alloc, bytes.len())?;
        for byte in bytes.iter() {
            units.push(u16::from(*byte))?;
        }
        Ok(Scalar::Text(units))
    }
}

/// A decimal number: its sign, 1 for one that isn't below 0, and its parts, the low byte first.
fn decimal_of(sign: u8, parts: &[u8], scale: u8) -> Option<Decimal> {
    let mut number: u64 = 0;
    for byte in parts.iter().rev() {
        number = number.checked_mul(256)?.checked_add(u64::from(*byte))?;
    }
    Some(Decimal {
        is_negative: sign == 0,
        parts: number,
        scale,
    })
}
