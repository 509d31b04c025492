ghost use Rattle.std.specs.Prelude.{◌≡◌, IfOk, SomeIff, length, true};
ghost use Rattle.tds_request.specs.Reading.{is_text_length, units_of};
ghost use Rattle.tds_request.specs.Values.{IsBatchText};

use std::alloc::{AllocError, Global};
use std::marker::Model;

/// The text of a batch: 1 to 2,000 UTF-16 units, whatever they are (MS-TDS 2.2.6.7).
#[derive(Debug, Drop)]
pub struct BatchText {
    units: Vec<u16>,
}

impl Model for BatchText {
    ghost use Rattle.std.specs.Prelude.{ℕ, List};
    ghost use Rattle.tds_request.specs.Values.{IsBatchText};

    ghost Value = { List ℕ };

    ghost view = { λ text. text.units.items };

    ghost invariant = { λ text. IsBatchText text.units.items };
}

impl BatchText {
    /// The text of these units, if there are 1 to 2,000. It takes no memory.
    pub fn new(units: Vec<u16>) -> Option<BatchText>
        ensures { SomeIff result (IsBatchText units.items) units.items }
    {
        let count = units.len();
        if count == 0 || count > 2000 {
            return None;
        }
        Some(BatchText { units })
    }

    /// The units that it was made of.
    pub fn units(&self) -> &[u16]
        ensures value { result.now ≡ self.now }
        ensures range { IsBatchText self.now }
    {
        self.units.as_slice()
    }

    /// The text that these bytes spell, each unit's low byte first.
    pub(crate) fn from_le_bytes(alloc: Global, bytes: &[u8]) -> Result<BatchText, AllocError>
        requires { is_text_length (length bytes.now) ≡ true }
        ensures { IfOk result (λ text. text ≡ units_of bytes.now) }
    {
        let units = units_from(alloc, bytes)?;
        Ok(BatchText { units })
    }
}

fn units_from(alloc: Global, bytes: &[u8]) -> Result<Vec<u16>, AllocError>
    ensures { IfOk result (λ units. units.items ≡ units_of bytes.now) }
{
    let mut units = Vec::with_capacity(alloc, bytes.len() / 2)?;
    let mut rest = bytes;
    'units: while let [low, high, after @ ..] = rest {
        units.push(u16::from(*low) + 256 * u16::from(*high))?;
        rest = after;
    }
    Ok(units)
}
