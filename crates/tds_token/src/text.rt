ghost use Rattle.std.specs.Prelude.{◌≡◌, [], ◌∷◌, IfOk, IfSome, IfNone};
ghost use Rattle.tds_token.specs.Texts.{units_of};

use std::alloc::{AllocError, Global};
use std::marker::Model;

/// A text, as UTF-16 units. They are carried as they are: a surrogate may stand alone.
#[derive(Debug, Drop)]
pub struct Text {
    units: Vec<u16>,
}

impl Model for Text {
    ghost use Rattle.std.specs.Prelude.{ℕ, List};

    ghost Value = { List ℕ };

    ghost view = { λ a. a.units.items };
}

impl Text {
    /// The text of these units.
    pub fn new(units: Vec<u16>) -> Text
        ensures { result ≡ units.items }
    {
        Text { units }
    }

    /// The units.
    pub fn units(&self) -> &[u16]
        ensures { result.now ≡ self.now }
    {
        self.units.as_slice()
    }

    /// The units, given back.
    pub fn into_units(self) -> Vec<u16>
        ensures { result.items ≡ self }
    {
        self.units
    }
}

/// A text that lies in a packet's data, each unit with its low byte first.
#[derive(Debug, Drop)]
pub struct TextRef<'a> {
    bytes: &'a [u8],
}

impl<'a> Model for TextRef<'a> {
    ghost use Rattle.std.specs.Prelude.{ℕ, List};

    ghost Value = { List ℕ };

    ghost use Rattle.tds_token.specs.Texts.{units_of};

    ghost view = { λ a. units_of a.bytes.now };
}

impl<'a> TextRef<'a> {
    /// The text that lies in these bytes.
    pub(crate) fn new(bytes: &'a [u8]) -> TextRef<'a>
        ensures { result ≡ units_of bytes.now }
    {
        TextRef { bytes }
    }

    /// The bytes in which the units lie, two a unit, the low byte first.
    pub fn bytes(&self) -> &'a [u8]
        ensures { units_of result.now ≡ self.now }
    {
        self.bytes
    }

    /// The first unit and the others. None where no unit is left.
    pub fn split_first(&self) -> Option<(u16, TextRef<'a>)>
        ensures some { IfSome result (λ x. self.now ≡ x.0 ∷ x.1) }
        ensures none { IfNone result (self.now ≡ []) }
    {
        match self.bytes {
            [low, high, rest @ ..] => {
                let first = u16::from(*low) + 256 * u16::from(*high);
                Some((first, TextRef { bytes: rest }))
            }
            _ => None,
        }
    }

    /// The same text, in memory of its own, which is taken once.
    pub fn own(&self, alloc: Global) -> Result<Text, AllocError>
        ensures { IfOk result (λ text. text ≡ self.now) }
    {
        let units = units_from(alloc, self.bytes)?;
        Ok(Text { units })
    }
}

fn units_from(alloc: Global, bytes: &[u8]) -> Result<Vec<u16>, AllocError>
    ensures { IfOk result (λ units. units.items ≡ units_of bytes.now) }
{
    let mut units = Vec::with_capacity(alloc, bytes.len() / 2)?;
    let mut rest = bytes;
    'units: while let [low, high, after @ ..] = rest {
        units.push(u16::from(*low) + 256 * u16::from(*high))?;
        rest = after;
    }
    Ok(units)
}
