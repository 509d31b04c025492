ghost use Rattle.std.specs.Prelude.{◌≡◌, [], ◌∷◌, IfOk, IfSome, IfNone};
ghost use Rattle.std.specs.Iterator.{YieldsFirst, item_count};
ghost use Rattle.tds_token.specs.Texts.{ints_of};

use std::alloc::{AllocError, Global};
use std::marker::Model;

/// The values of a row, in the order of the columns (MS-TDS 2.2.7.20). Each is an INT4.
#[derive(Debug, Drop)]
pub struct Row {
    values: Vec<i32>,
}

impl Model for Row {
    ghost use Rattle.std.specs.Prelude.{ℤ, List};

    ghost Value = { List ℤ };

    ghost view = { λ a. a.values.items };
}

impl Row {
    /// The row of these values.
    pub fn new(values: Vec<i32>) -> Row
        ensures { result ≡ values.items }
    {
        Row { values }
    }

    /// The values.
    pub fn as_slice(&self) -> &[i32]
        ensures { result.now ≡ self.now }
    {
        self.values.as_slice()
    }

    /// The values, given back.
    pub fn into_vec(self) -> Vec<i32>
        ensures { result.items ≡ self }
    {
        self.values
    }
}

/// A row that lies in a packet's data, four bytes a value.
#[derive(Debug, Drop)]
pub struct RowRef<'a> {
    bytes: &'a [u8],
}

impl<'a> Model for RowRef<'a> {
    ghost use Rattle.std.specs.Prelude.{ℤ, List};

    ghost Value = { List ℤ };

    ghost use Rattle.tds_token.specs.Texts.{ints_of};

    ghost view = { λ a. ints_of a.bytes.now };
}

impl<'a> RowRef<'a> {
    /// The values that lie in these bytes.
    pub(crate) fn new(bytes: &'a [u8]) -> RowRef<'a>
        ensures { result ≡ ints_of bytes.now }
    {
        RowRef { bytes }
    }

    /// The bytes in which the values lie, four a value, the low byte first.
    pub fn bytes(&self) -> &'a [u8]
        ensures { ints_of result.now ≡ self.now }
    {
        self.bytes
    }

    /// The first value and the others. None where no value is left.
    pub fn split_first(&self) -> Option<(i32, RowRef<'a>)>
        ensures some { IfSome result (λ x. self.now ≡ x.0 ∷ x.1) }
        ensures none { IfNone result (self.now ≡ []) }
    {
        match self.bytes {
            [a, b, c, d, rest @ ..] => {
                let first = i32::from_le_bytes([*a, *b, *c, *d]);
                Some((first, RowRef { bytes: rest }))
            }
            _ => None,
        }
    }

    /// An iterator over the values.
    pub fn values(&self) -> Values<'a>
        ensures { result ≡ self.now }
    {
        Values { bytes: self.bytes }
    }

    /// The same row, in memory of its own. Its memory is taken once.
    pub fn own(&self, alloc: Global) -> Result<Row, AllocError>
        ensures { IfOk result (λ row. row ≡ self.now) }
    {
        let values = values_from(alloc, self.bytes)?;
        Ok(Row { values })
    }
}

/// The values of a row that are left.
#[derive(Debug, Drop)]
pub struct Values<'a> {
    bytes: &'a [u8],
}

impl<'a> Model for Values<'a> {
    ghost use Rattle.std.specs.Prelude.{ℤ, List};

    ghost Value = { List ℤ };

    ghost use Rattle.tds_token.specs.Texts.{ints_of};

    ghost view = { λ a. ints_of a.bytes.now };
}

impl<'a> Iterator for Values<'a> {
    type Item = i32;

    ghost next_gives = { YieldsFirst (λ values. values) };

    ghost remaining = { item_count (λ values. values) };

    fn next(&mut self) -> Option<i32> {
        let (first, rest) = RowRef::new(self.bytes).split_first()?;
        self.bytes = rest.bytes;
        Some(first)
    }
}

fn values_from(alloc: Global, bytes: &[u8]) -> Result<Vec<i32>, AllocError>
    ensures { IfOk result (λ values. values.items ≡ ints_of bytes.now) }
{
    let mut values = Vec::with_capacity(alloc, bytes.len() / 4)?;
    let mut rest = bytes;
    'values: while let [a, b, c, d, after @ ..] = rest {
        values.push(i32::from_le_bytes([*a, *b, *c, *d]))?;
        rest = after;
    }
    Ok(values)
}
