//! Rows that lie one behind the other, all under the same columns (MS-TDS 2.2.7.20).

ghost use Rattle.std.specs.Prelude.{◌≡◌, ◌<◌, ◌≤◌, ◌∷◌, [], IfNone, IfSome, length, ℕ};
ghost use Rattle.std.specs.Iterator.{YieldsFirst, item_count};
ghost use Rattle.tds_token.specs.Runs.{AreRowsTo, IsRowAt, IsRun, behind_row, row_of};

use crate::row::RowRef;
use std::marker::Model;

/// Rows that lie one behind the other in a packet's data, all of the same width: a token byte, and
/// four bytes a value. It is an iterator over them.
#[derive(Debug, Drop)]
pub struct Rows<'a> {
    count: usize,
    columns: u8,
    bytes: &'a [u8],
}

impl<'a> Model for Rows<'a> {
    ghost use Rattle.std.specs.Prelude.{ℤ, List};

    ghost Value = { List (List ℤ) };

    ghost use Rattle.tds_token.specs.Runs.{AreLentRows, lent_rows};

    ghost view = { lent_rows };

    ghost invariant = { AreLentRows };
}

impl<'a> Rows<'a> {
    /// No rows.
    #[tactic(auto, unfolding(crate::specs::Runs::AreRowsTo, crate::specs::Runs::rows_of))]
    pub(crate) fn none() -> Rows<'a>
        ensures { result ≡ [] }
    {
        Rows {
            count: 0,
            columns: 0,
            bytes: &[],
        }
    }

    /// The rows of so many values at the front of these bytes, as many as there are, and the bytes
    /// behind them.
    pub(crate) fn at_front(columns: u8, bytes: &'a [u8]) -> (Rows<'a>, &'a [u8])
        ensures run { IsRun columns bytes.now result.0 result.1.now }
        ensures all { IsRowAt columns result.1.now → ⊥ }
        ensures shorter { length result.1.now ≤ length bytes.now }
    {
        let (count, rest) = skip_rows(columns, bytes);
        let (front, _) = bytes.split_at(bytes.len() - rest.len());
        let rows = Rows {
            count,
            columns,
            bytes: front,
        };
        (rows, rest)
    }

    /// How many rows there are.
    pub fn len(&self) -> usize
        ensures { result ≡ length self.now }
    {
        self.count
    }

    /// The rows as they lie there, and nothing else: each is its token byte `D1` and its values,
    /// four bytes a value, the low byte first, and all have the same count of values.
    pub fn bytes(&self) -> &'a [u8]
        ensures { (columns : ℕ) × IsRun columns result.now self.now [] }
    {
        self.bytes
    }

    fn take_first(&mut self) -> Option<RowRef<'a>>
        ensures some { IfSome result (λ row. self.old ≡ row ∷ self.new) }
        ensures none { IfNone result ((self.old ≡ []) × (self.new ≡ [])) }
    {
        if self.count == 0 {
            return None;
        }
        let (row, rest) = split_row(self.columns, self.bytes);
        self.count -= 1;
        self.bytes = rest;
        Some(row)
    }
}

impl<'a> Iterator for Rows<'a> {
    type Item = RowRef<'a>;

    ghost next_gives = { YieldsFirst (λ rows. rows) };

    ghost remaining = { item_count (λ rows. rows) };

    fn next(&mut self) -> Option<RowRef<'a>> {
        self.take_first()
    }

    fn size_hint(&self) -> (usize, Option<usize>) {
        let count = self.len();
        (count, Some(count))
    }
}

/// The values of the row at the front, and the bytes behind it.
fn split_row(columns: u8, bytes: &[u8]) -> (RowRef<'_>, &[u8])
    requires { IsRowAt columns bytes.now }
    ensures row { result.0 ≡ row_of columns bytes.now }
    ensures rest { result.1.now ≡ behind_row columns bytes.now }
{
    let [_, behind @ ..] = bytes else {
        unreachable!();
    };
    let (values, rest) = behind.split_at(4 * usize::from(columns));
    (RowRef::new(values), rest)
}

/// The bytes behind the row at the front, if there is one.
fn skip_row(columns: u8, bytes: &[u8]) -> Option<&[u8]>
    ensures row { IfSome result (λ rest. IsRowAt columns bytes.now) }
    ensures rest { IfSome result (λ rest. rest.now ≡ behind_row columns bytes.now) }
    ensures shorter { IfSome result (λ rest. length rest.now < length bytes.now) }
    ensures none { IfNone result (IsRowAt columns bytes.now → ⊥) }
{
    let size = 1 + 4 * usize::from(columns);
    if bytes.len() < size || bytes[0] != 0xD1 {
        return None;
    }
    Some(bytes.split_at(size).1)
}

/// How many rows lie at the front, and the bytes behind them.
fn skip_rows(columns: u8, bytes: &[u8]) -> (usize, &[u8])
    ensures rows { AreRowsTo result.0 columns bytes.now result.1.now }
    ensures all { IsRowAt columns result.1.now → ⊥ }
    ensures shorter { length result.1.now ≤ length bytes.now }
{
    let mut count = 0;
    let mut rest = bytes;
    'rows: while let Some(behind) = skip_row(columns, rest) {
        count += 1;
        rest = behind;
    }
    (count, rest)
}
