//! The values of a row that have come, before it has ended.

ghost use Rattle.std.specs.Prelude.{◌≡◌, ◌≤◌, ◌<◌, ◌*◌, drop, length, take, true};
ghost use Rattle.tds_rows.specs.Come.{HasCome, ValuesCome, has_bits};

use crate::place::{Place, RowColumn, RowFault};
use crate::rows::is_skipped;
use crate::values::column_value;

/// How far the values of a row have come.
#[derive(Clone, Copy, Debug, PartialEq, Eq)]
pub struct Come {
    /// The column whose value isn't whole; as many as there are, where all are.
    pub next: usize,
    /// Where that value begins.
    pub taken: usize,
}

fn come_from(
    with_nulls: bool,
    nulls: &[u8],
    first: usize,
    columns: &[RowColumn],
    bytes: &[u8],
    places: &mut [Place],
) -> Come
    requires room { length columns.now ≤ length places.old }
    requires bits { with_nulls ≡ has_bits nulls.now }
    requires nulls { with_nulls ≡ true → length columns.now ≤ 8 * length nulls.now }
    requires first { first ≤ length columns.now }
    ensures exact { HasCome columns.now first nulls.now bytes.now places.new result }
    ensures room { length places.new ≡ length places.old }
    ensures before { take first places.new ≡ take first places.old }
    ensures others { drop (length columns.now) places.new
        ≡ drop (length columns.now) places.old }
{
    let mut done = 0usize;
    let mut column = first;
    'columns: while column < columns.len() {
        let skipped = is_skipped(with_nulls, nulls, column);
        let shape = columns[column].shape;
        let Some((place, length)) = column_value(skipped, shape, done, &bytes[done..]) else {
            return Come {
                next: column,
                taken: done,
            };
        };
        places[column] = place;
        done += length;
        column += 1;
    }
    Come {
        next: column,
        taken: done,
    }
}

/// Where each value stands that is whole, in bytes of a row that begin with the value of the column of this number,
/// from the first of these bytes on, and which column's value comes next, with its first byte's place. `nulls` is the
/// null bitmap of an NBCROW, and empty for a ROW. It takes no memory.
///
/// # Errors
///
/// `NoColumns` where there are fewer columns; `NoRoom` where there are fewer places, or bits of a bitmap. Then nothing
/// is written.
pub fn row_values(
    columns: &[RowColumn],
    first: usize,
    nulls: &[u8],
    bytes: &[u8],
    places: &mut [Place],
) -> Result<Come, RowFault>
    ensures exact { ValuesCome result columns.now first nulls.now bytes.now places.new }
    ensures length { length places.new ≡ length places.old }
    ensures before { take first places.new ≡ take first places.old }
    ensures others { drop (length columns.now) places.new
        ≡ drop (length columns.now) places.old }
{
    if columns.len() < first {
        return Err(RowFault::NoColumns);
    }
    if places.len() < columns.len() {
        return Err(RowFault::NoRoom);
    }
    let with_nulls = !nulls.is_empty();
    if with_nulls && nulls.len() < (columns.len() + 7) / 8 {
        return Err(RowFault::NoRoom);
    }
    Ok(come_from(with_nulls, nulls, first, columns, bytes, places))
}
