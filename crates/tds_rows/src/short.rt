//! A row whose values are short: of a fixed size, or behind a count in one byte or two. Most rows are, and by
//! themselves they take few instructions.

ghost use Rattle.std.specs.Prelude.{◌≡◌, ◌≤◌, ◌<◌, [], IfNone, IfSome, Some, drop, false, length, take};
ghost use Rattle.tds_rows.specs.Finding.{EndsAfter, column_shapes};
ghost use Rattle.tds_rows.specs.Places.{value_at, values_placed as places_of};
ghost use Rattle.tds_rows.specs.Short.{ColumnsAreShort, IsShort, OwnsBytes, StandsTo};
ghost use Rattle.tds_wire.specs.Layout.{Short};
ghost use Rattle.tds_wire.specs.Memory.{shape_of};

use crate::numbers::two_at;
use crate::place::{Place, RowColumn};
use crate::rows::write;
use tds_wire::Column;

/// Of the value of a column that begins at this byte: where its own bytes begin, how many these are, and 1
/// where it is null. By the number of a short column's form its count has so many bytes. None where the
/// column isn't short, or the bytes end in the count.
#[inline(always)]
fn own_bytes(column: Column, at: usize, bytes: &[u8]) -> Option<(usize, usize, u8)>
    requires { at ≤ length bytes.now }
    ensures owns { IfSome result (λ own.
        OwnsBytes (shape_of column) at bytes.now own.0 own.1 own.2) }
    ensures none { IfNone result (IsShort column
        → value_at at (shape_of column) (drop at bytes.now) ≡ Short) }
{
    if column.form == 0 {
        let null = u8::from(column.bytes == 0);
        return Some((at, usize::from(column.bytes), null));
    }
    if column.form > 2 {
        return None;
    }
    let start = at + usize::from(column.form);
    if bytes.len() < start {
        return None;
    }
    if column.form == 1 {
        let count = bytes[at];
        return Some((start, usize::from(count), u8::from(count == 0)));
    }
    let count = two_at(bytes, at);
    if count == 65_535 {
        return Some((start, 0, 1));
    }
    Some((start, count, 0))
}

/// The value, and the byte that it ends before.
#[inline(always)]
fn value_of(column: Column, at: usize, bytes: &[u8]) -> Option<(Place, usize)>
    requires { at ≤ length bytes.now }
    ensures stands { IfSome result (λ found.
        StandsTo (shape_of column) at bytes.now found.0 found.1) }
    ensures none { IfNone result (IsShort column
        → value_at at (shape_of column) (drop at bytes.now) ≡ Short) }
{
    let Some((start, count, null)) = own_bytes(column, at, bytes) else {
        return None;
    };
    let end = start + count;
    if bytes.len() < end {
        return None;
    }
    let place = Place {
        start: start as u64,
        length: count as u64,
        null,
    };
    Some((place, end))
}

/// The values of a ROW whose first one begins at this byte of it: where the row ends. None where one isn't
/// short, or the bytes end first; then any place may be written.
#[inline(always)]
pub(crate) fn short_places(
    start: usize,
    columns: &[RowColumn],
    bytes: &[u8],
    places: &mut [Place],
) -> Option<usize>
    requires room { length columns.now ≤ length places.old }
    requires start { start ≤ length bytes.now }
    ensures exact { IfSome result (λ n. EndsAfter (take (length columns.now) places.new)
        (places_of false [] 0 (column_shapes columns.now) start (drop start bytes.now))
        bytes.now (Some n)) }
    ensures none { IfNone result (ColumnsAreShort columns.now
        → places_of false [] 0 (column_shapes columns.now) start (drop start bytes.now) ≡ Short) }
    ensures room { length places.new ≡ length places.old }
    ensures others { drop (length columns.now) places.new
        ≡ drop (length columns.now) places.old }
{
    let mut done = start;
    let mut column = 0usize;
    'columns: while column < columns.len() {
        let Some((place, end)) = value_of(columns[column].shape, done, bytes) else {
            return None;
        };
        write(&mut places[column], place);
        done = end;
        column += 1;
    }
    Some(done)
}
