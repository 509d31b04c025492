//! The values of a row.

ghost use Rattle.std.specs.Prelude.{◌≡◌, ◌≤◌, ◌<◌, ◌+◌, ◌*◌, ◌&&◌, Err, IfNone, IfOk, IfSome, Ok, drop, false, length, take, true};
ghost use Rattle.tds_rows.specs.Finding.{EndsAfter, IsKind, PlacesFound, RowFound, column_shapes};
ghost use Rattle.tds_rows.specs.Laws.{DividesBehind, DividesRow};
ghost use Rattle.tds_rows.specs.Many.{RowsFound};
ghost use Rattle.tds_rows.specs.Places.{placed_row, values_placed as places_of};
ghost use Rattle.tds_rows.specs.Short.{ColumnsAreShort};
ghost use Rattle.tds_rows.specs.declared.place.RowFault.TheVariants as faults;
ghost use Rattle.tds_wire.specs.Layout.{Short, is_null};

use crate::place::{Place, RowColumn, RowFault, RowsPlaced};
use crate::short::short_places;
use crate::values::column_value;

const ROW: u8 = 0xD1;

const NULL_ROW: u8 = 0xD2;

/// Whether this column's bit of a null bitmap is set.
#[inline(always)]
fn is_null(nulls: &[u8], column: usize) -> bool
    requires { column < 8 * length nulls.now }
    ensures { result ≡ is_null nulls.now column }
{
    nulls[column / 8] >> (column % 8) & 1 == 1
}

/// The same where a row may have no null bitmap.
#[inline(always)]
pub(crate) fn is_skipped(with_nulls: bool, nulls: &[u8], column: usize) -> bool
    requires { with_nulls ≡ true → column < 8 * length nulls.now }
    ensures { result ≡ (with_nulls && is_null nulls.now column) }
{
    with_nulls && is_null(nulls, column)
}

/// Field by field: a copy of the whole writes its padding too, by stores that overlap, for which what reads
/// the place has to wait.
#[inline(always)]
pub(crate) fn write(to: &mut Place, place: Place)
    ensures { to.new ≡ place }
{
    to.start = place.start;
    to.length = place.length;
    to.null = place.null;
}

/// The values of a row whose first one begins at this byte of it: where the row ends. Nothing where the
/// bytes end first.
#[inline(always)]
fn places_from(
    with_nulls: bool,
    nulls: &[u8],
    start: usize,
    columns: &[RowColumn],
    bytes: &[u8],
    places: &mut [Place],
) -> Option<usize>
    requires room { length columns.now ≤ length places.old }
    requires start { start ≤ length bytes.now }
    requires nulls { with_nulls ≡ true → length columns.now ≤ 8 * length nulls.now }
    ensures exact { EndsAfter (take (length columns.now) places.new)
        (places_of with_nulls nulls.now 0 (column_shapes columns.now) start (drop start bytes.now))
        bytes.now result }
    ensures on { IfSome result (λ n. start ≤ n) }
    ensures room { length places.new ≡ length places.old }
    ensures others { drop (length columns.now) places.new
        ≡ drop (length columns.now) places.old }
{
    let mut done = start;
    let mut column = 0usize;
    'columns: while column < columns.len() {
        let skipped = is_skipped(with_nulls, nulls, column);
        let shape = columns[column].shape;
        let Some((place, length)) = column_value(skipped, shape, done, &bytes[done..]) else {
            return None;
        };
        write(&mut places[column], place);
        done += length;
        column += 1;
    }
    Some(done)
}

/// Of a ROW that begins at this byte: where it ends.
#[inline(always)]
fn plain_row(
    columns: &[RowColumn],
    start: usize,
    bytes: &[u8],
    places: &mut [Place],
) -> Result<usize, RowFault>
    requires room { length columns.now ≤ length places.old }
    requires kind { IsKind 0xD1 start bytes.now }
    ensures exact { RowFound result start (column_shapes columns.now) bytes.now places.new }
    ensures divided { IfOk result (λ n. DividesBehind false start (column_shapes columns.now)
        bytes.now (take (length columns.now) places.new) (drop n bytes.now)) }
    ensures further { IfOk result (λ n. start < n) }
    ensures room { length places.new ≡ length places.old }
    ensures others { drop (length columns.now) places.new
        ≡ drop (length columns.now) places.old }
{
    if columns.is_empty() {
        return Err(RowFault::NoColumns);
    }
    match places_from(false, &[], start + 1, columns, bytes, places) {
        Some(end) => Ok(end),
        None => Err(RowFault::Short),
    }
}

/// Of an NBCROW.
#[inline(always)]
fn null_row(
    columns: &[RowColumn],
    start: usize,
    bytes: &[u8],
    places: &mut [Place],
) -> Result<usize, RowFault>
    requires room { length columns.now ≤ length places.old }
    requires kind { IsKind 0xD2 start bytes.now }
    ensures exact { RowFound result start (column_shapes columns.now) bytes.now places.new }
    ensures divided { IfOk result (λ n. DividesBehind true start (column_shapes columns.now)
        bytes.now (take (length columns.now) places.new) (drop n bytes.now)) }
    ensures further { IfOk result (λ n. start < n) }
    ensures room { length places.new ≡ length places.old }
    ensures others { drop (length columns.now) places.new
        ≡ drop (length columns.now) places.old }
{
    if columns.is_empty() {
        return Err(RowFault::NoColumns);
    }
    let behind = start + 1;
    let count = (columns.len() + 7) / 8;
    if bytes.len() - behind < count {
        return Err(RowFault::Short);
    }
    let values = behind + count;
    match places_from(true, &bytes[behind..values], values, columns, bytes, places) {
        Some(end) => Ok(end),
        None => Err(RowFault::Short),
    }
}

/// Of the row that begins at this byte.
#[inline(always)]
fn row_at(
    columns: &[RowColumn],
    start: usize,
    bytes: &[u8],
    places: &mut [Place],
) -> Result<usize, RowFault>
    requires room { length columns.now ≤ length places.old }
    requires start { start < length bytes.now }
    ensures exact { RowFound result start (column_shapes columns.now) bytes.now places.new }
    ensures divided { IfOk result (λ n. DividesRow start (column_shapes columns.now) bytes.now
        (take (length columns.now) places.new) (drop n bytes.now)) }
    ensures further { IfOk result (λ n. start < n) }
    ensures room { length places.new ≡ length places.old }
    ensures others { drop (length columns.now) places.new
        ≡ drop (length columns.now) places.old }
{
    match bytes[start] {
        ROW => plain_row(columns, start, bytes, places),
        NULL_ROW => null_row(columns, start, bytes, places),
        _ => Err(RowFault::OtherToken),
    }
}

/// Where each value stands in the row that bytes begin with, a ROW or an NBCROW: how many bytes the row has.
/// The place of each column's value is written to the front of `places`. It takes no memory.
///
/// # Errors
///
/// Where the bytes are no such row, what is wrong; then any of those places may be written.
pub fn row_places(
    columns: &[RowColumn],
    bytes: &[u8],
    places: &mut [Place],
) -> Result<usize, RowFault>
    ensures exact { PlacesFound result (column_shapes columns.now) bytes.now places.new }
    // They divide it: a value's prefix, its own bytes, what closes it; then the next value's.
    ensures divided { IfOk result (λ n. DividesRow 0 (column_shapes columns.now) bytes.now
        (take (length columns.now) places.new) (drop n bytes.now)) }
    ensures room { length places.old < length columns.now → result ≡ Err faults.NoRoom }
    // There are as many as before, and those behind the columns stay.
    ensures length { length places.new ≡ length places.old }
    ensures others { drop (length columns.now) places.new
        ≡ drop (length columns.now) places.old }
{
    if places.len() < columns.len() {
        return Err(RowFault::NoRoom);
    }
    if bytes.is_empty() {
        return Err(RowFault::Short);
    }
    row_at(columns, 0, bytes, places)
}

/// The same of a ROW whose columns are all of a fixed size, or behind a count in one byte or two, in few
/// instructions. None where it is none, isn't whole, or has no room; then `row_places` says which.
#[inline(always)]
pub fn short_row(columns: &[RowColumn], bytes: &[u8], places: &mut [Place]) -> Option<usize>
    ensures exact { IfSome result (λ n. PlacesFound (Ok n) (column_shapes columns.now) bytes.now
        places.new) }
    ensures divided { IfSome result (λ n. DividesRow 0 (column_shapes columns.now) bytes.now
        (take (length columns.now) places.new) (drop n bytes.now)) }
    ensures room { IfSome result (λ _. length columns.now ≤ length places.old) }
    ensures none { IfNone result (ColumnsAreShort columns.now → 0 < length columns.now
        → length columns.now ≤ length places.old → IsKind 0xD1 0 bytes.now
        → placed_row (column_shapes columns.now) bytes.now ≡ Short) }
    ensures length { length places.new ≡ length places.old }
    ensures others { drop (length columns.now) places.new
        ≡ drop (length columns.now) places.old }
{
    if places.len() < columns.len() || columns.is_empty() || bytes.is_empty() {
        return None;
    }
    if bytes[0] != ROW {
        return None;
    }
    short_places(1, columns, bytes, places)
}

/// Where each value stands in the rows that bytes begin with, ROWs and NBCROWs one behind the other, from
/// the first of these bytes on: row by row, at the front of `places`. Also how many rows these are, and
/// what stands behind them: no byte, a row that isn't whole, another token, or one more than there is
/// room for. It takes no memory.
pub fn places_of_rows(columns: &[RowColumn], bytes: &[u8], places: &mut [Place]) -> RowsPlaced
    ensures exact { RowsFound result (column_shapes columns.now) bytes.now places.new }
    // There are as many as before, and those stay that are behind the rows and one row more.
    ensures length { length places.new ≡ length places.old }
    ensures others { drop (result.rows * length columns.now + length columns.now) places.new
        ≡ drop (result.rows * length columns.now + length columns.now) places.old }
{
    let mut rows = 0usize;
    let mut written = 0usize;
    let mut done = 0usize;
    'rows: while done < bytes.len() {
        if places.len() - written < columns.len() {
            return RowsPlaced {
                rows,
                taken: done,
                stop: Some(RowFault::NoRoom),
            };
        }
        match row_at(columns, done, bytes, &mut places[written..]) {
            Ok(end) => done = end,
            Err(fault) => {
                return RowsPlaced {
                    rows,
                    taken: done,
                    stop: Some(fault),
                };
            }
        }
        rows += 1;
        written += columns.len();
    }
    RowsPlaced {
        rows,
        taken: done,
        stop: None,
    }
}
