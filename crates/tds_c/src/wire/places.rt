//! The columns of a COLMETADATA, and where the values of a row stand.

ghost use Rattle.std.specs.Prelude.{◌≡◌, ◌<◌, ◌+◌, ◌*◌, ℕ, Err, Result, drop, false, length, take};
ghost use Rattle.tds_c.specs.Places.{TellsColumns, TellsCome, TellsRow, TellsRows, parts_number};
ghost use Rattle.tds_walk.specs.Wire.{truth};
ghost use Rattle.tds_rows.specs.Come.{ValuesCome};
ghost use Rattle.tds_rows.specs.Pieces.{PartsGoOn, parts_at};
ghost use Rattle.tds_rows.specs.declared.come.Come.{Come as AnyCome};
ghost use Rattle.tds_rows.specs.Finding.{Describes, PlacesFound, column_shapes};
ghost use Rattle.tds_rows.specs.declared.place.Described.{Described as AnyDescribed};
ghost use Rattle.tds_rows.specs.Many.{RowsFound};
ghost use Rattle.tds_rows.specs.declared.place.RowsPlaced.{RowsPlaced as AnyRows};
ghost use Rattle.tds_rows.specs.declared.place.RowFault.{RowFault as AnyFault};
ghost use Rattle.tds_rows.specs.declared.place.RowFault.TheVariants as faults;

use tds_rows::{
    Come, Described, PartsReader, Place, RowColumn, RowFault, RowsPlaced, columns_of,
    places_of_rows, row_places, row_values, short_row,
};
use tds_wire::Features;

/// The number of what was found of columns.
fn tell_columns(found: Result<Described, RowFault>, count: &mut usize, taken: &mut usize) -> u8
    ensures { TellsColumns found result count.new taken.new }
{
    *count = 0;
    *taken = 0;
    match found {
        Ok(described) => {
            *taken = described.length;
            match described.count {
                Some(columns) => {
                    *count = columns;
                    0
                }
                None => 2,
            }
        }
        Err(fault) => fault.number(),
    }
}

/// The columns that the COLMETADATA describes which bytes begin with, to the front of `columns`. 0, or
/// 2 where it describes none; 1 where it isn't whole, 71 where it is another token, 73 where a type is
/// unknown, 74 where there is less room than columns.
#[unsafe(no_mangle)]
pub extern "C" fn tds_columns(
    bytes: &[u8],
    encryption: u8,
    columns: &mut [RowColumn],
    count: &mut usize,
    taken: &mut usize,
) -> u8
    ensures { (found : Result AnyDescribed AnyFault)
        × TellsColumns found result count.new taken.new
        × Describes found (record { encryption = truth encryption; ranks = false })
        bytes.now columns.new
        × (length columns.new ≡ length columns.old) }
{
    let features = Features {
        encryption: encryption != 0,
        ranks: false,
    };
    tell_columns(columns_of(features, bytes, columns), count, taken)
}

/// The number of what was found of a row.
#[inline(always)]
fn tell_row(found: Result<usize, RowFault>, taken: &mut usize) -> u8
    ensures { TellsRow found result taken.new }
{
    match found {
        Ok(length) => {
            *taken = length;
            0
        }
        Err(fault) => {
            *taken = 0;
            fault.number()
        }
    }
}

/// Of any row. It isn't put into its caller, which finds short values without it.
#[inline(never)]
fn any_row(columns: &[RowColumn], bytes: &[u8], places: &mut [Place], taken: &mut usize) -> u8
    ensures { (found : Result ℕ AnyFault) × TellsRow found result taken.new
        × PlacesFound found (column_shapes columns.now) bytes.now places.new
        × (length places.old < length columns.now → found ≡ Err faults.NoRoom)
        × (length places.new ≡ length places.old)
        × (drop (length columns.now) places.new ≡ drop (length columns.now) places.old) }
{
    tell_row(row_places(columns, bytes, places), taken)
}

/// Where each value stands in the row that bytes begin with, a ROW or an NBCROW of these columns. 0; 1
/// where it isn't whole, 71 where it is another token, 72 where there are no columns, 74 where there is
/// less room than columns.
#[unsafe(no_mangle)]
pub extern "C" fn tds_row_places(
    columns: &[RowColumn],
    bytes: &[u8],
    places: &mut [Place],
    taken: &mut usize,
) -> u8
    ensures { (found : Result ℕ AnyFault) × TellsRow found result taken.new
        × PlacesFound found (column_shapes columns.now) bytes.now places.new
        × (length places.old < length columns.now → found ≡ Err faults.NoRoom)
        × (length places.new ≡ length places.old)
        × (drop (length columns.now) places.new ≡ drop (length columns.now) places.old) }
{
    match short_row(columns, bytes, places) {
        Some(length) => {
            *taken = length;
            0
        }
        None => any_row(columns, bytes, places, taken),
    }
}

/// The number of why rows end.
#[inline(always)]
fn tell_rows(found: RowsPlaced, rows: &mut usize, taken: &mut usize) -> u8
    ensures { TellsRows found result rows.new taken.new }
{
    *rows = found.rows;
    *taken = found.taken;
    match found.stop {
        Some(fault) => fault.number(),
        None => 0,
    }
}

/// Where each value stands in the rows that bytes begin with, ROWs and NBCROWs of these columns, one
/// behind the other, from the first of these bytes on: of `rows` rows, in `taken` bytes. 0 where no byte
/// is left; else what stands behind them: 1 a row that isn't whole, 71 another token, 72 a row, and there
/// are no columns, 74 more than there is room for.
#[unsafe(no_mangle)]
pub extern "C" fn tds_places_of_rows(
    columns: &[RowColumn],
    bytes: &[u8],
    places: &mut [Place],
    rows: &mut usize,
    taken: &mut usize,
) -> u8
    ensures { (found : AnyRows) × TellsRows found result rows.new taken.new
        × RowsFound found (column_shapes columns.now) bytes.now places.new
        × (length places.new ≡ length places.old)
        × (drop (rows.new * length columns.now + length columns.now) places.new
        ≡ drop (rows.new * length columns.now + length columns.now) places.old) }
{
    tell_rows(places_of_rows(columns, bytes, places), rows, taken)
}

/// The number of what has come of a row of so many columns.
fn tell_come(
    found: Result<Come, RowFault>,
    columns: usize,
    next: &mut usize,
    taken: &mut usize,
) -> u8
    ensures { TellsCome found columns result next.new taken.new }
{
    match found {
        Ok(come) => {
            *next = come.next;
            *taken = come.taken;
            if come.next == columns { 0 } else { 1 }
        }
        Err(fault) => {
            *next = 0;
            *taken = 0;
            fault.number()
        }
    }
}

/// Where each value stands that is whole, in bytes of a row that begin with the value of the column of this
/// number, from the first of these bytes on. `nulls` is the null bitmap of an NBCROW, and empty for a ROW. 0
/// where all values are whole; 1 where that of the column `next` isn't; 72 where there are fewer columns, 74
/// where there are fewer places, or bits.
#[unsafe(no_mangle)]
pub extern "C" fn tds_row_values(
    columns: &[RowColumn],
    first: usize,
    nulls: &[u8],
    bytes: &[u8],
    places: &mut [Place],
    next: &mut usize,
    taken: &mut usize,
) -> u8
    ensures { (found : Result AnyCome AnyFault)
        × TellsCome found (length columns.now) result next.new taken.new
        × ValuesCome found columns.now first nulls.now bytes.now places.new
        × (length places.new ≡ length places.old)
        × (take first places.new ≡ take first places.old)
        × (drop (length columns.now) places.new ≡ drop (length columns.now) places.old) }
{
    tell_come(
        row_values(columns, first, nulls, bytes, places),
        columns.len(),
        next,
        taken,
    )
}

/// Takes what comes next of a value in parts, from its first byte on, up to the end of a part: `count` bytes of
/// its own stand at `start`, and `taken` bytes are done with. 0 where it is over, 2 where it is over and null; 1
/// where there is more to come.
#[unsafe(no_mangle)]
pub extern "C" fn tds_parts_next(
    parts: &mut PartsReader,
    bytes: &[u8],
    start: &mut usize,
    count: &mut usize,
    taken: &mut usize,
) -> u8
    ensures on { PartsGoOn parts.old parts.new bytes.now
        (record { start = start.new; length = count.new; taken = taken.new }) }
    ensures answer { result ≡ parts_number (parts_at parts.new) }
{
    let piece = parts.next(bytes);
    *start = piece.start;
    *count = piece.length;
    *taken = piece.taken;
    if parts.is_null() {
        2
    } else if parts.is_over() {
        0
    } else {
        1
    }
}
