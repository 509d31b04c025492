//! Where each value of a row stands (MS-TDS 2.2.7.15, 2.2.7.19), and what the columns are (2.2.7.4), in the
//! bytes of a token that is whole. Nothing is copied, and no memory is taken: the caller hands in room.
#![tactic(auto)]

mod columns;
mod come;
mod fields;
mod keys;
mod laws;
mod numbers;
mod parts;
mod pieces;
mod place;
mod rows;
mod short;
mod types;
mod values;

pub use columns::columns_of;
pub use come::{Come, row_values};
pub use laws::{
    columns_are_those_of_the_layout, parts_end_where_the_layout_ends_them, places_divide_rows,
    places_stay_as_bytes_come, rows_are_those_of_the_layout,
};
pub use pieces::{PartsReader, Piece};
pub use place::{Described, Place, RowColumn, RowFault, RowsPlaced};
pub use rows::{places_of_rows, row_places, short_row};
