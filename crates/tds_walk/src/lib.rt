//! A walk over an answer's bytes, and each token that ends in them, as plain values: what crosses to C.
//!
//! `include/tds_wire.h` says what a caller of the exports owes; these stand in `tds_c`.
#![tactic(auto)]

mod calls;
mod due;
mod fields;
mod taking;
mod token;
mod walk;
mod whole;
mod within;

pub use calls::{begin, is_between, next, restart};
pub use due::TdsWireDue;
pub use taking::{begin_anew, take_token};
pub use token::{TdsWirePlace, TdsWireToken, put_shown};
pub use walk::{TdsWire, TdsWireInside, TdsWireRefusal};
