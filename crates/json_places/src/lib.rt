//! Where in a JSON file something stands, and why bytes are no JSON: what a line of the form
//! `NAME:LINE:COLUMN: ..` needs.
#![tactic(auto)]

mod findings;
mod json;
mod keys;
mod outline;
mod page;
mod places;
mod values;

pub use findings::Findings;
pub use json::put_json_fault;
pub use keys::{Key, Takes, put_doubled, put_misfit, put_unknown_keys, put_value_fault};
pub use outline::{Member, Outline};
pub use page::Page;
pub use places::{Place, parts_of, put_place, spelled_at, unit_at, value_at};
pub use values::{put_standing, put_text, put_value};
