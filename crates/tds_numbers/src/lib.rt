//! What has a number, as a connection, found by halves among what stands by rising numbers. [`Numbers`] is a
//! table of up to 1,024, with the key of a slab beside each: at most 11 steps, and 7 among up to 64.
#![tactic(auto)]

mod finding;
mod numbers;
mod steps;

pub use finding::{Numbered, find_in};
pub use numbers::{Entry, MOST, Numbers, place_of};
pub use steps::Steps;
