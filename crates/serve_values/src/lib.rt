//! The values of queries: literals, parameters, what a server tells of itself, and what `cast` and `convert`
//! make of them. [`columns_of`] reads the items of a `select`.
//!
//! A text is UTF-16 units; [`text`] has its pieces.
#![tactic(auto)]

mod casting;
mod encoding;
mod items;
mod kinds;
mod literals;
mod moment;
mod numbers;
mod owns;
mod parameters;
mod scalar;
pub mod text;

pub use items::{Found, Query, columns_of};
pub use moment::Moment;
pub use owns::Own;
pub use parameters::{MOST_VALUE, Parameter, Reading, TypedBytes};
pub use scalar::Refusal;
