//! A play as a sequence picture: who is lent a connection, what is asked, which packet leaves where
//! and comes where, what the caller is given, and what is thrown away. A play is laid out as a scene
//! of `view_paint`, which is painted there.
#![tactic(auto)]

mod answers;
mod arrivals;
mod departures;
mod drawing;
mod hearing;
mod layout;
mod lines;
mod pictures;
mod rows;
mod sheets;
mod wording;

pub use layout::{Arrangement, Choice};
pub use pictures::{draw_svg, draw_text};
