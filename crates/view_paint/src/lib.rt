//! A sequence picture: what it is made of, line by line, and how it is painted, as SVG or in characters.
//! Nothing here knows what a play is.
#![tactic(auto)]

mod breaking;
mod characters;
mod joining;
mod scene;
mod svg;
mod widths;

pub use breaking::{broken, cut_to};
pub use characters::{CHARACTER_WIDTHS, paint_characters};
pub use scene::{
    BarMark, Flight, FlightEnd, Label, Line, Look, Panel, PlaceMark, Row, Scene, Sheet, Sort, Spot,
};
pub use svg::{SVG_WIDTHS, paint_svg};
pub use widths::{Widths, digits};
