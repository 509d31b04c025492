//! A play laid out and painted.

use crate::layout::{Arrangement, Choice, lay_out};
use std::alloc::{AllocError, Global};
use view_paint::{CHARACTER_WIDTHS, SVG_WIDTHS, paint_characters, paint_svg};
use view_trace::Exchange;

/// The play of a file of this name as a sequence picture in SVG.
pub fn draw_svg(
    alloc: Global,
    name: &str,
    exchange: &Exchange,
    choice: Choice,
    arrangement: Arrangement,
) -> Result<String, AllocError> {
    let scene = lay_out(alloc, name, exchange, choice, arrangement, SVG_WIDTHS)?;
    paint_svg(alloc, &scene)
}

/// A play as a sequence picture in characters.
pub fn draw_text(alloc: Global, exchange: &Exchange, choice: Choice) -> Result<String, AllocError> {
    // Characters have no room for two panels side by side.
    let scene = lay_out(
        alloc,
        "",
        exchange,
        choice,
        Arrangement::Below,
        CHARACTER_WIDTHS,
    )?;
    paint_characters(alloc, &scene)
}
