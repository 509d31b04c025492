//! A scene painted as SVG, in pixels.

mod columns;
mod legend;
mod marks;
mod panel;
mod plate;
mod style;

use crate::joining::put_all;
use crate::scene::{Scene, Sheet};
use crate::svg::legend::put_legend;
use crate::svg::marks::{color_of, put_escaped, put_start, put_text};
use crate::svg::plate::{put_sheet, width_of};
use crate::svg::style::STYLE;
use crate::widths::Widths;
use std::alloc::{AllocError, Global};
use std::fmt::Write;

/// Where the first row begins.
const TOP: usize = 34;

/// What stands between two sheets, and how high a line is.
const BETWEEN: usize = 16;

const LINE: usize = 17;

/// The room that texts have in SVG.
pub const SVG_WIDTHS: Widths = Widths {
    event: 18,
    place: 25,
    client: 26,
    server: 29,
};

/// The heads of arrows: whole, in part, thrown away or lost, and underway. Of each its letter, where it is held, and how
/// it is drawn, up to its colour.
const HEADS: [(&str, &str, &str); 4] = [
    ("h", "10", "<path d=\"M0 0L10 5L0 10Z\" class=\"f"),
    ("p", "9", "<path d=\"M3 1L9 5L3 9\" class=\"arrow s"),
    ("x", "5", "<path d=\"M1 1L9 9M1 9L9 1\" class=\"arrow s"),
    ("o", "5", "<circle cx=\"5\" cy=\"5\" r=\"4\" class=\"bg s"),
];

/// Paints a scene as SVG.
pub fn paint_svg(alloc: Global, scene: &Scene) -> Result<String, AllocError> {
    let mut body = String::new(alloc);
    let bottom = put_body(alloc, &mut body, scene)?;
    framed(alloc, scene, body.as_str(), bottom)
}

/// Appends all but what stands before it, and answers where it ends.
fn put_body(alloc: Global, body: &mut String, scene: &Scene) -> Result<usize, AllocError> {
    let width = width_of(scene.width);
    let mut bottom = TOP;
    for sheet in scene.sheets.iter() {
        let end = put_sheet(alloc, body, sheet, bottom, width)?;
        let end = put_note(body, sheet, end)?;
        bottom = end.saturating_add(BETWEEN);
    }
    for line in scene.below.iter() {
        bottom = bottom.saturating_add(LINE);
        put_text(body, 12, bottom, "muted", line.as_str())?;
    }
    put_legend(body, scene, bottom)
}

/// Appends what a sheet leaves out that ends at this height, and answers where that ends.
fn put_note(body: &mut String, sheet: &Sheet, bottom: usize) -> Result<usize, AllocError> {
    if sheet.note.is_empty() {
        return Ok(bottom);
    }
    let bottom = bottom.saturating_add(LINE);
    put_text(body, 12, bottom, "muted", sheet.note.as_str())?;
    Ok(bottom)
}

/// The picture around its body, which ends at this height.
fn framed(alloc: Global, scene: &Scene, body: &str, bottom: usize) -> Result<String, AllocError> {
    let mut picture = String::new(alloc);
    put_head(&mut picture, scene, bottom.saturating_add(12))?;
    put_all(&mut picture, &[body, "</svg>\n"])?;
    Ok(picture)
}

fn put_head(picture: &mut String, scene: &Scene, height: usize) -> Result<(), AllocError> {
    let width = width_of(scene.width);
    put_start(
        picture,
        "<svg xmlns=\"http://www.w3.org/2000/svg\"",
        &[("width", width), ("height", height)],
    )?;
    writeln!(picture, " viewBox=\"0 0 {width} {height}\" role=\"img\">")?;
    put_definitions(picture, scene)?;
    put_start(picture, "<rect", &[("width", width), ("height", height)])?;
    picture.push_str(" class=\"bg\"/>\n")?;
    put_text(picture, 12, 20, "muted", scene.head.as_str())
}

/// Appends what shows nothing by itself: the title, what is heard, the style sheet, and the heads of the arrows.
fn put_definitions(picture: &mut String, scene: &Scene) -> Result<(), AllocError> {
    picture.push_str("<title>")?;
    put_escaped(picture, scene.title.as_str())?;
    picture.push_str("</title>\n<desc>")?;
    put_escaped(picture, scene.description.as_str())?;
    put_all(picture, &["</desc>\n<style>", STYLE, "</style>\n<defs>"])?;
    for color in ["0", "1", "2", "3", "4", "5", "k"] {
        if has_color(scene, color) {
            put_markers(picture, color)?;
        }
    }
    picture.push_str("</defs>\n")
}

/// Whether something has this colour; the legend always has its own.
fn has_color(scene: &Scene, color: &str) -> bool {
    for sheet in scene.sheets.iter() {
        for panel in sheet.panels.iter() {
            if panel
                .lines
                .iter()
                .any(|line| color_of(line.request) == color)
            {
                return true;
            }
        }
    }
    color == "k"
}

/// Appends the heads of the arrows of a colour.
fn put_markers(picture: &mut String, color: &str) -> Result<(), AllocError> {
    for (letter, place, shape) in &HEADS {
        put_all(
            picture,
            &[
                "<marker id=\"",
                letter,
                color,
                "\" viewBox=\"0 0 10 10\" refX=\"",
                place,
                "\" refY=\"5\" markerWidth=\"10\" markerHeight=\"10\" ",
                "markerUnits=\"userSpaceOnUse\" orient=\"auto\">",
                shape,
                color,
                "\"/></marker>",
            ],
        )?;
    }
    Ok(())
}
