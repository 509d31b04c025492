//! The marks that an SVG picture is made of.

use crate::joining::put_all;
use crate::widths::digits;
use std::alloc::AllocError;
use std::fmt::Write;

/// How wide a character is.
const CHARACTER: usize = 7;

/// How wide a text is.
pub(crate) fn wide(characters: usize) -> usize {
    characters.saturating_mul(CHARACTER)
}

/// The colour of a request.
pub(crate) fn color_of(request: u32) -> &'static str {
    match (request, request % 6) {
        (0, _) => "k",
        (_, 1) => "0",
        (_, 2) => "1",
        (_, 3) => "2",
        (_, 4) => "3",
        (_, 5) => "4",
        _ => "5",
    }
}

/// A rectangle, by its left edge and its upper one.
#[derive(Clone, Copy)]
pub(crate) struct Area {
    pub(crate) x: usize,
    pub(crate) y: usize,
    pub(crate) width: usize,
    pub(crate) height: usize,
}

/// Appends how an element begins, and each attribute that is a number.
pub(crate) fn put_start(
    body: &mut String,
    start: &str,
    numbers: &[(&str, usize)],
) -> Result<(), AllocError> {
    body.push_str(start)?;
    for (attribute, number) in numbers {
        write!(body, " {attribute}=\"{number}\"")?;
    }
    Ok(())
}

/// Appends a rectangle. What its class is comes in parts.
pub(crate) fn put_rect(body: &mut String, area: Area, class: &[&str]) -> Result<(), AllocError> {
    put_area(body, area)?;
    put_class(body, class)
}

/// Appends a rectangle with round corners.
pub(crate) fn put_round(
    body: &mut String,
    area: Area,
    radius: &str,
    class: &[&str],
) -> Result<(), AllocError> {
    put_area(body, area)?;
    put_all(body, &[" rx=\"", radius, "\""])?;
    put_class(body, class)
}

fn put_area(body: &mut String, area: Area) -> Result<(), AllocError> {
    let numbers = [
        ("x", area.x),
        ("y", area.y),
        ("width", area.width),
        ("height", area.height),
    ];
    put_start(body, "<rect", &numbers)
}

/// Appends a class, and the end of its element.
fn put_class(body: &mut String, class: &[&str]) -> Result<(), AllocError> {
    body.push_str(" class=\"")?;
    put_all(body, class)?;
    body.push_str("\"/>\n")
}

fn put_line_start(
    body: &mut String,
    from: (usize, usize),
    to: (usize, usize),
) -> Result<(), AllocError> {
    let numbers = [("x1", from.0), ("y1", from.1), ("x2", to.0), ("y2", to.1)];
    put_start(body, "<line", &numbers)
}

/// Appends an arrow of this class, head and colour.
pub(crate) fn put_line<'a>(
    body: &mut String,
    from: (usize, usize),
    to: (usize, usize),
    look: (&'a str, &'a str, &'a str),
) -> Result<(), AllocError> {
    let (class, head, color) = look;
    put_line_start(body, from, to)?;
    put_all(body, &[" class=\"arrow ", class, " s", color])?;
    put_all(body, &["\" marker-end=\"url(#", head, color, ")\"/>\n"])
}

/// Appends the line across at a restart.
pub(crate) fn put_cut(
    body: &mut String,
    left: usize,
    right: usize,
    y: usize,
) -> Result<(), AllocError> {
    put_line_start(body, (left, y), (right, y))?;
    put_class(body, &["cut"])
}

pub(crate) fn put_cross(body: &mut String, x: usize, y: usize) -> Result<(), AllocError> {
    let (left, right) = (x.saturating_sub(6), x.saturating_add(6));
    let (top, bottom) = (y.saturating_sub(6), y.saturating_add(6));
    body.push_str("<path d=\"")?;
    for (letter, x, y) in [
        ("M", left, top),
        ("L", right, bottom),
        ("M", left, bottom),
        ("L", right, top),
    ] {
        write!(body, "{letter}{x} {y}")?;
    }
    body.push_str("\" class=\"cut\"/>\n")
}

/// Appends what lies behind a text.
pub(crate) fn put_ground(
    body: &mut String,
    x: usize,
    y: usize,
    width: usize,
) -> Result<(), AllocError> {
    let area = Area {
        x,
        y,
        width,
        height: 14,
    };
    put_rect(body, area, &["lb"])
}

/// How wide a request's number is, with what lies behind it.
fn badge_wide(request: u32) -> usize {
    wide(digits(request)).saturating_add(6)
}

/// How far behind the left edge of a request's number its text begins.
pub(crate) fn behind_badge(request: u32) -> usize {
    badge_wide(request).saturating_add(4)
}

/// Appends a request's number.
pub(crate) fn put_badge(
    body: &mut String,
    x: usize,
    y: usize,
    request: u32,
) -> Result<(), AllocError> {
    let area = Area {
        x,
        y: y.saturating_sub(16),
        width: badge_wide(request),
        height: 14,
    };
    put_round(body, area, "3", &["f", color_of(request)])?;
    let number = request as usize;
    put_number(body, x.saturating_add(3), y.saturating_sub(5), "n", number)
}

/// Appends a number as a text.
pub(crate) fn put_number(
    body: &mut String,
    x: usize,
    y: usize,
    class: &str,
    number: usize,
) -> Result<(), AllocError> {
    put_text_start(body, x, y, class)?;
    writeln!(body, "{number}</text>")
}

/// Appends a name in its box.
pub(crate) fn put_name(
    body: &mut String,
    middle: usize,
    y: usize,
    class: &str,
    name: &str,
) -> Result<(), AllocError> {
    let width = wide(name.len()).saturating_add(8);
    let area = Area {
        x: middle.saturating_sub(width / 2),
        y: y.saturating_sub(15),
        width,
        height: 16,
    };
    put_round(body, area, "3", &["bg"])?;
    put_round(body, area, "3", &[class])?;
    put_text(body, middle, y.saturating_sub(3), "h m", name)
}

/// Appends a text.
pub(crate) fn put_text(
    body: &mut String,
    x: usize,
    y: usize,
    class: &str,
    text: &str,
) -> Result<(), AllocError> {
    put_text_start(body, x, y, class)?;
    put_escaped(body, text)?;
    body.push_str("</text>\n")
}

fn put_text_start(body: &mut String, x: usize, y: usize, class: &str) -> Result<(), AllocError> {
    put_start(body, "<text", &[("x", x), ("y", y)])?;
    put_all(body, &[" class=\"", class, "\">"])
}

/// Appends an ASCII text as XML has it.
pub(crate) fn put_escaped(body: &mut String, text: &str) -> Result<(), AllocError> {
    for byte in text.as_bytes() {
        match byte {
            b'&' => body.push_str("&amp;")?,
            b'<' => body.push_str("&lt;")?,
            b'>' => body.push_str("&gt;")?,
            _ => body.push(char::from((*byte).min(126)))?,
        }
    }
    Ok(())
}
