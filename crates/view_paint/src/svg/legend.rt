//! What the marks of an SVG picture mean: each that occurs, at its foot.

use crate::scene::{BarMark, FlightEnd, Look, Panel, PlaceMark, Scene, Sort};
use crate::svg::marks::{Area, put_cross, put_cut, put_line, put_rect, put_round, put_text};
use std::alloc::AllocError;

/// How high a line is.
const LINE: usize = 17;

/// A mark that is explained.
#[derive(Clone, Copy)]
enum Told {
    Leased,
    Kept,
    Draining,
    Passing,
    Busy,
    Cancelling,
    Urgent,
    Ignored,
    Thrown,
    Part,
    Underway,
    State,
    Cut,
    Restart,
}

const LEGEND: [(Told, &str); 14] = [
    (Told::Leased, "a caller has the connection, by its lease"),
    (
        Told::Kept,
        "kept with its transaction, for whoever has the ticket",
    ),
    (
        Told::Draining,
        "given back; nobody is lent it before the client is idle",
    ),
    (Told::Passing, "sends a request, or takes one"),
    (Told::Busy, "reads an answer, or works on one"),
    (Told::Cancelling, "cancelling: waits for DONE attn"),
    (Told::Urgent, "an attention, or its acknowledgement"),
    (
        Told::Ignored,
        "the end of a request that is to be forgotten",
    ),
    (
        Told::Thrown,
        "read, but thrown away: its caller gets nothing of it",
    ),
    (Told::Part, "a part of a packet has come, not yet the whole"),
    (Told::Underway, "still underway where the picture ends"),
    (
        Told::State,
        "left: what the client hears of its transaction, or must ask for next; right: the session",
    ),
    (
        Told::Cut,
        "the connection is cut, and what is underway is lost",
    ),
    (Told::Restart, "a restart of the server or of the client"),
];

/// Appends what is told at the foot of what occurs, and answers where it ends.
pub(crate) fn put_legend(
    body: &mut String,
    scene: &Scene,
    bottom: usize,
) -> Result<usize, AllocError> {
    let mut y = bottom;
    for (told, text) in &LEGEND {
        if occurs(scene, *told) {
            y = y.saturating_add(LINE);
            put_example(body, y, *told)?;
            put_text(body, 52, y, "muted", text)?;
        }
    }
    Ok(y)
}

/// Whether something occurs in a panel of the scene.
fn occurs(scene: &Scene, told: Told) -> bool {
    for sheet in scene.sheets.iter() {
        for panel in sheet.panels.iter() {
            if occurs_in(panel, told) {
                return true;
            }
        }
    }
    false
}

fn occurs_in(panel: &Panel, told: Told) -> bool {
    match told {
        Told::Leased | Told::Kept | Told::Draining => has_place(panel, told),
        Told::Passing => has_bar(panel, BarMark::Passing),
        Told::Busy => has_bar(panel, BarMark::Busy),
        Told::Cancelling => has_bar(panel, BarMark::Cancelling),
        Told::Cut => has_bar(panel, BarMark::Cut),
        Told::Urgent | Told::Ignored | Told::Thrown | Told::Part | Told::Underway => {
            has_flight(panel, told)
        }
        Told::State => has_state(panel),
        Told::Restart => has_rule(panel),
    }
}

/// Whether the caller's column shows this in a line.
fn has_place(panel: &Panel, told: Told) -> bool {
    for line in panel.lines.iter() {
        let has = match line.place {
            PlaceMark::Nothing => false,
            PlaceMark::LeaseBegins(_) | PlaceMark::Lease => matches!(told, Told::Leased),
            PlaceMark::TicketBegins(_) | PlaceMark::Ticket => matches!(told, Told::Kept),
            PlaceMark::DrainingBegins | PlaceMark::Draining => matches!(told, Told::Draining),
        };
        if has {
            return true;
        }
    }
    false
}

/// Whether a bar of either end has this mark in a line.
fn has_bar(panel: &Panel, mark: BarMark) -> bool {
    for line in panel.lines.iter() {
        if line.client == mark || line.server == mark {
            return true;
        }
    }
    false
}

fn has_rule(panel: &Panel) -> bool {
    for line in panel.lines.iter() {
        if line.is_rule {
            return true;
        }
    }
    false
}

fn has_state(panel: &Panel) -> bool {
    for label in panel.labels.iter() {
        if label.look == Look::Pill {
            return true;
        }
    }
    false
}

/// Whether a packet shows this mark.
fn has_flight(panel: &Panel, told: Told) -> bool {
    for flight in panel.flights.iter() {
        let has = match told {
            Told::Urgent => matches!(flight.sort, Sort::Attention | Sort::Acknowledgement),
            Told::Ignored => flight.sort == Sort::Ignore,
            Told::Thrown => matches!(flight.end, FlightEnd::Thrown(_)),
            Told::Underway => matches!(flight.end, FlightEnd::Underway(_)),
            _ => !flight.parts.is_empty(),
        };
        if has {
            return true;
        }
    }
    false
}

/// Appends how a mark looks, beside what is told of it at this height.
fn put_example(body: &mut String, y: usize, told: Told) -> Result<(), AllocError> {
    let middle = y.saturating_sub(4);
    let (from, to) = ((12, middle), (42, middle));
    match told {
        Told::Leased => put_bar(body, (17, y), 20, &["leased"]),
        Told::Kept => put_bar(body, (17, y), 20, &["kept"]),
        Told::Draining => put_bar(body, (17, y), 20, &["draining"]),
        Told::Passing => put_bar(body, (23, y), 8, &["sending sk"]),
        Told::Busy => put_bar(body, (23, y), 8, &["reading fk sk"]),
        Told::Cancelling => put_bar(body, (23, y), 8, &["cancelling sk"]),
        Told::Urgent => put_line(body, from, to, ("urgent", "h", "k")),
        Told::Ignored => put_line(body, from, to, ("dropped", "h", "k")),
        Told::Thrown => put_line(body, from, to, ("plain", "x", "k")),
        Told::Part => put_line(body, from, to, ("piece", "p", "k")),
        Told::Underway => put_line(body, from, to, ("plain", "o", "k")),
        Told::State => put_pill(body, y),
        Told::Cut => put_cross(body, 27, middle),
        Told::Restart => put_cut(body, 12, 42, middle),
    }
}

/// Appends a bar of a caller or of an end: its left end at its foot, and its width.
fn put_bar(
    body: &mut String,
    foot: (usize, usize),
    width: usize,
    class: &[&str],
) -> Result<(), AllocError> {
    let (x, y) = foot;
    let area = Area {
        x,
        y: y.saturating_sub(11),
        width,
        height: 15,
    };
    put_rect(body, area, class)
}

/// Appends a state without a text.
fn put_pill(body: &mut String, y: usize) -> Result<(), AllocError> {
    let area = Area {
        x: 12,
        y: y.saturating_sub(11),
        width: 30,
        height: 15,
    };
    put_round(body, area, "7", &["st"])
}
