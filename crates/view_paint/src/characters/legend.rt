//! What the marks of a picture in characters mean: each that occurs, at its foot.

use crate::characters::{bar_byte, place_byte};
use crate::scene::{FlightEnd, Look, Panel, Scene, Sort};
use std::alloc::AllocError;

/// What a mark of the picture means, where it occurs.
const LEGEND: [(u8, &str); 14] = [
    (
        b'|',
        "| at the left: a caller has the connection, by its lease\n",
    ),
    (
        b':',
        ": at the left: kept with its transaction, for whoever has the ticket\n",
    ),
    (
        b'-',
        "~ at the left: given back; nobody is lent it before the client is idle\n",
    ),
    (b'+', "+ sends or takes a request\n"),
    (b'#', "# reads or works\n"),
    (b'!', "! cancelling: waits for DONE attn\n"),
    (b'=', "=== an attention, or its acknowledgement\n"),
    (b'~', "~~~ the end of a request that is to be forgotten\n"),
    (b'x', "x thrown away\n"),
    (b'.', ". . a part has come\n"),
    (b'o', "o still underway\n"),
    (
        b'[',
        "[ ] left: the client's transaction, or what it must ask for next; right: the session\n",
    ),
    (
        b'X',
        "X the connection is cut, and what is underway is lost\n",
    ),
    (
        b'_',
        "===== across: a restart of the server or of the client\n",
    ),
];

/// Appends what the marks mean that occur.
pub(crate) fn put_legend(text: &mut String, scene: &Scene) -> Result<(), AllocError> {
    let mut is_first = true;
    for (mark, meaning) in &LEGEND {
        if !occurs(scene, *mark) {
            continue;
        }
        if is_first {
            text.push_str("\n")?;
            is_first = false;
        }
        text.push_str(meaning)?;
    }
    Ok(())
}

/// Whether a mark of the legend occurs in what is painted.
fn occurs(scene: &Scene, mark: u8) -> bool {
    for sheet in scene.sheets.iter() {
        if let Some(panel) = sheet.panels.first() {
            if has_mark(panel, mark) {
                return true;
            }
        }
    }
    false
}

fn has_mark(panel: &Panel, mark: u8) -> bool {
    match mark {
        b'=' | b'~' | b'x' | b'.' | b'o' => has_flight(panel, mark),
        b'[' => has_state(panel),
        _ => has_line(panel, mark),
    }
}

/// Whether a packet shows a mark.
fn has_flight(panel: &Panel, mark: u8) -> bool {
    for flight in panel.flights.iter() {
        let has = match mark {
            b'=' => matches!(flight.sort, Sort::Attention | Sort::Acknowledgement),
            b'~' => flight.sort == Sort::Ignore,
            b'x' => matches!(flight.end, FlightEnd::Thrown(_)),
            b'o' => matches!(flight.end, FlightEnd::Underway(_)),
            _ => !flight.parts.is_empty(),
        };
        if has {
            return true;
        }
    }
    false
}

fn has_state(panel: &Panel) -> bool {
    for label in panel.labels.iter() {
        if label.look == Look::Pill {
            return true;
        }
    }
    false
}

/// Whether a line shows the mark of a bar; `_` stands for a restart, `-` for the caller's mark of what drains.
fn has_line(panel: &Panel, mark: u8) -> bool {
    for line in panel.lines.iter() {
        let has = match mark {
            b'_' => line.is_rule,
            b'|' | b':' => place_byte(line.place) == mark,
            b'-' => place_byte(line.place) == b'~',
            _ => bar_byte(line.client) == mark || bar_byte(line.server) == mark,
        };
        if has {
            return true;
        }
    }
    false
}
