//! A scene painted in characters, 100 a line at most.

mod lanes;
mod legend;

use crate::breaking::cut_to;
use crate::characters::legend::put_legend;
use crate::joining::put_all;
use crate::scene::{
    BarMark, FlightEnd, Label, Line, Look, Panel, PlaceMark, Row, Scene, Sheet, Sort, Spot,
};
use crate::widths::Widths;
use std::alloc::{AllocError, Global};
use std::fmt::Write;

/// How wide a line is, and where its columns begin.
const WIDTH: usize = 100;

const PLACE: usize = 21;

const NOTES: usize = 24;

const CLIENT: usize = 44;

pub(crate) const SERVER: usize = 77;

const SERVER_NOTES: usize = 79;

/// The room that texts have in characters.
pub const CHARACTER_WIDTHS: Widths = Widths {
    event: 16,
    place: 20,
    client: 19,
    server: 20,
};

/// Paints a scene in characters: of each sheet the first panel.
pub fn paint_characters(alloc: Global, scene: &Scene) -> Result<String, AllocError> {
    let mut text = String::new(alloc);
    put_scene(alloc, &mut text, scene)?;
    Ok(text)
}

fn put_scene(alloc: Global, text: &mut String, scene: &Scene) -> Result<(), AllocError> {
    put_all(text, &[scene.head.as_str(), "\n"])?;
    for sheet in scene.sheets.iter() {
        text.push_str("\n")?;
        put_sheet(alloc, text, sheet)?;
    }
    put_below(text, scene.below.as_slice())?;
    put_legend(text, scene)
}

/// Appends a sheet's first panel: characters have no room for two side by side.
fn put_sheet(alloc: Global, text: &mut String, sheet: &Sheet) -> Result<(), AllocError> {
    let Some(panel) = sheet.panels.first() else {
        return Ok(());
    };
    let mut canvas = Canvas {
        lines: Vec::new(alloc),
        lanes: Vec::new(alloc),
    };
    canvas.paint(alloc, panel, sheet.rows.as_slice())?;
    canvas.put(text)?;
    match sheet.note.is_empty() {
        true => Ok(()),
        false => put_all(text, &[sheet.note.as_str(), "\n"]),
    }
}

/// Appends the lines below the sheets.
fn put_below(text: &mut String, below: &[String]) -> Result<(), AllocError> {
    if !below.is_empty() {
        text.push_str("\n")?;
    }
    for line in below {
        put_all(text, &[line.as_str(), "\n"])?;
    }
    Ok(())
}

/// The lines of a panel.
#[derive(Drop)]
pub(crate) struct Canvas {
    lines: Vec<[u8; WIDTH]>,
    /// Whether a lane goes through each place.
    lanes: Vec<[u8; WIDTH]>,
}

impl Canvas {
    /// Paints a panel: what runs down first, and texts last.
    fn paint(&mut self, alloc: Global, panel: &Panel, rows: &[Row]) -> Result<(), AllocError> {
        self.paint_lines(alloc, panel)?;
        for row in rows {
            self.paint_row(alloc, row)?;
        }
        self.paint_flights(alloc, panel.flights.as_slice())?;
        self.paint_labels(alloc, panel)
    }

    fn paint_lines(&mut self, alloc: Global, panel: &Panel) -> Result<(), AllocError> {
        for line in panel.lines.iter() {
            self.lines.push([b' '; WIDTH])?;
            self.lanes.push([b' '; WIDTH])?;
            self.paint_line(alloc, line)?;
        }
        Ok(())
    }

    fn paint_labels(&mut self, alloc: Global, panel: &Panel) -> Result<(), AllocError> {
        for label in panel.labels.iter() {
            let place = match panel.lines.get(label.line) {
                Some(line) => line.place,
                None => PlaceMark::Nothing,
            };
            self.paint_label(alloc, label, place)?;
        }
        Ok(())
    }

    /// Appends the lines, without the spaces at their ends.
    fn put(&self, text: &mut String) -> Result<(), AllocError> {
        for line in self.lines.iter() {
            put_trimmed(text, line.as_slice())?;
        }
        Ok(())
    }

    pub(crate) fn set(&mut self, line: usize, column: usize, byte: u8) {
        set_byte(self.lines.as_mut_slice(), line, column, byte);
    }

    pub(crate) fn write(&mut self, line: usize, column: usize, text: &str) {
        for (index, byte) in text.as_bytes().iter().enumerate() {
            self.set(line, column.saturating_add(index), *byte);
        }
    }

    pub(crate) fn is_lane(&self, line: usize, column: usize) -> bool {
        let Some(lanes) = self.lanes.get(line) else {
            return false;
        };
        matches!(lanes.get(column), Some(b'|'))
    }

    /// Paints a place of a lane.
    pub(crate) fn set_lane(&mut self, line: usize, column: usize, byte: u8) {
        self.set(line, column, byte);
        set_byte(self.lanes.as_mut_slice(), line, column, b'|');
    }

    /// Paints from a column to behind another one, but over no lane.
    pub(crate) fn run(&mut self, line: usize, from: usize, to: usize, byte: u8) {
        for column in from..to {
            if !self.is_lane(line, column) {
                self.set(line, column, byte);
            }
        }
    }

    /// Paints what runs down through the line that was put last.
    fn paint_line(&mut self, alloc: Global, line: &Line) -> Result<(), AllocError> {
        let index = self.lines.len().saturating_sub(1);
        if line.is_rule {
            self.run(index, PLACE.saturating_add(1), WIDTH, b'=');
        }
        self.set(index, PLACE, place_byte(line.place));
        self.paint_bar(alloc, index, CLIENT, line.client, "client")?;
        self.paint_bar(alloc, index, SERVER, line.server, "server")
    }

    fn paint_bar(
        &mut self,
        alloc: Global,
        line: usize,
        column: usize,
        mark: BarMark,
        end: &str,
    ) -> Result<(), AllocError> {
        match mark {
            BarMark::Nothing => Ok(()),
            BarMark::Opened(conn) => self.paint_opened(alloc, line, column, (end, conn)),
            _ => {
                self.set(line, column, bar_byte(mark));
                Ok(())
            }
        }
    }

    /// Paints the name of an end of a connection, with its number.
    fn paint_opened(
        &mut self,
        alloc: Global,
        line: usize,
        column: usize,
        name: (&str, u32),
    ) -> Result<(), AllocError> {
        let (end, conn) = name;
        let text = format!(in alloc; "({end} {conn})")?;
        self.write(line, column.saturating_sub(4), text.as_str());
        Ok(())
    }

    fn paint_row(&mut self, alloc: Global, row: &Row) -> Result<(), AllocError> {
        let text = row_text(alloc, row)?;
        self.write(row.line, 0, text.as_str());
        Ok(())
    }

    fn paint_label(
        &mut self,
        alloc: Global,
        label: &Label,
        place: PlaceMark,
    ) -> Result<(), AllocError> {
        let text = label_text(alloc, label, place)?;
        let text = text.as_str();
        let line = label.line;
        let right = CLIENT.saturating_sub(1).saturating_sub(text.len());
        if label.is_last {
            self.paint_arrow(label.spot, line, right, NOTES.saturating_add(text.len()));
        }
        match label.spot {
            Spot::Place | Spot::Asked => self.write(line, NOTES, text),
            Spot::Server => self.write(line, SERVER_NOTES, text),
            Spot::Client | Spot::Told => self.write(line, right, text),
        }
        Ok(())
    }

    /// Paints the arrow between a caller and its client: of what is told up to this column, of what is asked from
    /// behind that one on.
    fn paint_arrow(&mut self, spot: Spot, line: usize, to: usize, from: usize) {
        let first = PLACE.saturating_add(1);
        match spot {
            Spot::Asked => {
                self.set(line, first, b'-');
                self.run(line, from.saturating_add(1), CLIENT, b'-');
                self.set(line, CLIENT.saturating_sub(1), b'>');
            }
            Spot::Told => {
                self.run(line, first, to.saturating_sub(1), b'-');
                self.set(line, first, b'<');
            }
            Spot::Place | Spot::Client | Spot::Server => {}
        }
    }
}

/// An event with its number, cut to the column of the rows.
fn row_text(alloc: Global, row: &Row) -> Result<String, AllocError> {
    let text = numbered(alloc, row)?;
    cut_to(alloc, text.as_str(), PLACE.saturating_sub(1))
}

fn numbered(alloc: Global, row: &Row) -> Result<String, AllocError> {
    match row.number {
        Some(number) => format!(in alloc; "{number:3} {}", row.text),
        None => format!(in alloc; "    {}", row.text),
    }
}

/// A label with its number, what its look adds, and at a caller the lease or ticket that begins in its line.
fn label_text(alloc: Global, label: &Label, place: PlaceMark) -> Result<String, AllocError> {
    let mut text = String::new(alloc);
    put_label(&mut text, label, place)?;
    Ok(text)
}

fn put_label(text: &mut String, label: &Label, place: PlaceMark) -> Result<(), AllocError> {
    if label.spot == Spot::Place {
        put_place(text, place)?;
    }
    if label.has_badge {
        write!(text, "{}:", label.request)?;
    }
    let before = match label.look {
        Look::Struck if label.is_first => "x ",
        Look::Pill if label.is_first => "[",
        _ => "",
    };
    let behind = match label.look {
        Look::Pill if label.is_last => "]",
        _ => "",
    };
    put_all(text, &[before, label.text.as_str(), behind])
}

/// Appends the lease or the ticket that begins.
fn put_place(text: &mut String, place: PlaceMark) -> Result<(), AllocError> {
    match place {
        PlaceMark::LeaseBegins(lease) => write!(text, "lease {lease}: "),
        PlaceMark::TicketBegins(ticket) => write!(text, "ticket {ticket}: "),
        _ => Ok(()),
    }
}

/// Appends a line without the spaces at its end. One of spaces alone keeps one.
fn put_trimmed(text: &mut String, line: &[u8]) -> Result<(), AllocError> {
    let end = line.iter().rposition(|byte| *byte != b' ').unwrap_or(0);
    for byte in line.get(..=end).unwrap_or(&[]) {
        text.push(char::from((*byte).min(126)))?;
    }
    text.push_str("\n")
}

/// Puts a byte into a line, where there is a place for it.
fn set_byte(lines: &mut [[u8; WIDTH]], line: usize, column: usize, byte: u8) {
    let Some(line) = lines.get_mut(line) else {
        return;
    };
    if let Some(place) = line.get_mut(column) {
        *place = byte;
    }
}

pub(crate) fn place_byte(mark: PlaceMark) -> u8 {
    match mark {
        PlaceMark::Nothing => b' ',
        PlaceMark::LeaseBegins(_) | PlaceMark::Lease => b'|',
        PlaceMark::TicketBegins(_) | PlaceMark::Ticket => b':',
        PlaceMark::DrainingBegins | PlaceMark::Draining => b'~',
    }
}

pub(crate) fn bar_byte(mark: BarMark) -> u8 {
    match mark {
        BarMark::Nothing | BarMark::Opened(_) => b' ',
        BarMark::Life => b'|',
        BarMark::Passing => b'+',
        BarMark::Busy => b'#',
        BarMark::Cancelling => b'!',
        BarMark::Cut => b'X',
    }
}
