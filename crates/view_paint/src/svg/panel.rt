//! A panel painted as SVG: its packets and texts.

use crate::scene::{BarMark, Flight, FlightEnd, Label, Line, Look, Panel, PlaceMark, Sort, Spot};
use crate::svg::marks::{
    Area, behind_badge, color_of, put_badge, put_ground, put_line, put_name, put_round, put_text,
    wide,
};
use crate::svg::plate::Plate;
use std::alloc::{AllocError, Global};
use tds_packet::Direction;

/// In a panel, the middle of the caller's column; the left edges of the client and of the server.
const PLACE: usize = 31;

const CLIENT: usize = 252;

const SERVER: usize = 458;

/// Where the wire begins, and its middle.
const WIRE: usize = 260;

const WIRE_MIDDLE: usize = 359;

/// A panel on its plate.
#[derive(Drop)]
pub(crate) struct Painted<'a> {
    pub(crate) alloc: Global,
    pub(crate) plate: &'a Plate<'a>,
    pub(crate) panel: &'a Panel,
    /// Its left edge.
    left: usize,
}

impl<'a> Painted<'a> {
    pub(crate) fn new(
        alloc: Global,
        plate: &'a Plate<'a>,
        panel: &'a Panel,
        left: usize,
    ) -> Painted<'a> {
        Painted {
            alloc,
            plate,
            panel,
            left,
        }
    }

    pub(crate) fn place(&self) -> usize {
        self.left.saturating_add(PLACE)
    }

    pub(crate) fn client(&self) -> usize {
        self.left.saturating_add(CLIENT)
    }

    pub(crate) fn server(&self) -> usize {
        self.left.saturating_add(SERVER)
    }

    fn wire(&self) -> usize {
        self.left.saturating_add(WIRE)
    }

    fn wire_middle(&self) -> usize {
        self.left.saturating_add(WIRE_MIDDLE)
    }

    /// Appends the panel: what lies below first.
    pub(crate) fn put(&self, body: &mut String) -> Result<(), AllocError> {
        self.put_columns(body)?;
        self.put_arrows(body)?;
        for (index, line) in self.panel.lines.iter().enumerate() {
            self.put_names(body, self.plate.at(index), line)?;
        }
        self.put_texts(body)
    }

    fn put_arrows(&self, body: &mut String) -> Result<(), AllocError> {
        for flight in self.panel.flights.iter() {
            self.put_flight(body, flight)?;
        }
        for label in self.panel.labels.iter() {
            self.put_arrow(body, label)?;
        }
        Ok(())
    }

    fn put_texts(&self, body: &mut String) -> Result<(), AllocError> {
        for flight in self.panel.flights.iter() {
            self.put_flight_label(body, flight)?;
            self.put_note(body, flight)?;
        }
        for label in self.panel.labels.iter() {
            self.put_label(body, label)?;
        }
        Ok(())
    }

    /// Appends a packet's arrow, and those of its parts.
    fn put_flight(&self, body: &mut String, flight: &Flight) -> Result<(), AllocError> {
        let color = color_of(flight.request);
        let y = match flight.from {
            Some(line) => self.plate.at(line),
            None => self.plate.top(),
        };
        let (x, to) = match flight.direction {
            Direction::ToServer => (self.wire(), self.server()),
            Direction::ToClient => (self.server(), self.wire()),
        };
        for line in flight.parts.iter() {
            let end = (to, self.plate.at(*line));
            put_line(body, (x, y), end, ("piece", "p", color))?;
        }
        let Some((end, line, head)) = self.end_of(flight) else {
            return Ok(());
        };
        let class = class_of(flight.sort);
        let end = (end, self.plate.at(line));
        put_line(body, (x, y), end, (class, head, color))
    }

    /// Where a packet's arrow ends, in which line, and its head.
    fn end_of(&self, flight: &Flight) -> Option<(usize, usize, &'static str)> {
        let (to, before) = match flight.direction {
            Direction::ToServer => (self.server(), self.server().saturating_sub(7)),
            Direction::ToClient => (self.wire(), self.wire().saturating_add(7)),
        };
        match flight.end {
            FlightEnd::Came(line) => Some((to, line, "h")),
            FlightEnd::Thrown(line) => Some((before, line, "x")),
            FlightEnd::Underway(line) => Some((self.wire_middle(), line, "o")),
            FlightEnd::Lost(line) => Some((self.wire_middle(), line, "x")),
            FlightEnd::Hidden(_) | FlightEnd::Open => None,
        }
    }

    /// Appends the arrow between a caller and its client.
    fn put_arrow(&self, body: &mut String, label: &Label) -> Result<(), AllocError> {
        if !label.is_last {
            return Ok(());
        }
        let y = self.plate.at(label.line);
        let color = color_of(label.request);
        let caller = (self.place().saturating_add(10), y);
        let client = (self.client(), y);
        match label.spot {
            Spot::Asked => put_line(body, caller, client, ("plain", "h", color)),
            Spot::Told => put_line(body, client, caller, ("plain", "h", color)),
            Spot::Place | Spot::Client | Spot::Server => Ok(()),
        }
    }

    /// Appends the names of what begins in a line.
    fn put_names(&self, body: &mut String, y: usize, line: &Line) -> Result<(), AllocError> {
        self.put_opened(body, self.client(), y, line.client, "client")?;
        self.put_opened(body, self.server(), y, line.server, "server")?;
        let x = self.place();
        match line.place {
            PlaceMark::LeaseBegins(lease) => self.put_named(body, x, y, "leased", ("lease", lease)),
            PlaceMark::TicketBegins(ticket) => self.put_named(
                body,
                x,
                y,
                "kept",
                ("ticket", ticket),
            ),
            PlaceMark::DrainingBegins => put_name(body, x, y, "draining", "drains"),
            _ => Ok(()),
        }
    }

    /// Appends the name of an end of a connection, where it is opened.
    fn put_opened(
        &self,
        body: &mut String,
        x: usize,
        y: usize,
        mark: BarMark,
        end: &str,
    ) -> Result<(), AllocError> {
        match mark {
            BarMark::Opened(conn) => self.put_named(
                body,
                x.saturating_add(4),
                y,
                "box",
                (end, conn),
            ),
            _ => Ok(()),
        }
    }

    /// Appends a name with its number.
    fn put_named(
        &self,
        body: &mut String,
        x: usize,
        y: usize,
        class: &str,
        name: (&str, u32),
    ) -> Result<(), AllocError> {
        let (word, number) = name;
        let text = format!(in self.alloc; "{word} {number}")?;
        put_name(body, x, y, class, text.as_str())
    }

    /// Appends a packet's label, at its sender's end.
    fn put_flight_label(&self, body: &mut String, flight: &Flight) -> Result<(), AllocError> {
        let Some(line) = flight.from else {
            return Ok(());
        };
        let text = format!(in self.alloc; "{}, {} B", flight.name, flight.size)?;
        self.put_flight_text(body, flight, self.plate.at(line), text.as_str())
    }

    /// Appends a packet's number and this text above this height.
    fn put_flight_text(
        &self,
        body: &mut String,
        flight: &Flight,
        y: usize,
        text: &str,
    ) -> Result<(), AllocError> {
        let behind = behind_badge(flight.request).saturating_add(1);
        let width = behind.saturating_add(wide(text.len())).saturating_add(1);
        let x = match flight.direction {
            Direction::ToServer => self.wire().saturating_add(4),
            Direction::ToClient => self.server().saturating_sub(width.saturating_add(4)),
        };
        let class = match flight.sort {
            Sort::Attention | Sort::Acknowledgement => "bold",
            Sort::Request | Sort::Ignore | Sort::Answer => "",
        };
        put_ground(body, x, y.saturating_sub(16), width)?;
        put_badge(body, x.saturating_add(1), y, flight.request)?;
        put_text(
            body,
            x.saturating_add(behind),
            y.saturating_sub(5),
            class,
            text,
        )
    }

    /// Appends what stands beside a loose end.
    fn put_note(&self, body: &mut String, flight: &Flight) -> Result<(), AllocError> {
        let (FlightEnd::Underway(line) | FlightEnd::Lost(line)) = flight.end else {
            return Ok(());
        };
        let note = flight.note.as_str();
        let width = wide(note.len());
        let y = self.plate.at(line);
        let middle = self.wire_middle();
        let x = match flight.direction {
            Direction::ToServer => middle.saturating_add(9),
            Direction::ToClient => middle.saturating_sub(width.saturating_add(9)),
        };
        let (left, top) = (x.saturating_sub(1), y.saturating_sub(7));
        put_ground(body, left, top, width.saturating_add(2))?;
        put_text(body, x, y.saturating_add(4), "muted", note)
    }

    fn put_label(&self, body: &mut String, label: &Label) -> Result<(), AllocError> {
        let y = self.plate.at(label.line);
        let text = label.text.as_str();
        let badge = match label.has_badge {
            true => behind_badge(label.request),
            false => 0,
        };
        let width = badge.saturating_add(wide(text.len()));
        let x = self.left_of(label.spot, width);
        if label.look == Look::Pill {
            put_pill(body, x, y, width)?;
        }
        if label.has_badge {
            put_badge(body, x, y, label.request)?;
        }
        let x = x.saturating_add(badge);
        put_text(
            body,
            x,
            y.saturating_sub(5),
            class_of_look(label.look),
            text,
        )
    }

    /// Where a text of this width begins.
    fn left_of(&self, spot: Spot, width: usize) -> usize {
        match spot {
            Spot::Place => self.place().saturating_add(40),
            Spot::Asked => self.place().saturating_add(16),
            Spot::Told | Spot::Client => self.client().saturating_sub(width.saturating_add(6)),
            Spot::Server => self.server().saturating_add(14),
        }
    }
}

/// The name of a packet's arrow in the style sheet.
fn class_of(sort: Sort) -> &'static str {
    match sort {
        Sort::Attention | Sort::Acknowledgement => "urgent",
        Sort::Ignore => "dropped",
        Sort::Request | Sort::Answer => "plain",
    }
}

/// The name of a text in the style sheet.
fn class_of_look(look: Look) -> &'static str {
    match look {
        Look::Plain | Look::Pill => "",
        Look::Muted => "muted",
        Look::Bold => "bold",
        Look::Red => "bad",
        Look::Struck => "struck",
    }
}

/// Appends what lies behind a state.
fn put_pill(body: &mut String, x: usize, y: usize, width: usize) -> Result<(), AllocError> {
    let area = Area {
        x: x.saturating_sub(3),
        y: y.saturating_sub(16),
        width: width.saturating_add(6),
        height: 15,
    };
    put_round(body, area, "7", &["st"])
}
