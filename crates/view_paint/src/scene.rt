//! What is drawn, in lines, before it is painted.

use tds_packet::Direction;

/// A picture.
#[derive(Drop)]
pub struct Scene {
    /// What it is a picture of, and what stands in it, for those who hear it.
    pub title: String,
    pub description: String,
    pub head: String,
    /// How many panels a sheet has.
    pub width: usize,
    pub sheets: Vec<Sheet>,
    /// Refused events that stand in no sheet.
    pub below: Vec<String>,
}

/// Rows that have the same events in each panel.
#[derive(Drop)]
pub struct Sheet {
    pub rows: Vec<Row>,
    /// At least one.
    pub panels: Vec<Panel>,
    /// What it leaves out; empty where that is nothing.
    pub note: String,
}

/// The connections that stand in one place of the picture, one after the other.
#[derive(Drop)]
pub struct Panel {
    /// As many in each panel of a sheet.
    pub lines: Vec<Line>,
    pub labels: Vec<Label>,
    pub flights: Vec<Flight>,
}

/// An event, or the end.
#[derive(Drop)]
pub struct Row {
    /// Its first line.
    pub line: usize,
    /// The event's number; none of the end.
    pub number: Option<usize>,
    pub text: String,
    pub is_muted: bool,
}

/// What runs down through a line.
#[derive(Clone, Copy)]
pub struct Line {
    pub place: PlaceMark,
    pub client: BarMark,
    pub server: BarMark,
    /// The request of the bars, 0 for none.
    pub request: u32,
    /// Whether a restart cuts across it.
    pub is_rule: bool,
}

/// The caller's column.
#[derive(Clone, Copy, PartialEq, Eq)]
pub enum PlaceMark {
    Nothing,
    LeaseBegins(u32),
    Lease,
    TicketBegins(u32),
    Ticket,
    DrainingBegins,
    Draining,
}

/// The column of an end of a connection.
#[derive(Clone, Copy, PartialEq, Eq)]
pub enum BarMark {
    Nothing,
    /// The connection of this number is opened.
    Opened(u32),
    /// It is there, and idle.
    Life,
    /// The client sends a request, or the server takes one.
    Passing,
    /// The client reads an answer, or the server works on one.
    Busy,
    Cancelling,
    Cut,
}

/// Where a text stands, and whether an arrow goes through it.
#[derive(Clone, Copy, PartialEq, Eq)]
pub enum Spot {
    /// At the caller.
    Place,
    /// On an arrow from the caller to the client.
    Asked,
    /// On an arrow from the client to the caller.
    Told,
    /// At the client.
    Client,
    /// At the server.
    Server,
}

#[derive(Clone, Copy, PartialEq, Eq)]
pub enum Look {
    Plain,
    Muted,
    Bold,
    Red,
    /// A state.
    Pill,
    /// Thrown away.
    Struck,
}

/// A line of a text.
#[derive(Drop)]
pub struct Label {
    pub line: usize,
    pub spot: Spot,
    pub look: Look,
    /// The request that it is about, 0 for none.
    pub request: u32,
    /// Whether the request's number stands before it.
    pub has_badge: bool,
    pub text: String,
    pub is_first: bool,
    pub is_last: bool,
}

/// What a packet is.
#[derive(Clone, Copy, PartialEq, Eq)]
pub enum Sort {
    Request,
    /// The end of a request that is to be forgotten.
    Ignore,
    Attention,
    Answer,
    Acknowledgement,
}

/// A packet on its way.
#[derive(Drop)]
pub struct Flight {
    pub direction: Direction,
    pub sort: Sort,
    pub request: u32,
    pub name: String,
    pub size: u64,
    pub came: u64,
    /// Its place among the packets of the play.
    pub packet: usize,
    /// The line where it leaves; none where that is above the picture.
    pub from: Option<usize>,
    /// The lines where a part of it came.
    pub parts: Vec<usize>,
    pub end: FlightEnd,
    /// What stands beside a loose end.
    pub note: String,
}

/// Where a packet comes to, at which line.
#[derive(Clone, Copy, PartialEq, Eq)]
pub enum FlightEnd {
    Open,
    Came(usize),
    /// It came, and nobody is given what it holds.
    Thrown(usize),
    Underway(usize),
    Lost(usize),
    /// Others in its direction stand for it.
    Hidden(usize),
}

impl FlightEnd {
    pub fn line(self) -> Option<usize> {
        match self {
            FlightEnd::Open => None,
            FlightEnd::Came(line)
            | FlightEnd::Thrown(line)
            | FlightEnd::Underway(line)
            | FlightEnd::Lost(line)
            | FlightEnd::Hidden(line) => Some(line),
        }
    }
}
