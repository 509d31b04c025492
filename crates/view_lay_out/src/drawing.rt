//! What a panel is drawn with, row by row.

use std::alloc::{AllocError, Global};
use tds_packet::Reset;
use tds_play::{Outcome, Snapshot};
use view_paint::{BarMark, FlightEnd, Label, Look, Panel, Spot, Widths, broken, digits};
use view_trace::Exchange;

/// What a server has of its request.
#[derive(Clone, Copy)]
pub(crate) enum Task {
    Nothing,
    /// Some of its packets.
    Part,
    /// All of it: so many packets of the answer are out.
    Whole { done: usize },
    /// All of the answer is out.
    Out,
}

/// A panel that is drawn, and what is known of its connection.
#[derive(Drop)]
pub(crate) struct Drawing<'a> {
    pub(crate) alloc: Global,
    pub(crate) exchange: &'a Exchange,
    /// The place of each request among the events.
    pub(crate) asked: &'a [usize],
    pub(crate) widths: Widths,
    pub(crate) panel: Panel,
    /// The connection, 0 for none.
    pub(crate) conn: u32,
    /// Its request, 0 for none, and the reset that this asks for.
    pub(crate) request: u32,
    pub(crate) reset: Option<Reset>,
    pub(crate) task: Task,
    /// How many tokens of its answer have come that a caller may be given.
    pub(crate) came: usize,
    /// The descriptor that the client heard last.
    pub(crate) heard: u64,
    /// How many packets of the play have left.
    pub(crate) left: usize,
    /// The column of the server, behind the rows so far.
    pub(crate) server: BarMark,
    pub(crate) row: RowSoFar<'a>,
}

/// What is known of the row that is drawn.
#[derive(Drop)]
pub(crate) struct RowSoFar<'a> {
    pub(crate) start: usize,
    /// What happens in it to the connection.
    pub(crate) outcome: Outcome,
    pub(crate) moment: Moment<'a>,
    /// How many lines its zones have.
    pub(crate) client_used: usize,
    pub(crate) server_used: usize,
    pub(crate) wire_used: usize,
    /// The line in which the request is asked.
    pub(crate) asked: usize,
    /// The line in which the request was settled.
    pub(crate) settled: Option<usize>,
    /// From which line on the server's column is what.
    pub(crate) marks: Vec<(usize, BarMark)>,
}

/// An event, with its connection before it and after it.
#[derive(Clone, Copy)]
pub(crate) struct Moment<'a> {
    pub(crate) number: usize,
    pub(crate) before: Option<&'a Snapshot>,
    pub(crate) after: Option<&'a Snapshot>,
    /// Whether the connection is opened in it.
    pub(crate) opens: bool,
}

impl Moment<'_> {
    /// Without an event and a connection.
    pub(crate) fn none() -> Self {
        Moment {
            number: 0,
            before: None,
            after: None,
            opens: false,
        }
    }
}

/// What changes nothing.
pub(crate) const NOTHING: Outcome = Outcome::ToClient(0);

impl<'a> Drawing<'a> {
    pub(crate) fn new(
        alloc: Global,
        exchange: &'a Exchange,
        asked: &'a [usize],
        widths: Widths,
    ) -> Drawing<'a> {
        Drawing {
            alloc,
            exchange,
            asked,
            widths,
            panel: Panel {
                lines: Vec::new(alloc),
                labels: Vec::new(alloc),
                flights: Vec::new(alloc),
            },
            conn: 0,
            request: 0,
            reset: None,
            task: Task::Nothing,
            came: 0,
            heard: 0,
            left: 0,
            server: BarMark::Nothing,
            row: RowSoFar::new(alloc, 0, NOTHING, Moment::none()),
        }
    }

    /// Begins the row of what happens to the connection.
    pub(crate) fn begin_row(&mut self, outcome: Outcome, moment: Moment<'a>) {
        let line = self.panel.lines.len();
        self.row = RowSoFar::new(self.alloc, line, outcome, moment);
    }

    /// Puts a text into the next free lines of its zone, and answers its last line.
    pub(crate) fn say(
        &mut self,
        spot: Spot,
        look: Look,
        has_badge: bool,
        text: &str,
    ) -> Result<usize, AllocError> {
        let badge = match has_badge {
            true => digits(self.request).saturating_add(2),
            false => 0,
        };
        let texts = broken(self.alloc, text, self.widths.of(spot, look, badge))?;
        let count = texts.len();
        let first = self.take_lines(spot, count);
        for (index, text) in texts.into_iter().enumerate() {
            self.panel.labels.push(Label {
                line: first.saturating_add(index),
                spot,
                look,
                request: self.request,
                has_badge: has_badge && index == 0,
                text,
                is_first: index == 0,
                is_last: index.saturating_add(1) == count,
            })?;
        }
        Ok(first.saturating_add(count.saturating_sub(1)))
    }

    /// Takes so many lines of a text's zone, and answers the first of them.
    fn take_lines(&mut self, spot: Spot, count: usize) -> usize {
        let used = match spot {
            Spot::Server => self.row.server_used,
            _ => self.row.client_used,
        };
        let behind = used.saturating_add(count);
        match spot {
            Spot::Server => self.row.server_used = behind,
            _ => self.row.client_used = behind,
        }
        self.row.start.saturating_add(used)
    }

    /// The first line that is free at the server.
    pub(crate) fn server_line(&self) -> usize {
        self.row.start.saturating_add(self.row.server_used)
    }

    /// From this line on the server's column is this.
    pub(crate) fn mark(&mut self, line: usize, mark: BarMark) -> Result<(), AllocError> {
        self.row.marks.push((line, mark))?;
        Ok(())
    }

    pub(crate) fn into_panel(self) -> Panel {
        self.panel
    }

    /// Forgets what was drawn: it stands above the picture.
    pub(crate) fn forget(&mut self) {
        self.panel.lines.clear();
        self.panel.labels.clear();
        self.panel
            .flights
            .retain(|flight| flight.end == FlightEnd::Open);
        for flight in self.panel.flights.iter_mut() {
            flight.from = None;
            flight.parts.clear();
        }
    }
}

impl<'a> RowSoFar<'a> {
    fn new(alloc: Global, start: usize, outcome: Outcome, moment: Moment<'a>) -> RowSoFar<'a> {
        RowSoFar {
            start,
            outcome,
            moment,
            client_used: 0,
            server_used: 0,
            wire_used: 0,
            asked: start,
            settled: None,
            marks: Vec::new(alloc),
        }
    }

    /// How many lines it has.
    pub(crate) fn count(&self) -> usize {
        self.client_used
            .max(self.server_used)
            .max(self.wire_used)
            .max(1)
    }
}
