//! What runs down in a panel, painted as SVG.

use crate::scene::{BarMark, Line, PlaceMark};
use crate::svg::marks::{Area, color_of, put_cross, put_rect, put_round};
use crate::svg::panel::Painted;
use std::alloc::AllocError;

/// A column, of which pieces are painted.
#[derive(Clone, Copy)]
enum Column {
    Place,
    ClientLife,
    ServerLife,
    Client,
    Server,
}

/// What a piece of a column is.
#[derive(Clone, Copy, PartialEq, Eq)]
enum State {
    Leased,
    Kept,
    Draining,
    Life,
    Sending,
    Reading,
    Cancelling,
    Receiving,
    Answering,
}

/// A piece of a column that is the same from a line on.
#[derive(Clone, Copy)]
struct Piece {
    /// Its first line.
    line: usize,
    request: u32,
    state: State,
}

impl<'a> Painted<'a> {
    /// Appends what runs down through the lines, and a cross where it is cut.
    pub(crate) fn put_columns(&self, body: &mut String) -> Result<(), AllocError> {
        for column in [
            Column::Place,
            Column::ClientLife,
            Column::ServerLife,
            Column::Client,
            Column::Server,
        ] {
            self.put_pieces(body, column)?;
        }
        for (index, line) in self.panel.lines.iter().enumerate() {
            let y = self.plate.at(index);
            put_cut_end(body, self.client(), y, line.client)?;
            put_cut_end(body, self.server(), y, line.server)?;
        }
        Ok(())
    }

    /// Appends the pieces of a column: each from the line where it begins down to the one where another begins.
    fn put_pieces(&self, body: &mut String, column: Column) -> Result<(), AllocError> {
        let mut open: Option<Piece> = None;
        for (index, line) in self.panel.lines.iter().enumerate() {
            open = self.put_ended(body, column, open, index, line)?;
        }
        let Some(piece) = open else {
            return Ok(());
        };
        let end = match column {
            Column::ClientLife | Column::ServerLife => self.plate.bottom(),
            _ => self.plate.at(self.panel.lines.len().saturating_sub(1)),
        };
        self.put_piece(body, column, piece, end)
    }

    /// Appends the piece that is open above a line, where it ends there, and answers which one is open behind it.
    fn put_ended(
        &self,
        body: &mut String,
        column: Column,
        open: Option<Piece>,
        index: usize,
        line: &Line,
    ) -> Result<Option<Piece>, AllocError> {
        let next = column.piece(index, line);
        let Some(piece) = open else {
            return Ok(next);
        };
        let goes_on = column.goes_on(piece, line);
        if goes_on && next.is_some_and(|next| next.state == piece.state) {
            return Ok(open);
        }
        let last = match goes_on {
            true => index,
            false => index.saturating_sub(1),
        };
        self.put_piece(body, column, piece, self.plate.at(last))?;
        Ok(next)
    }

    /// Appends a piece down to this height.
    fn put_piece(
        &self,
        body: &mut String,
        column: Column,
        piece: Piece,
        end: usize,
    ) -> Result<(), AllocError> {
        let area = self.area_of(column, self.plate.at(piece.line), end);
        let (class, color) = (class_of(piece.state), color_of(piece.request));
        match column {
            Column::Client | Column::Server => {
                put_rect(body, area, &["bg"])?;
                put_rect(body, area, &[class, " f", color, " s", color])
            }
            Column::Place => put_round(body, area, "3", &[class]),
            Column::ClientLife | Column::ServerLife => put_rect(body, area, &[class]),
        }
    }

    /// What a piece covers that begins in the line at this height, and ends at that one.
    fn area_of(&self, column: Column, at: usize, end: usize) -> Area {
        let (x, y, width) = match column {
            Column::Place => (self.place().saturating_sub(10), at.saturating_sub(15), 20),
            Column::ClientLife => (self.client().saturating_add(3), at.saturating_sub(14), 2),
            Column::ServerLife => (self.server().saturating_add(3), at.saturating_sub(14), 2),
            Column::Client => (self.client(), at, 8),
            Column::Server => (self.server(), at, 8),
        };
        Area {
            x,
            y,
            width,
            height: end.saturating_sub(y),
        }
    }
}

/// Appends a cross where an end of a connection is cut.
fn put_cut_end(body: &mut String, x: usize, y: usize, mark: BarMark) -> Result<(), AllocError> {
    match mark {
        BarMark::Cut => put_cross(body, x.saturating_add(4), y),
        _ => Ok(()),
    }
}

impl Column {
    /// What it is in a line, if anything.
    fn piece(self, line: usize, marks: &Line) -> Option<Piece> {
        let state = match self {
            Column::Place => place_state(marks.place),
            Column::ClientLife => (marks.client != BarMark::Nothing).then_some(State::Life),
            Column::ServerLife => (marks.server != BarMark::Nothing).then_some(State::Life),
            Column::Client => client_state(marks.client),
            Column::Server => server_state(marks.server),
        }?;
        Some(Piece {
            line,
            request: marks.request,
            state,
        })
    }

    /// Whether a piece comes down into this line.
    fn goes_on(self, piece: Piece, line: &Line) -> bool {
        match self {
            Column::Place => match line.place {
                PlaceMark::Nothing => false,
                PlaceMark::LeaseBegins(_) => piece.state == State::Kept,
                _ => true,
            },
            Column::ClientLife => !matches!(line.client, BarMark::Nothing | BarMark::Opened(_)),
            Column::ServerLife => !matches!(line.server, BarMark::Nothing | BarMark::Opened(_)),
            Column::Client => line.request == piece.request && is_touched(line.client),
            Column::Server => line.request == piece.request && is_touched(line.server),
        }
    }
}

/// Whether a bar from above ends in this line's height, or goes on: it ends above where the end is idle.
fn is_touched(mark: BarMark) -> bool {
    !matches!(mark, BarMark::Nothing | BarMark::Opened(_) | BarMark::Life)
}

fn place_state(mark: PlaceMark) -> Option<State> {
    match mark {
        PlaceMark::Nothing => None,
        PlaceMark::Lease | PlaceMark::LeaseBegins(_) => Some(State::Leased),
        PlaceMark::Ticket | PlaceMark::TicketBegins(_) => Some(State::Kept),
        PlaceMark::Draining | PlaceMark::DrainingBegins => Some(State::Draining),
    }
}

fn client_state(mark: BarMark) -> Option<State> {
    match mark {
        BarMark::Passing => Some(State::Sending),
        BarMark::Busy => Some(State::Reading),
        BarMark::Cancelling => Some(State::Cancelling),
        BarMark::Nothing | BarMark::Opened(_) | BarMark::Life | BarMark::Cut => None,
    }
}

fn server_state(mark: BarMark) -> Option<State> {
    match mark {
        BarMark::Passing => Some(State::Receiving),
        BarMark::Busy => Some(State::Answering),
        BarMark::Nothing
        | BarMark::Opened(_)
        | BarMark::Life
        | BarMark::Cancelling
        | BarMark::Cut => None,
    }
}

/// Its name in the style sheet.
fn class_of(state: State) -> &'static str {
    match state {
        State::Leased => "leased",
        State::Kept => "kept",
        State::Draining => "draining",
        State::Life => "life",
        State::Sending => "sending",
        State::Reading => "reading",
        State::Cancelling => "cancelling",
        State::Receiving => "receiving",
        State::Answering => "answering",
    }
}
