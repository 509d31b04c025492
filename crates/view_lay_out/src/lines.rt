//! What runs down through the lines of a row.

use crate::drawing::{Drawing, Moment, RowSoFar};
use std::alloc::AllocError;
use tds_play::{ClientView, GiveBackOutcome, Outcome, Place, Snapshot};
use view_paint::{BarMark, Line, PlaceMark};

impl<'a> Drawing<'a> {
    /// Draws what runs down through the row's lines.
    pub(crate) fn end_row(&mut self, count: usize) -> Result<(), AllocError> {
        let (outcome, moment) = (self.row.outcome, self.row.moment);
        let is_cut = moment.before.is_some() && moment.after.is_none();
        let is_restart = matches!(outcome, Outcome::RestartedServer | Outcome::RestartedClient);
        for index in 0..count {
            let line = self.row.start.saturating_add(index);
            let is_last = index.saturating_add(1) == count;
            let mut line = Line {
                place: place_mark(outcome, moment, index),
                client: client_mark(&self.row, line),
                server: self.server_mark(moment, line),
                request: self.request,
                is_rule: is_restart && is_last,
            };
            if moment.opens && index == 0 {
                line.client = BarMark::Opened(self.conn);
                line.server = BarMark::Opened(self.conn);
            }
            if is_cut && is_last {
                line.client = BarMark::Cut;
                line.server = BarMark::Cut;
            }
            self.panel.lines.push(line)?;
        }
        if let Some((_, mark)) = self.row.marks.last() {
            self.server = *mark;
        }
        if is_cut {
            self.server = BarMark::Nothing;
        }
        Ok(())
    }

    /// The column of the server in a line.
    fn server_mark(&mut self, moment: Moment<'a>, line: usize) -> BarMark {
        if moment.opens {
            self.server = BarMark::Life;
        }
        for (from, mark) in self.row.marks.iter() {
            if *from <= line {
                self.server = *mark;
            }
        }
        self.server
    }
}

/// The column of the client in a line: where the request is asked, idle before that line; where it is settled,
/// as it was until that line; else as it is after the event.
fn client_mark(row: &RowSoFar<'_>, line: usize) -> BarMark {
    let moment = row.moment;
    let Some(shown) = moment.after.or(moment.before) else {
        return BarMark::Nothing;
    };
    if shown.client != ClientView::Idle && line >= row.asked {
        return bar_of(shown.client);
    }
    match moment.before {
        Some(before) if row.settled.is_none_or(|settled| line <= settled) => bar_of(before.client),
        _ => BarMark::Life,
    }
}

fn bar_of(client: ClientView) -> BarMark {
    match client {
        ClientView::Idle => BarMark::Life,
        ClientView::Sending => BarMark::Passing,
        ClientView::Reading => BarMark::Busy,
        ClientView::Cancelling => BarMark::Cancelling,
    }
}

/// The caller's column in a line of a row.
fn place_mark(outcome: Outcome, moment: Moment<'_>, index: usize) -> PlaceMark {
    let before = place_of(moment.before);
    let after = place_of(moment.after);
    match outcome {
        Outcome::Leased { lease, .. } if index == 0 => PlaceMark::LeaseBegins(lease),
        Outcome::Kept(ticket) if index == 0 => PlaceMark::TicketBegins(ticket),
        Outcome::GivenBack(GiveBackOutcome::Draining) | Outcome::Cleaning { .. } if index == 0 =>
            PlaceMark::DrainingBegins,
        Outcome::GivenBack(_) | Outcome::Abandoned(_) if index == 0 => before,
        Outcome::Leased { .. }
        | Outcome::Kept(_)
        | Outcome::GivenBack(_)
        | Outcome::Abandoned(_)
        | Outcome::Cleaning { .. } => after,
        _ => before,
    }
}

fn place_of(shown: Option<&Snapshot>) -> PlaceMark {
    match shown.map(|shown| shown.place) {
        Some(Place::Leased(_)) => PlaceMark::Lease,
        Some(Place::Kept(_)) => PlaceMark::Ticket,
        Some(Place::Draining) => PlaceMark::Draining,
        Some(Place::Free) | None => PlaceMark::Nothing,
    }
}
