//! Events laid out in the rows of a sheet.

use crate::drawing::Drawing;
use crate::wording::event_text;
use std::alloc::{AllocError, Global};
use std::fmt::Write;
use tds_play::Outcome;
use view_paint::{Row, Sheet, Widths, cut_to};
use view_trace::Exchange;

/// How long the line is at most that tells what a sheet leaves out, but for its last number.
const MOST_NOTE: usize = 80;

/// A play, and what of it is drawn.
#[derive(Clone, Copy)]
pub(crate) struct Plan<'a> {
    pub(crate) exchange: &'a Exchange,
    /// The slot of each connection.
    pub(crate) slots: &'a [usize],
    /// The place of each request among the events.
    pub(crate) asked: &'a [usize],
    pub(crate) widths: Widths,
    /// The first event that is drawn, and the last one.
    pub(crate) from: usize,
    pub(crate) to: usize,
    /// Whether a sheet has all slots.
    pub(crate) has_all: bool,
}

/// Where an event is drawn.
#[derive(Clone, Copy, PartialEq, Eq)]
enum Where {
    Slot(usize),
    Everywhere,
    /// It is refused, and about no connection.
    Nowhere,
}

impl<'a> Plan<'a> {
    /// The sheets of so many slots: one with all of them, or one for each.
    pub(crate) fn lay_sheets(&self, alloc: Global, slots: usize) -> Result<Vec<Sheet>, AllocError> {
        let mut sheets = Vec::new(alloc);
        if self.has_all {
            sheets.push(self.lay_sheet(alloc, 0, slots)?)?;
            return Ok(sheets);
        }
        for slot in 0..slots {
            sheets.push(self.lay_sheet(alloc, slot, 1)?)?;
        }
        Ok(sheets)
    }

    /// The sheet with so many slots from this one on, a panel for each.
    fn lay_sheet(&self, alloc: Global, first: usize, wide: usize) -> Result<Sheet, AllocError> {
        let mut panels = Vec::new(alloc);
        for _ in 0..wide {
            panels.push(Drawing::new(alloc, self.exchange, self.asked, self.widths))?;
        }
        let mut laid = Laid {
            first,
            rows: Vec::new(alloc),
            panels,
        };
        self.lay_rows(alloc, &mut laid)?;
        let note = self.left_out(alloc, first)?;
        laid.into_sheet(alloc, note)
    }

    /// Lays all rows out. The ones before the first that is drawn are forgotten again.
    fn lay_rows(&self, alloc: Global, laid: &mut Laid<'a>) -> Result<(), AllocError> {
        for number in 1..=self.to {
            let place = self.place_of(number);
            if !self.has_all && place != Where::Slot(laid.first) && place != Where::Everywhere {
                continue;
            }
            laid.put_row(self.row_of(alloc, number, laid.line())?)?;
            laid.draw_event(number, place)?;
            if number < self.from {
                laid.forget();
            }
        }
        laid.put_row(self.last_row(alloc, laid.line())?)?;
        laid.draw_end(self.to)
    }

    /// Which events the sheet of this slot leaves out that stand in another one; empty where it has all.
    fn left_out(&self, alloc: Global, slot: usize) -> Result<String, AllocError> {
        let mut note = String::new(alloc);
        if self.has_all {
            return Ok(note);
        }
        let mut runs = 0usize;
        let mut run: Option<(usize, usize)> = None;
        for number in self.from..=self.to {
            let is_out = matches!(self.place_of(number), Where::Slot(other) if other != slot);
            run = match (is_out, run) {
                (true, None) => Some((number, number)),
                (true, Some((first, _))) => Some((first, number)),
                (false, Some(ended)) => {
                    put_run(&mut note, runs, ended)?;
                    runs = runs.saturating_add(1);
                    None
                }
                (false, None) => None,
            };
        }
        if let Some(ended) = run {
            put_run(&mut note, runs, ended)?;
        }
        Ok(note)
    }

    fn place_of(&self, number: usize) -> Where {
        let index = number.saturating_sub(1);
        if let Some(conn) = self.exchange.conns.as_slice().get(index).copied().flatten() {
            let slot = self.slots.get((conn as usize).saturating_sub(1));
            return Where::Slot(slot.copied().unwrap_or(0));
        }
        let told = self.exchange.report.events.as_slice().get(index);
        match told.map(|it| it.outcome) {
            Some(Outcome::RestartedServer | Outcome::RestartedClient) => Where::Everywhere,
            _ => Where::Nowhere,
        }
    }

    /// What stands beside the row of an event, from this line on.
    fn row_of(&self, alloc: Global, number: usize, line: usize) -> Result<Row, AllocError> {
        let index = number.saturating_sub(1);
        let text = match self.exchange.events.as_slice().get(index) {
            Some(event) => event_text(alloc, event)?,
            None => String::new(alloc),
        };
        let told = self.exchange.report.events.as_slice().get(index);
        Ok(Row {
            line,
            number: Some(number),
            text: cut_to(alloc, text.as_str(), self.widths.event)?,
            is_muted: told.is_some_and(|it| matches!(it.outcome, Outcome::Refused(_))),
        })
    }

    /// What stands beside the row behind the last event that is drawn.
    fn last_row(&self, alloc: Global, line: usize) -> Result<Row, AllocError> {
        let text = match self.to >= self.exchange.events.len() {
            true => "end",
            false => "then",
        };
        Ok(Row {
            line,
            number: None,
            text: String::from_str(alloc, text)?,
            is_muted: true,
        })
    }
}

/// Appends the numbers of events that follow one another, behind so many of such runs. What no longer fits
/// into a line is cut off.
fn put_run(note: &mut String, runs: usize, run: (usize, usize)) -> Result<(), AllocError> {
    if note.len() > MOST_NOTE {
        return match note.ends_with("..") {
            true => Ok(()),
            false => note.push_str(", .."),
        };
    }
    note.push_str(match runs {
        0 => "in other sheets: ",
        _ => ", ",
    })?;
    match run {
        (first, last) if first == last => write!(note, "{first}"),
        (first, last) => write!(note, "{first} to {last}"),
    }
}

/// A sheet so far.
#[derive(Drop)]
struct Laid<'a> {
    /// The slot of its first panel.
    first: usize,
    rows: Vec<Row>,
    panels: Vec<Drawing<'a>>,
}

impl Laid<'_> {
    /// How many lines it has.
    fn line(&self) -> usize {
        match self.panels.first() {
            Some(panel) => panel.panel.lines.len(),
            None => 0,
        }
    }

    fn put_row(&mut self, row: Row) -> Result<(), AllocError> {
        self.rows.push(row)?;
        Ok(())
    }

    /// Draws an event in each panel: what is about no connection stands in the first one.
    fn draw_event(&mut self, number: usize, place: Where) -> Result<(), AllocError> {
        let mut slot = self.first;
        for panel in self.panels.iter_mut() {
            let is_here = match place {
                Where::Slot(other) => other == slot,
                Where::Everywhere => true,
                Where::Nowhere => slot == 0,
            };
            match is_here {
                true => panel.draw_event(number)?,
                false => panel.draw_pause(number),
            }
            slot = slot.saturating_add(1);
        }
        self.end_row()
    }

    fn draw_end(&mut self, last: usize) -> Result<(), AllocError> {
        for panel in self.panels.iter_mut() {
            panel.draw_end(last)?;
        }
        self.end_row()
    }

    /// Ends the row, which has as many lines as its fullest panel.
    fn end_row(&mut self) -> Result<(), AllocError> {
        let mut count = 1usize;
        for panel in self.panels.iter() {
            count = count.max(panel.row.count());
        }
        for panel in self.panels.iter_mut() {
            panel.end_row(count)?;
        }
        Ok(())
    }

    /// Forgets what was drawn: it stands above the picture.
    fn forget(&mut self) {
        self.rows.clear();
        for panel in self.panels.iter_mut() {
            panel.forget();
        }
    }

    fn into_sheet(self, alloc: Global, note: String) -> Result<Sheet, AllocError> {
        let mut panels = Vec::new(alloc);
        for panel in self.panels {
            panels.push(panel.into_panel())?;
        }
        Ok(Sheet {
            rows: self.rows,
            panels,
            note,
        })
    }
}
