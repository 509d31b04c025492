//! A sheet painted as SVG: its rows, and its panels side by side.

use crate::scene::{Line, Row, Sheet};
use crate::svg::marks::{Area, put_cut, put_number, put_rect, put_text};
use crate::svg::panel::Painted;
use std::alloc::{AllocError, Global};

/// How high a line is, and what stands below each row.
const LINE: usize = 17;

const BELOW_ROW: usize = 6;

/// What stands left and right of all.
const MARGIN: usize = 12;

/// Where the first panel begins, and how wide each is.
const PANELS: usize = 183;

const PANEL: usize = 679;

/// How wide a sheet with so many panels is.
pub(crate) fn width_of(panels: usize) -> usize {
    PANEL
        .saturating_mul(panels)
        .saturating_add(PANELS)
        .saturating_add(MARGIN)
}

/// Appends a sheet of this width, whose first row begins at this height, and answers where it ends.
pub(crate) fn put_sheet(
    alloc: Global,
    body: &mut String,
    sheet: &Sheet,
    top: usize,
    width: usize,
) -> Result<usize, AllocError> {
    let plate = Plate::new(alloc, sheet, top, width)?;
    plate.put(body)?;
    Ok(plate.bottom())
}

/// A sheet with the height of each of its lines.
#[derive(Drop)]
pub(crate) struct Plate<'a> {
    alloc: Global,
    sheet: &'a Sheet,
    top: usize,
    width: usize,
    heights: Vec<usize>,
    bottom: usize,
}

impl<'a> Plate<'a> {
    /// A sheet of this width, whose first row begins at this height.
    pub(crate) fn new(
        alloc: Global,
        sheet: &'a Sheet,
        top: usize,
        width: usize,
    ) -> Result<Plate<'a>, AllocError> {
        let mut heights = Vec::new(alloc);
        let mut bottom = top;
        let count = match sheet.panels.first() {
            Some(panel) => panel.lines.len(),
            None => 0,
        };
        let mut next = 1usize;
        for index in 0..count {
            if sheet.rows.get(next).is_some_and(|row| row.line == index) {
                next = next.saturating_add(1);
                bottom = bottom.saturating_add(BELOW_ROW);
            }
            bottom = bottom.saturating_add(LINE);
            heights.push(bottom.saturating_sub(1))?;
        }
        Ok(Plate {
            alloc,
            sheet,
            top,
            width,
            heights,
            bottom: bottom.saturating_add(BELOW_ROW),
        })
    }

    pub(crate) fn top(&self) -> usize {
        self.top
    }

    pub(crate) fn bottom(&self) -> usize {
        self.bottom
    }

    /// The height of a line's arrows.
    pub(crate) fn at(&self, line: usize) -> usize {
        let height = self.heights.as_slice().get(line);
        height.copied().unwrap_or(self.bottom)
    }

    /// Appends the sheet: what lies below first.
    pub(crate) fn put(&self, body: &mut String) -> Result<(), AllocError> {
        self.put_bands(body)?;
        let mut left = PANELS;
        for panel in self.sheet.panels.iter() {
            Painted::new(self.alloc, &*self, panel, left).put(body)?;
            left = left.saturating_add(PANEL);
        }
        for row in self.sheet.rows.iter() {
            self.put_row(body, row)?;
        }
        Ok(())
    }

    /// Appends a band behind every second row, and a line across at each restart.
    fn put_bands(&self, body: &mut String) -> Result<(), AllocError> {
        for (index, row) in self.sheet.rows.iter().enumerate() {
            if index % 2 != 0 {
                self.put_band(body, index, row)?;
            }
        }
        match self.sheet.panels.first() {
            Some(panel) => self.put_cuts(body, panel.lines.as_slice()),
            None => Ok(()),
        }
    }

    /// Appends a band behind the row of this number, down to the next one.
    fn put_band(&self, body: &mut String, index: usize, row: &Row) -> Result<(), AllocError> {
        let top = self.top_of(row);
        let end = match self.sheet.rows.get(index.saturating_add(1)) {
            Some(next) => self.top_of(next),
            None => self.bottom.saturating_sub(2),
        };
        let area = Area {
            x: 0,
            y: top,
            width: self.width,
            height: end.saturating_sub(top),
        };
        put_rect(body, area, &["band"])
    }

    /// Where a row begins.
    fn top_of(&self, row: &Row) -> usize {
        self.at(row.line).saturating_sub(LINE.saturating_add(1))
    }

    fn put_cuts(&self, body: &mut String, lines: &[Line]) -> Result<(), AllocError> {
        for (index, line) in lines.iter().enumerate() {
            if line.is_rule {
                let right = self.width.saturating_sub(MARGIN);
                put_cut(body, MARGIN, right, self.at(index))?;
            }
        }
        Ok(())
    }

    /// Appends an event's number and the event.
    fn put_row(&self, body: &mut String, row: &Row) -> Result<(), AllocError> {
        let y = self.at(row.line).saturating_sub(4);
        let (number_class, class) = match row.is_muted {
            true => ("h e muted", "muted"),
            false => ("h e", ""),
        };
        if let Some(number) = row.number {
            put_number(body, 40, y, number_class, number)?;
        }
        put_text(body, 47, y, class, row.text.as_str())
    }
}
