//! Findings of one kind in a file.

use crate::page::Page;
use crate::places::Place;
use std::alloc::AllocError;
use std::fmt::Write;

/// How many findings of one kind are told.
const MOST_TOLD: usize = 1000;

/// Findings of one kind that are told in the order of their places: the first thousand, and then how
/// many more there are. So the file is gone over once, and the text stays short, however many there are.
#[derive(Drop)]
pub struct Findings {
    place: Place,
    told: usize,
    untold: usize,
}

impl Findings {
    /// None yet.
    pub fn new() -> Findings {
        Findings {
            place: Place::start(),
            told: 0,
            untold: 0,
        }
    }

    /// Where the next one stands, behind so many bytes; none where it is only counted.
    pub fn next(&mut self, page: Page<'_>, offset: usize) -> Option<Place> {
        if self.told >= MOST_TOLD {
            self.untold = self.untold.saturating_add(1);
            return None;
        }
        self.told = self.told.saturating_add(1);
        self.place.go_to(page.bytes, offset);
        Some(self.place)
    }

    /// Appends how many were only counted, and what they are.
    pub fn put_rest(
        &self,
        text: &mut String,
        page: Page<'_>,
        what: &str,
    ) -> Result<(), AllocError> {
        if self.untold == 0 {
            return Ok(());
        }
        self.place.put(text, page.name)?;
        writeln!(text, "behind here are {} more {what}", self.untold)
    }
}
