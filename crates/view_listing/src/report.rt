//! Reports as text.

use std::alloc::{AllocError, Global};
use tds_play::{Report, render};

/// The text of a report.
pub fn report_text(alloc: Global, report: &Report) -> Result<Vec<u8>, AllocError> {
    let mut text = Vec::new(alloc);
    match render(alloc, report, &mut text) {
        Ok(()) => Ok(text),
        // A write into a vector fails for want of memory alone.
        Err(_) => Err(AllocError),
    }
}
