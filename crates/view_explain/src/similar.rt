//! Words that are nearly right.

use std::alloc::{AllocError, Global};
use strsim::levenshtein;

/// The first of these words, between commas, that a few edits lead to, one for each three of its letters;
/// none where there is no such word.
pub(crate) fn similar<'a>(
    alloc: Global,
    word: &str,
    words: &'a str,
) -> Result<Option<&'a str>, AllocError> {
    // A longer word is none of these, and the table of its edits would be large.
    if word.len() > 40 {
        return Ok(None);
    }
    for other in words.split(", ") {
        let most = other.len().saturating_add(1) / 3;
        if levenshtein(alloc, word, other)? <= most || word.eq_ignore_ascii_case(other) {
            return Ok(Some(other));
        }
    }
    Ok(None)
}
