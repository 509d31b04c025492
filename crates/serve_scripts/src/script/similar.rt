//! Words that are nearly right.

use std::alloc::{AllocError, Global};
use strsim::levenshtein;

/// A longer word is nearly none, and the table of its edits would be large.
const LONGEST: usize = 40;

/// Of these words, between commas, the nearest one to which a few edits lead, one for each three of its
/// letters; none where there is no such word.
pub(crate) fn similar<'a>(
    alloc: Global,
    word: &str,
    words: &'a str,
) -> Result<Option<&'a str>, AllocError> {
    let mut found = None;
    let mut fewest = usize::MAX;
    if word.len() > LONGEST {
        return Ok(None);
    }
    for other in words.split(", ") {
        let most = other.len().saturating_add(1) / 3;
        let edits = levenshtein(alloc, word, other)?;
        if word.eq_ignore_ascii_case(other) {
            return Ok(Some(other));
        }
        if edits <= most && edits < fewest {
            fewest = edits;
            found = Some(other);
        }
    }
    Ok(found)
}
