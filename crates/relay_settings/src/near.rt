//! Words of a list, the nearest one first.

use std::alloc::{AllocError, Global};
use strsim::levenshtein;

/// A longer word is near none, and the table of its edits would be large.
const LONGEST: usize = 40;

/// These words, with commas between them: first the one to which the fewest edits lead from this one.
pub(crate) fn nearest_first(
    alloc: Global,
    word: &str,
    words: &[&str],
) -> Result<String, AllocError> {
    let mut told = String::new(alloc);
    let first = nearest(alloc, word, words)?;
    if let Some(first) = first {
        told.push_str(first)?;
    }
    for other in words.iter() {
        if first == Some(*other) {
            continue;
        }
        if !told.is_empty() {
            told.push_str(", ")?;
        }
        told.push_str(other)?;
    }
    Ok(told)
}

/// The first of these words to which the fewest edits lead; none where this one is too long.
fn nearest<'a>(
    alloc: Global,
    word: &str,
    words: &[&'a str],
) -> Result<Option<&'a str>, AllocError> {
    let mut found = None;
    let mut fewest = usize::MAX;
    if word.len() > LONGEST {
        return Ok(None);
    }
    for other in words.iter() {
        let edits = levenshtein(alloc, word, other)?;
        if edits < fewest {
            fewest = edits;
            found = Some(*other);
        }
    }
    Ok(found)
}
