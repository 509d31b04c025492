//! Texts of batches that are not in the batch language.

use crate::similar::similar;
use json_places::put_text;
use std::alloc::{AllocError, Global};
use std::fmt::Write;
use tds_session::{Engine, ScriptEngine};

/// The first words of statements.
const WORDS: &str = "say, rows, set, get, begin, commit, rollback, fail";

/// What stands behind the first word of a statement.
fn form_of(word: &str) -> Option<&'static str> {
    match word {
        "say" => Some("say W, W of 1 to 200 letters or digits"),
        "rows" => Some("rows A N, A 0 to 1000000, N 0 to 64"),
        "set" => Some("set k V, k one letter a to z, V -2147483648 to 2147483647"),
        "get" => Some("get k, k one letter a to z"),
        "fail" => Some("fail N, N 1 to 999999"),
        "begin" => Some("begin"),
        "commit" => Some("commit"),
        "rollback" => Some("rollback"),
        _ => None,
    }
}

/// The first statement of a text that is none, and how many units stand before it; none where the text
/// is in the batch language.
pub(crate) fn wrong_statement(
    alloc: Global,
    units: &[u16],
) -> Result<Option<(usize, &[u16])>, AllocError> {
    let semicolon = u16::from(b';');
    let mut before = 0usize;
    for piece in units.split(|unit| *unit == semicolon) {
        if ScriptEngine.parse(alloc, piece)?.is_none() {
            return Ok(Some((before, piece)));
        }
        before = before.saturating_add(piece.len()).saturating_add(1);
    }
    Ok(None)
}

/// Appends why a statement is none.
pub(crate) fn put_reason(
    alloc: Global,
    text: &mut String,
    statement: &[u16],
) -> Result<(), AllocError> {
    if statement.is_empty() {
        return text.push_str("a statement is missing");
    }
    let statement = String::from_utf16_lossy(alloc, statement)?;
    let word = statement.split(' ').next().unwrap_or("");
    if let Some(form) = form_of(word) {
        put_text(text, statement.as_str())?;
        return write!(text, " has not the form {form}");
    }
    text.push_str("no statement begins with ")?;
    put_text(text, word)?;
    match similar(alloc, word, WORDS)? {
        Some(other) => write!(text, "; did you mean \"{other}\""),
        None => Ok(()),
    }
}
