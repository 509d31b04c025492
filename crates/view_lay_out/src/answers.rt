//! What a packet of an answer says.

use std::alloc::{AllocError, Global};
use std::fmt::Write;
use tds_text::put_units;
use tds_token::done_status::{ATTENTION, ERROR, MORE};
use tds_token::{ColumnList, Columns, EnvChange, Row, Text, Token, Tokens};
use view_paint::cut_to;

/// Which tokens.
#[derive(Clone, Copy, PartialEq, Eq)]
pub(crate) enum Which {
    All,
    /// Those that a caller is given.
    Told,
    /// Those that the client keeps for itself: the changes of the session.
    Heard,
}

/// The number of the ERROR that answers a text outside of the batch language.
const NO_LANGUAGE: i32 = 50_001;

/// How wide a message is shown.
const MESSAGE: usize = 16;

/// The tokens of a packet's data. A packet of an answer holds whole statements, so no columns are known before it.
pub(crate) fn tokens_of(alloc: Global, data: &[u8]) -> Result<Vec<Token>, AllocError> {
    let mut owned = Vec::new(alloc);
    let mut tokens = Tokens::new(data, Columns::none());
    for _ in 0..data.len() {
        let Some(Ok(token)) = tokens.next() else {
            break;
        };
        owned.push(token.own(alloc)?)?;
    }
    Ok(owned)
}

/// These tokens in words, with commas between them. More than two rows are counted.
pub(crate) fn told(alloc: Global, tokens: &[Token], which: Which) -> Result<String, AllocError> {
    let mut text = String::new(alloc);
    put_tokens(alloc, &mut text, tokens, which)?;
    Ok(text)
}

fn put_tokens(
    alloc: Global,
    text: &mut String,
    tokens: &[Token],
    which: Which,
) -> Result<(), AllocError> {
    let rows = tokens
        .iter()
        .filter(|it| matches!(it, Token::Row(_)))
        .count();
    let mut is_counted = false;
    for token in tokens {
        let is_heard = matches!(token, Token::Env(_));
        let is_row = matches!(token, Token::Row(_));
        if (which == Which::Told && is_heard) || (which == Which::Heard && !is_heard) {
            continue;
        }
        if is_row && is_counted {
            continue;
        }
        if !text.is_empty() {
            text.push_str(", ")?;
        }
        if is_row && rows > 2 {
            is_counted = true;
            write!(text, "{rows} ROWs")?;
        } else {
            put_token(alloc, text, token)?;
        }
    }
    Ok(())
}

fn put_token(alloc: Global, text: &mut String, token: &Token) -> Result<(), AllocError> {
    match token {
        Token::Info(message) => {
            text.push_str("INFO ")?;
            put_message(alloc, text, &message.text)
        }
        Token::Error(message) => {
            write!(text, "ERROR {} ", message.number)?;
            put_message(alloc, text, &message.text)
        }
        Token::ReturnStatus(value) => write!(text, "STATUS {value}"),
        Token::Columns(columns) => put_columns(text, columns),
        Token::Row(row) => put_row(text, row),
        Token::Env(change) => put_change(text, *change),
        Token::Done { status, .. } => text.push_str(done_word(*status)),
    }
}

fn put_columns(text: &mut String, columns: &ColumnList) -> Result<(), AllocError> {
    text.push_str("COLUMNS ")?;
    for (index, column) in columns.as_slice().iter().enumerate() {
        put_comma(text, index)?;
        put_units(text, column.name.units())?;
    }
    Ok(())
}

fn put_comma(text: &mut String, before: usize) -> Result<(), AllocError> {
    match before {
        0 => Ok(()),
        _ => text.push_str(","),
    }
}

fn put_message(alloc: Global, text: &mut String, message: &Text) -> Result<(), AllocError> {
    let mut shown = String::new(alloc);
    put_units(&mut shown, message.units())?;
    text.push_str(cut_to(alloc, shown.as_str(), MESSAGE)?.as_str())
}

fn put_row(text: &mut String, row: &Row) -> Result<(), AllocError> {
    text.push_str("ROW ")?;
    for (index, value) in row.as_slice().iter().enumerate() {
        put_comma(text, index)?;
        write!(text, "{value}")?;
    }
    Ok(())
}

fn put_change(text: &mut String, change: EnvChange) -> Result<(), AllocError> {
    match change {
        EnvChange::Begin(descriptor) => write!(text, "ENV begin {descriptor}"),
        EnvChange::Commit(descriptor) => write!(text, "ENV commit {descriptor}"),
        EnvChange::Rollback(descriptor) => write!(text, "ENV rollback {descriptor}"),
        EnvChange::ResetDone => text.push_str("ENV reset done"),
    }
}

fn done_word(status: u16) -> &'static str {
    if status & ATTENTION != 0 {
        "DONE attn"
    } else if status & MORE != 0 {
        "DONE more"
    } else if status & ERROR != 0 {
        "DONE error"
    } else {
        "DONE final"
    }
}

/// How many of these tokens a caller is given.
pub(crate) fn count_told(tokens: &[Token]) -> usize {
    let mut count = 0usize;
    for token in tokens {
        if !matches!(token, Token::Env(_)) {
            count = count.saturating_add(1);
        }
    }
    count
}

/// Whether one of these tokens changes the session.
pub(crate) fn has_change(tokens: &[Token]) -> bool {
    tokens.iter().any(|it| matches!(it, Token::Env(_)))
}

/// Whether they say that a text is not in the batch language.
pub(crate) fn is_no_language(tokens: &[Token]) -> bool {
    tokens.iter().any(|it| matches!(it, Token::Error(message) if message.number == NO_LANGUAGE))
}
