//! Statements about what a session makes for itself alone: temporary tables, cursors, application locks.

use serve_values::text::{Piece, is_among, is_word, next_piece};

/// What is done with a thing of a session's own.
#[derive(Clone, Copy, Debug, PartialEq, Eq)]
pub enum Making {
    /// `create table #T ..`
    Create,
    /// `drop table #T`
    Drop,
    /// `insert into #T ..`
    Insert,
    /// `select count(*) from #T`
    Count,
    /// `declare C cursor ..`
    Declare,
    /// `open C`, `fetch .. C`, `close C`
    Fetch,
    /// `deallocate C`
    Deallocate,
    /// `exec sp_getapplock 'L', ..`
    Lock,
    /// `exec sp_releaseapplock 'L', ..`
    Unlock,
}

/// What a statement of this first word makes, and the name of it.
pub fn own_thing<'a>(word: &[u16], rest: &'a [u16]) -> Option<(Making, &'a [u16])> {
    if is_word(word, b"create") {
        return with(Making::Create, table(rest));
    }
    if is_word(word, b"drop") {
        return with(Making::Drop, table(rest));
    }
    if is_word(word, b"insert") {
        return with(Making::Insert, inserted(rest));
    }
    if is_word(word, b"select") {
        return with(Making::Count, counted(rest));
    }
    if is_among(word, &[b"exec", b"execute"]) {
        return lock(rest);
    }
    cursor(word, rest)
}

fn with(making: Making, name: Option<&[u16]>) -> Option<(Making, &[u16])> {
    match name {
        Some(name) => Some((making, name)),
        None => None,
    }
}

/// The name of a temporary table that a text begins with.
fn temporary(text: &[u16]) -> Option<&[u16]> {
    match next_piece(text) {
        (Piece::Word(name) | Piece::Name(name), _) if matches!(name, [35, ..]) => Some(name),
        _ => None,
    }
}

/// What stands behind a word, if a text begins with that.
fn behind<'a>(text: &'a [u16], word: &[u8]) -> Option<&'a [u16]> {
    match next_piece(text) {
        (Piece::Word(first), rest) if is_word(first, word) => Some(rest),
        _ => None,
    }
}

/// What stands behind a sign, if a text begins with that.
fn behind_sign(text: &[u16], sign: u16) -> Option<&[u16]> {
    match next_piece(text) {
        (Piece::Sign(first), rest) if first == sign => Some(rest),
        _ => None,
    }
}

/// `table #T`, `table if exists #T`
fn table(rest: &[u16]) -> Option<&[u16]> {
    let rest = behind(rest, b"table")?;
    match behind(rest, b"if") {
        Some(rest) => temporary(behind(rest, b"exists")?),
        None => temporary(rest),
    }
}

/// `#T`, `into #T`
fn inserted(rest: &[u16]) -> Option<&[u16]> {
    match behind(rest, b"into") {
        Some(rest) => temporary(rest),
        None => temporary(rest),
    }
}

/// `count(*) from #T`
fn counted(rest: &[u16]) -> Option<&[u16]> {
    let rest = behind(rest, b"count")?;
    let rest = behind_sign(rest, 40)?;
    let rest = behind_sign(rest, 42)?;
    let rest = behind_sign(rest, 41)?;
    temporary(behind(rest, b"from")?)
}

/// `sp_getapplock 'L'`, `sp_releaseapplock 'L'`
fn lock(rest: &[u16]) -> Option<(Making, &[u16])> {
    if let Some(rest) = behind(rest, b"sp_getapplock") {
        return with(Making::Lock, quoted_in(rest));
    }
    with(
        Making::Unlock,
        quoted_in(behind(rest, b"sp_releaseapplock")?),
    )
}

/// The first text between quotes.
fn quoted_in(text: &[u16]) -> Option<&[u16]> {
    let mut rest = text;
    for _ in 0..text.len() {
        match next_piece(rest) {
            (Piece::Quoted(name), _) => return Some(name),
            (Piece::End, _) => return None,
            (_, behind) => rest = behind,
        }
    }
    None
}

/// What is done with a cursor.
fn cursor<'a>(word: &[u16], rest: &'a [u16]) -> Option<(Making, &'a [u16])> {
    let (Piece::Word(name) | Piece::Name(name), after) = next_piece(rest) else {
        return None;
    };
    if is_word(word, b"declare") && behind(after, b"cursor").is_some() {
        return Some((Making::Declare, name));
    }
    if is_among(word, &[b"open", b"close"]) {
        return Some((Making::Fetch, name));
    }
    if is_word(word, b"fetch") {
        return Some((Making::Fetch, last_word(rest)));
    }
    if is_word(word, b"deallocate") {
        return Some((Making::Deallocate, name));
    }
    None
}

/// The last word of a text.
fn last_word(text: &[u16]) -> &[u16] {
    let mut last = text;
    let mut rest = text;
    for _ in 0..text.len() {
        match next_piece(rest) {
            (Piece::Word(word) | Piece::Name(word), behind) => {
                last = word;
                rest = behind;
            }
            (Piece::End, _) => break,
            (_, behind) => rest = behind,
        }
    }
    last
}
