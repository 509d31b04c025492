//! The statements of a batch, and those that drivers send first.

use crate::making::{Making, own_thing};
use serve_values::text::{Piece, is_among, is_word, next_piece, trimmed};
use std::alloc::{AllocError, Global};

/// The words behind which a new statement of its own begins, where the one before is a setting, a choice of
/// a database or a query.
const BEGINNINGS: [&[u8]; 8] = [
    b"set",
    b"use",
    b"select",
    b"begin",
    b"commit",
    b"rollback",
    b"save",
    b"if",
];

/// A statement that drivers send, as far as it matters here.
#[derive(Clone, Copy, Debug)]
pub enum Known<'a> {
    /// Rows of a bulk load that are announced: nothing is to be told.
    Silent,
    /// A setting, of what stands behind its word.
    Setting(&'a [u16]),
    /// The language of messages is chosen.
    Language(&'a [u16]),
    /// A database is chosen.
    Use(&'a [u16]),
    Begin,
    Commit,
    /// A rollback, of the transaction or savepoint of this name; of the transaction where it is empty.
    Rollback(&'a [u16]),
    /// A savepoint of this name.
    Save(&'a [u16]),
    /// A query of these items.
    Select(&'a [u16]),
    /// What is done if a transaction is open.
    IfOpen(&'a [u16]),
    /// What is done with a thing of the session's own, of this name.
    Making(Making, &'a [u16]),
    /// All settings are asked for.
    Options,
    /// So many milliseconds are to go by.
    Wait(u32),
}

/// The statements of a batch, none of them empty.
pub fn statements_of(alloc: Global, text: &[u16]) -> Result<Vec<&[u16]>, AllocError> {
    let mut found = Vec::new(alloc);
    let mut rest = trimmed(text);
    for _ in 0..text.len() {
        if rest.is_empty() {
            break;
        }
        let (statement, behind) = first_statement(rest);
        if !statement.is_empty() {
            found.push(statement)?;
        }
        rest = behind;
    }
    Ok(found)
}

/// The first statement of a text, and what stands behind it.
fn first_statement(text: &[u16]) -> (&[u16], &[u16]) {
    let (first, mut rest) = next_piece(text);
    if let Piece::Sign(59) = first {
        return (&[], rest);
    }
    let ends_early = is_early(first);
    for _ in 0..text.len() {
        let (piece, behind) = next_piece(rest);
        match piece {
            Piece::End => return (trimmed(text), &[]),
            Piece::Sign(59) => return (before(text, rest), behind),
            Piece::Word(word) if ends_early && is_among(word, &BEGINNINGS) => {
                return (before(text, rest), rest);
            }
            _ => rest = behind,
        }
    }
    (trimmed(text), &[])
}

/// Whether a statement that begins with this ends where the next one begins, without a semicolon.
fn is_early(first: Piece<'_>) -> bool {
    match first {
        Piece::Word(word) => is_among(word, &[b"set", b"use", b"select"]),
        _ => false,
    }
}

/// What of a text stands before its rest.
fn before<'a>(text: &'a [u16], rest: &[u16]) -> &'a [u16] {
    let count = text.len().saturating_sub(rest.len());
    trimmed(&text[..count])
}

/// What a statement is, if drivers send it.
pub fn what_is(statement: &[u16]) -> Option<Known<'_>> {
    let (first, rest) = next_piece(statement);
    let Piece::Word(word) = first else {
        return None;
    };
    if let Some((making, name)) = own_thing(word, rest) {
        return Some(Known::Making(making, name));
    }
    if is_word(word, b"set") {
        return setting(rest);
    }
    if is_word(word, b"dbcc") {
        return options(rest);
    }
    if is_word(word, b"waitfor") {
        return delay(rest);
    }
    if is_word(word, b"raiserror") {
        return message(rest);
    }
    if is_word(word, b"use") {
        return database(rest);
    }
    if is_word(word, b"select") {
        return Some(Known::Select(rest));
    }
    if is_word(word, b"insert") {
        return announced(rest);
    }
    if is_word(word, b"if") {
        return condition(rest);
    }
    transaction(word, rest)
}

/// `set KEY V` with a key of one letter is of the batch language; anything else is a setting.
fn setting(rest: &[u16]) -> Option<Known<'_>> {
    match next_piece(rest) {
        (Piece::Word([_]), _) | (Piece::End, _) => None,
        (Piece::Word(word), behind) if is_word(word, b"language") => language(behind),
        _ => Some(Known::Setting(rest)),
    }
}

/// `set language NAME`
fn language(rest: &[u16]) -> Option<Known<'_>> {
    match next_piece(rest) {
        (Piece::Word(name) | Piece::Name(name) | Piece::Quoted(name), _) => {
            Some(Known::Language(name))
        }
        _ => Some(Known::Silent),
    }
}

/// `waitfor delay 'HOURS:MINUTES:SECONDS'`
fn delay(rest: &[u16]) -> Option<Known<'_>> {
    let (first, behind) = next_piece(rest);
    match (first, next_piece(behind)) {
        (Piece::Word(word), (Piece::Quoted(time), _)) if is_word(word, b"delay") => {
            Some(Known::Wait(milliseconds_in(time)))
        }
        _ => None,
    }
}

/// `raiserror('TEXT', 0, ..)`, which is no error.
fn message(rest: &[u16]) -> Option<Known<'_>> {
    let (bracket, rest) = next_piece(rest);
    let (text, rest) = next_piece(rest);
    let (comma, rest) = next_piece(rest);
    match (bracket, text, comma, next_piece(rest)) {
        (Piece::Sign(40), Piece::Quoted(_), Piece::Sign(44), (Piece::Word([48]), _)) => {
            Some(Known::Silent)
        }
        _ => None,
    }
}

/// The milliseconds of a time, a minute at most, without what stands behind the seconds.
fn milliseconds_in(time: &[u16]) -> u32 {
    let mut whole: u32 = 0;
    let mut part: u32 = 0;
    for unit in time {
        match unit.checked_sub(48) {
            Some(digit) if digit < 10 => {
                part = part.saturating_mul(10).saturating_add(u32::from(digit));
            }
            // a colon
            Some(10) => {
                whole = whole.saturating_add(part).saturating_mul(60);
                part = 0;
            }
            _ => break,
        }
    }
    whole.saturating_add(part).saturating_mul(1000).min(60_000)
}

/// `dbcc useroptions`
fn options(rest: &[u16]) -> Option<Known<'_>> {
    match next_piece(rest) {
        (Piece::Word(word), _) if is_word(word, b"useroptions") => Some(Known::Options),
        _ => None,
    }
}

fn database(rest: &[u16]) -> Option<Known<'_>> {
    match next_piece(rest) {
        (Piece::Word(name) | Piece::Name(name), _) => Some(Known::Use(name)),
        _ => None,
    }
}

/// `insert bulk ..`
fn announced(rest: &[u16]) -> Option<Known<'_>> {
    match next_piece(rest) {
        (Piece::Word(word), _) if is_word(word, b"bulk") => Some(Known::Silent),
        _ => None,
    }
}

/// `if @@trancount > 0 ..`
fn condition(rest: &[u16]) -> Option<Known<'_>> {
    let (count, rest) = next_piece(rest);
    let (sign, rest) = next_piece(rest);
    let (number, rest) = next_piece(rest);
    match (count, sign, number) {
        (Piece::Word(count), Piece::Sign(62), Piece::Word([48]))
            if is_word(count, b"@@trancount") => { Some(Known::IfOpen(rest)) }
        _ => None,
    }
}

/// `begin tran`, `commit`, `rollback`, `save tran NAME`. `begin`, `commit` and `rollback` alone are of the
/// batch language.
fn transaction<'a>(word: &[u16], rest: &'a [u16]) -> Option<Known<'a>> {
    let (second, behind) = next_piece(rest);
    let Piece::Word(second) = second else {
        return None;
    };
    let is_named = is_among(second, &[b"tran", b"transaction"]);
    if !is_named && !is_word(second, b"work") {
        return None;
    }
    if is_word(word, b"commit") {
        return Some(Known::Commit);
    }
    if is_word(word, b"rollback") {
        return Some(Known::Rollback(name_in(behind)));
    }
    if is_named && is_word(word, b"begin") {
        return Some(Known::Begin);
    }
    if is_named && is_word(word, b"save") {
        return Some(Known::Save(name_in(behind)));
    }
    None
}

/// The name that a text begins with, or nothing.
fn name_in(text: &[u16]) -> &[u16] {
    match next_piece(text) {
        (Piece::Word(name) | Piece::Name(name), _) => name,
        _ => &[],
    }
}
