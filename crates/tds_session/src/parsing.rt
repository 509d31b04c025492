//! The batch language: the statements that a text spells. Statements are separated by one `;`, and
//! their words by one space.
ghost use Rattle.std.specs.Prelude.{◌≡◌, IfOk, map, option_map};
ghost use Rattle.tds_session.specs.Words.{pieces};
ghost use Rattle.tds_session.specs.Language.{statements_of, statement_of, of_words, one_word, two_words, three_words};

use crate::NoMemory;
use crate::statement::{Statement, Word};
use crate::words::{is_name, key, number_within, signed_number};
use std::alloc::Global;
use tds_token::Text;

/// The unit between two statements.
const SEMICOLON: u16 = 0x3b;

/// The unit between two words.
const SPACE: u16 = 0x20;

/// The statements that a text spells, or None where it is not in the language.
pub(crate) fn parse_text(alloc: Global, text: &[u16]) -> Result<Option<Vec<Statement>>, NoMemory>
    ensures { IfOk result (λ found. option_map (λ v. v.items) found ≡ statements_of text.now) }
{
    let mut statements = Vec::new(alloc);
    for piece in &cut(alloc, text, SEMICOLON)? {
        match parse_statement(alloc, piece)? {
            Some(statement) => statements.push(statement)?,
            None => return Ok(None),
        }
    }
    Ok(Some(statements))
}

/// The statement that a text without a semicolon spells.
fn parse_statement(alloc: Global, text: &[u16]) -> Result<Option<Statement>, NoMemory>
    ensures { IfOk result (λ found. found ≡ statement_of text.now) }
{
    let words = cut(alloc, text, SPACE)?;
    statement_in(alloc, words.as_slice())
}

/// The pieces between the separators.
fn cut(alloc: Global, text: &[u16], separator: u16) -> Result<Vec<&[u16]>, NoMemory>
    ensures { IfOk result (λ found. map (λ piece. piece.now) found.items
        ≡ pieces separator text.now) }
{
    text.split(|unit| *unit == separator).collect(alloc)
}

/// The statement of a list of words.
fn statement_in(alloc: Global, words: &[&[u16]]) -> Result<Option<Statement>, NoMemory>
    ensures { IfOk result (λ found. found ≡ of_words (map (λ word. word.now) words.now)) }
{
    match words {
        [name] => Ok(one_word(name)),
        [name, first] => two_words(alloc, name, first),
        [name, first, second] => Ok(three_words(name, first, second)),
        _ => Ok(None),
    }
}

/// begin, commit or rollback.
fn one_word(name: &[u16]) -> Option<Statement>
    ensures { result ≡ one_word name.now }
{
    if is_name(name, b"begin") {
        Some(Statement::Begin)
    } else if is_name(name, b"commit") {
        Some(Statement::Commit)
    } else if is_name(name, b"rollback") {
        Some(Statement::Rollback)
    } else {
        None
    }
}

/// say, get or fail.
fn two_words(alloc: Global, name: &[u16], first: &[u16]) -> Result<Option<Statement>, NoMemory>
    ensures { IfOk result (λ found. found ≡ two_words name.now first.now) }
{
    if is_name(name, b"say") {
        let word = Word::new(Text::new(first.to_vec(alloc)?));
        Ok(word.map(|word| Statement::Say(word)))
    } else if is_name(name, b"get") {
        Ok(key(first).map(|key| Statement::Get { key }))
    } else if is_name(name, b"fail") {
        Ok(number_within(first).map(|number| Statement::Fail { number }))
    } else {
        Ok(None)
    }
}

/// rows or set.
fn three_words(name: &[u16], first: &[u16], second: &[u16]) -> Option<Statement>
    ensures { result ≡ three_words name.now first.now second.now }
{
    if is_name(name, b"rows") {
        let first = number_within(first)?;
        let count = number_within(second)?;
        Some(Statement::Rows { first, count })
    } else if is_name(name, b"set") {
        let key = key(first)?;
        let value = signed_number(second)?;
        Some(Statement::Set { key, value })
    } else {
        None
    }
}
