//! The batch language: what each statement does.
ghost use Rattle.std.specs.Prelude.{◌≡◌, ◌≤◌, ◌++◌, [], ◌∷◌, IfOk, OnOk, true};
ghost use Rattle.tds_session.specs.Effects.{message};
ghost use Rattle.tds_session.specs.Script.{step_of, with_done, result_set, rows_from, row_column};
ghost use Rattle.tds_session.specs.Statements.{IsStatement};
ghost use Rattle.tds_session.specs.Words.{is_word};
ghost use Rattle.tds_token.specs.declared.token.Token.TheVariants as token;

use crate::NoMemory;
use crate::message::{error_token, message};
use crate::session::Session;
use crate::statement::{Statement, Word};
use crate::transaction::{begin, commit, roll_back};
use std::alloc::Global;
use tds_token::done_status::{COUNT, MORE};
use tds_token::{Column, ColumnList, Row, Text, Token};

/// Runs a statement: appends its tokens, and leaves the session as it is after it.
pub(crate) fn run(
    alloc: Global,
    session: &mut Session,
    statement: &Statement,
    tokens: &mut Vec<Token>,
) -> Result<(), NoMemory>
    ensures tokens { OnOk result
        (tokens.new.items ≡ tokens.old.items ++ (step_of session.old statement.now).tokens) }
    ensures session { OnOk result (session.new ≡ (step_of session.old statement.now).after) }
    ensures limits { IsStatement statement.now }
{
    match statement {
        Statement::Say(word) => put_with_done(info(alloc, word)?, tokens),
        Statement::Rows { first, count } => put_result_set(alloc, first.get(), count.get(), tokens),
        Statement::Set { key, value } => {
            session.set(key.get() as u8, *value);
            tokens.push(done(MORE, 0))?;
            Ok(())
        }
        Statement::Get { key } => {
            put_with_done(Token::ReturnStatus(session.get(key.get() as u8)), tokens)
        }
        Statement::Begin => put_with_done(begin(alloc, session)?, tokens),
        Statement::Commit => put_with_done(commit(alloc, session)?, tokens),
        Statement::Rollback => put_with_done(roll_back(alloc, session)?, tokens),
        Statement::Fail { number } => {
            tokens.push(error_token(alloc, number.get(), b"fail")?)?;
            Ok(())
        }
    }
}

/// An INFO of this word.
fn info(alloc: Global, word: &Word) -> Result<Token, NoMemory>
    ensures token { IfOk result (λ given. given ≡ token.Info (message 50000 0 word.now)) }
    ensures word { is_word word.now ≡ true }
{
    let text = Text::new(word.units().to_vec(alloc)?);
    Ok(Token::Info(message(alloc, 50000, 0, text)))
}

/// A DONE (MS-TDS 2.2.7.6).
fn done(status: u16, rows: u64) -> Token
    ensures { result ≡ token.Done status 0 rows }
{
    Token::Done {
        status,
        cur_cmd: 0,
        rows,
    }
}

/// Appends a token, and behind it, unless it is an ERROR, a DONE after which more follows.
fn put_with_done(token: Token, tokens: &mut Vec<Token>) -> Result<(), NoMemory>
    ensures { OnOk result (tokens.new.items ≡ tokens.old.items ++ with_done (token ∷ [])) }
{
    let refused = matches!(token, Token::Error(_));
    tokens.push(token)?;
    if !refused {
        tokens.push(done(MORE, 0))?;
    }
    Ok(())
}

/// Appends a result of one column: its rows, the numbers rising from `first`, and a DONE that
/// counts them.
fn put_result_set(
    alloc: Global,
    first: u32,
    count: u32,
    tokens: &mut Vec<Token>,
) -> Result<(), NoMemory>
    requires first { first ≤ 1000000 }
    requires count { count ≤ 64 }
    ensures { OnOk result (tokens.new.items ≡ tokens.old.items ++ result_set first count) }
{
    tokens.push(Token::Columns(row_columns(alloc)?))?;
    put_rows(alloc, first, count, tokens)?;
    tokens.push(done(MORE | COUNT, u64::from(count)))?;
    Ok(())
}

fn put_rows(alloc: Global, first: u32, count: u32, tokens: &mut Vec<Token>) -> Result<(), NoMemory>
    requires first { first ≤ 1000000 }
    requires count { count ≤ 64 }
    ensures { OnOk result (tokens.new.items ≡ tokens.old.items ++ rows_from first count) }
{
    for number in first..first + count {
        tokens.push(Token::Row(Row::new(vec![in alloc; number as i32]?)))?;
    }
    Ok(())
}

/// The one column, named `n`.
fn row_columns(alloc: Global) -> Result<ColumnList, NoMemory>
    ensures { IfOk result (λ columns. columns ≡ row_column ∷ []) }
{
    let name = Text::new(vec![in alloc; u16::from(b'n')]?);
    let column = Column {
        user_type: 0,
        flags: 0,
        name,
    };
    Ok(ColumnList::new(vec![in alloc; column]?))
}
