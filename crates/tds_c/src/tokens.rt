//! Tokens out of a packet's data, one behind the other.

ghost use Rattle.std.specs.Prelude.{◌≡◌, ◌≤◌, ◌+◌, ◌*◌, List, Option, Result, Ok, Some, IfNone, IfSome, length, pos};
ghost use Rattle.tds_token.specs.Layout.{token_of};
ghost use Rattle.tds_c.specs.declared.answers.Stop.{Stop};
ghost use Rattle.tds_c.specs.declared.tokens.Ran.{Ran};
ghost use Rattle.tds_c.specs.declared.tokens.TdsCursor.{TdsCursor};
ghost use Rattle.tds_c.specs.declared.tokens.TdsToken.{TdsToken};
ghost use Rattle.tds_c.specs.Answers.{done_number, number_of};
ghost use Rattle.tds_c.specs.Tokens.{HasRun, Reads, ReadsRows, ReadsRun, Shows, ShowsChange};
ghost use Rattle.tds_c.specs.Tokens.{ShowsMessage, found_number, given, ran_number};

use crate::answers::{Stop, done_code};
use crate::buffer::behind;
use crate::numbers::{columns_from, columns_number};
use tds_token::{EnvChange, MessageRef, TokenRef, Tokens};

/// A place in a packet's data: `struct tds_cursor`.
#[repr(C)]
#[derive(Clone, Copy)]
pub struct TdsCursor {
    /// The bytes before it.
    pub at: usize,
    /// The columns that are known there, 0 for none.
    pub columns: u8,
}

/// A token: `struct tds_token`. A field that its kind does not have is 0.
#[repr(C)]
#[derive(Clone, Copy)]
pub struct TdsToken {
    /// The rows of a DONE; the descriptor of an ENVCHANGE; the columns of a COLMETADATA; the values
    /// of a ROW.
    pub value: u64,
    /// The first byte of the token in the data.
    pub start: usize,
    /// The number of an INFO or ERROR; the value of a RETURNSTATUS.
    pub number: i32,
    /// The line of an INFO or ERROR.
    pub line: i32,
    /// The status and the command of a DONE.
    pub status: u16,
    pub cur_cmd: u16,
    /// The token's byte.
    pub kind: u8,
    /// The state and the class of an INFO or ERROR.
    pub state: u8,
    pub severity: u8,
    /// The type of an ENVCHANGE.
    pub change: u8,
}

/// Rows one behind the other: `struct tds_rows`. Each is its token byte and four bytes a column.
#[repr(C)]
#[derive(Clone, Copy)]
pub struct TdsRows {
    /// The first byte of the first row in the data.
    pub start: usize,
    /// How many rows there are.
    pub count: usize,
    /// The columns of each.
    pub columns: usize,
}

/// Why a call that reads several tokens stopped, where no byte is wrong.
#[derive(Clone, Copy)]
pub(crate) enum Ran {
    /// The room for tokens is full.
    Full,
    /// The data are at their end.
    End,
}

#[inline(always)]
fn blank(kind: u8, start: usize) -> TdsToken
    ensures { result ≡ record {
      value = 0;
      start = start;
      number = pos 0;
      line = pos 0;
      status = 0;
      cur_cmd = 0;
      kind = kind;
      state = 0;
      severity = 0;
      change = 0;
    } }
{
    TdsToken {
        value: 0,
        start,
        number: 0,
        line: 0,
        status: 0,
        cur_cmd: 0,
        kind,
        state: 0,
        severity: 0,
        change: 0,
    }
}

#[inline(always)]
fn message(kind: u8, start: usize, message: &MessageRef<'_>) -> TdsToken
    ensures { ShowsMessage result kind start message.now }
{
    TdsToken {
        number: message.number(),
        line: message.line(),
        state: message.state(),
        severity: message.class(),
        ..blank(kind, start)
    }
}

#[inline(always)]
fn change(start: usize, change: EnvChange) -> TdsToken
    ensures { ShowsChange result start change }
{
    let (kind, descriptor) = match change {
        EnvChange::Begin(descriptor) => (8, descriptor),
        EnvChange::Commit(descriptor) => (9, descriptor),
        EnvChange::Rollback(descriptor) => (10, descriptor),
        EnvChange::ResetDone => (18, 0),
    };
    TdsToken {
        value: descriptor,
        change: kind,
        ..blank(0xE3, start)
    }
}

#[inline(always)]
fn shown(start: usize, columns: u8, token: &TokenRef<'_>) -> TdsToken
    ensures { Shows result start columns (token_of token.now) }
{
    match token {
        TokenRef::Info(info) => message(0xAB, start, info),
        TokenRef::Error(error) => message(0xAA, start, error),
        TokenRef::ReturnStatus(value) => TdsToken {
            number: *value,
            ..blank(0x79, start)
        },
        TokenRef::Columns(columns) => TdsToken {
            value: u64::from(columns.count()),
            ..blank(0x81, start)
        },
        TokenRef::Row(_) => TdsToken {
            value: u64::from(columns),
            ..blank(0xD1, start)
        },
        TokenRef::Env(env) => change(start, *env),
        TokenRef::Done {
            status,
            cur_cmd,
            rows,
        } => TdsToken {
            value: *rows,
            status: *status,
            cur_cmd: *cur_cmd,
            ..blank(0xFD, start)
        },
    }
}

/// The token at the cursor, which goes on behind it. None at the end of the data.
#[inline(always)]
fn next(data: &[u8], cursor: &mut TdsCursor) -> Result<Option<TdsToken>, Stop>
    ensures { Reads «data».now cursor.old cursor.new result }
{
    let Some(columns) = columns_from(cursor.columns) else {
        return Err(Stop::NoPlace);
    };
    if cursor.at > data.len() {
        return Err(Stop::NoPlace);
    }
    let mut tokens = Tokens::new(&data[cursor.at..], columns);
    match tokens.next() {
        None => Ok(None),
        Some(Ok(found)) => {
            let token = shown(cursor.at, cursor.columns, &found);
            cursor.at = data.len().saturating_sub(tokens.left().len());
            cursor.columns = columns_number(tokens.columns());
            Ok(Some(token))
        }
        Some(Err(fault)) => {
            cursor.at = data.len();
            Err(Stop::Token(fault))
        }
    }
}

/// Reads the token at the cursor, and goes on behind it. 0 where it is a token, 9 at the end of the
/// data.
#[unsafe(no_mangle)]
pub extern "C" fn tds_token_next(data: &[u8], cursor: &mut TdsCursor, token: &mut TdsToken) -> u8
    ensures { (answer : Result (Option TdsToken) Stop) × (result ≡ number_of found_number answer)
        × Reads «data».now cursor.old cursor.new answer × (token.new ≡ given token.old answer) }
{
    match next(data, cursor) {
        Ok(Some(found)) => {
            *token = found;
            0
        }
        Ok(None) => 9,
        Err(stop) => stop.number(),
    }
}

/// The row at this place, where the data have room for one.
#[inline(always)]
fn row_at(data: &[u8], at: usize, columns: u8) -> Option<TdsToken>
    requires least { 1 ≤ columns }
    requires most { columns ≤ 16 }
    requires room { at + (1 + 4 * columns) ≤ length «data».now }
    ensures { IfSome result (λ row. Reads «data».now (record { at = at; columns = columns })
        (record { at = at + (1 + 4 * columns); columns = columns }) (Ok (Some row))) }
{
    if data[at] != 0xD1 {
        return None;
    }
    Some(TdsToken {
        value: u64::from(columns),
        ..blank(0xD1, at)
    })
}

/// What `run_rows` does where a row is at the cursor: a function of its own, so that its loop has the
/// registers to itself.
#[inline(never)]
fn fill_rows(data: &[u8], cursor: &mut TdsCursor, tokens: &mut [TdsToken], read: usize) -> usize
    requires { read ≤ length tokens.old }
    ensures run { (first : TdsCursor) (room : List TdsToken) → length room ≡ length tokens.old
        → HasRun «data».now first cursor.old
        (record { before = room; after = tokens.old; count = read })
        → HasRun «data».now first cursor.new
        (record { before = room; after = tokens.new; count = result }) }
    ensures same { length tokens.new ≡ length tokens.old }
    ensures within { result ≤ length tokens.old }
    ensures on { read ≤ result }
{
    let columns = cursor.columns;
    if columns == 0 || columns > 16 || cursor.at > data.len() {
        return read;
    }
    let size = 1 + 4 * usize::from(columns);
    // So many rows have room in the data and in the tokens: of each, its byte alone is looked at.
    let whole = (data.len() - cursor.at) / size;
    let mut left = whole.min(tokens.len() - read);
    let most = read + left;
    let mut at = cursor.at;
    'rows: while left > 0 {
        let Some(row) = row_at(data, at, columns) else {
            break;
        };
        tokens[most - left] = row;
        at += size;
        left -= 1;
    }
    cursor.at = at;
    most - left
}

/// Reads rows one behind the other behind those tokens that were read, until the room is full or
/// there is none. Answers how many tokens there are then.
#[inline(always)]
fn run_rows(data: &[u8], cursor: &mut TdsCursor, tokens: &mut [TdsToken], read: usize) -> usize
    requires { read ≤ length tokens.old }
    ensures run { (first : TdsCursor) (room : List TdsToken) → length room ≡ length tokens.old
        → HasRun «data».now first cursor.old
        (record { before = room; after = tokens.old; count = read })
        → HasRun «data».now first cursor.new
        (record { before = room; after = tokens.new; count = result }) }
    ensures same { length tokens.new ≡ length tokens.old }
    ensures within { result ≤ length tokens.old }
    ensures on { read ≤ result }
{
    if cursor.at >= data.len() || data[cursor.at] != 0xD1 {
        return read;
    }
    let mut place = *cursor;
    let read = fill_rows(data, &mut place, tokens, read);
    *cursor = place;
    read
}

/// Reads one token behind the other, until the room is full or there is none.
#[inline(always)]
fn run(
    data: &[u8],
    cursor: &mut TdsCursor,
    tokens: &mut [TdsToken],
    count: &mut usize,
) -> Result<Ran, Stop>
    ensures { ReadsRun «data».now cursor.old cursor.new
        (record { before = tokens.old; after = tokens.new; count = count.new }) result }
{
    let mut place = *cursor;
    let mut read = 0;
    'tokens: while read < tokens.len() {
        read = run_rows(data, &mut place, tokens, read);
        if read == tokens.len() {
            break;
        }
        match next(data, &mut place) {
            Ok(Some(token)) => tokens[read] = token,
            Ok(None) => {
                *cursor = place;
                *count = read;
                return Ok(Ran::End);
            }
            Err(stop) => {
                *cursor = place;
                *count = read;
                return Err(stop);
            }
        }
        read += 1;
    }
    *cursor = place;
    *count = read;
    Ok(Ran::Full)
}

/// Reads the tokens behind the cursor, as `tds_token_next` gives them one after the other, until
/// the room is full. 0 where it is full, 9 at the end of the data. What was read before the end or
/// before bytes that spell no token stands at the front of the room.
#[unsafe(no_mangle)]
pub extern "C" fn tds_tokens_next(
    data: &[u8],
    cursor: &mut TdsCursor,
    tokens: &mut [TdsToken],
    count: &mut usize,
) -> u8
    ensures { (answer : Result Ran Stop) × (result ≡ number_of ran_number answer)
        × ReadsRun «data».now cursor.old cursor.new
        (record { before = tokens.old; after = tokens.new; count = count.new }) answer }
{
    match run(data, cursor, tokens, count) {
        Ok(Ran::Full) => 0,
        Ok(Ran::End) => 9,
        Err(stop) => stop.number(),
    }
}

/// The rows at the cursor, which goes on behind them.
#[inline(always)]
fn run_of_rows(data: &[u8], cursor: &mut TdsCursor, rows: &mut TdsRows) -> Result<(), Stop>
    ensures { ReadsRows «data».now cursor.old cursor.new rows.old rows.new result }
{
    let Some(columns) = columns_from(cursor.columns) else {
        return Err(Stop::NoPlace);
    };
    if cursor.at > data.len() {
        return Err(Stop::NoPlace);
    }
    let mut tokens = Tokens::new(behind(data, cursor.at), columns);
    let run = tokens.rows();
    *rows = TdsRows {
        start: cursor.at,
        count: run.len(),
        columns: usize::from(cursor.columns),
    };
    cursor.at = data.len().saturating_sub(tokens.left().len());
    cursor.columns = columns_number(tokens.columns());
    Ok(())
}

/// Reads all the rows at the cursor as one run, and goes on behind them. None of them where no row
/// is there. 0, or 26 where the cursor is no place in these data.
#[unsafe(no_mangle)]
pub extern "C" fn tds_rows_next(data: &[u8], cursor: &mut TdsCursor, rows: &mut TdsRows) -> u8
    ensures { (answer : Result (Unit {0}) Stop) × (result ≡ number_of done_number answer)
        × ReadsRows «data».now cursor.old cursor.new rows.old rows.new answer }
{
    done_code(run_of_rows(data, cursor, rows))
}
