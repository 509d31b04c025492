//! Reading one token from the front of a packet's data. Each function here is the definition of
//! `specs/Reading.antt` that it names: the value and the bytes after it, or the first fault.

ghost use Rattle.std.specs.Prelude.{◌≡◌, ◌<◌, Err, length};
ghost use Rattle.tds_token.specs.AsTokens.{status_token_at};
ghost use Rattle.tds_token.specs.Layout.{is_done_status, token_of};
ghost use Rattle.tds_token.specs.Reading.{Gives, done_at, token_behind, token_at};

mod env_changes;
mod fields;
mod messages;
mod tables;

use crate::columns::Columns;
use crate::done_status::{ALL, ATTENTION, MORE};
use crate::fault::TokenFault;
use crate::reading::env_changes::env_change;
pub(crate) use crate::reading::fields::number16;
use crate::reading::fields::{byte, int, number64};
pub(crate) use crate::reading::messages::fields_inside;
use crate::reading::messages::message;
pub(crate) use crate::reading::tables::{column, whole_row};
use crate::reading::tables::{column_list, row};
use crate::token::TokenRef;

/// Whether a DONE may have this status.
#[tactic(auto, unfolding(crate::specs::Layout::is_done_status))]
pub(crate) fn is_status(status: u16) -> bool
    ensures { result ≡ is_done_status status }
{
    let both = MORE | ATTENTION;
    status & !ALL == 0 && status & both != both
}

#[tactic(auto, unfolding(crate::specs::Reading::done_at))]
#[inline(always)]
fn done(bytes: &[u8]) -> Result<(TokenRef<'_>, &[u8]), TokenFault>
    ensures { Gives (λ x. (token_of x.0, x.1.now)) result (done_at bytes.now) }
{
    if bytes.len() < 12 {
        return Err(cut_done(bytes));
    }
    let (status, rest) = number16(bytes, TokenFault::Cut)?;
    if !is_status(status) {
        return Err(TokenFault::WrongStatus);
    }
    let (cur_cmd, rest) = number16(rest, TokenFault::Cut)?;
    let (rows, rest) = number64(rest, TokenFault::Cut)?;
    Ok((
        TokenRef::Done {
            status,
            cur_cmd,
            rows,
        },
        rest,
    ))
}

/// The fault of a DONE that is cut: its status, where that is there and wrong.
#[tactic(auto, unfolding(crate::specs::Reading::done_at))]
#[cold]
fn cut_done(bytes: &[u8]) -> TokenFault
    requires { length bytes.now < 12 }
    ensures { done_at bytes.now ≡ Err result }
{
    match number16(bytes, TokenFault::Cut) {
        Ok((status, _)) if !is_status(status) => TokenFault::WrongStatus,
        _ => TokenFault::Cut,
    }
}

fn return_status(bytes: &[u8]) -> Result<(TokenRef<'_>, &[u8]), TokenFault>
    ensures { Gives (λ x. (token_of x.0, x.1.now)) result (status_token_at bytes.now) }
{
    let (value, rest) = int(bytes, TokenFault::Cut)?;
    Ok((TokenRef::ReturnStatus(value), rest))
}

/// The token with this token byte.
#[tactic(auto, unfolding(crate::specs::Reading::token_behind))]
#[inline(always)]
fn token_of_kind(
    columns: Columns,
    kind: u8,
    bytes: &[u8],
) -> Result<(TokenRef<'_>, &[u8]), TokenFault>
    ensures { Gives (λ x. (token_of x.0, x.1.now)) result (token_behind columns kind bytes.now) }
{
    match kind {
        0xAA | 0xAB => {
            let (message, rest) = message(bytes)?;
            let token = match kind {
                0xAB => TokenRef::Info(message),
                _ => TokenRef::Error(message),
            };
            Ok((token, rest))
        }
        0x79 => return_status(bytes),
        0xE3 => env_change(bytes),
        0xFD => done(bytes),
        0x81 => column_list(bytes),
        0xD1 => row(columns, bytes),
        _ => Err(TokenFault::UnknownToken),
    }
}

/// The token at the front, and the bytes after it.
#[tactic(auto, unfolding(crate::specs::Reading::token_at))]
#[inline(always)]
pub(crate) fn token(columns: Columns, bytes: &[u8]) -> Result<(TokenRef<'_>, &[u8]), TokenFault>
    ensures { Gives (λ x. (token_of x.0, x.1.now)) result (token_at columns bytes.now) }
{
    let (kind, rest) = byte(bytes, TokenFault::Cut)?;
    token_of_kind(columns, kind, rest)
}
