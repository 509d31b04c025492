//! The two walks over a packet's data: the first judges the tokens and takes no memory, the second
//! makes those that are told the caller's own.

ghost use Rattle.std.specs.Prelude.{◌≡◌, ◌≢◌, [], ◌++◌, Ok, Err, IfOk, OnOk, OnErr, MatchResult, length, take};
ghost use Rattle.tds_token.specs.Told.{told};
ghost use Rattle.tds_token.specs.Contents.{contents_of};
ghost use Rattle.tds_client.specs.Hearing.{hear_contents, hear_packet};

use crate::NoMemory;
use crate::fault::ClientFault;
use crate::heard::Heard;
use crate::sign::Rules;
use std::alloc::Global;
use tds_token::{Columns, Token, Tokens};

/// Hears all tokens of these data, where these columns are known. Answers what was heard, and the
/// columns that are known behind them.
fn hear_data(
    cancelling: bool,
    heard: Heard,
    columns: Columns,
    data: &[u8],
) -> Result<(Heard, Columns), ClientFault>
    ensures heard { MatchResult result
        (λ x. hear_contents cancelling heard (contents_of columns «data».now) ≡ Ok x.0)
        (λ fault. hear_contents cancelling heard (contents_of columns «data».now) ≡ Err fault) }
    ensures columns { IfOk result (λ x. x.1 ≡ (contents_of columns «data».now).columns) }
{
    let mut tokens = Tokens::new(data, columns);
    let mut heard = heard;
    'tokens: while let Some(next) = tokens.next() {
        match next {
            Ok(token) => {
                heard = heard.hear(cancelling, &token)?;
                // Behind a row that was heard more rows change nothing: they are passed as one run.
                if token.is_row() {
                    let _ = tokens.rows();
                }
            }
            Err(fault) => return Err(ClientFault::Token(fault)),
        }
    }
    Ok((heard, tokens.columns()))
}

/// Hears a packet that ends its message or not.
#[tactic(auto, unfolding(crate::specs::Hearing::hear_packet))]
pub(crate) fn hear_packet(
    cancelling: bool,
    heard: Heard,
    columns: Columns,
    ends: bool,
    data: &[u8],
) -> Result<(Heard, Columns), ClientFault>
    ensures heard { MatchResult result
        (λ x. hear_packet cancelling heard ends (contents_of columns «data».now) ≡ Ok x.0)
        (λ fault. hear_packet cancelling heard ends (contents_of columns «data».now) ≡ Err fault) }
    ensures columns { IfOk result (λ x. x.1 ≡ (contents_of columns «data».now).columns) }
{
    let (heard, columns) = hear_data(cancelling, heard, columns, data)?;
    if !ends {
        return Ok((heard, columns));
    }
    if heard.may_end(Rules::Strict, false) {
        Ok((heard, columns))
    } else {
        Err(ClientFault::NoFinalDone)
    }
}

/// Appends the tokens of these data that are told to the caller: all but the ENVCHANGEs. At want of
/// memory some of them may be appended, and what was there before is there.
pub(crate) fn put_told(
    alloc: Global,
    columns: Columns,
    data: &[u8],
    out: &mut Vec<Token>,
) -> Result<(), NoMemory>
    ensures ok { OnOk result
        (out.new.items ≡ out.old.items ++ told (contents_of columns «data».now).tokens) }
    ensures kept { take (length out.old.items) out.new.items ≡ out.old.items }
    ensures telling { OnErr result (told (contents_of columns «data».now).tokens ≢ []) }
{
    let mut tokens = Tokens::new(data, columns);
    'tokens: while let Some(next) = tokens.next() {
        match next {
            Ok(token) => {
                if !token.is_env() {
                    out.push(token.own(alloc)?)?;
                }
            }
            Err(_) => return Ok(()),
        }
    }
    Ok(())
}
