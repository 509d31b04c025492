//! What a session needs of a token of any answer.

ghost use Rattle.std.specs.Prelude.{◌≡◌};
ghost use Rattle.tds_listen.specs.Signs.{change_sign, done_kind, sign_of, transaction_change};
ghost use Rattle.tds_listen.specs.Signs.{unclear_sign};

use tds_client::{DoneKind, Sign};
use tds_token::EnvChange;
use tds_wire::{ChangeValue, Token, Told};

/// Which of the three tokens says that something is done (MS-TDS 2.2.7.6 to 2.2.7.8).
#[tactic(auto, unfolding(crate::specs::Signs::done_kind))]
fn done_kind(kind: u8) -> DoneKind
    ensures { result ≡ done_kind kind }
{
    match kind {
        0xFE => DoneKind::Procedure,
        0xFF => DoneKind::InProcedure,
        _ => DoneKind::Statement,
    }
}

/// What a change of a transaction is to a session, by the change's type (MS-TDS 2.2.7.9).
#[tactic(auto, unfolding(crate::specs::Signs::transaction_change))]
fn transaction_change(kind: u8, new: u64, old: u64) -> EnvChange
    ensures { result ≡ transaction_change kind new old }
{
    match kind {
        8 | 11 => EnvChange::Begin(new),
        9 => EnvChange::Commit(old),
        _ => EnvChange::Rollback(old),
    }
}

fn change_sign(kind: u8, value: ChangeValue) -> Sign
    ensures { result ≡ change_sign kind value }
{
    match value {
        ChangeValue::Transaction { new, old } => Sign::Change(transaction_change(kind, new, old)),
        ChangeValue::ResetDone => Sign::Change(EnvChange::ResetDone),
        ChangeValue::PacketSize(_) => Sign::Nothing,
        ChangeValue::Values { .. } => Sign::Nothing,
        ChangeValue::Other => Sign::Nothing,
    }
}

/// The sign of a token that says nothing clear.
#[tactic(auto, unfolding(crate::specs::Signs::unclear_sign))]
fn unclear_sign(kind: u8) -> Sign
    ensures { result ≡ unclear_sign kind }
{
    if kind == 0xE3 {
        Sign::Change(EnvChange::Begin(0))
    } else {
        Sign::Nothing
    }
}

/// What a session needs of a token (MS-TDS 2.2.7.6 to 2.2.7.9): that a transaction began or ended,
/// that a reset is done, or that something is done; of all other tokens nothing.
///
/// ENVCHANGE 11 (enlisted) is heard as a begin, 12 (defected) and 17 (ended) as a rollback. One that
/// can't be read is heard as a begin of descriptor 0, which no transaction has: the client's fault 4.
pub fn sign_of(token: &Token) -> Sign
    ensures { result ≡ sign_of token.now }
{
    match token.told {
        Told::Done(done) => Sign::Done {
            kind: done_kind(token.kind),
            status: done.status,
        },
        Told::Change(change) => change_sign(change.kind, change.value),
        Told::Message(_) => Sign::Nothing,
        Told::ReturnStatus(_) => Sign::Nothing,
        Told::SessionState(_) => Sign::Nothing,
        Told::Unclear => unclear_sign(token.kind),
        Told::Other => Sign::Nothing,
    }
}
