//! What a session needs of what is told here: of a token of a walk, or of what a reader of the caller's
//! own found.

ghost use Rattle.std.specs.Prelude.{◌≡◌};
ghost use Rattle.tds_listen.specs.Signs as signs;
ghost use Rattle.tds_c.specs.service.Hearing.{change_from, change_sign, done_from, done_sign, sign_at};

use tds_client::{DoneKind, Sign};
use tds_token::EnvChange;
use tds_walk::TdsWireToken;

/// The change of this number (MS-TDS 2.2.7.9).
#[inline(always)]
#[tactic(auto, unfolding(crate::specs::service::Hearing::change_from))]
fn change(number: u8, descriptor: u64) -> Option<EnvChange>
    ensures { result ≡ change_from number descriptor }
{
    match number {
        8 | 11 => Some(EnvChange::Begin(descriptor)),
        9 | 12 => Some(EnvChange::Commit(descriptor)),
        10 | 17 => Some(EnvChange::Rollback(descriptor)),
        18 => Some(EnvChange::ResetDone),
        _ => None,
    }
}

#[inline(always)]
pub(crate) fn change_sign(number: u8, descriptor: u64) -> Option<Sign>
    ensures { result ≡ change_sign (change_from number descriptor) }
{
    match change(number, descriptor) {
        Some(change) => Some(Sign::Change(change)),
        None => None,
    }
}

/// The DONE of this token byte.
#[inline(always)]
#[tactic(auto, unfolding(crate::specs::service::Hearing::done_from))]
fn done(number: u8) -> Option<DoneKind>
    ensures { result ≡ done_from number }
{
    match number {
        0xFD => Some(DoneKind::Statement),
        0xFE => Some(DoneKind::Procedure),
        0xFF => Some(DoneKind::InProcedure),
        _ => None,
    }
}

#[inline(always)]
pub(crate) fn done_sign(number: u8, status: u16) -> Option<Sign>
    ensures { result ≡ done_sign (done_from number) status }
{
    match done(number) {
        Some(kind) => Some(Sign::Done { kind, status }),
        None => None,
    }
}

#[inline(always)]
#[tactic(auto, unfolding(tds_listen::specs::Signs::done_kind))]
fn done_kind(kind: u8) -> DoneKind
    ensures { result ≡ signs.done_kind kind }
{
    match kind {
        0xFE => DoneKind::Procedure,
        0xFF => DoneKind::InProcedure,
        _ => DoneKind::Statement,
    }
}

#[inline(always)]
#[tactic(auto, unfolding(tds_listen::specs::Signs::transaction_change))]
fn transaction_change(kind: u8, new: u64, old: u64) -> EnvChange
    ensures { result ≡ signs.transaction_change kind new old }
{
    match kind {
        8 | 11 => EnvChange::Begin(new),
        9 => EnvChange::Commit(old),
        _ => EnvChange::Rollback(old),
    }
}

#[inline(always)]
#[tactic(auto, unfolding(tds_listen::specs::Signs::unclear_sign))]
fn unclear_sign(kind: u8) -> Sign
    ensures { result ≡ signs.unclear_sign kind }
{
    if kind == 0xE3 {
        Sign::Change(EnvChange::Begin(0))
    } else {
        Sign::Nothing
    }
}

/// The sign of a token that a walk gave.
#[inline(always)]
#[tactic(auto, unfolding(crate::specs::service::Hearing::sign_at))]
pub(crate) fn sign_of(token: &TdsWireToken) -> Sign
    ensures { result ≡ sign_at token.now }
{
    match token.told {
        1 => Sign::Done {
            kind: done_kind(token.kind),
            status: token.status,
        },
        2 => Sign::Change(transaction_change(token.change, token.value, token.old_value)),
        3 => Sign::Change(EnvChange::ResetDone),
        10 => unclear_sign(token.kind),
        _ => Sign::Nothing,
    }
}
