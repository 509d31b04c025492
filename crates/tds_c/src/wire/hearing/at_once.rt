//! The tokens that most answers end with, known by their bytes: a DONE, a RETURNSTATUS and the end of a reset. None
//! has a place of its own between its bytes and the caller's room.

ghost use Rattle.std.specs.Prelude.{◌≡◌, ◌≤◌, IfSome, Some, get_or, length, true};
ghost use Rattle.tds_wire.specs.Told.{added};
ghost use Rattle.tds_wire.specs.Layout.{is_done};
ghost use Rattle.tds_wire.specs.Walking.{Walk, begun, with_run};
ghost use Rattle.tds_wire.specs.Whole.{IsNext};
ghost use Rattle.tds_wire.specs.declared.due.Next.TheVariants.{Ended};

use tds_wire::{Change, ChangeValue, Done, Token, Told};

/// A place so many bytes behind another. None is counted beyond the most that 64 bits hold.
#[inline(always)]
pub(super) fn added(place: u64, count: u64) -> u64
    ensures { result ≡ added place count }
{
    place.saturating_add(count)
}

/// Whether it is the first byte of such a token.
#[inline(always)]
#[tactic(auto, unfolding(tds_wire::specs::Walking::begun))]
fn is_done(kind: u8) -> bool
    ensures begins { result ≡ true → (w : Walk) → begun w kind ≡ with_run w 12 Ended }
    ensures done { result ≡ true → is_done kind ≡ true }
{
    matches!(kind, 0xFD | 0xFE | 0xFF)
}

/// The DONE, DONEPROC or DONEINPROC that stands here whole (MS-TDS 2.2.7.6 to 2.2.7.8).
#[inline(always)]
pub(super) fn done_here(start: u64, piece: &[u8]) -> Option<Token>
    ensures within { IfSome result (λ _. 13 ≤ length piece.now) }
    ensures next { IfSome result (λ token. IsNext start 13 (Some token) piece.now) }
    ensures kind { IfSome result (λ token. token.kind ≡ get_or piece.now 0 0) }
{
    let [kind, s0, s1, c0, c1, n0, n1, n2, n3, n4, n5, n6, n7, ..] = piece else {
        return None;
    };
    if !is_done(*kind) {
        return None;
    }
    Some(Token {
        kind: *kind,
        start,
        length: 13,
        told: Told::Done(Done {
            status: u16::from_le_bytes([*s0, *s1]),
            command: u16::from_le_bytes([*c0, *c1]),
            count: u64::from_le_bytes([*n0, *n1, *n2, *n3, *n4, *n5, *n6, *n7]),
        }),
    })
}

/// The RETURNSTATUS that does (MS-TDS 2.2.7.18).
#[inline(always)]
pub(super) fn status_here(start: u64, piece: &[u8]) -> Option<Token>
    ensures within { IfSome result (λ _. 5 ≤ length piece.now) }
    ensures next { IfSome result (λ token. IsNext start 5 (Some token) piece.now) }
    ensures kind { IfSome result (λ token. token.kind ≡ get_or piece.now 0 0) }
{
    let [0x79, a, b, c, d, ..] = piece else {
        return None;
    };
    Some(Token {
        kind: 0x79,
        start,
        length: 5,
        told: Told::ReturnStatus(u32::from_le_bytes([*a, *b, *c, *d]).cast_signed()),
    })
}

/// The end of a reset that does, an ENVCHANGE of type 18 without values (MS-TDS 2.2.7.9).
#[inline(always)]
pub(super) fn reset_here(start: u64, piece: &[u8]) -> Option<Token>
    ensures within { IfSome result (λ _. 6 ≤ length piece.now) }
    ensures next { IfSome result (λ token. IsNext start 6 (Some token) piece.now) }
    ensures kind { IfSome result (λ token. token.kind ≡ get_or piece.now 0 0) }
{
    let [0xE3, 3, 0, 18, 0, 0, ..] = piece else {
        return None;
    };
    Some(Token {
        kind: 0xE3,
        start,
        length: 6,
        told: Told::Change(Change {
            kind: 18,
            value: ChangeValue::ResetDone,
        }),
    })
}
