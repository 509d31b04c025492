//! The token that stands whole in a run of bytes, of which no more of a walk is needed than where it starts.

ghost use Rattle.std.specs.Prelude.{◌≡◌, ◌≤◌, ◌<◌, IfSome, IsSome, get_or, length};
ghost use Rattle.tds_wire.specs.Told.{added};
ghost use Rattle.tds_wire.specs.Whole.{IsNext, IsWhole};

use crate::cursor::{change_length, counted_length, has_done, has_status, reset_length};
use crate::head::first_of;
use crate::told::{Token, added, put_token};

/// Leaves the token of so many bytes that bytes begin with, its first byte, and where the next one starts.
#[inline(always)]
fn put_whole(start: &mut u64, kind: &mut u8, piece: &[u8], count: usize, token: &mut Option<Token>)
    requires many { 0 < count }
    requires within { count ≤ length piece.now }
    requires whole { IsWhole count piece.now }
    ensures some { IsSome token.new }
    ensures exact { IsNext start.old count token.new piece.now }
    ensures kind { kind.new ≡ get_or piece.now 0 0 }
    ensures start { start.new ≡ added start.old count }
    ensures end { IfSome token.new (λ token. start.new ≡ added token.start token.length) }
{
    // Nothing of it was passed before.
    let length = added(0, count as u64);
    let here = *start;
    put_token(piece[0], here, length, first_of(&piece[..count]), token);
    *kind = piece[0];
    *start = added(here, length);
}

/// The token that bytes begin with, where it is whole, says in its first bytes how long it is, and is no
/// row: how many bytes it has. Else the answer is 0, and nothing is done. Of a walk between two tokens no
/// more is needed than where the next one starts, and no more changes than that and the kind. It isn't put
/// into its callers, of whose tokens it holds the place. Each kind that most answers have is written at
/// once, as its length is known.
#[inline(never)]
pub fn whole_token(start: &mut u64, kind: &mut u8, piece: &[u8], token: &mut Option<Token>) -> usize
    ensures within { result ≤ length piece.now }
    ensures stays { result ≡ 0 → token.new ≡ token.old }
    ensures same { result ≡ 0 → (start.new ≡ start.old) × (kind.new ≡ kind.old) }
    ensures some { 0 < result → IsSome token.new }
    ensures exact { 0 < result → IsNext start.old result token.new piece.now }
    ensures kind { 0 < result → kind.new ≡ get_or piece.now 0 0 }
    ensures start { 0 < result → start.new ≡ added start.old result }
    ensures end { 0 < result → IfSome token.new (λ token.
        start.new ≡ added token.start token.length) }
{
    if has_done(piece) {
        put_whole(start, kind, piece, 13, token);
        return 13;
    }
    if has_status(piece) {
        put_whole(start, kind, piece, 5, token);
        return 5;
    }
    let reset = reset_length(piece);
    if reset > 0 {
        put_whole(start, kind, piece, reset, token);
        return reset;
    }
    other_token(start, kind, piece, token)
}

/// The same of a token of any other kind.
#[inline(never)]
fn other_token(start: &mut u64, kind: &mut u8, piece: &[u8], token: &mut Option<Token>) -> usize
    ensures within { result ≤ length piece.now }
    ensures stays { result ≡ 0 → token.new ≡ token.old }
    ensures same { result ≡ 0 → (start.new ≡ start.old) × (kind.new ≡ kind.old) }
    ensures some { 0 < result → IsSome token.new }
    ensures exact { 0 < result → IsNext start.old result token.new piece.now }
    ensures kind { 0 < result → kind.new ≡ get_or piece.now 0 0 }
    ensures start { 0 < result → start.new ≡ added start.old result }
    ensures end { 0 < result → IfSome token.new (λ token.
        start.new ≡ added token.start token.length) }
{
    let change = change_length(piece);
    if change > 0 {
        put_whole(start, kind, piece, change, token);
        return change;
    }
    let counted = counted_length(piece);
    if counted == 0 {
        return 0;
    }
    put_whole(start, kind, piece, counted, token);
    counted
}
