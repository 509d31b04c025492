//! A token that stands whole between two tokens, for a caller who hears it by itself.

ghost use Rattle.std.specs.Prelude.{◌≡◌, ◌≤◌, ◌<◌, None, IfNone, IfSome, Some, length, true};
ghost use Rattle.tds_wire.specs.Reading.{Parser, is_between, restarted};
ghost use Rattle.tds_walk.specs.Taking.{IsReadyValue, TakesToken};
ghost use Rattle.tds_walk.specs.WireCalls.{reading_from};

use crate::walk::TdsWire;
use tds_wire::{Memory, Token, whole_token};

/// Takes the token that bytes begin with, where it is whole, says in its first bytes how long it is, and is
/// no row: how many bytes it has. Else nothing is done. The walk is between two tokens.
#[inline(always)]
pub fn take_token(
    walk: &mut TdsWire,
    memory: &Memory,
    piece: &[u8],
    token: &mut Option<Token>,
) -> usize
    requires ready { IsReadyValue walk.old }
    requires none { token.old ≡ None }
    ensures ready { IsReadyValue walk.new }
    ensures within { result ≤ length piece.now }
    ensures nothing { IfNone token.new (walk.new ≡ walk.old) }
    ensures many { IfSome token.new (λ _. 0 < result) }
    ensures taken { IfSome token.new (λ token.
        TakesToken memory.now walk.old walk.new token result piece.now) }
{
    memory.bounds();
    whole_token(&mut walk.start, &mut walk.kind, piece, token)
}

/// Begins anew before the first token of a message. The walk is between two tokens.
#[inline(always)]
pub fn begin_anew(walk: &mut TdsWire, memory: &mut Memory)
    requires ready { IsReadyValue walk.old }
    ensures { (r : Parser) → reading_from walk.old memory.old ≡ Some r → (is_between r ≡ true)
        × (reading_from walk.new memory.new ≡ Some (restarted r)) }
{
    walk.start = 0;
    memory.count = 0;
}
