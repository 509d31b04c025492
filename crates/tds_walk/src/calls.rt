//! What is done with a walk: begin it, take bytes up to the end of a token, ask where it stands, begin anew.

ghost use Rattle.std.specs.Prelude.{◌≡◌};
ghost use Rattle.tds_walk.specs.WireCalls.{Begins, Feeds, Restarts, Stands, Tells};

use crate::token::{TdsWireToken, shown};
use crate::walk::TdsWire;
use tds_wire::{Features, Fed, LentWalk, Memory, Refusal};

/// A walk before the first token of an answer, with room for so many columns, at most 4,096. The
/// others say whether the login acknowledged column encryption, and data classification of version
/// 2. 0.
pub fn begin(most: u16, encryption: u8, ranks: u8, walk: &mut TdsWire, memory: &mut Memory) -> u8
    ensures { Begins most encryption ranks walk.new memory.new result }
{
    let features = Features {
        encryption: encryption != 0,
        ranks: ranks != 0,
    };
    *walk = TdsWire::of(&LentWalk::new(memory, most, features));
    0
}

/// Takes bytes of an answer's data up to the end of one token. 0 where one has ended, 1 where all
/// bytes are done with, 20 where the value is no walk's, 71 to 74 where the bytes are none.
#[inline(always)]
pub fn next(
    walk: &mut TdsWire,
    memory: &mut Memory,
    piece: &[u8],
    count: &mut usize,
    token: &mut TdsWireToken,
) -> u8
    ensures { Feeds (record {
      before = walk.old;
      after = walk.new;
      memory_before = memory.old;
      memory_after = memory.new;
      piece = piece.now;
      count = count.new;
      token_before = token.old;
      token_after = token.new;
      answer = result;
    }) }
{
    let taken = walk.take_whole(memory, piece, token);
    *count = taken;
    if taken > 0 {
        return 0;
    }
    feed(walk, memory, piece, count, token)
}

/// The same of any walk, and of any bytes.
#[inline(never)]
fn feed(
    walk: &mut TdsWire,
    memory: &mut Memory,
    piece: &[u8],
    count: &mut usize,
    token: &mut TdsWireToken,
) -> u8
    requires { count.old ≡ 0 }
    ensures { Feeds (record {
      before = walk.old;
      after = walk.new;
      memory_before = memory.old;
      memory_after = memory.new;
      piece = piece.now;
      count = count.new;
      token_before = token.old;
      token_after = token.new;
      answer = result;
    }) }
{
    let left = walk.left_within(piece);
    if left > 0 {
        walk.go_within(left, piece);
        *count = piece.len();
        return 1;
    }
    let Some(mut lent) = walk.walk() else {
        return 20;
    };
    let found = lent.feed(memory, piece);
    *walk = TdsWire::of(&lent);
    tell(found, count, token)
}

/// Tells what came of a piece.
fn tell(found: Result<Fed, Refusal>, count: &mut usize, token: &mut TdsWireToken) -> u8
    requires { count.old ≡ 0 }
    ensures { Tells found count.new token.old token.new result }
{
    match found {
        Ok(fed) => {
            *count = fed.count;
            match fed.token {
                Some(ended) => {
                    *token = shown(&ended);
                    0
                }
                None => 1,
            }
        }
        Err(refusal) => 70 + refusal.fault.number(),
    }
}

/// Whether a message may end here: 1 between two tokens, 0 inside one or behind a fault, 20 where
/// the value is no walk's.
#[inline(always)]
pub fn is_between(walk: &TdsWire, memory: &Memory) -> u8
    ensures { Stands walk.now memory.now result }
{
    memory.bounds();
    if walk.is_ready() {
        1
    } else {
        stands(walk, memory)
    }
}

/// The same of any walk.
#[inline(never)]
fn stands(walk: &TdsWire, memory: &Memory) -> u8
    ensures { Stands walk.now memory.now result }
{
    match walk.walk() {
        Some(lent) => if lent.is_between(memory) { 1 } else { 0 },
        None => 20,
    }
}

/// Begins anew before the first token of a message, with no columns. 0, or 20 where the value is no
/// walk's.
#[inline(always)]
pub fn restart(walk: &mut TdsWire, memory: &mut Memory) -> u8
    ensures { Restarts walk.old walk.new memory.old memory.new result }
{
    if walk.is_ready() {
        walk.start = 0;
        memory.count = 0;
        return 0;
    }
    restart_any(walk, memory)
}

/// The same of any walk.
#[inline(never)]
fn restart_any(walk: &mut TdsWire, memory: &mut Memory) -> u8
    ensures { Restarts walk.old walk.new memory.old memory.new result }
{
    let Some(mut lent) = walk.walk() else {
        return 20;
    };
    lent.restart(memory);
    *walk = TdsWire::of(&lent);
    0
}
