//! Where each token of an answer ends: the exports of `include/tds_wire.h`.

ghost use Rattle.tds_walk.specs.WireCalls.{Begins, Feeds, Restarts, Stands};

mod hearing;
mod places;

use tds_walk::{TdsWire, TdsWireToken, begin, is_between, next, restart};
use tds_wire::Memory;

/// A walk before the first token of an answer, with room for so many columns, at most 4,096. The
/// others say whether the login acknowledged column encryption, and data classification of version
/// 2. 0.
#[unsafe(no_mangle)]
pub extern "C" fn tds_wire_new(
    most: u16,
    encryption: u8,
    ranks: u8,
    walk: &mut TdsWire,
    memory: &mut Memory,
) -> u8
    ensures { Begins most encryption ranks walk.new memory.new result }
{
    begin(most, encryption, ranks, walk, memory)
}

/// Takes bytes of an answer's data up to the end of one token. 0 where one has ended, 1 where all
/// bytes are done with, 20 where the value is no walk's, 71 to 74 where the bytes are none.
#[unsafe(no_mangle)]
pub extern "C" fn tds_wire_next(
    walk: &mut TdsWire,
    memory: &mut Memory,
    piece: &[u8],
    count: &mut usize,
    token: &mut TdsWireToken,
) -> u8
    ensures { Feeds (record {
      before = walk.old;
      after = walk.new;
      memory_before = memory.old;
      memory_after = memory.new;
      piece = piece.now;
      count = count.new;
      token_before = token.old;
      token_after = token.new;
      answer = result;
    }) }
{
    next(walk, memory, piece, count, token)
}

/// Whether a message may end here: 1 between two tokens, 0 inside one or behind a fault, 20 where
/// the value is no walk's.
#[unsafe(no_mangle)]
pub extern "C" fn tds_wire_is_between(walk: &TdsWire, memory: &Memory) -> u8
    ensures { Stands walk.now memory.now result }
{
    is_between(walk, memory)
}

/// Begins anew before the first token of a message, with no columns. 0, or 20 where the value is no
/// walk's.
#[unsafe(no_mangle)]
pub extern "C" fn tds_wire_restart(walk: &mut TdsWire, memory: &mut Memory) -> u8
    ensures { Restarts walk.old walk.new memory.old memory.new result }
{
    restart(walk, memory)
}
