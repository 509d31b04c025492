//! What a seat's client hears of the bytes of a packet, by a walk over them.

ghost use Rattle.std.specs.Prelude.{◌≡◌, ◌≤◌, ◌<◌, IfErr, IfOk, MatchResult, List, None, Option, Some, drop, length, true};
ghost use Rattle.tds_wire.specs.Lent.{reading_of};
ghost use Rattle.tds_wire.specs.Reading.{Parser, next_token};
ghost use Rattle.tds_wire.specs.declared.told.Token.{Token as AnyToken};
ghost use Rattle.tds_walk.specs.Wire.{truth};
ghost use Rattle.tds_walk.specs.WireCalls.{reading_from};
ghost use Rattle.tds_walk.specs.WireTokens.{Puts};
ghost use Rattle.tds_service.specs.Ties.{listed};
ghost use Rattle.tds_c.specs.service.ComesOn.{BreaksOn, MovesOn, is_reading};
ghost use Rattle.tds_c.specs.service.Here.{HasCome, HearsHere, IsNothing, PausesHere, Start, StopsHere};
ghost use Rattle.tds_c.specs.service.Packet.{SaysFault};
ghost use Rattle.tds_c.specs.service.Plain.{stage_of};

use crate::service::packet::listening::{end_message, fail, hear_token};
use crate::service::packet::{Halt, Without, halt_number, unheard_number, whose};
use crate::service::plain::{TdsSeat, TdsWhose};
use tds_listen::ListenFault;
use tds_walk::{TdsWire, TdsWireToken};
use tds_wire::{LentWalk, Memory};

/// Why no more tokens were heard, where none is at fault.
#[derive(Clone, Copy)]
pub(crate) enum Pause {
    /// The room for tokens is full, and bytes are left.
    Full,
    /// All bytes are done with.
    Through,
}

/// What stands behind so many bytes.
#[inline(always)]
pub(super) fn behind(bytes: &[u8], before: usize) -> &[u8]
    requires { before ≤ length bytes.now }
    ensures { result.now ≡ drop before bytes.now }
{
    bytes.split_at(before).1
}

/// Hears what ends next in a piece: how many bytes of it are done with.
#[inline(always)]
fn hear_next(
    seat: &mut TdsSeat,
    walk: &mut LentWalk,
    memory: &mut Memory,
    piece: &[u8],
    tokens: &mut [TdsWireToken],
    count: &mut usize,
) -> Result<usize, ListenFault>
    requires room { is_reading (stage_of seat.old.client) ≡ true
        → count.old < length tokens.old }
    ensures within { IfOk result (λ taken. taken ≤ length piece.now) }
    ensures moves { IfOk result (λ taken. 0 < length piece.now → 0 < taken) }
    ensures exact { MatchResult result
        (λ taken. (told : Option AnyToken)
        × MovesOn (next_token (reading_of walk.old memory.old) piece.now) seat.old seat.new
        (reading_of walk.new memory.new) (drop taken piece.now) (listed told)
        × Puts told (record { before = tokens.old; after = tokens.new; count = count.new })
        count.old)
        (λ fault. BreaksOn (next_token (reading_of walk.old memory.old) piece.now) seat.old
        seat.new fault) }
    ensures refused { IfErr result (λ fault. SaysFault fault (reading_of walk.new memory.new)) }
    ensures stays { IfErr result (λ _. tokens.new ≡ tokens.old) }
    ensures same { IfErr result (λ _. count.new ≡ count.old) }
    ensures room { length tokens.new ≡ length tokens.old }
{
    let mut token = None;
    let taken = match walk.feed_to(memory, piece, &mut token) {
        Ok(taken) => taken,
        Err(refusal) => return Err(fail(seat, refusal)),
    };
    let Some(token) = &token else {
        return Ok(taken);
    };
    match hear_token(seat, token, tokens, count) {
        Ok(()) => Ok(taken),
        Err(fault) => Err(fault),
    }
}

/// Hears what ends in the bytes behind the first ones, up to the room's end.
fn hear_tokens(
    seat: &mut TdsSeat,
    walk: &mut LentWalk,
    memory: &mut Memory,
    bytes: &[u8],
    taken: &mut usize,
    tokens: &mut [TdsWireToken],
    count: &mut usize,
) -> Result<Pause, ListenFault>
    requires within { taken.old ≤ length bytes.now }
    requires room { count.old ≤ length tokens.old }
    ensures run { (first : Start) (room : List TdsWireToken) → length room ≡ length tokens.old
        → HasCome first (record {
          seat = seat.old;
          reading = reading_of walk.old memory.old;
          rest = drop taken.old bytes.now;
        }) (record { before = room; after = tokens.old; count = count.old })
        → PausesHere first (record {
          seat = seat.new;
          reading = reading_of walk.new memory.new;
          rest = drop taken.new bytes.now;
        }) (record { before = room; after = tokens.new; count = count.new }) result }
    ensures within { taken.new ≤ length bytes.now }
{
    'tokens: while *taken < bytes.len() {
        if *count == tokens.len() && seat.may_tell() {
            return Ok(Pause::Full);
        }
        match hear_next(seat, walk, memory, behind(bytes, *taken), tokens, count) {
            Ok(more) => *taken += more,
            Err(fault) => return Err(fault),
        }
    }
    Ok(Pause::Through)
}

/// Hears what ends in the bytes behind the first ones, and the message's end, by a walk.
fn hear_on(
    seat: &mut TdsSeat,
    walk: &mut LentWalk,
    memory: &mut Memory,
    bytes: &[u8],
    ends: u8,
    taken: &mut usize,
    tokens: &mut [TdsWireToken],
    count: &mut usize,
) -> Halt
    requires within { taken.old ≤ length bytes.now }
    requires room { count.old ≤ length tokens.old }
    ensures run { (first : Start) (room : List TdsWireToken) → length room ≡ length tokens.old
        → HasCome first (record {
          seat = seat.old;
          reading = reading_of walk.old memory.old;
          rest = drop taken.old bytes.now;
        }) (record { before = room; after = tokens.old; count = count.old })
        → StopsHere first (record {
          seat = seat.new;
          reading = reading_of walk.new memory.new;
          rest = drop taken.new bytes.now;
        }) (truth ends) (record { before = room; after = tokens.new; count = count.new }) result }
    ensures within { taken.new ≤ length bytes.now }
{
    match hear_tokens(seat, walk, memory, bytes, taken, tokens, count) {
        Err(fault) => return Halt::Broken(fault),
        Ok(Pause::Full) => return Halt::Full,
        Ok(Pause::Through) => {}
    }
    if ends == 0 {
        return Halt::Through;
    }
    let between = walk.is_between(memory);
    walk.restart(memory);
    match end_message(seat, !between) {
        Ok(answer) => Halt::Ended(answer),
        Err(fault) => Halt::BrokenAtEnd(fault),
    }
}

/// The same, with the walk read out of its value and written back.
#[cold]
#[inline(never)]
pub(super) fn hear_walked(
    seat: &mut TdsSeat,
    walk: &mut TdsWire,
    memory: &mut Memory,
    bytes: &[u8],
    ends: u8,
    taken: &mut usize,
    tokens: &mut [TdsWireToken],
    count: &mut usize,
    owner: &mut TdsWhose,
) -> u8
    requires within { taken.old ≤ length bytes.now }
    requires room { count.old ≤ length tokens.old }
    ensures none { reading_from walk.old memory.old ≡ None → IsNothing (record {
      before = record { seat = seat.old; walk = walk.old; memory = memory.old; whose = owner.old };
      after = record { seat = seat.new; walk = walk.new; memory = memory.new; whose = owner.new };
      bytes = bytes.now;
      ends = ends;
      taken = 0;
      room = record { before = tokens.old; after = tokens.new; count = 0 };
    }) result × (taken.new ≡ taken.old) × (count.new ≡ count.old) }
    ensures some { (first : Start) (room : List TdsWireToken) (r : Parser)
        → length room ≡ length tokens.old → reading_from walk.old memory.old ≡ Some r
        → HasCome first (record { seat = seat.old; reading = r; rest = drop taken.old bytes.now })
        (record { before = room; after = tokens.old; count = count.old })
        → HearsHere first (record {
          before = record {
            seat = seat.old;
            walk = walk.old;
            memory = memory.old;
            whose = owner.old;
          };
          after = record {
            seat = seat.new;
            walk = walk.new;
            memory = memory.new;
            whose = owner.new;
          };
          bytes = bytes.now;
          ends = ends;
          taken = taken.new;
          room = record { before = room; after = tokens.new; count = count.new };
        }) result }
{
    let Some(mut lent) = walk.walk() else {
        return unheard_number(Without::NoWalk);
    };
    *owner = whose(seat);
    let halt = hear_on(seat, &mut lent, memory, bytes, ends, taken, tokens, count);
    *walk = TdsWire::of(&lent);
    halt_number(&halt)
}
