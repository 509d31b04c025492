//! Hearing by a walk that is read out of its value: whatever stands in the data.

ghost use Rattle.std.specs.Prelude.{◌≡◌, ◌≤◌, ◌<◌, List, Option, None, [], Ok, Err, IfOk, IfErr, MatchResult, Some, true, drop, length};
ghost use Rattle.tds_client.specs.Machine.{tells};
ghost use Rattle.tds_client.specs.Parts.{session_from, stage_from};
ghost use Rattle.tds_listen.specs.Faults.{broken_at};
ghost use Rattle.tds_listen.specs.Hearing.{next_heard};
ghost use Rattle.tds_wire.specs.Lent.{reading_of};
ghost use Rattle.tds_wire.specs.Reading.{Parser};
ghost use Rattle.tds_wire.specs.declared.told.Token.{Token as AnyToken};
ghost use Rattle.tds_c.specs.Hearing.{HasHeard, HaltsBehind, HearsFrom, NothingDone, Place, StopsBehind, TellsFault};
ghost use Rattle.tds_walk.specs.WireCalls.{reading_from};
ghost use Rattle.tds_walk.specs.WireTokens.{Puts};
ghost use Rattle.tds_walk.specs.Wire.{truth};

use crate::buffer::behind;
use crate::client::TdsClient;
use crate::wire::hearing::Came;
use crate::wire::hearing::listening::{end_message, hear_token, lose};
use tds_client::ClientParts;
use tds_listen::ListenFault;
use tds_walk::{TdsWire, TdsWireToken};
use tds_wire::{LentWalk, Memory};

/// Why no more tokens were heard, where no one is at fault.
#[derive(Clone, Copy)]
pub(crate) enum Halt {
    /// The room for tokens is full, and bytes are left.
    Full,
    /// All bytes are done with.
    Through,
}

/// Hears what ends next in a piece: how many bytes of it are done with.
#[inline(always)]
fn hear_next(
    parts: &mut ClientParts,
    walk: &mut LentWalk,
    memory: &mut Memory,
    piece: &[u8],
    tokens: &mut [TdsWireToken],
    count: &mut usize,
) -> Result<usize, ListenFault>
    requires room { tells (stage_from parts.old.stage []) ≡ true → count.old < length tokens.old }
    ensures within { IfOk result (λ taken. taken ≤ length piece.now) }
    ensures moves { IfOk result (λ taken. 0 < length piece.now → 0 < taken) }
    ensures exact { MatchResult result
        (λ taken. (told : Option AnyToken)
        × (next_heard (session_from parts.old []) (reading_of walk.old memory.old) piece.now
        ≡ Ok (record {
          told = told;
          session = session_from parts.new [];
          reading = reading_of walk.new memory.new;
          rest = drop taken piece.now;
        }))
        × Puts told (record { before = tokens.old; after = tokens.new; count = count.new })
        count.old)
        (λ fault. next_heard (session_from parts.old []) (reading_of walk.old memory.old) piece.now
        ≡ Err fault) }
    ensures broken { IfErr result (λ fault. session_from parts.new []
        ≡ broken_at (session_from parts.old []) fault) }
    ensures refused { IfErr result (λ fault. TellsFault fault (reading_of walk.new memory.new)) }
    ensures stays { IfErr result (λ _. tokens.new ≡ tokens.old) }
    ensures same { IfErr result (λ _. count.new ≡ count.old) }
    ensures room { length tokens.new ≡ length tokens.old }
{
    let mut token = None;
    let taken = match walk.feed_to(memory, piece, &mut token) {
        Ok(taken) => taken,
        Err(refusal) => {
            lose(parts);
            return Err(ListenFault::Wire(refusal));
        }
    };
    let Some(token) = &token else {
        return Ok(taken);
    };
    match hear_token(parts, token, tokens, count) {
        Ok(()) => Ok(taken),
        Err(fault) => Err(ListenFault::Client(fault)),
    }
}

/// Hears what ends in the bytes behind the first ones, up to the room's end.
fn hear_tokens(
    parts: &mut ClientParts,
    walk: &mut LentWalk,
    memory: &mut Memory,
    bytes: &[u8],
    taken: &mut usize,
    tokens: &mut [TdsWireToken],
    count: &mut usize,
) -> Result<Halt, ListenFault>
    requires within { taken.old ≤ length bytes.now }
    requires room { count.old ≤ length tokens.old }
    ensures run { (first : Place) (room : List TdsWireToken) → length room ≡ length tokens.old
        → HasHeard first (record {
          session = session_from parts.old [];
          reading = reading_of walk.old memory.old;
          rest = drop taken.old bytes.now;
        }) (record { before = room; after = tokens.old; count = count.old })
        → HaltsBehind first (drop taken.new bytes.now) (record {
          session = session_from parts.new [];
          reading = reading_of walk.new memory.new;
        }) (record { before = room; after = tokens.new; count = count.new }) result }
    ensures within { taken.new ≤ length bytes.now }
{
    'tokens: while *taken < bytes.len() {
        if *count == tokens.len() && parts.may_tell() {
            return Ok(Halt::Full);
        }
        match hear_next(parts, walk, memory, behind(bytes, *taken), tokens, count) {
            Ok(more) => *taken += more,
            Err(fault) => return Err(fault),
        }
    }
    Ok(Halt::Through)
}

/// Hears what ends in the bytes behind the first ones, and the message's end, by a walk.
fn hear_on(
    parts: &mut ClientParts,
    walk: &mut LentWalk,
    memory: &mut Memory,
    bytes: &[u8],
    ends: u8,
    taken: &mut usize,
    tokens: &mut [TdsWireToken],
    count: &mut usize,
) -> Came
    requires within { taken.old ≤ length bytes.now }
    requires room { count.old ≤ length tokens.old }
    ensures run { (first : Place) (room : List TdsWireToken) → length room ≡ length tokens.old
        → HasHeard first (record {
          session = session_from parts.old [];
          reading = reading_of walk.old memory.old;
          rest = drop taken.old bytes.now;
        }) (record { before = room; after = tokens.old; count = count.old })
        → StopsBehind first (drop taken.new bytes.now) (record {
          session = session_from parts.new [];
          reading = reading_of walk.new memory.new;
        }) (truth ends) (record { before = room; after = tokens.new; count = count.new }) result }
    ensures within { taken.new ≤ length bytes.now }
{
    match hear_tokens(parts, walk, memory, bytes, taken, tokens, count) {
        Err(fault) => return Came::Broken(fault),
        Ok(Halt::Full) => return Came::Full,
        Ok(Halt::Through) => {}
    }
    if ends == 0 {
        return Came::Through;
    }
    let between = walk.is_between(memory);
    walk.restart(memory);
    match end_message(parts, between) {
        Ok(answer) => Came::Ended(answer),
        Err(fault) => Came::BrokenAtEnd(fault),
    }
}

/// The same, with the walk read out of its value and the client and the walk written back.
#[cold]
#[inline(never)]
pub(super) fn hear_walked(
    client: &mut TdsClient,
    parts: ClientParts,
    walk: &mut TdsWire,
    memory: &mut Memory,
    bytes: &[u8],
    ends: u8,
    taken: &mut usize,
    tokens: &mut [TdsWireToken],
    count: &mut usize,
) -> Came
    requires within { taken.old ≤ length bytes.now }
    requires room { count.old ≤ length tokens.old }
    ensures none { reading_from walk.old memory.old ≡ None → NothingDone (record {
      before = record { client = client.old; walk = walk.old; memory = memory.old };
      after = record { client = client.new; walk = walk.new; memory = memory.new };
      bytes = bytes.now;
      ends = ends;
      taken = 0;
      room = record { before = tokens.old; after = tokens.new; count = 0 };
    }) result × (taken.new ≡ taken.old) × (count.new ≡ count.old) }
    ensures some { (first : Place) (room : List TdsWireToken) (r : Parser)
        → length room ≡ length tokens.old → reading_from walk.old memory.old ≡ Some r
        → HasHeard first (record {
          session = session_from parts [];
          reading = r;
          rest = drop taken.old bytes.now;
        }) (record { before = room; after = tokens.old; count = count.old })
        → HearsFrom first (record {
          before = record { client = client.old; walk = walk.old; memory = memory.old };
          after = record { client = client.new; walk = walk.new; memory = memory.new };
          bytes = bytes.now;
          ends = ends;
          taken = taken.new;
          room = record { before = room; after = tokens.new; count = count.new };
        }) result }
{
    let Some(mut lent) = walk.walk() else {
        return Came::NoClient;
    };
    let mut parts = parts;
    let came = hear_on(
        &mut parts, &mut lent, memory, bytes, ends, taken, tokens, count,
    );
    *walk = TdsWire::of(&lent);
    *client = TdsClient::of(&parts, 0);
    came
}
