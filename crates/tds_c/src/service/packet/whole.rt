//! What a seat's client hears of tokens that stand whole, in the walk's value and in the seat's own place.

ghost use Rattle.std.specs.Prelude.{◌≡◌, ◌≤◌, [], MatchResult, Some, drop, length, true};
ghost use Rattle.tds_wire.specs.Reading.{Parser};
ghost use Rattle.tds_walk.specs.Rooms.{Room};
ghost use Rattle.tds_walk.specs.Taking.{IsReadyValue};
ghost use Rattle.tds_walk.specs.Wire.{truth};
ghost use Rattle.tds_walk.specs.WireCalls.{reading_from};
ghost use Rattle.tds_c.specs.service.Here.{HasCome, HearsBy, Start, StopsHere};
ghost use Rattle.tds_c.specs.service.Packet.{halt_number};
ghost use Rattle.tds_c.specs.declared.service.packet.Halt.{Halt as AnyHalt};
ghost use Rattle.tds_c.specs.declared.service.packet.Halt.TheVariants as halts;

use crate::service::packet::listening::{end_message, hear_token};
use crate::service::packet::walked::{behind, hear_walked};
use crate::service::packet::{end_taken_number, packet_fault_number, whose};
use crate::service::plain::{TdsSeat, TdsWhose};
use tds_listen::ListenFault;
use tds_walk::{TdsWire, TdsWireToken, begin_anew, take_token};
use tds_wire::Memory;

/// Hears the tokens that stand whole and say in their first bytes how long they are, from the first byte on
/// and up to the room's end.
#[inline(always)]
fn hear_whole(
    seat: &mut TdsSeat,
    walk: &mut TdsWire,
    memory: &Memory,
    bytes: &[u8],
    taken: &mut usize,
    tokens: &mut [TdsWireToken],
    count: &mut usize,
) -> Result<(), ListenFault>
    requires ready { IsReadyValue walk.old }
    ensures ready { IsReadyValue walk.new }
    ensures within { taken.new ≤ length bytes.now }
    ensures room { count.new ≤ length tokens.new }
    ensures same { length tokens.new ≡ length tokens.old }
    ensures run { (r : Parser) → reading_from walk.old memory.now ≡ Some r
        → (next : Parser) × (reading_from walk.new memory.now ≡ Some next) × MatchResult result
        (λ _. HasCome (record { seat = seat.old; reading = r; rest = bytes.now })
        (record { seat = seat.new; reading = next; rest = drop taken.new bytes.now })
        (record { before = tokens.old; after = tokens.new; count = count.new }))
        (λ fault. StopsHere (record { seat = seat.old; reading = r; rest = bytes.now })
        (record { seat = seat.new; reading = next; rest = drop taken.new bytes.now }) true
        (record { before = tokens.old; after = tokens.new; count = count.new })
        (halts.Broken fault)) }
{
    let mut done = 0;
    let mut read = 0;
    'tokens: while done < bytes.len() && read < tokens.len() {
        let mut token = None;
        let size = take_token(walk, memory, behind(bytes, done), &mut token);
        let Some(token) = &token else {
            break;
        };
        if let Err(fault) = hear_token(seat, token, tokens, &mut read) {
            *taken = done;
            *count = read;
            return Err(fault);
        }
        done += size;
    }
    *taken = done;
    *count = read;
    Ok(())
}

/// All bytes are done with, between two tokens: where the message ends with them, the client hears it, and
/// the walk begins anew.
#[inline(always)]
fn end_ready(seat: &mut TdsSeat, walk: &mut TdsWire, memory: &mut Memory, ends: u8) -> u8
    requires ready { IsReadyValue walk.old }
    ensures { (first : Start) (room : Room TdsWireToken) (r : Parser)
        → reading_from walk.old memory.old ≡ Some r
        → HasCome first (record { seat = seat.old; reading = r; rest = [] }) room
        → (halt : AnyHalt) × (result ≡ halt_number halt) × (next : Parser)
        × (reading_from walk.new memory.new ≡ Some next)
        × StopsHere first (record { seat = seat.new; reading = next; rest = [] }) (truth ends) room
        halt }
{
    if ends == 0 {
        return 0;
    }
    begin_anew(walk, memory);
    match end_message(seat, false) {
        Ok(answer) => end_taken_number(&answer),
        Err(fault) => packet_fault_number(&fault),
    }
}

/// Hears the data of a packet: between two tokens as far as they stand whole, and else by a walk.
#[inline(always)]
pub(super) fn hear_packet(
    seat: &mut TdsSeat,
    walk: &mut TdsWire,
    memory: &mut Memory,
    bytes: &[u8],
    ends: u8,
    taken: &mut usize,
    tokens: &mut [TdsWireToken],
    count: &mut usize,
    owner: &mut TdsWhose,
) -> u8
    requires none { taken.old ≡ 0 }
    requires empty { count.old ≡ 0 }
    ensures { HearsBy (reading_from walk.old memory.old) (record {
      before = record { seat = seat.old; walk = walk.old; memory = memory.old; whose = owner.old };
      after = record { seat = seat.new; walk = walk.new; memory = memory.new; whose = owner.new };
      bytes = bytes.now;
      ends = ends;
      taken = taken.new;
      room = record { before = tokens.old; after = tokens.new; count = count.new };
    }) result }
{
    if !walk.is_ready() || !seat.may_tell() {
        return hear_walked(seat, walk, memory, bytes, ends, taken, tokens, count, owner);
    }
    *owner = whose(seat);
    if let Err(fault) = hear_whole(seat, walk, memory, bytes, taken, tokens, count) {
        return packet_fault_number(&fault);
    }
    if *taken < bytes.len() {
        if *count == tokens.len() && seat.may_tell() {
            return 10;
        }
        return hear_walked(seat, walk, memory, bytes, ends, taken, tokens, count, owner);
    }
    end_ready(seat, walk, memory, ends)
}
