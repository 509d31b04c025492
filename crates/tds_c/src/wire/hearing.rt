//! The data of a packet of any server's answer in one call: of each token that ends there the client
//! hears what it says, and those that may be told are written.

ghost use Rattle.std.specs.Prelude.{◌≡◌, ◌≤◌, [], List, Some, drop, length};
ghost use Rattle.tds_client.specs.Parts.{session_from};
ghost use Rattle.tds_client.specs.Session.{ClientSession};
ghost use Rattle.tds_wire.specs.Reading.{Parser};
ghost use Rattle.tds_c.specs.declared.wire.hearing.Came.{Came as AnyCame};
ghost use Rattle.tds_walk.specs.declared.token.TdsWireToken.{TdsWireToken as AnyShown};
ghost use Rattle.tds_c.specs.Hearing.{HasHeard, HearsAll, HearsFrom, Place, Ready, StopsBehind, came_number, fault_number};
ghost use Rattle.tds_c.specs.Plain.{client_of};
ghost use Rattle.tds_walk.specs.WireCalls.{reading_from};
ghost use Rattle.tds_walk.specs.Rooms.{Room};
ghost use Rattle.tds_walk.specs.Wire.{truth};

mod at_once;
mod listening;
mod walked;
mod whole;

use crate::answers::taken_code;
use crate::client::TdsClient;
use crate::wire::hearing::listening::end_message;
use crate::wire::hearing::walked::hear_walked;
use crate::wire::hearing::whole::hear_whole;
use tds_client::{ClientParts, Taken};
use tds_listen::ListenFault;
use tds_walk::{TdsWire, TdsWireToken};
use tds_wire::Memory;

/// What came of a packet's data.
#[derive(Drop)]
pub(crate) enum Came {
    /// 20: the value is no client's, or no walk's.
    NoClient,
    /// 10: the room for tokens is full, and bytes are left.
    Full,
    /// 0: all bytes are done with.
    Through,
    /// 1, 3, 4: and with them the message has ended.
    Ended(Taken),
    /// 61 to 69, 71 to 74: the client is broken by what came next.
    Broken(ListenFault),
    /// 61 to 69, 75, 76: it is broken by the message's end.
    BrokenAtEnd(ListenFault),
}

/// The number of a fault.
fn fault_code(fault: &ListenFault) -> u8
    ensures { result ≡ fault_number fault.now }
{
    match fault {
        ListenFault::Client(fault) => 60 + fault.number(),
        ListenFault::Wire(refusal) => 70 + refusal.fault.number(),
        ListenFault::Cut => 75,
        ListenFault::ResetUnanswered => 76,
    }
}

#[inline(always)]
fn came_code(came: &Came) -> u8
    ensures { result ≡ came_number came.now }
{
    match came {
        Came::NoClient => 20,
        Came::Full => 10,
        Came::Through => 0,
        Came::Ended(taken) => taken_code(*taken),
        Came::Broken(fault) => fault_code(fault),
        Came::BrokenAtEnd(fault) => fault_code(fault),
    }
}

/// All bytes are done with, between two tokens: where the message ends with them, the client hears it,
/// and the walk begins anew.
#[inline(always)]
fn end_ready(parts: &mut ClientParts, walk: &mut TdsWire, memory: &mut Memory, ends: u8) -> Came
    requires ready { Ready walk.old }
    ensures run { (first last : Place) (room : Room AnyShown)
        → HasHeard first last room → last.rest ≡ [] → last.session ≡ session_from parts.old []
        → reading_from walk.old memory.old ≡ Some last.reading
        → (reading : Parser) × (reading_from walk.new memory.new ≡ Some reading)
        × StopsBehind first [] (record {
          session = session_from parts.new [];
          reading = reading;
        }) (truth ends) room result }
{
    if ends == 0 {
        return Came::Through;
    }
    walk.start = 0;
    memory.count = 0;
    match end_message(parts, true) {
        Ok(answer) => Came::Ended(answer),
        Err(fault) => Came::BrokenAtEnd(fault),
    }
}

/// Hears the data by a walk, or what is left of them, whatever the client does.
#[cold]
#[inline(never)]
fn hear_other(
    client: &mut TdsClient,
    walk: &mut TdsWire,
    memory: &mut Memory,
    bytes: &[u8],
    ends: u8,
    taken: &mut usize,
    tokens: &mut [TdsWireToken],
    count: &mut usize,
) -> u8
    requires within { taken.old ≤ length bytes.now }
    requires room { count.old ≤ length tokens.old }
    ensures all { taken.old ≡ 0 → count.old ≡ 0
        → (came : AnyCame) × (result ≡ came_number came) × HearsAll (record {
          before = record { client = client.old; walk = walk.old; memory = memory.old };
          after = record { client = client.new; walk = walk.new; memory = memory.new };
          bytes = bytes.now;
          ends = ends;
          taken = taken.new;
          room = record { before = tokens.old; after = tokens.new; count = count.new };
        }) came }
    ensures behind { (s : ClientSession) (first : Place) (room : List AnyShown) (r : Parser)
        → client_of client.old [] ≡ Some s → length room ≡ length tokens.old
        → reading_from walk.old memory.old ≡ Some r
        → HasHeard first (record { session = s; reading = r; rest = drop taken.old bytes.now })
        (record { before = room; after = tokens.old; count = count.old })
        → (came : AnyCame) × (result ≡ came_number came) × HearsFrom first (record {
          before = record { client = client.old; walk = walk.old; memory = memory.old };
          after = record { client = client.new; walk = walk.new; memory = memory.new };
          bytes = bytes.now;
          ends = ends;
          taken = taken.new;
          room = record { before = room; after = tokens.new; count = count.new };
        }) came }
{
    let Some(parts) = client.held(&[]) else {
        return came_code(&Came::NoClient);
    };
    came_code(&hear_walked(
        client, parts, walk, memory, bytes, ends, taken, tokens, count,
    ))
}

/// Hears the data, whatever stands in them: between two tokens in the walk's value, as far as they stand
/// whole, and else by a walk. It isn't put into its caller, which passes a piece of a value without it.
#[inline(never)]
fn hear_any(
    client: &mut TdsClient,
    walk: &mut TdsWire,
    memory: &mut Memory,
    bytes: &[u8],
    ends: u8,
    taken: &mut usize,
    tokens: &mut [TdsWireToken],
    count: &mut usize,
) -> u8
    ensures { (came : AnyCame) × (result ≡ came_number came) × HearsAll (record {
      before = record { client = client.old; walk = walk.old; memory = memory.old };
      after = record { client = client.new; walk = walk.new; memory = memory.new };
      bytes = bytes.now;
      ends = ends;
      taken = taken.new;
      room = record { before = tokens.old; after = tokens.new; count = count.new };
    }) came }
{
    *taken = 0;
    *count = 0;
    // By itself, so that what follows needs no other stage's fields.
    if client.stage != 2 {
        return hear_other(client, walk, memory, bytes, ends, taken, tokens, count);
    }
    let Some(mut parts) = client.held(&[]) else {
        return came_code(&Came::NoClient);
    };
    if !parts.may_tell() || !walk.is_ready() {
        return hear_other(client, walk, memory, bytes, ends, taken, tokens, count);
    }
    hear_whole(&mut parts.heard, walk, memory, bytes, taken, tokens, count);
    if *taken < bytes.len() {
        *client = TdsClient::of(&parts, 0);
        if *count == tokens.len() {
            return came_code(&Came::Full);
        }
        return hear_other(client, walk, memory, bytes, ends, taken, tokens, count);
    }
    let came = end_ready(&mut parts, walk, memory, ends);
    *client = TdsClient::of(&parts, 0);
    came_code(&came)
}

/// Takes the data of a packet of any server's answer, or what is left of them, up to the room's end. Of
/// each token that ends there the client hears what it says; those that the caller who asked is told of
/// are written to the front of `tokens`. 10 where the room is full and bytes are left; 0 where all are
/// done with; and where `ends` isn't 0, what the message's end says.
#[unsafe(no_mangle)]
pub extern "C" fn tds_client_hear(
    client: &mut TdsClient,
    walk: &mut TdsWire,
    memory: &mut Memory,
    bytes: &[u8],
    ends: u8,
    taken: &mut usize,
    tokens: &mut [TdsWireToken],
    count: &mut usize,
) -> u8
    ensures { (came : AnyCame) × (result ≡ came_number came) × HearsAll (record {
      before = record { client = client.old; walk = walk.old; memory = memory.old };
      after = record { client = client.new; walk = walk.new; memory = memory.new };
      bytes = bytes.now;
      ends = ends;
      taken = taken.new;
      room = record { before = tokens.old; after = tokens.new; count = count.new };
    }) came }
{
    if ends == 0 && !tokens.is_empty() && client.is_reading() {
        let left = walk.left_within(bytes);
        if left > 0 {
            walk.go_within(left, bytes);
            client.read_on();
            *taken = bytes.len();
            *count = 0;
            return 0;
        }
    }
    hear_any(client, walk, memory, bytes, ends, taken, tokens, count)
}
