//! The data of a packet of any server's answer in one call: of each token that ends there the client of
//! the connection hears what it says, and those that are told are written.

ghost use Rattle.std.specs.Prelude.{◌≡◌, Result};
ghost use Rattle.tds_service.specs.Service.{lease_in};
ghost use Rattle.tds_c.specs.declared.service.packet.Halt.{Halt as AnyHalt};
ghost use Rattle.tds_c.specs.declared.service.packet.Without.{Without as AnyWithout};
ghost use Rattle.tds_c.specs.service.Packet.{HearsPacket, end_taken_number, halt_number, packet_fault_number, packet_number, unheard_number};
ghost use Rattle.tds_c.specs.service.Hearing.{lease_number};
ghost use Rattle.tds_c.specs.service.Plain.{place_of};

mod listening;
mod walked;
mod whole;

use crate::service::exports::fits;
use crate::service::packet::whole::hear_packet;
use crate::service::plain::{TdsSeat, TdsService, TdsWhose};
use crate::service::seat::Wanted;
use crate::service::table::find;
use tds_client::Taken;
use tds_listen::ListenFault;
use tds_walk::{TdsWire, TdsWireToken};
use tds_wire::Memory;

/// What came of a packet's data.
#[derive(Drop)]
pub(crate) enum Halt {
    /// 10: the room for tokens is full, and bytes are left.
    Full,
    /// 0: all bytes are done with.
    Through,
    /// 1, 3, 4: and with them the message has ended.
    Ended(Taken),
    /// 61 to 69, 71 to 74: the client is broken by what came next.
    Broken(ListenFault),
    /// 61 to 69, 75, 76: it is broken by the message's end.
    BrokenAtEnd(ListenFault),
}

/// Why nothing was done.
#[derive(Clone, Copy)]
pub(crate) enum Without {
    /// 20: the table has more connections than the array has room for.
    NoTable,
    /// 20: the value is no walk's.
    NoWalk,
    /// 34: there is no connection of this number.
    Unknown,
}

#[inline(always)]
pub(crate) fn unheard_number(why: Without) -> u8
    ensures { result ≡ unheard_number why }
{
    match why {
        Without::NoTable => 20,
        Without::NoWalk => 20,
        Without::Unknown => 34,
    }
}

#[inline(always)]
pub(crate) fn packet_fault_number(fault: &ListenFault) -> u8
    ensures { result ≡ packet_fault_number fault.now }
{
    match fault {
        ListenFault::Client(fault) => 60 + fault.number(),
        ListenFault::Wire(refusal) => 70 + refusal.fault.number(),
        ListenFault::Cut => 75,
        ListenFault::ResetUnanswered => 76,
    }
}

#[inline(always)]
pub(crate) fn end_taken_number(taken: &Taken) -> u8
    ensures { result ≡ end_taken_number taken.now }
{
    match taken {
        Taken::More => 1,
        Taken::Finished => 3,
        Taken::Acknowledged => 4,
        Taken::NoMemory => 1,
    }
}

#[inline(always)]
pub(crate) fn halt_number(halt: &Halt) -> u8
    ensures { result ≡ halt_number halt.now }
{
    match halt {
        Halt::Full => 10,
        Halt::Through => 0,
        Halt::Ended(taken) => end_taken_number(taken),
        Halt::Broken(fault) => packet_fault_number(fault),
        Halt::BrokenAtEnd(fault) => packet_fault_number(fault),
    }
}

/// Whose what comes on a connection is.
#[inline(always)]
pub(crate) fn whose(seat: &TdsSeat) -> TdsWhose
    ensures lease { result.lease ≡ lease_number (lease_in (place_of seat.now)) }
    ensures request { result.request ≡ seat.now.asked }
{
    TdsWhose {
        lease: match seat.lease() {
            Some(lease) => lease,
            None => 0,
        },
        request: seat.asked,
    }
}

#[inline(always)]
fn hear(
    service: &TdsService,
    seats: &mut [TdsSeat],
    number: u64,
    walk: &mut TdsWire,
    memory: &mut Memory,
    bytes: &[u8],
    ends: u8,
    taken: &mut usize,
    tokens: &mut [TdsWireToken],
    count: &mut usize,
    owner: &mut TdsWhose,
) -> u8
    ensures { (heard : Result AnyHalt AnyWithout) × (result ≡ packet_number heard)
        × HearsPacket number (record {
          before = record {
            held = record { service = service.now; seats = seats.old };
            walk = walk.old;
            memory = memory.old;
            whose = owner.old;
          };
          after = record {
            held = record { service = service.now; seats = seats.new };
            walk = walk.new;
            memory = memory.new;
            whose = owner.new;
          };
          bytes = bytes.now;
          ends = ends;
          taken = taken.new;
          room = record { before = tokens.old; after = tokens.new; count = count.new };
        }) heard }
{
    *taken = 0;
    *count = 0;
    if let Err(_) = fits(service, seats) {
        return unheard_number(Without::NoTable);
    }
    let Some(index) = find(&seats[..service.count], Wanted::Number(number)) else {
        return unheard_number(Without::Unknown);
    };
    let seat = &mut seats[index];
    hear_packet(seat, walk, memory, bytes, ends, taken, tokens, count, owner)
}

/// The data of a packet of any server's answer came on the connection of this number, or what is left of
/// them: as far as there is room, each token that ends there is heard as by `tds_service_came`, and those
/// that are told are written to the front of `tokens`. 10 where the room is full and bytes are left; 0 where
/// all are done with; and where `ends` isn't 0, what the message's end says. All that is told is the
/// request's that is written.
#[unsafe(no_mangle)]
pub extern "C" fn tds_service_hear(
    service: &TdsService,
    seats: &mut [TdsSeat],
    number: u64,
    walk: &mut TdsWire,
    memory: &mut Memory,
    bytes: &[u8],
    ends: u8,
    taken: &mut usize,
    tokens: &mut [TdsWireToken],
    count: &mut usize,
    whose: &mut TdsWhose,
) -> u8
    ensures { (heard : Result AnyHalt AnyWithout) × (result ≡ packet_number heard)
        × HearsPacket number (record {
          before = record {
            held = record { service = service.now; seats = seats.old };
            walk = walk.old;
            memory = memory.old;
            whose = whose.old;
          };
          after = record {
            held = record { service = service.now; seats = seats.new };
            walk = walk.new;
            memory = memory.new;
            whose = whose.new;
          };
          bytes = bytes.now;
          ends = ends;
          taken = taken.new;
          room = record { before = tokens.old; after = tokens.new; count = count.new };
        }) heard }
{
    hear(
        service, seats, number, walk, memory, bytes, ends, taken, tokens, count, whose,
    )
}
