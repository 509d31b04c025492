//! Packets out of bytes, and packets of an answer taken.

ghost use Rattle.std.specs.Prelude.{◌≡◌, ◌≤◌, Result, IfOk, IfErr, drop, take};
ghost use Rattle.tds_client.specs.declared.state.Taken.{Taken};
ghost use Rattle.tds_c.specs.declared.answers.Stop.{Stop};
ghost use Rattle.tds_c.specs.Answers.{done_number, number_of, taken_number};
ghost use Rattle.tds_c.specs.Packets.{IsFront, Reads, ReadsFronts, ReadsMany, ShowsPacket, Takes};
ghost use Rattle.tds_c.specs.Packets.{Unread, bytes_in, direction_from};

use crate::answers::{Stop, done_code, taken_code};
use crate::buffer::behind;
use crate::client::TdsClient;
use bitflags::Flags;
use tds_client::Taken;
use tds_packet::{Direction, Header, Kind, PacketRef, PacketSize, laws};

/// A packet: `struct tds_packet`. Its data are the bytes from 8 up to `length`.
#[repr(C)]
#[derive(Clone, Copy)]
pub struct TdsPacket {
    /// The bytes of it, its header counted.
    pub length: usize,
    /// The header's first byte, its type, and the second one, its status.
    pub kind: u8,
    pub status: u8,
}

/// The packet at the front of these bytes, lent from them.
#[inline(always)]
fn front(bytes: &[u8], size: PacketSize, direction: Direction) -> Result<PacketRef<'_>, Stop>
    ensures packet { IfOk result (λ packet.
        IsFront direction size bytes.now packet.header packet.data.now) }
    ensures stop { IfErr result (λ stop. Unread direction size bytes.now stop) }
{
    laws::no_fault_is_a_packet();
    let Some(first) = bytes.first_chunk::<8>() else {
        return Err(Stop::WantsBytes);
    };
    match Header::read(first, size, direction) {
        Ok(header) => {
            let length = usize::from(header.length);
            if bytes.len() < length {
                return Err(Stop::WantsBytes);
            }
            let data = data_of(bytes, length);
            Ok(PacketRef { header, data })
        }
        Err(fault) => Err(Stop::Packet(fault)),
    }
}

/// What stands behind the header of a packet of this length.
#[inline(always)]
fn data_of(bytes: &[u8], length: usize) -> &[u8]
    requires least { 8 ≤ length }
    requires most { length ≤ bytes_in bytes.now }
    ensures { result.now ≡ drop 8 (take length bytes.now) }
{
    let whole = &bytes[..length];
    &whole[8..]
}

#[inline(always)]
#[tactic(auto, unfolding(crate::specs::Packets::direction_from))]
fn direction(number: u8) -> Option<Direction>
    ensures { result ≡ direction_from number }
{
    match number {
        0 => Some(Direction::ToServer),
        1 => Some(Direction::ToClient),
        _ => None,
    }
}

/// The packet as a plain value.
#[inline(always)]
fn packet_of(header: &Header) -> TdsPacket
    ensures { ShowsPacket result header.now }
{
    TdsPacket {
        length: usize::from(header.length),
        kind: header.kind.byte(),
        status: header.status.bits(),
    }
}

#[inline(always)]
fn read(bytes: &[u8], size: u16, to: u8, packet: &mut TdsPacket) -> Result<(), Stop>
    ensures { Reads (direction_from to) size bytes.now packet.old packet.new result }
{
    let Some(direction) = direction(to) else {
        return Err(Stop::OutOfRange);
    };
    let Some(size) = PacketSize::new(size) else {
        return Err(Stop::OutOfRange);
    };
    match front(bytes, size, direction) {
        Ok(found) => {
            *packet = packet_of(&found.header);
            Ok(())
        }
        Err(stop) => Err(stop),
    }
}

/// Reads one packet behind the other, until the room is full or there is none.
#[inline(always)]
fn read_fronts(
    bytes: &[u8],
    size: PacketSize,
    direction: Direction,
    packets: &mut [TdsPacket],
    count: &mut usize,
) -> Result<(), Stop>
    ensures { ReadsFronts direction size bytes.now
        (record { before = packets.old; after = packets.new; count = count.new }) result }
{
    let mut rest = bytes;
    'packets: for i in 0..packets.len() {
        match front(rest, size, direction) {
            Ok(found) => {
                packets[i] = packet_of(&found.header);
                rest = behind(rest, usize::from(found.header.length));
            }
            Err(stop) => {
                *count = i;
                return Err(stop);
            }
        }
    }
    *count = packets.len();
    Ok(())
}

/// The same, with a loop for each direction: then little is left to look at in a header.
#[inline(always)]
fn read_many(
    bytes: &[u8],
    size: u16,
    to: u8,
    packets: &mut [TdsPacket],
    count: &mut usize,
) -> Result<(), Stop>
    ensures { ReadsMany (direction_from to) size bytes.now
        (record { before = packets.old; after = packets.new; count = count.new }) result }
{
    *count = 0;
    let Some(direction) = direction(to) else {
        return Err(Stop::OutOfRange);
    };
    let Some(size) = PacketSize::new(size) else {
        return Err(Stop::OutOfRange);
    };
    match direction {
        Direction::ToServer => read_fronts(bytes, size, Direction::ToServer, packets, count),
        Direction::ToClient => read_fronts(bytes, size, Direction::ToClient, packets, count),
    }
}

/// Reads the packets at the front of these bytes, as `tds_packet_read` gives them one after the
/// other, until the room is full. 0 where it is full; else what `tds_packet_read` answers behind
/// those that were read.
#[unsafe(no_mangle)]
pub extern "C" fn tds_packets_read(
    bytes: &[u8],
    size: u16,
    direction: u8,
    packets: &mut [TdsPacket],
    count: &mut usize,
) -> u8
    ensures { (answer : Result (Unit {0}) Stop) × (result ≡ number_of done_number answer)
        × ReadsMany (direction_from direction) size bytes.now
        (record { before = packets.old; after = packets.new; count = count.new }) answer }
{
    done_code(read_many(bytes, size, direction, packets, count))
}

/// Reads the packet at the front of these bytes, which go to the server (0) or to the client (1).
/// 0 where it is there, and 24 where more bytes are wanted.
#[unsafe(no_mangle)]
pub extern "C" fn tds_packet_read(
    bytes: &[u8],
    size: u16,
    direction: u8,
    packet: &mut TdsPacket,
) -> u8
    ensures { (answer : Result (Unit {0}) Stop) × (result ≡ number_of done_number answer)
        × Reads (direction_from direction) size bytes.now packet.old packet.new answer }
{
    done_code(read(bytes, size, direction, packet))
}

#[inline(always)]
fn take(client: &mut TdsClient, bytes: &[u8]) -> Result<Taken, Stop>
    ensures { Takes client.old client.new bytes.now result }
{
    let Some(mut held) = client.held(&[]) else {
        return Err(Stop::NoClient);
    };
    let packet = match front(bytes, held.size, Direction::ToClient) {
        Ok(packet) => packet,
        Err(stop) => return Err(stop),
    };
    if usize::from(packet.header.length) < bytes.len() {
        return Err(Stop::NoPacket);
    }
    let heard = match packet.header.kind {
        Kind::Answer => held.hear(packet),
        Kind::Batch | Kind::Attention | Kind::Transaction => return Err(Stop::NoPacket),
        Kind::Procedure | Kind::BulkLoad => return Err(Stop::NoPacket),
    };
    *client = TdsClient::of(&held, 0);
    match heard {
        Ok(taken) => Ok(taken),
        Err(fault) => Err(Stop::Client(fault)),
    }
}

/// Takes one whole packet of an answer. 1 the answer goes on, 3 it has ended, 4 the attention is
/// acknowledged. Its tokens are read from it by `tds_token_next`.
#[unsafe(no_mangle)]
pub extern "C" fn tds_client_take(client: &mut TdsClient, packet: &[u8]) -> u8
    ensures { (answer : Result Taken Stop) × (result ≡ number_of taken_number answer)
        × Takes client.old client.new packet.now answer }
{
    match take(client, packet) {
        Ok(taken) => taken_code(taken),
        Err(stop) => stop.number(),
    }
}
