//! The packets of a play.

use std::alloc::{AllocError, Global};
use tds_packet::{Direction, Header, PacketReader, PacketSize};
use tds_trace::{Call, Made};

/// A packet that was handed over.
#[derive(Drop)]
pub struct Packet {
    /// The event that handed it over, from 1.
    pub event: usize,
    pub conn: u32,
    pub direction: Direction,
    pub header: Header,
    /// All its bytes, those of the header too.
    pub bytes: Vec<u8>,
}

impl Packet {
    /// What stands behind the header.
    pub fn data(&self) -> &[u8] {
        self.bytes.as_slice().get(8..).unwrap_or(&[])
    }

    /// How many bytes it has.
    pub fn size(&self) -> u64 {
        u64::from(self.header.length)
    }
}

/// The packets that were handed over in these calls, in their order.
pub(crate) fn packets_of(
    alloc: Global,
    size: PacketSize,
    calls: &[Call],
) -> Result<Vec<Packet>, AllocError> {
    let mut packets = Vec::new(alloc);
    for call in calls {
        if let Made::Send(direction, bytes) = &call.made {
            let mut reader = PacketReader::new(alloc, size, *direction)?;
            let way = *direction;
            put_packets(
                alloc,
                &mut packets,
                &mut reader,
                call,
                way,
                bytes.as_slice(),
            )?;
        }
    }
    Ok(packets)
}

/// Appends those of one call, as this reader finds them.
fn put_packets(
    alloc: Global,
    packets: &mut Vec<Packet>,
    reader: &mut PacketReader,
    call: &Call,
    direction: Direction,
    bytes: &[u8],
) -> Result<(), AllocError> {
    let mut rest = bytes;
    // A packet has a byte at least.
    for _ in 0..bytes.len() {
        if rest.is_empty() {
            break;
        }
        let Ok(count) = reader.feed(rest) else {
            return Ok(());
        };
        let Some(packet) = reader.packet() else {
            return Ok(());
        };
        let header = packet.header;
        packets.push(Packet {
            event: call.event as usize,
            conn: call.conn,
            direction,
            header,
            bytes: Vec::from_slice(alloc, &rest[..count])?,
        })?;
        rest = &rest[count..];
        reader.done();
    }
    Ok(())
}
