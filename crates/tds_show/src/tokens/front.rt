//! The packet at the front of bytes.
ghost use Rattle.std.specs.Prelude.{◌≡◌, length};
ghost use Rattle.tds_packet.specs.Layout.{header_bytes};
ghost use Rattle.tds_show.specs.Packets.{IsFront, by_header, by_length, front};

use tds_packet::{Direction, Header, PacketFault, PacketSize};

/// The greatest length of a packet.
const MOST: u16 = 32_767;

/// What stands at the front of bytes (MS-TDS 2.2.3).
#[derive(Debug, Drop)]
pub(crate) enum Front {
    /// No byte.
    Nothing,
    /// Less than a packet.
    Cut,
    /// A header with this fault.
    Refused(PacketFault),
    /// A packet of so many bytes, its header counted, and whether it ends its message.
    Packet(usize, bool),
}

/// What stands at the front of these bytes, as a client reads it.
#[tactic(auto, unfolding(crate::specs::Packets::front))]
pub(crate) fn front_of(bytes: &[u8]) -> Front
    ensures front { result ≡ front bytes.now }
    ensures within { IsFront result (length bytes.now) }
{
    if bytes.is_empty() {
        return Front::Nothing;
    }
    match bytes.first_chunk() {
        None => Front::Cut,
        Some(head) => headed(head, bytes.len()),
    }
}

/// What so many bytes are that begin with this header.
#[tactic(auto, using(crate::proofs::Fronts::whole_front))]
fn headed(head: &[u8; 8], count: usize) -> Front
    ensures front { result ≡ by_header head.now count }
    ensures within { IsFront result count }
{
    let Some(size) = PacketSize::new(MOST) else {
        return Front::Cut;
    };
    match Header::read(head, size, Direction::ToClient) {
        Err(fault) => Front::Refused(fault),
        Ok(header) => packet_of(header, count),
    }
}

/// The packet of this header, if so many bytes have it whole.
fn packet_of(header: Header, count: usize) -> Front
    ensures { result ≡ by_length (header_bytes header) count }
{
    let length = usize::from(header.length);
    if count < length {
        return Front::Cut;
    }
    Front::Packet(length, header.status.ends())
}
