ghost use Rattle.std.specs.Prelude.{◌≡◌, ◌≤◌, ◌+◌, ◌++◌, IfOk, IfErr, OnOk, OnErr, None, Some, length};
ghost use Rattle.tds_packet.specs.Layout.{bits_of, header_bytes};
ghost use Rattle.tds_packet.specs.Sent.{sent_bytes};
ghost use Rattle.tds_packet.specs.Faults.{header_fault};

use crate::NoMemory;
use crate::fault::PacketFault;
use crate::kind::{Direction, Kind};
use crate::size::PacketSize;
use crate::status::Status;
use bitflags::Flags;
use byteorder::{BigEndian, ByteOrder};

/// A packet's first eight bytes (MS-TDS 2.2.3.1). The numbers of two bytes stand with the higher byte first.
///
/// A receiver looks at the type, the status and the length alone. A sender writes SPID 0, window 0, and counts the
/// packets of a message from 1, modulo 256.
#[derive(Clone, Copy, PartialEq, Eq, Debug)]
pub struct Header {
    /// Type (2.2.3.1.1).
    pub kind: Kind,
    /// Status (2.2.3.1.2).
    pub status: Status,
    /// Length in bytes, these eight counted (2.2.3.1.3).
    pub length: u16,
    /// The server's process (2.2.3.1.4).
    pub spid: u16,
    /// The packet's place in its message (2.2.3.1.5).
    pub packet_id: u8,
    /// Not used (2.2.3.1.6).
    pub window: u8,
}

impl Header {
    /// Reads the header of a packet that goes in this direction, or finds the first fault of its bytes.
    #[tactic(auto, unfolding(crate::specs::Faults::fault_at))]
    pub fn read(
        bytes: &[u8; 8],
        size: PacketSize,
        direction: Direction,
    ) -> Result<Header, PacketFault>
        ensures spelled { IfOk result (λ header. header_bytes header ≡ bytes.now) }
        ensures lawful { IfOk result (λ _. header_fault direction size bytes.now ≡ None) }
        ensures fault { IfErr result (λ fault. header_fault direction size bytes.now ≡ Some fault) }
    {
        let Some(kind) = Kind::from_byte(bytes[0]) else {
            return Err(PacketFault::UnknownType);
        };
        if kind.direction() != direction {
            return Err(PacketFault::OtherDirection);
        }
        let length = BigEndian::read_u16(&bytes[2..]);
        if length < 8 {
            return Err(PacketFault::ShortLength);
        }
        if length > size.get() {
            return Err(PacketFault::LongLength);
        }
        let Some(status) = Status::read(bytes[1], direction) else {
            return Err(PacketFault::WrongStatus);
        };
        if length == 8 && !status.ends() {
            return Err(PacketFault::EmptyPart);
        }
        Ok(Header {
            kind,
            status,
            length,
            spid: BigEndian::read_u16(&bytes[4..]),
            packet_id: bytes[6],
            window: bytes[7],
        })
    }
}

/// Appends a packet: the header's eight bytes (MS-TDS 2.2.3.1), then the data. The header's Length
/// counts both. At want of memory nothing is appended.
pub fn put_packet(out: &mut Vec<u8>, header: Header, data: &[u8]) -> Result<(), NoMemory>
    requires { header.length ≡ 8 + length «data».now }
    ensures ok { OnOk result
        (out.new.items ≡ out.old.items ++ (header_bytes header ++ «data».now)) }
    ensures err { OnErr result (out.new.items ≡ out.old.items) }
{
    let bytes = bytes_of(header);
    out.reserve(8 + data.len())?;
    out.extend_from_slice(&bytes)?;
    out.extend_from_slice(data)
}

/// The header's bytes.
fn bytes_of(header: Header) -> [u8; 8]
    ensures { result ≡ header_bytes header }
{
    [
        header.kind.byte(),
        header.status.bits(),
        (header.length / 256) as u8,
        (header.length % 256) as u8,
        (header.spid / 256) as u8,
        (header.spid % 256) as u8,
        header.packet_id,
        header.window,
    ]
}

/// Appends a packet as both ends send it: SPID and Window are 0, and the Length counts the data. At
/// want of memory nothing is appended.
pub fn put_sent(
    out: &mut Vec<u8>,
    kind: Kind,
    status: Status,
    packet_id: u8,
    data: &[u8],
) -> Result<(), NoMemory>
    requires { length «data».now ≤ 65527 }
    ensures ok { OnOk result
        (out.new.items ≡ out.old.items ++ sent_bytes kind (bits_of status) packet_id «data».now) }
    ensures err { OnErr result (out.new.items ≡ out.old.items) }
{
    let header = Header {
        kind,
        status,
        length: (8 + data.len()) as u16,
        spid: 0,
        packet_id,
        window: 0,
    };
    put_packet(out, header, data)
}

/// The header of a packet with these data as both ends send it, for a caller that writes the
/// packet: SPID and Window are 0, and the Length counts the data.
#[inline(always)]
pub fn sent_header(kind: Kind, status: Status, packet_id: u8, data: &[u8]) -> [u8; 8]
    requires { length «data».now ≤ 65527 }
    ensures { result ++ «data».now ≡ sent_bytes kind (bits_of status) packet_id «data».now }
{
    let length = 8 + data.len();
    [
        kind.byte(),
        status.bits(),
        (length / 256) as u8,
        (length % 256) as u8,
        0,
        0,
        packet_id,
        0,
    ]
}
