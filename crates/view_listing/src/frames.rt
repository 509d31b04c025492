//! The packets of a play as frames of Ethernet, in the hexadecimal dump that Wireshark's text2pcap
//! reads. Each connection is a TCP connection of its own, to port 1433, so Wireshark knows it as TDS.

use std::alloc::{AllocError, Global};
use std::fmt::Write as _;
use std::io::Write;
use tds_packet::Direction;
use tds_play::RenderFault;
use tds_text::write_whole;
use view_trace::Packet;

/// The port of SQL Server.
const SERVER_PORT: u16 = 1433;

/// The client's port of connection N is N above this.
const CLIENT_PORT: u32 = 50_000;

/// The bytes of an IPv4 and a TCP header without options.
const HEADERS: u16 = 40;

/// The addresses of the client and of the server.
const CLIENT: [u8; 4] = [10, 0, 0, 1];

const SERVER: [u8; 4] = [10, 0, 0, 2];

/// How many bytes a connection's ends have sent.
#[derive(Clone, Copy)]
struct Sent {
    conn: u32,
    by_client: u32,
    by_server: u32,
}

/// Prints a frame for each packet.
pub(crate) fn print_frames<W: Write>(
    alloc: Global,
    packets: &[Packet],
    output: &mut W,
) -> Result<(), RenderFault> {
    let mut all_sent = Vec::new(alloc);
    let mut text = String::new(alloc);
    for packet in packets {
        text.clear();
        let frame = frame_of(alloc, &mut all_sent, packet)?;
        put_dump(&mut text, frame.as_slice())?;
        write_whole(output, text.as_str())?;
    }
    Ok(())
}

/// Appends sixteen bytes a line, each line behind its offset.
fn put_dump(text: &mut String, bytes: &[u8]) -> Result<(), AllocError> {
    for (index, line) in bytes.chunks(16).enumerate() {
        write!(text, "{:06x}", index.saturating_mul(16))?;
        for byte in line {
            write!(text, " {byte:02x}")?;
        }
        text.push_str("\n")?;
    }
    text.push_str("\n")
}

fn frame_of(
    alloc: Global,
    all_sent: &mut Vec<Sent>,
    packet: &Packet,
) -> Result<Vec<u8>, AllocError> {
    let before = note(all_sent, packet)?;
    let mut frame = Vec::new(alloc);
    put_ethernet(&mut frame, packet.direction)?;
    put_ip(&mut frame, packet)?;
    put_tcp(&mut frame, packet, before)?;
    frame.extend_from_slice(packet.bytes.as_slice())?;
    Ok(frame)
}

/// Counts a packet, and answers what its connection's ends had sent before it.
fn note(all_sent: &mut Vec<Sent>, packet: &Packet) -> Result<Sent, AllocError> {
    let found = all_sent.iter_mut().find(|it| it.conn == packet.conn);
    let count = u32::from(packet.header.length);
    let before = match found {
        Some(sent) => {
            let before = *sent;
            sent.add(packet.direction, count);
            before
        }
        None => {
            let before = Sent {
                conn: packet.conn,
                by_client: 0,
                by_server: 0,
            };
            let mut sent = before;
            sent.add(packet.direction, count);
            all_sent.push(sent)?;
            before
        }
    };
    Ok(before)
}

impl Sent {
    fn add(&mut self, direction: Direction, count: u32) {
        match direction {
            Direction::ToServer => self.by_client = self.by_client.wrapping_add(count),
            Direction::ToClient => self.by_server = self.by_server.wrapping_add(count),
        }
    }
}

fn put_ethernet(frame: &mut Vec<u8>, direction: Direction) -> Result<(), AllocError> {
    let (client, server) = ([2, 0, 0, 0, 0, 1], [2, 0, 0, 0, 0, 2]);
    let (from, to) = match direction {
        Direction::ToServer => (client, server),
        Direction::ToClient => (server, client),
    };
    frame.extend_from_slice(&to)?;
    frame.extend_from_slice(&from)?;
    frame.extend_from_slice(&[8, 0])
}

/// Appends an IPv4 header (RFC 791).
fn put_ip(frame: &mut Vec<u8>, packet: &Packet) -> Result<(), AllocError> {
    let [high, low] = packet.header.length.saturating_add(HEADERS).to_be_bytes();
    let (from, to) = match packet.direction {
        Direction::ToServer => (CLIENT, SERVER),
        Direction::ToClient => (SERVER, CLIENT),
    };
    frame.extend_from_slice(&[0x45, 0, high, low, 0, 0, 0x40, 0, 64, 6, 0, 0])?;
    frame.extend_from_slice(&from)?;
    frame.extend_from_slice(&to)
}

/// Appends a TCP header (RFC 9293), whose checksum is left out.
fn put_tcp(frame: &mut Vec<u8>, packet: &Packet, before: Sent) -> Result<(), AllocError> {
    let client = CLIENT_PORT.saturating_add(packet.conn);
    let client = u16::try_from(client).unwrap_or(u16::MAX);
    let (from, to, sequence, acknowledged) = match packet.direction {
        Direction::ToServer => (client, SERVER_PORT, before.by_client, before.by_server),
        Direction::ToClient => (SERVER_PORT, client, before.by_server, before.by_client),
    };
    frame.extend_from_slice(&from.to_be_bytes())?;
    frame.extend_from_slice(&to.to_be_bytes())?;
    frame.extend_from_slice(&sequence.wrapping_add(1).to_be_bytes())?;
    frame.extend_from_slice(&acknowledged.wrapping_add(1).to_be_bytes())?;
    frame.extend_from_slice(&[0x50, 0x18, 0xff, 0xff, 0, 0, 0, 0])
}
