//! The packets of a play as bytes.

use crate::frames::print_frames;
use std::alloc::{AllocError, Global};
use std::fmt::Write as _;
use std::io::Write;
use tds_packet::Direction;
use tds_play::{RenderFault, run_show};
use tds_text::write_whole;
use view_trace::{Exchange, Packet};

/// How packets are spelled.
#[derive(Clone, Copy, PartialEq, Eq)]
pub enum BytesForm {
    /// A line for each: its event, its connection, its direction, and two hexadecimal digits a byte.
    Digits,
    /// The same, and below it what the packet means.
    Shown,
    /// As `text2pcap` of Wireshark takes it.
    Frames,
}

/// Prints every packet of a play, in the order of the events.
pub fn print_bytes<W: Write>(
    alloc: Global,
    exchange: &Exchange,
    form: BytesForm,
    output: &mut W,
) -> Result<(), RenderFault> {
    let packets = exchange.packets.as_slice();
    match form {
        BytesForm::Digits => print_digits(alloc, packets, output),
        BytesForm::Shown => print_shown(alloc, packets, output),
        BytesForm::Frames => print_frames(alloc, packets, output),
    }
}

fn print_digits<W: Write>(
    alloc: Global,
    packets: &[Packet],
    output: &mut W,
) -> Result<(), RenderFault> {
    let mut line = String::new(alloc);
    for packet in packets {
        line.clear();
        put_line(&mut line, packet)?;
        write_whole(output, line.as_str())?;
    }
    Ok(())
}

/// Appends a packet's line: its event, its connection, its direction, its bytes.
fn put_line(line: &mut String, packet: &Packet) -> Result<(), AllocError> {
    let way = match packet.direction {
        Direction::ToServer => "to server",
        Direction::ToClient => "to client",
    };
    write!(line, "{} on {} {way} ", packet.event, packet.conn)?;
    put_digits(line, packet.bytes.as_slice())?;
    line.push_str("\n")
}

/// Appends two hexadecimal digits for each byte.
fn put_digits(line: &mut String, bytes: &[u8]) -> Result<(), AllocError> {
    for byte in bytes {
        write!(line, "{byte:02X}")?;
    }
    Ok(())
}

/// The packets of a message that has not ended yet, as digits.
#[derive(Drop)]
struct Message {
    conn: u32,
    direction: Direction,
    digits: String,
}

fn print_shown<W: Write>(
    alloc: Global,
    packets: &[Packet],
    output: &mut W,
) -> Result<(), RenderFault> {
    let mut messages = Vec::new(alloc);
    for packet in packets {
        let text = shown_text(alloc, &mut messages, packet)?;
        write_whole(output, text.as_str())?;
    }
    Ok(())
}

/// A packet's line, and what the packet means behind those of its message that came before it.
fn shown_text(
    alloc: Global,
    messages: &mut Vec<Message>,
    packet: &Packet,
) -> Result<String, AllocError> {
    let mut text = String::new(alloc);
    put_line(&mut text, packet)?;
    let mut message = message_of(alloc, messages, packet);
    put_digits(&mut message.digits, packet.bytes.as_slice())?;
    put_last_shown(alloc, &mut text, message.digits.as_str())?;
    if !packet.header.status.ends() {
        messages.push(message)?;
    }
    Ok(text)
}

/// Takes the message out that a packet goes on with, or begins one.
fn message_of(alloc: Global, messages: &mut Vec<Message>, packet: &Packet) -> Message {
    let found = messages.iter().position(|it| it.conn == packet.conn
        && it.direction == packet.direction);
    match found {
        Some(place) => messages.swap_remove(place),
        None => Message {
            conn: packet.conn,
            direction: packet.direction,
            digits: String::new(alloc),
        },
    }
}

/// Appends what `show` says of the last packet of these.
fn put_last_shown(alloc: Global, text: &mut String, digits: &str) -> Result<(), AllocError> {
    let mut shown = Vec::new(alloc);
    let mut errors = Vec::new(alloc);
    run_show(alloc, digits, &mut shown, &mut errors);
    if !errors.is_empty() {
        return Err(AllocError);
    }
    let all = String::from_utf8_lossy(alloc, shown.as_slice())?;
    let count = all.as_str().lines().filter(|line| is_packet(line)).count();
    let mut seen = 0usize;
    for line in all.as_str().lines() {
        if is_packet(line) {
            seen = seen.saturating_add(1);
        }
        if seen == count {
            writeln!(text, "  {line}")?;
        }
    }
    Ok(())
}

fn is_packet(line: &str) -> bool {
    line.starts_with("packet ")
}
