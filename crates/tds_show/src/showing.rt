//! The packets of a word of hexadecimal digits, as text.
ghost use Rattle.std.specs.Prelude.{◌≡◌, ◌⊎◌};

mod answer;
mod fault;
mod packet;
mod request;

use crate::ending::status_of;
use fault::ShowFault;
use packet::{Shown, put_packet};
use std::alloc::{AllocError, Global};
use std::io::Write;
use tds_packet::{Direction, PacketReader, PacketSize};
use tds_text::{RenderFault, WordFault, word_bytes, write_whole};

/// Prints the packets that a word spells. The first fault ends the text. It answers the exit
/// status: 0 if all was shown without a fault, else 1. A line goes to `errors` where the text
/// doesn't go out whole.
pub fn run_show<W: Write, F: Write>(alloc: Global, word: &str, output: &mut W, errors: &mut F) -> u8
    ensures status { (result ≡ 0) ⊎ (result ≡ 1) }
    ensures silent { result ≡ 0 → F.contents errors.new ≡ F.contents errors.old }
{
    status_of(show(alloc, word, output), errors)
}

/// Whether the packets were shown without a fault.
fn show<W: Write>(alloc: Global, word: &str, output: &mut W) -> Result<bool, RenderFault> {
    let mut text = String::new(alloc);
    let is_faultless = put_word(alloc, &mut text, word)?;
    write_whole(output, text.as_str())?;
    Ok(is_faultless)
}

/// Appends the lines of the packets, and of the fault that ends them, if there is one.
fn put_word(alloc: Global, text: &mut String, word: &str) -> Result<bool, AllocError> {
    match put_packets(alloc, text, word) {
        Ok(()) => Ok(true),
        Err(ShowFault::Memory) => Err(AllocError),
        Err(fault) => {
            fault.put(text)?;
            Ok(false)
        }
    }
}

fn put_packets(alloc: Global, text: &mut String, word: &str) -> Result<(), ShowFault> {
    let bytes = match word_bytes(alloc, word) {
        Ok(bytes) => bytes,
        Err(WordFault::NotHexadecimal) => return Err(ShowFault::Hexadecimal),
        Err(WordFault::Memory) => return Err(ShowFault::Memory),
    };
    let Some(size) = PacketSize::new(32767) else {
        return Ok(());
    };
    let mut reader = PacketReader::new(alloc, size, direction_of(bytes.as_slice()))?;
    put_each(alloc, text, &mut reader, bytes.as_slice())
}

/// Answers go to the client, all else to the server.
fn direction_of(bytes: &[u8]) -> Direction {
    match bytes.first() {
        Some(0x04) => Direction::ToClient,
        _ => Direction::ToServer,
    }
}

fn put_each(
    alloc: Global,
    text: &mut String,
    reader: &mut PacketReader,
    bytes: &[u8],
) -> Result<(), ShowFault> {
    let mut shown = Shown::new();
    let mut rest = bytes;
    'packets: while !rest.is_empty() {
        match reader.feed(rest) {
            Ok(count) => rest = &rest[count..],
            // In fewer bytes than a header no fault is found, so they are cut.
            Err(fault) => return Err(ShowFault::Packet(fault.number())),
        }
        let Some(packet) = reader.packet() else {
            return Err(ShowFault::Cut);
        };
        put_packet(alloc, text, &mut shown, packet)?;
        reader.done();
    }
    Ok(())
}
