use bitflags::Flags;
use std::alloc::{AllocError, Global};
use tds_packet::{Direction, Kind, PacketReader, PacketRef, PacketSize, Status, put_packet};
use tds_request::{RequestFault, RequestKind, decode, encode};
use tds_token::{Columns, Tokens, put_token};

/// Whether bytes are one packet, and are written again of what is read of them.
pub(crate) fn comes_back(alloc: Global, bytes: &[u8]) -> Result<bool, AllocError> {
    let Some(size) = PacketSize::new(32767) else {
        return Ok(false);
    };
    let direction = match bytes.first() {
        Some(0x04) => Direction::ToClient,
        _ => Direction::ToServer,
    };
    let mut reader = PacketReader::new(alloc, size, direction)?;
    match reader.feed(bytes) {
        Ok(count) if count == bytes.len() => {}
        _ => return Ok(false),
    }
    match reader.packet() {
        None => Ok(false),
        Some(packet) => is_written_as(alloc, packet, bytes),
    }
}

/// Whether a packet is written as these bytes.
fn is_written_as(alloc: Global, packet: PacketRef<'_>, bytes: &[u8]) -> Result<bool, AllocError> {
    let Some(data) = data_again(alloc, packet)? else {
        return Ok(false);
    };
    if usize::from(packet.header.length) != 8 + data.len() {
        return Ok(false);
    }
    let mut out = Vec::new(alloc);
    put_packet(&mut out, packet.header, data.as_slice())?;
    Ok(out.as_slice() == bytes)
}

/// What is read of a packet's data, written again. None where they can't be read.
fn data_again(alloc: Global, packet: PacketRef<'_>) -> Result<Option<Vec<u8>>, AllocError> {
    if packet.header.status.contains(Status::IGNORE) {
        return Ok(Some(Vec::new(alloc)));
    }
    match packet.header.kind {
        Kind::Answer => tokens_again(alloc, packet.data),
        Kind::Attention => Ok(Some(Vec::new(alloc))),
        Kind::Batch => request_again(alloc, RequestKind::Batch, packet.data),
        Kind::Transaction => request_again(alloc, RequestKind::Transaction, packet.data),
        // Of these types the data are not read, and no reader lends them.
        Kind::Procedure | Kind::BulkLoad => Ok(None),
    }
}

fn tokens_again(alloc: Global, data: &[u8]) -> Result<Option<Vec<u8>>, AllocError> {
    let mut out = Vec::new(alloc);
    let mut tokens = Tokens::new(data, Columns::none());
    'tokens: while let Some(next) = tokens.next() {
        let Ok(token) = next else {
            return Ok(None);
        };
        let token = token.own(alloc)?;
        if !token.fits() {
            return Ok(None);
        }
        put_token(&mut out, &token)?;
    }
    Ok(Some(out))
}

fn request_again(
    alloc: Global,
    kind: RequestKind,
    message: &[u8],
) -> Result<Option<Vec<u8>>, AllocError> {
    let (descriptor, request) = match decode(alloc, kind, message) {
        Ok(found) => found,
        Err(RequestFault::Memory) => return Err(AllocError),
        Err(_) => return Ok(None),
    };
    let mut out = Vec::new(alloc);
    encode(&request, descriptor, &mut out)?;
    Ok(Some(out))
}
