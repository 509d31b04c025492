use crate::showing::answer::put_tokens;
use crate::showing::fault::ShowFault;
use crate::showing::request::put_request;
use bitflags::Flags;
use std::alloc::{AllocError, Global};
use std::fmt::Write;
use tds_packet::{Header, Kind, PacketRef, Status};
use tds_request::RequestKind;
use tds_token::Columns;

/// What the packets before leave for the next one.
#[derive(Clone, Copy, Debug)]
pub(crate) struct Shown {
    /// The columns that are known inside an answer's message.
    columns: Columns,
    /// The packet before was one of a request, and didn't end its message.
    is_going_on: bool,
}

impl Shown {
    pub(crate) fn new() -> Shown {
        Shown {
            columns: Columns::none(),
            is_going_on: false,
        }
    }
}

/// Appends a packet's line, and the lines of what it holds.
pub(crate) fn put_packet(
    alloc: Global,
    text: &mut String,
    shown: &mut Shown,
    packet: PacketRef<'_>,
) -> Result<(), ShowFault> {
    put_header(text, packet.header)?;
    match packet.header.kind {
        Kind::Answer => put_answer(alloc, text, shown, packet),
        Kind::Attention => {
            shown.is_going_on = false;
            text.push_str("  attention\n")?;
            Ok(())
        }
        Kind::Batch => put_part(alloc, text, shown, RequestKind::Batch, packet),
        Kind::Transaction => put_part(alloc, text, shown, RequestKind::Transaction, packet),
        // Of these types the data are not read, and no reader lends them.
        Kind::Procedure | Kind::BulkLoad => put_length(text, packet.data),
    }
}

fn put_header(text: &mut String, header: Header) -> Result<(), AllocError> {
    let kind = header.kind.byte();
    let status = header.status.bits();
    let Header {
        length,
        spid,
        packet_id,
        window,
        ..
    } = header;
    writeln!(
        text,
        "packet {kind:02x} {status:02x} {length} {spid} {packet_id} {window}"
    )
}

/// Columns go on from packet to packet of one message.
fn put_answer(
    alloc: Global,
    text: &mut String,
    shown: &mut Shown,
    packet: PacketRef<'_>,
) -> Result<(), ShowFault> {
    shown.columns = put_tokens(alloc, text, shown.columns, packet.data)?;
    if packet.header.status.ends() {
        shown.columns = Columns::none();
    }
    Ok(())
}

/// Only a packet that is a whole message is read as a request.
fn put_part(
    alloc: Global,
    text: &mut String,
    shown: &mut Shown,
    kind: RequestKind,
    packet: PacketRef<'_>,
) -> Result<(), ShowFault> {
    let status = packet.header.status;
    let is_whole = status.ends() && !shown.is_going_on;
    shown.is_going_on = !status.ends();
    if status.contains(Status::IGNORE) {
        text.push_str("  ignored\n")?;
        return Ok(());
    }
    if is_whole {
        return put_request(alloc, text, kind, packet.data);
    }
    put_length(text, packet.data)
}

/// Appends the line of data that are not read.
fn put_length(text: &mut String, data: &[u8]) -> Result<(), ShowFault> {
    writeln!(text, "  part {}", data.len())?;
    Ok(())
}
