//! What is handed to the server: whole messages, each in one packet.
ghost use Rattle.std.specs.Prelude.{◌≡◌};
ghost use Rattle.tds_packet.specs.declared.kind.Kind.TheVariants as kinds;

use serve_requests::Plan;
use serve_values::text::own;
use std::alloc::{AllocError, Global};
use tds_packet::{Header, Kind, PacketRef, Reset, Status};
use tds_request::{BatchText, Request, encode};

/// The message of the batch that is run for a plan; none where that is empty or too long.
pub(crate) fn message_of(
    alloc: Global,
    plan: &Plan,
    descriptor: u64,
) -> Result<Option<Vec<u8>>, AllocError> {
    let Some(text) = BatchText::new(own(alloc, plan.text.as_slice())?) else {
        return Ok(None);
    };
    let mut message = Vec::new(alloc);
    encode(&Request::Batch(text), descriptor, &mut message)?;
    Ok(Some(message))
}

/// The packet of an attention.
pub(crate) fn attention<'a>() -> PacketRef<'a>
    ensures { result.header.kind ≡ kinds.Attention }
{
    let header = header_of(Kind::Attention, None);
    PacketRef { header, data: &[] }
}

/// The packet of a batch with these data.
pub(crate) fn batch<'a>(reset: Option<Reset>, data: &'a [u8]) -> PacketRef<'a>
    ensures { result.header.kind ≡ kinds.Batch }
{
    let header = header_of(Kind::Batch, reset);
    PacketRef { header, data }
}

/// The packet of a transaction manager request with these data.
pub(crate) fn transaction<'a>(reset: Option<Reset>, data: &'a [u8]) -> PacketRef<'a>
    ensures { result.header.kind ≡ kinds.Transaction }
{
    let header = header_of(Kind::Transaction, reset);
    PacketRef { header, data }
}

/// The header of a packet that is a whole message. The server looks at its type and its status alone.
fn header_of(kind: Kind, reset: Option<Reset>) -> Header
    ensures { result.kind ≡ kind }
{
    Header {
        kind,
        status: Status::of_request(true, 0, reset),
        length: 8,
        spid: 0,
        packet_id: 1,
        window: 0,
    }
}
