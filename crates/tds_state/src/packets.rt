//! Packets: their types, and those that stand whole in a run of bytes (MS-TDS 2.2.3.1).

ghost use Rattle.std.specs.Prelude.{◌≡◌, ◌≤◌, ◌<◌, ◌+◌, IfSome, length};

use crate::asked::Request;
use crate::prefix::Prefix;
use tds_packet::Head;

/// The types of packets (MS-TDS 2.2.3.1.1).
const BATCH: u8 = 1;

const PROCEDURE: u8 = 3;

pub(crate) const ANSWER: u8 = 4;

pub(crate) const ATTENTION: u8 = 6;

const BULK: u8 = 7;

const TRANSACTION: u8 = 14;

/// What a request of this type is; None where it is none.
pub(crate) fn request_of(kind: u8) -> Option<Request> {
    match kind {
        BATCH => Some(Request::Batch),
        PROCEDURE => Some(Request::Procedure),
        BULK | TRANSACTION => Some(Request::Other),
        _ => None,
    }
}

/// Before the first byte of a request of this type: rows of a bulk load have no ALL_HEADERS.
pub(crate) fn prefix_of(kind: u8) -> Prefix {
    if kind == BULK {
        Prefix::Body
    } else {
        Prefix::new()
    }
}

/// A packet that stands whole.
#[derive(Clone, Copy, Debug)]
pub(crate) struct WholePacket<'a> {
    pub(crate) head: Head,
    pub(crate) data: &'a [u8],
}

/// The packet that bytes begin with, where it is whole and has data.
pub(crate) fn whole_packet(bytes: &[u8]) -> Option<WholePacket<'_>>
    ensures some { IfSome result (λ packet. 0 < length packet.«data».now) }
    ensures within { IfSome result (λ packet. packet.head.length ≤ length bytes.now) }
{
    let [kind, status, high, low, _, _, _, _, behind @ ..] = bytes else {
        return None;
    };
    let length = 256 * u16::from(*high) + u16::from(*low);
    let count = usize::from(length).saturating_sub(8);
    if count == 0 || count > behind.len() {
        return None;
    }
    let head = Head {
        kind: *kind,
        status: *status,
        length,
    };
    Some(WholePacket {
        head,
        data: &behind[..count],
    })
}
