//! Packets that lie whole in bytes, lent from them.
ghost use Rattle.std.specs.Prelude.{◌≡◌, ◌++◌, IfSome, IsNone};
ghost use Rattle.tds_ends.specs.AllBytes.{new_reader};
ghost use Rattle.tds_ends.specs.Lent.{IsFront};
ghost use Rattle.tds_packet.specs.Stream.{IsLess};

use tds_packet::{Direction, Header, PacketRef, PacketSize};

/// The packet that these bytes begin with, if it is whole. None, where its header has a fault, too.
pub(crate) fn front(bytes: &[u8], size: PacketSize, direction: Direction) -> Option<PacketRef<'_>>
    ensures lent { IfSome result (λ packet.
        IsFront direction size bytes.now packet.header packet.«data».now) }
    ensures none { IsNone result → IsLess (new_reader direction size) bytes.now }
{
    let Some((first, rest)) = bytes.split_first_chunk::<8>() else {
        return None;
    };
    let Ok(header) = Header::read(first, size, direction) else {
        return None;
    };
    let Some(data) = rest.get(..usize::from(header.length) - 8) else {
        return None;
    };
    Some(PacketRef { header, data })
}
