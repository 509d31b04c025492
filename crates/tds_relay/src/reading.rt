//! What the packet layer says of bytes that a connection's reader takes.
ghost use Rattle.std.specs.Prelude.{◌≡◌, [], ℕ, List};
ghost use Rattle.tds_packet.specs.Layout.{IsPacket};
ghost use Rattle.tds_packet.specs.Reading.{Reading, IsWhole, up_to_end, with_taken};
ghost use Rattle.tds_packet.specs.Stream.{IsLess};
ghost use Rattle.tds_packet.specs.declared.header.Header.{Header};

use tds_packet::laws::{any_cutting, one_packet, whatever_follows};

/// Where what a reader takes of bytes is no packet, none begins it; and none begins no bytes. What it has is
/// one packet at most.
pub(crate) fn reads_packets()
    ensures less { (r : Reading) (bytes : List ℕ)
        → ¬ IsWhole (with_taken r (up_to_end r bytes)) → IsLess r (up_to_end r bytes) }
    ensures nothing { (r : Reading) → IsLess r [] }
    ensures one { (r : Reading) (one other : Header) (first second : List ℕ)
        → IsPacket r.direction r.size r.taken one first
        → IsPacket r.direction r.size r.taken other second
        → (one ≡ other) × (first ≡ second) }
{
    any_cutting();
    whatever_follows();
    one_packet();
}
