//! What the packet layer says of bytes that a reader takes.
ghost use Rattle.std.specs.Prelude.{◌≡◌, ◌++◌, ℕ, List, None, Some, length};
ghost use Rattle.tds_ends.specs.Light.{TellsEmpty};
ghost use Rattle.tds_packet.specs.Reading.{Reading, with_taken, fault_of, up_to_end, IsWhole};
ghost use Rattle.tds_packet.specs.Stream.{IsLess};
ghost use Rattle.tds_packet.specs.declared.fault.PacketFault.{PacketFault};

use tds_packet::laws::{fronts, whatever_follows};

/// Where a reader takes all bytes that there are, and no packet is whole, none begins them; and
/// none begins bytes whose header has a fault.
pub(crate) fn reads_packets()
    ensures less { (r : Reading) (bytes : List ℕ) → up_to_end r bytes ≡ bytes
        → ¬ IsWhole (with_taken r bytes) → IsLess r bytes }
    ensures faulty { (r : Reading) (bytes : List ℕ) (fault : PacketFault)
        → fault_of r (up_to_end r bytes) ≡ Some fault
        → IsLess r bytes × (fault_of r bytes ≡ Some fault) }
{
    whatever_follows();
    fronts();
}

/// Whether a reader holds no bytes that took so many more, where this says whether it held none.
pub(crate) fn is_still_empty(was_empty: bool, taken: usize) -> bool
    ensures { (held more : List ℕ) → TellsEmpty was_empty held → length more ≡ taken
        → TellsEmpty result (held ++ more) }
{
    was_empty && taken == 0
}
