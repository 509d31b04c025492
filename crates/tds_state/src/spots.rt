//! Bytes at a place of others.

ghost use Rattle.std.specs.Prelude.{◌≡◌};
ghost use Rattle.tds_state.specs.Spots.{four_bytes, bytes_stand};

use crate::kept::{behind, first_of};

/// Whether these stand there.
pub(crate) fn bytes_stand(bytes: &[u8], at: usize, part: &[u8]) -> bool
    ensures { result ≡ bytes_stand bytes.now at part.now }
{
    first_of(part.len(), behind(bytes, at)) == part
}

/// The number that four bytes spell, and no more than these.
#[tactic(auto, unfolding(crate::specs::Spots::four_bytes))]
pub(crate) fn four_bytes(bytes: &[u8]) -> Option<u32>
    ensures { result ≡ four_bytes bytes.now }
{
    match bytes {
        [a, b, c, d] => Some(u32::from_le_bytes([*a, *b, *c, *d])),
        _ => None,
    }
}
