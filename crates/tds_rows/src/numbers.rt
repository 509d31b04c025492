//! Numbers in bytes, the lowest byte first.
ghost use Rattle.std.specs.Prelude.{◌≡◌, ◌≤◌, ◌+◌, length};
ghost use Rattle.tds_rows.specs.Places.{four_from, two_from};

/// The number of two bytes.
#[inline(always)]
pub(crate) fn two_at(bytes: &[u8], at: usize) -> usize
    requires { at + 2 ≤ length bytes.now }
    ensures { result ≡ two_from at bytes.now }
{
    usize::from(bytes[at]) + 256 * usize::from(bytes[at + 1])
}

/// The number of four bytes.
#[inline(always)]
pub(crate) fn four_at(bytes: &[u8], at: usize) -> usize
    requires { at + 4 ≤ length bytes.now }
    ensures { result ≡ four_from at bytes.now }
{
    usize::from(bytes[at])
        + 256 * usize::from(bytes[at + 1])
        + 65_536 * usize::from(bytes[at + 2])
        + 16_777_216 * usize::from(bytes[at + 3])
}
