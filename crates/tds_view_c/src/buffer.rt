//! Bytes written to the front of the caller's buffer.

ghost use Rattle.std.specs.Prelude.{◌≡◌, ◌<◌, true, false, length};
ghost use Rattle.tds_view_c.specs.Written.{Writes};

/// Writes bytes to the front of a buffer, where they fit. How many there are is told anyway.
#[inline(always)]
pub(crate) fn put(bytes: &[u8], out: &mut [u8], count: &mut usize) -> bool
    ensures count { count.new ≡ length bytes.now }
    ensures done { result ≡ true → Writes bytes.now out.old out.new count.new }
    ensures room { result ≡ false → (out.new ≡ out.old) × (length out.old < count.new) }
{
    *count = bytes.len();
    if bytes.len() > out.len() {
        return false;
    }
    out[..bytes.len()].copy_from_slice(bytes);
    true
}
