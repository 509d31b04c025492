//! Bytes written to a caller's buffer.

ghost use Rattle.std.specs.Prelude.{◌≡◌, ◌≤◌, ◌<◌, ◌+◌, ◌++◌, ℕ, List, true, false, length};
ghost use Rattle.tds_c.specs.service.Asking.{with_front};

/// Writes bytes behind those that stand at the buffer's front.
#[inline(always)]
pub(crate) fn put_at(out: &mut [u8], at: usize, bytes: &[u8])
    requires room { at + length bytes.now ≤ length out.old }
    ensures { (front : List ℕ) (buffer : List ℕ) → length front ≡ at
        → out.old ≡ with_front front buffer
        → out.new ≡ with_front (front ++ bytes.now) buffer }
{
    out[at..at + bytes.len()].copy_from_slice(bytes);
}

/// Writes bytes to the front of a buffer, where they fit. How many there are is told anyway.
#[inline(always)]
pub(crate) fn put(bytes: &[u8], out: &mut [u8], count: &mut usize) -> bool
    ensures count { count.new ≡ length bytes.now }
    ensures done { result ≡ true → out.new ≡ with_front bytes.now out.old }
    ensures room { result ≡ false → (length out.old < count.new) × (out.new ≡ out.old) }
{
    *count = bytes.len();
    if bytes.len() > out.len() {
        return false;
    }
    out[..bytes.len()].copy_from_slice(bytes);
    true
}
