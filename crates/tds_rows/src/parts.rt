//! Values in parts (MS-TDS 2.2.5.2.3).

ghost use Rattle.std.specs.Prelude.{◌≡◌, ◌≤◌, IfSome, length};
ghost use Rattle.tds_rows.specs.Finding.{EndsAfter};
ghost use Rattle.tds_rows.specs.Places.{is_absent};
ghost use Rattle.tds_wire.specs.Layout.{parts};
ghost use Rattle.tds_wire.specs.declared.shape.Shape.TheVariants as shapes;

use crate::numbers::four_at;

/// Whether all ones stand in place of a length of eight bytes.
#[inline(always)]
pub(crate) fn is_absent(bytes: &[u8]) -> bool
    requires { 8 ≤ length bytes.now }
    ensures { result ≡ is_absent shapes.Parts bytes.now }
{
    four_at(bytes, 0) == 4_294_967_295 && four_at(bytes, 4) == 4_294_967_295
}

/// How many bytes parts have behind their counts, with the empty one that is behind them. Nothing where the
/// bytes end first.
#[inline(never)]
pub(crate) fn parts_length(bytes: &[u8]) -> Option<usize>
    ensures exact { EndsAfter tt (parts (length bytes.now) bytes.now) bytes.now result }
    ensures closed { IfSome result (λ n. 4 ≤ n) }
{
    let mut done = 0usize;
    let mut most = bytes.len();
    'parts: while most > 0 {
        let left = bytes.len() - done;
        if left < 4 {
            return None;
        }
        let count = four_at(bytes, done);
        if count == 0 {
            return Some(done + 4);
        }
        if left - 4 < count {
            return None;
        }
        done += count + 4;
        most -= 1;
    }
    None
}
