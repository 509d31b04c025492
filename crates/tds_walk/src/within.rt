//! A piece that ends inside a value: of a walk no more is read and written than it needs.

ghost use Rattle.std.specs.Prelude.{◌≡◌, ◌≤◌, ◌<◌, ◌+◌, ◌*◌, IfSome, IsSome, Some, get_or, length, true};
ghost use Rattle.tds_walk.specs.Wire.{code_of, inside_from, next_from};
ghost use Rattle.tds_walk.specs.Within.{RunsOn, StaysInside, behind_piece, run_next};

use crate::walk::TdsWire;

/// The count of a part.
#[inline(always)]
fn count_of(bytes: &[u8]) -> u64
    requires { 4 ≤ length bytes.now }
    ensures { result ≡ get_or bytes.now 0 0 + 256 * get_or bytes.now 1 0
        + 65536 * get_or bytes.now 2 0 + 16777216 * get_or bytes.now 3 0 }
{
    u64::from(bytes[0])
        + 256 * u64::from(bytes[1])
        + 65_536 * u64::from(bytes[2])
        + 16_777_216 * u64::from(bytes[3])
}

/// Of a run of bytes that goes on behind a piece, how many are left then. Of a value in parts the run may
/// be the next part's, where one part ends in the piece. Where the piece leads elsewhere the answer is 0.
#[inline(always)]
fn left_behind(left: u64, in_parts: bool, piece: &[u8]) -> u64
    ensures { 0 < result → RunsOn left in_parts piece.now result }
{
    let length = piece.len() as u64;
    if left > length {
        return left - length;
    }
    if !in_parts || left == 0 || length < left + 4 {
        return 0;
    }
    let count = count_of(&piece[left as usize..]);
    let rest = length - left - 4;
    if count > rest { count - rest } else { 0 }
}

impl TdsWire {
    /// Whether it is a walk inside a run of bytes, of whose token no more first bytes are kept, by the
    /// fields that say so.
    #[inline(always)]
    #[tactic(auto, unfolding(crate::specs::Wire::inside_from))]
    fn is_in_run(&self) -> bool
        ensures due { result ≡ true → self.now.due.due ≡ 2 }
        ensures whole { result ≡ true → self.now.refused.fault ≡ 0 }
        ensures head { result ≡ true → 24 ≤ self.now.head_count }
        ensures inside { result ≡ true → IsSome (inside_from self.now.inside) }
    {
        if self.due.due != 2 || self.refused.fault != 0 || self.head_count < 24 {
            return false;
        }
        match self.inside.inside {
            0 | 1 | 2 | 3 | 4 | 5 => true,
            _ => false,
        }
    }

    /// Whether a run is one of a value in parts, where it is a value's.
    #[inline(always)]
    #[tactic(auto, unfolding(crate::specs::Wire::next_from, crate::specs::WireFields::field_from, crate::specs::WireFields::late_field_from))]
    fn run_in_parts(&self) -> Option<bool>
        ensures { IfSome result (λ in_parts.
            next_from self.now.due.next (code_of self.now.due) ≡ Some (run_next in_parts)) }
    {
        if self.due.next == 6 {
            return Some(false);
        }
        if self.due.next == 1 && self.due.field == 0x48 {
            return Some(true);
        }
        None
    }

    /// Of a piece that ends inside a value, or inside the next part of one, and in which no token ends, how
    /// many bytes of that are left behind it; of any other 0.
    #[inline(always)]
    pub fn left_within(&self, piece: &[u8]) -> u64
        ensures { 0 < result
            → StaysInside self.now (behind_piece self.now result piece.now) piece.now }
    {
        if !self.is_in_run() {
            return 0;
        }
        match self.run_in_parts() {
            Some(in_parts) => left_behind(self.due.left, in_parts, piece),
            None => 0,
        }
    }

    /// Goes on behind such a piece.
    #[inline(always)]
    pub fn go_within(&mut self, left: u64, piece: &[u8])
        ensures { self.new ≡ behind_piece self.old left piece.now }
    {
        self.due.left = left;
        self.passed = self.passed.saturating_add(piece.len() as u64);
    }
}
