//! Tokens that stand whole in a run of bytes, and say in their first bytes how long they are.
ghost use Rattle.std.specs.Prelude.{◌≡◌, ◌≤◌, ◌<◌, true, drop, length};
ghost use Rattle.tds_wire.specs.Bytes.{Over, onward};
ghost use Rattle.tds_wire.specs.Inside.{IsBetween};
ghost use Rattle.tds_wire.specs.Memory.{walk_of};
ghost use Rattle.tds_wire.specs.Walking.{Walk, begun, with_number, with_run};
ghost use Rattle.tds_wire.specs.Whole.{IsWhole};
ghost use Rattle.tds_wire.specs.declared.due.Due.TheVariants as dues;
ghost use Rattle.tds_wire.specs.declared.due.Field.TheVariants as fields;
ghost use Rattle.tds_wire.specs.declared.due.Next.TheVariants.{Ended};
ghost use Rattle.tds_wire.specs.declared.due.TokenField.TheVariants as in_token;

use crate::cursor::Cursor;
use crate::due::Due;
use crate::memory::Memory;

/// Whether a token of this kind has 12 bytes behind its first one (MS-TDS 2.2.7.6 to 2.2.7.8).
#[inline(always)]
#[tactic(auto, unfolding(crate::specs::Walking::begun))]
fn is_done(kind: u8) -> bool
    ensures { result ≡ true → (w : Walk) → begun w kind ≡ with_run w 12 Ended }
{
    match kind {
        0xFD | 0xFE | 0xFF => true,
        _ => false,
    }
}

/// Whether it has 4 (MS-TDS 2.2.7.18).
#[inline(always)]
#[tactic(auto, unfolding(crate::specs::Walking::begun))]
fn is_status(kind: u8) -> bool
    ensures { result ≡ true → (w : Walk) → begun w kind ≡ with_run w 4 Ended }
{
    match kind {
        0x79 => true,
        _ => false,
    }
}

/// Whether a token of this kind says in two bytes how many are behind them.
#[inline(always)]
#[tactic(auto, unfolding(crate::specs::Walking::begun))]
fn is_counted(kind: u8) -> bool
    ensures { result ≡ true → (w : Walk)
        → begun w kind ≡ with_number w (fields.Token in_token.Length) }
{
    match kind {
        0xA4 | 0xA5 | 0xA9 | 0xAA | 0xAB | 0xAD | 0xED => true,
        _ => false,
    }
}

/// Whether a DONE stands here whole.
#[inline(always)]
pub(crate) fn has_done(bytes: &[u8]) -> bool
    ensures within { result ≡ true → 13 ≤ length bytes.now }
    ensures token { result ≡ true → IsWhole 13 bytes.now }
{
    if bytes.len() < 13 {
        return false;
    }
    is_done(bytes[0])
}

/// Whether a RETURNSTATUS does.
#[inline(always)]
pub(crate) fn has_status(bytes: &[u8]) -> bool
    ensures within { result ≡ true → 5 ≤ length bytes.now }
    ensures token { result ≡ true → IsWhole 5 bytes.now }
{
    if bytes.len() < 5 {
        return false;
    }
    is_status(bytes[0])
}

/// How many bytes a token with a count has; 0 where none begins here, or it isn't whole.
#[inline(always)]
pub(crate) fn counted_length(bytes: &[u8]) -> usize
    ensures within { result ≤ length bytes.now }
    ensures token { 0 < result → IsWhole result bytes.now }
{
    if bytes.len() < 3 {
        return 0;
    }
    let count = usize::from(bytes[1]) + 256 * usize::from(bytes[2]);
    if is_counted(bytes[0]) && count + 3 <= bytes.len() {
        count + 3
    } else {
        0
    }
}

/// The same of an ENVCHANGE (MS-TDS 2.2.7.9). One of type 15 has counts of its own, and is left out, as is
/// one without a type.
#[inline(always)]
pub(crate) fn change_length(bytes: &[u8]) -> usize
    ensures within { result ≤ length bytes.now }
    ensures token { 0 < result → IsWhole result bytes.now }
{
    if bytes.len() < 4 || bytes[0] != 0xE3 || bytes[3] == 15 {
        return 0;
    }
    let count = usize::from(bytes[1]) + 256 * usize::from(bytes[2]);
    if count > 0 && count + 3 <= bytes.len() {
        count + 3
    } else {
        0
    }
}

/// The same of the end of a reset, of type 18.
#[inline(always)]
pub(crate) fn reset_length(bytes: &[u8]) -> usize
    ensures within { result ≤ length bytes.now }
    ensures token { 0 < result → IsWhole result bytes.now }
{
    if bytes.len() < 4 || bytes[3] != 18 {
        return 0;
    }
    change_length(bytes)
}

/// The same of any of them.
#[inline(always)]
fn whole_length(bytes: &[u8]) -> usize
    ensures within { result ≤ length bytes.now }
    ensures token { 0 < result → IsWhole result bytes.now }
{
    if has_done(bytes) {
        return 13;
    }
    if has_status(bytes) {
        return 5;
    }
    let change = change_length(bytes);
    if change > 0 {
        return change;
    }
    counted_length(bytes)
}

/// Whether a token may stand here whole that is no row.
#[inline(always)]
pub(crate) fn may_be_whole(bytes: &[u8]) -> bool {
    bytes.len() > 4 && bytes[0] != 0xD1 && bytes[0] != 0xD2
}

impl Cursor {
    /// Passes the token that bytes begin with, where it is whole and says in its first bytes how long it
    /// is: how many bytes it has. Else nothing is done, and the answer is 0.
    #[inline(never)]
    fn pass_whole(&mut self, memory: &Memory, piece: &[u8]) -> usize
        requires { self.old.at.due ≡ dues.Token }
        ensures within { result ≤ length piece.now }
        ensures same { result ≡ 0 → self.new ≡ self.old }
        ensures between { 0 < result → IsBetween (walk_of self.new memory.now) }
        ensures exact { 0 < result → onward (walk_of self.old memory.now) piece.now
            ≡ Over (walk_of self.new memory.now) (drop result piece.now) }
    {
        let length = whole_length(piece);
        if length == 0 {
            return 0;
        }
        memory.bounds();
        self.at.kind = piece[0];
        length
    }

    /// The same wherever the walk is: 0 too where it isn't between two tokens.
    #[inline(always)]
    pub(crate) fn pass_whole_here(&mut self, memory: &Memory, piece: &[u8]) -> usize
        ensures within { result ≤ length piece.now }
        ensures same { result ≡ 0 → self.new ≡ self.old }
        ensures between { 0 < result → IsBetween (walk_of self.new memory.now) }
        ensures exact { 0 < result → onward (walk_of self.old memory.now) piece.now
            ≡ Over (walk_of self.new memory.now) (drop result piece.now) }
    {
        if let Due::Token = self.at.due {
            if may_be_whole(piece) {
                return self.pass_whole(memory, piece);
            }
        }
        0
    }
}
