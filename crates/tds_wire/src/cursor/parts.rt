//! Values in parts (MS-TDS 2.2.5.2.3).
ghost use Rattle.std.specs.Prelude.{◌≡◌, ◌≤◌, ◌+◌, ◌*◌, false, get_or, length, true};
ghost use Rattle.tds_wire.specs.Bytes.{Within, onward};
ghost use Rattle.tds_wire.specs.Memory.{walk_of};
ghost use Rattle.tds_wire.specs.declared.due.Due.TheVariants as dues;
ghost use Rattle.tds_wire.specs.declared.due.Field.TheVariants as fields;
ghost use Rattle.tds_wire.specs.declared.due.Next.TheVariants as nexts;
ghost use Rattle.tds_wire.specs.declared.due.ValueField.TheVariants as in_value;

use crate::cursor::Cursor;
use crate::due::{Due, Field, Next, ValueField};
use crate::memory::Memory;

/// The count of a part.
#[inline(always)]
fn count_of(bytes: &[u8]) -> u64
    requires { 4 ≤ length bytes.now }
    ensures { result ≡ get_or bytes.now 0 0 + 256 * get_or bytes.now 1 0
        + 65536 * get_or bytes.now 2 0 + 16777216 * get_or bytes.now 3 0 }
{
    u64::from(bytes[0])
        + 256 * u64::from(bytes[1])
        + 65_536 * u64::from(bytes[2])
        + 16_777_216 * u64::from(bytes[3])
}

impl Cursor {
    /// Passes a piece in which a part of a value ends, of which so many bytes are left, and the next part
    /// begins behind its count, and doesn't end. Whether it is one; else nothing is done.
    #[inline(never)]
    fn pass_border(&mut self, memory: &Memory, left: u64, piece: &[u8]) -> bool
        requires { self.old.at.due
            ≡ dues.Run left (nexts.Then (fields.Value in_value.PartCount)) }
        ensures inside { result ≡ true → onward (walk_of self.old memory.now) piece.now
            ≡ Within (walk_of self.new memory.now) }
        ensures other { result ≡ false → self.new ≡ self.old }
    {
        let length = piece.len() as u64;
        if left == 0 || length < 4 || left > length - 4 {
            return false;
        }
        let count = count_of(&piece[left as usize..]);
        let rest = length - left - 4;
        if count <= rest {
            return false;
        }
        self.expect_run(
            count - rest,
            Next::Then(Field::Value(ValueField::PartCount)),
        );
        true
    }

    /// The same wherever the walk is.
    #[inline(always)]
    pub(crate) fn pass_border_here(&mut self, memory: &Memory, piece: &[u8]) -> bool
        ensures inside { result ≡ true → onward (walk_of self.old memory.now) piece.now
            ≡ Within (walk_of self.new memory.now) }
        ensures other { result ≡ false → self.new ≡ self.old }
    {
        match self.at.due {
            Due::Run {
                left,
                next: Next::Then(Field::Value(ValueField::PartCount)),
            } => self.pass_border(memory, left, piece),
            _ => false,
        }
    }
}
