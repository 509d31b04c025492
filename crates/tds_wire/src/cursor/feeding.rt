//! Bytes.
ghost use Rattle.tds_wire.specs.Memory.{walk_of};
ghost use Rattle.std.specs.Prelude.{◌≡◌, ◌<◌, ◌≤◌, true, false, drop, length};
ghost use Rattle.tds_wire.specs.Bytes.{Within, onward, standing, walk_step, to_end, went_of};
ghost use Rattle.tds_wire.specs.Inside.{EndsBetween, IsBetween, IsOn, IsWithin, Moves};
ghost use Rattle.tds_wire.specs.declared.due.Due.TheVariants.{Run};
ghost use Rattle.tds_wire.specs.declared.due.Standing.TheVariants.{Between};

use crate::cursor::{Cursor, Step};
use crate::due::{Due, Next, Standing};
use crate::memory::Memory;

impl Cursor {
    /// Takes a byte.
    #[tactic(auto, unfolding(crate::specs::Bytes::walk_step))]
    fn take(&mut self, memory: &mut Memory, byte: u8)
        ensures { walk_of self.new memory.new ≡ walk_step (walk_of self.old memory.old) byte }
    {
        match self.at.due {
            Due::Token => self.take_kind(memory, byte),
            Due::Number { field, left, value } => {
                let value = field.width().shifted(value, byte);
                if left > 1 {
                    self.at.due = Due::Number {
                        field,
                        left: left - 1,
                        value,
                    };
                } else {
                    self.arrive(memory, field, value);
                }
            }
            Due::Run { left, next } => {
                if left > 1 {
                    self.expect_run(left - 1, next);
                } else {
                    self.go(memory, next);
                }
            }
            Due::Broken(_) => {}
        }
    }

    pub fn standing(&self, memory: &Memory) -> Standing
        ensures due { result ≡ standing self.now.at.due }
        ensures between { result ≡ Between → IsBetween (walk_of self.now memory.now) }
    {
        memory.bounds();
        self.at.due.standing()
    }

    /// Passes a run of bytes at once, or as much of it as there is. Answers how many.
    fn pass_run(&mut self, memory: &mut Memory, left: u64, next: Next, bytes: &[u8]) -> usize
        requires some { 0 < length bytes.now }
        requires due { self.old.at.due ≡ Run left next }
        ensures within { result ≤ length bytes.now }
        ensures moves { 0 < result }
        ensures exact { onward (walk_of self.old memory.old) bytes.now ≡
            to_end (walk_of self.new memory.new) (drop result bytes.now) }
    {
        if left > bytes.len() as u64 {
            self.expect_run(left - bytes.len() as u64, next);
            bytes.len()
        } else {
            self.go(memory, next);
            left.max(1) as usize
        }
    }

    /// Passes a run of bytes, or takes one byte. Answers how many.
    fn advance(&mut self, memory: &mut Memory, bytes: &[u8]) -> usize
        requires some { 0 < length bytes.now }
        requires on { IsOn (walk_of self.old memory.old) }
        ensures within { result ≤ length bytes.now }
        ensures moves { 0 < result }
        ensures exact { onward (walk_of self.old memory.old) bytes.now ≡
            to_end (walk_of self.new memory.new) (drop result bytes.now) }
    {
        if let Due::Run { left, next } = self.at.due {
            return self.pass_run(memory, left, next, bytes);
        }
        self.take(memory, bytes[0]);
        1
    }

    /// Passes a piece that ends inside a run of bytes. Whether it does.
    #[inline(always)]
    fn pass_middle(&mut self, memory: &mut Memory, piece: &[u8]) -> bool
        ensures inside { result ≡ true → onward (walk_of self.old memory.old) piece.now
            ≡ Within (walk_of self.new memory.new) }
        ensures other { result ≡
            false → walk_of self.new memory.new ≡ (walk_of self.old memory.old) }
    {
        if let Due::Run { left, next } = self.at.due {
            if left > piece.len() as u64 {
                self.expect_run(left - piece.len() as u64, next);
                return true;
            }
        }
        false
    }

    /// Takes bytes up to the end of one token. After a fault it takes no more.
    #[inline(always)]
    pub fn feed(&mut self, memory: &mut Memory, piece: &[u8]) -> Step
        ensures within { IsWithin result (length piece.now) }
        ensures moves { Moves result (length piece.now) }
        ensures ends { EndsBetween result (walk_of self.new memory.new) }
        ensures exact { went_of result (walk_of self.new memory.new) piece.now ≡
            onward (walk_of self.old memory.old) piece.now }
    {
        if piece.len() > 1 {
            return self.feed_many(memory, piece);
        }
        if self.pass_middle(memory, piece) {
            Step::Within
        } else {
            self.feed_on(memory, piece)
        }
    }

    /// The same of a piece of more than one byte: alone in it can stand what is passed at once.
    #[inline(always)]
    fn feed_many(&mut self, memory: &mut Memory, piece: &[u8]) -> Step
        ensures within { IsWithin result (length piece.now) }
        ensures moves { Moves result (length piece.now) }
        ensures ends { EndsBetween result (walk_of self.new memory.new) }
        ensures exact { went_of result (walk_of self.new memory.new) piece.now ≡
            onward (walk_of self.old memory.old) piece.now }
    {
        if self.pass_middle(memory, piece) {
            return Step::Within;
        }
        if self.pass_border_here(memory, piece) {
            return Step::Within;
        }
        let whole = self.pass_whole_here(memory, piece);
        if whole > 0 {
            return Step::Over(whole);
        }
        self.feed_on(memory, piece)
    }

    /// The same of any piece, a run of bytes or a byte at a time.
    #[inline(never)]
    fn feed_on(&mut self, memory: &mut Memory, piece: &[u8]) -> Step
        ensures within { IsWithin result (length piece.now) }
        ensures moves { Moves result (length piece.now) }
        ensures ends { EndsBetween result (walk_of self.new memory.new) }
        ensures exact { went_of result (walk_of self.new memory.new) piece.now ≡
            onward (walk_of self.old memory.old) piece.now }
    {
        if let Standing::Failing(fault) = self.standing(memory) {
            return Step::Failed(fault, 0);
        }
        let mut done = 0;
        'bytes: while done < piece.len() {
            done += self.advance(memory, &piece[done..]);
            match self.standing(memory) {
                Standing::Between => return Step::Over(done),
                Standing::Going => {}
                Standing::Failing(fault) => return Step::Failed(fault, done),
            }
        }
        Step::Within
    }
}
