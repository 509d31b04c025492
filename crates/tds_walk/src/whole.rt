//! A token that stands whole between two tokens: of a walk no more is read and written than it needs.

ghost use Rattle.std.specs.Prelude.{◌≡◌, ◌<◌, IsSome, true};
ghost use Rattle.tds_walk.specs.Wire.{inside_from};
ghost use Rattle.tds_walk.specs.WireCalls.{Feeds};

use crate::token::{TdsWireToken, put_shown, shown};
use crate::walk::{TdsWire, placed};
use tds_wire::{Memory, row_token, whole_row, whole_token};

impl TdsWire {
    /// Whether it is a walk between two tokens, by the fields that say so.
    #[inline(always)]
    #[tactic(auto, unfolding(crate::specs::Wire::inside_from))]
    pub fn is_ready(&self) -> bool
        ensures due { result ≡ true → self.now.due.due ≡ 0 }
        ensures whole { result ≡ true → self.now.refused.fault ≡ 0 }
        ensures head { result ≡ true → self.now.head_count ≡ 0 }
        ensures passed { result ≡ true → self.now.passed ≡ 0 }
        ensures inside { result ≡ true → IsSome (inside_from self.now.inside) }
    {
        if self.due.due != 0 || self.refused.fault != 0 {
            return false;
        }
        if self.head_count != 0 || self.passed != 0 {
            return false;
        }
        match self.inside.inside {
            0 | 1 | 2 | 3 | 4 | 5 => true,
            _ => false,
        }
    }

    /// Takes the row that bytes begin with, where it is whole and has no value behind a longer count than of
    /// two bytes: how many bytes it has. Else nothing is done, and the answer is 0.
    #[inline(never)]
    fn take_row(&mut self, memory: &Memory, piece: &[u8], token: &mut TdsWireToken) -> usize
        requires due { self.old.due.due ≡ 0 }
        requires whole { self.old.refused.fault ≡ 0 }
        requires head { self.old.head_count ≡ 0 }
        requires passed { self.old.passed ≡ 0 }
        requires inside { IsSome (inside_from self.old.inside) }
        ensures same { result ≡ 0 → (self.new ≡ self.old) × (token.new ≡ token.old) }
        ensures exact { 0 < result → Feeds (record {
          before = self.old;
          after = self.new;
          memory_before = memory.now;
          memory_after = memory.now;
          piece = piece.now;
          count = result;
          token_before = token.old;
          token_after = token.new;
          answer = 0;
        }) }
    {
        let length = whole_row(memory, piece);
        if length == 0 {
            return 0;
        }
        memory.bounds();
        let row = row_token(self.start, length);
        self.kind = 0xD1;
        self.inside = placed(2, memory.count() - 1);
        self.start = self.start.saturating_add(length as u64);
        *token = shown(&row);
        length
    }

    /// Takes the token that bytes begin with, where it is whole and the walk is between two tokens: how
    /// many bytes it has. Else nothing is done, and the answer is 0.
    #[inline(always)]
    pub(crate) fn take_whole(
        &mut self,
        memory: &Memory,
        piece: &[u8],
        token: &mut TdsWireToken,
    ) -> usize
        ensures same { result ≡ 0 → (self.new ≡ self.old) × (token.new ≡ token.old) }
        ensures exact { 0 < result → Feeds (record {
          before = self.old;
          after = self.new;
          memory_before = memory.now;
          memory_after = memory.now;
          piece = piece.now;
          count = result;
          token_before = token.old;
          token_after = token.new;
          answer = 0;
        }) }
    {
        if !self.is_ready() {
            return 0;
        }
        if piece.len() > 1 && piece[0] == 0xD1 {
            return self.take_row(memory, piece, token);
        }
        memory.bounds();
        let mut found = None;
        let count = whole_token(&mut self.start, &mut self.kind, piece, &mut found);
        match found {
            Some(ended) => {
                put_shown(&ended, token);
                count
            }
            None => 0,
        }
    }
}
