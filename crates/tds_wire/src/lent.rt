//! The walk over an answer's tokens, in memory that is lent to it.

ghost use Rattle.std.specs.Prelude.{◌≡◌, ◌≤◌, ◌<◌, ◌-◌, IfOk, IfErr, IfSome, IsSome, None, Ok, Some, [], true, false, get_or, length, min};
ghost use Rattle.tds_wire.specs.Told.{added, told_of};
ghost use Rattle.tds_wire.specs.Memory.{shapes_of, walk_of};
ghost use Rattle.tds_wire.specs.Reading.{IsReady, behind, found_of, found_with, is_between, kept, next_token, refusal_at, restarted, token_with};
ghost use Rattle.tds_wire.specs.Lent.{head_of, reading_of};
ghost use Rattle.tds_wire.specs.declared.memory.Memory.{Memory as AnyMemory};

use crate::cursor::{Cursor, Step, may_be_whole};
use crate::due::Standing;
use crate::fault::{Refusal, WireFault};
use crate::features::Features;
use crate::head::{Head, first_of};
use crate::memory::Memory;
use crate::rows::row_token;
use crate::told::{Token, Told, added, tells, told_of};
use crate::whole::whole_token;

/// What came of a piece.
#[derive(Clone, Copy, Debug, PartialEq, Eq)]
pub struct Fed {
    /// How many bytes of the piece are done with.
    pub count: usize,
    /// The token that has ended, where one did; else all of the piece is done with.
    pub token: Option<Token>,
}

/// A walk over the tokens of an answer's messages: a plain value, beside the memory that is lent to
/// each call. It must be the same memory each time.
#[derive(Clone, Copy)]
pub struct LentWalk {
    pub cursor: Cursor,
    /// The first bytes of the token that it is in.
    pub head: Head,
    /// Where that token starts, and how many bytes of it have been passed.
    pub start: u64,
    pub passed: u64,
    pub refused: Option<Refusal>,
}

/// The last of these bytes, or 0 where there is none.
fn last_of(bytes: &[u8]) -> u8
    ensures { result ≡ get_or bytes.now (length bytes.now - 1) 0 }
{
    match bytes.get(bytes.len().saturating_sub(1)) {
        Some(byte) => *byte,
        None => 0,
    }
}

impl LentWalk {
    /// A walk before the first token of an answer, that knows no columns and has room for so many, at
    /// most 4,096. `features` is what the login acknowledged.
    pub fn new(memory: &mut Memory, most: u16, features: Features) -> LentWalk
        ensures ready { IsReady (reading_of result memory.new) }
        ensures start { result.start ≡ 0 }
        ensures columns { shapes_of memory.new ≡ [] }
        ensures most { result.cursor.most ≡ most }
        ensures features { result.cursor.features ≡ features }
    {
        memory.clear();
        memory.bounds();
        LentWalk {
            cursor: Cursor::new(most, features),
            head: Head::new(),
            start: 0,
            passed: 0,
            refused: None,
        }
    }

    /// Takes bytes of an answer's data up to the end of one token: at least one byte, where the piece
    /// isn't empty. It takes no memory.
    ///
    /// # Errors
    ///
    /// At the first byte that no answer has there, what is wrong. Each later call answers it again.
    #[inline(always)]
    pub fn feed(&mut self, memory: &mut Memory, piece: &[u8]) -> Result<Fed, Refusal>
        ensures within { IfOk result (λ fed. fed.count ≤ length piece.now) }
        ensures all { IfOk result (λ fed. fed.token ≡ None → fed.count ≡ length piece.now) }
        ensures moves { IfOk result (λ fed. 0 < length piece.now → 0 < fed.count) }
        ensures exact { found_of result (reading_of self.new memory.new) piece.now
            ≡ next_token (reading_of self.old memory.old) piece.now }
        ensures ready { IfOk result (λ fed. IfSome fed.token
            (λ _. IsReady (reading_of self.new memory.new))) }
        // Behind a token the next one starts.
        ensures start { IfOk result (λ fed. IfSome fed.token
            (λ token. self.new.start ≡ added token.start token.length)) }
        // It has room for as many columns as before, and knows what the login acknowledged.
        ensures most { IfOk result (λ _.
            min 4096 self.new.cursor.most ≡ min 4096 self.old.cursor.most) }
        ensures features { IfOk result (λ _.
            self.new.cursor.features ≡ self.old.cursor.features) }
        ensures refused { IfErr result (λ refusal. self.new.refused ≡ Some refusal) }
    {
        let mut token = None;
        match self.feed_to(memory, piece, &mut token) {
            Ok(count) => Ok(Fed { count, token }),
            Err(refusal) => Err(refusal),
        }
    }

    /// The same, with the token left in `token`: it is large, and so is written once. Where the answer is
    /// a refusal, `token` stays.
    #[inline(always)]
    pub fn feed_to(
        &mut self,
        memory: &mut Memory,
        piece: &[u8],
        token: &mut Option<Token>,
    ) -> Result<usize, Refusal>
        ensures within { IfOk result (λ count. count ≤ length piece.now) }
        ensures all { IfOk result (λ count. token.new ≡ None → count ≡ length piece.now) }
        ensures moves { IfOk result (λ count. 0 < length piece.now → 0 < count) }
        ensures exact { found_with result token.new (reading_of self.new memory.new) piece.now
            ≡ next_token (reading_of self.old memory.old) piece.now }
        ensures ready { IfOk result (λ _. IfSome token.new
            (λ _. IsReady (reading_of self.new memory.new))) }
        ensures start { IfOk result (λ _. IfSome token.new
            (λ token. self.new.start ≡ added token.start token.length)) }
        ensures most { IfOk result (λ _.
            min 4096 self.new.cursor.most ≡ min 4096 self.old.cursor.most) }
        ensures features { IfOk result (λ _.
            self.new.cursor.features ≡ self.old.cursor.features) }
        ensures refused { IfErr result (λ refusal. self.new.refused ≡ Some refusal) }
        ensures stays { IfErr result (λ _. token.new ≡ token.old) }
    {
        if let Some(refusal) = self.refused {
            return Err(refusal);
        }
        // Most of an answer is rows: one that stands whole is passed by its values' lengths.
        let start = self.start;
        let count = self.pass_row_here(memory, piece);
        if count > 0 {
            *token = Some(row_token(start, count));
            return Ok(count);
        }
        match self.cursor.feed(memory, piece) {
            Step::Over(count) => {
                *token = Some(self.end_token(&piece[..count]));
                Ok(count)
            }
            Step::Within => {
                self.head.keep(piece);
                self.passed = added(self.passed, piece.len() as u64);
                *token = None;
                Ok(piece.len())
            }
            Step::Failed(fault, count) => Err(self.refuse(fault, &piece[..count])),
        }
    }

    /// Takes the token that bytes begin with, where it is whole, says in its first bytes how long it is, and
    /// is no row: how many bytes it has. It is left in `token`. Else nothing is done, and the answer is 0,
    /// as it is inside a token. Behind it go on with `feed_to`. It takes no memory.
    #[inline(always)]
    pub fn take_whole(&mut self, memory: &Memory, piece: &[u8], token: &mut Option<Token>) -> usize
        ensures within { result ≤ length piece.now }
        ensures same { result ≡ 0 → self.new ≡ self.old }
        ensures stays { result ≡ 0 → token.new ≡ token.old }
        ensures some { 0 < result → IsSome token.new }
        ensures ready { 0 < result → IsReady (reading_of self.new memory.now) }
        ensures exact { 0 < result
            → found_with (Ok result) token.new (reading_of self.new memory.now) piece.now
            ≡ next_token (reading_of self.old memory.now) piece.now }
        ensures start { 0 < result → IfSome token.new
            (λ token. self.new.start ≡ added token.start token.length) }
        ensures most { self.new.cursor.most ≡ self.old.cursor.most }
        ensures features { self.new.cursor.features ≡ self.old.cursor.features }
    {
        if may_be_whole(piece) && self.is_between(memory) {
            whole_token(&mut self.start, &mut self.cursor.at.kind, piece, token)
        } else {
            0
        }
    }

    /// A token has ended with these bytes.
    #[inline(always)]
    fn end_token(&mut self, bytes: &[u8]) -> Token
        ensures token { (m : AnyMemory) → result
            ≡ token_with (reading_of self.old m) self.old.cursor.at.kind bytes.now }
        ensures state { (m : AnyMemory) → reading_of self.new m
            ≡ behind (reading_of self.old m) (walk_of self.old.cursor m) bytes.now }
    {
        let length = added(self.passed, bytes.len() as u64);
        let kind = self.cursor.at.kind;
        let token = Token {
            kind,
            start: self.start,
            length,
            told: self.tell(kind, length, bytes),
        };
        self.head.clear();
        self.start = added(self.start, length);
        self.passed = 0;
        self.refused = None;
        token
    }

    /// What a token of this kind and length says, of which these are the last bytes. Rows and all others
    /// that say nothing are most of an answer, so their first bytes aren't put together for it.
    #[inline(always)]
    fn tell(&mut self, kind: u8, length: u64, bytes: &[u8]) -> Told
        ensures told { result
            ≡ told_of kind self.old.start length (kept (head_of self.old.head) bytes.now) }
        ensures state { (record self.new { head = self.old.head }) ≡ self.old }
    {
        if !tells(kind) {
            return Told::Other;
        }
        if self.head.is_empty() {
            return told_of(kind, self.start, length, first_of(bytes));
        }
        self.head.keep(bytes);
        told_of(kind, self.start, length, self.head.bytes())
    }

    /// Refuses the last of these bytes.
    #[inline(never)]
    fn refuse(&mut self, fault: WireFault, bytes: &[u8]) -> Refusal
        ensures refusal { (m : AnyMemory)
            → result ≡ refusal_at (reading_of self.old m) fault bytes.now }
        ensures state { self.new ≡ record self.old { refused = Some result } }
    {
        let passed = added(self.passed, bytes.len() as u64);
        let refusal = Refusal {
            fault,
            byte: last_of(bytes),
            at: added(self.start, passed.saturating_sub(1)),
        };
        self.refused = Some(refusal);
        refusal
    }

    /// Whether it is between two tokens, so that a message may end here.
    #[inline(always)]
    pub fn is_between(&self, memory: &Memory) -> bool
        ensures between { result ≡ is_between (reading_of self.now memory.now) }
        ensures ready { result ≡ true → IsReady (reading_of self.now memory.now) }
    {
        let whole = match self.refused {
            None => true,
            Some(_) => false,
        };
        let between = match self.cursor.standing(memory) {
            Standing::Between => true,
            Standing::Going => false,
            Standing::Failing(_) => false,
        };
        whole && between && self.head.is_empty() && self.passed == 0
    }

    /// Begins anew, before the first token of a message, with no columns, whatever was before.
    pub fn restart(&mut self, memory: &mut Memory)
        ensures state { reading_of self.new memory.new
            ≡ restarted (reading_of self.old memory.old) }
        ensures ready { IsReady (reading_of self.new memory.new) }
    {
        self.cursor.restart(memory);
        self.head.clear();
        self.start = 0;
        self.passed = 0;
        self.refused = None;
    }
}
