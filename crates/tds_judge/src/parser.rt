//! The walk over an answer's tokens, in memory of its own. Of bytes that are refused it tells how many.

ghost use Rattle.std.specs.Prelude.{◌≡◌, ◌≤◌, ◌<◌, ◌+◌, None, true, IfOk, length};
ghost use Rattle.tds_wire.specs.Reading.{IsReady, found_of, is_between, next_token, restarted};
ghost use Rattle.tds_wire.specs.Rows.{IsPassed};
ghost use Rattle.tds_judge.specs.Runs.{IsWent};

use crate::NoMemory;
use std::alloc::Global;
use std::marker::Model;
use tds_wire::{Features, Fed, LentWalk, Memory, Refusal, Token};

/// Walks over the tokens of an answer's messages (MS-TDS 2.2.7).
#[derive(Drop)]
pub struct TokenParser {
    walk: LentWalk,
    memory: Box<Memory>,
}

impl Model for TokenParser {
    ghost use Rattle.tds_wire.specs.Reading.{Parser};
    ghost use Rattle.tds_judge.specs.TokenParser.{parser_reading};

    ghost Value = { Parser };

    ghost view = { parser_reading };
}

/// What a run of an answer's bytes comes to.
#[derive(Clone, Copy)]
pub enum Went {
    /// All of it is inside a token.
    Inside,
    /// So many bytes of it lead up to the end of this token.
    Ends(usize, Token),
    /// The last of so many bytes of it is refused.
    Fails(usize, Refusal),
}

/// Places up to here are counted.
const COUNTED: u64 = 4_611_686_018_427_387_904;

impl TokenParser {
    /// A parser before the first token of an answer, that knows no columns and has room for so many.
    ///
    /// # Errors
    ///
    /// Where a growth was refused.
    pub fn new(alloc: Global, most: u16, features: Features) -> Result<TokenParser, NoMemory>
        requires { most ≤ 4096 }
        ensures ready { IfOk result (λ parser. IsReady parser) }
    {
        let mut memory = Box::new(alloc, Memory::new())?;
        let walk = LentWalk::new(&mut memory, most, features);
        Ok(TokenParser { walk, memory })
    }

    /// Whether a run of bytes can be walked at once: nothing was refused, and the place is counted.
    pub fn takes_runs(&self) -> bool
        ensures whole { result ≡ true → self.now.refused ≡ None }
        ensures counted { result ≡ true
            → self.now.start + self.now.passed ≤ 9223372036854775808 }
    {
        match self.walk.refused {
            Some(_) => false,
            None => self.walk.start <= COUNTED && self.walk.passed <= COUNTED,
        }
    }

    /// Takes bytes of an answer's data up to the end of one token. It takes no memory.
    ///
    /// # Errors
    ///
    /// At the first byte that no answer has there, what is wrong. Each later call answers it again.
    #[inline(always)]
    pub fn feed(&mut self, piece: &[u8]) -> Result<Fed, Refusal>
        ensures within { IfOk result (λ fed. fed.count ≤ length piece.now) }
        ensures all { IfOk result (λ fed. fed.token ≡ None → fed.count ≡ length piece.now) }
        ensures moves { IfOk result (λ fed. 0 < length piece.now → 0 < fed.count) }
        ensures exact { found_of result self.new piece.now ≡ next_token self.old piece.now }
    {
        self.walk.feed(&mut self.memory, piece)
    }

    /// Walks over bytes, up to the end of one token.
    #[inline(always)]
    pub fn walk(&mut self, piece: &[u8]) -> Went
        requires some { 0 < length piece.now }
        requires few { length piece.now ≤ 65535 }
        requires whole { self.old.refused ≡ None }
        requires counted { self.old.start + self.old.passed ≤ 9223372036854775808 }
        ensures { IsWent result self.old self.new piece.now }
    {
        let before = self.walk.start.saturating_add(self.walk.passed);
        match self.feed(piece) {
            Ok(fed) => match fed.token {
                Some(token) => Went::Ends(fed.count, token),
                None => Went::Inside,
            },
            Err(refusal) => {
                let count = refusal.at.saturating_add(1).saturating_sub(before).max(1);
                Went::Fails((count as usize).min(piece.len()), refusal)
            }
        }
    }

    /// Passes the row that bytes begin with, where it is whole: how many bytes it has. Else nothing is done,
    /// and the answer is 0.
    #[inline(always)]
    pub(crate) fn pass_row(&mut self, piece: &[u8]) -> usize
        requires { IsReady self.old }
        ensures within { result ≤ length piece.now }
        ensures same { result ≡ 0 → self.new ≡ self.old }
        ensures ready { IsReady self.new }
        ensures row { 0 < result → IsPassed result self.old self.new piece.now }
    {
        self.walk.pass_row(&self.memory, piece)
    }

    /// Whether it is between two tokens, so that a message may end here.
    pub fn is_between(&self) -> bool
        ensures between { result ≡ is_between self.now }
        ensures ready { result ≡ true → IsReady self.now }
    {
        self.walk.is_between(&self.memory)
    }

    /// Begins anew, before the first token of a message, with no columns, whatever was before.
    pub fn restart(&mut self)
        ensures state { self.new ≡ restarted self.old }
        ensures ready { IsReady self.new }
    {
        self.walk.restart(&mut self.memory);
    }
}
