//! The walk over an answer's tokens, in memory of its own.

ghost use Rattle.std.specs.Prelude.{◌≡◌, ◌≤◌, ◌<◌, IfOk, IfErr, IfSome, IsSome, None, Ok, Some, [], true, length};
ghost use Rattle.tds_wire.specs.Told.{added};
ghost use Rattle.tds_wire.specs.Reading.{IsReady, found_of, found_with, is_between, next_token, restarted};
ghost use Rattle.tds_wire.specs.Rows.{IsPassed};

use crate::NoMemory;
use crate::fault::Refusal;
use crate::features::Features;
use crate::lent::{Fed, LentWalk};
use crate::memory::Memory;
use crate::told::Token;
use std::alloc::Global;
use std::marker::Model;

/// Walks over the tokens of an answer's messages. It keeps no value.
#[derive(Drop)]
pub struct TokenParser {
    walk: LentWalk,
    memory: Box<Memory>,
}

impl Model for TokenParser {
    ghost use Rattle.tds_wire.specs.Reading.{Parser};
    ghost use Rattle.tds_wire.specs.Owned.{owned_reading};

    ghost Value = { Parser };

    ghost view = { owned_reading };
}

impl TokenParser {
    /// A parser before the first token of an answer, that knows no columns and has room for so many.
    /// `features` is what the login acknowledged.
    ///
    /// # Errors
    ///
    /// Where a growth was refused.
    pub fn new(alloc: Global, most: u16, features: Features) -> Result<TokenParser, NoMemory>
        requires { most ≤ 4096 }
        ensures ready { IfOk result (λ parser. IsReady parser) }
        ensures start { IfOk result (λ parser. parser.start ≡ 0) }
        ensures columns { IfOk result (λ parser. parser.walk.columns ≡ []) }
        ensures most { IfOk result (λ parser. parser.walk.most ≡ most) }
        ensures features { IfOk result (λ parser. parser.walk.features ≡ features) }
    {
        let mut memory = Box::new(alloc, Memory::new())?;
        let walk = LentWalk::new(&mut memory, most, features);
        Ok(TokenParser { walk, memory })
    }

    /// Takes bytes of an answer's data up to the end of one token: at least one byte, where the piece
    /// isn't empty. It takes no memory.
    ///
    /// # Errors
    ///
    /// At the first byte that no answer has there, what is wrong. Each later call answers it again.
    #[inline(always)]
    pub fn feed(&mut self, piece: &[u8]) -> Result<Fed, Refusal>
        ensures within { IfOk result (λ fed. fed.count ≤ length piece.now) }
        ensures all { IfOk result (λ fed. fed.token ≡ None → fed.count ≡ length piece.now) }
        ensures moves { IfOk result (λ fed. 0 < length piece.now → 0 < fed.count) }
        ensures exact { found_of result self.new piece.now ≡ next_token self.old piece.now }
        ensures ready { IfOk result (λ fed. IfSome fed.token (λ _. IsReady self.new)) }
        // Behind a token the next one starts.
        ensures start { IfOk result (λ fed. IfSome fed.token
            (λ token. self.new.start ≡ added token.start token.length)) }
        // It has room for as many columns as before, and knows what the login acknowledged.
        ensures most { IfOk result (λ _. self.new.walk.most ≡ self.old.walk.most) }
        ensures features { IfOk result (λ _. self.new.walk.features ≡ self.old.walk.features) }
        ensures refused { IfErr result (λ refusal. self.new.refused ≡ Some refusal) }
    {
        self.walk.feed(&mut self.memory, piece)
    }

    /// The same, with the token left in `token`: it is large, and so is written once. Where the answer is
    /// a refusal, `token` stays.
    #[inline(always)]
    pub fn feed_to(&mut self, piece: &[u8], token: &mut Option<Token>) -> Result<usize, Refusal>
        ensures within { IfOk result (λ count. count ≤ length piece.now) }
        ensures all { IfOk result (λ count. token.new ≡ None → count ≡ length piece.now) }
        ensures moves { IfOk result (λ count. 0 < length piece.now → 0 < count) }
        ensures exact { found_with result token.new self.new piece.now
            ≡ next_token self.old piece.now }
        ensures ready { IfOk result (λ _. IfSome token.new (λ _. IsReady self.new)) }
        ensures start { IfOk result (λ _. IfSome token.new
            (λ token. self.new.start ≡ added token.start token.length)) }
        ensures most { IfOk result (λ _. self.new.walk.most ≡ self.old.walk.most) }
        ensures features { IfOk result (λ _. self.new.walk.features ≡ self.old.walk.features) }
        ensures refused { IfErr result (λ refusal. self.new.refused ≡ Some refusal) }
        ensures stays { IfErr result (λ _. token.new ≡ token.old) }
    {
        self.walk.feed_to(&mut self.memory, piece, token)
    }

    /// Takes the token that bytes begin with, where it is whole, says in its first bytes how long it is, and
    /// is no row: how many bytes it has. It is left in `token`. Else nothing is done, and the answer is 0,
    /// as it is inside a token. Behind it go on with `feed_to`. It takes no memory.
    #[inline(always)]
    pub fn take_whole(&mut self, piece: &[u8], token: &mut Option<Token>) -> usize
        ensures within { result ≤ length piece.now }
        ensures same { result ≡ 0 → self.new ≡ self.old }
        ensures stays { result ≡ 0 → token.new ≡ token.old }
        ensures some { 0 < result → IsSome token.new }
        ensures ready { 0 < result → IsReady self.new }
        ensures exact { 0 < result → found_with (Ok result) token.new self.new piece.now
            ≡ next_token self.old piece.now }
        ensures start { 0 < result → IfSome token.new
            (λ token. self.new.start ≡ added token.start token.length) }
        ensures most { self.new.walk.most ≡ self.old.walk.most }
        ensures features { self.new.walk.features ≡ self.old.walk.features }
    {
        self.walk.take_whole(&self.memory, piece, token)
    }

    /// Passes the row that bytes begin with, where it is whole: how many bytes it has. Else nothing is
    /// done, and the answer is 0. A row with a value behind a longer count than of two bytes is left to
    /// `feed`, as is one with a null bitmap. It takes no memory.
    #[inline(always)]
    pub fn pass_row(&mut self, piece: &[u8]) -> usize
        requires { IsReady self.old }
        ensures within { result ≤ length piece.now }
        ensures same { result ≡ 0 → self.new ≡ self.old }
        ensures ready { IsReady self.new }
        ensures row { 0 < result → IsPassed result self.old self.new piece.now }
        // Behind it the next token starts, and all else stays.
        ensures start { 0 < result → self.new.start ≡ added self.old.start result }
        ensures most { self.new.walk.most ≡ self.old.walk.most }
        ensures features { self.new.walk.features ≡ self.old.walk.features }
    {
        self.walk.pass_row(&self.memory, piece)
    }

    /// Whether it is between two tokens, so that a message may end here.
    pub fn is_between(&self) -> bool
        ensures between { result ≡ is_between self.now }
        ensures ready { result ≡ true → IsReady self.now }
    {
        self.walk.is_between(&self.memory)
    }

    /// Begins anew, before the first token of a message, with no columns, whatever was before.
    pub fn restart(&mut self)
        ensures state { self.new ≡ restarted self.old }
        ensures ready { IsReady self.new }
    {
        self.walk.restart(&mut self.memory);
    }
}
