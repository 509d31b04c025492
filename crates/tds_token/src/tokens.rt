ghost use Rattle.std.specs.Prelude.{◌≡◌, ◌<◌, ◌≤◌, ◌++◌, [], List, ℕ, Option, Some, None, Result, Ok, Err, length};
ghost use Rattle.tds_token.specs.declared.fault.TokenFault.{TokenFault};
ghost use Rattle.tds_token.specs.declared.token.Token.{Token};
ghost use Rattle.tds_token.specs.declared.token.TokenRef.{TokenRef};
ghost use Rattle.tds_token.specs.Contents.{contents_before, contents_of};
ghost use Rattle.tds_token.specs.Cursor.{answer_of, step};
ghost use Rattle.tds_token.specs.Layout.{IsToken, token_of};
ghost use Rattle.tds_token.specs.Reading.{wrong_token};
ghost use Rattle.tds_token.specs.Runs.{GivesInTurn, NoRow, row_tokens, with_tokens};
ghost use Rattle.tds_token.specs.Texts.{AreColumns, IsBytes};

use crate::columns::Columns;
use crate::fault::TokenFault;
use crate::reading::{token, whole_row};
use crate::rows::Rows;
use crate::token::TokenRef;
use std::marker::Model;

/// Reads the tokens of a packet's data, one behind the other. A reader takes no memory: what it
/// answers is lent from the data.
#[derive(Debug, Drop)]
pub struct Tokens<'a> {
    /// What is left. Behind a fault that is nothing.
    bytes: &'a [u8],
    columns: Columns,
}

impl<'a> Model for Tokens<'a> {
    ghost use Rattle.tds_token.specs.Cursor.{Cursor};

    ghost Value = { Cursor };

    ghost use Rattle.tds_token.specs.Texts.{AreColumns, IsBytes};

    ghost view = { λ a. record { bytes = a.bytes.now; columns = a.columns } };

    ghost invariant = { λ a. AreColumns a.columns × IsBytes a.bytes.now };
}

impl<'a> Tokens<'a> {
    /// The tokens of these data, where these columns are known: none for the first packet of a
    /// message, and then what `columns` answered at the end of the packet before.
    pub fn new(bytes: &'a [u8], columns: Columns) -> Tokens<'a>
        ensures { result ≡ record { bytes = bytes.now; columns = columns } }
    {
        Tokens { bytes, columns }
    }

    /// The columns that are known behind what was read.
    pub fn columns(&self) -> Columns
        ensures { result ≡ self.now.columns }
    {
        self.columns
    }

    /// The data that are left.
    pub fn left(&self) -> &'a [u8]
        ensures { result.now ≡ self.now.bytes }
    {
        self.bytes
    }

    /// The next token, or the fault where none is spelled. None at the end of the data, and behind
    /// a fault.
    #[inline(always)]
    pub fn next(&mut self) -> Option<Result<TokenRef<'a>, TokenFault>>
        // What is read is spelled by the front that is gone.
        ensures found { (t : TokenRef) → result ≡ Some (Ok t)
            → (front : List ℕ) × IsToken self.old.columns (token_of t) front self.new.columns
            × (self.old.bytes ≡ front ++ self.new.bytes) }
        // What a front spells is read, whatever follows it.
        ensures only { (token : Token) (front rest : List ℕ) (after : Option ℕ)
            → IsToken self.old.columns token front after → self.old.bytes ≡ front ++ rest
            → (answer_of result ≡ Some (Ok token))
            × (self.new ≡ record { bytes = rest; columns = after }) }
        // The fault is the first field that is wrong or cut. Nothing is left behind it.
        ensures wrong { (fault : TokenFault) → result ≡ Some (Err fault)
            → (wrong_token self.old.columns self.old.bytes ≡ Some fault)
            × (self.new ≡ record { bytes = []; columns = self.old.columns }) }
        ensures end { self.old.bytes ≡ [] → (result ≡ None) × (self.new ≡ self.old) }
        ensures none { result ≡ None → (self.old.bytes ≡ []) × (self.new ≡ self.old) }
        // A token has a byte at least, so a loop ends.
        ensures shorter { (answer : Result TokenRef TokenFault) → result ≡ Some answer
            → length self.new.bytes < length self.old.bytes }
        // So a loop reads the contents of the data, token by token.
        ensures contents { contents_of self.old.columns self.old.bytes
            ≡ contents_before (answer_of result) (contents_of self.new.columns self.new.bytes) }
        ensures exact { (answer_of result, self.new) ≡ step self.old }
    {
        self.advance()
    }

    /// All the rows at the front, as one slice that is lent. None of them where no row is at the
    /// front. A reader that takes them takes no step for each.
    pub fn rows(&mut self) -> Rows<'a>
        // These are the tokens that `next` gives one after the other, and it goes on behind them.
        ensures in_turn { GivesInTurn self.old (row_tokens result) self.new }
        // So the contents are these rows, and what is left.
        ensures contents { contents_of self.old.columns self.old.bytes
            ≡ with_tokens (row_tokens result) (contents_of self.new.columns self.new.bytes) }
        // They are all: what is left doesn't begin with a row.
        ensures all { NoRow self.new.columns self.new.bytes }
        ensures columns { self.new.columns ≡ self.old.columns }
        ensures shorter { length self.new.bytes ≤ length self.old.bytes }
    {
        let Some(count) = self.columns.count() else {
            return Rows::none();
        };
        let (rows, rest) = Rows::at_front(count, self.bytes);
        self.bytes = rest;
        rows
    }

    #[tactic(auto, unfolding(crate::specs::Cursor::step))]
    #[inline(always)]
    fn advance(&mut self) -> Option<Result<TokenRef<'a>, TokenFault>>
        ensures exact { (answer_of result, self.new) ≡ step self.old }
        ensures known { AreColumns self.old.columns }
        ensures bytes { IsBytes self.old.bytes }
    {
        if self.bytes.is_empty() {
            return None;
        }
        if let Some((row, rest)) = whole_row(self.columns, self.bytes) {
            self.bytes = rest;
            return Some(Ok(TokenRef::Row(row)));
        }
        match token(self.columns, self.bytes) {
            Ok((token, rest)) => {
                self.columns = self.columns.after(&token);
                self.bytes = rest;
                Some(Ok(token))
            }
            Err(fault) => {
                self.bytes = &[];
                Some(Err(fault))
            }
        }
    }
}
