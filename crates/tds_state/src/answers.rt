//! The walk over a server's answers, as far as a watch needs it: of rows, and of columns that were described just so
//! before, nothing is told.

ghost use Rattle.std.specs.Prelude.{◌≡◌, ◌≤◌, length, true};
ghost use Rattle.tds_state.specs.Watching.{answers_reading};
ghost use Rattle.tds_wire.specs.Reading.{IsReady, is_between};

use crate::NoMemory;
use crate::kept::{Kept, first_of};
use std::alloc::Global;
use tds_wire::{Features, LentWalk, Memory, Token};

/// The first bytes of a COLMETADATA and of a ROW (MS-TDS 2.2.7.4, 2.2.7.19).
const COLUMNS: u8 = 0x81;

const ROW: u8 = 0xd1;

/// For how many columns there is room, and of how many bytes of their description.
const MOST: u16 = 4_096;

const DESCRIPTION: usize = 1_024;

/// A walk over the tokens of answers.
#[derive(Drop)]
pub(crate) struct Answers {
    pub(crate) walk: LentWalk,
    pub(crate) memory: Box<Memory>,
    /// The COLMETADATA that was walked over last, or none, and how many columns it has: the memory has their shapes
    /// until another one comes, though an answer's end forgets how many.
    described: Kept,
    columns: u16,
}

/// Whether a DONE, an ENVCHANGE or a RETURNSTATUS begins here: they say in their first bytes how long they are.
fn says_its_length(bytes: &[u8]) -> bool {
    matches!(bytes, [0xfd..=0xff | 0xe3 | 0x79, ..])
}

impl Answers {
    /// Before the first one.
    pub(crate) fn new(alloc: Global, features: Features) -> Result<Answers, NoMemory> {
        let mut memory = Box::new(alloc, Memory::new())?;
        let walk = LentWalk::new(&mut memory, MOST, features);
        Ok(Answers {
            walk,
            memory,
            described: Kept::new(alloc, DESCRIPTION)?,
            columns: 0,
        })
    }

    /// Whether a message may end here.
    pub(crate) fn is_between(&self) -> bool
        ensures between { result ≡ is_between (answers_reading self.now) }
        ensures ready { result ≡ true → IsReady (answers_reading self.now) }
    {
        self.walk.is_between(&self.memory)
    }

    /// A message has ended.
    pub(crate) fn restart(&mut self) {
        self.walk.restart(&mut self.memory);
    }

    /// Passes the whole rows that bytes begin with, or columns that were described just so before: how many bytes.
    pub(crate) fn pass(&mut self, bytes: &[u8]) -> usize
        ensures { result ≤ length bytes.now }
    {
        match bytes {
            [ROW, ..] => self.pass_rows(bytes),
            [COLUMNS, ..] => self.pass_columns(bytes),
            _ => 0,
        }
    }

    fn pass_rows(&mut self, bytes: &[u8]) -> usize
        ensures { result ≤ length bytes.now }
    {
        if !self.is_between() {
            return 0;
        }
        let mut done = 0;
        'rows: while done < bytes.len() {
            let count = self.walk.pass_row(&self.memory, &bytes[done..]);
            if count == 0 {
                return done;
            }
            done += count;
        }
        done
    }

    fn pass_columns(&mut self, bytes: &[u8]) -> usize
        ensures { result ≤ length bytes.now }
    {
        let described = self.described.bytes();
        let count = described.len();
        if count == 0 || count > bytes.len() || !self.is_between() {
            return 0;
        }
        if first_of(count, bytes) != described {
            return 0;
        }
        self.memory.count = self.columns;
        self.walk.cursor.at.kind = COLUMNS;
        self.walk.start = self.walk.start.saturating_add(count as u64);
        count
    }

    /// Walks to the end of one token, or of these bytes: how many. None where no answer has these.
    pub(crate) fn next(&mut self, bytes: &[u8], token: &mut Option<Token>) -> Option<usize> {
        if says_its_length(bytes) {
            let count = self.walk.take_whole(&self.memory, bytes, token);
            if count > 0 {
                return Some(count);
            }
        }
        let describes = matches!(bytes, [COLUMNS, ..]) && self.is_between();
        match self.walk.feed_to(&mut self.memory, bytes, token) {
            Ok(count) => {
                if describes {
                    self.describe(first_of(count, bytes), token.is_some());
                }
                Some(count)
            }
            Err(_) => None,
        }
    }

    /// Columns were described by these bytes, or are still: others than before.
    fn describe(&mut self, bytes: &[u8], is_whole: bool) {
        self.described.clear();
        if is_whole && self.described.has_room(bytes.len()) {
            self.described.keep(bytes);
            self.columns = self.memory.count();
        }
    }
}
