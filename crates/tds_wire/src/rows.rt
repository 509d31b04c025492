//! How long a row is (MS-TDS 2.2.7.19), where all of it stands in a run of bytes: the columns' shapes tell it,
//! and of the bytes only the values' counts are read.

ghost use Rattle.std.specs.Prelude.{◌≡◌, ◌≤◌, ◌<◌, ◌-◌, false, drop, length};
ghost use Rattle.tds_wire.specs.Bytes.{Over, onward};
ghost use Rattle.tds_wire.specs.Lent.{reading_of};
ghost use Rattle.tds_wire.specs.Memory.{shape_of, shapes_of};
ghost use Rattle.tds_wire.specs.Reading.{IsReady, Parser};
ghost use Rattle.tds_wire.specs.Rows.{IsPassed, Passes, behind_row, past_row, row_token};
ghost use Rattle.tds_wire.specs.Told.{added};
ghost use Rattle.tds_wire.specs.Walking.{Walk, has_no_bytes};
ghost use Rattle.tds_wire.specs.declared.due.Due.TheVariants as dues;
ghost use Rattle.tds_wire.specs.declared.shape.Shape.TheVariants as shapes;

use crate::due::Inside;
use crate::lent::LentWalk;
use crate::memory::{Column, Memory};
use crate::told::{Token, Told, added};

/// The first byte of a ROW.
const ROW: u8 = 0xD1;

/// A value behind a count in one byte: how many bytes both have, or 0 where they aren't there.
#[inline(always)]
fn byte_length(bytes: &[u8]) -> usize
    ensures within { result ≤ length bytes.now }
    ensures value { 0 < result → Passes shapes.Byte result bytes.now }
{
    if bytes.is_empty() {
        return 0;
    }
    let length = 1 + usize::from(bytes[0]);
    if length <= bytes.len() { length } else { 0 }
}

/// The same behind a count in two bytes.
#[inline(always)]
fn short_length(bytes: &[u8]) -> usize
    ensures within { result ≤ length bytes.now }
    ensures value { 0 < result → Passes shapes.Short result bytes.now }
{
    if bytes.len() < 2 {
        return 0;
    }
    let count = usize::from(bytes[0]) + 256 * usize::from(bytes[1]);
    if count == 65_535 {
        return 2;
    }
    if count + 2 <= bytes.len() {
        count + 2
    } else {
        0
    }
}

/// A value of so many bytes: how many, or 0 where they aren't there.
#[inline(always)]
fn fixed_length(count: u8, bytes: &[u8]) -> usize
    ensures within { result ≤ length bytes.now }
    ensures value { 0 < result → Passes (shapes.Fixed count) result bytes.now }
    ensures some { 0 < result → has_no_bytes (shapes.Fixed count) ≡ false }
{
    let length = usize::from(count);
    if length <= bytes.len() { length } else { 0 }
}

/// How many bytes the value of a column has that bytes begin with, its count among them; 0 where it isn't
/// whole, or is of a type with longer counts.
#[inline(always)]
#[tactic(auto, unfolding(crate::specs::Memory::shape_of))]
fn value_length(column: Column, bytes: &[u8]) -> usize
    ensures within { result ≤ length bytes.now }
    ensures value { 0 < result → Passes (shape_of column) result bytes.now }
    ensures some { 0 < result → has_no_bytes (shape_of column) ≡ false }
{
    match column.form {
        0 => fixed_length(column.bytes, bytes),
        2 => short_length(bytes),
        3 => 0,
        4 => 0,
        5 => 0,
        _ => byte_length(bytes),
    }
}

/// How many bytes the row has that bytes begin with; 0 where none begins, where it isn't whole, or has a
/// value with a longer count.
#[inline(always)]
fn row_length(memory: &Memory, bytes: &[u8]) -> usize
    ensures within { result ≤ length bytes.now }
    ensures row { (w : Walk) → w.columns ≡ shapes_of memory.now → w.at.due ≡ dues.Token → 0 < result
        → onward w bytes.now ≡ Over (behind_row w) (drop result bytes.now) }
    ensures some { 0 < result → 0 < length (shapes_of memory.now) }
{
    let count = memory.count();
    if count == 0 || bytes.is_empty() || bytes[0] != ROW {
        return 0;
    }
    let mut done = 1usize;
    let mut column = 0u16;
    'columns: while column < count {
        let length = value_length(memory.columns[usize::from(column)], &bytes[done..]);
        if length == 0 {
            return 0;
        }
        done += length;
        column += 1;
    }
    done
}

/// Whether a row may stand here whole. It has two bytes at least, so bytes one by one cost nothing more.
#[inline(always)]
fn may_be_row(bytes: &[u8]) -> bool {
    bytes.len() > 1 && bytes[0] == ROW
}

/// The row that bytes begin with, where it is whole: how many bytes it has. Else the answer is 0, as it is
/// for a row with a value behind a longer count than of two bytes, and for one with a null bitmap. Of a walk
/// between two tokens that knows these columns it needs nothing.
#[inline(always)]
pub fn whole_row(memory: &Memory, piece: &[u8]) -> usize
    ensures within { result ≤ length piece.now }
    ensures row { 0 < result → (r : Parser) → IsReady r → r.walk.columns ≡ shapes_of memory.now
        → IsPassed result r (past_row r result) piece.now }
    ensures some { 0 < result → 0 < length (shapes_of memory.now) }
{
    row_length(memory, piece)
}

/// A row of so many bytes.
#[inline(always)]
pub fn row_token(start: u64, count: usize) -> Token
    ensures { (r : Parser) → r.start ≡ start → result ≡ row_token count r }
{
    Token {
        kind: ROW,
        start,
        length: count as u64,
        told: Told::Other,
    }
}

impl LentWalk {
    /// Passes the row that bytes begin with, where it is whole: how many bytes it has. Else nothing is
    /// done, and the answer is 0. A row with a value behind a longer count than of two bytes is left to
    /// `feed`, as is one with a null bitmap. It takes no memory.
    #[inline(always)]
    pub fn pass_row(&mut self, memory: &Memory, piece: &[u8]) -> usize
        requires { IsReady (reading_of self.old memory.now) }
        ensures within { result ≤ length piece.now }
        ensures same { result ≡ 0 → self.new ≡ self.old }
        ensures ready { IsReady (reading_of self.new memory.now) }
        ensures row { 0 < result → IsPassed result (reading_of self.old memory.now)
            (reading_of self.new memory.now) piece.now }
        // Behind it the next token starts, and all else stays.
        ensures start { 0 < result → self.new.start ≡ added self.old.start result }
        ensures most { self.new.cursor.most ≡ self.old.cursor.most }
        ensures features { self.new.cursor.features ≡ self.old.cursor.features }
    {
        let length = whole_row(memory, piece);
        if length == 0 {
            return 0;
        }
        self.cursor.at.kind = ROW;
        self.cursor.at.inside = Inside::Row(memory.count() - 1);
        self.start = added(self.start, length as u64);
        length
    }

    /// The same wherever the walk is: 0 too where it isn't between two tokens.
    #[inline(always)]
    pub(crate) fn pass_row_here(&mut self, memory: &Memory, piece: &[u8]) -> usize
        ensures within { result ≤ length piece.now }
        ensures same { result ≡ 0 → self.new ≡ self.old }
        ensures ready { 0 < result → IsReady (reading_of self.new memory.now) }
        ensures row { 0 < result → IsPassed result (reading_of self.old memory.now)
            (reading_of self.new memory.now) piece.now }
        ensures start { 0 < result → self.new.start ≡ added self.old.start result }
        ensures most { self.new.cursor.most ≡ self.old.cursor.most }
        ensures features { self.new.cursor.features ≡ self.old.cursor.features }
    {
        if may_be_row(piece) && self.is_between(memory) {
            self.pass_row(memory, piece)
        } else {
            0
        }
    }
}
