//! Rows, and the values in them.
ghost use Rattle.tds_wire.specs.Memory.{shapes_of, walk_of};
ghost use Rattle.std.specs.Prelude.{◌≡◌, ◌<◌, ◌≤◌, ◌-◌, length};
ghost use Rattle.tds_wire.specs.Walking.{is_skipped, next_value, null_byte, null_row_begun, nulls_taken, row_begun, row_from, valued};

use crate::cursor::Cursor;
use crate::due::{ColumnField, Due, Field, Inside};
use crate::fault::WireFault;
use crate::memory::Memory;
use crate::shape::Shape;

/// Whether a row has no bytes of this column.
fn is_skipped(memory: &Memory, with_nulls: bool, column: u16) -> bool
    requires { column < 4096 }
    ensures { result ≡ is_skipped with_nulls memory.now.nulls (shapes_of memory.now) column }
{
    (with_nulls && memory.is_null(column)) || memory.shape_at(column).has_no_bytes()
}

/// The first column from this one on of which a row has bytes.
fn next_value(memory: &Memory, with_nulls: bool, first: u16) -> u16
    ensures { result ≡ next_value with_nulls memory.now.nulls (shapes_of memory.now) first
        (length (shapes_of memory.now) - first) }
{
    let count = memory.count();
    let mut column = first;
    'columns: while column < count {
        if !is_skipped(memory, with_nulls, column) {
            return column;
        }
        column += 1;
    }
    column
}

impl Cursor {
    /// Goes on in a row with the first column from this one on that has bytes.
    #[tactic(auto, unfolding(crate::specs::Walking::at_column))]
    fn go_in_row(&mut self, memory: &mut Memory, with_nulls: bool, first: u16)
        ensures { walk_of self.new memory.new ≡
            row_from with_nulls (walk_of self.old memory.old) first }
    {
        let column = next_value(memory, with_nulls, first);
        if column < memory.count() {
            self.at.inside = if with_nulls {
                Inside::NullRow(column)
            } else {
                Inside::Row(column)
            };
            self.at.due = Due::value(memory.shape_at(column));
        } else {
            self.end();
        }
    }

    /// A value has been passed.
    #[inline(always)]
    pub fn end_value(&mut self, memory: &mut Memory)
        ensures { walk_of self.new memory.new ≡
            valued self.old.at.inside (walk_of self.old memory.old) }
    {
        match self.at.inside {
            Inside::Columns(_) => self.end(),
            Inside::Parameter => self.end(),
            Inside::Row(column) => self.go_in_row(memory, false, column.saturating_add(1)),
            Inside::NullRow(column) => self.go_in_row(memory, true, column.saturating_add(1)),
            Inside::ColumnBase(_) => self.end(),
            Inside::ParameterBase(_) => self.end(),
        }
    }

    pub fn begin_row(&mut self, memory: &mut Memory)
        ensures { walk_of self.new memory.new ≡ row_begun (walk_of self.old memory.old) }
    {
        if memory.count() == 0 {
            self.break_by(WireFault::NoColumns);
        } else {
            self.go_in_row(memory, false, 0);
        }
    }

    pub fn begin_null_row(&mut self, memory: &mut Memory)
        ensures { walk_of self.new memory.new ≡ null_row_begun (walk_of self.old memory.old) }
    {
        if memory.count() == 0 {
            self.break_by(WireFault::NoColumns);
        } else {
            self.at.inside = Inside::NullRow(0);
            self.expect(Field::Column(ColumnField::Nulls));
        }
    }

    #[tactic(auto, unfolding(crate::specs::Walking::nulls_taken))]
    fn take_nulls(&mut self, memory: &mut Memory, place: u16, byte: u8)
        ensures { walk_of self.new memory.new ≡
            nulls_taken (walk_of self.old memory.old) place byte }
    {
        memory.keep_nulls(place, byte);
        if 8 * (usize::from(place) + 1) < usize::from(memory.count()) {
            self.at.inside = Inside::NullRow(place + 1);
            self.expect(Field::Column(ColumnField::Nulls));
        } else {
            self.go_in_row(memory, true, 0);
        }
    }

    /// Takes a byte of the null bitmap.
    pub fn take_null_byte(&mut self, memory: &mut Memory, byte: u8)
        ensures { walk_of self.new memory.new ≡
            null_byte self.old.at.inside (walk_of self.old memory.old) byte }
    {
        match self.at.inside {
            Inside::Columns(_) => self.end(),
            Inside::Parameter => self.end(),
            Inside::Row(_) => self.end(),
            Inside::NullRow(place) => self.take_nulls(memory, place, byte),
            Inside::ColumnBase(_) => self.end(),
            Inside::ParameterBase(_) => self.end(),
        }
    }
}
