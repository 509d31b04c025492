//! Columns, parameters and keys.
ghost use Rattle.tds_wire.specs.Memory.{walk_of};
ghost use Rattle.std.specs.Prelude.{◌≡◌};
ghost use Rattle.tds_wire.specs.Walking.{based, behind_table, behind_type, ciphered, column_begun, column_described, columns_begun, columns_counted, columns_listed, described, key_begun, key_passed, key_valued, named, parameter_described, parameter_typed, parted};

use crate::cursor::Cursor;
use crate::due::{ColumnField, Due, Field, Inside, KeyField, Next, TypeField};
use crate::fault::WireFault;
use crate::memory::Memory;
use crate::shape::Shape;

impl Cursor {
    fn begin_column(&mut self, memory: &mut Memory)
        ensures { walk_of self.new memory.new ≡ column_begun (walk_of self.old memory.old) }
    {
        self.expect_run(4, Next::Then(Field::Column(ColumnField::Flags)));
    }

    /// Begins the columns, behind their keys.
    pub fn begin_columns(&mut self, memory: &mut Memory)
        ensures { walk_of self.new memory.new ≡
            columns_begun self.old.at.inside (walk_of self.old memory.old) }
    {
        match self.at.inside {
            Inside::Columns(left) => {
                if left == 0 {
                    self.end();
                } else {
                    self.begin_column(memory);
                }
            }
            Inside::Parameter => self.end(),
            Inside::Row(_) => self.end(),
            Inside::NullRow(_) => self.end(),
            Inside::ColumnBase(_) => self.end(),
            Inside::ParameterBase(_) => self.end(),
        }
    }

    /// Begins a list of so many columns.
    fn list_columns(&mut self, memory: &mut Memory, count: u16)
        ensures { walk_of self.new memory.new ≡ columns_listed (walk_of self.old memory.old) count }
    {
        memory.clear();
        self.at.inside = Inside::Columns(count);
        if self.features.encryption {
            self.expect(Field::Key(KeyField::Keys));
        } else {
            self.begin_columns(memory);
        }
    }

    #[tactic(auto, unfolding(crate::specs::Walking::columns_counted))]
    pub fn count_columns(&mut self, memory: &mut Memory, count: u16)
        ensures { walk_of self.new memory.new ≡
            columns_counted (walk_of self.old memory.old) count }
    {
        if count == 65_535 {
            self.end();
        } else if count > self.room() {
            self.break_by(WireFault::ManyColumns);
        } else {
            self.list_columns(memory, count);
        }
    }

    #[tactic(auto, unfolding(crate::specs::Walking::parameter_typed))]
    fn begin_parameter_value(&mut self, memory: &mut Memory)
        ensures { walk_of self.new memory.new ≡ parameter_typed (walk_of self.old memory.old) }
    {
        let shape = self.at.shape;
        if shape.has_no_bytes() {
            self.end();
        } else {
            self.at.due = Due::value(shape);
        }
    }

    /// Begins crypto metadata.
    fn begin_base(&mut self, memory: &mut Memory)
        ensures { walk_of self.new memory.new ≡
            based self.old.at.inside (walk_of self.old memory.old) }
    {
        match self.at.inside {
            Inside::Columns(left) => {
                self.at.inside = Inside::ColumnBase(left);
                self.expect_run(6, Next::Then(Field::Type(TypeField::Type)));
            }
            Inside::Parameter => {
                self.at.inside = Inside::ParameterBase(self.at.shape);
                self.expect_run(4, Next::Then(Field::Type(TypeField::Type)));
            }
            Inside::Row(_) => self.end(),
            Inside::NullRow(_) => self.end(),
            Inside::ColumnBase(_) => self.end(),
            Inside::ParameterBase(_) => self.end(),
        }
    }

    /// Goes on behind a column's type, and the name of its table where it has one.
    #[tactic(auto, unfolding(crate::specs::Walking::behind_table))]
    pub fn end_table(&mut self, memory: &mut Memory)
        ensures { walk_of self.new memory.new ≡ behind_table (walk_of self.old memory.old) }
    {
        if self.at.ciphered {
            self.begin_base(memory);
        } else {
            self.expect(Field::Column(ColumnField::ColumnName));
        }
    }

    fn begin_table(&mut self, memory: &mut Memory, shape: Shape)
        ensures { walk_of self.new memory.new ≡ behind_type shape (walk_of self.old memory.old) }
    {
        match shape {
            Shape::Pointer => self.expect(Field::Column(ColumnField::TableParts)),
            Shape::Fixed(_) => self.end_table(memory),
            Shape::Byte => self.end_table(memory),
            Shape::Short => self.end_table(memory),
            Shape::Long => self.end_table(memory),
            Shape::Parts => self.end_table(memory),
        }
    }

    #[tactic(auto, unfolding(crate::specs::Walking::column_described))]
    fn end_column_type(&mut self, memory: &mut Memory)
        ensures { walk_of self.new memory.new ≡ column_described (walk_of self.old memory.old) }
    {
        let shape = self.at.shape;
        if memory.count() < self.room() {
            memory.push(shape);
            self.begin_table(memory, shape);
        } else {
            self.break_by(WireFault::ManyColumns);
        }
    }

    #[tactic(auto, unfolding(crate::specs::Walking::parameter_described))]
    fn end_parameter_type(&mut self, memory: &mut Memory)
        ensures { walk_of self.new memory.new ≡ parameter_described (walk_of self.old memory.old) }
    {
        if self.at.ciphered {
            self.begin_base(memory);
        } else {
            self.begin_parameter_value(memory);
        }
    }

    /// A type has been passed.
    pub fn describe(&mut self, memory: &mut Memory)
        ensures { walk_of self.new memory.new ≡
            described self.old.at.inside (walk_of self.old memory.old) }
    {
        match self.at.inside {
            Inside::Columns(_) => self.end_column_type(memory),
            Inside::Parameter => self.end_parameter_type(memory),
            Inside::Row(_) => self.end(),
            Inside::NullRow(_) => self.end(),
            Inside::ColumnBase(_) => self.expect(Field::Column(ColumnField::Cipher)),
            Inside::ParameterBase(_) => self.expect(Field::Column(ColumnField::Cipher)),
        }
    }

    /// Crypto metadata have been passed.
    pub fn end_base(&mut self, memory: &mut Memory)
        ensures { walk_of self.new memory.new ≡
            ciphered self.old.at.inside (walk_of self.old memory.old) }
    {
        match self.at.inside {
            Inside::Columns(_) => self.end(),
            Inside::Parameter => self.end(),
            Inside::Row(_) => self.end(),
            Inside::NullRow(_) => self.end(),
            Inside::ColumnBase(left) => {
                self.at.inside = Inside::Columns(left);
                self.expect(Field::Column(ColumnField::ColumnName));
            }
            Inside::ParameterBase(shape) => {
                self.at.inside = Inside::Parameter;
                self.at.shape = shape;
                self.begin_parameter_value(memory);
            }
        }
    }

    /// A part of a table's name has been passed.
    #[tactic(auto, unfolding(crate::specs::Walking::parted))]
    pub fn end_part(&mut self, memory: &mut Memory)
        ensures { walk_of self.new memory.new ≡ parted (walk_of self.old memory.old) }
    {
        if self.at.parts > 1 {
            self.at.parts -= 1;
            self.expect(Field::Column(ColumnField::TablePart));
        } else {
            self.end_table(memory);
        }
    }

    /// A column's name has been passed.
    pub fn end_name(&mut self, memory: &mut Memory)
        ensures { walk_of self.new memory.new ≡
            named self.old.at.inside (walk_of self.old memory.old) }
    {
        match self.at.inside {
            Inside::Columns(left) => {
                if left > 1 {
                    self.at.inside = Inside::Columns(left - 1);
                    self.begin_column(memory);
                } else {
                    self.end();
                }
            }
            Inside::Parameter => self.end(),
            Inside::Row(_) => self.end(),
            Inside::NullRow(_) => self.end(),
            Inside::ColumnBase(_) => self.end(),
            Inside::ParameterBase(_) => self.end(),
        }
    }

    pub fn begin_key(&mut self, memory: &mut Memory)
        ensures { walk_of self.new memory.new ≡ key_begun (walk_of self.old memory.old) }
    {
        self.expect_run(20, Next::Then(Field::Key(KeyField::KeyValues)));
    }

    #[tactic(auto, unfolding(crate::specs::Walking::key_passed))]
    pub fn end_key(&mut self, memory: &mut Memory)
        ensures { walk_of self.new memory.new ≡ key_passed (walk_of self.old memory.old) }
    {
        if self.at.left > 1 {
            self.at.left -= 1;
            self.begin_key(memory);
        } else {
            self.begin_columns(memory);
        }
    }

    #[tactic(auto, unfolding(crate::specs::Walking::key_valued))]
    pub fn end_key_value(&mut self, memory: &mut Memory)
        ensures { walk_of self.new memory.new ≡ key_valued (walk_of self.old memory.old) }
    {
        if self.at.parts > 1 {
            self.at.parts -= 1;
            self.expect(Field::Key(KeyField::KeyValue));
        } else {
            self.end_key(memory);
        }
    }
}
