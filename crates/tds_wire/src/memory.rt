//! Where a walk keeps the shapes of columns and a null bitmap.
ghost use Rattle.std.specs.Prelude.{◌≡◌, ◌<◌, ◌≤◌, ◌++◌, ◌∷◌, [], length};
ghost use Rattle.tds_wire.specs.Layout.{is_null};
ghost use Rattle.tds_wire.specs.Memory.{column_of, shape_of, shapes_of};
ghost use Rattle.tds_wire.specs.Walking.{keeping, shape_at};

use crate::shape::Shape;

/// How the values of a column are spelled, in two bytes.
#[repr(C)]
#[derive(Clone, Copy)]
pub struct Column {
    /// 0 as many bytes as `bytes` says; 2, 3 behind a count in two or four bytes; 4 behind a text
    /// pointer; 5 in parts; else behind a count in one byte.
    pub form: u8,
    pub bytes: u8,
}

/// What a walk remembers beside where it is. Whoever walks keeps it, in his own memory. Any bytes are
/// some memory.
#[repr(C)]
#[derive(Drop)]
pub struct Memory {
    pub columns: [Column; 4096],
    pub nulls: [u8; 512],
    /// How many columns are known: the first ones.
    pub count: u16,
}

impl Column {
    #[tactic(auto, unfolding(crate::specs::Memory::shape_of))]
    fn shape(self) -> Shape
        ensures { result ≡ shape_of self }
    {
        match self.form {
            0 => Shape::Fixed(self.bytes),
            2 => Shape::Short,
            3 => Shape::Long,
            4 => Shape::Pointer,
            5 => Shape::Parts,
            _ => Shape::Byte,
        }
    }

    fn of(shape: Shape) -> Column
        ensures { result ≡ column_of shape }
    {
        match shape {
            Shape::Fixed(bytes) => Column { form: 0, bytes },
            Shape::Byte => Column { form: 1, bytes: 0 },
            Shape::Short => Column { form: 2, bytes: 0 },
            Shape::Long => Column { form: 3, bytes: 0 },
            Shape::Pointer => Column { form: 4, bytes: 0 },
            Shape::Parts => Column { form: 5, bytes: 0 },
        }
    }
}

impl Memory {
    /// Memory that knows no columns.
    #[tactic(auto, unfolding(crate::specs::Memory::shapes_of))]
    pub fn new() -> Memory
        ensures { shapes_of result ≡ [] }
    {
        Memory {
            columns: [Column { form: 0, bytes: 0 }; 4096],
            nulls: [0; 512],
            count: 0,
        }
    }

    /// How many columns are known.
    #[inline(always)]
    pub fn count(&self) -> u16
        ensures count { result ≡ length (shapes_of self.now) }
        ensures few { result ≤ 4096 }
    {
        if self.count < 4096 { self.count } else { 4096 }
    }

    /// What holds of any memory.
    #[inline(always)]
    pub fn bounds(&self)
        ensures few { length (shapes_of self.now) ≤ 4096 }
        ensures nulls { length self.now.nulls ≡ 512 }
    {
        let _count = self.count();
        let _nulls = self.nulls.len();
    }

    /// The shape of a column, or any where there is none.
    pub(crate) fn shape_at(&self, column: u16) -> Shape
        ensures { result ≡ shape_at (shapes_of self.now) column }
    {
        if column < self.count() {
            self.columns[usize::from(column)].shape()
        } else {
            Shape::Byte
        }
    }

    /// Whether this column's bit of the null bitmap is set.
    pub(crate) fn is_null(&self, column: u16) -> bool
        requires { column < 4096 }
        ensures { result ≡ is_null self.now.nulls column }
    {
        self.nulls[usize::from(column / 8)] >> (column % 8) & 1 == 1
    }

    /// Forgets all columns.
    #[tactic(auto, unfolding(crate::specs::Memory::shapes_of))]
    pub(crate) fn clear(&mut self)
        ensures columns { shapes_of self.new ≡ [] }
        ensures nulls { self.new.nulls ≡ self.old.nulls }
    {
        self.count = 0;
    }

    /// One more column is known.
    pub(crate) fn push(&mut self, shape: Shape)
        requires { length (shapes_of self.old) < 4096 }
        ensures columns { shapes_of self.new ≡ shapes_of self.old ++ shape ∷ [] }
        ensures nulls { self.new.nulls ≡ self.old.nulls }
    {
        let count = self.count();
        self.columns[usize::from(count)] = Column::of(shape);
        self.count = count + 1;
    }

    /// Keeps a byte of the null bitmap.
    #[tactic(auto, unfolding(crate::specs::Memory::shapes_of))]
    pub(crate) fn keep_nulls(&mut self, place: u16, byte: u8)
        ensures nulls { self.new.nulls ≡ keeping self.old.nulls place byte }
        ensures columns { shapes_of self.new ≡ shapes_of self.old }
    {
        if usize::from(place) < 512 {
            self.nulls[usize::from(place)] = byte;
        }
    }
}
