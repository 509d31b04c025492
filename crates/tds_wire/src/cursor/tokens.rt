//! The beginnings of tokens, and what comes behind a run of bytes.
ghost use Rattle.tds_wire.specs.Memory.{walk_of};
ghost use Rattle.std.specs.Prelude.{◌≡◌};
ghost use Rattle.tds_wire.specs.Walking.{begun, go, pass, typed, with_kind};

use crate::cursor::Cursor;
use crate::due::{ColumnField, Field, Inside, LabelField, Next, TokenField, TypeField};
use crate::fault::WireFault;
use crate::memory::Memory;
use crate::shape::Shape;
use crate::types::TypeInfo;

impl Cursor {
    /// Begins a token, by its first byte.
    #[tactic(auto, unfolding(crate::specs::Walking::begun))]
    fn begin(&mut self, memory: &mut Memory, byte: u8)
        ensures { walk_of self.new memory.new ≡ begun (walk_of self.old memory.old) byte }
    {
        match byte {
            0xA4 | 0xA5 | 0xA9 | 0xAA | 0xAB | 0xAD | 0xED => self.expect(Field::Token(
                TokenField::Length,
            )),
            0xFD | 0xFE | 0xFF => self.expect_run(12, Next::Ended),
            0xD1 => self.begin_row(memory),
            0xD2 => self.begin_null_row(memory),
            0x81 => self.expect(Field::Token(TokenField::Columns)),
            0xE3 => self.expect(Field::Token(TokenField::ChangeLength)),
            0x79 => self.expect_run(4, Next::Ended),
            0xAC => {
                self.at.inside = Inside::Parameter;
                self.expect_run(2, Next::Then(Field::Column(ColumnField::ParameterName)));
            }
            0xE4 | 0xEE => self.expect(Field::Token(TokenField::LongLength)),
            0xAE => self.expect(Field::Token(TokenField::Feature)),
            0xA3 => self.expect(Field::Label(LabelField::Labels { types: false })),
            _ => self.break_by(WireFault::UnknownToken),
        }
    }

    /// Takes the first byte of a token.
    pub fn take_kind(&mut self, memory: &mut Memory, byte: u8)
        ensures { walk_of self.new memory.new ≡
            begun (with_kind (walk_of self.old memory.old) byte) byte }
    {
        self.at.kind = byte;
        self.begin(memory, byte);
    }

    /// Goes on behind a run of bytes.
    #[inline(always)]
    pub fn go(&mut self, memory: &mut Memory, next: Next)
        ensures { walk_of self.new memory.new ≡ go (walk_of self.old memory.old) next }
    {
        match next {
            Next::Ended => self.end(),
            Next::Then(field) => self.expect(field),
            Next::Described => self.describe(memory),
            Next::Parted => self.end_part(memory),
            Next::Ciphered => self.end_base(memory),
            Next::Named => self.end_name(memory),
            Next::Valued => self.end_value(memory),
            Next::KeyValued => self.end_key_value(memory),
            Next::Labelled { types } => self.end_label(memory, types),
            Next::Classified => self.end_properties(memory),
        }
    }

    /// Passes so many bytes.
    #[tactic(auto, unfolding(crate::specs::Walking::pass))]
    pub fn pass(&mut self, memory: &mut Memory, count: u64, next: Next)
        ensures { walk_of self.new memory.new ≡ pass (walk_of self.old memory.old) count next }
    {
        if count == 0 {
            self.go(memory, next);
        } else {
            self.expect_run(count, next);
        }
    }

    /// Takes a type.
    pub fn take_type(&mut self, memory: &mut Memory, info: TypeInfo)
        ensures { walk_of self.new memory.new ≡ typed (walk_of self.old memory.old) info }
    {
        match info {
            TypeInfo::Info(count, shape) => {
                self.at.shape = shape;
                self.pass(memory, u64::from(count), Next::Described);
            }
            TypeInfo::Limited(collated) => self.expect(Field::Type(TypeField::MaxLength {
                collated,
            })),
            TypeInfo::Xml => {
                self.at.shape = Shape::Parts;
                self.expect(Field::Type(TypeField::Schema));
            }
            TypeInfo::Made => {
                self.at.shape = Shape::Parts;
                self.expect_run(2, Next::Then(Field::Type(TypeField::UdtDatabase)));
            }
            TypeInfo::Unknown => self.break_by(WireFault::UnknownType),
        }
    }
}
