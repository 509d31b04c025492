//! What each number says, when it has come.
ghost use Rattle.tds_wire.specs.Memory.{walk_of};
ghost use Rattle.std.specs.Prelude.{◌≡◌, if◌then◌else◌};
ghost use Rattle.tds_wire.specs.Layout.{is_ciphered};
ghost use Rattle.tds_wire.specs.Walking.{arrive, go, pass};
ghost use Rattle.tds_wire.specs.declared.due.Field.TheVariants as fields;
ghost use Rattle.tds_wire.specs.declared.due.Next.TheVariants.{Valued};
ghost use Rattle.tds_wire.specs.declared.due.TokenField.TheVariants as in_token;
ghost use Rattle.tds_wire.specs.declared.due.TypeField.TheVariants as in_type;

use crate::cursor::Cursor;
use crate::due::{
    ColumnField, Field, KeyField, LabelField, Next, TokenField, TypeField, ValueField,
};
use crate::features::Features;
use crate::memory::Memory;
use crate::shape::Shape;
use crate::types::type_of;

/// Whether crypto metadata follow, by the flags.
fn is_ciphered(features: Features, flags: u32) -> bool
    ensures { result ≡ is_ciphered features flags }
{
    features.encryption && flags / 2048 % 2 == 1
}

impl Cursor {
    /// Takes the type of an ENVCHANGE, behind which so many bytes are left.
    fn take_change(&mut self, memory: &mut Memory, number: u32, left: u16)
        ensures { walk_of self.new memory.new ≡
            arrive (walk_of self.old memory.old) (fields.Token (in_token.Change left)) number }
    {
        if number == 15 {
            self.expect(Field::Token(TokenField::PromotedLength));
        } else {
            self.pass(memory, u64::from(left), Next::Ended);
        }
    }

    /// Takes the most bytes that a value of a type has.
    fn take_most(&mut self, memory: &mut Memory, number: u32, collated: bool)
        ensures { walk_of self.new memory.new ≡
            arrive (walk_of self.old memory.old) (fields.Type (in_type.MaxLength collated)) number }
    {
        self.at.shape = if number == 65_535 {
            Shape::Parts
        } else {
            Shape::Short
        };
        self.pass(memory, if collated { 5 } else { 0 }, Next::Described);
    }

    /// Takes a number of a token as a whole.
    fn arrive_in_token(&mut self, memory: &mut Memory, field: TokenField, number: u32)
        ensures { walk_of self.new memory.new ≡
            arrive (walk_of self.old memory.old) (fields.Token field) number }
    {
        let count = u64::from(number);
        let low_half = (number % 65_536) as u16;
        match field {
            TokenField::Length => self.pass(memory, count, Next::Ended),
            TokenField::LongLength => self.pass(memory, count, Next::Ended),
            TokenField::ChangeLength => {
                if low_half == 0 {
                    self.end();
                } else {
                    self.expect(Field::Token(TokenField::Change { left: low_half - 1 }));
                }
            }
            TokenField::Change { left } => self.take_change(memory, number, left),
            TokenField::PromotedLength => self.pass(
                memory,
                count,
                Next::Then(Field::Token(TokenField::PromotedOld)),
            ),
            TokenField::PromotedOld => self.pass(memory, count, Next::Ended),
            TokenField::Feature => {
                if number == 255 {
                    self.end();
                } else {
                    self.expect(Field::Token(TokenField::FeatureLength));
                }
            }
            TokenField::FeatureLength => self.pass(
                memory,
                count,
                Next::Then(Field::Token(TokenField::Feature)),
            ),
            TokenField::Columns => self.count_columns(memory, low_half),
        }
    }

    /// Takes a number of a key.
    fn arrive_in_key(&mut self, memory: &mut Memory, field: KeyField, number: u32)
        ensures { walk_of self.new memory.new ≡
            arrive (walk_of self.old memory.old) (fields.Key field) number }
    {
        let count = u64::from(number);
        let low_half = (number % 65_536) as u16;
        let low_byte = (number % 256) as u8;
        match field {
            KeyField::Keys => {
                if low_half == 0 {
                    self.begin_columns(memory);
                } else {
                    self.at.left = low_half;
                    self.begin_key(memory);
                }
            }
            KeyField::KeyValues => {
                if low_byte == 0 {
                    self.end_key(memory);
                } else {
                    self.at.parts = low_byte;
                    self.expect(Field::Key(KeyField::KeyValue));
                }
            }
            KeyField::KeyValue => self.pass(
                memory,
                count,
                Next::Then(Field::Key(KeyField::KeyStore)),
            ),
            KeyField::KeyStore => self.pass(
                memory,
                2 * count,
                Next::Then(Field::Key(KeyField::KeyPath)),
            ),
            KeyField::KeyPath => self.pass(
                memory,
                2 * count,
                Next::Then(Field::Key(KeyField::KeyAlgorithm)),
            ),
            KeyField::KeyAlgorithm => self.pass(memory, 2 * count, Next::KeyValued),
        }
    }

    /// Takes a number of a column, a parameter or a row.
    fn arrive_in_column(&mut self, memory: &mut Memory, field: ColumnField, number: u32)
        ensures { walk_of self.new memory.new ≡
            arrive (walk_of self.old memory.old) (fields.Column field) number }
    {
        let count = u64::from(number);
        let low_byte = (number % 256) as u8;
        match field {
            ColumnField::ParameterName => self.expect_run(
                2 * count + 5,
                Next::Then(Field::Column(ColumnField::Flags)),
            ),
            ColumnField::Flags => {
                self.at.ciphered = is_ciphered(self.features, number);
                self.expect(Field::Type(TypeField::Type));
            }
            ColumnField::TableParts => {
                if low_byte == 0 {
                    self.end_table(memory);
                } else {
                    self.at.parts = low_byte;
                    self.expect(Field::Column(ColumnField::TablePart));
                }
            }
            ColumnField::TablePart => self.pass(memory, 2 * count, Next::Parted),
            ColumnField::Cipher => {
                if number == 0 {
                    self.expect(Field::Column(ColumnField::CipherName));
                } else {
                    self.expect_run(2, Next::Ciphered);
                }
            }
            ColumnField::CipherName => self.expect_run(2 * count + 2, Next::Ciphered),
            ColumnField::ColumnName => self.pass(memory, 2 * count, Next::Named),
            ColumnField::Nulls => self.take_null_byte(memory, low_byte),
        }
    }

    /// Takes a number of a type.
    fn arrive_in_type(&mut self, memory: &mut Memory, field: TypeField, number: u32)
        ensures { walk_of self.new memory.new ≡
            arrive (walk_of self.old memory.old) (fields.Type field) number }
    {
        let count = u64::from(number);
        match field {
            TypeField::Type => self.take_type(memory, type_of(number)),
            TypeField::MaxLength { collated } => self.take_most(memory, number, collated),
            TypeField::Schema => {
                if number == 0 {
                    self.describe(memory);
                } else {
                    self.expect(Field::Type(TypeField::XmlDatabase));
                }
            }
            TypeField::XmlDatabase => self.pass(
                memory,
                2 * count,
                Next::Then(Field::Type(TypeField::XmlOwner)),
            ),
            TypeField::XmlOwner => self.pass(
                memory,
                2 * count,
                Next::Then(Field::Type(TypeField::XmlCollection)),
            ),
            TypeField::XmlCollection => self.pass(memory, 2 * count, Next::Described),
            TypeField::UdtDatabase => self.pass(
                memory,
                2 * count,
                Next::Then(Field::Type(TypeField::UdtSchema)),
            ),
            TypeField::UdtSchema => self.pass(
                memory,
                2 * count,
                Next::Then(Field::Type(TypeField::UdtName)),
            ),
            TypeField::UdtName => self.pass(
                memory,
                2 * count,
                Next::Then(Field::Type(TypeField::UdtAssembly)),
            ),
            TypeField::UdtAssembly => self.pass(memory, 2 * count, Next::Described),
        }
    }

    /// Takes a number of a value.
    fn arrive_in_value(&mut self, memory: &mut Memory, field: ValueField, number: u32)
        ensures { walk_of self.new memory.new ≡
            arrive (walk_of self.old memory.old) (fields.Value field) number }
    {
        let count = u64::from(number);
        match field {
            ValueField::ByteCount => self.pass(memory, count, Next::Valued),
            ValueField::ShortCount => self.pass_unless(memory, number == 65_535, count),
            ValueField::LongCount => self.pass_unless(memory, number == u32::MAX, count),
            ValueField::PointerCount => {
                if number == 0 {
                    self.end_value(memory);
                } else {
                    self.expect_run(count + 8, Next::Then(Field::Value(ValueField::LongCount)));
                }
            }
            ValueField::PartsLow => self.expect(Field::Value(ValueField::PartsHigh {
                ones: number == u32::MAX,
            })),
            ValueField::PartsHigh { ones } => {
                if ones && number == u32::MAX {
                    self.end_value(memory);
                } else {
                    self.expect(Field::Value(ValueField::PartCount));
                }
            }
            ValueField::PartCount => {
                if number == 0 {
                    self.end_value(memory);
                } else {
                    self.expect_run(count, Next::Then(Field::Value(ValueField::PartCount)));
                }
            }
        }
    }

    /// Takes a number of data classification.
    fn arrive_in_label(&mut self, memory: &mut Memory, field: LabelField, number: u32)
        ensures { walk_of self.new memory.new ≡
            arrive (walk_of self.old memory.old) (fields.Label field) number }
    {
        let count = u64::from(number);
        let low_half = (number % 65_536) as u16;
        match field {
            LabelField::Labels { types } => {
                if low_half == 0 {
                    self.end_labels(memory, types);
                } else {
                    self.at.left = low_half;
                    self.expect(Field::Label(LabelField::LabelName { types }));
                }
            }
            LabelField::LabelName { types } => {
                self.pass(
                    memory,
                    2 * count,
                    Next::Then(Field::Label(LabelField::LabelId { types })),
                );
            }
            LabelField::LabelId { types } => self.pass(memory, 2 * count, Next::Labelled { types }),
            LabelField::SensitiveColumns => {
                if low_half == 0 {
                    self.end();
                } else {
                    self.at.left = low_half;
                    self.expect(Field::Label(LabelField::Properties));
                }
            }
            LabelField::Properties => {
                self.pass(
                    memory,
                    count * if self.features.ranks { 8 } else { 4 },
                    Next::Classified,
                );
            }
        }
    }

    /// Passes a value of so many bytes, unless it is null.
    fn pass_unless(&mut self, memory: &mut Memory, is_null: bool, count: u64)
        ensures { walk_of self.new memory.new ≡
            (if is_null then go (walk_of self.old memory.old) Valued
            else pass (walk_of self.old memory.old) count Valued) }
    {
        if is_null {
            self.end_value(memory);
        } else {
            self.pass(memory, count, Next::Valued);
        }
    }

    /// Takes a number that has come.
    pub fn arrive(&mut self, memory: &mut Memory, field: Field, number: u32)
        ensures { walk_of self.new memory.new ≡ arrive (walk_of self.old memory.old) field number }
    {
        match field {
            Field::Token(field) => self.arrive_in_token(memory, field, number),
            Field::Key(field) => self.arrive_in_key(memory, field, number),
            Field::Column(field) => self.arrive_in_column(memory, field, number),
            Field::Type(field) => self.arrive_in_type(memory, field, number),
            Field::Value(field) => self.arrive_in_value(memory, field, number),
            Field::Label(field) => self.arrive_in_label(memory, field, number),
        }
    }
}
