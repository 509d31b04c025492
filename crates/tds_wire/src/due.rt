//! What is due inside a token.
ghost use Rattle.std.specs.Prelude.{◌≡◌};
ghost use Rattle.tds_wire.specs.Bytes.{standing};
ghost use Rattle.tds_wire.specs.Numbers.{width_of, bytes_of, shifted};
ghost use Rattle.tds_wire.specs.Walking.{number_due, value_due};
ghost use Rattle.tds_wire.specs.declared.due.Field.TheVariants as fields;

use crate::fault::WireFault;
use crate::shape::Shape;

/// How many bytes a number has.
#[derive(Clone, Copy)]
pub enum Width {
    One,
    Two,
    Four,
}

/// A number that is due, by what it says.
#[derive(Clone, Copy)]
pub enum Field {
    /// Of a token as a whole.
    Token(TokenField),
    /// Of a key.
    Key(KeyField),
    /// Of a column, a parameter or a row.
    Column(ColumnField),
    /// Of a type.
    Type(TypeField),
    /// Of a value.
    Value(ValueField),
    /// Of data classification.
    Label(LabelField),
}

/// A number of a token as a whole.
#[derive(Clone, Copy)]
pub enum TokenField {
    /// How many bytes a token has behind this, in two bytes and in four.
    Length,
    LongLength,
    /// The same of an ENVCHANGE, and its type, behind which so many bytes are left.
    ChangeLength,
    Change { left: u16 },
    /// How many bytes the new value of an ENVCHANGE of type 15 has, and its old one.
    PromotedLength,
    PromotedOld,
    /// A feature's number, or the end of them; and how many bytes tell of it.
    Feature,
    FeatureLength,
    /// How many columns are described.
    Columns,
}

/// A number of a key.
#[derive(Clone, Copy)]
pub enum KeyField {
    /// How many keys there are; how many values one has; a value's length, and its three names.
    Keys,
    KeyValues,
    KeyValue,
    KeyStore,
    KeyPath,
    KeyAlgorithm,
}

/// A number of a column, a parameter or a row.
#[derive(Clone, Copy)]
pub enum ColumnField {
    /// The name of a parameter.
    ParameterName,
    /// The flags of a column or a parameter.
    Flags,
    /// How many parts the name of a column's table has, and one of them.
    TableParts,
    TablePart,
    /// The number of an algorithm, and its name where it has none.
    Cipher,
    CipherName,
    /// The name of a column.
    ColumnName,
    /// Eight columns' bits of a null bitmap.
    Nulls,
}

/// A number of a type.
#[derive(Clone, Copy)]
pub enum TypeField {
    /// The type itself.
    Type,
    /// The most bytes that a value has; where there may be more, all ones. Then a collation, or none.
    MaxLength { collated: bool },
    /// Whether XML has a schema, and its three names.
    Schema,
    XmlDatabase,
    XmlOwner,
    XmlCollection,
    /// The names of a type that a user has made.
    UdtDatabase,
    UdtSchema,
    UdtName,
    UdtAssembly,
}

/// A number of a value.
#[derive(Clone, Copy)]
pub enum ValueField {
    /// How many bytes a value has.
    ByteCount,
    ShortCount,
    LongCount,
    /// How many bytes a text pointer has.
    PointerCount,
    /// The two halves of the length of a value in parts.
    PartsLow,
    PartsHigh { ones: bool },
    /// How many bytes a part has.
    PartCount,
}

/// A number of data classification.
#[derive(Clone, Copy)]
pub enum LabelField {
    /// How many sensitivity labels there are, or types of information; the name of one, and its
    /// identifier.
    Labels { types: bool },
    LabelName { types: bool },
    LabelId { types: bool },
    /// How many columns are classified, and how many properties one has.
    SensitiveColumns,
    Properties,
}

/// What comes behind a run of bytes.
#[derive(Clone, Copy)]
pub enum Next {
    /// The next token.
    Ended,
    /// A number of the same token.
    Then(Field),
    /// A type has been passed.
    Described,
    /// A part of a table's name has been passed.
    Parted,
    /// Crypto metadata have been passed.
    Ciphered,
    /// A column's name has been passed.
    Named,
    /// A value has been passed.
    Valued,
    /// A key's value has been passed.
    KeyValued,
    /// A label, or a type of information, has been passed.
    Labelled { types: bool },
    /// A column's properties have been passed.
    Classified,
}

/// What is due.
#[derive(Clone, Copy)]
pub enum Due {
    /// A token, or the message's end.
    Token,
    /// So many bytes more of a number. What has come of it is `value`.
    Number { field: Field, left: u8, value: u32 },
    /// So many bytes that are passed over.
    Run { left: u64, next: Next },
    /// Nothing: bytes were refused.
    Broken(WireFault),
}

/// What a value or a type belongs to.
#[derive(Clone, Copy)]
pub enum Inside {
    /// A COLMETADATA, of which so many columns are not described yet.
    Columns(u16),
    /// A RETURNVALUE.
    Parameter,
    /// A row: the value of the column at this place.
    Row(u16),
    /// The same of a row with a null bitmap.
    NullRow(u16),
    /// What an encrypted column has when it is decrypted, where so many columns are not described yet.
    ColumnBase(u16),
    /// What an encrypted parameter has then. The value itself has this shape.
    ParameterBase(Shape),
}

/// Where a cursor is, the columns that it knows aside.
#[derive(Clone, Copy)]
pub struct At {
    pub due: Due,
    /// The first byte of the token that it is in, or behind.
    pub kind: u8,
    pub inside: Inside,
    /// The shape of the column that is being described, or of the parameter.
    pub shape: Shape,
    /// Whether it has crypto metadata.
    pub ciphered: bool,
    /// How many keys, labels, types of information or classified columns are to come, this one counted.
    pub left: u16,
    /// How many parts of a table's name, or values of a key, are to come, this one counted.
    pub parts: u8,
}

/// How a cursor stands.
#[derive(Clone, Copy)]
pub enum Standing {
    /// Between two tokens.
    Between,
    /// Inside a token.
    Going,
    /// It is broken.
    Failing(WireFault),
}

impl Field {
    /// How many bytes the number has.
    pub fn width(self) -> Width
        ensures { result ≡ width_of self }
    {
        match self {
            Field::Token(field) => field.width(),
            Field::Key(field) => field.width(),
            Field::Column(field) => field.width(),
            Field::Type(field) => field.width(),
            Field::Value(field) => field.width(),
            Field::Label(field) => field.width(),
        }
    }
}

impl TokenField {
    fn width(self) -> Width
        ensures { result ≡ width_of (fields.Token self) }
    {
        match self {
            TokenField::Length => Width::Two,
            TokenField::LongLength => Width::Four,
            TokenField::ChangeLength => Width::Two,
            TokenField::Change { .. } => Width::One,
            TokenField::PromotedLength => Width::Four,
            TokenField::PromotedOld => Width::One,
            TokenField::Feature => Width::One,
            TokenField::FeatureLength => Width::Four,
            TokenField::Columns => Width::Two,
        }
    }
}

impl KeyField {
    fn width(self) -> Width
        ensures { result ≡ width_of (fields.Key self) }
    {
        match self {
            KeyField::Keys => Width::Two,
            KeyField::KeyValues => Width::One,
            KeyField::KeyValue => Width::Two,
            KeyField::KeyStore => Width::One,
            KeyField::KeyPath => Width::Two,
            KeyField::KeyAlgorithm => Width::One,
        }
    }
}

impl ColumnField {
    fn width(self) -> Width
        ensures { result ≡ width_of (fields.Column self) }
    {
        match self {
            ColumnField::ParameterName => Width::One,
            ColumnField::Flags => Width::Two,
            ColumnField::TableParts => Width::One,
            ColumnField::TablePart => Width::Two,
            ColumnField::Cipher => Width::One,
            ColumnField::CipherName => Width::One,
            ColumnField::ColumnName => Width::One,
            ColumnField::Nulls => Width::One,
        }
    }
}

impl TypeField {
    fn width(self) -> Width
        ensures { result ≡ width_of (fields.Type self) }
    {
        match self {
            TypeField::Type => Width::One,
            TypeField::MaxLength { .. } => Width::Two,
            TypeField::Schema => Width::One,
            TypeField::XmlDatabase => Width::One,
            TypeField::XmlOwner => Width::One,
            TypeField::XmlCollection => Width::Two,
            TypeField::UdtDatabase => Width::One,
            TypeField::UdtSchema => Width::One,
            TypeField::UdtName => Width::One,
            TypeField::UdtAssembly => Width::Two,
        }
    }
}

impl ValueField {
    fn width(self) -> Width
        ensures { result ≡ width_of (fields.Value self) }
    {
        match self {
            ValueField::ByteCount => Width::One,
            ValueField::ShortCount => Width::Two,
            ValueField::LongCount => Width::Four,
            ValueField::PointerCount => Width::One,
            ValueField::PartsLow => Width::Four,
            ValueField::PartsHigh { .. } => Width::Four,
            ValueField::PartCount => Width::Four,
        }
    }
}

impl LabelField {
    fn width(self) -> Width
        ensures { result ≡ width_of (fields.Label self) }
    {
        match self {
            LabelField::Labels { .. } => Width::Two,
            LabelField::LabelName { .. } => Width::One,
            LabelField::LabelId { .. } => Width::One,
            LabelField::SensitiveColumns => Width::Two,
            LabelField::Properties => Width::Two,
        }
    }
}

impl Width {
    /// The same as a number.
    pub fn bytes(self) -> u8
        ensures { result ≡ bytes_of self }
    {
        match self {
            Width::One => 1,
            Width::Two => 2,
            Width::Four => 4,
        }
    }

    /// A number of this width to which one byte more has come, the lowest one first.
    pub fn shifted(self, value: u32, byte: u8) -> u32
        ensures { result ≡ shifted self value byte }
    {
        match self {
            Width::One => u32::from(byte),
            Width::Two => value / 256 + 256 * u32::from(byte),
            Width::Four => value / 256 + 16_777_216 * u32::from(byte),
        }
    }
}

impl Due {
    /// A number is due.
    pub fn number(field: Field) -> Due
        ensures { result ≡ number_due field }
    {
        Due::Number {
            field,
            left: field.width().bytes(),
            value: 0,
        }
    }

    /// A value is due that has bytes.
    pub fn value(shape: Shape) -> Due
        ensures { result ≡ value_due shape }
    {
        match shape {
            Shape::Fixed(count) => Due::Run {
                left: u64::from(count),
                next: Next::Valued,
            },
            Shape::Byte => Due::number(Field::Value(ValueField::ByteCount)),
            Shape::Short => Due::number(Field::Value(ValueField::ShortCount)),
            Shape::Long => Due::number(Field::Value(ValueField::LongCount)),
            Shape::Pointer => Due::number(Field::Value(ValueField::PointerCount)),
            Shape::Parts => Due::number(Field::Value(ValueField::PartsLow)),
        }
    }

    /// How a cursor stands of which this is due.
    pub fn standing(self) -> Standing
        ensures { result ≡ standing self }
    {
        match self {
            Due::Token => Standing::Between,
            Due::Number { .. } => Standing::Going,
            Due::Run { .. } => Standing::Going,
            Due::Broken(fault) => Standing::Failing(fault),
        }
    }
}
