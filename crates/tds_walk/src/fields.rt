//! The number that is due in a walk, as a number.

ghost use Rattle.std.specs.Prelude.{◌≡◌, Some};
ghost use Rattle.tds_walk.specs.WireFields as fields;
ghost use Rattle.tds_wire.specs.declared.due.Field.TheVariants as of;

use tds_wire::{ColumnField, Field, KeyField, LabelField, TokenField, TypeField, ValueField};

/// A field: its group and its number there, and how many bytes are left behind the type of an
/// ENVCHANGE.
#[derive(Clone, Copy)]
pub(crate) struct FieldCode {
    pub code: u8,
    pub change: u16,
}

/// A field that needs no more than its number.
fn alone(code: u8) -> FieldCode
    ensures { result ≡ record { code = code; change = 0 } }
{
    FieldCode { code, change: 0 }
}

#[tactic(auto, unfolding(crate::specs::WireFields::field_from))]
fn token_code(field: TokenField) -> FieldCode
    ensures { fields.field_from result ≡ Some (of.Token field) }
{
    match field {
        TokenField::Length => alone(0x01),
        TokenField::LongLength => alone(0x02),
        TokenField::ChangeLength => alone(0x03),
        TokenField::Change { left } => FieldCode {
            code: 0x04,
            change: left,
        },
        TokenField::PromotedLength => alone(0x05),
        TokenField::PromotedOld => alone(0x06),
        TokenField::Feature => alone(0x07),
        TokenField::FeatureLength => alone(0x08),
        TokenField::Columns => alone(0x09),
    }
}

#[tactic(auto, unfolding(crate::specs::WireFields::field_from))]
fn key_code(field: KeyField) -> FieldCode
    ensures { fields.field_from result ≡ Some (of.Key field) }
{
    match field {
        KeyField::Keys => alone(0x11),
        KeyField::KeyValues => alone(0x12),
        KeyField::KeyValue => alone(0x13),
        KeyField::KeyStore => alone(0x14),
        KeyField::KeyPath => alone(0x15),
        KeyField::KeyAlgorithm => alone(0x16),
    }
}

#[tactic(auto, unfolding(crate::specs::WireFields::field_from))]
fn column_code(field: ColumnField) -> FieldCode
    ensures { fields.field_from result ≡ Some (of.Column field) }
{
    match field {
        ColumnField::ParameterName => alone(0x21),
        ColumnField::Flags => alone(0x22),
        ColumnField::TableParts => alone(0x23),
        ColumnField::TablePart => alone(0x24),
        ColumnField::Cipher => alone(0x25),
        ColumnField::CipherName => alone(0x26),
        ColumnField::ColumnName => alone(0x27),
        ColumnField::Nulls => alone(0x28),
    }
}

#[tactic(auto, unfolding(crate::specs::WireFields::field_from, crate::specs::WireFields::late_field_from))]
fn type_code(field: TypeField) -> FieldCode
    ensures { fields.field_from result ≡ Some (of.Type field) }
{
    match field {
        TypeField::Type => alone(0x31),
        TypeField::MaxLength { collated: false } => alone(0x32),
        TypeField::MaxLength { collated: true } => alone(0x33),
        TypeField::Schema => alone(0x34),
        TypeField::XmlDatabase => alone(0x35),
        TypeField::XmlOwner => alone(0x36),
        TypeField::XmlCollection => alone(0x37),
        TypeField::UdtDatabase => alone(0x38),
        TypeField::UdtSchema => alone(0x39),
        TypeField::UdtName => alone(0x3A),
        TypeField::UdtAssembly => alone(0x3B),
    }
}

#[tactic(auto, unfolding(crate::specs::WireFields::field_from, crate::specs::WireFields::late_field_from))]
fn value_code(field: ValueField) -> FieldCode
    ensures { fields.field_from result ≡ Some (of.Value field) }
{
    match field {
        ValueField::ByteCount => alone(0x41),
        ValueField::ShortCount => alone(0x42),
        ValueField::LongCount => alone(0x43),
        ValueField::PointerCount => alone(0x44),
        ValueField::PartsLow => alone(0x45),
        ValueField::PartsHigh { ones: false } => alone(0x46),
        ValueField::PartsHigh { ones: true } => alone(0x47),
        ValueField::PartCount => alone(0x48),
    }
}

#[tactic(auto, unfolding(crate::specs::WireFields::field_from, crate::specs::WireFields::late_field_from))]
fn label_code(field: LabelField) -> FieldCode
    ensures { fields.field_from result ≡ Some (of.Label field) }
{
    match field {
        LabelField::Labels { types: false } => alone(0x51),
        LabelField::Labels { types: true } => alone(0x52),
        LabelField::LabelName { types: false } => alone(0x53),
        LabelField::LabelName { types: true } => alone(0x54),
        LabelField::LabelId { types: false } => alone(0x55),
        LabelField::LabelId { types: true } => alone(0x56),
        LabelField::SensitiveColumns => alone(0x57),
        LabelField::Properties => alone(0x58),
    }
}

pub(crate) fn field_code(field: Field) -> FieldCode
    ensures { fields.field_from result ≡ Some field }
{
    match field {
        Field::Token(field) => token_code(field),
        Field::Key(field) => key_code(field),
        Field::Column(field) => column_code(field),
        Field::Type(field) => type_code(field),
        Field::Value(field) => value_code(field),
        Field::Label(field) => label_code(field),
    }
}

/// The field that a number is, where it is one.
#[tactic(auto, unfolding(crate::specs::WireFields::field_from))]
pub(crate) fn field_from(field: FieldCode) -> Option<Field>
    ensures { result ≡ fields.field_from field }
{
    let found = match field.code {
        0x01 => Field::Token(TokenField::Length),
        0x02 => Field::Token(TokenField::LongLength),
        0x03 => Field::Token(TokenField::ChangeLength),
        0x04 => Field::Token(TokenField::Change { left: field.change }),
        0x05 => Field::Token(TokenField::PromotedLength),
        0x06 => Field::Token(TokenField::PromotedOld),
        0x07 => Field::Token(TokenField::Feature),
        0x08 => Field::Token(TokenField::FeatureLength),
        0x09 => Field::Token(TokenField::Columns),
        0x11 => Field::Key(KeyField::Keys),
        0x12 => Field::Key(KeyField::KeyValues),
        0x13 => Field::Key(KeyField::KeyValue),
        0x14 => Field::Key(KeyField::KeyStore),
        0x15 => Field::Key(KeyField::KeyPath),
        0x16 => Field::Key(KeyField::KeyAlgorithm),
        0x21 => Field::Column(ColumnField::ParameterName),
        0x22 => Field::Column(ColumnField::Flags),
        0x23 => Field::Column(ColumnField::TableParts),
        0x24 => Field::Column(ColumnField::TablePart),
        0x25 => Field::Column(ColumnField::Cipher),
        0x26 => Field::Column(ColumnField::CipherName),
        0x27 => Field::Column(ColumnField::ColumnName),
        0x28 => Field::Column(ColumnField::Nulls),
        _ => return late_field_from(field.code),
    };
    Some(found)
}

/// The same of types, values and labels.
#[tactic(auto, unfolding(crate::specs::WireFields::late_field_from))]
fn late_field_from(code: u8) -> Option<Field>
    ensures { result ≡ fields.late_field_from code }
{
    let found = match code {
        0x31 => Field::Type(TypeField::Type),
        0x32 => Field::Type(TypeField::MaxLength { collated: false }),
        0x33 => Field::Type(TypeField::MaxLength { collated: true }),
        0x34 => Field::Type(TypeField::Schema),
        0x35 => Field::Type(TypeField::XmlDatabase),
        0x36 => Field::Type(TypeField::XmlOwner),
        0x37 => Field::Type(TypeField::XmlCollection),
        0x38 => Field::Type(TypeField::UdtDatabase),
        0x39 => Field::Type(TypeField::UdtSchema),
        0x3A => Field::Type(TypeField::UdtName),
        0x3B => Field::Type(TypeField::UdtAssembly),
        0x41 => Field::Value(ValueField::ByteCount),
        0x42 => Field::Value(ValueField::ShortCount),
        0x43 => Field::Value(ValueField::LongCount),
        0x44 => Field::Value(ValueField::PointerCount),
        0x45 => Field::Value(ValueField::PartsLow),
        0x46 => Field::Value(ValueField::PartsHigh { ones: false }),
        0x47 => Field::Value(ValueField::PartsHigh { ones: true }),
        0x48 => Field::Value(ValueField::PartCount),
        0x51 => Field::Label(LabelField::Labels { types: false }),
        0x52 => Field::Label(LabelField::Labels { types: true }),
        0x53 => Field::Label(LabelField::LabelName { types: false }),
        0x54 => Field::Label(LabelField::LabelName { types: true }),
        0x55 => Field::Label(LabelField::LabelId { types: false }),
        0x56 => Field::Label(LabelField::LabelId { types: true }),
        0x57 => Field::Label(LabelField::SensitiveColumns),
        0x58 => Field::Label(LabelField::Properties),
        _ => return None,
    };
    Some(found)
}
