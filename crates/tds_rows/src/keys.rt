//! What is passed before columns and inside them: tables of keys, crypto metadata, names of tables (MS-TDS 2.2.7.4).

ghost use Rattle.std.specs.Prelude.{◌≡◌};
ghost use Rattle.tds_rows.specs.Columns.{column_key, key_value};
ghost use Rattle.tds_rows.specs.Reading.{Gives};
ghost use Rattle.tds_wire.specs.Layout.{cipher_at, cipher_if, key_table, key_values, keys_at, table_at};
ghost use Rattle.tds_wire.specs.declared.shape.Shape.TheVariants as shapes;

use crate::fields::{long_name, name, name_parts, one, pass, two};
use crate::place::RowFault;
use crate::types::type_at;
use tds_wire::Shape;

/// A key's value, the name of its store, the path there, the algorithm.
fn key_value(bytes: &[u8]) -> Result<&[u8], RowFault>
    ensures { Gives (λ _. tt) (λ rest. rest.now) result (key_value bytes.now) }
{
    let (count, rest) = two(bytes)?;
    let rest = pass(rest, usize::from(count))?;
    let rest = name(rest)?;
    let rest = long_name(rest)?;
    name(rest)
}

fn key_values(bytes: &[u8], count: u8) -> Result<&[u8], RowFault>
    ensures { Gives (λ _. tt) (λ rest. rest.now) result (key_values count bytes.now) }
{
    let mut left = count;
    let mut rest = bytes;
    'values: while left > 0 {
        match key_value(rest) {
            Ok(more) => rest = more,
            Err(fault) => return Err(fault),
        }
        left -= 1;
    }
    Ok(rest)
}

/// Database, number, versions, and the values.
fn key(bytes: &[u8]) -> Result<&[u8], RowFault>
    ensures { Gives (λ _. tt) (λ rest. rest.now) result (column_key bytes.now) }
{
    let rest = pass(bytes, 20)?;
    let (count, rest) = one(rest)?;
    key_values(rest, count)
}

fn keys(bytes: &[u8], count: u16) -> Result<&[u8], RowFault>
    ensures { Gives (λ _. tt) (λ rest. rest.now) result (keys_at count bytes.now) }
{
    let mut left = count;
    let mut rest = bytes;
    'keys: while left > 0 {
        match key(rest) {
            Ok(more) => rest = more,
            Err(fault) => return Err(fault),
        }
        left -= 1;
    }
    Ok(rest)
}

/// The table of keys, where there is one.
pub(crate) fn key_table(encryption: bool, bytes: &[u8]) -> Result<&[u8], RowFault>
    ensures { Gives (λ _. tt) (λ rest. rest.now) result (key_table encryption bytes.now) }
{
    if !encryption {
        return Ok(bytes);
    }
    let (count, rest) = two(bytes)?;
    keys(rest, count)
}

/// What an encrypted column has when it is decrypted.
fn cipher(bytes: &[u8]) -> Result<&[u8], RowFault>
    ensures { Gives (λ _. tt) (λ rest. rest.now) result (cipher_at 2 bytes.now) }
{
    let rest = pass(bytes, 6)?;
    let (_, rest) = type_at(rest)?;
    let (algorithm, rest) = one(rest)?;
    if algorithm != 0 {
        return pass(rest, 2);
    }
    let (count, rest) = one(rest)?;
    pass(rest, 2 * usize::from(count) + 2)
}

pub(crate) fn cipher_if(ciphered: bool, bytes: &[u8]) -> Result<&[u8], RowFault>
    ensures { Gives (λ _. tt) (λ rest. rest.now) result (cipher_if ciphered 2 bytes.now) }
{
    if ciphered { cipher(bytes) } else { Ok(bytes) }
}

/// The name of a table, behind the type of a column with text pointers.
pub(crate) fn table(shape: Shape, bytes: &[u8]) -> Result<&[u8], RowFault>
    ensures { Gives (λ _. tt) (λ rest. rest.now) result (table_at shape bytes.now) }
{
    match shape {
        Shape::Fixed(_) => Ok(bytes),
        Shape::Byte => Ok(bytes),
        Shape::Short => Ok(bytes),
        Shape::Long => Ok(bytes),
        Shape::Pointer => table_name(bytes),
        Shape::Parts => Ok(bytes),
    }
}

fn table_name(bytes: &[u8]) -> Result<&[u8], RowFault>
    ensures { Gives (λ _. tt) (λ rest. rest.now) result
        (table_at shapes.Pointer bytes.now) }
{
    let (count, rest) = one(bytes)?;
    name_parts(rest, count)
}
