//! The fields of a description: each reader gives what the field says and the bytes behind it.

ghost use Rattle.std.specs.Prelude.{◌≡◌, ◌*◌, ◌+◌, ◌%◌};
ghost use Rattle.tds_rows.specs.Reading.{Gives};
ghost use Rattle.tds_wire.specs.Layout.{four, long_name, name, name_parts, one, run, two};

use crate::place::RowFault;

/// Bytes that are passed over.
pub(crate) fn pass(bytes: &[u8], count: usize) -> Result<&[u8], RowFault>
    ensures { Gives (λ _. tt) (λ rest. rest.now) result (run count bytes.now) }
{
    if bytes.len() < count {
        return Err(RowFault::Short);
    }
    Ok(&bytes[count..])
}

/// A number of one byte.
pub(crate) fn one(bytes: &[u8]) -> Result<(u8, &[u8]), RowFault>
    ensures { Gives (λ x. x.0) (λ x. x.1.now) result (one bytes.now) }
{
    let [a, rest @ ..] = bytes else {
        return Err(RowFault::Short);
    };
    Ok((*a, rest))
}

/// A number of two bytes.
pub(crate) fn two(bytes: &[u8]) -> Result<(u16, &[u8]), RowFault>
    ensures { Gives (λ x. x.0) (λ x. x.1.now) result (two bytes.now) }
{
    let [a, b, rest @ ..] = bytes else {
        return Err(RowFault::Short);
    };
    Ok((u16::from(*a) + 256 * u16::from(*b), rest))
}

/// A number of four bytes.
pub(crate) fn four(bytes: &[u8]) -> Result<(u32, &[u8]), RowFault>
    ensures { Gives (λ x. x.0) (λ x. x.1.now) result (four bytes.now) }
{
    let [a, b, c, d, rest @ ..] = bytes else {
        return Err(RowFault::Short);
    };
    let number = u32::from(*a)
        + 256 * u32::from(*b)
        + 65_536 * u32::from(*c)
        + 16_777_216 * u32::from(*d);
    Ok((number, rest))
}

/// A text behind the count of its units, in one byte.
pub(crate) fn name(bytes: &[u8]) -> Result<&[u8], RowFault>
    ensures { Gives (λ _. tt) (λ rest. rest.now) result (name bytes.now) }
{
    let (count, rest) = one(bytes)?;
    pass(rest, 2 * usize::from(count))
}

/// The same behind a count in two bytes.
pub(crate) fn long_name(bytes: &[u8]) -> Result<&[u8], RowFault>
    ensures { Gives (λ _. tt) (λ rest. rest.now) result (long_name bytes.now) }
{
    let (count, rest) = two(bytes)?;
    pass(rest, 2 * usize::from(count))
}

/// The parts of a table's name.
pub(crate) fn name_parts(bytes: &[u8], count: u8) -> Result<&[u8], RowFault>
    ensures { Gives (λ _. tt) (λ rest. rest.now) result (name_parts count bytes.now) }
{
    let mut left = count;
    let mut rest = bytes;
    'parts: while left > 0 {
        match long_name(rest) {
            Ok(more) => rest = more,
            Err(fault) => return Err(fault),
        }
        left -= 1;
    }
    Ok(rest)
}
