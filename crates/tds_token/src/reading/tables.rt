//! What stands behind the token byte of a COLMETADATA or a ROW (MS-TDS 2.2.7.4, 2.2.7.20).

ghost use Rattle.std.specs.Prelude.{◌≡◌, IfSome, Ok};
ghost use Rattle.tds_token.specs.declared.token.Token.TheVariants.{Row};
ghost use Rattle.tds_token.specs.AsTokens.{columns_token_at};
ghost use Rattle.tds_token.specs.Layout.{column_of, token_of};
ghost use Rattle.tds_token.specs.Reading.{Gives, after_of, column_at, columns_at, columns_of, row_under, token_at};

use crate::columns::{ColumnRef, Columns, ColumnsRef};
use crate::fault::TokenFault;
use crate::reading::fields::{byte, number16, number32, run, units};
use crate::row::RowRef;
use crate::token::TokenRef;

/// A column.
#[tactic(auto, unfolding(crate::specs::Reading::column_at))]
#[inline(always)]
pub(crate) fn column(bytes: &[u8]) -> Result<(ColumnRef<'_>, &[u8]), TokenFault>
    ensures { Gives (λ x. (column_of x.0, x.1.now)) result (column_at bytes.now) }
{
    let (user_type, rest) = number32(bytes, TokenFault::Cut)?;
    let (flags, rest) = number16(rest, TokenFault::Cut)?;
    let (kind, rest) = byte(rest, TokenFault::Cut)?;
    if kind != 0x38 {
        return Err(TokenFault::WrongColumn);
    }
    let (n, rest) = byte(rest, TokenFault::Cut)?;
    if n > 10 {
        return Err(TokenFault::WrongColumn);
    }
    let (name, rest) = units(rest, usize::from(n), TokenFault::Cut)?;
    Ok((
        ColumnRef {
            user_type,
            flags,
            name,
        },
        rest,
    ))
}

/// The bytes behind a column, which must be right.
#[inline(always)]
fn skip_column(bytes: &[u8]) -> Result<&[u8], TokenFault>
    ensures { Gives (λ x. x.now) result (after_of (column_at bytes.now)) }
{
    let (_, rest) = column(bytes)?;
    Ok(rest)
}

/// The bytes behind so many columns, which must be right.
// A result has its columns once: a row is looked for first.
#[cold]
fn skip_columns(count: u8, bytes: &[u8]) -> Result<&[u8], TokenFault>
    ensures { Gives (λ x. x.now) result (after_of (columns_at count bytes.now)) }
{
    let mut rest = bytes;
    'columns: for _ in 0..count {
        rest = skip_column(rest)?;
    }
    Ok(rest)
}

#[tactic(auto, unfolding(crate::specs::Reading::column_list_at))]
#[inline(always)]
pub(crate) fn column_list(bytes: &[u8]) -> Result<(TokenRef<'_>, &[u8]), TokenFault>
    ensures { Gives (λ x. (token_of x.0, x.1.now)) result (columns_token_at bytes.now) }
{
    let (count, rest) = number16(bytes, TokenFault::Cut)?;
    if count == 0 || count > 16 {
        return Err(TokenFault::WrongColumn);
    }
    let count = count as u8;
    let after = skip_columns(count, rest)?;
    Ok((TokenRef::Columns(ColumnsRef::new(bytes)), after))
}

/// A row, where it is known how many values it has.
#[tactic(auto, unfolding(crate::specs::Reading::row_at))]
pub(crate) fn row(columns: Columns, bytes: &[u8]) -> Result<(TokenRef<'_>, &[u8]), TokenFault>
    ensures { Gives (λ x. (token_of x.0, x.1.now)) result (row_under columns bytes.now) }
{
    let Some(count) = columns.count() else {
        return Err(TokenFault::NoColumns);
    };
    let (front, rest) = run(bytes, 4 * usize::from(count), TokenFault::Cut)?;
    Ok((TokenRef::Row(RowRef::new(front)), rest))
}

/// The row at the front, its token byte and all its values, and the bytes after it.
///
/// It is what `token` gives: apart from the other tokens, it is a straight way through few
/// instructions.
#[tactic(auto, unfolding(crate::specs::Reading::token_at, crate::specs::Reading::token_behind, crate::specs::Reading::row_at))]
#[inline(always)]
pub(crate) fn whole_row(columns: Columns, bytes: &[u8]) -> Option<(RowRef<'_>, &[u8])>
    ensures { IfSome result (λ x. token_at columns bytes.now ≡ Ok (Row x.0, x.1.now)) }
{
    let [0xD1, behind @ ..] = bytes else {
        return None;
    };
    let size = 4 * usize::from(columns.count()?);
    if behind.len() < size {
        return None;
    }
    let (front, rest) = behind.split_at(size);
    Some((RowRef::new(front), rest))
}
