ghost use Rattle.std.specs.Prelude.{◌≡◌, ◌≤◌, ◌∷◌, None, Some, IfOk, SomeIff, length};
ghost use Rattle.tds_token.specs.Texts.{AreColumns};
ghost use Rattle.tds_token.specs.Layout.{column_of, columns_after, token_of};
ghost use Rattle.tds_token.specs.Lent.{IsColumnList, others_of};
ghost use Rattle.tds_token.specs.Reading.{column_list_at, columns_of, list_or_none};

use crate::fault::TokenFault;
use crate::reading::{column, number16};
use crate::text::{Text, TextRef};
use crate::token::TokenRef;
use std::alloc::{AllocError, Global};
use std::marker::Model;

/// What is told of a column: its user type, its flags and its name (MS-TDS 2.2.7.4). Its type is
/// always INT4.
#[derive(Debug, Drop)]
pub struct Column {
    pub user_type: u32,
    pub flags: u16,
    pub name: Text,
}

/// A column whose name lies in a packet's data.
#[derive(Debug, Drop)]
pub struct ColumnRef<'a> {
    pub user_type: u32,
    pub flags: u16,
    pub name: TextRef<'a>,
}

impl<'a> ColumnRef<'a> {
    /// The same column, in memory of its own.
    pub fn own(&self, alloc: Global) -> Result<Column, AllocError>
        ensures { IfOk result (λ column. column ≡ column_of self.now) }
    {
        Ok(Column {
            user_type: self.user_type,
            flags: self.flags,
            name: self.name.own(alloc)?,
        })
    }
}

/// The columns of a result, from left to right.
#[derive(Debug, Drop)]
pub struct ColumnList {
    columns: Vec<Column>,
}

impl Model for ColumnList {
    ghost use Rattle.std.specs.Prelude.{List};
    ghost use Rattle.tds_token.specs.declared.columns.Column.{Column};

    ghost Value = { List Column };

    ghost view = { λ a. a.columns.items };
}

impl ColumnList {
    /// The list of these columns.
    pub fn new(columns: Vec<Column>) -> ColumnList
        ensures { result ≡ columns.items }
    {
        ColumnList { columns }
    }

    /// The columns.
    pub fn as_slice(&self) -> &[Column]
        ensures { result.now ≡ self.now }
    {
        self.columns.as_slice()
    }

    /// The columns, given back.
    pub fn into_vec(self) -> Vec<Column>
        ensures { result.items ≡ self }
    {
        self.columns
    }
}

/// Columns that lie in a packet's data, 1 to 16.
#[derive(Debug, Drop)]
pub struct ColumnsRef<'a> {
    /// The count in two bytes, and then one column behind the other.
    bytes: &'a [u8],
}

impl<'a> Model for ColumnsRef<'a> {
    ghost use Rattle.std.specs.Prelude.{List};
    ghost use Rattle.tds_token.specs.declared.columns.Column.{Column};

    ghost Value = { List Column };

    ghost use Rattle.tds_token.specs.Lent.{lent_columns, AreLentColumns};

    ghost view = { lent_columns };

    ghost invariant = { AreLentColumns };
}

impl<'a> ColumnsRef<'a> {
    /// The columns at the front of these bytes, behind their count.
    pub(crate) fn new(bytes: &'a [u8]) -> ColumnsRef<'a>
        requires { IsColumnList bytes.now }
        ensures { result ≡ list_or_none (column_list_at bytes.now) }
    {
        ColumnsRef { bytes }
    }

    /// How many columns there are.
    pub fn count(&self) -> u8
        ensures value { result ≡ length self.now }
        ensures least { 1 ≤ result }
        ensures most { result ≤ 16 }
    {
        self.all().count()
    }

    /// The first column, and the others, if there are any.
    pub fn split_first(&self) -> (ColumnRef<'a>, Option<ColumnsLeft<'a>>)
        ensures { self.now ≡ column_of result.0 ∷ others_of result.1 }
    {
        self.all().split_first()
    }

    /// The same columns, in memory of their own.
    pub fn own(&self, alloc: Global) -> Result<ColumnList, AllocError>
        ensures { IfOk result (λ columns. columns ≡ self.now) }
    {
        self.all().own(alloc)
    }

    fn all(&self) -> ColumnsLeft<'a>
        ensures { result ≡ self.now }
    {
        let Ok((count, rest)) = number16(self.bytes, TokenFault::Cut) else {
            unreachable!();
        };
        ColumnsLeft::new(count as u8, rest)
    }
}

/// The columns of a result that are left, 1 to 16.
#[derive(Debug, Drop)]
pub struct ColumnsLeft<'a> {
    count: u8,
    bytes: &'a [u8],
}

impl<'a> Model for ColumnsLeft<'a> {
    ghost use Rattle.std.specs.Prelude.{List};
    ghost use Rattle.tds_token.specs.declared.columns.Column.{Column};

    ghost Value = { List Column };

    ghost use Rattle.tds_token.specs.Lent.{columns_left, AreColumnsLeft};

    ghost view = { columns_left };

    ghost invariant = { AreColumnsLeft };
}

impl<'a> ColumnsLeft<'a> {
    /// The columns at the front of these bytes.
    fn new(count: u8, bytes: &'a [u8]) -> ColumnsLeft<'a>
        requires whole { length (columns_of count bytes.now) ≡ count }
        requires least { 1 ≤ count }
        requires most { count ≤ 16 }
        ensures { result ≡ columns_of count bytes.now }
    {
        ColumnsLeft { count, bytes }
    }

    /// How many columns there are.
    pub fn count(&self) -> u8
        ensures value { result ≡ length self.now }
        ensures least { 1 ≤ result }
        ensures most { result ≤ 16 }
    {
        self.count
    }

    /// The first column and the others, if there are any.
    pub fn split_first(&self) -> (ColumnRef<'a>, Option<ColumnsLeft<'a>>)
        ensures { self.now ≡ column_of result.0 ∷ others_of result.1 }
    {
        let Ok((first, rest)) = column(self.bytes) else {
            unreachable!();
        };
        let count = self.count - 1;
        if count == 0 {
            return (first, None);
        }
        (first, Some(ColumnsLeft::new(count, rest)))
    }

    /// The same columns, in memory of their own.
    pub fn own(&self, alloc: Global) -> Result<ColumnList, AllocError>
        ensures { IfOk result (λ columns. columns ≡ self.now) }
    {
        let columns = columns_from(alloc, self.count, self.bytes)?;
        Ok(ColumnList { columns })
    }
}

fn columns_from(alloc: Global, count: u8, bytes: &[u8]) -> Result<Vec<Column>, AllocError>
    requires whole { length (columns_of count bytes.now) ≡ count }
    requires least { 1 ≤ count }
    ensures { IfOk result (λ columns. columns.items ≡ columns_of count bytes.now) }
{
    let mut columns = Vec::with_capacity(alloc, usize::from(count))?;
    let mut rest = bytes;
    'columns: for _ in 0..count {
        let Ok((first, after)) = column(rest) else {
            unreachable!();
        };
        columns.push(first.own(alloc)?)?;
        rest = after;
    }
    Ok(columns)
}

/// How many values a row has, where that is known: none, or 1 to 16. A COLMETADATA tells it, and
/// a DONE ends it.
#[derive(Clone, Copy, Debug, PartialEq, Eq)]
pub struct Columns(Option<u8>);

impl Model for Columns {
    ghost use Rattle.std.specs.Prelude.{ℕ, Option};
    ghost use Rattle.tds_token.specs.Texts.{AreColumns};

    ghost Value = { Option ℕ };

    ghost view = { λ a. a.0 };

    ghost invariant = { λ a. AreColumns a.0 };

    ghost inverse = { λ n. record { 0 = n } };
}

impl Columns {
    /// No columns are known.
    pub fn none() -> Columns
        ensures { result ≡ None }
    {
        Columns(None)
    }

    /// This count of columns is known: 1 to 16. No other count is answered.
    pub fn of(count: u8) -> Option<Columns>
        ensures { SomeIff result (AreColumns (Some count)) (Some count) }
    {
        if count == 0 || count > 16 {
            return None;
        }
        Some(Columns(Some(count)))
    }

    /// The count, where it is known.
    pub fn count(self) -> Option<u8>
        ensures value { result ≡ self }
        ensures range { AreColumns self }
    {
        self.0
    }

    /// What is known behind this token.
    pub(crate) fn after(self, token: &TokenRef<'_>) -> Columns
        ensures value { result ≡ columns_after self (token_of token.now) }
        ensures known { AreColumns result }
    {
        match token {
            TokenRef::Columns(columns) => Columns(Some(columns.count())),
            TokenRef::Done { .. } => Columns(None),
            TokenRef::Info(_)
            | TokenRef::Error(_)
            | TokenRef::ReturnStatus(_)
            | TokenRef::Env(_)
            | TokenRef::Row(_) => self,
        }
    }
}
