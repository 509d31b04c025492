ghost use Rattle.std.specs.Prelude.{◌≡◌, IfOk};
ghost use Rattle.tds_token.specs.Layout.{is_env, is_row, token_of};

use crate::columns::{ColumnList, ColumnsRef};
use crate::env_change::EnvChange;
use crate::message::{Message, MessageRef};
use crate::row::{Row, RowRef};
use std::alloc::{AllocError, Global};
use std::mem::size_of;

/// A token (MS-TDS 2.2.7), in memory of its own.
#[derive(Debug, Drop)]
pub enum Token {
    /// `AB`: a message that is no error.
    Info(Message),
    /// `AA`: an error.
    Error(Message),
    /// `79`: a status that was returned.
    ReturnStatus(i32),
    /// `81`, COLMETADATA: the columns of the rows that follow.
    Columns(ColumnList),
    /// `D1`: a row.
    Row(Row),
    /// `E3`, ENVCHANGE: a change of the session.
    Env(EnvChange),
    /// `FD`: a statement is done. `rows` counts its rows where bit `0010` of the status is set.
    Done {
        status: u16,
        cur_cmd: u16,
        rows: u64,
    },
}

/// A token whose texts, columns and rows lie in a packet's data.
#[derive(Debug, Drop)]
pub enum TokenRef<'a> {
    Info(MessageRef<'a>),
    Error(MessageRef<'a>),
    ReturnStatus(i32),
    Columns(ColumnsRef<'a>),
    Row(RowRef<'a>),
    Env(EnvChange),
    Done {
        status: u16,
        cur_cmd: u16,
        rows: u64,
    },
}

/// What a walk over tokens moves for each of them.
const _: () = prove!(size_of::<TokenRef<'static>>() == 24);

impl<'a> TokenRef<'a> {
    /// Whether it is an ENVCHANGE.
    pub fn is_env(&self) -> bool
        ensures { result ≡ is_env (token_of self.now) }
    {
        matches!(self, TokenRef::Env(_))
    }

    /// Whether it is a row.
    pub fn is_row(&self) -> bool
        ensures { result ≡ is_row (token_of self.now) }
    {
        matches!(self, TokenRef::Row(_))
    }

    /// The same token, in memory of its own.
    pub fn own(&self, alloc: Global) -> Result<Token, AllocError>
        ensures { IfOk result (λ token. token ≡ token_of self.now) }
    {
        Ok(match self {
            TokenRef::Info(message) => Token::Info(message.own(alloc)?),
            TokenRef::Error(message) => Token::Error(message.own(alloc)?),
            TokenRef::ReturnStatus(value) => Token::ReturnStatus(*value),
            TokenRef::Columns(columns) => Token::Columns(columns.own(alloc)?),
            TokenRef::Row(row) => Token::Row(row.own(alloc)?),
            TokenRef::Env(change) => Token::Env(*change),
            TokenRef::Done {
                status,
                cur_cmd,
                rows,
            } => Token::Done {
                status: *status,
                cur_cmd: *cur_cmd,
                rows: *rows,
            },
        })
    }
}
