//! Writing one token behind what a vector holds.

ghost use Rattle.std.specs.Prelude.{◌≡◌, ◌++◌, ◌∷◌, ℕ, ℤ, Option, OnOk, OnErr, length};
ghost use Rattle.std.specs.Int.{w16, w64, to_le_bytes};
ghost use Rattle.tds_token.specs.Layout.{Fits, IsInt, IsToken, Ranged, Under, columns_after, int_bytes, spelling};
ghost use Rattle.tds_token.specs.Vectors.{IsKept};

mod env_changes;
mod fields;
mod messages;
mod tables;

use crate::token::Token;
use crate::writing::env_changes::put_env_change;
use crate::writing::messages::put_message;
use crate::writing::tables::{put_columns, put_row};
use std::alloc::AllocError;

/// Appends the bytes that spell this token, which must fit (`Token::fits`). At want of memory the
/// vector is as it was.
pub fn put_token(out: &mut Vec<u8>, token: &Token) -> Result<(), AllocError>
    requires { Fits token.now }
    ensures ok { OnOk result (out.new.items ≡ out.old.items ++ spelling token.now) }
    // A row is a token under its own count of columns, every other token under any.
    ensures spelled { OnOk result ((columns : Option ℕ) → Under columns token.now
        → IsToken columns token.now (spelling token.now) (columns_after columns token.now)) }
    ensures err { OnErr result (out.new.items ≡ out.old.items) }
{
    let length = out.len();
    let result = put(out, token);
    if result.is_err() {
        out.truncate(length);
    }
    result
}

/// The same, but at want of memory a part of the token may stand behind what was there.
fn put(out: &mut Vec<u8>, token: &Token) -> Result<(), AllocError>
    requires { Fits token.now }
    ensures ok { OnOk result (out.new.items ≡ out.old.items ++ spelling token.now) }
    ensures ranged { OnOk result (Ranged token.now) }
    ensures kept { IsKept out.old.items out.new.items }
{
    match token {
        Token::Info(message) => put_message(out, 0xAB, message),
        Token::Error(message) => put_message(out, 0xAA, message),
        Token::ReturnStatus(value) => put_return_status(out, *value),
        Token::Columns(columns) => put_columns(out, columns.as_slice()),
        Token::Row(row) => put_row(out, row.as_slice()),
        Token::Env(change) => put_env_change(out, *change),
        Token::Done {
            status,
            cur_cmd,
            rows,
        } => put_done(out, *status, *cur_cmd, *rows),
    }
}

fn put_return_status(out: &mut Vec<u8>, value: i32) -> Result<(), AllocError>
    ensures ok { OnOk result (out.new.items ≡ out.old.items ++ 0x79 ∷ int_bytes value) }
    ensures ranged { IsInt value }
    ensures err { OnErr result (out.new.items ≡ out.old.items) }
{
    let v = value.to_le_bytes();
    out.extend_from_slice(&[0x79, v[0], v[1], v[2], v[3]])
}

fn put_done(out: &mut Vec<u8>, status: u16, cur_cmd: u16, rows: u64) -> Result<(), AllocError>
    ensures ok { OnOk result (out.new.items ≡ out.old.items
        ++ 0xFD ∷ (to_le_bytes w16 status ++ (to_le_bytes w16 cur_cmd ++ to_le_bytes w64 rows))) }
    ensures err { OnErr result (out.new.items ≡ out.old.items) }
{
    let s = status.to_le_bytes();
    let c = cur_cmd.to_le_bytes();
    let n = rows.to_le_bytes();
    out.extend_from_slice(&[
        0xFD, s[0], s[1], c[0], c[1], n[0], n[1], n[2], n[3], n[4], n[5], n[6], n[7],
    ])
}
