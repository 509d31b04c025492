//! Leaves a token where it is wanted. It is large, so each kind that most answers have is written there at
//! once, and never carried over from what other kinds have.

ghost use Rattle.std.specs.Prelude.{◌≡◌, ◌≤◌, Some};
ghost use Rattle.tds_wire.specs.Told.{byte_at, change_of, told_of};

use crate::told::reading::{byte_at, done_of, long_at, told_of};
use crate::told::{Change, ChangeValue, Token, Told};

/// A token of any kind.
#[inline(never)]
fn put_other(kind: u8, start: u64, length: u64, head: &[u8], token: &mut Option<Token>)
    ensures { token.new ≡ Some (record {
      kind = kind;
      start = start;
      length = length;
      told = told_of kind start length head.now;
    }) }
{
    *token = Some(Token {
        kind,
        start,
        length,
        told: told_of(kind, start, length, head),
    });
}

/// An ENVCHANGE. Each answer of a connection that was lent before has the end of a reset.
#[tactic(auto, unfolding(crate::specs::Told::told_of, crate::specs::Told::change_value))]
#[inline(always)]
fn put_change(start: u64, length: u64, head: &[u8], token: &mut Option<Token>)
    ensures { token.new ≡ Some (record {
      kind = 0xE3;
      start = start;
      length = length;
      told = told_of 0xE3 start length head.now;
    }) }
{
    if length >= 4 && byte_at(head, 3) == 18 {
        *token = Some(Token {
            kind: 0xE3,
            start,
            length,
            told: Told::Change(Change {
                kind: 18,
                value: ChangeValue::ResetDone,
            }),
        });
    } else {
        put_other(0xE3, start, length, head, token);
    }
}

/// The token of this kind that starts here and has so many bytes, of which these are the first.
#[tactic(auto, unfolding(crate::specs::Told::told_of))]
#[inline(always)]
pub(crate) fn put_token(kind: u8, start: u64, length: u64, head: &[u8], token: &mut Option<Token>)
    ensures { token.new ≡ Some (record {
      kind = kind;
      start = start;
      length = length;
      told = told_of kind start length head.now;
    }) }
{
    match kind {
        0xFD | 0xFE | 0xFF => {
            *token = Some(Token {
                kind,
                start,
                length,
                told: done_of(head),
            });
        }
        0x79 => {
            *token = Some(Token {
                kind: 0x79,
                start,
                length,
                told: Told::ReturnStatus(long_at(head, 1).cast_signed()),
            });
        }
        0xE3 => put_change(start, length, head, token),
        _ => put_other(kind, start, length, head, token),
    }
}
