//! A token that ended as a plain value.

ghost use Rattle.std.specs.Prelude.{◌≡◌, pos};
ghost use Rattle.tds_walk.specs.WireTokens.{Shows, ShowsChange, bare};
ghost use Rattle.tds_wire.specs.declared.told.Told.TheVariants as told;

use tds_wire::{Change, ChangeValue, Done, Place, Token, Told};

/// Bytes of a message: `struct tds_wire_place`.
#[repr(C)]
#[derive(Clone, Copy)]
pub struct TdsWirePlace {
    pub start: u64,
    pub length: u64,
}

/// A token that ended: `struct tds_wire_token`. A field that its kind does not have is 0.
#[repr(C)]
#[derive(Clone, Copy)]
pub struct TdsWireToken {
    /// Its first byte's place in the message, and its length.
    pub start: u64,
    pub length: u64,
    /// The count of a DONE; the descriptors of an ENVCHANGE.
    pub value: u64,
    pub old_value: u64,
    /// A text, and the names behind it; the values of an ENVCHANGE; a session's states.
    pub text: TdsWirePlace,
    pub others: TdsWirePlace,
    /// The number of an ERROR or INFO; a RETURNSTATUS.
    pub number: i32,
    /// The size of packets; the number of a SESSIONSTATE.
    pub size: u32,
    pub status: u16,
    pub command: u16,
    /// Its first byte.
    pub kind: u8,
    /// What is told of it: one of TDS_WIRE_TELLS_..
    pub told: u8,
    /// The type of an ENVCHANGE.
    pub change: u8,
    pub state: u8,
    pub severity: u8,
    pub recoverable: u8,
}

fn nowhere() -> TdsWirePlace
    ensures { result ≡ record { start = 0; length = 0 } }
{
    TdsWirePlace {
        start: 0,
        length: 0,
    }
}

fn placed(place: Place) -> TdsWirePlace
    ensures { result ≡ record { start = place.start; length = place.length } }
{
    TdsWirePlace {
        start: place.start,
        length: place.length,
    }
}

/// A token of which nothing is told but this.
fn bare(token: &Token, told: u8) -> TdsWireToken
    ensures { result ≡ bare token.now told }
{
    TdsWireToken {
        start: token.start,
        length: token.length,
        value: 0,
        old_value: 0,
        text: nowhere(),
        others: nowhere(),
        number: 0,
        size: 0,
        status: 0,
        command: 0,
        kind: token.kind,
        told,
        change: 0,
        state: 0,
        severity: 0,
        recoverable: 0,
    }
}

fn shown_change(token: &Token, change: Change) -> TdsWireToken
    ensures { ShowsChange result token.now change.kind change.value }
{
    let kind = change.kind;
    match change.value {
        ChangeValue::Transaction { new, old } => TdsWireToken {
            value: new,
            old_value: old,
            change: kind,
            ..bare(token, 2)
        },
        ChangeValue::ResetDone => TdsWireToken {
            change: kind,
            ..bare(token, 3)
        },
        ChangeValue::PacketSize(size) => TdsWireToken {
            size,
            change: kind,
            ..bare(token, 4)
        },
        ChangeValue::Values { new, old } => TdsWireToken {
            text: placed(new),
            others: placed(old),
            change: kind,
            ..bare(token, 5)
        },
        ChangeValue::Other => TdsWireToken {
            change: kind,
            ..bare(token, 6)
        },
    }
}

fn shown_done(token: &Token, done: Done) -> TdsWireToken
    ensures { Shows result token.now (told.Done done) }
{
    TdsWireToken {
        value: done.count,
        status: done.status,
        command: done.command,
        ..bare(token, 1)
    }
}

fn shown_status(token: &Token, number: i32) -> TdsWireToken
    ensures { Shows result token.now (told.ReturnStatus number) }
{
    TdsWireToken {
        number,
        ..bare(token, 8)
    }
}

/// The token as a plain value.
pub(crate) fn shown(token: &Token) -> TdsWireToken
    ensures { Shows result token.now token.now.told }
{
    match token.told {
        Told::Other => bare(token, 0),
        Told::Done(done) => shown_done(token, done),
        Told::Change(change) => shown_change(token, change),
        Told::Message(message) => TdsWireToken {
            text: placed(message.text),
            others: placed(message.names),
            number: message.number,
            state: message.state,
            severity: message.class,
            ..bare(token, 7)
        },
        Told::ReturnStatus(number) => shown_status(token, number),
        Told::SessionState(state) => TdsWireToken {
            text: placed(state.states),
            size: state.sequence,
            recoverable: if state.is_recoverable { 1 } else { 0 },
            ..bare(token, 9)
        },
        Told::Unclear => bare(token, 10),
    }
}

/// Leaves it in a place of the caller's.
#[inline(never)]
fn put_other(token: &Token, value: &mut TdsWireToken)
    ensures { Shows value.new token.now token.now.told }
{
    *value = shown(token);
}

/// The same. It is large, so what most answers have is written there at once.
#[inline(always)]
pub fn put_shown(token: &Token, value: &mut TdsWireToken)
    ensures { Shows value.new token.now token.now.told }
{
    match token.told {
        Told::Done(done) => {
            *value = shown_done(token, done);
        }
        Told::ReturnStatus(number) => {
            *value = shown_status(token, number);
        }
        Told::Change(change) => put_change(token, change, value),
        _ => put_other(token, value),
    }
}

/// The same of an ENVCHANGE. Each answer of a connection that was lent before has the end of a reset.
#[inline(always)]
fn put_change(token: &Token, change: Change, value: &mut TdsWireToken)
    requires { token.now.told ≡ told.Change change }
    ensures { Shows value.new token.now token.now.told }
{
    match change.value {
        ChangeValue::ResetDone => {
            *value = TdsWireToken {
                change: change.kind,
                ..bare(token, 3)
            };
        }
        _ => put_other(token, value),
    }
}
