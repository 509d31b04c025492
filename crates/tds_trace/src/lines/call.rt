//! The line of a call.
ghost use Rattle.std.specs.Prelude.{◌≡◌, ◌++◌, OnOk, string_bytes};
ghost use Rattle.std.specs.List.{flat_map};
ghost use Rattle.tds_text.specs.Texts.{hex2};
ghost use Rattle.tds_trace.specs.Lines.{bytes_head, bytes_text, call_head, call_json, direction_word, made_bytes, made_word, truth};

use crate::call::{Call, Made};
use std::alloc::AllocError;
use std::fmt::Write;
use tds_packet::Direction;
use tds_text::put_hex2;

/// Appends the line of a call.
pub(super) fn put_call(text: &mut String, call: &Call) -> Result<(), AllocError>
    ensures { OnOk result (string_bytes text.new ≡ string_bytes text.old ++ call_json call.now) }
{
    put_head(text, call)?;
    put_made(text, &call.made)?;
    text.push_str(",\"failed\":")?;
    put_truth(text, call.failed)?;
    text.push_str("}\n")
}

#[tactic(auto, unfolding(crate::specs::Lines::call_head))]
fn put_head(text: &mut String, call: &Call) -> Result<(), AllocError>
    ensures { OnOk result (string_bytes text.new ≡ string_bytes text.old ++ call_head call.now) }
{
    let Call {
        event,
        conn,
        made,
        ..
    } = call;
    let word = made_word_of(made);
    write!(
        text,
        "{{\"event\":{event},\"connection\":{conn},\"call\":\"{word}\""
    )
}

/// Appends the bytes of what was asked, where it has bytes.
fn put_made(text: &mut String, made: &Made) -> Result<(), AllocError>
    ensures { OnOk result (string_bytes text.new ≡ string_bytes text.old ++ made_bytes made.now) }
{
    match made {
        Made::Send(direction, bytes) | Made::Carry(direction, bytes) => {
            put_bytes(text, *direction, bytes.as_slice())
        }
        Made::Open | Made::Cut => Ok(()),
    }
}

fn put_bytes(text: &mut String, direction: Direction, bytes: &[u8]) -> Result<(), AllocError>
    ensures { OnOk result
        (string_bytes text.new ≡ string_bytes text.old ++ bytes_text direction bytes.now) }
{
    put_bytes_head(text, direction)?;
    put_digits(text, bytes)?;
    text.push_str("\"")
}

#[tactic(auto, unfolding(crate::specs::Lines::bytes_head))]
fn put_bytes_head(text: &mut String, direction: Direction) -> Result<(), AllocError>
    ensures { OnOk result
        (string_bytes text.new ≡ string_bytes text.old ++ bytes_head direction) }
{
    let word = direction_word_of(direction);
    write!(text, ",\"direction\":\"{word}\",\"bytes\":\"")
}

/// Appends two digits for each byte.
fn put_digits(text: &mut String, bytes: &[u8]) -> Result<(), AllocError>
    ensures { OnOk result
        (string_bytes text.new ≡ string_bytes text.old ++ flat_map hex2 bytes.now) }
{
    for byte in bytes {
        put_hex2(text, *byte)?;
    }
    Ok(())
}

pub(super) fn put_truth(text: &mut String, is_so: bool) -> Result<(), AllocError>
    ensures { OnOk result (string_bytes text.new ≡ string_bytes text.old ++ truth is_so) }
{
    text.push_str(if is_so { "true" } else { "false" })
}

fn made_word_of(made: &Made) -> &'static str
    ensures { result.now ≡ made_word made.now }
{
    match made {
        Made::Open => "open",
        Made::Send(..) => "send",
        Made::Carry(..) => "carry",
        Made::Cut => "cut",
    }
}

fn direction_word_of(direction: Direction) -> &'static str
    ensures { result.now ≡ direction_word direction }
{
    match direction {
        Direction::ToServer => "to_server",
        Direction::ToClient => "to_client",
    }
}
