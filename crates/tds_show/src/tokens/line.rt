//! The lines of tokens and faults.
ghost use Rattle.std.specs.Prelude.{◌≡◌, ◌++◌, OnOk, string_bytes};
ghost use Rattle.tds_show.specs.Lines.{change_text, done_text, number_line, packet_line, place_text, refused_line, token_line, told_text, wire_words};

use std::alloc::AllocError;
use std::fmt::Write;
use tds_packet::PacketFault;
use tds_text::{put_hex2, put_hex4};
use tds_wire::{Done, Token, Told, WireFault};

/// Appends the line of a token.
pub(crate) fn put_token(text: &mut String, token: &Token) -> Result<(), AllocError>
    ensures { OnOk result (string_bytes text.new ≡ string_bytes text.old ++ token_line token.now) }
{
    put_place(text, token)?;
    put_told(text, &token.told)?;
    text.push_str("\n")
}

/// Appends where a token stands, its kind and its length.
fn put_place(text: &mut String, token: &Token) -> Result<(), AllocError>
    ensures { OnOk result (string_bytes text.new ≡ string_bytes text.old ++ place_text token.now) }
{
    let Token {
        kind,
        start,
        length,
        ..
    } = *token;
    write!(text, "{start} ")?;
    put_hex2(text, kind)?;
    write!(text, " {length}")
}

/// Appends what a token says, as far as a line has it.
fn put_told(text: &mut String, told: &Told) -> Result<(), AllocError>
    ensures { OnOk result (string_bytes text.new ≡ string_bytes text.old ++ told_text told.now) }
{
    match told {
        Told::Done(done) => put_done(text, done),
        Told::Change(change) => put_change(text, change.kind),
        Told::Unclear => text.push_str(" unclear"),
        Told::Message(_) => Ok(()),
        Told::ReturnStatus(_) => Ok(()),
        Told::SessionState(_) => Ok(()),
        Told::Other => Ok(()),
    }
}

fn put_done(text: &mut String, done: &Done) -> Result<(), AllocError>
    ensures { OnOk result (string_bytes text.new ≡ string_bytes text.old ++ done_text done.now) }
{
    let Done {
        status,
        command,
        count,
    } = *done;
    text.push_str(" ")?;
    put_hex4(text, status)?;
    write!(text, " {command} {count}")
}

fn put_change(text: &mut String, kind: u8) -> Result<(), AllocError>
    ensures { OnOk result (string_bytes text.new ≡ string_bytes text.old ++ change_text kind) }
{
    write!(text, " {kind}")
}

/// Appends the line of a fault of a message's bytes.
pub(crate) fn put_refused(text: &mut String, fault: WireFault, at: u64) -> Result<(), AllocError>
    ensures { OnOk result (string_bytes text.new ≡ string_bytes text.old ++ refused_line fault at) }
{
    text.push_str("fault ")?;
    text.push_str(words_of(fault))?;
    writeln!(text, " at {at}")
}

fn words_of(fault: WireFault) -> &'static str
    ensures { result.now ≡ wire_words fault }
{
    match fault {
        WireFault::UnknownToken => "unknown token",
        WireFault::NoColumns => "no columns",
        WireFault::UnknownType => "unknown type",
        WireFault::ManyColumns => "many columns",
    }
}

/// Appends the line of a header's fault.
pub(crate) fn put_packet_fault(text: &mut String, fault: &PacketFault) -> Result<(), AllocError>
    ensures { OnOk result
        (string_bytes text.new ≡ string_bytes text.old ++ packet_line fault.now) }
{
    put_packet_number(text, fault.number())
}

fn put_packet_number(text: &mut String, number: u8) -> Result<(), AllocError>
    ensures { OnOk result
        (string_bytes text.new ≡ string_bytes text.old ++ number_line number) }
{
    writeln!(text, "fault packet {number}")
}
