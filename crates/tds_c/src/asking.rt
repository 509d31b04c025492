//! The export that sends any request whole, where one packet has all of it.

ghost use Rattle.std.specs.Prelude.{◌≡◌, ◌+◌, ◌≤◌, ◌++◌, [], ℕ, Some, Err, Result, length, take};
ghost use Rattle.tds_client.specs.declared.message.MessageKind.{MessageKind};
ghost use Rattle.tds_client.specs.Filling.{room_of};
ghost use Rattle.tds_client.specs.Parts.{session_from};
ghost use Rattle.tds_client.specs.Session.{ClientSession, Reading, with_stage};
ghost use Rattle.tds_c.specs.declared.answers.Stop.{Stop};
ghost use Rattle.tds_c.specs.Answers.{done_number, number_of};
ghost use Rattle.tds_c.specs.Asking.{Asks, AsksIf, asks, is_longer};
ghost use Rattle.tds_c.specs.Calls.{Buffer, value_of, with_front};
ghost use Rattle.tds_c.specs.Plain.{client_of};
ghost use Rattle.tds_c.specs.Streams.{headers_by, message_from};

use crate::answers::{Stop, done_code};
use crate::buffer::put_at;
use crate::client::TdsClient;
use crate::streams::message;
use tds_client::{ClientParts, MessageKind};
use tds_request::headers;

/// How many bytes the client spells of such a message.
#[inline(always)]
fn before(kind: MessageKind) -> usize
    ensures value { (descriptor : ℕ) → result ≡ length (headers_by kind descriptor) }
    ensures most { result ≤ 22 }
{
    if kind.has_headers() { 22 } else { 0 }
}

/// Writes the message behind the 8 bytes of a packet's header.
#[inline(always)]
fn put_message(kind: MessageKind, descriptor: u64, body: &[u8], out: &mut [u8])
    requires room { 8 + length (headers_by kind descriptor ++ body.now) ≤ length out.old }
    ensures { out.new
        ≡ with_front (take 8 out.old ++ (headers_by kind descriptor ++ body.now)) out.old }
{
    if kind.has_headers() {
        put_at(out, 8, &headers(descriptor));
        put_at(out, 30, body);
    } else {
        put_at(out, 8, body);
    }
}

/// Whether the message is longer than the data of a packet, which has some.
#[inline(always)]
fn is_longer(parts: &ClientParts, kind: MessageKind, body: &[u8]) -> bool
    ensures value { result ≡ is_longer kind body.now (Some (session_from parts.now [])) }
    ensures some { 1 ≤ room_of parts.now }
{
    body.len() > usize::from(parts.size.get()) - 8 - before(kind)
}

/// Lets a client read the answer. What else it knows stays.
#[inline(always)]
fn await_answer(client: &mut TdsClient)
    ensures { (s : ClientSession) → client_of client.old [] ≡ Some s
        → client.new ≡ value_of (with_stage s Reading) 0 }
{
    client.sent = 0;
    client.packets = 0;
    client.stage = 2;
    client.kind = 0;
    client.fault = 0;
    client.token_fault = 0;
}

#[inline(always)]
fn ask_for(
    client: &mut TdsClient,
    kind: MessageKind,
    body: &[u8],
    out: &mut [u8],
    count: &mut usize,
) -> Result<(), Stop>
    requires count { count.old ≡ 0 }
    ensures { AsksIf (is_longer kind body.now (client_of client.old []))
        (asks client.old kind body.now) client.old client.new
        (record { before = out.old; after = out.new; count = count.new }) result }
{
    let Some(mut parts) = client.held(&[]) else {
        return Err(Stop::NoClient);
    };
    if is_longer(&parts, kind, body) {
        return Err(Stop::OutOfRange);
    }
    let descriptor = match parts.start_message(kind) {
        Ok(descriptor) => descriptor,
        Err(refusal) => return Err(Stop::Refused(refusal)),
    };
    let end = 8 + before(kind) + body.len();
    *count = end;
    if end > out.len() {
        return Err(Stop::NoRoom);
    }
    put_message(kind, descriptor, body, out);
    let header = match parts.finish(&out[8..end]) {
        Ok(header) => header,
        Err(refusal) => return Err(Stop::Refused(refusal)),
    };
    put_at(out, 0, &header);
    await_answer(client);
    Ok(())
}

#[inline(always)]
fn ask(
    client: &mut TdsClient,
    number: u8,
    body: &[u8],
    out: &mut [u8],
    count: &mut usize,
) -> Result<(), Stop>
    requires count { count.old ≡ 0 }
    ensures { Asks (message_from number) body.now client.old client.new
        (record { before = out.old; after = out.new; count = count.new }) result }
{
    match message(number) {
        // By itself, so that where a body begins is a constant.
        Some(MessageKind::BulkLoad) => ask_for(client, MessageKind::BulkLoad, body, out, count),
        Some(kind) => ask_for(client, kind, body, out, count),
        None => Err(Stop::OutOfRange),
    }
}

/// Why a client that isn't idle sends no message.
#[inline(always)]
fn why_not(client: &TdsClient, number: u8, body: &[u8]) -> Stop
    requires { ¬ (client.now.stage ≡ 0) }
    ensures { (buffer : Buffer) → buffer.count ≡ 0 → buffer.after ≡ buffer.before
        → Asks (message_from number) body.now client.now client.now buffer (Err result) }
{
    let Some(kind) = message(number) else {
        return Stop::OutOfRange;
    };
    let Some(mut parts) = client.held(&[]) else {
        return Stop::NoClient;
    };
    if is_longer(&parts, kind, body) {
        return Stop::OutOfRange;
    }
    match parts.start_message(kind) {
        Err(refusal) => Stop::Refused(refusal),
        // Not met: the stage of an idle client is 0.
        Ok(_) => Stop::NoClient,
    }
}

/// The same as a number. A call of its own, since an idle client is what is met mostly.
#[cold]
#[inline(never)]
fn refused(client: &TdsClient, number: u8, body: &[u8]) -> u8
    requires { ¬ (client.now.stage ≡ 0) }
    ensures { (buffer : Buffer) → buffer.count ≡ 0 → buffer.after ≡ buffer.before
        → (answer : Result (Unit {0}) Stop) × (result ≡ number_of done_number answer)
        × Asks (message_from number) body.now client.now client.now buffer answer }
{
    why_not(client, number, body).number()
}

/// Sends a message of any kind (MS-TDS 2.2.1), by the type of its packets, where a packet has all of
/// it: `tds_client_start_message`, `tds_client_put` of this body and `tds_client_finish` in one
/// call. The packet is written to `out`. The client reads the answer then.
#[unsafe(no_mangle)]
pub extern "C" fn tds_client_ask(
    client: &mut TdsClient,
    kind: u8,
    body: &[u8],
    out: &mut [u8],
    count: &mut usize,
) -> u8
    ensures { (answer : Result (Unit {0}) Stop) × (result ≡ number_of done_number answer)
        × Asks (message_from kind) body.now client.old client.new
        (record { before = out.old; after = out.new; count = count.new }) answer }
{
    *count = 0;
    // What follows needn't look at the stage then.
    if client.stage != 0 {
        return refused(client, kind, body);
    }
    done_code(ask(client, kind, body, out, count))
}
