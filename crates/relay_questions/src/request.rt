//! The requests that steps send: a packet each.

ghost use Rattle.std.specs.Prelude.{◌≡◌, ◌≤◌, ◌++◌, [], length, OnOk};
ghost use Rattle.tds_request.specs.Layout.{all_headers};
ghost use Rattle.relay_questions.specs.Requests.{attention_bytes, body_of, handle_of, is_call, is_unprepare, kind_of_step, request_of};

use crate::NoMemory;
use crate::step::Step;
use crate::text::text_of;
use std::alloc::Global;
use tds_packet::{Kind, Status, put_sent};
use tds_request::headers;

/// Whether it closes a handle.
fn is_unprepare(step: Step) -> bool
    ensures { result ≡ is_unprepare step }
{
    matches!(step, Step::Unprepare)
}

/// Whether it is a call.
fn is_call(step: Step) -> bool
    ensures { result ≡ is_call step }
{
    matches!(step, Step::Prepare | Step::Unprepare)
}

/// The type of its packet.
fn kind_of(step: Step) -> Kind
    ensures { result ≡ kind_of_step step }
{
    if is_call(step) {
        Kind::Procedure
    } else {
        Kind::Batch
    }
}

/// Appends what a step says behind ALL_HEADERS; a call that closes a handle has this one.
fn put_body(step: Step, handle: u32, body: &mut Vec<u8>) -> Result<(), NoMemory>
    requires { length body.old.items ≤ 22 }
    ensures is { OnOk result (body.new.items ≡ body.old.items ++ body_of step handle) }
    ensures short { OnOk result (length body.new.items ≤ 226) }
{
    body.extend_from_slice(text_of(step))?;
    if is_unprepare(step) {
        body.extend_from_slice(&handle.to_le_bytes())?;
    }
    Ok(())
}

/// Appends ALL_HEADERS with this descriptor (MS-TDS 2.2.5.3), where nothing stands.
fn put_headers(descriptor: u64, message: &mut Vec<u8>) -> Result<(), NoMemory>
    requires { message.old.items ≡ [] }
    ensures are { OnOk result (message.new.items ≡ all_headers descriptor) }
    ensures count { OnOk result (length message.new.items ≡ 22) }
{
    message.extend_from_slice(&headers(descriptor))
}

/// Appends the request of a step, in the transaction of this descriptor, or in none: then it is 0.
pub(crate) fn put_request(
    alloc: Global,
    step: Step,
    descriptor: u64,
    handle: u32,
    out: &mut Vec<u8>,
) -> Result<(), NoMemory>
    ensures { OnOk result
        (out.new.items ≡ out.old.items ++ request_of step descriptor handle) }
{
    let mut message = Vec::new(alloc);
    put_headers(descriptor, &mut message)?;
    put_body(step, handle, &mut message)?;
    let status = Status::of_request(true, 0, step.reset());
    put_sent(out, kind_of(step), status, 1, message.as_slice())
}

/// Appends an attention, which cancels the request underway (MS-TDS 2.2.1.7).
pub(crate) fn put_attention(out: &mut Vec<u8>) -> Result<(), NoMemory>
    ensures { OnOk result (out.new.items ≡ out.old.items ++ attention_bytes) }
{
    put_sent(out, Kind::Attention, Status::of_answer(true), 1, &[])
}
