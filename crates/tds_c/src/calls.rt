//! The client's calls that write bytes, and those that change it alone.

ghost use Rattle.std.specs.Prelude.{◌≡◌, [], Some, None, true};
ghost use Rattle.tds_packet.specs.Resets.{strongest};
ghost use Rattle.tds_client.specs.Parts.{stage_from};
ghost use Rattle.tds_client.specs.Session.{unless_idle};
ghost use Rattle.tds_request.specs.Values.{IsBatchText};
ghost use Rattle.tds_request.specs.declared.request.Request.TheVariants.{Batch};
ghost use Rattle.tds_c.specs.Calls.{Changes, Writes, cancels, loses, marks, none_out, out_of};
ghost use Rattle.tds_c.specs.Calls.{request_of, sends, starts};

use crate::answers::Stop;
use crate::attentions;
use crate::buffer::{behind, put, put_at};
use crate::client::TdsClient;
use crate::messages::{Asked, put_asked, put_batch};
use std::alloc::Global;
use tds_client::{Cancelled, Sent, StageParts};
use tds_packet::Reset;
use tds_request::RequestKind;

/// Sends the request's next packet, out of the caller's message into the caller's buffer.
#[inline(always)]
pub(crate) fn send(
    client: &mut TdsClient,
    message: &[u8],
    out: &mut [u8],
    count: &mut usize,
) -> Result<Sent, Stop>
    ensures { Writes (sends client.old message.now) (out_of message.now) client.old client.new
        (record { before = out.old; after = out.new; count = count.new }) result }
{
    *count = 0;
    if client.sent > message.len() {
        return Err(Stop::NoClient);
    }
    let left = behind(message, client.sent);
    let Some(mut parts) = client.held(left) else {
        return Err(Stop::NoClient);
    };
    let packet = match parts.send(left) {
        Ok(packet) => packet,
        Err(refusal) => return Err(Stop::Refused(refusal)),
    };
    *count = 8 + packet.data.len();
    if *count > out.len() {
        return Err(Stop::NoRoom);
    }
    put_at(out, 0, &packet.header);
    put_at(out, 8, packet.data);
    *client = TdsClient::of(&parts, client.sent + packet.data.len());
    Ok(packet.answer)
}

/// Takes a batch of 1 to 2,000 units. Its message is written to the front of the caller's buffer.
#[inline(always)]
pub(crate) fn start_batch(
    client: &mut TdsClient,
    text: &[u16],
    message: &mut [u8],
    count: &mut usize,
) -> Result<(), Stop>
    requires lawful { IsBatchText text.now }
    ensures { Writes (starts client.old (Batch text.now)) none_out client.old client.new
        (record { before = message.old; after = message.new; count = count.new }) result }
{
    *count = 0;
    let Some(mut parts) = client.held(&[]) else {
        return Err(Stop::NoClient);
    };
    let descriptor = match parts.start(RequestKind::Batch) {
        Ok(descriptor) => descriptor,
        Err(refusal) => return Err(Stop::Refused(refusal)),
    };
    *count = 22 + 2 * text.len();
    if *count > message.len() {
        return Err(Stop::NoRoom);
    }
    put_batch(descriptor, text, message);
    *client = TdsClient::of(&parts, 0);
    Ok(())
}

/// Cancels the request underway. What is to be sent is written to the front of the caller's buffer.
#[inline(always)]
pub(crate) fn cancel(
    client: &mut TdsClient,
    out: &mut [u8],
    count: &mut usize,
) -> Result<Cancelled, Stop>
    ensures { Writes (cancels client.old) none_out client.old client.new
        (record { before = out.old; after = out.new; count = count.new }) result }
{
    *count = 0;
    let Some(mut parts) = client.held(&[]) else {
        return Err(Stop::NoClient);
    };
    let cancel = match attentions::cancel(&mut parts) {
        Ok(cancel) => cancel,
        Err(refusal) => return Err(Stop::Refused(refusal)),
    };
    if !put(cancel.written.as_slice(), out, count) {
        return Err(Stop::NoRoom);
    }
    *client = TdsClient::of(&parts, 0);
    Ok(cancel.answer)
}

/// Takes a request to the transaction manager. Its message is written to the front of the caller's
/// buffer.
#[inline(always)]
pub(crate) fn start_asked(
    client: &mut TdsClient,
    asked: Asked,
    message: &mut [u8],
    count: &mut usize,
) -> Result<(), Stop>
    ensures { Writes (starts client.old (request_of asked)) none_out client.old client.new
        (record { before = message.old; after = message.new; count = count.new }) result }
{
    *count = 0;
    let Some(mut parts) = client.held(&[]) else {
        return Err(Stop::NoClient);
    };
    let descriptor = match parts.start(RequestKind::Transaction) {
        Ok(descriptor) => descriptor,
        Err(refusal) => return Err(Stop::Refused(refusal)),
    };
    let body = asked.body();
    *count = 22 + body.as_slice().len();
    if *count > message.len() {
        return Err(Stop::NoRoom);
    }
    put_asked(descriptor, &body, message);
    *client = TdsClient::of(&parts, 0);
    Ok(())
}

/// Of two marks the stronger one.
#[inline(always)]
fn stronger(mark: Option<Reset>, reset: Reset) -> Option<Reset>
    ensures { result ≡ strongest (Some reset) mark }
{
    match mark {
        None => Some(reset),
        Some(Reset::Full) => Some(Reset::Full),
        Some(Reset::KeepTransaction) => Some(reset),
    }
}

#[inline(always)]
fn is_idle(stage: &StageParts) -> bool
    ensures { result ≡ true → unless_idle (stage_from stage.now []) ≡ None }
{
    match stage {
        StageParts::Idle => true,
        StageParts::Sending { .. } => false,
        StageParts::Reading => false,
        StageParts::Cancelling => false,
        StageParts::Broken(_) => false,
    }
}

/// The mark by the client's own call. A call of its own, since an idle client is what is met mostly.
#[cold]
#[inline(never)]
fn mark_any(alloc: Global, client: &mut TdsClient, reset: Reset) -> Result<(), Stop>
    ensures { Changes (marks client.old reset) client.old client.new result }
{
    let Some(mut held) = client.client(Vec::new(alloc)) else {
        return Err(Stop::NoClient);
    };
    if let Err(refusal) = held.mark_reset(reset) {
        return Err(Stop::Refused(refusal));
    }
    *client = TdsClient::new(&held, 0);
    Ok(())
}

#[inline(always)]
pub(crate) fn mark_reset(alloc: Global, client: &mut TdsClient, reset: Reset) -> Result<(), Stop>
    ensures { Changes (marks client.old reset) client.old client.new result }
{
    // What follows needn't look at the stage then.
    if client.stage != 0 {
        return mark_any(alloc, client, reset);
    }
    let Some(mut parts) = client.held(&[]) else {
        return Err(Stop::NoClient);
    };
    if !is_idle(&parts.stage) {
        return mark_any(alloc, client, reset);
    }
    parts.heard.mark = stronger(parts.heard.mark, reset);
    *client = TdsClient::of(&parts, 0);
    Ok(())
}

#[inline(always)]
pub(crate) fn lost(alloc: Global, client: &mut TdsClient) -> Result<(), Stop>
    ensures { Changes (loses client.old) client.old client.new result }
{
    let Some(mut held) = client.client(Vec::new(alloc)) else {
        return Err(Stop::NoClient);
    };
    held.lost();
    *client = TdsClient::new(&held, 0);
    Ok(())
}
