//! The exports of the client. Each is the call of the same name on the client that the value is.

ghost use Rattle.std.specs.Prelude.{◌≡◌, Result};
ghost use Rattle.tds_client.specs.declared.state.Cancelled.{Cancelled};
ghost use Rattle.tds_client.specs.declared.state.Sent.{Sent};
ghost use Rattle.tds_c.specs.declared.answers.Stop.{Stop};
ghost use Rattle.tds_c.specs.Answers.{cancelled_number, done_number, number_of, sent_number};
ghost use Rattle.tds_c.specs.Calls.{Changes, IsNew, MarksIf, Writes, cancels, loses};
ghost use Rattle.tds_c.specs.Calls.{none_out, out_of, sends};

use crate::answers::{Stop, cancelled_code, done_code, sent_code};
use crate::calls;
use crate::client::TdsClient;
use crate::numbers::mark_from;
use std::alloc::Global;
use tds_client::Client;
use tds_packet::PacketSize;

/// Sends the request's next packet: it is written to `out`. 1 where there are more, 2 where it was
/// the last.
#[unsafe(no_mangle)]
pub extern "C" fn tds_client_send(
    client: &mut TdsClient,
    message: &[u8],
    out: &mut [u8],
    count: &mut usize,
) -> u8
    ensures { (answer : Result Sent Stop) × (result ≡ number_of sent_number answer)
        × Writes (sends client.old message.now) (out_of message.now) client.old client.new
        (record { before = out.old; after = out.new; count = count.new }) answer }
{
    match calls::send(client, message, out, count) {
        Ok(sent) => sent_code(sent),
        Err(stop) => stop.number(),
    }
}

/// Cancels the request underway. 5 nothing is underway, 6 an attention is out already, 7 no packet
/// was out, 8 an attention is written to `out`.
#[unsafe(no_mangle)]
pub extern "C" fn tds_client_cancel(client: &mut TdsClient, out: &mut [u8], count: &mut usize) -> u8
    ensures { (answer : Result Cancelled Stop) × (result ≡ number_of cancelled_number answer)
        × Writes (cancels client.old) none_out client.old client.new
        (record { before = out.old; after = out.new; count = count.new }) answer }
{
    match calls::cancel(client, out, count) {
        Ok(cancelled) => cancelled_code(cancelled),
        Err(stop) => stop.number(),
    }
}

/// The connection is lost: the client is broken, unless it is broken already. 0.
#[unsafe(no_mangle)]
pub extern "C" fn tds_client_lost(alloc: Global, client: &mut TdsClient) -> u8
    ensures { (answer : Result (Unit {0}) Stop) × (result ≡ number_of done_number answer)
        × Changes (loses client.old) client.old client.new answer }
{
    done_code(calls::lost(alloc, client))
}

/// Lets the next request ask for a reset (MS-TDS 2.2.3.1.2): 1 a full one, 2 one that keeps the
/// transaction. Of two marks the stronger one stays.
#[unsafe(no_mangle)]
pub extern "C" fn tds_client_mark_reset(alloc: Global, client: &mut TdsClient, reset: u8) -> u8
    ensures { (answer : Result (Unit {0}) Stop) × (result ≡ number_of done_number answer)
        × MarksIf reset client.old client.new answer }
{
    done_code(mark_reset(alloc, client, reset))
}

#[inline(always)]
fn mark_reset(alloc: Global, client: &mut TdsClient, reset: u8) -> Result<(), Stop>
    ensures { MarksIf reset client.old client.new result }
{
    match mark_from(reset) {
        Some(Some(reset)) => calls::mark_reset(alloc, client, reset),
        Some(None) => Err(Stop::OutOfRange),
        None => Err(Stop::OutOfRange),
    }
}

/// A new client for packets of 512 to 32,767 bytes: idle, with descriptor 0 and no mark. 0, or 23
/// where the size is out of range.
#[unsafe(no_mangle)]
pub extern "C" fn tds_client_new(alloc: Global, size: u16, client: &mut TdsClient) -> u8
    ensures { (answer : Result (Unit {0}) Stop) × (result ≡ number_of done_number answer)
        × IsNew size client.old client.new answer }
{
    done_code(new(alloc, size, client))
}

#[inline(always)]
fn new(alloc: Global, size: u16, client: &mut TdsClient) -> Result<(), Stop>
    ensures { IsNew size client.old client.new result }
{
    let Some(size) = PacketSize::new(size) else {
        return Err(Stop::OutOfRange);
    };
    *client = TdsClient::new(&Client::new(alloc, size), 0);
    Ok(())
}
