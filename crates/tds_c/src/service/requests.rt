//! The exports by which a lease asks.

ghost use Rattle.std.specs.Prelude.{◌≡◌, IfErr, IfOk, OnErr};
ghost use Rattle.tds_c.specs.service.Answers.{stop_number};
ghost use Rattle.tds_c.specs.service.Asking.{Asks, Cancels, Finishes, Puts, cancelled_number, plain_asked, puts_number};
ghost use Rattle.tds_c.specs.service.Calls.{done_number};

use crate::service::answers::Stop;
use crate::service::asking;
use crate::service::exports::fits;
use crate::service::plain::{TdsAsked, TdsSeat, TdsService};
use crate::service::sending::{Putting, message};
use tds_client::Cancelled;
use tds_service::Asked;

/// Writes which request was asked. 0, or why none was.
#[inline(always)]
fn write_asked(answer: Result<Asked, Stop>, asked: &mut TdsAsked) -> u8
    ensures number { result ≡ done_number answer }
    ensures ok { IfOk answer (λ a. asked.new ≡ plain_asked a) }
    ensures err { OnErr answer (asked.new ≡ asked.old) }
{
    match answer {
        Ok(a) => {
            *asked = TdsAsked {
                number: a.number,
                request: a.request,
            };
            0
        }
        Err(stop) => stop.number(),
    }
}

#[inline(always)]
fn put_number(answer: Result<Putting, Stop>) -> u8
    ensures { result ≡ puts_number answer }
{
    match answer {
        Ok(Putting::All) => 0,
        Ok(Putting::Packet) => 1,
        Err(stop) => stop.number(),
    }
}

#[inline(always)]
fn cancel_number(answer: Result<Cancelled, Stop>) -> u8
    ensures { result ≡ cancelled_number answer }
{
    match answer {
        Ok(Cancelled::Nothing) => 5,
        Ok(Cancelled::Already) => 6,
        Ok(Cancelled::Unsent) => 7,
        Ok(Cancelled::Asked) => 8,
        Err(stop) => stop.number(),
    }
}

/// Begins a request of a lease, by the type of its packets. Its headers are written to `kept`, where
/// they wait, and which request it is to `asked`.
#[unsafe(no_mangle)]
pub extern "C" fn tds_service_ask(
    service: &TdsService,
    seats: &mut [TdsSeat],
    lease: u64,
    kind: u8,
    kept: &mut [u8],
    count: &mut usize,
    asked: &mut TdsAsked,
) -> u8
    ensures { Asks lease kind (record { service = service.now; seats = seats.old })
        (record { service = service.now; seats = seats.new })
        (record { before = kept.old; after = kept.new; count = count.new })
        asked.old asked.new result }
{
    *count = 0;
    if let Err(stop) = fits(service, seats) {
        return write_asked(Err(stop), asked);
    }
    let Some(kind) = message(kind) else {
        return write_asked(Err(Stop::OutOfRange), asked);
    };
    write_asked(asking::ask(service, seats, lease, kind, kept, count), asked)
}

/// Puts bytes of the request's body behind those that wait in `kept`. 0: all of them wait now. 1: a
/// packet was written to `out`, and those behind the ones that were taken are to be put again.
#[unsafe(no_mangle)]
pub extern "C" fn tds_service_put(
    service: &TdsService,
    seats: &mut [TdsSeat],
    lease: u64,
    kept: &mut [u8],
    waiting: &mut usize,
    bytes: &[u8],
    taken: &mut usize,
    out: &mut [u8],
    count: &mut usize,
) -> u8
    ensures { Puts lease (record { service = service.now; seats = seats.old })
        (record { service = service.now; seats = seats.new }) (record {
          before = kept.old;
          after = kept.new;
          waiting = waiting.old;
          waits = waiting.new;
        }) bytes.now taken.new
        (record { before = out.old; after = out.new; count = count.new }) result }
{
    *count = 0;
    *taken = 0;
    if let Err(stop) = fits(service, seats) {
        return put_number(Err(stop));
    }
    put_number(asking::put(
        service, seats, lease, kept, waiting, bytes, taken, out, count,
    ))
}

/// Ends the request: what waits goes out in its last packet, which is written to `out`.
#[unsafe(no_mangle)]
pub extern "C" fn tds_service_finish(
    service: &TdsService,
    seats: &mut [TdsSeat],
    lease: u64,
    kept: &[u8],
    out: &mut [u8],
    count: &mut usize,
) -> u8
    ensures { Finishes lease (record { service = service.now; seats = seats.old })
        (record { service = service.now; seats = seats.new }) kept.now
        (record { before = out.old; after = out.new; count = count.new }) result }
{
    *count = 0;
    if let Err(stop) = fits(service, seats) {
        return stop.number();
    }
    match asking::finish(service, seats, lease, kept, out, count) {
        Ok(()) => 0,
        Err(stop) => stop.number(),
    }
}

/// Cancels the request underway. 5 nothing is underway, 6 an attention is out already, 7 no packet was
/// out, 8 an attention is written to `out`.
#[unsafe(no_mangle)]
pub extern "C" fn tds_service_cancel(
    service: &TdsService,
    seats: &mut [TdsSeat],
    lease: u64,
    out: &mut [u8],
    count: &mut usize,
) -> u8
    ensures { Cancels lease (record { service = service.now; seats = seats.old })
        (record { service = service.now; seats = seats.new })
        (record { before = out.old; after = out.new; count = count.new }) result }
{
    *count = 0;
    if let Err(stop) = fits(service, seats) {
        return cancel_number(Err(stop));
    }
    cancel_number(asking::cancel(service, seats, lease, out, count))
}
