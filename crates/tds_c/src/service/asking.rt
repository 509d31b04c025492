//! What a lease asks: the machine's calls of these names, on the connection that the lease has.

ghost use Rattle.std.specs.Prelude.{◌≡◌, ◌≤◌, ◌≢◌, length, IfErr, IfOk, OnErr, OnOk};
ghost use Rattle.tds_service.specs.declared.refusal.Refusal.TheVariants.{Memory};
ghost use Rattle.tds_service.specs.Service as calls;
ghost use Rattle.tds_c.specs.service.Asking.{AskStops, HasAsked, HasCancelled, HasFinished, HasPut, FinishStops, PutStops};
ghost use Rattle.tds_c.specs.service.Calls.{Stops};

use crate::service::answers::Stop;
use crate::service::plain::{TdsSeat, TdsService};
use crate::service::seat::{Stage, Wanted};
use crate::service::sending::Putting;
use crate::service::table::find;
use crate::service::{putting, sending};
use tds_client::{Cancelled, MessageKind};
use tds_service::{Asked, Refusal};

/// Begins a request of this kind. Its headers are written to `kept`, where they wait.
#[inline(always)]
pub(crate) fn ask(
    service: &TdsService,
    seats: &mut [TdsSeat],
    lease: u64,
    kind: MessageKind,
    kept: &mut [u8],
    count: &mut usize,
) -> Result<Asked, Stop>
    requires fits { service.now.count ≤ length seats.old }
    ensures ok { IfOk result (HasAsked lease kind
        (record { service = service.now; seats = seats.old })
        (record { service = service.now; seats = seats.new })
        (record { before = kept.old; after = kept.new; count = count.new })) }
    ensures stops { IfErr result (AskStops lease (Some kind)
        (record { service = service.now; seats = seats.old })
        (record { before = kept.old; after = kept.new; count = count.new })) }
    ensures err { OnErr result (seats.new ≡ seats.old) }
    ensures nothing { OnErr result (kept.new ≡ kept.old) }
{
    *count = 0;
    let Some(index) = find(&seats[..service.count], Wanted::Lease(lease)) else {
        return Err(Stop::Refused(Refusal::Unknown));
    };
    let seat = &mut seats[index];
    let number = seat.number;
    match sending::ask(seat, kind, kept, count) {
        Ok(()) => Ok(Asked {
            number,
            request: seat.asked,
        }),
        Err(stop) => Err(stop),
    }
}

/// Puts bytes of the request behind those that wait.
#[inline(always)]
pub(crate) fn put(
    service: &TdsService,
    seats: &mut [TdsSeat],
    lease: u64,
    kept: &mut [u8],
    waiting: &mut usize,
    bytes: &[u8],
    taken: &mut usize,
    out: &mut [u8],
    count: &mut usize,
) -> Result<Putting, Stop>
    requires fits { service.now.count ≤ length seats.old }
    ensures ok { IfOk result (HasPut lease
        (record { service = service.now; seats = seats.old })
        (record { service = service.now; seats = seats.new }) (record {
          before = kept.old;
          after = kept.new;
          waiting = waiting.old;
          waits = waiting.new;
        }) bytes.now taken.new
        (record { before = out.old; after = out.new; count = count.new })) }
    ensures stops { IfErr result (PutStops lease
        (record { service = service.now; seats = seats.old }) (record {
          before = kept.old;
          after = kept.new;
          waiting = waiting.old;
          waits = waiting.new;
        }) (record { before = out.old; after = out.new; count = count.new })) }
    ensures err { OnErr result (seats.new ≡ seats.old) }
    ensures kept { OnErr result ((kept.new ≡ kept.old) × (waiting.new ≡ waiting.old)) }
    ensures nothing { OnErr result ((out.new ≡ out.old) × (taken.new ≡ 0)) }
{
    *count = 0;
    *taken = 0;
    let Some(index) = find(&seats[..service.count], Wanted::Lease(lease)) else {
        return Err(Stop::Refused(Refusal::Unknown));
    };
    let seat = &mut seats[index];
    match putting::put(seat, kept, waiting, bytes, taken, out, count) {
        Ok(putting) => Ok(putting),
        Err(stop) => Err(stop),
    }
}

/// Ends the request: what waits goes out in its last packet.
#[inline(always)]
pub(crate) fn finish(
    service: &TdsService,
    seats: &mut [TdsSeat],
    lease: u64,
    kept: &[u8],
    out: &mut [u8],
    count: &mut usize,
) -> Result<(), Stop>
    requires fits { service.now.count ≤ length seats.old }
    ensures ok { OnOk result (HasFinished lease
        (record { service = service.now; seats = seats.old })
        (record { service = service.now; seats = seats.new }) kept.now
        (record { before = out.old; after = out.new; count = count.new })) }
    ensures stops { IfErr result (FinishStops lease
        (record { service = service.now; seats = seats.old }) kept.now
        (record { before = out.old; after = out.new; count = count.new })) }
    ensures err { OnErr result (seats.new ≡ seats.old) }
    ensures nothing { OnErr result (out.new ≡ out.old) }
{
    *count = 0;
    let Some(index) = find(&seats[..service.count], Wanted::Lease(lease)) else {
        return Err(Stop::Refused(Refusal::Unknown));
    };
    let seat = &mut seats[index];
    match sending::finish(seat, kept, out, count) {
        Ok(()) => Ok(()),
        Err(stop) => Err(stop),
    }
}

/// Cancels what is underway. What is to be sent for that is written to `out`.
#[inline(always)]
pub(crate) fn cancel(
    service: &TdsService,
    seats: &mut [TdsSeat],
    lease: u64,
    out: &mut [u8],
    count: &mut usize,
) -> Result<Cancelled, Stop>
    requires fits { service.now.count ≤ length seats.old }
    ensures ok { IfOk result (HasCancelled lease
        (record { service = service.now; seats = seats.old })
        (record { service = service.now; seats = seats.new })
        (record { before = out.old; after = out.new; count = count.new })) }
    ensures stops { IfErr result (Stops (calls.Cancel lease)
        (record { service = service.now; seats = seats.old }) (length out.old) count.new) }
    ensures memory { IfErr result (λ stop. stop ≢ Stop.Refused Memory) }
    ensures most { count.new ≤ 16 }
    ensures err { OnErr result (seats.new ≡ seats.old) }
    ensures nothing { OnErr result (out.new ≡ out.old) }
{
    *count = 0;
    let Some(index) = find(&seats[..service.count], Wanted::Lease(lease)) else {
        return Err(Stop::Refused(Refusal::Unknown));
    };
    let seat = seats[index];
    let how = match seat.how_cancelled() {
        Ok(how) => how,
        Err(stop) => return Err(stop),
    };
    let written = seat.written();
    let bytes = written.as_slice();
    *count = bytes.len();
    if bytes.len() > out.len() {
        return Err(Stop::NoRoom);
    }
    out[..bytes.len()].copy_from_slice(bytes);
    seats[index] = seat.cancelled();
    Ok(how)
}
