//! The exports by which it is told what comes on the connection of a number.

ghost use Rattle.std.specs.Prelude.{◌≡◌, Some};
ghost use Rattle.tds_client.specs.declared.sign.Sign.TheVariants as signs;
ghost use Rattle.tds_c.specs.service.Hearing.{Hears, MessageEnds, broken_number, change_from, change_sign, done_from, done_sign};
ghost use Rattle.tds_c.specs.service.Hearing.{ended_number, heard_number, is_cut, plain_whose, sign_at};

use crate::service::answers::Stop;
use crate::service::exports::fits;
use crate::service::plain::{TdsSeat, TdsService, TdsWhose};
use crate::service::{coming, signs};
use tds_client::Sign;
use tds_listen::ListenFault;
use tds_service::{Came, Outcome};
use tds_walk::TdsWireToken;

/// Why a connection is broken.
#[inline(always)]
fn broken_number(fault: &ListenFault) -> u8
    ensures { result ≡ broken_number fault.now }
{
    match fault {
        ListenFault::Client(fault) => 60 + fault.number(),
        ListenFault::Wire(_) => 70,
        ListenFault::Cut => 75,
        ListenFault::ResetUnanswered => 76,
    }
}

/// What came of a token that is told, or isn't.
#[inline(always)]
fn heard_number(told: bool, outcome: &Outcome) -> u8
    ensures { result ≡ heard_number told outcome.now }
{
    let number = if told { 10 } else { 11 };
    match outcome {
        Outcome::More => number,
        Outcome::Finished => number,
        Outcome::Acknowledged => number,
        Outcome::Fault(fault) => broken_number(fault),
    }
}

/// What came of a message's end.
#[inline(always)]
fn ended_number(outcome: &Outcome) -> u8
    ensures { result ≡ ended_number outcome.now }
{
    match outcome {
        Outcome::More => 1,
        Outcome::Finished => 3,
        Outcome::Acknowledged => 4,
        Outcome::Fault(fault) => broken_number(fault),
    }
}

#[inline(always)]
fn whose(came: &Came) -> TdsWhose
    ensures { result ≡ plain_whose came.now }
{
    TdsWhose {
        lease: match came.lease {
            Some(lease) => lease,
            None => 0,
        },
        request: came.request,
    }
}

/// A token of this sign came, where it has one.
#[inline(always)]
fn hear(
    service: &TdsService,
    seats: &mut [TdsSeat],
    number: u64,
    sign: Option<Sign>,
    owner: &mut TdsWhose,
) -> u8
    ensures { Hears number sign (record { service = service.now; seats = seats.old })
        (record { service = service.now; seats = seats.new }) owner.old owner.new result }
{
    let Some(sign) = sign else {
        return Stop::OutOfRange.number();
    };
    if let Err(stop) = fits(service, seats) {
        return stop.number();
    }
    match coming::hear(service, seats, number, sign) {
        Ok((came, told)) => {
            *owner = whose(&came);
            heard_number(told, &came.outcome)
        }
        Err(refusal) => Stop::Refused(refusal).number(),
    }
}

/// A token came on the connection of this number, as a walk gave it. 10: it is told to the request that
/// is written, 11: nobody is told of it.
#[unsafe(no_mangle)]
pub extern "C" fn tds_service_came(
    service: &TdsService,
    seats: &mut [TdsSeat],
    number: u64,
    token: &TdsWireToken,
    whose: &mut TdsWhose,
) -> u8
    ensures { Hears number (Some (sign_at token.now))
        (record { service = service.now; seats = seats.old })
        (record { service = service.now; seats = seats.new }) whose.old whose.new result }
{
    hear(service, seats, number, Some(signs::sign_of(token)), whose)
}

/// The same of an ENVCHANGE of a transaction or a reset, which nobody is told of.
#[unsafe(no_mangle)]
pub extern "C" fn tds_service_heard_change(
    service: &TdsService,
    seats: &mut [TdsSeat],
    number: u64,
    change: u8,
    descriptor: u64,
    whose: &mut TdsWhose,
) -> u8
    ensures { Hears number (change_sign (change_from change descriptor))
        (record { service = service.now; seats = seats.old })
        (record { service = service.now; seats = seats.new }) whose.old whose.new result }
{
    hear(
        service,
        seats,
        number,
        signs::change_sign(change, descriptor),
        whose,
    )
}

/// The same of a DONE (`FD`), DONEPROC (`FE`) or DONEINPROC (`FF`) with this status.
#[unsafe(no_mangle)]
pub extern "C" fn tds_service_heard_done(
    service: &TdsService,
    seats: &mut [TdsSeat],
    number: u64,
    kind: u8,
    status: u16,
    whose: &mut TdsWhose,
) -> u8
    ensures { Hears number (done_sign (done_from kind) status)
        (record { service = service.now; seats = seats.old })
        (record { service = service.now; seats = seats.new }) whose.old whose.new result }
{
    hear(
        service,
        seats,
        number,
        signs::done_sign(kind, status),
        whose,
    )
}

/// The same of any other token.
#[unsafe(no_mangle)]
pub extern "C" fn tds_service_heard_other(
    service: &TdsService,
    seats: &mut [TdsSeat],
    number: u64,
    whose: &mut TdsWhose,
) -> u8
    ensures { Hears number (Some signs.Nothing)
        (record { service = service.now; seats = seats.old })
        (record { service = service.now; seats = seats.new }) whose.old whose.new result }
{
    hear(service, seats, number, Some(Sign::Nothing), whose)
}

/// A message has ended there, inside a token where `cut` isn't 0. 1 the acknowledgement is still to
/// come, 3 the request has its whole answer, 4 its cancel is acknowledged.
#[unsafe(no_mangle)]
pub extern "C" fn tds_service_message_ended(
    service: &TdsService,
    seats: &mut [TdsSeat],
    number: u64,
    cut: u8,
    whose: &mut TdsWhose,
) -> u8
    ensures { MessageEnds number (is_cut cut) (record { service = service.now; seats = seats.old })
        (record { service = service.now; seats = seats.new }) whose.old whose.new result }
{
    end(service, seats, number, cut != 0, whose)
}

#[inline(always)]
fn end(
    service: &TdsService,
    seats: &mut [TdsSeat],
    number: u64,
    cut: bool,
    owner: &mut TdsWhose,
) -> u8
    ensures { MessageEnds number cut (record { service = service.now; seats = seats.old })
        (record { service = service.now; seats = seats.new }) owner.old owner.new result }
{
    if let Err(stop) = fits(service, seats) {
        return stop.number();
    }
    match coming::end(service, seats, number, cut) {
        Ok(came) => {
            *owner = whose(&came);
            ended_number(&came.outcome)
        }
        Err(refusal) => Stop::Refused(refusal).number(),
    }
}
