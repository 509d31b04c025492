//! What comes on the connection of a number, whoever holds it: the machine's call `Came`.

ghost use Rattle.std.specs.Prelude.{◌≡◌, ◌≤◌, [], None, length, IfErr, IfOk, OnErr, OnOk};
ghost use Rattle.tds_wire.specs.declared.told.Token.{Token};
ghost use Rattle.tds_service.specs.Packets.{outcome_answer};
ghost use Rattle.tds_service.specs.Service.{find_by, has_number};
ghost use Rattle.tds_service.specs.Table.{Comes};
ghost use Rattle.tds_c.specs.service.Hearing.{Untouched, end_part, one_part, told_if};
ghost use Rattle.tds_c.specs.service.Plain.{table_of};

use crate::service::plain::{TdsSeat, TdsService};
use crate::service::seat::Wanted;
use crate::service::table::find;
use tds_client::Sign;
use tds_service::{Came, Refusal};

/// A token came, of this sign. Whether it is told, and whose it is.
#[inline(always)]
pub(crate) fn hear(
    service: &TdsService,
    seats: &mut [TdsSeat],
    number: u64,
    sign: Sign,
) -> Result<(Came, bool), Refusal>
    requires fits { service.now.count ≤ length seats.old }
    ensures ok { IfOk result (λ heard. (token : Token) → Comes (table_of service.now seats.old)
        (table_of service.now seats.new) number (one_part sign token) heard.0.lease
        heard.0.request (outcome_answer heard.0.request heard.0.outcome) []
        (told_if heard.1 token)) }
    ensures alone { OnOk result (Untouched number
        (record { service = service.now; seats = seats.old })
        (record { service = service.now; seats = seats.new })) }
    ensures refused { IfErr result (λ refusal. (refusal ≡ Refusal.Unknown)
        × (find_by (has_number number) (table_of service.now seats.old).seats ≡ None)) }
    ensures err { OnErr result (seats.new ≡ seats.old) }
{
    let Some(index) = find(&seats[..service.count], Wanted::Number(number)) else {
        return Err(Refusal::Unknown);
    };
    let seat = seats[index];
    let heard = seat.hear(sign);
    seats[index] = heard.seat.settled();
    let came = Came {
        lease: seat.lease(),
        request: seat.asked,
        outcome: heard.outcome,
    };
    Ok((came, heard.told))
}

/// A message has ended, inside a token or between two. Whose it was.
#[inline(always)]
pub(crate) fn end(
    service: &TdsService,
    seats: &mut [TdsSeat],
    number: u64,
    cut: bool,
) -> Result<Came, Refusal>
    requires fits { service.now.count ≤ length seats.old }
    ensures ok { IfOk result (λ came. Comes (table_of service.now seats.old)
        (table_of service.now seats.new) number (end_part cut) came.lease came.request
        (outcome_answer came.request came.outcome) [] []) }
    ensures alone { OnOk result (Untouched number
        (record { service = service.now; seats = seats.old })
        (record { service = service.now; seats = seats.new })) }
    ensures refused { IfErr result (λ refusal. (refusal ≡ Refusal.Unknown)
        × (find_by (has_number number) (table_of service.now seats.old).seats ≡ None)) }
    ensures err { OnErr result (seats.new ≡ seats.old) }
{
    let Some(index) = find(&seats[..service.count], Wanted::Number(number)) else {
        return Err(Refusal::Unknown);
    };
    let seat = seats[index];
    let ended = seat.end(cut);
    seats[index] = ended.seat.settled();
    Ok(Came {
        lease: seat.lease(),
        request: seat.asked,
        outcome: ended.outcome,
    })
}
