//! The numbers of a client's parts.

ghost use Rattle.std.specs.Prelude.{◌≡◌};
ghost use Rattle.tds_c.specs.Plain as plain;

use tds_client::{ClientFault, FinalDone};
use tds_packet::{Kind, PacketSize, Reset};
use tds_token::{Columns, TokenFault};

#[inline(always)]
#[tactic(auto, unfolding(crate::specs::Plain::size_from))]
pub(crate) fn size_from(number: u16) -> Option<PacketSize>
    ensures { result ≡ plain.size_from number }
{
    PacketSize::new(number)
}

/// The type of a request's packets, and of any other packet: `Kind::from_byte` knows those alone that
/// are read.
#[inline(always)]
#[tactic(auto, unfolding(crate::specs::Plain::kind_from))]
pub(crate) fn kind_from(number: u8) -> Option<Kind>
    ensures { result ≡ plain.kind_from number }
{
    match number {
        0x01 => Some(Kind::Batch),
        0x03 => Some(Kind::Procedure),
        0x04 => Some(Kind::Answer),
        0x06 => Some(Kind::Attention),
        0x07 => Some(Kind::BulkLoad),
        0x0E => Some(Kind::Transaction),
        _ => None,
    }
}

#[inline(always)]
pub(crate) fn mark_number(mark: Option<Reset>) -> u8
    ensures { result ≡ plain.mark_number mark }
{
    match mark {
        None => 0,
        Some(Reset::Full) => 1,
        Some(Reset::KeepTransaction) => 2,
    }
}

#[inline(always)]
#[tactic(auto, unfolding(crate::specs::Plain::mark_from))]
pub(crate) fn mark_from(number: u8) -> Option<Option<Reset>>
    ensures { result ≡ plain.mark_from number }
{
    match number {
        0 => Some(None),
        1 => Some(Some(Reset::Full)),
        2 => Some(Some(Reset::KeepTransaction)),
        _ => None,
    }
}

#[inline(always)]
pub(crate) fn done_number(done: FinalDone) -> u8
    ensures { result ≡ plain.done_number done }
{
    match done {
        FinalDone::Awaited => 0,
        FinalDone::Answered => 1,
        FinalDone::Acknowledged => 2,
    }
}

#[inline(always)]
#[tactic(auto, unfolding(crate::specs::Plain::done_from))]
pub(crate) fn done_from(number: u8) -> Option<FinalDone>
    ensures { result ≡ plain.done_from number }
{
    match number {
        0 => Some(FinalDone::Awaited),
        1 => Some(FinalDone::Answered),
        2 => Some(FinalDone::Acknowledged),
        _ => None,
    }
}

#[inline(always)]
pub(crate) fn columns_number(columns: Columns) -> u8
    ensures { result ≡ plain.columns_number columns }
{
    match columns.count() {
        None => 0,
        Some(count) => count,
    }
}

#[inline(always)]
#[tactic(auto, unfolding(crate::specs::Plain::columns_from))]
pub(crate) fn columns_from(number: u8) -> Option<Columns>
    ensures { result ≡ plain.columns_from number }
{
    if number == 0 {
        return Some(Columns::none());
    }
    Columns::of(number)
}

/// The number of the token's fault in a client's fault, 0 where there is none.
#[inline(always)]
pub(crate) fn token_fault_number(fault: &ClientFault) -> u8
    ensures { result ≡ plain.token_fault_number fault.now }
{
    match fault {
        ClientFault::Token(fault) => fault.number(),
        ClientFault::AnswerInIdle
        | ClientFault::AnswerInSending
        | ClientFault::UnaskedAcknowledgement
        | ClientFault::WrongEnvChange
        | ClientFault::UnaskedReset
        | ClientFault::NoFinalDone
        | ClientFault::BehindFinalDone
        | ClientFault::Lost => 0,
    }
}

#[inline(always)]
#[tactic(auto, unfolding(crate::specs::Plain::fault_from))]
pub(crate) fn fault_from(number: u8, token_fault: u8) -> Option<ClientFault>
    ensures { result ≡ plain.fault_from number token_fault }
{
    match number {
        1 => Some(ClientFault::AnswerInIdle),
        2 => Some(ClientFault::AnswerInSending),
        3 => Some(ClientFault::UnaskedAcknowledgement),
        4 => Some(ClientFault::WrongEnvChange),
        5 => Some(ClientFault::UnaskedReset),
        6 => Some(ClientFault::NoFinalDone),
        7 => Some(ClientFault::BehindFinalDone),
        8 => Some(ClientFault::Token(token_fault_from(token_fault)?)),
        9 => Some(ClientFault::Lost),
        _ => None,
    }
}

#[inline(always)]
#[tactic(auto, unfolding(crate::specs::Plain::token_fault_from))]
fn token_fault_from(number: u8) -> Option<TokenFault>
    ensures { result ≡ plain.token_fault_from number }
{
    match number {
        1 => Some(TokenFault::UnknownToken),
        2 => Some(TokenFault::Cut),
        3 => Some(TokenFault::WrongLength),
        4 => Some(TokenFault::WrongEnvChange),
        5 => Some(TokenFault::WrongStatus),
        6 => Some(TokenFault::NoColumns),
        7 => Some(TokenFault::WrongColumn),
        _ => None,
    }
}
