//! A request's message: the checks of its packets, and the request that it spells.
ghost use Rattle.std.specs.Prelude.{◌≡◌, ◌≢◌, Ok, Err, IfOk, IfErr, true};
ghost use Rattle.tds_request.specs.declared.fault.RequestFault.TheVariants.{Memory};
ghost use Rattle.tds_request.specs.Reading.{read_request};
ghost use Rattle.tds_server.specs.declared.fault.ServerFault.TheVariants.{WrongRequest};
ghost use Rattle.tds_server.specs.declared.outcome.ServerTook.TheVariants as took;
ghost use Rattle.tds_server.specs.Due.{steps_of};
ghost use Rattle.tds_server.specs.State.{Answering};
ghost use Rattle.tds_server.specs.Taking.{is_same_kind, answered, goes_on};
ghost use Rattle.tds_session.specs.Answer.{answer_of};
ghost use Rattle.tds_session.specs.Session.{SessionState};

use crate::answer::{Answer, begin_answer};
use crate::fault::ServerFault;
use crate::outcome::ServerTook;
use std::alloc::Global;
use tds_packet::Reset;
use tds_request::{RequestFault, RequestKind, decode};
use tds_session::Engine;

/// The most data that a message may have: 22 bytes of ALL_HEADERS and a text of 2,000 units.
pub(crate) const MESSAGE_LIMIT: usize = 4022;

/// Whether two messages have packets of one type.
pub(crate) fn is_same_kind(one: RequestKind, other: RequestKind) -> bool
    ensures value { result ≡ is_same_kind one other }
    ensures same { result ≡ true → one ≡ other }
{
    match (one, other) {
        (RequestKind::Batch, RequestKind::Batch) => true,
        (RequestKind::Transaction, RequestKind::Transaction) => true,
        (RequestKind::Batch, RequestKind::Transaction) => false,
        (RequestKind::Transaction, RequestKind::Batch) => false,
    }
}

/// The answer to the request that a whole message spells.
pub(crate) fn read_answer<E: Engine>(
    alloc: Global,
    engine: &E,
    kind: RequestKind,
    reset: Option<Reset>,
    bytes: &[u8],
) -> Result<Answer<E::Stmt>, RequestFault>
    ensures answer { IfOk result (λ a. (session : SessionState)
        → answered (answer_of (E.statements_of engine.now) (E.step_of engine.now)) session reset
        (read_request kind bytes.now)
        ≡ Ok (goes_on session (Answering (steps_of
        (E.step_of engine.now) session a) a.packet_id a.begun) took.Request)) }
    ensures fault { IfErr result
        (λ fault. fault ≢ Memory → read_request kind bytes.now ≡ Err fault) }
{
    let (descriptor, request) = decode(alloc, kind, bytes)?;
    let answer = begin_answer(alloc, engine, descriptor, reset, &request)?;
    Ok(answer)
}

/// What a server answers to a message that is no request: want of memory is no fault.
pub(crate) fn refusal(fault: RequestFault) -> Result<ServerTook, ServerFault>
    ensures memory { IfOk result (λ answer. answer ≡ took.NoMemory) }
    ensures fault { IfErr result (λ found. (found ≡ WrongRequest fault) × (fault ≢ Memory)) }
{
    match fault {
        RequestFault::Memory => Ok(ServerTook::NoMemory),
        fault => Err(ServerFault::WrongRequest(fault)),
    }
}
