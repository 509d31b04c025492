ghost use Rattle.std.specs.Prelude.{◌≡◌, ◌⊎◌, ℕ, Ok, Err, Some, None, IfOk, IfErr};
ghost use Rattle.tds_request.specs.declared.fault.RequestFault.{RequestFault};
ghost use Rattle.tds_request.specs.declared.fault.RequestFault.TheVariants.{Memory};
ghost use Rattle.tds_request.specs.declared.request.Request.{Request};
ghost use Rattle.tds_request.specs.declared.request.RequestKind.TheVariants.{Batch};
ghost use Rattle.tds_request.specs.Layout.{IsRequest};
ghost use Rattle.tds_request.specs.Reading.{Answers, Gives, read_request, wrong_request};
ghost use Rattle.tds_request.specs.Reading.{headers_at, header_fields_at, is_text_length, batch_in};
ghost use Rattle.tds_request.specs.Reading.{transaction_in, begun_in, begun_anew_in, end_in, ended as ended_at};
ghost use Rattle.tds_request.specs.Reading.{isolation_of};

use crate::fault::RequestFault;
use crate::fields::{byte, byte_is, number16, number16_is, number32_is, number64};
use crate::isolation::Isolation;
use crate::request::{Request, RequestKind};
use crate::text::BatchText;
use std::alloc::Global;

/// Reads a whole message of this kind (the data of its packets, joined): the descriptor in its
/// ALL_HEADERS (MS-TDS 2.2.5.3), and the request (2.2.6.7, 2.2.6.9).
///
/// The fields are judged in their order, and the first wrong one is the fault. Memory is wanted for
/// the text of a batch alone, and only where the bytes spell a request.
pub fn decode(
    alloc: Global,
    kind: RequestKind,
    bytes: &[u8],
) -> Result<(u64, Request), RequestFault>
    // What is read is spelled so.
    ensures found { IfOk result (λ x. IsRequest kind x.0 x.1 bytes.now) }
    // What is spelled so is read, unless memory runs out.
    ensures only { (descriptor : ℕ) (request : Request)
        → IsRequest kind descriptor request bytes.now
        → (result ≡ Ok (descriptor, request)) ⊎ (result ≡ Err Memory) }
    // The first wrong field is the fault, before any growth.
    ensures wrong { (fault : RequestFault)
        → wrong_request kind bytes.now ≡ Some fault → result ≡ Err fault }
    // Any fault but want of memory is that of the first wrong field.
    ensures fault { IfErr result (λ fault.
        (wrong_request kind bytes.now ≡ Some fault) ⊎ (fault ≡ Memory)) }
    // Memory is wanted only for what spells a request.
    ensures memory { result ≡ Err Memory
        → (descriptor : ℕ) × (request : Request) × IsRequest kind descriptor request bytes.now }
    // A begin, a commit and a rollback are read without memory.
    ensures batch { result ≡ Err Memory → kind ≡ Batch }
    // What reading gives, as one equation.
    ensures exact { Answers result (read_request kind bytes.now) }
{
    message(alloc, kind, bytes)
}

#[tactic(auto, unfolding(crate::specs::Reading::read_request))]
fn message(alloc: Global, kind: RequestKind, bytes: &[u8]) -> Result<(u64, Request), RequestFault>
    ensures exact { Answers result (read_request kind bytes.now) }
    ensures batch { result ≡ Err Memory → kind ≡ Batch }
{
    let (descriptor, body) = headers(bytes)?;
    let request = match kind {
        RequestKind::Batch => batch(alloc, body)?,
        RequestKind::Transaction => transaction(body)?,
    };
    Ok((descriptor, request))
}

/// The descriptor in ALL_HEADERS, and the bytes behind them (MS-TDS 2.2.5.3).
#[tactic(auto, unfolding(crate::specs::Reading::headers_at))]
fn headers(bytes: &[u8]) -> Result<(u64, &[u8]), RequestFault>
    ensures { Gives (λ x. (x.0, x.1.now)) result (headers_at bytes.now) }
{
    if bytes.len() < 22 {
        return Err(RequestFault::Short);
    }
    header_fields(bytes)
}

#[tactic(auto, unfolding(crate::specs::Reading::header_fields_at))]
fn header_fields(bytes: &[u8]) -> Result<(u64, &[u8]), RequestFault>
    ensures { Gives (λ x. (x.0, x.1.now)) result (header_fields_at bytes.now) }
{
    let rest = number32_is(bytes, 22, RequestFault::WrongTotalLength)?;
    let rest = number32_is(rest, 18, RequestFault::WrongHeader)?;
    let rest = number16_is(rest, 2, RequestFault::WrongHeader)?;
    let (descriptor, rest) = number64(rest)?;
    let rest = number32_is(rest, 1, RequestFault::WrongCount)?;
    Ok((descriptor, rest))
}

/// Whether the text of a batch has this many bytes.
fn is_length_of_text(length: usize) -> bool
    ensures { result ≡ is_text_length length }
{
    length != 0 && length % 2 == 0 && length <= 4000
}

/// The batch with this text (MS-TDS 2.2.6.7).
#[tactic(auto, unfolding(crate::specs::Reading::batch_in))]
fn batch(alloc: Global, bytes: &[u8]) -> Result<Request, RequestFault>
    ensures { Answers result (batch_in bytes.now) }
{
    if !is_length_of_text(bytes.len()) {
        return Err(RequestFault::WrongTextLength);
    }
    let text = BatchText::from_le_bytes(alloc, bytes)?;
    Ok(Request::Batch(text))
}

/// The transaction manager request with this type and payload (MS-TDS 2.2.6.9).
#[tactic(auto, unfolding(crate::specs::Reading::transaction_in))]
fn transaction(bytes: &[u8]) -> Result<Request, RequestFault>
    ensures { Gives (λ x. x) result (transaction_in bytes.now) }
{
    let (kind, payload) = number16(bytes)?;
    match kind {
        5 => Ok(Request::Begin(begun(payload)?)),
        7 => Ok(Request::Commit(end(payload)?)),
        8 => Ok(Request::Rollback(end(payload)?)),
        _ => Err(RequestFault::WrongRequestType),
    }
}

/// What begins a transaction: an isolation level and an empty name.
#[tactic(auto, unfolding(crate::specs::Reading::begun_in))]
fn begun(payload: &[u8]) -> Result<Isolation, RequestFault>
    ensures { Gives (λ x. x) result (begun_in payload.now) }
{
    let (number, rest) = byte(payload)?;
    let level = isolation(number)?;
    let rest = byte_is(rest, 0, RequestFault::WrongName)?;
    ended(rest)?;
    Ok(level)
}

/// What the commit or rollback with this payload begins anew: behind an empty name stand the flags.
#[tactic(auto, unfolding(crate::specs::Reading::end_in))]
fn end(payload: &[u8]) -> Result<Option<Isolation>, RequestFault>
    ensures { Gives (λ x. x) result (end_in payload.now) }
{
    let rest = byte_is(payload, 0, RequestFault::WrongName)?;
    let (flags, rest) = byte(rest)?;
    begun_anew(flags, rest)
}

/// What these flags and the bytes behind them begin anew.
#[tactic(auto, unfolding(crate::specs::Reading::begun_anew_in))]
fn begun_anew(flags: u8, rest: &[u8]) -> Result<Option<Isolation>, RequestFault>
    ensures { Gives (λ x. x) result (begun_anew_in flags rest.now) }
{
    match flags {
        0 => {
            ended(rest)?;
            Ok(None)
        }
        1 => Ok(Some(begun(rest)?)),
        _ => Err(RequestFault::WrongFlags),
    }
}

/// Nothing stands behind the last field.
fn ended(rest: &[u8]) -> Result<(), RequestFault>
    ensures { Gives (λ x. x) result (ended_at tt rest.now) }
{
    if !rest.is_empty() {
        return Err(RequestFault::BytesLeftOver);
    }
    Ok(())
}

/// The isolation level of this number.
fn isolation(number: u8) -> Result<Isolation, RequestFault>
    ensures { Gives (λ x. x) result (isolation_of number) }
{
    match Isolation::new(number) {
        Some(level) => Ok(level),
        None => Err(RequestFault::WrongIsolation),
    }
}
