ghost use Rattle.std.specs.Prelude.{◌≡◌, ◌∷◌, ◌++◌, ◌+◌, ◌*◌, ◌≤◌, IsOk, OnOk, OnErr, IfSome, length};
ghost use Rattle.std.specs.Vec.{vec_len, vec_capacity};
ghost use Rattle.tds_request.specs.Layout.{IsRequest, kind_of_request, request_spelling};
ghost use Rattle.tds_request.specs.Values.{IsIsolation};
ghost use Rattle.tds_request.specs.Layout.{all_headers, begun_anew, no_name, text_bytes};

use crate::NoMemory;
use crate::isolation::Isolation;
use crate::request::Request;

/// Appends the whole message of this request in the transaction of this descriptor, which is 0
/// outside one. Where memory runs out, the bytes are as they were.
#[tactic(auto, using(crate::proofs::Texts::text_length))]
pub fn encode(request: &Request, descriptor: u64, out: &mut Vec<u8>) -> Result<(), NoMemory>
    // What is appended spells the descriptor and the request.
    ensures appended { OnOk result
        (out.new.items ≡ out.old.items ++ request_spelling descriptor request.now) }
    ensures spelled { IsRequest (kind_of_request request.now) descriptor request.now
        (request_spelling descriptor request.now) }
    ensures limits { (24 ≤ length (request_spelling descriptor request.now))
        × (length (request_spelling descriptor request.now) ≤ 4022) }
    ensures unchanged { OnErr result (out.new.items ≡ out.old.items) }
{
    match request {
        Request::Batch(text) => put_batch(descriptor, text.units(), out),
        Request::Begin(isolation) => put_message(descriptor, &[5, 0, isolation.get(), 0], out),
        Request::Commit(anew) => put_end(descriptor, 7, *anew, out),
        Request::Rollback(anew) => put_end(descriptor, 8, *anew, out),
    }
}

/// A commit or rollback: its request type, an empty name, the flags and what they say follows
/// (MS-TDS 2.2.6.9).
fn put_end(
    descriptor: u64,
    request_type: u8,
    anew: Option<Isolation>,
    out: &mut Vec<u8>,
) -> Result<(), NoMemory>
    ensures appended { OnOk result (out.new.items ≡ out.old.items ++ (all_headers descriptor
        ++ (request_type ∷ 0 ∷ (no_name ++ begun_anew anew)))) }
    ensures range { IfSome anew IsIsolation }
    ensures unchanged { OnErr result (out.new.items ≡ out.old.items) }
{
    match anew {
        None => put_message(descriptor, &[request_type, 0, 0, 0], out),
        Some(level) => put_message(descriptor, &[request_type, 0, 0, 1, level.get(), 0], out),
    }
}

/// ALL_HEADERS with this descriptor (MS-TDS 2.2.5.3).
#[inline(always)]
pub fn headers(descriptor: u64) -> [u8; 22]
    ensures { result ≡ all_headers descriptor }
{
    let d = descriptor.to_le_bytes();
    [
        22, 0, 0, 0, 18, 0, 0, 0, 2, 0, d[0], d[1], d[2], d[3], d[4], d[5], d[6], d[7], 1, 0, 0, 0,
    ]
}

/// A message with this body.
fn put_message(descriptor: u64, body: &[u8], out: &mut Vec<u8>) -> Result<(), NoMemory>
    requires { length body.now ≤ 4000 }
    ensures appended { OnOk result
        (out.new.items ≡ out.old.items ++ (all_headers descriptor ++ body.now)) }
    ensures unchanged { OnErr result (out.new.items ≡ out.old.items) }
{
    out.reserve(22 + body.len())?;
    out.extend_from_slice(&headers(descriptor))?;
    out.extend_from_slice(body)
}

/// A batch with this text.
fn put_batch(descriptor: u64, units: &[u16], out: &mut Vec<u8>) -> Result<(), NoMemory>
    requires { length units.now ≤ 2000 }
    ensures appended { OnOk result
        (out.new.items ≡ out.old.items ++ (all_headers descriptor ++ text_bytes units.now)) }
    ensures unchanged { OnErr result (out.new.items ≡ out.old.items) }
{
    out.reserve(22 + 2 * units.len())?;
    out.extend_from_slice(&headers(descriptor))?;
    put_units(units, out)
}

/// A text, where there is room for it.
fn put_units(units: &[u16], out: &mut Vec<u8>) -> Result<(), NoMemory>
    requires room { vec_len out.old + 2 * length units.now ≤ vec_capacity out.old }
    ensures appended { out.new.items ≡ out.old.items ++ text_bytes units.now }
    ensures ok { IsOk result }
{
    'units: for unit in units {
        out.extend_from_slice(&unit.to_le_bytes())?;
    }
    Ok(())
}
