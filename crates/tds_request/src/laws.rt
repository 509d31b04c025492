//! Laws of the layout. All but the last have no body: they hold of any numbers, and do nothing
//! when they run.

ghost use Rattle.std.specs.Prelude.{◌≡◌, ◌⊎◌, ◌≤◌, ℕ, List, length, None, Ok, Err};
ghost use Rattle.tds_request.specs.declared.fault.RequestFault.TheVariants.{Memory};
ghost use Rattle.tds_request.specs.declared.request.Request.{Request};
ghost use Rattle.tds_request.specs.declared.request.RequestKind.{RequestKind};
ghost use Rattle.tds_request.specs.Values.{AreBytes};
ghost use Rattle.tds_request.specs.Layout.{IsRequest};
ghost use Rattle.tds_request.specs.Reading.{read_request, wrong_request};

use crate::decoding::decode;
use crate::encoding::encode;
use crate::fault::RequestFault;
use crate::request::Request;
use std::alloc::Global;

/// A descriptor and a request have one spelling, and it is a message of one kind.
pub fn one_spelling()
    ensures { (kind other : RequestKind) (descriptor : ℕ) (request : Request)
        (first second : List ℕ)
        → IsRequest kind descriptor request first → IsRequest other descriptor request second
        → (first ≡ second) × (kind ≡ other) }
{}

/// A message has one descriptor and one request. Its kind is not in these bytes: the type of its
/// packets says it.
pub fn one_value()
    ensures { (kind : RequestKind) (first second : ℕ) (one other : Request)
        (bytes : List ℕ)
        → IsRequest kind first one bytes → IsRequest kind second other bytes
        → (first ≡ second) × (one ≡ other) }
{}

/// A message has 24 to 4,022 bytes.
pub fn length_of_message()
    ensures { (kind : RequestKind) (descriptor : ℕ) (request : Request)
        (bytes : List ℕ)
        → IsRequest kind descriptor request bytes → (24 ≤ length bytes) × (length bytes ≤ 4022) }
{}

/// Bytes spell a request, or one of their fields is the first wrong one: never both, never neither.
pub fn spelled_or_wrong()
    ensures spelled { (kind : RequestKind) (descriptor : ℕ) (request : Request)
        (bytes : List ℕ)
        → IsRequest kind descriptor request bytes → wrong_request kind bytes ≡ None }
    ensures wrong { (kind : RequestKind) (bytes : List ℕ)
        → AreBytes bytes → wrong_request kind bytes ≡ None
        → (descriptor : ℕ) × (request : Request) × IsRequest kind descriptor request bytes }
{}

/// What a message spells is read of it: its descriptor and its request.
pub fn spelled_is_read()
    ensures { (kind : RequestKind) (descriptor : ℕ) (request : Request)
        (bytes : List ℕ)
        → IsRequest kind descriptor request bytes
        → read_request kind bytes ≡ Ok (descriptor, request) }
{}

/// What was encoded is decoded again, unless memory runs out. It rests on the contracts of the two
/// calls alone.
pub fn decodes_again(
    alloc: Global,
    request: &Request,
    descriptor: u64,
) -> Result<(u64, Request), RequestFault>
    ensures { (result ≡ Ok (descriptor, request.now)) ⊎ (result ≡ Err Memory) }
{
    let mut bytes = Vec::new(alloc);
    encode(request, descriptor, &mut bytes)?;
    decode(alloc, request.kind(), bytes.as_slice())
}
