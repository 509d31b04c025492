//! The messages of requests, written to the caller's buffer.

ghost use Rattle.std.specs.Prelude.{◌≡◌, ◌+◌, ◌*◌, ◌≤◌, ◌++◌, ℕ, List, length};
ghost use Rattle.tds_request.specs.Layout.{body_of, request_spelling, text_bytes};
ghost use Rattle.tds_request.specs.declared.request.Request.TheVariants.{Batch};
ghost use Rattle.tds_c.specs.declared.messages.Asked.{Asked};
ghost use Rattle.tds_c.specs.Calls.{body_bytes, request_of, with_front};

use crate::buffer::put_at;
use tds_request::headers;

/// Writes the message of a batch with this text (MS-TDS 2.2.6.7).
#[inline(always)]
pub(crate) fn put_batch(descriptor: u64, text: &[u16], out: &mut [u8])
    requires room { 22 + 2 * length text.now ≤ length out.old }
    ensures { out.new ≡ with_front (request_spelling descriptor (Batch text.now)) out.old }
{
    put_at(out, 0, &headers(descriptor));
    put_units(out, 22, text);
}

/// Writes a text behind the bytes that stand at the buffer's front.
#[inline(always)]
fn put_units(out: &mut [u8], at: usize, text: &[u16])
    requires room { at + 2 * length text.now ≤ length out.old }
    ensures { (front : List ℕ) (buffer : List ℕ) → length front ≡ at
        → out.old ≡ with_front front buffer
        → out.new ≡ with_front (front ++ text_bytes text.now) buffer }
{
    let mut place = at;
    'units: for unit in text {
        put_at(out, place, &unit.to_le_bytes());
        place += 2;
    }
}

/// A request to the server's transaction manager, with the isolation level of the transaction that
/// it begins (MS-TDS 2.2.6.9).
#[derive(Clone, Copy)]
pub(crate) enum Asked {
    Begin(u8),
    Commit(Option<u8>),
    Rollback(Option<u8>),
}

/// What stands behind the headers of its message.
#[derive(Clone, Copy)]
pub(crate) enum Body {
    Short([u8; 4]),
    /// The next transaction begins at once.
    Long([u8; 6]),
}

impl Asked {
    #[inline(always)]
    pub(crate) fn body(self) -> Body
        ensures { body_bytes result ≡ body_of (request_of self) }
    {
        match self {
            Asked::Begin(isolation) => Body::Short([5, 0, isolation, 0]),
            Asked::Commit(None) => Body::Short([7, 0, 0, 0]),
            Asked::Commit(Some(next)) => Body::Long([7, 0, 0, 1, next, 0]),
            Asked::Rollback(None) => Body::Short([8, 0, 0, 0]),
            Asked::Rollback(Some(next)) => Body::Long([8, 0, 0, 1, next, 0]),
        }
    }
}

impl Body {
    #[inline(always)]
    pub(crate) fn as_slice(&self) -> &[u8]
        ensures { result.now ≡ body_bytes self.now }
    {
        match self {
            Body::Short(bytes) => bytes,
            Body::Long(bytes) => bytes,
        }
    }
}

/// Writes the message of a request to the transaction manager.
#[inline(always)]
pub(crate) fn put_asked(descriptor: u64, body: &Body, out: &mut [u8])
    requires room { 22 + length (body_bytes body.now) ≤ length out.old }
    ensures { (asked : Asked) → body_bytes body.now ≡ body_of (request_of asked)
        → out.new ≡ with_front (request_spelling descriptor (request_of asked)) out.old }
{
    put_at(out, 0, &headers(descriptor));
    put_at(out, 22, body.as_slice());
}
