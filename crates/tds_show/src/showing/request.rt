use crate::showing::fault::ShowFault;
use std::alloc::{AllocError, Global};
use std::fmt::Write;
use tds_request::{Isolation, Request, RequestKind, decode};
use tds_text::put_units;

/// Appends the line of the request that a whole message spells, with the descriptor in its header.
pub(crate) fn put_request(
    alloc: Global,
    text: &mut String,
    kind: RequestKind,
    message: &[u8],
) -> Result<(), ShowFault> {
    let (descriptor, request) = decode(alloc, kind, message)?;
    put_line(text, descriptor, &request)?;
    Ok(())
}

fn put_line(text: &mut String, descriptor: u64, request: &Request) -> Result<(), AllocError> {
    match request {
        Request::Batch(batch) => {
            write!(text, "  batch {descriptor} ")?;
            put_units(text, batch.units())?;
            text.push_str("\n")
        }
        Request::Begin(isolation) => writeln!(text, "  begin {descriptor} {}", isolation.get()),
        Request::Commit(next) => put_end(text, "commit", descriptor, *next),
        Request::Rollback(next) => put_end(text, "rollback", descriptor, *next),
    }
}

/// The end of a transaction, and the isolation level of the one that begins at once.
fn put_end(
    text: &mut String,
    word: &str,
    descriptor: u64,
    next: Option<Isolation>,
) -> Result<(), AllocError> {
    match next {
        None => writeln!(text, "  {word} {descriptor}"),
        Some(isolation) => writeln!(text, "  {word} {descriptor} then {}", isolation.get()),
    }
}
