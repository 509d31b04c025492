//! What of a script's tokens is no answer.

use std::alloc::{AllocError, Global};
use tds_wire::{Features, TokenParser};

/// The most columns of an answer in a script.
const COLUMNS: u16 = 1024;

/// The least byte of DONE, DONEPROC and DONEINPROC (MS-TDS 2.2.7.6 to 2.2.7.8).
const DONE: u8 = 0xfd;

/// At which byte tokens are no answer, and why; none where they are one.
pub(crate) fn fault_of<'a>(
    alloc: Global,
    tokens: &[u8],
) -> Result<Option<(u64, &'a str)>, AllocError> {
    let features = Features {
        encryption: false,
        ranks: false,
    };
    let mut parser = TokenParser::new(alloc, COLUMNS, features)?;
    let last = match last_token(&mut parser, tokens) {
        Ok(last) => last,
        Err(at) => return Ok(Some((at, "no token of an answer stands there"))),
    };
    let count = tokens.len() as u64;
    if !parser.is_between() {
        return Ok(Some((count, "its last token isn't whole")));
    }
    if last < DONE {
        return Ok(Some((count, "its last token is no DONE")));
    }
    Ok(None)
}

/// The first byte of the last token, 0 where there is none; or the byte at which no token stands.
fn last_token(parser: &mut TokenParser, tokens: &[u8]) -> Result<u8, u64> {
    let mut rest = tokens;
    let mut last = 0;
    for _ in 0..tokens.len() {
        if rest.is_empty() {
            break;
        }
        let fed = match parser.feed(rest) {
            Ok(fed) => fed,
            Err(refusal) => return Err(refusal.at),
        };
        if let Some(token) = fed.token {
            last = token.kind;
        }
        rest = &rest[fed.count..];
    }
    Ok(last)
}
