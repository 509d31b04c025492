//! The tokens of a message.
ghost use Rattle.std.specs.Prelude.{◌≡◌, IfOk, string_bytes};
ghost use Rattle.tds_show.specs.Messages.{IsPlain, after, lines_of};

use crate::tokens::line::put_token;
use std::alloc::AllocError;
use tds_wire::{TokenParser, WireFault, tokens_are_passed};

/// How a message's data end.
#[derive(Clone, Copy, Debug)]
pub(crate) enum Ending {
    /// Between two tokens.
    Between,
    /// Inside a token.
    Inside,
    /// With this fault, at this byte.
    Refused(WireFault, u64),
}

/// Appends a line for each token that ends in the data of a message, and says how the data end.
pub(crate) fn put_tokens(
    text: &mut String,
    parser: &mut TokenParser,
    data: &[u8],
) -> Result<Ending, AllocError>
    requires plain { IsPlain parser.old }
    ensures lines { IfOk result (λ ending. record { text = string_bytes text.new; ending = ending }
        ≡ after (string_bytes text.old) (lines_of «data».now)) }
    ensures plain { IfOk result (λ ending. ending ≡ Ending.Between → IsPlain parser.new) }
{
    tokens_are_passed();
    parser.restart();
    let mut rest = data;
    // Each token has a byte at least.
    let mut most = data.len();
    'tokens: while most > 0 && !rest.is_empty() {
        most -= 1;
        let fed = match parser.feed(rest) {
            Ok(fed) => fed,
            Err(refusal) => return Ok(Ending::Refused(refusal.fault, refusal.at)),
        };
        let token = match fed.token {
            Some(token) => token,
            None => return Ok(Ending::Inside),
        };
        put_token(text, &token)?;
        rest = &rest[fed.count..];
    }
    Ok(Ending::Between)
}
