//! What stands behind the token byte of an INFO or an ERROR (MS-TDS 2.2.7.13, 2.2.7.10).

ghost use Rattle.std.specs.Prelude.{◌≡◌, Ok, Err, MatchResult};
ghost use Rattle.tds_token.specs.declared.message.Message.{Message};
ghost use Rattle.tds_token.specs.Lent.{message_of};
ghost use Rattle.tds_token.specs.Reading.{Gives, message_in, message_at};

use crate::fault::TokenFault;
use crate::message::{Fields, MessageRef};
use crate::reading::fields::{byte, int, long_text, short_text, sized};

/// The fields of the message that fills the bytes which a Length counts.
#[tactic(auto, unfolding(crate::specs::Reading::message_in))]
pub(crate) fn fields_inside(inside: &[u8]) -> Result<Fields<'_>, TokenFault>
    ensures { Gives message_of result (message_in inside.now) }
{
    let (number, rest) = int(inside, TokenFault::WrongLength)?;
    let (state, rest) = byte(rest, TokenFault::WrongLength)?;
    let (class, rest) = byte(rest, TokenFault::WrongLength)?;
    let (text, rest) = long_text(rest)?;
    let (server, rest) = short_text(rest)?;
    let (procedure, rest) = short_text(rest)?;
    let (line, rest) = int(rest, TokenFault::WrongLength)?;
    if !rest.is_empty() {
        return Err(TokenFault::WrongLength);
    }
    Ok(Fields {
        number,
        state,
        class,
        text,
        server,
        procedure,
        line,
    })
}

/// Whether these bytes are a message's.
// Few tokens are messages: a row, or a DONE, is looked for first.
#[inline(never)]
#[cold]
fn check_message(inside: &[u8]) -> Result<(), TokenFault>
    ensures { MatchResult result (λ x. (message : Message) × (message_in inside.now ≡ Ok message))
        (λ e. message_in inside.now ≡ Err e) }
{
    fields_inside(inside)?;
    Ok(())
}

#[tactic(auto, unfolding(crate::specs::Reading::message_at))]
#[inline(always)]
pub(crate) fn message(bytes: &[u8]) -> Result<(MessageRef<'_>, &[u8]), TokenFault>
    ensures { Gives (λ x. (x.0, x.1.now)) result (message_at bytes.now) }
{
    let (inside, rest) = sized(bytes)?;
    check_message(inside)?;
    Ok((MessageRef::new(inside), rest))
}
