//! What the client hears of a token, and of a message's end.

ghost use Rattle.std.specs.Prelude.{◌≡◌, ◌≤◌, ◌<◌, [], Ok, Err, IfErr, MatchResult, OnOk, true, length};
ghost use Rattle.tds_client.specs.Machine.{signed, tells};
ghost use Rattle.tds_client.specs.Parts.{session_from, stage_from};
ghost use Rattle.tds_client.specs.Session.{lost};
ghost use Rattle.tds_client.specs.Taking.{broken_by};
ghost use Rattle.tds_client.specs.declared.sign.Rules.TheVariants.{Any};
ghost use Rattle.tds_listen.specs.Faults.{broken_at_end};
ghost use Rattle.tds_listen.specs.Hearing.{heard_end, told_if};
ghost use Rattle.tds_listen.specs.Signs.{sign_of};
ghost use Rattle.tds_wire.specs.Reading.{Parser, is_between};
ghost use Rattle.tds_walk.specs.WireTokens.{Puts};

use tds_client::{ClientFault, ClientParts, Rules, StageParts, Taken};
use tds_listen::{ListenFault, sign_of};
use tds_walk::{TdsWireToken, put_shown};
use tds_wire::Token;

/// The connection is lost: the client is broken, unless it is broken already.
#[cold]
pub(super) fn lose(parts: &mut ClientParts)
    ensures { session_from parts.new [] ≡ lost (session_from parts.old []) }
{
    if let StageParts::Broken(_) = &parts.stage {
        return;
    }
    parts.stage = StageParts::Broken(ClientFault::Lost);
}

/// The client hears a token. Where it may be told, it is written behind those before it.
#[inline(always)]
pub(super) fn hear_token(
    parts: &mut ClientParts,
    token: &Token,
    tokens: &mut [TdsWireToken],
    count: &mut usize,
) -> Result<(), ClientFault>
    requires room { tells (stage_from parts.old.stage []) ≡ true → count.old < length tokens.old }
    ensures heard { MatchResult result
        (λ _. signed Any (session_from parts.old []) (sign_of token.now)
        ≡ Ok (session_from parts.new []))
        (λ fault. signed Any (session_from parts.old []) (sign_of token.now) ≡ Err fault) }
    ensures broken { IfErr result (λ fault. session_from parts.new []
        ≡ broken_by (session_from parts.old []) fault) }
    ensures put { OnOk result (Puts (told_if (tells (stage_from parts.old.stage [])) token.now)
        (record { before = tokens.old; after = tokens.new; count = count.new }) count.old) }
    ensures stays { IfErr result (λ _. tokens.new ≡ tokens.old) }
    ensures same { IfErr result (λ _. count.new ≡ count.old) }
    ensures room { length tokens.new ≡ length tokens.old }
{
    let tells = parts.may_tell();
    match parts.hear_sign(Rules::Any, sign_of(token)) {
        Ok(()) => {}
        Err(fault) => return Err(fault),
    }
    if tells {
        put_shown(token, &mut tokens[*count]);
        *count += 1;
    }
    Ok(())
}

/// The client hears that the message has ended, between two tokens or inside one.
#[inline(always)]
pub(super) fn end_message(parts: &mut ClientParts, between: bool) -> Result<Taken, ListenFault>
    ensures exact { (r : Parser) → is_between r ≡ between → MatchResult result
        (λ answer. heard_end (session_from parts.old []) r
        ≡ Ok (record { answer = answer; session = session_from parts.new [] }))
        (λ fault. heard_end (session_from parts.old []) r ≡ Err fault) }
    ensures broken { IfErr result (λ fault. session_from parts.new []
        ≡ broken_at_end (session_from parts.old []) fault) }
{
    if parts.may_tell() && !between {
        lose(parts);
        return Err(ListenFault::Cut);
    }
    let answer = match parts.end_message(Rules::Any) {
        Ok(answer) => answer,
        Err(fault) => return Err(ListenFault::Client(fault)),
    };
    match (answer, parts.heard.mark) {
        (Taken::Finished, Some(_)) => {
            lose(parts);
            Err(ListenFault::ResetUnanswered)
        }
        _ => Ok(answer),
    }
}
