//! What a seat's client makes of what a walk finds: of a token, of bytes that are none, and of a message's
//! end.

ghost use Rattle.std.specs.Prelude.{◌≡◌, ◌<◌, [], IfErr, IfOk, OnOk, Option, length, true};
ghost use Rattle.tds_listen.specs.Signs.{sign_of};
ghost use Rattle.tds_wire.specs.declared.told.Token.{Token as AnyToken};
ghost use Rattle.tds_wire.specs.Reading.{Refuses};
ghost use Rattle.tds_walk.specs.WireTokens.{Puts};
ghost use Rattle.tds_service.specs.Line as line;
ghost use Rattle.tds_service.specs.Ties.{Hears, listed, part_of, taken_answer};
ghost use Rattle.tds_c.specs.service.Clients.{apart};
ghost use Rattle.tds_c.specs.service.ComesOn.{HeardOn, is_reading};
ghost use Rattle.tds_c.specs.service.Hearing.{end_part, one_part, told_if};
ghost use Rattle.tds_c.specs.service.Plain.{line_of, place_of, stage_of};

use crate::service::hearing::is_told;
use crate::service::plain::TdsSeat;
use crate::service::seat::Stage;
use tds_client::{ClientFault, Sign, Taken};
use tds_listen::{ListenFault, sign_of};
use tds_service::Outcome;
use tds_walk::{TdsWireToken, put_shown};
use tds_wire::{Refusal, Token};

impl TdsSeat {
    /// Whether its client reads the answer of a request, so that tokens may be told.
    #[inline(always)]
    pub(super) fn may_tell(&self) -> bool
        ensures { result ≡ is_reading (stage_of self.now.client) }
    {
        match self.stage() {
            Stage::Idle => false,
            Stage::Unsent => false,
            Stage::Sending => false,
            Stage::Reading => true,
            Stage::Cancelling => false,
            Stage::Broken => false,
        }
    }

    /// Its client hears that bytes came which no answer has: it is broken, and by what.
    #[inline(always)]
    #[tactic(auto, unfolding(crate::specs::service::Plain::stage_at))]
    fn fails(self, refusal: Refusal) -> (TdsSeat, ListenFault)
        ensures hears { Hears (part_of (Refuses refusal)) (line_of self) (line_of result.0)
            (line.Fault result.1) [] }
        ensures place { place_of result.0 ≡ place_of self }
        ensures number { result.0.number ≡ self.number }
        ensures apart { apart result.0.client ≡ apart self.client }
    {
        match self.client.stage {
            0 => (
                self.broken(1),
                ListenFault::Client(ClientFault::AnswerInIdle),
            ),
            1 => (
                self.broken(2),
                ListenFault::Client(ClientFault::AnswerInSending),
            ),
            2 => (self.broken(9), ListenFault::Wire(refusal)),
            3 => (self.broken(9), ListenFault::Wire(refusal)),
            _ => {
                let fault = self.fault();
                (self, ListenFault::Client(fault))
            }
        }
    }
}

/// The seat's client hears that bytes came which no answer has. What breaks it.
#[cold]
pub(super) fn fail(seat: &mut TdsSeat, refusal: Refusal) -> ListenFault
    ensures { HeardOn (part_of (Refuses refusal)) seat.old seat.new (line.Fault result) [] }
{
    let (broken, fault) = seat.fails(refusal);
    *seat = broken.settled();
    fault
}

/// Whether a token of this sign is told and changes nothing: it says nothing to a session, and the client reads an answer.
#[inline(always)]
fn passes_on(seat: &TdsSeat, sign: Sign) -> bool
    ensures { result ≡ true
        → (sign ≡ Sign.Nothing) × (is_reading (stage_of seat.now.client) ≡ true) }
{
    match sign {
        Sign::Nothing => seat.may_tell(),
        Sign::Change(_) => false,
        Sign::Done { .. } => false,
    }
}

/// The seat's client hears a token. Whether it is told.
#[inline(always)]
fn hear_said(seat: &mut TdsSeat, token: &Token) -> Result<bool, ListenFault>
    ensures ok { IfOk result (λ told. HeardOn (one_part (sign_of token.now) token.now)
        seat.old seat.new line.More (told_if told token.now)) }
    ensures tells { IfOk result (λ told. told ≡ true
        → is_reading (stage_of seat.old.client) ≡ true) }
    ensures fault { IfErr result (λ fault. HeardOn (one_part (sign_of token.now) token.now)
        seat.old seat.new (line.Fault fault) []) }
{
    let sign = sign_of(token);
    // Most tokens do so, and of the others most change little: no seat is read out and written back.
    if passes_on(seat, sign) {
        return Ok(true);
    }
    if let Some(heard) = seat.hears(sign) {
        seat.hold(heard);
        return Ok(is_told(sign));
    }
    hear_other(seat, token)
}

/// The same, whatever the token says.
#[inline(never)]
fn hear_other(seat: &mut TdsSeat, token: &Token) -> Result<bool, ListenFault>
    ensures ok { IfOk result (λ told. HeardOn (one_part (sign_of token.now) token.now)
        seat.old seat.new line.More (told_if told token.now)) }
    ensures tells { IfOk result (λ told. told ≡ true
        → is_reading (stage_of seat.old.client) ≡ true) }
    ensures fault { IfErr result (λ fault. HeardOn (one_part (sign_of token.now) token.now)
        seat.old seat.new (line.Fault fault) []) }
{
    let heard = seat.hear(sign_of(token));
    *seat = heard.seat.settled();
    match heard.outcome {
        Outcome::More => Ok(heard.told),
        Outcome::Finished => Ok(false),
        Outcome::Acknowledged => Ok(false),
        Outcome::Fault(fault) => Err(fault),
    }
}

/// The seat's client hears a token. Where it is told, it is written behind those before it.
#[inline(always)]
pub(super) fn hear_token(
    seat: &mut TdsSeat,
    token: &Token,
    tokens: &mut [TdsWireToken],
    count: &mut usize,
) -> Result<(), ListenFault>
    requires room { is_reading (stage_of seat.old.client) ≡ true
        → count.old < length tokens.old }
    ensures ok { OnOk result ((told : Option AnyToken)
        × HeardOn (one_part (sign_of token.now) token.now) seat.old seat.new line.More (listed told)
        × Puts told (record { before = tokens.old; after = tokens.new; count = count.new })
        count.old) }
    ensures fault { IfErr result (λ fault. HeardOn (one_part (sign_of token.now) token.now)
        seat.old seat.new (line.Fault fault) []) }
    ensures stays { IfErr result (λ _. tokens.new ≡ tokens.old) }
    ensures same { IfErr result (λ _. count.new ≡ count.old) }
    ensures room { length tokens.new ≡ length tokens.old }
{
    let told = match hear_said(seat, token) {
        Ok(told) => told,
        Err(fault) => return Err(fault),
    };
    if told {
        put_shown(token, &mut tokens[*count]);
        *count += 1;
    }
    Ok(())
}

/// The seat's client hears that a message has ended, inside a token or between two.
#[inline(always)]
pub(super) fn end_message(seat: &mut TdsSeat, cut: bool) -> Result<Taken, ListenFault>
    ensures ok { IfOk result (λ taken. HeardOn (end_part cut) seat.old seat.new
        (taken_answer seat.old.asked taken) []) }
    ensures fault { IfErr result (λ fault. HeardOn (end_part cut) seat.old seat.new
        (line.Fault fault) []) }
{
    // Most do so: what changes is written in its place.
    if !cut && seat.has_answer() {
        seat.end_answer();
        return Ok(Taken::Finished);
    }
    end_other(seat, cut)
}

/// The same, whatever is known.
#[inline(never)]
fn end_other(seat: &mut TdsSeat, cut: bool) -> Result<Taken, ListenFault>
    ensures ok { IfOk result (λ taken. HeardOn (end_part cut) seat.old seat.new
        (taken_answer seat.old.asked taken) []) }
    ensures fault { IfErr result (λ fault. HeardOn (end_part cut) seat.old seat.new
        (line.Fault fault) []) }
{
    let ended = seat.end(cut);
    *seat = ended.seat.settled();
    match ended.outcome {
        Outcome::More => Ok(Taken::More),
        Outcome::Finished => Ok(Taken::Finished),
        Outcome::Acknowledged => Ok(Taken::Acknowledged),
        Outcome::Fault(fault) => Err(fault),
    }
}
