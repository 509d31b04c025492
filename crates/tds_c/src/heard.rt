//! The exports for a driver that reads an answer's tokens by itself: each tells the client one thing
//! that was heard, of any server.

ghost use Rattle.std.specs.Prelude.{◌≡◌, Result};
ghost use Rattle.tds_client.specs.declared.sign.Sign.{Sign};
ghost use Rattle.tds_client.specs.declared.sign.Sign.TheVariants as signs;
ghost use Rattle.tds_client.specs.declared.state.Taken.{Taken};
ghost use Rattle.tds_c.specs.declared.answers.Stop.{Stop};
ghost use Rattle.tds_c.specs.declared.heard.Told.{Told};
ghost use Rattle.tds_c.specs.Answers.{number_of, taken_number};
ghost use Rattle.tds_c.specs.Heard.{Ends, Hears, HearsChange, HearsDone};
ghost use Rattle.tds_c.specs.Heard.{change_from, done_kind_from, told_number};

use crate::answers::{Stop, taken_code};
use crate::client::TdsClient;
use tds_client::{DoneKind, Rules, Sign, Taken};
use tds_token::EnvChange;

/// What is to become of a token that was heard.
#[derive(Clone, Copy)]
pub(crate) enum Told {
    /// 10: the caller that asked is told of it.
    Tell,
    /// 11: nobody is: the request was cancelled.
    Drop,
}

/// 10 or 11, or why not.
#[inline(always)]
fn told_code(answer: Result<Told, Stop>) -> u8
    ensures { result ≡ number_of told_number answer }
{
    match answer {
        Ok(Told::Tell) => 10,
        Ok(Told::Drop) => 11,
        Err(stop) => stop.number(),
    }
}

#[inline(always)]
fn hear(client: &mut TdsClient, sign: Sign) -> Result<Told, Stop>
    ensures { Hears sign client.old client.new result }
{
    let Some(mut parts) = client.held(&[]) else {
        return Err(Stop::NoClient);
    };
    let told = if parts.may_tell() {
        Told::Tell
    } else {
        Told::Drop
    };
    let heard = parts.hear_sign(Rules::Any, sign);
    *client = TdsClient::of(&parts, 0);
    match heard {
        Ok(()) => Ok(told),
        Err(fault) => Err(Stop::Client(fault)),
    }
}

/// The change of this number (MS-TDS 2.2.7.9).
#[inline(always)]
#[tactic(auto, unfolding(crate::specs::Heard::change_from))]
fn change(number: u8, descriptor: u64) -> Option<EnvChange>
    ensures { result ≡ change_from number descriptor }
{
    match number {
        8 | 11 => Some(EnvChange::Begin(descriptor)),
        9 | 12 => Some(EnvChange::Commit(descriptor)),
        10 | 17 => Some(EnvChange::Rollback(descriptor)),
        18 => Some(EnvChange::ResetDone),
        _ => None,
    }
}

/// The kind of DONE of this token byte.
#[inline(always)]
#[tactic(auto, unfolding(crate::specs::Heard::done_kind_from))]
fn done_kind(number: u8) -> Option<DoneKind>
    ensures { result ≡ done_kind_from number }
{
    match number {
        0xFD => Some(DoneKind::Statement),
        0xFE => Some(DoneKind::Procedure),
        0xFF => Some(DoneKind::InProcedure),
        _ => None,
    }
}

#[inline(always)]
fn hear_change(client: &mut TdsClient, number: u8, descriptor: u64) -> Result<Told, Stop>
    ensures { HearsChange (change_from number descriptor) client.old client.new result }
{
    match change(number, descriptor) {
        Some(change) => hear(client, Sign::Change(change)),
        None => Err(Stop::OutOfRange),
    }
}

#[inline(always)]
fn hear_done(client: &mut TdsClient, number: u8, status: u16) -> Result<Told, Stop>
    ensures { HearsDone (done_kind_from number) status client.old client.new result }
{
    match done_kind(number) {
        Some(kind) => hear(client, Sign::Done { kind, status }),
        None => Err(Stop::OutOfRange),
    }
}

#[inline(always)]
fn end_message(client: &mut TdsClient) -> Result<Taken, Stop>
    ensures { Ends client.old client.new result }
{
    let Some(mut parts) = client.held(&[]) else {
        return Err(Stop::NoClient);
    };
    let ended = parts.end_message(Rules::Any);
    *client = TdsClient::of(&parts, 0);
    match ended {
        Ok(taken) => Ok(taken),
        Err(fault) => Err(Stop::Client(fault)),
    }
}

/// A transaction began or ended, or a reset is done (ENVCHANGE 8, 9, 10 and 18; 11 counts as a
/// begin, 12 and 17 as an end). 10 tell the caller, 11 drop it.
#[unsafe(no_mangle)]
pub extern "C" fn tds_client_heard_change(client: &mut TdsClient, change: u8, descriptor: u64) -> u8
    ensures { (answer : Result Told Stop) × (result ≡ number_of told_number answer)
        × HearsChange (change_from change descriptor) client.old client.new answer }
{
    told_code(hear_change(client, change, descriptor))
}

/// A DONE (`FD`), DONEPROC (`FE`) or DONEINPROC (`FF`) came with this status. 10 tell the caller,
/// 11 drop it.
#[unsafe(no_mangle)]
pub extern "C" fn tds_client_heard_done(client: &mut TdsClient, kind: u8, status: u16) -> u8
    ensures { (answer : Result Told Stop) × (result ≡ number_of told_number answer)
        × HearsDone (done_kind_from kind) status client.old client.new answer }
{
    told_code(hear_done(client, kind, status))
}

/// Any other token came. 10 tell the caller, 11 drop it.
#[unsafe(no_mangle)]
pub extern "C" fn tds_client_heard_other(client: &mut TdsClient) -> u8
    ensures { (answer : Result Told Stop) × (result ≡ number_of told_number answer)
        × Hears signs.Nothing client.old client.new answer }
{
    told_code(hear(client, Sign::Nothing))
}

/// A message has ended. 1 the acknowledgement is still to come, 3 the answer has ended, 4 the
/// attention is acknowledged.
#[unsafe(no_mangle)]
pub extern "C" fn tds_client_message_ended(client: &mut TdsClient) -> u8
    ensures { (answer : Result Taken Stop) × (result ≡ number_of taken_number answer)
        × Ends client.old client.new answer }
{
    match end_message(client) {
        Ok(taken) => taken_code(taken),
        Err(stop) => stop.number(),
    }
}
