//! The exports that take a request. Each is the client's `start` with that request.

ghost use Rattle.std.specs.Prelude.{◌≡◌, Result};
ghost use Rattle.tds_request.specs.Values.{IsBatchText, IsIsolation};
ghost use Rattle.tds_request.specs.declared.request.Request.TheVariants as requests;
ghost use Rattle.tds_c.specs.declared.answers.Stop.{Stop};
ghost use Rattle.tds_c.specs.Answers.{done_number, number_of};
ghost use Rattle.tds_c.specs.Calls.{StartsIf, StartsNext, next_from, starts};

use crate::answers::{Stop, done_code};
use crate::calls;
use crate::client::TdsClient;
use crate::messages::Asked;
use tds_request::Isolation;

/// Takes a batch of 1 to 2,000 units (MS-TDS 2.2.6.7). Its message is written to `message`, which
/// needs room for 22 bytes and two a unit.
#[unsafe(no_mangle)]
pub extern "C" fn tds_client_start_batch(
    client: &mut TdsClient,
    text: &[u16],
    message: &mut [u8],
    count: &mut usize,
) -> u8
    ensures { (answer : Result (Unit {0}) Stop) × (result ≡ number_of done_number answer)
        × StartsIf (IsBatchText text.now) (starts client.old (requests.Batch text.now))
        client.old client.new
        (record { before = message.old; after = message.new; count = count.new }) answer }
{
    done_code(start_batch(client, text, message, count))
}

#[inline(always)]
fn start_batch(
    client: &mut TdsClient,
    text: &[u16],
    message: &mut [u8],
    count: &mut usize,
) -> Result<(), Stop>
    ensures { StartsIf (IsBatchText text.now) (starts client.old (requests.Batch text.now))
        client.old client.new
        (record { before = message.old; after = message.new; count = count.new }) result }
{
    *count = 0;
    if text.is_empty() || text.len() > 2000 {
        return Err(Stop::OutOfRange);
    }
    calls::start_batch(client, text, message, count)
}

/// Takes the request to begin a transaction at an isolation level of 0 to 5 (MS-TDS 2.2.6.9). Its
/// message has 26 bytes.
#[unsafe(no_mangle)]
pub extern "C" fn tds_client_start_begin(
    client: &mut TdsClient,
    isolation: u8,
    message: &mut [u8],
    count: &mut usize,
) -> u8
    ensures { (answer : Result (Unit {0}) Stop) × (result ≡ number_of done_number answer)
        × StartsIf (IsIsolation isolation) (starts client.old (requests.Begin isolation))
        client.old client.new
        (record { before = message.old; after = message.new; count = count.new }) answer }
{
    done_code(start_begin(client, isolation, message, count))
}

#[inline(always)]
fn start_begin(
    client: &mut TdsClient,
    isolation: u8,
    message: &mut [u8],
    count: &mut usize,
) -> Result<(), Stop>
    ensures { StartsIf (IsIsolation isolation) (starts client.old (requests.Begin isolation))
        client.old client.new
        (record { before = message.old; after = message.new; count = count.new }) result }
{
    *count = 0;
    if Isolation::new(isolation).is_none() {
        return Err(Stop::OutOfRange);
    }
    calls::start_asked(client, Asked::Begin(isolation), message, count)
}

/// The level at which the next transaction begins, if one does. None where it is no such number.
#[inline(always)]
#[tactic(auto, unfolding(crate::specs::Calls::next_from))]
fn next(number: u8) -> Option<Option<u8>>
    ensures { result ≡ next_from number }
{
    if number == 255 {
        return Some(None);
    }
    if number > 5 {
        return None;
    }
    Some(Some(number))
}

/// Takes the request to commit the transaction (MS-TDS 2.2.6.9) and, where `next` is an
/// isolation level of 0 to 5, to begin the next one at once. 255 is none. Its message has 26 bytes
/// or, with a level, 28.
#[unsafe(no_mangle)]
pub extern "C" fn tds_client_start_commit(
    client: &mut TdsClient,
    next: u8,
    message: &mut [u8],
    count: &mut usize,
) -> u8
    ensures { (answer : Result (Unit {0}) Stop) × (result ≡ number_of done_number answer)
        × StartsNext (next_from next) client.old requests.Commit client.new
        (record { before = message.old; after = message.new; count = count.new }) answer }
{
    done_code(start_commit(client, next, message, count))
}

#[inline(always)]
fn start_commit(
    client: &mut TdsClient,
    number: u8,
    message: &mut [u8],
    count: &mut usize,
) -> Result<(), Stop>
    ensures { StartsNext (next_from number) client.old requests.Commit client.new
        (record { before = message.old; after = message.new; count = count.new }) result }
{
    *count = 0;
    let Some(next) = next(number) else {
        return Err(Stop::OutOfRange);
    };
    calls::start_asked(client, Asked::Commit(next), message, count)
}

/// Takes the request to roll the transaction back (MS-TDS 2.2.6.9) and, where `next` is an
/// isolation level of 0 to 5, to begin the next one at once. 255 is none. Its message has 26 bytes
/// or, with a level, 28.
#[unsafe(no_mangle)]
pub extern "C" fn tds_client_start_rollback(
    client: &mut TdsClient,
    next: u8,
    message: &mut [u8],
    count: &mut usize,
) -> u8
    ensures { (answer : Result (Unit {0}) Stop) × (result ≡ number_of done_number answer)
        × StartsNext (next_from next) client.old requests.Rollback client.new
        (record { before = message.old; after = message.new; count = count.new }) answer }
{
    done_code(start_rollback(client, next, message, count))
}

#[inline(always)]
fn start_rollback(
    client: &mut TdsClient,
    number: u8,
    message: &mut [u8],
    count: &mut usize,
) -> Result<(), Stop>
    ensures { StartsNext (next_from number) client.old requests.Rollback client.new
        (record { before = message.old; after = message.new; count = count.new }) result }
{
    *count = 0;
    let Some(next) = next(number) else {
        return Err(Stop::OutOfRange);
    };
    calls::start_asked(client, Asked::Rollback(next), message, count)
}
