//! What a connection hears of a packet's data.
ghost use Rattle.std.specs.Prelude.{◌≡◌, ◌≤◌, ◌<◌, ◌+◌, ◌++◌, ℕ, Bool, List, [], true, length, take, vec_len, vec_capacity, IfOk, IfErr, OnOk, OnErr};
ghost use Rattle.tds_listen.specs.Hearing.{Stands, tokens_in};
ghost use Rattle.tds_wire.specs.Reading.{Parser};
ghost use Rattle.tds_wire.specs.declared.told.Token.{Token};
ghost use Rattle.tds_service.specs.Line as line;
ghost use Rattle.tds_service.specs.Packets.{HeardSome, Reads, awaiting, behind_packet, noted, outcome_answer, packet_part, told_of_part};
ghost use Rattle.tds_service.specs.Parts as parts;
ghost use Rattle.tds_service.specs.Ties.{Hears, items_of, line_in, taken_answer};

use crate::connection::{Connection, is_told};
use crate::outcome::Outcome;
use tds_client::Taken;
use tds_listen::ListenFault;
use tds_wire::Token;

/// Notes a token, where there is one that is told and the caller `tells`.
#[inline(always)]
fn note(told: &mut Vec<Token>, tells: bool, token: &Option<Token>)
    requires { vec_len told.old + length (noted tells (parts.items_told (items_of token.now)))
        ≤ vec_capacity told.old }
    ensures items { told.new.items ≡ told.old.items
        ++ noted tells (parts.items_told (items_of token.now)) }
    ensures len { vec_len told.new
        ≡ vec_len told.old + length (noted tells (parts.items_told (items_of token.now))) }
    ensures capacity { vec_capacity told.new ≡ vec_capacity told.old }
{
    if !tells {
        return;
    }
    if let Some(token) = token {
        if is_told(token) {
            told.push_reserved(*token);
        }
    }
}

/// Hears the tokens that end among these bytes.
#[inline(always)]
fn hear_tokens(
    connection: &mut Connection,
    bytes: &[u8],
    tells: bool,
    told: &mut Vec<Token>,
) -> Result<(), ListenFault>
    requires awaits { (cancelling : Bool) × ((line_in connection.old).stage ≡ awaiting cancelling) }
    requires room { tells ≡ true → (line_in connection.old).stage ≡ line.Reading
        → vec_len told.old + length bytes.now ≤ vec_capacity told.old }
    ensures ok { OnOk result ((cancelling : Bool) × (tokens : List Token)
        × HeardSome cancelling (line_in connection.old) connection.old.parser bytes.now
        (line_in connection.new) connection.new.parser [] [] tokens
        × (told.new.items ≡ told.old.items ++ noted tells tokens)) }
    ensures fault { IfErr result (λ fault. (ends : Bool)
        → Hears (packet_part connection.old.parser bytes.now ends) (line_in connection.old)
        (line_in connection.new) (line.Fault fault) []) }
    ensures front { take (vec_len told.old) told.new.items ≡ told.old.items }
    ensures size { connection.new.client.size ≡ connection.old.client.size }
{
    let mut done = 0;
    let mut token = None;
    'tokens: while done < bytes.len() {
        // Most tokens stand whole in a packet, and come this way.
        let whole = match connection.hear_whole(&bytes[done..], &mut token) {
            Ok(count) => count,
            Err(fault) => return Err(ListenFault::Client(fault)),
        };
        if whole > 0 {
            note(told, tells, &token);
            done += whole;
            continue;
        }
        match connection.hear_some(&bytes[done..], tells, &mut token) {
            Ok(count) => {
                note(told, tells, &token);
                done += count;
            }
            Err(fault) => return Err(fault),
        }
    }
    Ok(())
}

/// Hears the data of a packet of an answer, and its message's end where it has one. What may be told
/// is appended, for the newest request, if the caller `tells`; of a packet with a fault nothing is.
/// It takes no memory.
#[inline(always)]
pub(crate) fn hear(
    connection: &mut Connection,
    bytes: &[u8],
    ends: bool,
    tells: bool,
    told: &mut Vec<Token>,
) -> Result<Taken, ListenFault>
    requires { tells ≡ true → (line_in connection.old).stage ≡ line.Reading
        → vec_len told.old + length bytes.now ≤ vec_capacity told.old }
    ensures ok { IfOk result (λ answer. Hears
        (packet_part connection.old.parser bytes.now ends) (line_in connection.old)
        (line_in connection.new) (taken_answer connection.old.asked answer)
        (told_of_part (line_in connection.old)
        (packet_part connection.old.parser bytes.now ends))) }
    ensures told { OnOk result (told.new.items ≡ told.old.items
        ++ noted tells (told_of_part (line_in connection.old)
        (packet_part connection.old.parser bytes.now ends))) }
    ensures stands { OnOk result ((r : Parser)
        × ((tokens_in connection.old.parser bytes.now).stop ≡ Stands r)
        × (connection.new.parser ≡ behind_packet ends r)) }
    ensures fault { IfErr result (λ fault. Hears
        (packet_part connection.old.parser bytes.now ends) (line_in connection.old)
        (line_in connection.new) (line.Fault fault) []) }
    ensures untold { OnErr result (told.new.items ≡ told.old.items) }
    ensures size { connection.new.client.size ≡ connection.old.client.size }
{
    if let Err(fault) = connection.expects() {
        return Err(fault);
    }
    let before = told.len();
    if let Err(fault) = hear_tokens(connection, bytes, tells, told) {
        told.truncate(before);
        return Err(fault);
    }
    if !ends {
        return Ok(Taken::More);
    }
    match connection.ended() {
        Ok(taken) => Ok(taken),
        Err(fault) => {
            told.truncate(before);
            Err(fault)
        }
    }
}

/// The same, as one outcome.
#[inline(always)]
pub(crate) fn hear_packet(
    connection: &mut Connection,
    bytes: &[u8],
    ends: bool,
    tells: bool,
    told: &mut Vec<Token>,
) -> Outcome
    requires { tells ≡ true → (line_in connection.old).stage ≡ line.Reading
        → vec_len told.old + length bytes.now ≤ vec_capacity told.old }
    ensures hears { Hears (packet_part connection.old.parser bytes.now ends)
        (line_in connection.old) (line_in connection.new)
        (outcome_answer connection.old.asked result)
        (told_of_part (line_in connection.old)
        (packet_part connection.old.parser bytes.now ends)) }
    ensures told { told.new.items ≡ told.old.items ++ noted tells
        (told_of_part (line_in connection.old)
        (packet_part connection.old.parser bytes.now ends)) }
    ensures reads { Reads result ends (tokens_in connection.old.parser bytes.now).stop
        connection.new.parser }
    ensures size { connection.new.client.size ≡ connection.old.client.size }
{
    match hear(connection, bytes, ends, tells, told) {
        Ok(Taken::More) => Outcome::More,
        Ok(Taken::Finished) => Outcome::Finished,
        Ok(Taken::Acknowledged) => Outcome::Acknowledged,
        Ok(Taken::NoMemory) => Outcome::More,
        Err(fault) => Outcome::Fault(fault),
    }
}
