//! What a client hears of an answer's bytes.

ghost use Rattle.std.specs.Prelude.{◌≡◌, ◌≤◌, ◌<◌, Ok, Err, None, IfOk, IfErr, MatchResult, drop, length, take, true};
ghost use Rattle.std.specs.Prelude.{if◌then◌else◌};
ghost use Rattle.tds_client.specs.declared.sign.Rules.TheVariants.{Any};
ghost use Rattle.tds_client.specs.Machine.{Listens, signed, tells};
ghost use Rattle.tds_client.specs.Session.{ClientSession};
ghost use Rattle.tds_client.specs.Taking.{broken_by};
ghost use Rattle.tds_listen.specs.Faults.{IsBroken, broken_at, broken_at_end};
ghost use Rattle.tds_listen.specs.Signs.{sign_of};
ghost use Rattle.tds_listen.specs.Hearing.{Both, heard_data, heard_end, heard_packet, next_heard};
ghost use Rattle.tds_packet.specs.Layout.{bits_of, has_bit};
ghost use Rattle.tds_wire.specs.Reading.{IsReady, restarted};

use crate::fault::ListenFault;
use crate::sign::sign_of;
use tds_client::{Client, ClientFault, ClientState, Rules, Sign, Taken};
use tds_packet::PacketRef;
use tds_wire::{Token, TokenParser};

/// What came of a piece.
#[derive(Clone, Copy, Debug, PartialEq, Eq)]
pub struct Heard {
    /// How many bytes of the piece are done with: up to the end of one token, or all of them.
    pub count: usize,
    /// The token that has ended, where one did and the caller may be told of it.
    pub token: Option<Token>,
}

/// Hears bytes of an answer's data (packets of type `04`) up to the end of one token, by the rules of
/// any server: at least one byte, where the piece isn't empty. Call it with the bytes behind `count`
/// until there are none. It takes no memory.
///
/// The token is told where the client is reading, so none is told from a cancel until its
/// acknowledgement. It stands where `Token` says, counted from the message's first byte.
///
/// # Errors
///
/// `Client` where the client refuses the token, and `Wire` where the bytes are none. The client is
/// broken then, and nothing is told.
#[inline(always)]
pub fn next(
    client: &mut Client,
    parser: &mut TokenParser,
    piece: &[u8],
) -> Result<Heard, ListenFault>
    ensures within { IfOk result (λ heard. heard.count ≤ length piece.now) }
    ensures moves { IfOk result (λ heard. 0 < length piece.now → 0 < heard.count) }
    ensures ready { IfOk result (λ heard.
        heard.count < length piece.now → IsReady parser.new) }
    ensures exact { MatchResult result
        (λ heard. next_heard client.old parser.old piece.now ≡ Ok (record {
          told = heard.token;
          session = client.new;
          reading = parser.new;
          rest = drop heard.count piece.now;
        }))
        (λ fault. next_heard client.old parser.old piece.now ≡ Err fault) }
    ensures broken { IfErr result (λ fault. IsBroken fault client.new.stage) }
    ensures leaves { IfErr result (λ fault. client.new ≡ broken_at client.old fault) }
{
    let mut token = None;
    match next_to(client, parser, piece, &mut token) {
        Ok(count) => Ok(Heard { count, token }),
        Err(fault) => Err(fault),
    }
}

/// The same, with the token left in `told`: it is large, and so is written once. Where the answer is a
/// fault, what `told` has is of no use.
///
/// # Errors
///
/// As `next`.
#[inline(always)]
pub fn next_to(
    client: &mut Client,
    parser: &mut TokenParser,
    piece: &[u8],
    told: &mut Option<Token>,
) -> Result<usize, ListenFault>
    ensures within { IfOk result (λ count. count ≤ length piece.now) }
    ensures moves { IfOk result (λ count. 0 < length piece.now → 0 < count) }
    ensures ready { IfOk result (λ count. count < length piece.now → IsReady parser.new) }
    ensures exact { MatchResult result
        (λ count. next_heard client.old parser.old piece.now ≡ Ok (record {
          told = told.new;
          session = client.new;
          reading = parser.new;
          rest = drop count piece.now;
        }))
        (λ fault. next_heard client.old parser.old piece.now ≡ Err fault) }
    ensures broken { IfErr result (λ fault. IsBroken fault client.new.stage) }
    ensures leaves { IfErr result (λ fault. client.new ≡ broken_at client.old fault) }
{
    let count = match parser.feed_to(piece, told) {
        Ok(count) => count,
        Err(refusal) => {
            client.lost();
            return Err(ListenFault::Wire(refusal));
        }
    };
    let Some(token) = told else {
        return Ok(count);
    };
    let tells = client.may_tell();
    match client.hear_sign(Rules::Any, sign_of(token)) {
        Ok(()) => {}
        Err(fault) => return Err(ListenFault::Client(fault)),
    }
    if !tells {
        *told = None;
    }
    Ok(count)
}

/// The client hears a sign. The answer is how many bytes are done with.
#[inline(always)]
fn hear_sign(client: &mut Client, sign: Sign, count: usize) -> Result<usize, ClientFault>
    ensures heard { MatchResult result
        (λ done. (signed Any client.old sign ≡ Ok client.new) × (done ≡ count))
        (λ fault. signed Any client.old sign ≡ Err fault) }
    ensures broken { IfErr result (λ fault. client.new ≡ broken_by client.old fault) }
{
    match client.hear_sign(Rules::Any, sign) {
        Ok(()) => Ok(count),
        Err(fault) => Err(fault),
    }
}

/// The same of the sign of a token of which nobody may be told. It isn't put into its callers, in whose way
/// it would be.
#[inline(never)]
fn hear_untold(client: &mut Client, token: &Token, count: usize) -> Result<usize, ClientFault>
    ensures heard { MatchResult result
        (λ done. (signed Any client.old (sign_of token.now) ≡ Ok client.new) × (done ≡ count))
        (λ fault. signed Any client.old (sign_of token.now) ≡ Err fault) }
    ensures broken { IfErr result (λ fault. client.new ≡ broken_by client.old fault) }
{
    hear_sign(client, sign_of(token), count)
}

/// The same of one that is told.
#[inline(always)]
fn hear_told(client: &mut Client, token: &Token, count: usize) -> Result<usize, ClientFault>
    requires { tells client.old.stage ≡ true }
    ensures heard { MatchResult result
        (λ done. (signed Any client.old (sign_of token.now) ≡ Ok client.new) × (done ≡ count))
        (λ fault. signed Any client.old (sign_of token.now) ≡ Err fault) }
    ensures broken { IfErr result (λ fault. client.new ≡ broken_by client.old fault) }
{
    match sign_of(token) {
        Sign::Nothing => Ok(count),
        Sign::Change(change) => hear_sign(client, Sign::Change(change), count),
        Sign::Done { kind, status } => hear_sign(client, Sign::Done { kind, status }, count),
    }
}

/// `next_to` where the piece begins with a token that stands whole, says in its first bytes how long it is,
/// and is no row. Else nothing is done, and the answer is 0: go on with `next_to`. For a caller who has
/// `told` in memory anyway, since he hands it on, it is the quicker way.
///
/// # Errors
///
/// Where the client refuses the token. It is broken then, and nothing is told.
#[inline(always)]
pub fn next_whole(
    client: &mut Client,
    parser: &mut TokenParser,
    piece: &[u8],
    told: &mut Option<Token>,
) -> Result<usize, ClientFault>
    ensures within { IfOk result (λ count. count ≤ length piece.now) }
    ensures same { IfOk result (λ count. count ≡ 0
        → (client.new ≡ client.old) × (parser.new ≡ parser.old)) }
    ensures ready { IfOk result (λ count. 0 < count → IsReady parser.new) }
    ensures exact { MatchResult result
        (λ count. 0 < count → next_heard client.old parser.old piece.now ≡ Ok (record {
          told = told.new;
          session = client.new;
          reading = parser.new;
          rest = drop count piece.now;
        }))
        (λ fault. next_heard client.old parser.old piece.now ≡ Err (ListenFault.Client fault)) }
    ensures leaves { IfErr result (λ fault. client.new ≡ broken_by client.old fault) }
{
    let count = parser.take_whole(piece, told);
    if count == 0 {
        return Ok(0);
    }
    let Some(token) = told else {
        return Ok(count);
    };
    if client.may_tell() {
        return hear_told(client, token, count);
    }
    match hear_untold(client, token, count) {
        Ok(count) => {
            *told = None;
            Ok(count)
        }
        Err(fault) => Err(fault),
    }
}

/// The parser passes the whole rows that bytes begin with: how many bytes they have. No client that
/// listens does anything with them.
fn walk_rows(parser: &mut TokenParser, piece: &[u8]) -> usize
    ensures within { result ≤ length piece.now }
    ensures same { result ≡ 0 → parser.new ≡ parser.old }
    ensures ready { 0 < result → IsReady parser.new }
    ensures exact { (s : ClientSession) → Listens s.stage
        → heard_data s parser.old (take result piece.now)
        ≡ Ok (record { session = s; reading = parser.new }) }
    ensures most { parser.new.walk.most ≡ parser.old.walk.most }
    ensures features { parser.new.walk.features ≡ parser.old.walk.features }
{
    if !parser.is_between() {
        return 0;
    }
    tds_wire::cuts_do_not_matter();
    let mut done = 0;
    'rows: while done < piece.len() {
        let count = parser.pass_row(&piece[done..]);
        if count == 0 {
            return done;
        }
        done += count;
    }
    done
}

/// Passes the whole rows that bytes of an answer's data begin with: how many bytes they have, or 0
/// where none stands there whole, where the parser isn't between two tokens, or where the client
/// awaits no answer. A row changes nothing of the client. Behind it go on with `next` or `hear_data`.
/// It is for callers who want no token, and takes no memory.
///
/// A row with a null bitmap, or with a value behind a longer count than of two bytes, is left to them.
pub fn pass_rows(client: &Client, parser: &mut TokenParser, piece: &[u8]) -> usize
    ensures within { result ≤ length piece.now }
    ensures same { result ≡ 0 → parser.new ≡ parser.old }
    ensures ready { 0 < result → IsReady parser.new }
    ensures exact { heard_data client.now parser.old (take result piece.now)
        ≡ Ok (record { session = client.now; reading = parser.new }) }
    // It has room for as many columns as before, and knows what the login acknowledged.
    ensures most { parser.new.walk.most ≡ parser.old.walk.most }
    ensures features { parser.new.walk.features ≡ parser.old.walk.features }
{
    match client.state() {
        ClientState::Reading => walk_rows(parser, piece),
        ClientState::Cancelling => walk_rows(parser, piece),
        ClientState::Idle => 0,
        ClientState::Sending => 0,
        ClientState::Broken(_) => 0,
    }
}

/// Hears all these bytes of an answer's data, and tells of no token: `next` up to their end. It takes
/// no memory.
///
/// # Errors
///
/// As `next`, of the first token that is at fault. The client is broken then.
pub fn hear_data(
    client: &mut Client,
    parser: &mut TokenParser,
    bytes: &[u8],
) -> Result<(), ListenFault>
    ensures exact { MatchResult result
        (λ _. heard_data client.old parser.old bytes.now
        ≡ Ok (record { session = client.new; reading = parser.new }))
        (λ fault. heard_data client.old parser.old bytes.now ≡ Err fault) }
    ensures broken { IfErr result (λ fault. IsBroken fault client.new.stage) }
{
    tds_wire::cuts_do_not_matter();
    let mut done = 0;
    'tokens: while done < bytes.len() {
        let rows = pass_rows(client, parser, &bytes[done..]);
        if rows > 0 {
            done += rows;
            continue;
        }
        match next(client, parser, &bytes[done..]) {
            Ok(heard) => done += heard.count,
            Err(fault) => return Err(fault),
        }
    }
    Ok(())
}

/// Hears the end of a message, behind the data of the packet with end of message (MS-TDS 2.2.3.1.2).
/// It takes no memory, and the parser begins anew.
///
/// `Finished` where the request has its whole answer, `Acknowledged` where its cancel is acknowledged,
/// `More` where the acknowledgement is still to come. After a cancel a message may end inside a token,
/// which the attention cut.
///
/// # Errors
///
/// `Cut` where a message that is read ends inside a token; `Client` where it ends without a final
/// DONE; `ResetUnanswered` where the request asked for a reset and was told of none. The client is
/// broken then.
#[inline(always)]
pub fn hear_end(client: &mut Client, parser: &mut TokenParser) -> Result<Taken, ListenFault>
    ensures exact { MatchResult result
        (λ answer. heard_end client.old parser.old
        ≡ Ok (record { answer = answer; session = client.new }))
        (λ fault. heard_end client.old parser.old ≡ Err fault) }
    ensures anew { parser.new ≡ restarted parser.old }
    ensures broken { IfErr result (λ fault. IsBroken fault client.new.stage) }
    ensures leaves { IfErr result (λ fault. client.new ≡ broken_at_end client.old fault) }
{
    let cut = client.may_tell() && !parser.is_between();
    parser.restart();
    if cut {
        client.lost();
        return Err(ListenFault::Cut);
    }
    let taken = match client.end_message(Rules::Any) {
        Ok(taken) => taken,
        Err(fault) => return Err(ListenFault::Client(fault)),
    };
    match (taken, client.reset_mark()) {
        (Taken::Finished, Some(_)) => {
            client.lost();
            Err(ListenFault::ResetUnanswered)
        }
        _ => Ok(taken),
    }
}

/// Takes a packet of an answer (type `04`): its data, and its message's end where it has one. It tells
/// of no token, and takes no memory.
///
/// # Errors
///
/// As `hear_data` and `hear_end`.
pub fn hear_packet(
    client: &mut Client,
    parser: &mut TokenParser,
    packet: PacketRef<'_>,
) -> Result<Taken, ListenFault>
    ensures exact { MatchResult result
        (λ answer. heard_packet client.old parser.old
        (has_bit (bits_of packet.entry.header.status) 1) packet.entry.«data».now
        ≡ Ok (record { answer = answer; session = client.new }))
        (λ fault. heard_packet client.old parser.old
        (has_bit (bits_of packet.entry.header.status) 1) packet.entry.«data».now ≡ Err fault) }
    ensures parser { IfOk result (λ _. (both : Both)
        × (heard_data client.old parser.old packet.entry.«data».now ≡ Ok both)
        × (parser.new ≡ (if has_bit (bits_of packet.entry.header.status) 1
        then restarted both.reading else both.reading))) }
    ensures broken { IfErr result (λ fault. IsBroken fault client.new.stage) }
{
    match hear_data(client, parser, packet.data) {
        Ok(()) => {}
        Err(fault) => return Err(fault),
    }
    if packet.header.status.ends() {
        hear_end(client, parser)
    } else {
        Ok(Taken::More)
    }
}
