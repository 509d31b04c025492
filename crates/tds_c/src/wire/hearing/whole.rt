//! What a client that reads hears of tokens that stand whole, in the walk's value. Nothing is done that
//! would break the client: such a token is left to the walk behind it.

ghost use Rattle.std.specs.Prelude.{◌≡◌, ◌≤◌, ◌<◌, IfSome, Ok, Some, drop, get_or, length, true, false};
ghost use Rattle.tds_client.specs.Hearing.{hear_sign};
ghost use Rattle.tds_client.specs.Machine.{with_heard};
ghost use Rattle.tds_client.specs.Session.{ClientSession, Reading as IsReading};
ghost use Rattle.tds_client.specs.declared.sign.Rules.TheVariants.{Any};
ghost use Rattle.tds_listen.specs.Signs.{sign_of};
ghost use Rattle.tds_wire.specs.Reading.{Parser};
ghost use Rattle.tds_wire.specs.Whole.{IsNext};
ghost use Rattle.tds_c.specs.Hearing.{HasHeard, HeardHere, Ready};
ghost use Rattle.tds_walk.specs.WireCalls.{reading_from};
ghost use Rattle.tds_walk.specs.WireTokens.{Puts};

use crate::buffer::behind;
use crate::wire::hearing::at_once::{added, done_here, reset_here, status_here};
use tds_client::{ClientParts, Heard, Rules, Sign, StageParts};
use tds_listen::sign_of;
use tds_packet::PacketSize;
use tds_token::Columns;
use tds_walk::{TdsWire, TdsWireToken, put_shown};
use tds_wire::{Memory, Token, whole_token};

/// What a client that reads makes of a sign, where that breaks nothing.
#[inline(always)]
fn heard_behind(heard: Heard, sign: Sign) -> Option<Heard>
    ensures { IfSome result (λ next. hear_sign Any false heard sign ≡ Ok next) }
{
    let size = PacketSize::new(512)?;
    let mut parts = ClientParts {
        size,
        stage: StageParts::Reading,
        heard,
        columns: Columns::none(),
    };
    match parts.hear_sign(Rules::Any, sign) {
        Ok(()) => Some(parts.heard),
        Err(_) => None,
    }
}

/// Hears a token, and writes it behind those before it. Else nothing is done.
#[inline(always)]
fn hear_reading(
    heard: &mut Heard,
    token: &Token,
    tokens: &mut [TdsWireToken],
    count: &mut usize,
) -> bool
    requires { count.old < length tokens.old }
    ensures heard { result ≡ true
        → hear_sign Any false heard.old (sign_of token.now) ≡ Ok heard.new }
    ensures put { result ≡ true → Puts (Some token.now)
        (record { before = tokens.old; after = tokens.new; count = count.new }) count.old }
    ensures stays { result ≡ false → tokens.new ≡ tokens.old }
    ensures same { result ≡ false → (heard.new ≡ heard.old) × (count.new ≡ count.old) }
    ensures room { length tokens.new ≡ length tokens.old }
{
    let Some(next) = heard_behind(*heard, sign_of(token)) else {
        return false;
    };
    *heard = next;
    put_shown(token, &mut tokens[*count]);
    *count += 1;
    true
}

/// Hears the token of so many bytes that a piece begins with: that many, or 0 where nothing is done.
#[inline(always)]
fn hear_at(
    heard: &mut Heard,
    walk: &mut TdsWire,
    token: &Token,
    size: usize,
    piece: &[u8],
    tokens: &mut [TdsWireToken],
    count: &mut usize,
) -> usize
    requires room { count.old < length tokens.old }
    requires many { 0 < size }
    requires next { IsNext walk.old.start size (Some token.now) piece.now }
    requires kind { token.now.kind ≡ get_or piece.now 0 0 }
    requires within { size ≤ length piece.now }
    ensures some { 0 < result → HeardHere (record {
      heard = heard.old;
      walk = walk.old;
    }) (record { heard = heard.new; walk = walk.new }) result piece.now
        (record { before = tokens.old; after = tokens.new; count = count.new }) count.old }
    ensures none { result ≡ 0 → (heard.new ≡ heard.old) × (walk.new ≡ walk.old) }
    ensures same { result ≡ 0 → (tokens.new ≡ tokens.old) × (count.new ≡ count.old) }
    ensures within { result ≤ length piece.now }
    ensures long { length tokens.new ≡ length tokens.old }
{
    let _ = piece;
    if !hear_reading(heard, token, tokens, count) {
        return 0;
    }
    walk.kind = token.kind;
    walk.start = added(walk.start, size as u64);
    size
}

/// The same of a token of any kind.
#[inline(never)]
fn hear_any_kind(
    heard: &mut Heard,
    walk: &mut TdsWire,
    piece: &[u8],
    tokens: &mut [TdsWireToken],
    count: &mut usize,
) -> usize
    requires room { count.old < length tokens.old }
    ensures some { 0 < result → HeardHere (record {
      heard = heard.old;
      walk = walk.old;
    }) (record { heard = heard.new; walk = walk.new }) result piece.now
        (record { before = tokens.old; after = tokens.new; count = count.new }) count.old }
    ensures none { result ≡ 0 → (heard.new ≡ heard.old) × (walk.new ≡ walk.old) }
    ensures same { result ≡ 0 → (tokens.new ≡ tokens.old) × (count.new ≡ count.old) }
    ensures within { result ≤ length piece.now }
    ensures long { length tokens.new ≡ length tokens.old }
{
    let mut start = walk.start;
    let mut kind = walk.kind;
    let mut token = None;
    let size = whole_token(&mut start, &mut kind, piece, &mut token);
    let Some(token) = &token else {
        return 0;
    };
    if !hear_reading(heard, token, tokens, count) {
        return 0;
    }
    walk.start = start;
    walk.kind = kind;
    size
}

/// Hears the token that stands whole at the front of a piece: how many bytes it has. 0 where none does, or
/// where it would break the client.
#[inline(always)]
fn hear_here(
    heard: &mut Heard,
    walk: &mut TdsWire,
    piece: &[u8],
    tokens: &mut [TdsWireToken],
    count: &mut usize,
) -> usize
    requires room { count.old < length tokens.old }
    ensures some { 0 < result → HeardHere (record {
      heard = heard.old;
      walk = walk.old;
    }) (record { heard = heard.new; walk = walk.new }) result piece.now
        (record { before = tokens.old; after = tokens.new; count = count.new }) count.old }
    ensures none { result ≡ 0 → (heard.new ≡ heard.old) × (walk.new ≡ walk.old) }
    ensures same { result ≡ 0 → (tokens.new ≡ tokens.old) × (count.new ≡ count.old) }
    ensures within { result ≤ length piece.now }
    ensures long { length tokens.new ≡ length tokens.old }
{
    if let Some(token) = done_here(walk.start, piece) {
        return hear_at(heard, walk, &token, 13, piece, tokens, count);
    }
    if let Some(token) = status_here(walk.start, piece) {
        return hear_at(heard, walk, &token, 5, piece, tokens, count);
    }
    if let Some(token) = reset_here(walk.start, piece) {
        return hear_at(heard, walk, &token, 6, piece, tokens, count);
    }
    // Of places of their own, so that the caller's need none.
    let mut next = *heard;
    let mut read = *count;
    let size = hear_any_kind(&mut next, walk, piece, tokens, &mut read);
    *heard = next;
    *count = read;
    size
}

/// Hears the tokens that stand whole and say in their first bytes how long they are, from the first
/// byte on and up to the room's end. Of the walk no more is needed than where it is in the message.
#[inline(always)]
pub(super) fn hear_whole(
    heard: &mut Heard,
    walk: &mut TdsWire,
    memory: &Memory,
    bytes: &[u8],
    taken: &mut usize,
    tokens: &mut [TdsWireToken],
    count: &mut usize,
)
    requires ready { Ready walk.old }
    ensures ready { Ready walk.new }
    ensures within { taken.new ≤ length bytes.now }
    ensures room { count.new ≤ length tokens.new }
    ensures same { length tokens.new ≡ length tokens.old }
    ensures run { (s : ClientSession) (first : Parser) → s.stage ≡ IsReading → s.heard ≡ heard.old
        → reading_from walk.old memory.now ≡ Some first
        → (reading : Parser) × (reading_from walk.new memory.now ≡ Some reading)
        × HasHeard (record { session = s; reading = first; rest = bytes.now }) (record {
          session = with_heard s heard.new;
          reading = reading;
          rest = drop taken.new bytes.now;
        }) (record { before = tokens.old; after = tokens.new; count = count.new }) }
{
    memory.bounds();
    let mut done = 0;
    let mut read = 0;
    'tokens: while done < bytes.len() && read < tokens.len() {
        let size = hear_here(heard, walk, behind(bytes, done), tokens, &mut read);
        if size == 0 {
            break;
        }
        done += size;
    }
    *taken = done;
    *count = read;
}
