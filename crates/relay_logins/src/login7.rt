//! LOGIN7 (MS-TDS 2.2.6.4): which logins make equal sessions, and which can't be shared.
ghost use Rattle.std.specs.Prelude.{◌≡◌, ◌≤◌, ◌<◌, IfOk, IsTrue, length, option_copied, string_bytes};
ghost use Rattle.relay_logins.specs.Names.{IsSaidIn, is_plain, letters_of, name_at, shown};
ghost use Rattle.relay_logins.specs.Session.{HaveEqualFields, HaveEqualTexts, IfAlone, IfShared, IsShared, IsWhole};
ghost use Rattle.relay_logins.specs.Session.{AsksNoMore, MayShare, number_at, part_at, session_in, text_at};

use crate::features::asks_recovery_alone;
use std::alloc::{AllocError, Global};

/// Where the fixed fields end, and the texts may begin.
const FIXED: usize = 94;

/// The second byte of flags, and its bit for a login by the operating system's user (SSPI). Where the
/// first message of that stands.
const FLAGS_2: usize = 25;

const INTEGRATED: u8 = 0x80;

const FIRST_LEG: usize = 78;

/// The third, and its bits for a new password and for features.
pub const FLAGS_3: usize = 27;

const NEW_PASSWORD: u8 = 0x01;

pub const FEATURES: u8 = 0x10;

/// The places of the texts that make a session.
pub const USER: usize = 40;

pub const PASSWORD: usize = 44;

pub const PROGRAM: usize = 48;

pub const SERVER: usize = 52;

pub const LIBRARY: usize = 60;

pub const LANGUAGE: usize = 64;

pub const DATABASE: usize = 68;

/// The place of the host's name, which may differ.
const HOST: usize = 36;

/// The most characters of a name that are kept.
const MOST_NAMED: usize = 48;

/// A file that is attached.
const ATTACHED: usize = 82;

/// A login by which connections may be shared: whoever's login is equal may be lent one that logged in by it.
#[derive(Drop)]
pub struct SharedLogin {
    pub(crate) message: Vec<u8>,
}

/// What a login is to whoever shares connections.
#[derive(Drop)]
pub enum Kind {
    /// Those with an equal one may share connections.
    Shared(SharedLogin),
    /// It has a connection of its own, which ends with it.
    Alone(Vec<u8>),
    /// It can't be a login, and this is why.
    Wrong(&'static str),
}

impl SharedLogin {
    /// The LOGIN7.
    pub fn message(&self) -> &[u8]
        ensures { result.now ≡ self.now.message.items }
    {
        self.message.as_slice()
    }

    /// Whether it asks for session recovery.
    pub fn asks_for_recovery(&self) -> bool {
        match self.message.get(FLAGS_3) {
            Some(flags) => *flags & FEATURES != 0,
            None => false,
        }
    }
}

/// Whether two logins say the same of their sessions.
pub(crate) fn are_equal(one: &[u8], other: &[u8]) -> bool
    ensures equal { IsTrue result → session_in one.now ≡ session_in other.now }
    ensures all { session_in one.now ≡ session_in other.now → IsTrue result }
{
    has_equal_fields(one, other) && has_equal_texts(one, other)
}

/// Whether two logins have the fields equal that say what client it is, and how it talks.
fn has_equal_fields(one: &[u8], other: &[u8]) -> bool
    ensures equal { IsTrue result → HaveEqualFields one.now other.now }
    ensures all { HaveEqualFields one.now other.now → IsTrue result }
{
    has_equal_part(one, other, 4, 8)
        && has_equal_part(one, other, 8, 12)
        && has_equal_part(one, other, 12, 16)
        && has_equal_part(one, other, 24, 28)
        && has_equal_part(one, other, 28, 32)
        && has_equal_part(one, other, 32, 36)
}

pub(crate) fn has_equal_part(one: &[u8], other: &[u8], from: usize, to: usize) -> bool
    ensures equal { IsTrue result → part_at one.now from to ≡ part_at other.now from to }
    ensures all { part_at one.now from to ≡ part_at other.now from to → IsTrue result }
{
    is_same(part_at(one, from, to), part_at(other, from, to))
}

/// The bytes from one place to another one; none where they haven't all come.
#[tactic(auto, unfolding(crate::specs::Session::part_at))]
pub(crate) fn part_at(message: &[u8], from: usize, to: usize) -> &[u8]
    ensures { result.now ≡ part_at message.now from to }
{
    match message.get(from..to) {
        Some(part) => part,
        None => &[],
    }
}

/// Whether two logins have the texts equal that make a session.
fn has_equal_texts(one: &[u8], other: &[u8]) -> bool
    ensures equal { IsTrue result → HaveEqualTexts one.now other.now }
    ensures all { HaveEqualTexts one.now other.now → IsTrue result }
{
    has_equal_text(one, other, USER)
        && has_equal_text(one, other, PASSWORD)
        && has_equal_text(one, other, PROGRAM)
        && has_equal_text(one, other, SERVER)
        && has_equal_text(one, other, LIBRARY)
        && has_equal_text(one, other, LANGUAGE)
        && has_equal_text(one, other, DATABASE)
}

pub(crate) fn has_equal_text(one: &[u8], other: &[u8], place: usize) -> bool
    requires { place < 65535 }
    ensures equal { IsTrue result → text_at one.now place ≡ text_at other.now place }
    ensures all { text_at one.now place ≡ text_at other.now place → IsTrue result }
{
    match (text_at(one, place), text_at(other, place)) {
        (Some(one), Some(other)) => is_same(one, other),
        (None, None) => true,
        _ => false,
    }
}

pub(crate) fn is_same(one: &[u8], other: &[u8]) -> bool
    ensures equal { IsTrue result → one.now ≡ other.now }
    ensures all { one.now ≡ other.now → IsTrue result }
{
    one == other
}

/// What this login is.
pub fn kind_of(message: Vec<u8>) -> Kind
    ensures shared { IfShared result (λ login. login.message.items ≡ message.items) }
    ensures whole { IfShared result (λ login. IsWhole message.items) }
    ensures may { IfShared result (λ login. MayShare message.items) }
    ensures shares { IsWhole message.items → MayShare message.items → IsShared result }
    ensures alone { IfAlone result (λ login. login ≡ message.items) }
{
    if message.len() < FIXED {
        return Kind::Wrong("The login is too short.");
    }
    if !may_share(&message) {
        return Kind::Alone(message);
    }
    if !is_whole(&message) {
        return Kind::Wrong("A text of the login stands outside of it.");
    }
    Kind::Shared(SharedLogin { message })
}

/// Whether it is a user's of the server, by this password, which stays; attaches no file; asks for no feature
/// but session recovery.
fn may_share(message: &[u8]) -> bool
    requires { 94 ≤ length message.now }
    ensures may { IsTrue result → MayShare message.now }
    ensures all { MayShare message.now → IsTrue result }
{
    message[FLAGS_2] & INTEGRATED == 0
        && message[FLAGS_3] & NEW_PASSWORD == 0
        && asks_no_more(message)
        && number_at(message, FIRST_LEG + 2) == 0
        && number_at(message, ATTACHED + 2) == 0
}

/// Whether it asks for no feature, or for session recovery alone, with nothing to be recovered. Where two of
/// these have equal flags, either both ask for it or none does.
fn asks_no_more(message: &[u8]) -> bool
    requires { 94 ≤ length message.now }
    ensures may { IsTrue result → AsksNoMore message.now }
    ensures all { AsksNoMore message.now → IsTrue result }
{
    message[FLAGS_3] & FEATURES == 0 || asks_recovery_alone(message)
}

/// Whether each text of its session stands in it.
fn is_whole(message: &[u8]) -> bool
    requires { 94 ≤ length message.now }
    ensures whole { IsTrue result → IsWhole message.now }
    ensures all { IsWhole message.now → IsTrue result }
{
    text_at(message, USER).is_some()
        && text_at(message, PASSWORD).is_some()
        && text_at(message, PROGRAM).is_some()
        && text_at(message, SERVER).is_some()
        && text_at(message, LIBRARY).is_some()
        && text_at(message, LANGUAGE).is_some()
        && text_at(message, DATABASE).is_some()
}

/// The text whose place and count of units stand here.
#[tactic(auto, unfolding(crate::specs::Session::text_at))]
pub(crate) fn text_at(message: &[u8], place: usize) -> Option<&[u8]>
    requires { place < 65535 }
    ensures { option_copied result ≡ text_at message.now place }
{
    let start = number_at(message, place);
    let length = 2 * number_at(message, place + 2);
    if length == 0 {
        return Some(&[]);
    }
    message.get(start..start + length)
}

/// The number of two bytes that stands here, the lower one first; 0 where they don't.
pub fn number_at(message: &[u8], place: usize) -> usize
    ensures value { result ≡ number_at message.now place }
    ensures most { result < 65536 }
{
    match message.get(place..place.saturating_add(2)) {
        Some([low, high]) => usize::from(*low) + 256 * usize::from(*high),
        _ => 0,
    }
}

/// Who an application says that it is, in letters that need no escape anywhere.
#[derive(Drop)]
pub struct Who {
    pub host: String,
    pub user: String,
    pub program: String,
    pub database: String,
}

/// Who this login says that it is.
pub fn who_of(alloc: Global, message: &[u8]) -> Result<Who, AllocError>
    ensures said { IfOk result (λ who. IsSaidIn message.now who) }
{
    Ok(Who {
        host: name_at(alloc, message, HOST)?,
        user: name_at(alloc, message, USER)?,
        program: name_at(alloc, message, PROGRAM)?,
        database: name_at(alloc, message, DATABASE)?,
    })
}

/// The text whose place stands here, with a `?` in the place of each unit that isn't a plain letter.
fn name_at(alloc: Global, message: &[u8], place: usize) -> Result<String, AllocError>
    requires { place < 65535 }
    ensures is { IfOk result (λ name. string_bytes name ≡ name_at message.now place) }
{
    match text_at(message, place) {
        Some(text) => letters_of(alloc, &text[..(2 * MOST_NAMED).min(text.len())]),
        None => Ok(String::new(alloc)),
    }
}

/// The letters of these units.
fn letters_of(alloc: Global, text: &[u8]) -> Result<String, AllocError>
    ensures { IfOk result (λ name. string_bytes name ≡ letters_of text.now) }
{
    let mut name = String::new(alloc);
    let mut rest = text;
    while let [low, high, others @ ..] = rest {
        name.push(shown(*low, *high))?;
        rest = others;
    }
    Ok(name)
}

/// The letter that shows a unit.
#[tactic(auto, unfolding(crate::specs::Names::shown))]
fn shown(low: u8, high: u8) -> char
    ensures is { result ≡ shown low high }
    ensures ascii { result < 128 }
{
    if high == 0 && is_plain(low) {
        char::from(low)
    } else {
        '?'
    }
}

/// Whether a byte is a letter, a digit, or a sign that needs no escape.
fn is_plain(byte: u8) -> bool
    ensures is { result ≡ is_plain byte }
    ensures ascii { IsTrue result → byte < 128 }
{
    byte.is_ascii_alphanumeric()
        || matches!(
            byte,
            b' ' | b'.' | b'-' | b'_' | b'/' | b':' | b'(' | b')' | b'@' | b'+'
        )
}
