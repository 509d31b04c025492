//! Fields of LOGIN7 (MS-TDS 2.2.6.4) that may part no groups: each login says there then what the relay is.
ghost use Rattle.std.specs.Prelude.{◌≡◌, ◌<◌, ◌+◌, IfOk, IfSome, IsTrue, Some, if◌then◌else◌};
ghost use Rattle.relay_logins.specs.Session.{IsWhole, MayShare, Session, part_at, session_in, text_at};
ghost use Rattle.relay_logins.specs.Telling.{TellsFields, TellsTexts, relay_name, relay_number, told};

use crate::features::{move_recovery, set_length};
use crate::login7::{
    DATABASE, Kind, LANGUAGE, LIBRARY, PASSWORD, PROGRAM, SERVER, SharedLogin, USER,
    has_equal_part, has_equal_text, is_same, kind_of, part_at, text_at,
};
use std::alloc::{AllocError, Global};

/// `tdsrelay` in UTF-16, and its count of units.
const NAME: [u8; 16] = [
    116, 0, 100, 0, 115, 0, 114, 0, 101, 0, 108, 0, 97, 0, 121, 0,
];

const UNITS: u8 = 8;

/// Its version as a library's, and its time zone.
const NONE: [u8; 4] = [0, 0, 0, 0];

/// Where these stand.
const CLIENT: usize = 12;

const ZONE: usize = 28;

/// Which of these part groups. All else that makes a session always does.
#[derive(Clone, Copy)]
pub struct Keys {
    /// AppName.
    pub application: bool,
    /// CltIntName.
    pub library: bool,
    /// ClientProgVer.
    pub version: bool,
    /// ClientTimeZone.
    pub zone: bool,
}

impl Keys {
    /// Whether all of them do: then each login says what it says.
    fn are_all(self) -> bool
        ensures { IsTrue result → (session : Session) → told self session ≡ session }
    {
        self.application && self.library && self.version && self.zone
    }
}

impl SharedLogin {
    /// The login by which it joins a group, or begins one. None where what the relay is can't stand in it.
    pub fn for_group(self, alloc: Global, keys: Keys) -> Result<Option<SharedLogin>, AllocError>
        ensures { IfOk result (λ made. IfSome made (λ login.
            session_in login.message.items ≡ told keys (session_in self.message.items))) }
    {
        if keys.are_all() {
            return Ok(Some(self));
        }
        let mut message = self.message.to_vec(alloc)?;
        let recovers = self.asks_for_recovery();
        tell(&mut message, keys, recovers)?;
        if !is_told(keys, &self.message, &message) {
            return Ok(None);
        }
        match kind_of(message) {
            Kind::Shared(login) => Ok(Some(login)),
            _ => Ok(None),
        }
    }
}

/// It says what the relay is, of what parts no groups. What stood there stays, and nothing leads to it any more.
fn tell(message: &mut Vec<u8>, keys: Keys, recovers: bool) -> Result<(), AllocError> {
    if !keys.version {
        put_four(message, CLIENT, NONE);
    }
    if !keys.zone {
        put_four(message, ZONE, NONE);
    }
    if !keys.application {
        put_name(message, PROGRAM)?;
    }
    if !keys.library {
        put_name(message, LIBRARY)?;
    }
    if recovers {
        move_recovery(message)?;
    }
    set_length(message);
    Ok(())
}

/// Four bytes from there on are these.
fn put_four(message: &mut [u8], place: usize, bytes: [u8; 4]) {
    if let Some(field) = message.get_mut(place..place.saturating_add(4)) {
        field.copy_from_slice(&bytes);
    }
}

/// The text whose place stands there is the relay's name.
fn put_name(message: &mut Vec<u8>, place: usize) -> Result<(), AllocError> {
    let start = u16::try_from(message.len()).unwrap_or(u16::MAX);
    let [low, high] = start.to_le_bytes();
    message.extend_from_slice(&NAME)?;
    put_four(message, place, [low, high, UNITS, 0]);
    Ok(())
}

/// Whether a login says what this one says, and of what parts no groups what the relay is.
fn is_told(keys: Keys, own: &[u8], said: &[u8]) -> bool
    ensures { IsTrue result → session_in said.now ≡ told keys (session_in own.now) }
{
    tells_fields(keys, own, said) && tells_texts(keys, own, said)
}

fn tells_fields(keys: Keys, own: &[u8], said: &[u8]) -> bool
    ensures { IsTrue result → TellsFields keys own.now said.now }
{
    has_equal_part(said, own, 4, 8)
        && has_equal_part(said, own, 8, 12)
        && tells_part(keys.version, own, said, CLIENT)
        && has_equal_part(said, own, 24, 28)
        && tells_part(keys.zone, own, said, ZONE)
        && has_equal_part(said, own, 32, 36)
}

fn tells_texts(keys: Keys, own: &[u8], said: &[u8]) -> bool
    ensures { IsTrue result → TellsTexts keys own.now said.now }
{
    has_equal_text(said, own, USER)
        && has_equal_text(said, own, PASSWORD)
        && tells_text(keys.application, own, said, PROGRAM)
        && has_equal_text(said, own, SERVER)
        && tells_text(keys.library, own, said, LIBRARY)
        && has_equal_text(said, own, LANGUAGE)
        && has_equal_text(said, own, DATABASE)
}

/// The four bytes there are its own where they part groups, else the relay's.
fn tells_part(is_key: bool, own: &[u8], said: &[u8], place: usize) -> bool
    requires { place < 100 }
    ensures { IsTrue result → part_at said.now place (place + 4)
        ≡ (if is_key then part_at own.now place (place + 4) else relay_number) }
{
    if is_key {
        has_equal_part(said, own, place, place + 4)
    } else {
        is_same(part_at(said, place, place + 4), &NONE)
    }
}

/// The text whose place stands there is its own where it parts groups, else the relay's name.
fn tells_text(is_key: bool, own: &[u8], said: &[u8], place: usize) -> bool
    requires { place < 65535 }
    ensures { IsTrue result → text_at said.now place
        ≡ (if is_key then text_at own.now place else Some relay_name) }
{
    if is_key {
        return has_equal_text(said, own, place);
    }
    match text_at(said, place) {
        Some(text) => is_same(text, &NAME),
        None => false,
    }
}
