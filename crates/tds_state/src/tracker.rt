//! A tracker of one connection.

ghost use Rattle.std.specs.Prelude.{◌≡◌, ◌++◌, get_or, IfOk, Some};
ghost use Rattle.tds_state.specs.Reasons.{is_no_reason, session_reason};
ghost use Rattle.tds_state.specs.Sessions.{session_asked, session_cancelled, session_ended, session_rests, session_sent};
ghost use Rattle.tds_state.specs.Tracking.{is_needed, needed, new_tracker, tracks, with_bytes};

use crate::NoMemory;
use crate::asked::Request;
use crate::kept::{Kept, first_of};
use crate::reasons::Reason;
use crate::session::Session;
use std::alloc::Global;
use tds_packet::Reset;
use tds_wire::{Token, Told};

/// What the server of a connection said of its session, from the login's answer on.
#[derive(Drop)]
pub struct Tracker {
    pub session: Session,
    /// What has come of a token that goes on.
    pub partial: Kept,
}

/// The most bytes of a token that are kept.
const TOKEN: usize = 8_192;

/// Whether the bytes of a token of this kind are needed: ENVCHANGE, SESSIONSTATE, FEATUREEXTACK,
/// RETURNVALUE.
fn is_needed(kind: u8) -> bool
    ensures { result ≡ is_needed kind }
{
    matches!(kind, 0xe3 | 0xe4 | 0xae | 0xac)
}

/// The byte that the first of these begins with, or else the second.
fn first_byte(before: &[u8], bytes: &[u8]) -> u8
    ensures { result ≡ get_or (before.now ++ bytes.now) 0 0 }
{
    match (before, bytes) {
        ([first, ..], _) => *first,
        ([], [first, ..]) => *first,
        ([], []) => 0,
    }
}

/// The bytes of these that are needed behind those that are kept.
fn needed<'a>(kept: &Kept, bytes: &'a [u8]) -> &'a [u8]
    ensures { result.now ≡ needed kept.now bytes.now }
{
    let before = kept.bytes();
    if is_needed(first_byte(before, bytes)) {
        bytes
    } else {
        first_of(1usize.saturating_sub(before.len()), bytes)
    }
}

impl Tracker {
    /// A tracker of a connection whose login is answered next. It takes memory here alone.
    ///
    /// # Errors
    ///
    /// Where a growth was refused.
    pub fn new(alloc: Global) -> Result<Tracker, NoMemory>
        ensures { IfOk result (λ tracker. tracker ≡ new_tracker) }
    {
        Ok(Tracker {
            session: Session::new(alloc)?,
            partial: Kept::new(alloc, TOKEN)?,
        })
    }

    /// Bytes of an answer have come, up to the end of this token, or of none: then they are inside one. A
    /// message's first one begins a token.
    pub fn hear(&mut self, bytes: &[u8], token: &Option<Token>)
        ensures { self.new ≡ tracks self.old bytes.now token.now }
    {
        match token {
            Some(token) => self.hear_token(bytes, token),
            None => self.keep(bytes),
        }
    }

    /// Bytes up to the end of this token have come. Most tokens say all that matters of them, whatever their bytes are.
    fn hear_token(&mut self, bytes: &[u8], token: &Token)
        ensures { self.new ≡ tracks self.old bytes.now (Some token.now) }
    {
        match token.told {
            Told::Done(done) => self.session.hear_done(token.kind, done.status),
            Told::Other if !is_needed(token.kind) => {}
            _ => self.hear_kept(bytes, token),
        }
        self.partial.clear();
    }

    /// The session hears this token, of whose bytes these are the last ones. Where they are all, none is copied.
    fn hear_kept(&mut self, bytes: &[u8], token: &Token)
        ensures session { self.new.session ≡ (tracks self.old bytes.now (Some token.now)).session }
        ensures most { self.new.partial.most ≡ self.old.partial.most }
    {
        if self.partial.is_empty() {
            let all = first_of(self.partial.most(), needed(&self.partial, bytes));
            self.session.hear(token, all);
        } else {
            self.keep(bytes);
            self.session.hear(token, self.partial.bytes());
        }
    }

    fn keep(&mut self, bytes: &[u8])
        ensures { self.new ≡ record self.old { partial = with_bytes self.old.partial bytes.now } }
    {
        let more = needed(&self.partial, bytes);
        self.partial.keep(more);
    }

    /// A message of the server's has ended.
    pub fn end(&mut self)
        ensures { self.new ≡ record self.old { session = session_ended self.old.session } }
    {
        self.session.end();
    }

    /// A request begins, whose first packet asks for this reset.
    pub fn ask(&mut self, kind: Request, reset: Option<Reset>)
        ensures { self.new
            ≡ record self.old { session = session_asked self.old.session kind reset } }
    {
        self.session.ask(kind, reset);
    }

    /// Bytes of its body go on, behind ALL_HEADERS (MS-TDS 2.2.5.3).
    pub fn send(&mut self, bytes: &[u8])
        ensures { self.new ≡ record self.old { session = session_sent self.old.session bytes.now } }
    {
        self.session.send(bytes);
    }

    /// The newest request is cancelled.
    pub fn cancel(&mut self)
        ensures { self.new ≡ record self.old { session = session_cancelled self.old.session } }
    {
        self.session.cancel();
    }

    /// Whether the session rests: by all that was said, a reset would change nothing of it.
    pub fn rests(&self) -> bool
        ensures { result ≡ session_rests self.now.session }
    {
        self.session.rests()
    }

    /// Why it doesn't rest; None where it does.
    pub fn why(&self) -> Option<Reason>
        ensures reason { result ≡ session_reason self.now.session }
        ensures rests { session_rests self.now.session ≡ is_no_reason result }
    {
        self.session.why()
    }
}
