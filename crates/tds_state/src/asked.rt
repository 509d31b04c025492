//! What of a request may leave behind what a server doesn't tell. No SQL is read for it but four letters.

ghost use Rattle.std.specs.Prelude.{◌≡◌, ◌≤◌, IfOk, length};
ghost use Rattle.tds_state.specs.Asking.{asked_call, procedure_call, request_begun, is_call, is_harmless, is_harmless_name, is_known_call, is_plain_behind, is_plain_first, is_plain_letter, is_system_part, letter_of, letters_after, letters_next, may_make_handles, prepares, prepares_by, small, unprepared_handle, unprepares, with_body};
ghost use Rattle.tds_state.specs.KeptBytes.{no_bytes_kept};
ghost use Rattle.tds_state.specs.declared.asked.Request.TheVariants.{Other};

use crate::NoMemory;
use crate::kept::{Kept, behind};
use crate::spots::{bytes_stand, four_bytes};
use std::alloc::Global;

/// What a request is, as far as it matters here.
#[derive(Clone, Copy, Debug, PartialEq, Eq)]
pub enum Request {
    /// A batch of SQL (MS-TDS 2.2.6.7).
    Batch,
    /// A call of a procedure (RPC, MS-TDS 2.2.6.6).
    Procedure,
    /// Rows of a bulk load, or a transaction manager request.
    Other,
}

/// What a request leaves behind that a server doesn't tell.
#[derive(Clone, Copy, Debug, PartialEq, Eq)]
pub enum Call {
    /// Nothing.
    Harmless,
    /// The handle that its answer returns.
    Prepares,
    /// This handle isn't open any more.
    Unprepares(u32),
    /// It may be anything.
    Unknown,
}

/// The newest request, as far as its body has come.
#[derive(Drop)]
pub struct Asked {
    pub kind: Request,
    /// Of a call, its first bytes: the procedure's name.
    pub head: Kept,
    /// Of a batch, how many bytes of the letters `bulk` came last; 8 once all have.
    pub letters: u8,
}

/// The most bytes of a call that are kept.
const HEAD: usize = 1_024;

/// `sp_executesql`, two bytes a letter.
const EXECUTE: [u8; 26] = *b"s\0p\0_\0e\0x\0e\0c\0u\0t\0e\0s\0q\0l\0";

/// `sp_execute`.
const RUN: [u8; 20] = *b"s\0p\0_\0e\0x\0e\0c\0u\0t\0e\0";

/// `sp_prepare`, `sp_prepexec` and `sp_unprepare`, by their numbers, and by their names behind the count of letters.
const PREPARE: [u8; 4] = [0xff, 0xff, 11, 0];

const PREPARE_NAME: [u8; 22] = *b"\x0a\0s\0p\0_\0p\0r\0e\0p\0a\0r\0e\0";

const PREPEXEC: [u8; 4] = [0xff, 0xff, 13, 0];

const PREPEXEC_NAME: [u8; 24] = *b"\x0b\0s\0p\0_\0p\0r\0e\0p\0e\0x\0e\0c\0";

const UNPREPARE: [u8; 4] = [0xff, 0xff, 15, 0];

const UNPREPARE_NAME: [u8; 26] = *b"\x0c\0s\0p\0_\0u\0n\0p\0r\0e\0p\0a\0r\0e\0";

/// `bulk`, two bytes a letter.
const BULK: [u8; 8] = *b"b\0u\0l\0k\0";

fn small(byte: u8) -> u8
    ensures { result ≡ small byte }
{
    if byte >= 65 && byte < 91 {
        byte + 32
    } else {
        byte
    }
}

fn letter_of(low: u8, high: u8) -> u8
    ensures { result ≡ letter_of low high }
{
    if high == 0 { small(low) } else { 0 }
}

fn is_plain_letter(letter: u8) -> bool
    ensures { result ≡ is_plain_letter letter }
{
    (letter >= 97 && letter < 123) || (letter >= 48 && letter < 58) || letter == 95
}

/// Whether `sp_` or `xp_` stands in front of these letters.
#[tactic(auto, unfolding(crate::specs::Asking::is_system_part))]
fn is_system_part(name: &[u8]) -> bool
    ensures { result ≡ is_system_part name.now }
{
    match name {
        [a, b, c, d, e, f, ..] => {
            let first = letter_of(*a, *b);
            let second = letter_of(*c, *d);
            let third = letter_of(*e, *f);
            (first == 115 || first == 120) && (second == 112 && third == 95)
        }
        _ => false,
    }
}

/// Whether the first letter may stand in a plain name.
#[tactic(auto, unfolding(crate::specs::Asking::is_plain_first))]
fn is_plain_first(name: &[u8]) -> bool
    ensures { result ≡ is_plain_first name.now }
{
    match name {
        [low, high, behind @ ..] => {
            let letter = letter_of(*low, *high);
            if letter == 46 {
                !is_system_part(behind)
            } else {
                is_plain_letter(letter)
            }
        }
        _ => false,
    }
}

fn is_plain_behind(name: &[u8]) -> bool
    ensures { result ≡ is_plain_behind name.now }
{
    let mut at = 0;
    'letters: while at < name.len() {
        let rest = behind(name, at);
        let is_plain = is_plain_first(rest);
        if !is_plain {
            return false;
        }
        at += 2;
    }
    true
}

fn is_harmless_name(name: &[u8]) -> bool
    ensures { result ≡ is_harmless_name name.now }
{
    name == EXECUTE.as_slice()
        || (name == RUN.as_slice() || (!is_system_part(name) && is_plain_behind(name)))
}

/// Whether a call of which these are the first bytes leaves nothing behind that a server doesn't tell.
#[tactic(auto, unfolding(crate::specs::Asking::is_harmless))]
fn is_harmless(head: &[u8]) -> bool
    ensures { result ≡ is_harmless head.now }
{
    match head {
        [0xff, 0xff, 10, 0, ..] => true,
        [0xff, 0xff, 12, 0, ..] => true,
        [0xff, 0xff, ..] => false,
        [a, b, behind @ ..] => {
            let count = 2 * (usize::from(*a) + 256 * usize::from(*b));
            count <= behind.len() && is_harmless_name(&behind[..count])
        }
        _ => false,
    }
}

/// Whether a call begins so, and its first parameter is a number without a name that is returned.
fn prepares_by(head: &[u8], front: &[u8]) -> bool
    ensures { result ≡ prepares_by head.now front.now }
{
    bytes_stand(head, 0, front) && bytes_stand(behind(head, front.len()), 2, &[0, 1, 0x26, 4])
}

fn prepares(head: &[u8]) -> bool
    ensures { result ≡ prepares head.now }
{
    (prepares_by(head, PREPARE.as_slice()) || prepares_by(head, PREPEXEC.as_slice()))
        || (prepares_by(head, PREPARE_NAME.as_slice())
            || prepares_by(head, PREPEXEC_NAME.as_slice()))
}

/// The handle that a call which begins so closes: it is its only parameter, a number without a name.
fn unprepared_handle(head: &[u8], front: &[u8]) -> Option<u32>
    ensures { result ≡ unprepared_handle head.now front.now }
{
    let rest = behind(head, front.len());
    if bytes_stand(head, 0, front) && bytes_stand(rest, 2, &[0, 0, 0x26, 4, 4]) {
        four_bytes(behind(rest, 7))
    } else {
        None
    }
}

fn unprepares(head: &[u8]) -> Call
    ensures { result ≡ unprepares head.now }
{
    if let Some(handle) = unprepared_handle(head, UNPREPARE.as_slice()) {
        return Call::Unprepares(handle);
    }
    match unprepared_handle(head, UNPREPARE_NAME.as_slice()) {
        Some(handle) => Call::Unprepares(handle),
        None => Call::Unknown,
    }
}

/// What a call is of which these are the first bytes.
fn procedure_call(head: &[u8]) -> Call
    ensures { result ≡ procedure_call head.now }
{
    if is_harmless(head) {
        Call::Harmless
    } else if prepares(head) {
        Call::Prepares
    } else {
        unprepares(head)
    }
}

fn is_known_call(call: Call) -> bool
    ensures { result ≡ is_known_call call }
{
    match call {
        Call::Harmless | Call::Prepares | Call::Unprepares(_) => true,
        Call::Unknown => false,
    }
}

fn letters_next(came: u8, byte: u8) -> u8
    ensures { result ≡ letters_next came byte }
{
    if came >= 8 {
        return 8;
    }
    let small = small(byte);
    if small == BULK[usize::from(came)] {
        came + 1
    } else if small == 98 {
        1
    } else {
        0
    }
}

/// What is left of bytes from that on with which `bulk` may begin.
#[tactic(auto, unfolding(crate::specs::Asking::letters_after))]
fn from_first(bytes: &[u8]) -> &[u8]
    ensures same { letters_after 0 result.now ≡ letters_after 0 bytes.now }
    ensures few { length result.now ≤ length bytes.now }
{
    let mut rest = bytes;
    'bytes: while let [byte, behind @ ..] = rest {
        let letters = letters_next(0, *byte);
        if letters != 0 {
            return rest;
        }
        rest = behind;
    }
    rest
}

/// What of these is to be looked at behind so many letters.
fn left_by(letters: u8, bytes: &[u8]) -> &[u8]
    ensures same { letters_after letters result.now ≡ letters_after letters bytes.now }
    ensures few { length result.now ≤ length bytes.now }
{
    if letters == 0 {
        from_first(bytes)
    } else {
        bytes
    }
}

#[tactic(auto, unfolding(crate::specs::Asking::letters_after))]
fn letters_after(came: u8, bytes: &[u8]) -> u8
    ensures { result ≡ letters_after came bytes.now }
{
    let mut letters = came;
    let mut rest = bytes;
    'bytes: while let [byte, behind @ ..] = rest {
        letters = letters_next(letters, *byte);
        rest = left_by(letters, behind);
    }
    letters
}

impl Asked {
    pub(crate) fn new(alloc: Global) -> Result<Asked, NoMemory>
        ensures { IfOk result (λ asked. asked
            ≡ record { kind = Other; head = no_bytes_kept 1024; letters = 0 }) }
    {
        Ok(Asked {
            kind: Request::Other,
            head: Kept::new(alloc, HEAD)?,
            letters: 0,
        })
    }

    /// The next request begins.
    pub(crate) fn begin(&mut self, kind: Request)
        ensures { self.new ≡ request_begun self.old kind }
    {
        self.kind = kind;
        self.head.clear();
        self.letters = 0;
    }

    /// The next bytes of its body have come.
    pub(crate) fn take(&mut self, bytes: &[u8])
        ensures { self.new ≡ with_body self.old bytes.now }
    {
        match self.kind {
            Request::Batch => self.letters = letters_after(self.letters, bytes),
            Request::Procedure => self.head.keep(bytes),
            Request::Other => {}
        }
    }

    /// What it leaves behind.
    pub(crate) fn call(&self) -> Call
        ensures { result ≡ asked_call self.now }
    {
        match self.kind {
            Request::Procedure => procedure_call(self.head.bytes()),
            Request::Batch | Request::Other => Call::Harmless,
        }
    }

    /// Whether it may make what a server doesn't tell, and that isn't counted.
    pub(crate) fn may_make_handles(&self) -> bool
        ensures { result ≡ may_make_handles self.now }
    {
        match self.kind {
            Request::Procedure => !is_known_call(procedure_call(self.head.bytes())),
            Request::Batch | Request::Other => false,
        }
    }

    pub(crate) fn is_call(&self) -> bool
        ensures { result ≡ is_call self.now.kind }
    {
        match self.kind {
            Request::Procedure => true,
            Request::Batch | Request::Other => false,
        }
    }
}
