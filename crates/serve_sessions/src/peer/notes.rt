//! What is noted of a connection for the log, and the errors that end one.
ghost use Rattle.std.specs.Prelude.{◌+◌, ◌≤◌, vec_len};

use crate::front::Took;
use std::alloc::{AllocError, Global};
use tds_login::{Refusal, put_error};

/// What happened on a connection, for the log.
#[derive(Debug, Drop)]
pub enum Note {
    /// It is logged in, with packets of this many bytes.
    LoggedIn(u16),
    /// It was refused: TDS before 7.2.
    OldVersion,
    /// It was refused: encryption was demanded.
    Encryption,
    /// The script refuses its login.
    Refused,
    /// The script lets its reset fail.
    FailedReset,
    /// A request has come.
    Request(Asked),
    /// What else came of a packet.
    Came(Took),
    /// The answer to the request of this number is sent, or waits to be; it failed or not.
    Answered { request: u32, has_failed: bool },
    /// It sent what is not spoken here.
    Rubbish,
    /// The script holds the answer behind so many steps.
    Holds(u32),
}

/// A request that has come.
#[derive(Debug, Drop)]
pub struct Asked {
    /// Its number on its connection, from 1.
    pub request: u32,
    pub kind: Took,
    /// Its text, of which 60 units at most are kept.
    pub text: Vec<u16>,
    /// The descriptor of the transaction that the session is in, 0 outside one.
    pub descriptor: u64,
}

/// The note of a login that is refused.
pub(crate) fn refused(refusal: Refusal) -> Note {
    match refusal {
        Refusal::OldVersion => Note::OldVersion,
        Refusal::Encryption => Note::Encryption,
    }
}

/// Says that what came is not spoken here.
pub(crate) fn put_not_spoken(alloc: Global, out: &mut Vec<u8>) -> Result<(), AllocError>
    ensures { vec_len out.new ≤ vec_len out.old + 4096 }
{
    put_error(
        alloc,
        out,
        17_836,
        b"This server does not speak what came, and closes the connection.",
    )
}

/// Says that a login is refused.
pub(crate) fn put_login_failed(alloc: Global, out: &mut Vec<u8>) -> Result<(), AllocError>
    ensures { vec_len out.new ≤ vec_len out.old + 4096 }
{
    put_error(alloc, out, 18_456, b"Login failed, as the script says.")
}

/// Says that a reset has failed.
pub(crate) fn put_reset_failed(alloc: Global, out: &mut Vec<u8>) -> Result<(), AllocError>
    ensures { vec_len out.new ≤ vec_len out.old + 4096 }
{
    put_error(
        alloc,
        out,
        18_056,
        b"The client was unable to reuse a session, which had been reset for pooling.",
    )
}
