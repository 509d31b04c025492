//! The news of a reset that no application asked for, cut out of an answer: the first one where the server owes
//! it. Any other is the application's own (`sp_reset_connection`).
ghost use Rattle.std.specs.Prelude.{◌≡◌, ◌++◌, OnOk};
ghost use Rattle.tds_relay.specs.News.{awaiting, bytes_going_on, held, known_after, known_by, known_next, let_on};

use crate::NoMemory;

/// The first byte of ENVCHANGE, and the type of the news (MS-TDS 2.2.7.9).
const CHANGE: u8 = 0xe3;

const RESET_DONE: u8 = 18;

/// What is known of the token that comes.
#[derive(Clone, Copy, Debug)]
pub(crate) enum Known {
    /// Whatever it is, it goes on: no news is awaited.
    None,
    /// None of its bytes.
    Awaited,
    /// It is an ENVCHANGE.
    One,
    Two(u8),
    Three(u8, u8),
    /// It isn't the news: it goes on.
    Other,
    /// It is the news: it is left out.
    News,
}

/// What is known behind one more byte of the token.
fn known_by(known: Known, byte: u8) -> Known
    ensures { result ≡ known_by known byte }
{
    match known {
        Known::None => Known::None,
        Known::Awaited => {
            if byte == CHANGE {
                Known::One
            } else {
                Known::Other
            }
        }
        Known::One => Known::Two(byte),
        Known::Two(low) => Known::Three(low, byte),
        Known::Three(..) => {
            if byte == RESET_DONE {
                Known::News
            } else {
                Known::Other
            }
        }
        Known::Other => Known::Other,
        Known::News => Known::News,
    }
}

/// What is known of the next token.
fn known_next(known: Known) -> Known
    ensures { result ≡ known_next known }
{
    match known {
        Known::None => Known::None,
        Known::Awaited => Known::Awaited,
        Known::One => Known::Awaited,
        Known::Two(_) => Known::Awaited,
        Known::Three(..) => Known::Awaited,
        Known::Other => Known::Awaited,
        Known::News => Known::None,
    }
}

/// Appends the bytes of a token that were held back.
fn put_held(known: Known, kept: &mut Vec<u8>) -> Result<(), NoMemory>
    ensures { OnOk result (kept.new.items ≡ kept.old.items ++ held known) }
{
    match known {
        Known::None => Ok(()),
        Known::Awaited => Ok(()),
        Known::One => kept.extend_from_slice(&[CHANGE]),
        Known::Two(low) => kept.extend_from_slice(&[CHANGE, low]),
        Known::Three(low, high) => kept.extend_from_slice(&[CHANGE, low, high]),
        Known::Other => Ok(()),
        Known::News => Ok(()),
    }
}

/// Appends what goes on with this byte, where this is known behind it.
fn put_on(before: Known, byte: u8, behind: Known, kept: &mut Vec<u8>) -> Result<(), NoMemory>
    ensures { OnOk result (kept.new.items ≡ kept.old.items ++ let_on before byte behind) }
{
    match behind {
        Known::None => kept.extend_from_slice(&[byte]),
        Known::Awaited => Ok(()),
        Known::One => Ok(()),
        Known::Two(_) => Ok(()),
        Known::Three(..) => Ok(()),
        Known::Other => {
            put_held(before, kept)?;
            kept.extend_from_slice(&[byte])
        }
        Known::News => Ok(()),
    }
}

impl Known {
    /// Appends what goes on of these bytes of one token, the next ones.
    pub(crate) fn pass(&mut self, bytes: &[u8], kept: &mut Vec<u8>) -> Result<(), NoMemory>
        ensures goes_on { OnOk result (kept.new.items
            ≡ kept.old.items ++ bytes_going_on self.old bytes.now) }
        ensures known { OnOk result (self.new ≡ known_after self.old bytes.now) }
    {
        for byte in bytes {
            let behind = known_by(*self, *byte);
            put_on(*self, *byte, behind, kept)?;
            *self = behind;
        }
        Ok(())
    }

    /// The token has ended: appends what was held back of it.
    pub(crate) fn end(&mut self, kept: &mut Vec<u8>) -> Result<(), NoMemory>
        ensures held { OnOk result (kept.new.items ≡ kept.old.items ++ held self.old) }
        ensures next { OnOk result (self.new ≡ known_next self.old) }
    {
        put_held(*self, kept)?;
        *self = known_next(*self);
        Ok(())
    }

    /// The server owes the news, or doesn't.
    pub(crate) fn awaits(&mut self, owed: bool)
        ensures { self.new ≡ awaiting owed self.old }
    {
        if owed && matches!(*self, Known::None) {
            *self = Known::Awaited;
        }
    }
}
