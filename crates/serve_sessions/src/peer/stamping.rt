//! The number of a session, in each packet of its server's (MS-TDS 2.2.3.1.4).
ghost use Rattle.std.specs.Prelude.{◌≡◌, vec_len};

use crate::peer::{Peer, Stage};

/// The first number: those below are the server's own.
const FIRST: u64 = 51;

/// How many numbers there are.
const COUNT: u64 = 32_717;

impl Peer {
    /// The session's number, of its connection's.
    pub(crate) fn spid(&self) -> u16 {
        let place = self.number.saturating_sub(1) % COUNT;
        u16::try_from(FIRST + place).unwrap_or(0)
    }

    /// Writes the session's number into the packets that stand behind so many bytes. There is none before the
    /// login is answered.
    pub fn stamp(&self, out: &mut Vec<u8>, from: usize)
        ensures { vec_len out.new ≡ vec_len out.old }
    {
        if matches!(self.stage, Stage::Login(_)) {
            return;
        }
        let [high, low] = self.spid().to_be_bytes();
        let mut at = from;
        for _ in from..out.len() {
            let count = match out.as_slice().get(at..) {
                Some([_, _, many, few, ..]) => u16::from_be_bytes([*many, *few]),
                _ => break,
            };
            put(out, at.saturating_add(4), high);
            put(out, at.saturating_add(5), low);
            at = at.saturating_add(usize::from(count.max(8)));
        }
    }
}

/// Writes a byte there, if there is one.
fn put(out: &mut Vec<u8>, at: usize, byte: u8)
    ensures { vec_len out.new ≡ vec_len out.old }
{
    if let Some(place) = out.get_mut(at) {
        *place = byte;
    }
}
