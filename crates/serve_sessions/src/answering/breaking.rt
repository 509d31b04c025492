//! How an attention breaks an answer off.
ghost use Rattle.std.specs.Prelude.{◌+◌, ◌≤◌, vec_len};

use crate::answering::{Answering, put_packet};
use std::alloc::AllocError;
use tds_wire::{Features, TokenParser};

/// The most columns of an answer.
const COLUMNS: u16 = 1024;

/// The most bytes of an answer that go out behind its attention.
const MOST_BEHIND: usize = 128;

/// ROW and NBCROW (MS-TDS 2.2.7.17, 2.2.7.15).
const ROW: u8 = 0xd1;

const NULL_ROW: u8 = 0xd2;

impl Answering {
    /// Ends the message where an attention breaks the answer off inside a token, so that what acknowledges it
    /// is a message of its own (MS-TDS 2.2.1.7). In the shapes of a SQL Server a row that waits is begun
    /// first.
    pub fn break_off(&self, out: &mut Vec<u8>) -> Result<(), AllocError>
        ensures { vec_len out.new ≤ vec_len out.old + 136 }
    {
        let waiting = self.tokens.as_slice().get(self.sent..).unwrap_or(&[]);
        match self.count_behind()? {
            Some(count) => {
                let count = count.min(waiting.len()).min(MOST_BEHIND);
                put_packet(out, true, self.packet_id, &waiting[..count])
            }
            None => Ok(()),
        }
    }

    /// How many bytes go out behind the attention, if the answer is inside a token then.
    fn count_behind(&self) -> Result<Option<usize>, AllocError> {
        if self.left() == 0 {
            return Ok(None);
        }
        let features = Features {
            encryption: false,
            ranks: false,
        };
        let mut parser = TokenParser::new(self.alloc, COLUMNS, features)?;
        let mut start: usize = 0;
        let mut rest = self.tokens.as_slice();
        for _ in 0..self.tokens.len() {
            let Ok(fed) = parser.feed(rest) else {
                break;
            };
            let Some(token) = fed.token else {
                break;
            };
            let end = start.saturating_add(fed.count);
            if let Some(count) = self.count_in(start, end, token.kind) {
                return Ok(Some(count));
            }
            start = end;
            rest = &rest[fed.count..];
        }
        Ok(None)
    }

    /// The same where a token of this kind stands there, and the answer is to end in it.
    fn count_in(&self, start: usize, end: usize, kind: u8) -> Option<usize> {
        if start < self.sent && self.sent < end {
            return Some(1);
        }
        let is_row = kind == ROW || kind == NULL_ROW;
        if self.is_real && is_row && start >= self.sent {
            Some(start.saturating_sub(self.sent).saturating_add(1))
        } else {
            None
        }
    }
}
