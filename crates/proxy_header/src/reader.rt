//! A header in pieces.
ghost use Rattle.std.specs.Prelude.{◌≡◌, ◌++◌, ◌≤◌, [], take, length, IfOk};
ghost use Rattle.proxy_header.specs.Header.{header_in};
ghost use Rattle.proxy_header.specs.Pieces.{TakesOfHeader};

use crate::header::{Found, read};
use crate::source::Source;
use std::alloc::{AllocError, Global};

/// What has come of a header.
#[derive(Clone, Copy, Debug, PartialEq, Eq)]
pub enum Taken {
    /// More of it is to come.
    More,
    /// It is whole.
    Whole(Source),
    /// It is no header.
    Wrong,
}

/// A header as it comes. It keeps at most [`LONGEST`](crate::LONGEST) bytes.
#[derive(Drop)]
pub struct HeaderReader {
    bytes: Vec<u8>,
}

impl HeaderReader {
    /// Nothing has come.
    pub fn new(alloc: Global) -> HeaderReader
        ensures { result.bytes.items ≡ [] }
    {
        HeaderReader {
            bytes: Vec::new(alloc),
        }
    }

    /// Takes what of a piece belongs to the header, and answers how many bytes that are. Those behind them
    /// are the connection's own.
    pub fn take(&mut self, piece: &[u8]) -> Result<(usize, Taken), AllocError>
        ensures taken { IfOk result (λ taken. TakesOfHeader self.old.bytes.items piece.now
            taken.0 taken.1 self.new.bytes.items) }
    {
        match read(&self.bytes) {
            Found::Whole(source) => Ok((0, Taken::Whole(source))),
            Found::Wrong => Ok((0, Taken::Wrong)),
            Found::Missing(_) if piece.is_empty() => Ok((0, Taken::More)),
            Found::Missing(missing) => {
                let (own, rest) = piece.split_at(missing.min(piece.len()));
                self.bytes.extend_from_slice(own)?;
                let (count, taken) = self.take(rest)?;
                Ok((own.len() + count, taken))
            }
        }
    }
}
