//! The rows of a bulk load (MS-TDS 2.2.6.1), read past and counted.

use std::alloc::{AllocError, Global};
use tds_wire::{Features, TokenParser};

/// The most columns of a bulk load.
const COLUMNS: u16 = 1024;

/// The tokens of a row and of one with a null bitmap (MS-TDS 2.2.7.17, 2.2.7.15).
const ROW: u8 = 0xd1;

const NULL_ROW: u8 = 0xd2;

/// Counts the rows of a bulk load, whose bytes are tokens as an answer's are.
#[derive(Drop)]
pub(crate) struct RowCount {
    parser: TokenParser,
    rows: u64,
    is_wrong: bool,
}

impl RowCount {
    pub(crate) fn new(alloc: Global) -> Result<RowCount, AllocError> {
        let features = Features {
            encryption: false,
            ranks: false,
        };
        Ok(RowCount {
            parser: TokenParser::new(alloc, COLUMNS, features)?,
            rows: 0,
            is_wrong: false,
        })
    }

    /// Takes bytes of the message's data.
    pub(crate) fn take(&mut self, piece: &[u8]) {
        let mut rest = piece;
        for _ in 0..piece.len() {
            if rest.is_empty() || self.is_wrong {
                return;
            }
            let Ok(fed) = self.parser.feed(rest) else {
                self.is_wrong = true;
                return;
            };
            if let Some(token) = fed.token {
                if token.kind == ROW || token.kind == NULL_ROW {
                    self.rows = self.rows.saturating_add(1);
                }
            }
            rest = &rest[fed.count..];
        }
    }

    /// How many rows came, or none where what came is no bulk load.
    pub(crate) fn count(&self) -> Option<u64> {
        if self.is_wrong || !self.parser.is_between() {
            None
        } else {
            Some(self.rows)
        }
    }
}
