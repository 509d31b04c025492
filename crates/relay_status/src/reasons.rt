//! Why a connection that is held doesn't rest: in a word, in words, and how many were held for it as somebody came to wait.

use crate::counts::raise;
use crate::figures::Figure;
use std::io::{self, Write};
use tds_state::Reason;

/// For each reason, how many connections were held for it as somebody came to wait.
#[derive(Clone, Copy)]
pub struct Kept {
    recovery: u64,
    unread: u64,
    unrecoverable: u64,
    state: u64,
    change: u64,
    transaction: u64,
    reset: u64,
    untold: u64,
    handle: u64,
    answer: u64,
    cancel: u64,
    bulk: u64,
}

impl Kept {
    pub fn none() -> Kept {
        Kept {
            recovery: 0,
            unread: 0,
            unrecoverable: 0,
            state: 0,
            change: 0,
            transaction: 0,
            reset: 0,
            untold: 0,
            handle: 0,
            answer: 0,
            cancel: 0,
            bulk: 0,
        }
    }

    /// One more was held for this.
    pub fn add(&mut self, reason: Reason) {
        raise(match reason {
            Reason::NoRecovery => &mut self.recovery,
            Reason::Unread => &mut self.unread,
            Reason::Unrecoverable(_) => &mut self.unrecoverable,
            Reason::State(_) => &mut self.state,
            Reason::Change(_) => &mut self.change,
            Reason::Transaction => &mut self.transaction,
            Reason::Reset => &mut self.reset,
            Reason::Untold => &mut self.untold,
            Reason::Handle => &mut self.handle,
            Reason::Answer => &mut self.answer,
            Reason::Cancel => &mut self.cancel,
            Reason::Bulk => &mut self.bulk,
        });
    }

    pub(crate) fn figures(&self) -> [Figure; 12] {
        [
            ("waits_behind", "recovery", self.recovery),
            ("waits_behind", "unread", self.unread),
            ("waits_behind", "unrecoverable", self.unrecoverable),
            ("waits_behind", "state", self.state),
            ("waits_behind", "change", self.change),
            ("waits_behind", "transaction", self.transaction),
            ("waits_behind", "reset", self.reset),
            ("waits_behind", "untold", self.untold),
            ("waits_behind", "handle", self.handle),
            ("waits_behind", "answer", self.answer),
            ("waits_behind", "cancel", self.cancel),
            ("waits_behind", "bulk", self.bulk),
        ]
    }
}

/// A reason in a word, as a figure has it.
fn word_of(reason: Reason) -> &'static str {
    match reason {
        Reason::NoRecovery => "recovery",
        Reason::Unread => "unread",
        Reason::Unrecoverable(_) => "unrecoverable",
        Reason::State(_) => "state",
        Reason::Change(_) => "change",
        Reason::Transaction => "transaction",
        Reason::Reset => "reset",
        Reason::Untold => "untold",
        Reason::Handle => "handle",
        Reason::Answer => "answer",
        Reason::Cancel => "cancel",
        Reason::Bulk => "bulk",
    }
}

/// A reason for a reader.
fn words_of(reason: Reason) -> &'static str {
    match reason {
        Reason::NoRecovery => "the server doesn't tell its state",
        Reason::Unread => "something couldn't be read or kept",
        Reason::Unrecoverable(_) => "what the server calls unrecoverable, as #t",
        Reason::State(_) => "a setting or #t",
        Reason::Change(1) => "another database",
        Reason::Change(2) => "another language",
        Reason::Change(_) => "another value",
        Reason::Transaction => "an open transaction",
        Reason::Reset => "a reset that isn't done",
        Reason::Untold => "what its server may not tell",
        Reason::Handle => "a prepared handle",
        Reason::Answer => "an answer that is due",
        Reason::Cancel => "a cancel, up to one more answer",
        Reason::Bulk => "a bulk load that may come",
    }
}

/// Appends it for a reader.
pub(crate) fn put_reason(body: &mut Vec<u8>, reason: Reason) -> io::Result<()> {
    write!(body, ", since: {}", words_of(reason))?;
    match reason {
        Reason::State(id) | Reason::Unrecoverable(Some(id)) => write!(body, " (StateId {id})"),
        Reason::Change(kind) => write!(body, " (ENVCHANGE {kind})"),
        _ => Ok(()),
    }
}

/// Appends it as fields of JSON.
pub(crate) fn put_json_reason(body: &mut Vec<u8>, reason: Reason) -> io::Result<()> {
    write!(body, ",\"why\":\"{}\"", word_of(reason))?;
    match reason {
        Reason::Unrecoverable(Some(number)) | Reason::State(number) | Reason::Change(number) => {
            write!(body, ",\"which\":{number}")
        }
        _ => Ok(()),
    }
}
