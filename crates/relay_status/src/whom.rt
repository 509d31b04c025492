//! Whose a line of the log is.

use crate::lines::Names;
use std::io::Write;
use std::net::SocketAddr;

/// Whose a line is: who an application says that it is, and where it is.
#[derive(Clone, Copy)]
pub struct Whom<'a> {
    pub names: Option<Names<'a>>,
    pub peer: Option<SocketAddr>,
}

/// A line that is no application's.
pub const NOBODY: Whom<'static> = Whom {
    names: None,
    peer: None,
};

/// Appends it for a reader, as far as it is known.
pub(crate) fn put_whom(out: &mut Vec<u8>, whom: &Whom<'_>) {
    if let Some(peer) = whom.peer {
        let _ = write!(out, " (");
        if let Some(names) = whom.names {
            put_named(out, "user", names.user);
            put_named(out, "database", names.database);
        }
        let _ = write!(out, "from {peer})");
    }
}

/// A name behind what it is of, and what stands before the next one. Nothing where it is empty.
fn put_named(out: &mut Vec<u8>, what: &str, name: &str) {
    if !name.is_empty() {
        let _ = write!(out, "{what} {name}, ");
    }
}

/// Appends it as fields of an object of JSON. Names need no escape.
pub(crate) fn put_json_whom(out: &mut Vec<u8>, whom: &Whom<'_>) {
    if let Some(names) = whom.names {
        let _ = write!(out, ",\"user\":\"{}\"", names.user);
        let _ = write!(out, ",\"database\":\"{}\"", names.database);
    }
    if let Some(peer) = whom.peer {
        let _ = write!(out, ",\"from\":\"{peer}\"");
    }
}
