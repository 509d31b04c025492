//! What is told of a group and a socket, as objects of JSON. Names need no escape.

use crate::at::Role;
use crate::lines::{GroupLine, SocketLine};
use crate::reasons::put_json_reason;
use std::io::{self, Write};

/// A socket's object.
pub fn put_json_socket(body: &mut Vec<u8>, socket: &SocketLine<'_>) -> io::Result<()> {
    put_kind(body, socket)?;
    put_at(body, socket)?;
    put_others(body, socket)?;
    put_who(body, socket)?;
    put_process(body, socket)?;
    write!(body, "}}")
}

fn put_kind(body: &mut Vec<u8>, socket: &SocketLine<'_>) -> io::Result<()> {
    let (kind, number) = (socket.role.words(), socket.number);
    write!(body, "{{\"kind\":\"{kind}\",\"number\":{number}")?;
    match socket.group {
        Some(group) => write!(body, ",\"group\":{group}"),
        None => Ok(()),
    }
}

/// What it is at.
fn put_at(body: &mut Vec<u8>, socket: &SocketLine<'_>) -> io::Result<()> {
    let (at, seconds) = (socket.at.words(), socket.seconds);
    write!(body, ",\"at\":\"{at}\",\"seconds\":{seconds}")?;
    if socket.limit == 0 {
        return Ok(());
    }
    write!(body, ",\"limit\":{}", socket.limit)
}

/// A connection's process at the server.
fn put_process(body: &mut Vec<u8>, socket: &SocketLine<'_>) -> io::Result<()> {
    if let Role::Connection = socket.role {
        let (spid, server) = (socket.spid, socket.server);
        write!(body, ",\"spid\":{spid},\"server\":{server}")?;
    }
    put_rest(body, socket)
}

/// Whether it rests, and why it doesn't.
fn put_rest(body: &mut Vec<u8>, socket: &SocketLine<'_>) -> io::Result<()> {
    if let Some(rests) = socket.rests {
        write!(body, ",\"rests\":{rests}")?;
    }
    match socket.why {
        Some(reason) => put_json_reason(body, reason),
        None => Ok(()),
    }
}

/// Who is at the other end, and what it waits for.
fn put_others(body: &mut Vec<u8>, socket: &SocketLine<'_>) -> io::Result<()> {
    if let Some(number) = socket.partner {
        let name = match socket.role {
            Role::Connection => "held_by",
            Role::Dialed => "opens_for",
            _ => "holds",
        };
        write!(body, ",\"{name}\":{number}")?;
    }
    match socket.at.awaited() {
        Some(what) => write!(body, ",\"waits_for\":\"{what}\""),
        None => Ok(()),
    }
}

/// Who it says that it is, and where it is.
fn put_who(body: &mut Vec<u8>, socket: &SocketLine<'_>) -> io::Result<()> {
    if let Some(peer) = socket.peer {
        write!(body, ",\"from\":\"{peer}\"")?;
    }
    let Some(names) = socket.names else {
        return Ok(());
    };
    put_name(body, "host", names.host)?;
    put_name(body, "user", names.user)?;
    put_name(body, "program", names.program)?;
    put_name(body, "database", names.database)
}

/// A name, and what it is of.
fn put_name(body: &mut Vec<u8>, what: &str, name: &str) -> io::Result<()> {
    write!(body, ",\"{what}\":\"{name}\"")
}

/// A group's object, up to the numbers of its wait queue.
pub fn put_json_group(body: &mut Vec<u8>, group: &GroupLine<'_>) -> io::Result<()> {
    write!(body, "{{\"group\":{}", group.number)?;
    put_name(body, "user", group.names.user)?;
    put_name(body, "database", group.names.database)?;
    put_name(body, "program", group.names.program)?;
    put_sharing(body, group)?;
    write!(body, ",\"waiting\":[")
}

fn put_sharing(body: &mut Vec<u8>, group: &GroupLine<'_>) -> io::Result<()> {
    let is_shared = if group.is_shared { "true" } else { "false" };
    write!(body, ",\"most\":{},\"shared\":{is_shared}", group.most)?;
    if let Some(count) = group.partings {
        write!(body, ",\"partings\":{count}")?;
    }
    match group.paused {
        Some(seconds) => write!(body, ",\"paused_seconds\":{seconds}"),
        None => Ok(()),
    }
}
