//! What is told of a server, a group and a socket, as lines for a reader.

use crate::at::{At, Role};
use crate::reasons::put_reason;
use std::io::{self, Write};
use std::net::SocketAddr;
use tds_state::Reason;

/// A group: applications whose logins are equal, or one that is alone.
#[derive(Clone, Copy)]
pub struct GroupLine<'a> {
    pub number: u64,
    pub is_shared: bool,
    /// The seconds since which it has been paused, if it is.
    pub paused: Option<u64>,
    /// What its login names; the host is the first one's.
    pub names: Names<'a>,
    /// The most connections.
    pub most: usize,
    /// How often an application was parted from its connection, where it is shared by transactions.
    pub partings: Option<u64>,
}

/// Who an application says that it is, in letters that need no escape.
#[derive(Clone, Copy)]
pub struct Names<'a> {
    pub host: &'a str,
    pub user: &'a str,
    pub program: &'a str,
    pub database: &'a str,
}

/// A socket.
#[derive(Clone, Copy)]
pub struct SocketLine<'a> {
    pub role: Role,
    pub number: u64,
    pub group: Option<u64>,
    pub at: At,
    /// For how many seconds it has been at that, and behind how many it is closed, 0 for none.
    pub seconds: u64,
    pub limit: u64,
    /// The number of who is at the other end.
    pub partner: Option<u64>,
    pub names: Option<Names<'a>>,
    /// Where an application is.
    pub peer: Option<SocketAddr>,
    /// A connection's process at the server, and the server's place in the list.
    pub spid: u16,
    pub server: usize,
    /// Whether a connection rests, where that is known.
    pub rests: Option<bool>,
    /// Why it doesn't.
    pub why: Option<Reason>,
}

/// A server's place and address, and whether it has failed lately.
pub fn put_server(
    body: &mut Vec<u8>,
    place: usize,
    server: SocketAddr,
    has_failed: bool,
) -> io::Result<()> {
    write!(body, "server {place} {server}")?;
    if has_failed {
        write!(body, " has failed")?;
    }
    write!(body, "\n")
}

/// A group's figures.
pub fn put_group(body: &mut Vec<u8>, group: &GroupLine<'_>) -> io::Result<()> {
    put_group_kind(body, group)?;
    put_group_names(body, &group.names)?;
    write!(body, ", at most {} connections", group.most)?;
    if let Some(count) = group.partings {
        write!(body, ", shared by transactions, {count} partings")?;
    }
    writeln!(body, "")?;
    if group.paused.is_some() {
        writeln!(
            body,
            "  who holds a connection may go on asking, who holds none isn't read"
        )?;
    }
    Ok(())
}

fn put_group_kind(body: &mut Vec<u8>, group: &GroupLine<'_>) -> io::Result<()> {
    let kind = if group.is_shared {
        "shared"
    } else {
        "not shared"
    };
    write!(body, "\ngroup {}, {kind}", group.number)?;
    match group.paused {
        Some(seconds) => write!(body, ", paused for {seconds} s"),
        None => Ok(()),
    }
}

/// The user, the database and the application that a group's login names.
fn put_group_names(body: &mut Vec<u8>, names: &Names<'_>) -> io::Result<()> {
    if names.user.is_empty() {
        write!(body, ", no user")?;
    }
    put_named(body, "user", names.user)?;
    put_named(body, "database", names.database)?;
    put_named(body, "application", names.program)
}

/// A name behind what it is of. Nothing where it is empty.
fn put_named(body: &mut Vec<u8>, what: &str, name: &str) -> io::Result<()> {
    if name.is_empty() {
        Ok(())
    } else {
        write!(body, ", {what} {name}")
    }
}

/// A socket's line.
pub fn put_socket(body: &mut Vec<u8>, socket: &SocketLine<'_>) -> io::Result<()> {
    let (role, number, at) = (socket.role.words(), socket.number, socket.at.words());
    write!(body, "  {role} {number} {at}")?;
    put_partner(body, socket)?;
    put_rest(body, socket)?;
    put_seconds(body, socket)?;
    put_names(body, socket)?;
    if let Role::Connection = socket.role {
        write!(body, " (SPID {}, server {})", socket.spid, socket.server)?;
    }
    writeln!(body, "")
}

/// Whether it rests, where somebody holds it.
fn put_rest(body: &mut Vec<u8>, socket: &SocketLine<'_>) -> io::Result<()> {
    match (socket.rests, socket.partner) {
        (Some(true), Some(_)) => write!(body, " and rests"),
        (Some(false), Some(_)) => {
            write!(body, " and doesn't rest")?;
            put_why(body, socket)
        }
        _ => Ok(()),
    }
}

fn put_why(body: &mut Vec<u8>, socket: &SocketLine<'_>) -> io::Result<()> {
    match socket.why {
        Some(reason) => put_reason(body, reason),
        None => Ok(()),
    }
}

fn put_seconds(body: &mut Vec<u8>, socket: &SocketLine<'_>) -> io::Result<()> {
    write!(body, ", {} s", socket.seconds)?;
    if socket.limit == 0 {
        return Ok(());
    }
    write!(body, " of {} s", socket.limit)
}

/// Who is at the other end.
fn put_partner(body: &mut Vec<u8>, socket: &SocketLine<'_>) -> io::Result<()> {
    let Some(number) = socket.partner else {
        return Ok(());
    };
    let words = match socket.role {
        Role::Connection => " by application ",
        Role::Dialed => " for application ",
        _ => " and holds connection ",
    };
    write!(body, "{words}{number}")
}

/// What an application says that it is, as far as it does, and where it is.
fn put_names(body: &mut Vec<u8>, socket: &SocketLine<'_>) -> io::Result<()> {
    let Some(peer) = socket.peer else {
        return Ok(());
    };
    write!(body, " (")?;
    if let Some(names) = socket.names {
        put_name(body, names.host)?;
        put_name(body, names.program)?;
    }
    write!(body, "from {peer})")
}

/// A name, and what stands before the next one. Nothing where it is empty.
fn put_name(body: &mut Vec<u8>, name: &str) -> io::Result<()> {
    if name.is_empty() {
        Ok(())
    } else {
        write!(body, "{name}, ")
    }
}
