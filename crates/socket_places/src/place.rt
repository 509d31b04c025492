//! Where a server listens, and the links that come there: over TCP, or over a Unix socket, which has
//! its owner's mode and so lets no other user of the machine in.

use crate::keeping::{Keeping, USUAL, keep};
use libc::net as c;
use mio::net::{TcpListener, TcpStream, UnixListener, UnixStream};
use mio::{Interest, Registry, Token};
use std::fmt;
use std::fs::{self, Files, Permissions};
use std::io::{self, Error, ErrorKind, Read, Write};
use std::net::{Net, SocketAddr};
use std::os::fd::{AsFd, AsRawFd, OwnedFd};
use std::os::unix::fs::{FileTypeExt, PermissionsExt};
use std::os::unix::net;

/// Reads and writes of a Unix socket for its owner alone.
const OWNER_ALONE: u32 = 0o600;

/// As many may wait to be accepted as the system allows.
const BACKLOG: i32 = -1;

/// Where a server is to listen.
#[derive(Debug, Drop)]
pub enum Place {
    Tcp(SocketAddr),
    /// The path of a Unix socket.
    Unix(String),
}

impl fmt::Display for Place {
    fn fmt<W: fmt::Write>(&self, f: &mut fmt::Formatter<W>) -> fmt::Result {
        match self {
            Place::Tcp(address) => write!(f, "{address}"),
            Place::Unix(path) => write!(f, "unix:{path}"),
        }
    }
}

/// What listens there.
#[derive(Drop)]
pub enum Listener {
    Tcp(TcpListener),
    Unix(UnixListener),
}

impl Listener {
    /// A listener at this place. A Unix socket takes the place of one that nobody listens at any more.
    pub fn new<R: Net + Files>(rt: &R, place: &Place) -> io::Result<Listener> {
        match place {
            Place::Tcp(address) => {
                let listener = TcpListener::bind(rt, *address)?;
                keep(&listener, &USUAL)?;
                Ok(Listener::Tcp(listener))
            }
            Place::Unix(path) => Ok(Listener::Unix(listen_at(rt, path.as_str())?)),
        }
    }

    /// Has the system report who comes.
    pub fn register(&mut self, registry: &Registry, token: Token) -> io::Result<()> {
        match self {
            Listener::Tcp(listener) => registry.register(listener, token, Interest::READABLE),
            Listener::Unix(listener) => registry.register(listener, token, Interest::READABLE),
        }
    }

    /// The next link that waits, and the address that it comes from: a Unix socket's has none.
    pub fn accept(&self) -> io::Result<(Link, Option<SocketAddr>)> {
        match self {
            Listener::Tcp(listener) => {
                let (stream, from) = listener.accept()?;
                Ok((Link::Tcp(stream), Some(from)))
            }
            Listener::Unix(listener) => {
                let (stream, _) = listener.accept()?;
                Ok((Link::Unix(stream), None))
            }
        }
    }

    /// The address that it has, where it listens over TCP.
    pub fn address(&self) -> io::Result<Option<SocketAddr>> {
        match self {
            Listener::Tcp(listener) => Ok(Some(listener.local_addr()?)),
            Listener::Unix(_) => Ok(None),
        }
    }
}

/// A Unix socket at this path. It listens once its owner alone may open it.
fn listen_at<R: Net + Files>(rt: &R, path: &str) -> io::Result<UnixListener> {
    let address = net::SocketAddr::from_pathname(path)?;
    clear(rt, path, &address)?;
    let socket = rt.unix_socket()?;
    rt.bind_unix(socket.as_fd(), &address)?;
    fs::set_permissions(rt, path, Permissions::from_mode(OWNER_ALONE))?;
    listen(&socket)?;
    let listener = net::UnixListener::from(socket);
    listener.set_nonblocking(true)?;
    Ok(UnixListener::from_std(listener))
}

fn listen(socket: &OwnedFd) -> io::Result<()> {
    if c::listen(socket.as_raw_fd(), BACKLOG) < 0 {
        Err(Error::from(ErrorKind::Unsupported))
    } else {
        Ok(())
    }
}

/// Removes a socket at this path that nobody listens at. Anything else stays, and the path is in use.
fn clear<R: Net + Files>(rt: &R, path: &str, address: &net::SocketAddr) -> io::Result<()> {
    match fs::symlink_metadata(rt, path) {
        Ok(found) if found.file_type().is_socket() => {}
        _ => return Ok(()),
    }
    match net::UnixStream::connect_addr(rt, address) {
        Err(error) if error.kind() == ErrorKind::ConnectionRefused => fs::remove_file(rt, path),
        _ => Ok(()),
    }
}

/// A link to a peer.
#[derive(Drop)]
pub enum Link {
    Tcp(TcpStream),
    Unix(UnixStream),
}

impl Link {
    /// Has the system report what can be read and written, and send small packets at once.
    pub fn register(&mut self, registry: &Registry, token: Token) -> io::Result<()> {
        let both = Interest::READABLE | Interest::WRITABLE;
        match self {
            Link::Tcp(stream) => {
                stream.set_nodelay(true)?;
                registry.register(stream, token, both)
            }
            Link::Unix(stream) => registry.register(stream, token, both),
        }
    }

    /// Has the system look after it so, where it is over TCP.
    pub fn keep(&self, keeping: &Keeping) -> io::Result<()> {
        match self {
            Link::Tcp(stream) => keep(stream, keeping),
            Link::Unix(_) => Ok(()),
        }
    }
}

impl Read for Link {
    fn read(&mut self, buf: &mut [u8]) -> io::Result<usize> {
        match self {
            Link::Tcp(stream) => stream.read(buf),
            Link::Unix(stream) => stream.read(buf),
        }
    }
}

impl Write for Link {
    fn write(&mut self, buf: &[u8]) -> io::Result<usize> {
        match self {
            Link::Tcp(stream) => stream.write(buf),
            Link::Unix(stream) => stream.write(buf),
        }
    }

    fn flush(&mut self) -> io::Result<()> {
        Ok(())
    }
}
