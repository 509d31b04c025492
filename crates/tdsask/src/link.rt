//! A connection to a server, on which each answer is awaited for so long and no longer.

use anyhow::bail;
use std::io::{ErrorKind, Read, Write};
use std::net::{TcpStream, ToSocketAddrs};
use std::time::{Duration, Instant};

/// A connection to a server.
#[derive(Drop)]
pub struct Link {
    stream: TcpStream,
    /// How long an answer is awaited, all of it.
    limit: Duration,
    /// When the wait for the newest answer began.
    since: Instant,
}

impl Link {
    /// Connects to the first address of this argument that answers within the limit.
    pub fn connect(rt: &HostRuntime, address: &str, limit: Duration) -> anyhow::Result<Link> {
        let stream = connected(rt, address, limit)?;
        stream.set_nodelay(true)?;
        stream.set_write_timeout(Some(limit))?;
        let since = Instant::now(rt)?;
        Ok(Link {
            stream,
            limit,
            since,
        })
    }

    /// Sends these bytes. The wait for what they are answered with begins.
    pub fn send(&mut self, rt: &HostRuntime, bytes: &[u8]) -> anyhow::Result<()> {
        self.since = Instant::now(rt)?;
        self.stream.write_all(bytes)?;
        Ok(())
    }

    /// Reads what comes, one byte at least, within what is left of the wait.
    pub fn read(&mut self, rt: &HostRuntime, buffer: &mut [u8]) -> anyhow::Result<usize> {
        let left = self.limit.saturating_sub(self.since.elapsed(rt)?);
        if left.is_zero() {
            return self.too_late();
        }
        self.stream.set_read_timeout(Some(left))?;
        match self.stream.read(buffer) {
            Ok(0) => bail!("the server closed the connection"),
            Ok(count) => Ok(count),
            Err(error) if error.kind() == ErrorKind::WouldBlock => self.too_late(),
            Err(error) => Err(error.into()),
        }
    }

    /// Fills the buffer, within what is left of the wait.
    pub fn fill(&mut self, rt: &HostRuntime, buffer: &mut [u8]) -> anyhow::Result<()> {
        let mut done = 0usize;
        for _ in 0..buffer.len() {
            let Some(rest) = buffer.get_mut(done..) else {
                break;
            };
            if rest.is_empty() {
                break;
            }
            done = done.saturating_add(self.read(rt, rest)?);
        }
        Ok(())
    }

    fn too_late(&self) -> anyhow::Result<usize> {
        bail!("it wasn't there within {} s", self.limit.as_secs())
    }
}

/// A stream to the first address of this argument that answers within the limit.
fn connected(rt: &HostRuntime, address: &str, limit: Duration) -> anyhow::Result<TcpStream> {
    let mut last = None;
    for address in address.to_socket_addrs(rt)? {
        match TcpStream::connect_timeout(rt, &address, limit) {
            Ok(stream) => return Ok(stream),
            Err(error) => last = Some(error),
        }
    }
    match last {
        Some(error) => Err(error.into()),
        None => bail!("it has no IP address"),
    }
}
