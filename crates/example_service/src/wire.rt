//! The sockets, without waiting at any: those of the connections, and those of the servers at their
//! other ends. The system says which may be read.

use anyhow::bail;
use mio::net::{TcpListener, TcpStream};
use mio::{Events, Interest, Poll, Token};
use std::alloc::Global;
use std::io::{ErrorKind, Read, Write};
use std::net::SocketAddr;
use std::time::Duration;

/// The token of the listener. Connection n has 2n, the server's end of it 2n + 1.
const LISTENER: Token = Token(0);

/// A socket, and whether more may be there to read.
#[derive(Drop)]
pub struct Socket {
    stream: TcpStream,
    readable: bool,
}

impl Socket {
    /// Sends all these bytes, which are few enough for the system to take at once.
    pub fn send(&mut self, bytes: &[u8]) -> anyhow::Result<()> {
        self.stream.write_all(bytes)?;
        Ok(())
    }

    /// Reads what is there, up to the buffer's length. 0: nothing is, for now.
    pub fn read(&mut self, buffer: &mut [u8]) -> anyhow::Result<usize> {
        if !self.readable {
            return Ok(0);
        }
        match self.stream.read(buffer) {
            Ok(0) => bail!("the other end has closed"),
            Ok(count) => Ok(count),
            Err(error) if error.kind() == ErrorKind::WouldBlock => {
                self.readable = false;
                Ok(0)
            }
            Err(error) => Err(error.into()),
        }
    }
}

#[derive(Drop)]
pub struct Wires {
    poll: Poll,
    events: Events<Global>,
    listener: TcpListener,
    /// That of connection 1, then that of connection 2, and so on.
    pub near: Vec<Socket>,
    /// The servers' ends of them.
    pub far: Vec<Socket>,
}

impl Wires {
    pub fn new(rt: &HostRuntime) -> anyhow::Result<Wires> {
        let poll = Poll::new(rt)?;
        let mut listener = TcpListener::bind(rt, "127.0.0.1:0".parse::<SocketAddr>()?)?;
        poll.registry()
            .register(&mut listener, LISTENER, Interest::READABLE)?;
        Ok(Wires {
            poll,
            events: Events::with_capacity(rt.alloc(), 16)?,
            listener,
            near: Vec::new(rt.alloc()),
            far: Vec::new(rt.alloc()),
        })
    }

    /// Opens the next connection, up to where its server has taken it.
    pub fn open(&mut self, rt: &HostRuntime) -> anyhow::Result<()> {
        let mut stream = TcpStream::connect(rt, self.listener.local_addr()?)?;
        let token = Token(self.near.len().wrapping_mul(2).wrapping_add(2));
        self.poll
            .registry()
            .register(&mut stream, token, Interest::READABLE)?;
        self.near.push(Socket {
            stream,
            readable: true,
        })?;
        for _ in 0..u64::MAX {
            if self.far.len() >= self.near.len() {
                return Ok(());
            }
            self.wait()?;
        }
        bail!("no server came")
    }

    fn accept(&mut self) -> anyhow::Result<()> {
        let mut stream = match self.listener.accept() {
            Ok((stream, _)) => stream,
            Err(error) if error.kind() == ErrorKind::WouldBlock => return Ok(()),
            Err(error) => return Err(error.into()),
        };
        let token = Token(self.far.len().wrapping_mul(2).wrapping_add(3));
        self.poll
            .registry()
            .register(&mut stream, token, Interest::READABLE)?;
        self.far.push(Socket {
            stream,
            readable: true,
        })?;
        Ok(())
    }

    /// Waits until the system has something to report, ten seconds at most.
    pub fn wait(&mut self) -> anyhow::Result<()> {
        self.poll
            .poll(&mut self.events, Some(Duration::from_secs(10)))?;
        if self.events.is_empty() {
            bail!("nothing comes");
        }
        let mut called = false;
        for event in self.events.iter() {
            let Token(token) = event.token();
            let place = (token / 2).wrapping_sub(1);
            if token == 0 {
                called = true;
            } else if token % 2 == 0 {
                report(&mut self.near, place);
            } else {
                report(&mut self.far, place);
            }
        }
        if called { self.accept() } else { Ok(()) }
    }
}

/// More may be there to read on the socket at this place.
fn report(sockets: &mut [Socket], place: usize) {
    if let Some(socket) = sockets.get_mut(place) {
        socket.readable = true;
    }
}
