//! Who comes: applications, and those who ask what the relay does.

use crate::program::Program;
use relay_sockets::Role;
use relay_status::{Door, StatusClient};
use socket_places::Link;
use std::io::{self, ErrorKind};
use std::net::SocketAddr;

/// The most who are accepted at once.
const MOST: usize = 11_024;

impl Program {
    /// Accepts all who wait, and closes them at once where it is to end. Nobody is accepted before the names of servers
    /// are known.
    pub fn accept(&mut self) -> io::Result<()> {
        self.leaves_some = true;
        if !self.event_loop.is_ready() {
            return Ok(());
        }
        for _ in 0..MOST {
            let (stream, from) = match self.listener.accept() {
                Ok(accepted) => accepted,
                Err(error) => {
                    self.leaves_some = error.kind() != ErrorKind::WouldBlock;
                    return Ok(());
                }
            };
            if self.ending.is_none() {
                self.event_loop.admit(stream, from)?;
            }
        }
        Ok(())
    }

    /// Accepts all who ask what it does.
    pub fn accept_askers(&mut self) -> io::Result<()> {
        let (alloc, now) = (self.event_loop.alloc, self.event_loop.now());
        for _ in 0..MOST {
            let Some(listener) = &self.stats else {
                return Ok(());
            };
            let Ok((stream, from)) = listener.accept() else {
                return Ok(());
            };
            let role = Role::StatusClient(StatusClient::new(alloc, door_of(&stream, from)));
            let sockets = &mut self.event_loop.state.sockets;
            if let Some(key) = sockets.take_in(stream, role, Vec::new(alloc), now)? {
                if let Some(socket) = sockets.get_mut(key) {
                    socket.peer = from;
                }
            }
        }
        Ok(())
    }
}

/// Where somebody asks who comes from there.
fn door_of(stream: &Link, from: Option<SocketAddr>) -> Door {
    match (stream, from) {
        (Link::Tcp(stream), Some(from)) => match stream.local_addr() {
            Ok(at) => Door::Tcp(at, from.ip().to_canonical().is_loopback()),
            Err(_) => Door::Tcp(from, false),
        },
        _ => Door::Unix,
    }
}
