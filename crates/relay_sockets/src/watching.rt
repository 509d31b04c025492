//! Connections are watched, where applications are parted from theirs: whether each rests.

use crate::socket::Socket;
use crate::sockets::Sockets;
use relay_logins::FEATURES;
use std::alloc::AllocError;
use tds_state::{Reason, Watch};

impl Sockets {
    /// A connection's login was answered so: it is watched from now on.
    pub fn begin_watching(&mut self, key: usize, answer: &[u8]) -> Result<(), AllocError> {
        let alloc = self.alloc;
        let mut watch = Box::new(alloc, Watch::new(alloc, FEATURES)?)?;
        watch.let_in(answer);
        if let Some(socket) = self.table.get_mut(key) {
            socket.watch = Some(watch);
        }
        Ok(())
    }

    /// These bytes came on a socket behind its login's answer, with which they were judged: where it is watched,
    /// they are read.
    pub fn watch(&mut self, key: usize, bytes: &[u8]) {
        if let Some(socket) = self.table.get_mut(key) {
            if let Some(watch) = &mut socket.watch {
                watch.came(bytes);
            }
        }
    }
}

impl Socket {
    /// Whether it is a connection that rests: by all that its server said, a reset would change nothing of its
    /// session. None where it isn't watched.
    pub fn rests(&self) -> Option<bool> {
        match &self.watch {
            Some(watch) => Some(watch.rests()),
            None => None,
        }
    }

    /// Why it doesn't rest. None where it does, or isn't watched.
    pub fn why(&self) -> Option<Reason> {
        match &self.watch {
            Some(watch) => watch.why(),
            None => None,
        }
    }
}
