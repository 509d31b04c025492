//! What waits for a socket is sent.

use crate::event_loop::EventLoop;
use std::io;
use std::net::Net;

impl EventLoop {
    /// Sends it, and what fails ends.
    pub(crate) fn send_or_close<R: Net>(&mut self, rt: &R, key: usize) -> io::Result<()> {
        if self.state.send(key)? {
            Ok(())
        } else {
            self.closed(rt, key)
        }
    }
}
