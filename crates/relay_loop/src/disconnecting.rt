//! Applications that the relay closes: each is told why, where nothing else waits for it.

use crate::event_loop::EventLoop;
use relay_sockets::{Role, RoleKind};
use std::io;
use std::net::Net;

impl EventLoop {
    /// An application of a group is told this error, and closed: where it asks nothing, at its next request.
    pub fn disconnect_for<R: Net>(
        &mut self,
        rt: &R,
        key: usize,
        number: u32,
        sentence: &str,
    ) -> io::Result<()> {
        if !self.state.asks_nothing(key) {
            return self.disconnect_now(rt, key, number, sentence);
        }
        let sentence = String::from_str(self.alloc, sentence)?;
        let Some(socket) = self.state.sockets.get_mut(key) else {
            return Ok(());
        };
        socket.owe(number, sentence);
        self.owe(rt, key)
    }

    /// An application of a group that asks something is told this error, and closed.
    pub fn disconnect_now<R: Net>(
        &mut self,
        rt: &R,
        key: usize,
        number: u32,
        sentence: &str,
    ) -> io::Result<()> {
        self.state.tell_last(key, number, sentence)?;
        self.disconnect(rt, key)
    }

    /// An application leaves its group, and is told at its next request why.
    fn owe<R: Net>(&mut self, rt: &R, key: usize) -> io::Result<()> {
        let Some(role_kind) = self.state.begin_owing(key) else {
            return Ok(());
        };
        if let RoleKind::Application(group, application) = role_kind {
            self.state.leave(group, application)?;
            self.obey(rt, group)?;
        }
        self.state.let_go(role_kind)
    }

    /// Bytes came of an application that is owed an error: behind its request's end it is told, and closed.
    pub(crate) fn owed_came<R: Net>(&mut self, rt: &R, key: usize, piece: &[u8]) -> io::Result<()> {
        if self.state.tell_owed(key, piece)? {
            self.close_when_sent(rt, key)
        } else {
            Ok(())
        }
    }

    /// An application leaves its group, and is closed behind what waits for it.
    pub fn disconnect<R: Net>(&mut self, rt: &R, key: usize) -> io::Result<()> {
        let Some(role_kind) = self.state.begin_closing(key) else {
            return Ok(());
        };
        if let RoleKind::Application(group, application) = role_kind {
            self.state.leave(group, application)?;
            self.obey(rt, group)?;
        }
        self.state.let_go(role_kind)?;
        self.close_when_sent(rt, key)
    }

    /// It is told why its login is refused, and closed.
    pub(crate) fn refuse<R: Net>(&mut self, rt: &R, key: usize, why: &str) -> io::Result<()> {
        self.state.put_refusal(key, why)?;
        self.send_or_close(rt, key)
    }

    /// It is closed behind what waits for it.
    pub fn close_when_sent<R: Net>(&mut self, rt: &R, key: usize) -> io::Result<()> {
        if let Some(socket) = self.state.sockets.get_mut(key) {
            socket.role = Role::Closing;
        }
        self.send_or_close(rt, key)
    }
}
