//! Logins that can't be shared: an application and a connection of its own, which end together.

use crate::event_loop::EventLoop;
use relay_logins::{Continuation, Taken, put_saved};
use relay_sockets::{Cause, Role};
use std::io;
use std::net::Net;

impl EventLoop {
    /// The server asks an application for a continuation of its login.
    pub(crate) fn ask_continuation<R: Net>(
        &mut self,
        rt: &R,
        application: usize,
        group: usize,
        answer: &[u8],
    ) -> io::Result<()> {
        if !self.state.is_authenticating(application, group) {
            return Ok(());
        }
        if let Some(socket) = self.state.sockets.get_mut(application) {
            put_saved(&mut socket.out, answer)?;
            socket.role = Role::Continuation(group, Continuation::new());
        }
        self.send_or_close(rt, application)
    }

    /// Bytes of a continuation came: they go on to the server.
    pub(crate) fn continuation_came<R: Net>(
        &mut self,
        rt: &R,
        key: usize,
        group: usize,
        piece: &[u8],
    ) -> io::Result<()> {
        match self.state.take_continuation(key, group, piece) {
            Some(Taken::More | Taken::Whole) => {}
            Some(Taken::Wrong) => {
                let why = Cause::Wrong(
                    "sends no continuation of its login, and the server asks for one",
                );
                return self.ended(rt, key, why);
            }
            None => return Ok(()),
        }
        let Some(pair) = self.state.pair_of(group) else {
            return Ok(());
        };
        if let Some(connection) = self.state.sockets.get_mut(pair.connection) {
            connection.out.extend_from_slice(piece)?;
        }
        self.send_or_close(rt, pair.connection)
    }
}
