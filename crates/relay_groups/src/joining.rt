//! Applications that log in, and what they say then.

use crate::group::{Group, Pair, Stage};
use crate::state::{RelayState, relay_of};
use relay_logins::{Passed, put_saved, who_of};
use relay_sockets::{Application, Role};
use relay_status::raise;
use std::alloc::AllocError;
use std::io;
use std::net::IpAddr;
use tds_packet::PacketSize;
use tds_relay::Mode;

/// What becomes of what an application has said.
#[derive(Clone, Copy)]
pub enum Said {
    /// It is gone.
    Gone,
    /// It goes on to its group's relay.
    Goes,
    /// It asks for what the relay can't give.
    Notifies,
}

impl RelayState {
    /// These bytes came of an application that is logged in: its group's relay hears them, but for where it asks for a
    /// query notification.
    pub fn take_said(
        &mut self,
        key: usize,
        group: usize,
        application: usize,
        piece: &[u8],
    ) -> io::Result<Said> {
        let RelayState {
            sockets,
            groups,
            journal,
            ..
        } = self;
        let Some(speaker) = sockets.application(key) else {
            return Ok(Said::Gone);
        };
        if speaker.notices.take(piece) {
            self.say("application", key, "asks for a query notification");
            return Ok(Said::Notifies);
        }
        if let Some(relay) = relay_of(groups, group) {
            relay.said(application, piece)?;
            speaker.asks(relay.begun_by(application), journal.moment.micros);
        }
        Ok(Said::Goes)
    }

    /// A group's relay hears them. Answers for how long the group's applications keep what they are lent. It has
    /// the loop over rows, and so stands alone.
    #[inline(never)]
    pub fn hear(&mut self, group: usize, number: u64, piece: &[u8]) -> Result<Mode, AllocError> {
        let Some(found) = self.groups.get_mut(group) else {
            return Ok(Mode::Sessions);
        };
        let mode = found.mode;
        if let Some(relay) = found.relay() {
            relay.came(number, piece)?;
            if let Some(holder) = relay.holder_tag(number) {
                // It may have had no room for more of its request, and now there is: it is lent this
                // connection, or what it took back is acknowledged.
                self.sockets.read_on(holder)?;
            }
        }
        Ok(mode)
    }

    /// Bytes came of an application that logs in. None where it is gone, or logs in no more.
    pub fn pass(&mut self, key: usize, piece: &[u8]) -> io::Result<Option<Passed>> {
        let Some(socket) = self.sockets.get_mut(key) else {
            return Ok(None);
        };
        let Role::Handshake(coming) = &mut socket.role else {
            return Ok(None);
        };
        let passed = coming.handshake.take(piece, &mut socket.out)?;
        if let Some(source) = coming.handshake.source.take() {
            socket.peer = Some(source);
        }
        Ok(Some(passed))
    }

    /// Whether an application is one too many.
    pub fn is_too_many(&self, key: usize) -> bool {
        match self.sockets.get(key) {
            Some(socket) => matches!(&socket.role, Role::Handshake(coming) if coming.is_over),
            None => false,
        }
    }

    /// An application is who its login says.
    pub fn name(&mut self, key: usize, login: &[u8]) -> io::Result<()> {
        let who = who_of(self.alloc, login)?;
        if let Some(socket) = self.sockets.get_mut(key) {
            socket.who = Some(who);
        }
        Ok(())
    }

    /// It joins a group: it waits until that is authenticated, or gets what the server answered the first one. Whether
    /// that is to be sent.
    pub fn join(&mut self, key: usize, group: usize) -> io::Result<bool> {
        let RelayState {
            sockets,
            groups,
            ..
        } = self;
        let (Some(socket), Some(joined)) = (sockets.get_mut(key), groups.get_mut(group)) else {
            return Ok(false);
        };
        match &mut joined.stage {
            Stage::Authenticating(waiting) => {
                waiting.push(key)?;
                socket.role = Role::Authenticating(group);
                Ok(false)
            }
            Stage::Open(relay, answer) => {
                put_saved(&mut socket.out, answer)?;
                socket.role = Role::Application(Application::new(group, relay.enter(key)?));
                raise(&mut self.journal.counts.authenticated);
                self.say_authenticated(key, group);
                Ok(true)
            }
        }
    }

    /// The address that an application comes from, without its port.
    pub fn address_of(&self, key: usize) -> Option<IpAddr> {
        let peer = self.sockets.get(key)?.peer?;
        Some(peer.ip())
    }

    /// A group whose first application waits until the server has authenticated its login.
    pub fn group_with(
        &self,
        key: usize,
        login: &[u8],
        mode: Mode,
        pair: Option<Pair>,
    ) -> io::Result<Option<Group>> {
        let Some(size) = PacketSize::new(4_096) else {
            return Ok(None);
        };
        let mut waiting = Vec::new(self.alloc);
        waiting.push(key)?;
        let who = who_of(self.alloc, login)?;
        let from = self.address_of(key);
        let alloc = self.alloc;
        Ok(Some(Group::new(alloc, who, mode, waiting, size, pair, from)))
    }
}
