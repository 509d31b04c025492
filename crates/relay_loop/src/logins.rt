//! What comes on sockets, and logins of applications.

use crate::event_loop::EventLoop;
use relay_groups::{Pair, Said};
use relay_logins::{
    FULL, KeptFeatures, Kind, NO_NOTICES, NOTIFIES, Passed, SharedLogin, TOO_MANY, kind_of,
    leave_out_features,
};
use relay_settings::Share;
use relay_sockets::{Cause, Role, RoleKind};
use std::io;
use std::net::Net;
use tds_relay::Mode;

impl EventLoop {
    /// These bytes came on a socket that is this, and isn't logged in.
    pub fn came<R: Net>(
        &mut self,
        rt: &R,
        key: usize,
        role_kind: RoleKind,
        piece: &[u8],
    ) -> io::Result<()> {
        match role_kind {
            RoleKind::Handshake => self.passed(rt, key, piece),
            RoleKind::First(group) => self.first_dialed(rt, key, group, piece),
            RoleKind::Opening(group, number) => self.dialed(rt, key, group, number, piece),
            RoleKind::Authenticating(_) => {
                let why = Cause::Wrong("speaks before its login is answered");
                self.ended(rt, key, why)
            }
            RoleKind::Continuation(group) => self.continuation_came(rt, key, group, piece),
            RoleKind::Reauthentication(group) => self.reauthenticated(rt, key, group, piece),
            RoleKind::Owed => self.owed_came(rt, key, piece),
            RoleKind::Names => self.names_came(rt, piece),
            RoleKind::Application(..) | RoleKind::Connection(..) => Ok(()),
            RoleKind::StatusClient | RoleKind::Closing => Ok(()),
        }
    }

    /// These bytes came of an application that is logged in.
    pub fn said<R: Net>(
        &mut self,
        rt: &R,
        key: usize,
        group: usize,
        application: usize,
        piece: &[u8],
    ) -> io::Result<()> {
        match self.state.take_said(key, group, application, piece)? {
            Said::Gone => Ok(()),
            Said::Goes => self.obey(rt, group),
            Said::Notifies => self.disconnect_now(rt, key, NOTIFIES, NO_NOTICES),
        }
    }

    /// These bytes came on a connection that is logged in.
    pub fn heard<R: Net>(
        &mut self,
        rt: &R,
        key: usize,
        group: usize,
        number: u64,
        piece: &[u8],
    ) -> io::Result<()> {
        if !piece.is_empty() && self.state.hear(group, number, piece)? == Mode::Transactions {
            self.state.note_rest(key, group, number)?;
        }
        self.obey(rt, group)
    }

    // ---- An application's login

    fn passed<R: Net>(&mut self, rt: &R, key: usize, piece: &[u8]) -> io::Result<()> {
        let Some(passed) = self.state.pass(key, piece)? else {
            return Ok(());
        };
        match passed {
            Passed::More => self.send_or_close(rt, key),
            Passed::Refused(why) => {
                self.state.say_of("application", key, "is refused:", why);
                self.close_when_sent(rt, key)
            }
            Passed::Login(message) => self.log_in(rt, key, message),
        }
    }

    /// Its LOGIN7 has come.
    fn log_in<R: Net>(&mut self, rt: &R, key: usize, mut message: Vec<u8>) -> io::Result<()> {
        let kept = match self.asked.share {
            Share::Session => KeptFeatures::Federated,
            Share::Transaction => KeptFeatures::Recovery,
        };
        leave_out_features(self.alloc, &mut message, kept)?;
        self.state.name(key, &message)?;
        if self.state.is_too_many(key) {
            self.state.put_refusal_of(key, TOO_MANY, FULL)?;
            return self.send_or_close(rt, key);
        }
        match kind_of(message) {
            Kind::Wrong(why) => self.refuse(rt, key, why),
            Kind::Alone(mut login) => {
                leave_out_features(self.alloc, &mut login, KeptFeatures::Federated)?;
                self.begin_alone(rt, key, login)
            }
            Kind::Shared(login) => self.share(rt, key, login),
        }
    }

    /// It joins the group whose login is equal, or begins it.
    fn share<R: Net>(&mut self, rt: &R, key: usize, login: SharedLogin) -> io::Result<()> {
        let Some(login) = login.for_group(self.alloc, self.asked.group)? else {
            return self.refuse(rt, key, "The login has no room for the relay's name.");
        };
        match self.state.groups.join(&login) {
            Some(group) => self.join(rt, key, group),
            None => self.begin_group(rt, key, login),
        }
    }

    /// It joins a group: it waits until that is authenticated, or gets what the server answered the first one.
    pub(crate) fn join<R: Net>(&mut self, rt: &R, key: usize, group: usize) -> io::Result<()> {
        if self.state.join(key, group)? {
            self.send_or_close(rt, key)
        } else {
            Ok(())
        }
    }

    /// It is the first one of its kind: the server authenticates it, on a connection of its own.
    fn begin_group<R: Net>(&mut self, rt: &R, key: usize, login: SharedLogin) -> io::Result<()> {
        let from = self.state.address_of(key);
        if let Some(why) = self.make_room(rt, true, from)? {
            return self.refuse(rt, key, why);
        }
        let mode = if login.asks_for_recovery() {
            Mode::Transactions
        } else {
            Mode::Sessions
        };
        let Some(begun) = self.state.group_with(key, login.message(), mode, None)? else {
            return Ok(());
        };
        let group = self.state.groups.begin(login, begun);
        self.authenticate_first(rt, key, group)
    }

    /// It can't share.
    fn begin_alone<R: Net>(&mut self, rt: &R, key: usize, login: Vec<u8>) -> io::Result<()> {
        let from = self.state.address_of(key);
        if let Some(why) = self.make_room(rt, false, from)? {
            return self.refuse(rt, key, why);
        }
        let Some(begun) = self
            .state
            .group_with(key, &login, Mode::Sessions, Some(Pair::of(key)))?
        else {
            return Ok(());
        };
        let group = self.state.groups.begin_alone(login, begun);
        self.authenticate_first(rt, key, group)
    }

    /// A server is dialed for the first login of a group, if that found room.
    fn authenticate_first<R: Net>(
        &mut self,
        rt: &R,
        key: usize,
        group: Option<usize>,
    ) -> io::Result<()> {
        let Some(group) = group else {
            return self.refuse(rt, key, "The relay has no memory.");
        };
        if let Some(socket) = self.state.sockets.get_mut(key) {
            socket.role = Role::Authenticating(group);
        }
        self.dial_first(rt, group)
    }
}
