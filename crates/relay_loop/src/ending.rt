//! What follows where a socket ends.

use crate::event_loop::EventLoop;
use relay_groups::relay_of;
use relay_sockets::{Cause, Gone, RoleKind};
use std::io;
use std::net::Net;

impl EventLoop {
    /// A socket has ended, as it says itself, or as its other end has closed it.
    pub fn closed<R: Net>(&mut self, rt: &R, key: usize) -> io::Result<()> {
        let cause = match self.state.sockets.get(key) {
            Some(socket) => socket.cause.unwrap_or(Cause::Closed),
            None => return Ok(()),
        };
        self.ended(rt, key, cause)
    }

    /// A socket has ended. Where that is its server's doing, another one is dialed for its login, or the
    /// group's other connections are checked.
    pub fn ended<R: Net>(&mut self, rt: &R, key: usize, cause: Cause) -> io::Result<()> {
        self.state.say_end(key, cause);
        let Some(gone) = self.state.remove(key)? else {
            return Ok(());
        };
        self.state.tell_lost(&gone, cause)?;
        if self.state.part(gone.role_kind, key)? {
            return Ok(());
        }
        match gone.role_kind {
            RoleKind::Handshake | RoleKind::Authenticating(_) | RoleKind::Continuation(_) => Ok(()),
            RoleKind::Owed | RoleKind::StatusClient | RoleKind::Closing => Ok(()),
            RoleKind::Names => self.names_ended(rt),
            RoleKind::Application(group, application) => self.has_left(rt, group, application),
            RoleKind::First(_) | RoleKind::Opening(..) | RoleKind::Reauthentication(_) => {
                self.has_failed(rt, key, &gone, cause)
            }
            RoleKind::Connection(group, number) => self.is_lost(rt, group, number, cause),
        }
    }

    /// The other end of a socket sends no more. An application whose request is underway may wait for its answer.
    pub fn has_shut<R: Net>(&mut self, rt: &R, key: usize) -> io::Result<()> {
        if self.state.may_wait(key, self.asked.limits.half) {
            Ok(())
        } else {
            self.ended(rt, key, Cause::Closed)
        }
    }

    /// An application of a group has ended.
    fn has_left<R: Net>(&mut self, rt: &R, group: usize, application: usize) -> io::Result<()> {
        self.state.leave(group, application)?;
        self.obey(rt, group)
    }

    /// A login's connection has ended.
    fn has_failed<R: Net>(
        &mut self,
        rt: &R,
        key: usize,
        gone: &Gone,
        cause: Cause,
    ) -> io::Result<()> {
        self.upstream.begin();
        if let Some(address) = gone.dialed {
            self.upstream.fail(address, cause);
        }
        if let (RoleKind::First(group), true) = (gone.role_kind, cause.is_failure()) {
            if let Some(question) = self.state.question_of(group) {
                return self.ask_no_more(rt, group, question);
            }
        }
        if cause.is_failure() && self.dial_again(rt, key, gone, cause)? {
            return Ok(());
        }
        if gone.has_continuations {
            let why = self.upstream.sentence(self.alloc)?;
            return self.not_reached(rt, gone.role_kind, why.as_str());
        }
        self.missed(rt, gone.role_kind)
    }

    /// A connection of a group has ended.
    fn is_lost<R: Net>(
        &mut self,
        rt: &R,
        group: usize,
        number: u64,
        cause: Cause,
    ) -> io::Result<()> {
        if let Some(relay) = relay_of(&mut self.state.groups, group) {
            relay.lost(number)?;
        }
        self.obey(rt, group)?;
        if cause.is_failure() {
            self.check(rt, group)
        } else {
            Ok(())
        }
    }

    /// A login's connection has failed: its server's next address is dialed, or another server, where there is one.
    fn dial_again<R: Net>(
        &mut self,
        rt: &R,
        key: usize,
        gone: &Gone,
        cause: Cause,
    ) -> io::Result<bool> {
        let Some(way) = gone.way else {
            return Ok(false);
        };
        self.went_away(way, cause);
        if gone.has_continuations {
            return Ok(false);
        }
        if self.follow_on(rt, key, gone.role_kind, way)? {
            return Ok(true);
        }
        self.reach(rt, gone.role_kind, way.tried)
    }
}
