//! Sockets that are taken out, and who hears of that.

use crate::state::{RelayState, relay_of};
use crate::telling::{is_quiet, may_be_told};
use crate::upstream::Failure;
use relay_logins::put_error;
use relay_settings::is_beyond;
use relay_sockets::{Cause, Gone, Role, RoleKind};
use relay_status::raise;
use std::io;
use tds_relay::Place;

/// The number of the error of who asks on a connection that has ended.
const LOST: u32 = 50_109;

impl RelayState {
    /// Takes a socket out, behind what the system still takes of what waits for it. Answers what it was.
    pub fn take_out(&mut self, key: usize) -> io::Result<Option<RoleKind>> {
        let _ = self.send(key)?;
        if let Some(role_kind) = self.begin_owing(key) {
            self.say(
                "socket",
                key,
                "is told at its next request that its connection has ended",
            );
            if let RoleKind::Application(group, application) = role_kind {
                self.leave(group, application)?;
            }
            return Ok(Some(role_kind));
        }
        self.say("socket", key, "is closed");
        let Some(gone) = self.remove(key)? else {
            return Ok(None);
        };
        if let RoleKind::Application(group, application) = gone.role_kind {
            self.leave(group, application)?;
        }
        Ok(Some(gone.role_kind))
    }

    /// Removes a socket, and counts its end. Answers what it was.
    pub fn remove(&mut self, key: usize) -> io::Result<Option<Gone>> {
        let gone = self.sockets.remove(key, &mut self.journal)?;
        if let Some(gone) = &gone {
            if let RoleKind::Connection(..) = gone.role_kind {
                raise(&mut self.journal.counts.ended);
            }
        }
        Ok(gone)
    }

    /// Whether an application that sends no more waits for an answer, and not for longer than it may.
    pub fn may_wait(&mut self, key: usize, limit: u64) -> bool {
        let now = self.now();
        let RelayState {
            sockets,
            groups,
            ..
        } = self;
        let Some(socket) = sockets.get_mut(key) else {
            return false;
        };
        let Some(application) = socket.application() else {
            return false;
        };
        let since = application.shut.unwrap_or(now);
        application.shut = Some(since);
        let has_time = limit > 0 && !is_beyond(limit, now.saturating_sub(since));
        match relay_of(groups, application.group) {
            Some(relay) => has_time && !is_quiet(relay, application.key),
            None => false,
        }
    }

    /// An application is one of its group no more. The connection that it held is read on: what came there
    /// may have waited for room of this application, and nothing else makes room for it from now on.
    pub fn leave(&mut self, group: usize, application: usize) -> io::Result<()> {
        let Some(relay) = relay_of(&mut self.groups, group) else {
            return Ok(());
        };
        let held = relay.held_tag(application);
        relay.left(application)?;
        match held {
            Some(connection) => {
                self.sockets.touch(connection);
                Ok(self.sockets.read_on(connection)?)
            }
            None => Ok(()),
        }
    }

    /// Who asks on a connection that has ended is told so, where nothing of its answer has come; who has it and
    /// asks nothing, at its next request.
    pub fn tell_lost(&mut self, gone: &Gone, cause: Cause) -> io::Result<()> {
        let (Some(address), RoleKind::Connection(group, number)) = (gone.dialed, gone.role_kind)
        else {
            return Ok(());
        };
        if !cause.is_failure() {
            return Ok(());
        }
        let Some((key, is_asking)) = self.who_has(group, number) else {
            return Ok(());
        };
        let alloc = self.alloc;
        let why = Failure { address, cause }.sentence(alloc)?;
        if let Some(socket) = self.sockets.get_mut(key) {
            if is_asking {
                put_error(alloc, &mut socket.out, LOST, why.as_str())?;
            } else {
                socket.owe(LOST, why);
            }
        }
        Ok(())
    }

    /// The socket of the application that has a connection and may be told of its end, and whether its request is
    /// underway there: then nothing of its answer has come.
    fn who_has(&mut self, group: usize, number: u64) -> Option<(usize, bool)> {
        let pair = self.pair_of(group);
        let RelayState {
            sockets,
            groups,
            ..
        } = self;
        let relay = relay_of(groups, group)?;
        let key = match (relay.holder_tag(number), pair) {
            (Some(key), _) => key,
            (None, Some(pair)) => pair.application,
            (None, None) => return None,
        };
        let socket = sockets.get(key)?;
        let Role::Application(application) = &socket.role else {
            return None;
        };
        let is_asking = matches!(relay.place_of(application.key), Some(Place::Asking(_)));
        if is_asking && may_be_told(relay, application) {
            Some((key, true))
        } else if is_quiet(relay, application.key) && socket.out.is_empty() {
            Some((key, false))
        } else {
            None
        }
    }
}
