//! What applications that the relay closes are told, where nothing else waits for them.

use crate::group::Group;
use crate::state::{RelayState, relay_of};
use relay_logins::{Groups, NOT_OPENED, REFUSED, put_error};
use relay_sockets::{Application, News, Role, RoleKind, Socket};
use relay_status::raise;
use std::alloc::{AllocError, Global};
use std::io;
use tds_relay::{Place, Relay};

impl RelayState {
    /// An application of a group that asks something is told this error, where nothing else waits for it.
    pub fn tell_last(&mut self, key: usize, number: u32, sentence: &str) -> Result<(), AllocError> {
        let alloc = self.alloc;
        let RelayState {
            sockets,
            groups,
            ..
        } = self;
        match sockets.get_mut(key) {
            Some(socket) => put_last(alloc, socket, groups, number, sentence),
            None => Ok(()),
        }
    }

    /// Whether an application asks nothing, and all is sent that it was answered: nothing may be said then.
    pub fn asks_nothing(&mut self, key: usize) -> bool {
        let RelayState {
            sockets,
            groups,
            ..
        } = self;
        let Some(socket) = sockets.get(key) else {
            return false;
        };
        let RoleKind::Application(group, application) = socket.role_kind() else {
            return false;
        };
        match relay_of(groups, group) {
            Some(relay) => is_quiet(relay, application) && socket.out.is_empty(),
            None => false,
        }
    }

    /// An application that is owed an error is in no group from now on. What it was, where there is such a one.
    pub fn begin_owing(&mut self, key: usize) -> Option<RoleKind> {
        let socket = self.sockets.get_mut(key)?;
        let role_kind = socket.role_kind();
        if socket.begin_owing() {
            Some(role_kind)
        } else {
            None
        }
    }

    /// Bytes came of an application that is owed an error: behind its request's end it is told. Whether it is.
    pub fn tell_owed(&mut self, key: usize, piece: &[u8]) -> Result<bool, AllocError> {
        let alloc = self.alloc;
        let Some(socket) = self.sockets.get_mut(key) else {
            return Ok(false);
        };
        let Role::Owed(notices, owed) = &mut socket.role else {
            return Ok(false);
        };
        if !notices.has_whole(piece) {
            return Ok(false);
        }
        put_error(alloc, &mut socket.out, owed.number, owed.sentence.as_str())?;
        Ok(true)
    }

    /// A socket is to be closed behind what waits for it. What it was.
    pub fn begin_closing(&mut self, key: usize) -> Option<RoleKind> {
        let socket = self.sockets.get_mut(key)?;
        let role_kind = socket.role_kind();
        socket.role = Role::Closing;
        Some(role_kind)
    }

    /// It is told why its login is refused, and is to be closed then.
    pub fn put_refusal(&mut self, key: usize, why: &str) -> io::Result<()> {
        self.put_refusal_of(key, REFUSED, why)
    }

    /// The same with this number.
    pub fn put_refusal_of(&mut self, key: usize, number: u32, why: &str) -> io::Result<()> {
        let alloc = self.alloc;
        raise(&mut self.journal.counts.refused);
        self.say_of("application", key, "is refused:", why);
        let Some(socket) = self.sockets.get_mut(key) else {
            return Ok(());
        };
        let role_kind = socket.role_kind();
        put_error(alloc, &mut socket.out, number, why)?;
        socket.role = Role::Closing;
        self.let_go(role_kind)?;
        Ok(self.sockets.report(key, News::Turn)?)
    }

    /// The connection of this number can't be opened: who waits for it is told so, and is to be closed.
    pub fn not_opened(&mut self, group: usize, number: u64, why: &str) -> io::Result<()> {
        let Some(relay) = relay_of(&mut self.groups, group) else {
            return Ok(());
        };
        if let Some(key) = relay.holder_tag(number) {
            self.tell_not_opened(key, why)?;
        }
        match relay_of(&mut self.groups, group) {
            Some(relay) => Ok(relay.lost(number)?),
            None => Ok(()),
        }
    }

    /// An application is told that no connection can be opened, where nothing else waits for it.
    pub fn tell_not_opened(&mut self, key: usize, why: &str) -> io::Result<()> {
        raise(&mut self.journal.counts.not_served);
        let what = "waits for a connection that can't be opened:";
        self.say_of("socket", key, what, why);
        let alloc = self.alloc;
        let RelayState {
            sockets,
            groups,
            ..
        } = self;
        let Some(socket) = sockets.get_mut(key) else {
            return Ok(());
        };
        if let RoleKind::Application(group, application) = socket.role_kind() {
            if is_all_sent(groups, group, application) {
                let told = format!(in alloc; "The relay could not open a connection. {why}")?;
                put_error(alloc, &mut socket.out, NOT_OPENED, told.as_str())?;
            }
        }
        Ok(())
    }
}

/// Appends an error to what an application is told, where nothing else waits for it.
fn put_last(
    alloc: Global,
    socket: &mut Socket,
    groups: &mut Groups<Group>,
    number: u32,
    sentence: &str,
) -> Result<(), AllocError> {
    let Role::Application(application) = &socket.role else {
        return Ok(());
    };
    let Some(relay) = relay_of(groups, application.group) else {
        return Ok(());
    };
    if may_be_told(relay, application) {
        put_error(alloc, &mut socket.out, number, sentence)
    } else {
        Ok(())
    }
}

/// Whether an application asks nothing, and has all of its answers.
pub(crate) fn is_quiet(relay: &Relay, application: usize) -> bool {
    matches!(
        relay.place_of(application),
        Some(Place::Quiet | Place::Holding(_))
    ) && relay.unsent(application).is_empty()
}

/// Whether an error may stand behind what an application was sent: nothing else waits for it, and it isn't
/// within an answer of its server's.
pub(crate) fn may_be_told(relay: &Relay, application: &Application) -> bool {
    match relay.place_of(application.key) {
        Some(Place::Asking(_)) if application.is_answered => false,
        _ => relay.unsent(application.key).is_empty(),
    }
}

/// Whether nothing waits for an application of a group.
fn is_all_sent(groups: &mut Groups<Group>, group: usize, application: usize) -> bool {
    match relay_of(groups, group) {
        Some(relay) => relay.unsent(application).is_empty(),
        None => true,
    }
}
