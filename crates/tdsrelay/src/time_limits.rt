//! Time limits, and the end: what has lasted too long is closed.

use crate::program::Program;
use crate::standing::at_as;
use crate::sweeping::next_look;
use crate::why::{Why, why_late};
use relay_groups::{Group, RelayState, relay_of};
use relay_logins::{Groups, UNANSWERED};
use relay_settings::{TimeLimits, is_beyond};
use relay_sockets::{Role, RoleKind};
use relay_status::{At, raise};
use std::io;
use std::net::Net;
use tds_relay::Place;

/// What an application is told whose login no server answers.
const SILENT: &str = "The server gave no answer in time.";

impl Program {
    /// Whether it is to end, and has no application left or has waited long enough for that.
    pub fn has_ended(&self) -> bool {
        match self.ending {
            Some(since) => {
                let lasted = self.event_loop.now().saturating_sub(since);
                self.applications() == 0 || is_beyond(self.event_loop.asked.limits.drain, lasted)
            }
            None => false,
        }
    }

    /// How many applications are logged in.
    pub fn applications(&self) -> usize {
        let mut count: usize = 0;
        for (_, entry) in self.event_loop.state.sockets.iter() {
            if matches!(entry.value.role, Role::Application(..)) {
                count = count.saturating_add(1);
            }
        }
        count
    }

    /// Notes what a socket is at, and answers why it is to be closed, if it is.
    pub fn look_at(&mut self, key: usize) -> Option<Why> {
        let RelayState {
            sockets,
            groups,
            ..
        } = &mut self.event_loop.state;
        let socket = sockets.get(key)?;
        let role_kind = socket.role_kind();
        let (at, mark) = at_as(groups, role_kind, socket.link.is_readable());
        let why_free = match at {
            At::Free => why_free(groups, role_kind),
            _ => None,
        };
        let (now, limits) = (self.event_loop.now(), self.limits_for(role_kind));
        let socket = self.event_loop.state.sockets.get_mut(key)?;
        socket.see(at, mark, now);
        let lasted = now.saturating_sub(socket.seen.since);
        let age = now.saturating_sub(socket.born);
        let next = next_look(&socket.seen, socket.born, &limits, now);
        self.event_loop.state.sockets.look_again(key, next);
        if self.ending.is_some()
            && (ends_at_once(at) || matches!(role_kind, RoleKind::Authenticating(_)))
        {
            return Some(Why::End);
        }
        if why_free.is_some() {
            return why_free;
        }
        why_late(at, lasted, age, &limits)
    }

    /// The limits of a socket that is this. A server's share of a login's time is the smaller the more servers there
    /// are; what it is asked behind the login has the time of one more. Who waits until they authenticate is told what
    /// becomes of it, so has all their shares, that time, and the times from one look at limits to the next. A
    /// connection that isn't shared may be idle as long as its application is there.
    pub fn limits_for(&self, role_kind: RoleKind) -> TimeLimits {
        let mut limits = self.event_loop.asked.limits;
        let (login, servers) = (limits.login, self.event_loop.asked.servers.count());
        match role_kind {
            RoleKind::First(group) if self.event_loop.state.question_of(group).is_some() => {
                limits.login = share_of(login, servers).saturating_add(login);
            }
            RoleKind::First(_) => limits.login = share_of(login, servers),
            RoleKind::Opening(..) | RoleKind::Reauthentication(_) => limits.login = share_of(
                login, servers,
            ),
            RoleKind::Authenticating(group) if login > 0 => {
                let times = self.login_times(group);
                limits.login = login.saturating_mul(times).saturating_add(servers);
            }
            RoleKind::Connection(group, _) if self.event_loop.state.pair_of(group).is_some() => {
                limits.idle = 0;
                limits.life = 0;
            }
            RoleKind::Connection(group, _) if self.is_least(group) => limits.idle = 0,
            _ => {}
        }
        limits
    }

    /// How often a login's time passes at most before who waits until a group is authenticated hears of it.
    fn login_times(&self, group: usize) -> u64 {
        match self.event_loop.state.groups.get(group) {
            Some(group) => group.login_times(),
            None => 1,
        }
    }

    /// Whether a group has no more connections than are kept however idle they are.
    fn is_least(&self, group: usize) -> bool {
        match self.event_loop.state.groups.get(group) {
            Some(group) => group.connections() <= self.event_loop.asked.least,
            None => false,
        }
    }

    /// What a socket is at, and what tells two of that apart.
    pub fn at(&mut self, key: usize) -> (At, u64) {
        let RelayState {
            sockets,
            groups,
            ..
        } = &mut self.event_loop.state;
        match sockets.get(key) {
            Some(socket) => at_as(groups, socket.role_kind(), socket.link.is_readable()),
            None => (At::Other, 0),
        }
    }

    /// Closes it, or parts it from the connection that it has held for too long, where it loses nothing by that.
    /// An application is told why, where nothing else waits for it.
    pub fn end<R: Net>(&mut self, rt: &R, key: usize, why: Why) -> io::Result<()> {
        if matches!(why, Why::Hold) && self.event_loop.part_one(rt, key)? {
            return Ok(());
        }
        self.count(why);
        self.event_loop.state.say("socket", key, why.words());
        let role_kind = match self.event_loop.state.sockets.get(key) {
            Some(socket) => socket.role_kind(),
            None => return Ok(()),
        };
        match (role_kind, why) {
            (RoleKind::Application(group, application), Why::Cancel) => {
                self.give_up(rt, group, application)
            }
            (RoleKind::Application(..), Why::End) if self.asks_nothing(key) => {
                self.event_loop.disconnect(rt, key)
            }
            (RoleKind::Application(..), Why::Wait) if self.is_opening(key) => {
                self.tell_unreached(key)?;
                self.event_loop.disconnect(rt, key)
            }
            (RoleKind::Application(..), _) => match why.told() {
                Some((number, sentence)) => self
                    .event_loop
                    .disconnect_for(rt, key, number, sentence),
                None => self.event_loop.disconnect(rt, key),
            },
            (RoleKind::Authenticating(_), Why::Login) => self
                .event_loop
                .state
                .put_refusal(key, SILENT),
            (RoleKind::Authenticating(_), Why::Wait) => self.refuse_unreached(key),
            (RoleKind::Continuation(_), Why::Login) => self
                .event_loop
                .state
                .put_refusal(key, UNANSWERED),
            _ => self.event_loop.ended(rt, key, why.cause()),
        }
    }

    fn count(&mut self, why: Why) {
        let counts = &mut self.event_loop.state.journal.counts;
        match why {
            Why::Login => raise(&mut counts.late_logins),
            Why::Wait => raise(&mut counts.late_waits),
            Why::Cancel => raise(&mut counts.late_cancels),
            Why::Hold => raise(&mut counts.late_holds),
            Why::Transaction => raise(&mut counts.late_transactions),
            Why::Request => raise(&mut counts.late_requests),
            Why::Idle => raise(&mut counts.idle),
            Why::Old => raise(&mut counts.old),
            Why::End | Why::Paused | Why::Over => {}
        }
    }

    /// The connection on which an application's cancel isn't acknowledged is closed, and the application
    /// with it.
    fn give_up<R: Net>(&mut self, rt: &R, group: usize, application: usize) -> io::Result<()> {
        if let Some(relay) = relay_of(&mut self.event_loop.state.groups, group) {
            if let Some(Place::Cancelling(number)) = relay.place_of(application) {
                relay.lost(number)?;
            }
        }
        self.event_loop.obey(rt, group)
    }

    /// Whether an application waits for its connection to open.
    fn is_opening(&self, key: usize) -> bool {
        match self.event_loop.state.sockets.get(key) {
            Some(socket) => socket.seen.at == At::Opening,
            None => false,
        }
    }

    /// Whether an application asks nothing.
    fn asks_nothing(&self, key: usize) -> bool {
        match self.event_loop.state.sockets.get(key) {
            Some(socket) => matches!(socket.seen.at, At::Quiet | At::Holding | At::InTransaction),
            None => false,
        }
    }

    /// An application has waited too long for a server that authenticates its login, and is told why there is none.
    fn refuse_unreached(&mut self, key: usize) -> io::Result<()> {
        match self.event_loop.dial_queue.sentence(self.event_loop.alloc)? {
            Some(why) => self.event_loop.state.put_refusal(key, why.as_str()),
            None => self.event_loop.state.put_refusal(key, SILENT),
        }
    }

    /// An application has waited too long for its connection to open, and is told why.
    fn tell_unreached(&mut self, key: usize) -> io::Result<()> {
        match self.event_loop.dial_queue.sentence(self.event_loop.alloc)? {
            Some(why) => self.event_loop.state.tell_not_opened(key, why.as_str()),
            None => self.event_loop.state.tell_not_opened(key, SILENT),
        }
    }
}

/// Of the seconds of a login those that each of so many servers has.
fn share_of(login: u64, servers: u64) -> u64 {
    if login > 0 && servers > 1 {
        (login / servers).max(1)
    } else {
        login
    }
}

/// Why a connection that nobody holds is closed, whatever limits say, if it is.
fn why_free(groups: &Groups<Group>, role_kind: RoleKind) -> Option<Why> {
    let RoleKind::Connection(group, _) = role_kind else {
        return None;
    };
    let group = groups.get(group)?;
    if group.is_paused() {
        Some(Why::Paused)
    } else if group.is_over {
        Some(Why::Over)
    } else {
        None
    }
}

/// Whether an application or a login that is at this is closed once the relay is to end.
fn ends_at_once(at: At) -> bool {
    matches!(
        at,
        At::Login | At::Quiet | At::Kept | At::Owed | At::Holding | At::InTransaction | At::Waiting
    )
}
