//! Logins that are to be dialed later: while no server can be reached, and where all groups together have as many
//! connections as may be. Who waits for one waits until `--wait`.

use crate::event_loop::EventLoop;
use relay_groups::{Failure, relay_of};
use relay_sockets::{Cause, RoleKind};
use std::alloc::{AllocError, Global};
use std::io;
use std::net::Net;

/// The milliseconds from one try to the next, where servers can't be reached: twice as long each time.
const SHORTEST: u64 = 250;

const LONGEST: u64 = 5_000;

/// The first login of a group, or a further connection of one, that is to be dialed from this millisecond on.
#[derive(Clone, Copy)]
struct Queued {
    role_kind: RoleKind,
    next: u64,
}

/// Those that are to be dialed later.
#[derive(Drop)]
pub struct DialQueue {
    queued: Vec<Queued>,
    /// The milliseconds to the next try.
    pause: u64,
    /// Why no server could be reached, since one authenticated a login.
    unreached: Option<Failure>,
}

impl DialQueue {
    pub fn new(alloc: Global) -> DialQueue {
        DialQueue {
            queued: Vec::new(alloc),
            pause: SHORTEST,
            unreached: None,
        }
    }

    /// A server has authenticated a login.
    pub fn is_back(&mut self) {
        self.pause = SHORTEST;
        self.unreached = None;
    }

    /// Why no server could be reached, as an application is told that has waited for that.
    pub fn sentence(&self, alloc: Global) -> Result<Option<String>, AllocError> {
        match &self.unreached {
            Some(failure) => Ok(Some(failure.sentence(alloc)?)),
            None => Ok(None),
        }
    }

    /// A connection is dialed once there is room.
    fn enqueue(&mut self, group: usize, number: u64, now: u64) -> Result<(), AllocError> {
        self.queued.push(Queued {
            role_kind: RoleKind::Opening(group, number),
            next: now,
        })?;
        Ok(())
    }

    /// No server could be reached: it is dialed again later.
    fn retry_later(
        &mut self,
        role_kind: RoleKind,
        failure: Failure,
        now: u64,
    ) -> Result<(), AllocError> {
        self.unreached = Some(failure);
        let next = now.saturating_add(self.pause);
        self.pause = self.pause.saturating_mul(2).min(LONGEST);
        self.queued.push(Queued { role_kind, next })?;
        Ok(())
    }

    /// Takes out the first one whose time has come.
    fn take(&mut self, now: u64) -> Option<RoleKind> {
        for place in 0..self.queued.len() {
            let queued = *self.queued.get(place)?;
            if queued.next <= now {
                let _ = self.queued.remove(place);
                return Some(queued.role_kind);
            }
        }
        None
    }

    fn len(&self) -> usize {
        self.queued.len()
    }

    /// Whether there is none.
    pub fn is_empty(&self) -> bool {
        self.queued.is_empty()
    }
}

impl EventLoop {
    /// A connection of a group is to be opened: at once, or once there is room for it.
    pub(crate) fn open<R: Net>(&mut self, rt: &R, group: usize, number: u64) -> io::Result<()> {
        if self.state.count_all() > self.asked.total {
            let now = self.now();
            return Ok(self.dial_queue.enqueue(group, number, now)?);
        }
        self.open_now(rt, group, number)
    }

    fn open_now<R: Net>(&mut self, rt: &R, group: usize, number: u64) -> io::Result<()> {
        self.upstream.begin();
        if self.reach(rt, RoleKind::Opening(group, number), 0)? {
            return Ok(());
        }
        self.fail_to_open(group, number)
    }

    /// No server was reached for a connection: it is dialed again later, or where that wouldn't help, who waits
    /// for it is told why.
    pub(crate) fn fail_to_open(&mut self, group: usize, number: u64) -> io::Result<()> {
        let now = self.now();
        let failed = self.upstream.failed;
        if let Some(failure) = failed {
            if failure.cause.is_failure() && self.asked.limits.wait > 0 {
                let role_kind = RoleKind::Opening(group, number);
                return Ok(self.dial_queue.retry_later(role_kind, failure, now)?);
            }
        }
        let why = self.upstream.sentence(self.alloc)?;
        self.state.not_opened(group, number, why.as_str())
    }

    /// A server is dialed for the first login of a group.
    pub(crate) fn dial_first<R: Net>(&mut self, rt: &R, group: usize) -> io::Result<()> {
        self.upstream.begin();
        if self.reach(rt, RoleKind::First(group), 0)? {
            return Ok(());
        }
        self.fail_to_authenticate(group)
    }

    /// No server was reached for the first login of a group: where all are away it is dialed again later, else who
    /// waits for that is told why.
    pub(crate) fn fail_to_authenticate(&mut self, group: usize) -> io::Result<()> {
        let now = self.now();
        let failed = self.upstream.failed;
        if let Some(failure) = failed {
            if is_absence(failure.cause)
                && self.asked.limits.wait > 0
                && self.state.begin_waiting(group)
            {
                let role_kind = RoleKind::First(group);
                return Ok(self.dial_queue.retry_later(role_kind, failure, now)?);
            }
        }
        let why = self.upstream.sentence(self.alloc)?;
        self.state.not_authenticated(group, why.as_str())
    }

    /// Dials those whose time has come, as far as there is room.
    pub fn dial_queued<R: Net>(&mut self, rt: &R) -> io::Result<()> {
        for _ in 0..self.dial_queue.len() {
            let now = self.now();
            match self.dial_queue.take(now) {
                Some(RoleKind::Opening(group, number)) => self.dial_queued_one(rt, group, number)?,
                Some(RoleKind::First(group)) => self.dial_queued_first(rt, group)?,
                _ => return Ok(()),
            }
        }
        Ok(())
    }

    /// The first login of a group is dialed again, where somebody still waits until it is authenticated.
    fn dial_queued_first<R: Net>(&mut self, rt: &R, group: usize) -> io::Result<()> {
        if self.state.has_authenticating(group) {
            return self.dial_first(rt, group);
        }
        self.state.forget(group);
        Ok(())
    }

    fn dial_queued_one<R: Net>(&mut self, rt: &R, group: usize, number: u64) -> io::Result<()> {
        if !self.state.is_wanted(group, number) {
            if let Some(relay) = relay_of(&mut self.state.groups, group) {
                relay.lost(number)?;
            }
            return self.obey(rt, group);
        }
        if self.state.count_all() > self.asked.total && !self.free_one(rt)? {
            // Once it is cleaned, the connection of one that rests is free.
            let _ = self.part_any(rt)?;
            let now = self.now();
            return Ok(
                self.dial_queue
                    .enqueue(group, number, now.saturating_add(SHORTEST))?,
            );
        }
        self.open_now(rt, group, number)?;
        self.obey(rt, group)
    }

    /// Makes room for one more connection beside those of all groups. False where there is none.
    pub(crate) fn has_connection<R: Net>(&mut self, rt: &R) -> io::Result<bool> {
        if self.state.count_all() < self.asked.total {
            return Ok(true);
        }
        self.free_one(rt)
    }

    /// Closes the connection that nobody has held for longest. False where there is none.
    fn free_one<R: Net>(&mut self, rt: &R) -> io::Result<bool> {
        let Some(key) = self.state.longest_free() else {
            return Ok(false);
        };
        self.ended(rt, key, Cause::Own)?;
        Ok(true)
    }
}

/// Whether a server isn't there, so that it may be later: not where it is, and does what it may not.
fn is_absence(cause: Cause) -> bool {
    matches!(cause, Cause::Closed | Cause::Failed(_) | Cause::Silent)
}
