//! Sockets are looked at, each where something has happened on it or a limit of its may have run out.

use crate::program::Program;
use relay_settings::TimeLimits;
use relay_sockets::Seen;
use relay_status::At;
use std::io;
use std::net::Net;

/// At each multiple of so many milliseconds all sockets are looked at, whatever is known of them: together, so that
/// mostly none is due in between.
const LONGEST: u64 = 600_000;

impl Program {
    /// Closes what has lasted longer than its limit.
    pub fn sweep<R: Net>(&mut self, rt: &R) -> io::Result<()> {
        if self.ending.is_some() {
            self.event_loop.state.sockets.touch_all();
        }
        self.sweep_due(rt)?;
        self.event_loop.part_all(rt)?;
        self.event_loop.dial_queued(rt)?;
        self.event_loop.reauthenticate(rt)?;
        self.event_loop.look_after_names(rt)?;
        self.event_loop.check_all(rt)
    }

    fn sweep_due<R: Net>(&mut self, rt: &R) -> io::Result<()> {
        let (count, now) = (
            self.event_loop.state.sockets.places(),
            self.event_loop.now(),
        );
        if !self.event_loop.state.sockets.begin_looks(now) {
            return Ok(());
        }
        let mut place = 0;
        for _ in 0..count {
            let Some((next, key)) = self.event_loop.state.sockets.first_due(place, now) else {
                break;
            };
            self.sweep_one(rt, key)?;
            place = next;
        }
        Ok(())
    }

    fn sweep_one<R: Net>(&mut self, rt: &R, key: usize) -> io::Result<()> {
        if let Some(why) = self.look_at(key) {
            self.end(rt, key, why)?;
        }
        // What made room for it may have been said of another one alone.
        Ok(self.event_loop.state.sockets.read_on(key)?)
    }
}

/// The millisecond from which a socket is looked at again where nothing happens on it: a limit of its runs out then.
pub fn next_look(seen: &Seen, born: u64, limits: &TimeLimits, now: u64) -> u64 {
    let all = (now / LONGEST).saturating_add(1).saturating_mul(LONGEST);
    due_of(seen, born, limits).min(all)
}

/// The millisecond from which what is at this, and was born then, may be beyond a limit.
fn due_of(seen: &Seen, born: u64, limits: &TimeLimits) -> u64 {
    let since = seen.since;
    match seen.at {
        At::Login | At::Other => due(limits.login, since),
        At::Waiting | At::Opening | At::TakenBack => due(limits.wait, since),
        At::Cancelling | At::Draining | At::Cleaning => due(limits.cancel, since),
        At::Holding => due(limits.hold, since),
        At::InTransaction => due(limits.transaction, since).min(due(limits.hold, since)),
        At::Free => due(limits.idle, since).min(due(limits.life, born)),
        At::Asking => due(limits.request, since),
        At::Quiet | At::Kept | At::Owed | At::Held => u64::MAX,
    }
}

fn due(limit: u64, since: u64) -> u64 {
    if limit == 0 {
        u64::MAX
    } else {
        since
            .saturating_add(limit.saturating_mul(1000))
            .saturating_add(1)
    }
}
