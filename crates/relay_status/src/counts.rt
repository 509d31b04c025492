//! What the relay has done since it began.

use crate::judged::Found;
use crate::reasons::Kept;

/// What the relays of groups have done.
#[derive(Clone, Copy)]
pub struct Done {
    /// Requests that were asked of the server, and cancels that were handed on to it.
    pub requests: u64,
    pub cancels: u64,
    /// Connections that were let go and are cleaned, and those that were closed instead.
    pub cleanings: u64,
    pub failed: u64,
    /// How often an application that rested was parted from its connection, for one that waited.
    pub partings: u64,
}

/// What has done nothing yet.
pub const NOTHING: Done = Done {
    requests: 0,
    cancels: 0,
    cleanings: 0,
    failed: 0,
    partings: 0,
};

/// What it has done. Each of them only grows.
#[derive(Clone, Copy)]
pub struct Counts {
    /// Applications that were authenticated, and those that were refused.
    pub authenticated: u64,
    pub refused: u64,
    /// Applications that waited for a connection which couldn't be opened.
    pub not_served: u64,
    /// Attempts to log in at a server, those that were authenticated, and those of these that ended.
    pub dialed: u64,
    pub opened: u64,
    pub ended: u64,
    /// What was closed since a time limit ran out.
    pub late_logins: u64,
    pub late_waits: u64,
    pub late_cancels: u64,
    pub late_holds: u64,
    pub late_transactions: u64,
    pub late_requests: u64,
    /// Connections that were closed as idle or old.
    pub idle: u64,
    pub old: u64,
    /// Servers that didn't take a login or ended in one, and logins that a server sent to another one.
    pub away: u64,
    pub routed: u64,
    /// Lines of the log that were left out, since nobody read them in time.
    pub left_out: u64,
    /// What a judge has found.
    pub found: Found,
    /// Why connections were held as somebody came to wait.
    pub kept: Kept,
    /// What groups that are gone had done.
    pub gone: Done,
}

impl Counts {
    pub fn none() -> Counts {
        Counts {
            authenticated: 0,
            refused: 0,
            not_served: 0,
            dialed: 0,
            opened: 0,
            ended: 0,
            late_logins: 0,
            late_waits: 0,
            late_cancels: 0,
            late_holds: 0,
            late_transactions: 0,
            late_requests: 0,
            idle: 0,
            old: 0,
            away: 0,
            routed: 0,
            left_out: 0,
            found: Found::none(),
            kept: Kept::none(),
            gone: NOTHING,
        }
    }
}

/// One more.
pub fn raise(count: &mut u64) {
    *count = count.saturating_add(1);
}

/// The sum of what two relays have done.
pub fn sum(one: Done, other: Done) -> Done {
    Done {
        requests: one.requests.saturating_add(other.requests),
        cancels: one.cancels.saturating_add(other.cancels),
        cleanings: one.cleanings.saturating_add(other.cleanings),
        failed: one.failed.saturating_add(other.failed),
        partings: one.partings.saturating_add(other.partings),
    }
}
