//! What is there and what was done, in numbers that have names.

use crate::at::{At, Role};
use crate::counts::{Counts, Done};
use std::io::{self, Write};

/// The figures of a moment.
#[derive(Clone, Copy)]
pub struct Figures {
    pub seconds: u64,
    pub counts: Counts,
    /// What all groups have done, those that are gone too.
    pub done: Done,
    logging_in: u64,
    quiet: u64,
    kept: u64,
    holding: u64,
    in_transaction: u64,
    waiting: u64,
    asking: u64,
    cancelling: u64,
    opening: u64,
    free: u64,
    held: u64,
    draining: u64,
    cleaning: u64,
    /// Groups that are shared, that aren't, and that are paused.
    shared: u64,
    alone: u64,
    paused: u64,
    /// The seconds that an application has waited which has waited longest.
    longest_wait: u64,
}

/// A figure: what it is of, its name, and how many.
pub(crate) type Figure = (&'static str, &'static str, u64);

impl Figures {
    pub fn new(seconds: u64, counts: Counts) -> Figures {
        Figures {
            seconds,
            counts,
            done: counts.gone,
            logging_in: 0,
            quiet: 0,
            kept: 0,
            holding: 0,
            in_transaction: 0,
            waiting: 0,
            asking: 0,
            cancelling: 0,
            opening: 0,
            free: 0,
            held: 0,
            draining: 0,
            cleaning: 0,
            shared: 0,
            alone: 0,
            paused: 0,
            longest_wait: 0,
        }
    }

    /// One more group, which is shared or not, and paused or not.
    pub fn add_group(&mut self, is_alone: bool, is_paused: bool) {
        let count = if is_alone {
            &mut self.alone
        } else {
            &mut self.shared
        };
        *count = count.saturating_add(1);
        if is_paused {
            self.paused = self.paused.saturating_add(1);
        }
    }

    /// An application has waited for so many seconds.
    pub fn waited(&mut self, seconds: u64) {
        self.longest_wait = self.longest_wait.max(seconds);
    }

    /// One more socket, which is at this.
    pub fn add(&mut self, role: Role, at: At) {
        let count = match (role, at) {
            (Role::Coming, _) => &mut self.logging_in,
            (Role::Dialed, _) => &mut self.opening,
            (Role::Application, At::Quiet | At::Owed) => &mut self.quiet,
            (Role::Application, At::Kept) => &mut self.kept,
            (Role::Application, At::Holding) => &mut self.holding,
            (Role::Application, At::InTransaction) => &mut self.in_transaction,
            (Role::Application, At::Waiting | At::Opening | At::TakenBack) => { &mut self.waiting }
            (Role::Application, At::Asking) => &mut self.asking,
            (Role::Application, At::Cancelling) => &mut self.cancelling,
            (Role::Connection, At::Free) => &mut self.free,
            (Role::Connection, At::Held) => &mut self.held,
            (Role::Connection, At::Draining) => &mut self.draining,
            (Role::Connection, At::Cleaning) => &mut self.cleaning,
            _ => return,
        };
        *count = count.saturating_add(1);
    }

    /// Applications and connections, by where they are.
    fn there(&self) -> [Figure; 17] {
        [
            ("applications", "logging_in", self.logging_in),
            ("applications", "quiet", self.quiet),
            ("applications", "paused", self.kept),
            ("applications", "holding", self.holding),
            ("applications", "in_transaction", self.in_transaction),
            ("applications", "waiting", self.waiting),
            ("applications", "asking", self.asking),
            ("applications", "cancelling", self.cancelling),
            ("connections", "logging_in", self.opening),
            ("connections", "free", self.free),
            ("connections", "held", self.held),
            ("connections", "draining", self.draining),
            ("connections", "cleaning", self.cleaning),
            ("groups", "shared", self.shared),
            ("groups", "not_shared", self.alone),
            ("groups", "paused", self.paused),
            ("longest", "wait_seconds", self.longest_wait),
        ]
    }

    /// What was done since the relay began.
    fn counted(&self) -> [Figure; 25] {
        [
            ("applications", "authenticated", self.counts.authenticated),
            ("applications", "refused", self.counts.refused),
            ("applications", "not_served", self.counts.not_served),
            ("connections", "dialed", self.counts.dialed),
            ("connections", "opened", self.counts.opened),
            ("connections", "ended", self.counts.ended),
            ("done", "requests", self.done.requests),
            ("done", "cancels", self.done.cancels),
            ("done", "cleanings", self.done.cleanings),
            ("done", "cleanings_failed", self.done.failed),
            ("done", "partings", self.done.partings),
            ("limits", "login", self.counts.late_logins),
            ("limits", "wait", self.counts.late_waits),
            ("limits", "cancel", self.counts.late_cancels),
            ("limits", "hold", self.counts.late_holds),
            ("limits", "transaction", self.counts.late_transactions),
            ("limits", "request", self.counts.late_requests),
            ("limits", "idle", self.counts.idle),
            ("limits", "life", self.counts.old),
            ("servers", "failed", self.counts.away),
            ("servers", "routed", self.counts.routed),
            ("log", "lines_left_out", self.counts.left_out),
            ("found", "applications", self.counts.found.applications),
            ("found", "servers", self.counts.found.servers),
            ("found", "relay", self.counts.found.relay),
        ]
    }
}

/// Appends them for a reader.
pub fn put_text_figures(body: &mut Vec<u8>, figures: &Figures) -> io::Result<()> {
    write!(body, "since {} s\n\nnow\n", figures.seconds)?;
    for (of, name, count) in figures.there().iter() {
        write!(body, "  {of} {name} {count}\n")?;
    }
    write!(body, "\nsince the beginning\n")?;
    for (of, name, count) in figures.counted().iter() {
        write!(body, "  {of} {name} {count}\n")?;
    }
    for (of, name, count) in figures.counts.kept.figures().iter() {
        write!(body, "  {of} {name} {count}\n")?;
    }
    Ok(())
}

/// Begins an object that has them.
pub fn put_json_figures(body: &mut Vec<u8>, figures: &Figures) -> io::Result<()> {
    write!(
        body,
        "{{\"version\":\"0.1.0\",\"seconds\":{}",
        figures.seconds
    )?;
    for (of, name, count) in figures.there().iter() {
        write!(body, ",\"{of}_{name}\":{count}")?;
    }
    for (of, name, count) in figures.counted().iter() {
        write!(body, ",\"total_{of}_{name}\":{count}")?;
    }
    for (of, name, count) in figures.counts.kept.figures().iter() {
        write!(body, ",\"total_{of}_{name}\":{count}")?;
    }
    Ok(())
}

/// Appends them in the text form that Prometheus reads.
pub fn put_metrics(body: &mut Vec<u8>, figures: &Figures) -> io::Result<()> {
    write!(
        body,
        "# TYPE tdsrelay_seconds gauge\ntdsrelay_seconds {}\n",
        figures.seconds
    )?;
    for (of, name, count) in figures.there().iter() {
        let full = "tdsrelay_now";
        write!(body, "# TYPE {full}_{of}_{name} gauge\n")?;
        write!(body, "{full}_{of}_{name} {count}\n")?;
    }
    put_counters(body, &figures.counted())?;
    put_counters(body, &figures.counts.kept.figures())
}

fn put_counters(body: &mut Vec<u8>, figures: &[Figure]) -> io::Result<()> {
    for (of, name, count) in figures.iter() {
        let full = "tdsrelay";
        write!(body, "# TYPE {full}_{of}_{name}_total counter\n")?;
        write!(body, "{full}_{of}_{name}_total {count}\n")?;
    }
    Ok(())
}

/// Begins the applications, or the connections, of each user, for Prometheus.
pub fn put_users(body: &mut Vec<u8>, what: &str) -> io::Result<()> {
    write!(body, "# TYPE tdsrelay_user_{what} gauge\n")
}

/// Appends how many of these there are of a user.
pub fn put_user(body: &mut Vec<u8>, what: &str, user: &str, count: u64) -> io::Result<()> {
    write!(body, "tdsrelay_user_{what}{{user=\"{user}\"}} {count}\n")
}
