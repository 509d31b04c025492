//! Why what has lasted too long is closed, and what is told of that.

use relay_settings::{TimeLimits, is_beyond};
use relay_sockets::Cause;
use relay_status::At;

/// Why something is closed.
#[derive(Clone, Copy)]
pub enum Why {
    Login,
    Wait,
    Cancel,
    Hold,
    Transaction,
    Request,
    Idle,
    Old,
    /// Its group is paused, or its login isn't authenticated any more.
    Paused,
    Over,
    /// The relay ends.
    End,
}

impl Why {
    /// The log's words.
    pub fn words(self) -> &'static str {
        match self {
            Why::Login => "has taken too long to log in (--login)",
            Why::Wait => "has waited too long for a connection (--wait)",
            Why::Cancel => "has no acknowledgement of a cancel, or of a cleaning (--cancel)",
            Why::Hold => "has held a connection too long and asked nothing (--hold)",
            Why::Transaction =>
                "has left a transaction open too long and asked nothing (--transaction)",
            Why::Request => "has a request that runs too long (--request)",
            Why::Idle => "was idle too long (--idle)",
            Why::Old => "is old enough (--life)",
            Why::Paused => "is closed, since its group is paused",
            Why::Over => "is closed, since its login isn't authenticated any more (--judge-again)",
            Why::End => "is closed, since the relay ends",
        }
    }

    /// Who has to do with it, where no application is told: a socket that was silent, or the relay.
    pub fn cause(self) -> Cause {
        match self {
            Why::Login | Why::Cancel => Cause::Silent,
            Why::Wait
            | Why::Hold
            | Why::Transaction
            | Why::Request
            | Why::Idle
            | Why::Old
            | Why::Paused
            | Why::Over
            | Why::End => Cause::Own,
        }
    }

    /// What an application is told: an error's number (MS-TDS 2.2.7.10) and its sentence.
    pub fn told(self) -> Option<(u32, &'static str)> {
        match self {
            Why::Wait => Some((50_101, "The relay had no connection free in time (--wait).")),
            Why::Hold => Some((
                50_102,
                "The relay closes who holds a connection for long and asks nothing (--hold).",
            )),
            Why::End => Some((50_103, "The relay ends.")),
            Why::Transaction => Some((
                50_104,
                "The relay closes who leaves a transaction open for long and asks nothing (--transaction).",
            )),
            Why::Request => Some((
                50_108,
                "The relay cancels a request that runs too long (--request).",
            )),
            Why::Login | Why::Cancel | Why::Idle | Why::Old => None,
            Why::Paused | Why::Over => None,
        }
    }
}

/// Why what has lasted so many milliseconds is to be closed, if it is.
pub fn why_late(at: At, lasted: u64, age: u64, limits: &TimeLimits) -> Option<Why> {
    match at {
        At::Login | At::Other => limited(limits.login, lasted, Why::Login),
        At::Waiting | At::Opening | At::TakenBack => limited(limits.wait, lasted, Why::Wait),
        At::Cancelling | At::Draining | At::Cleaning => limited(limits.cancel, lasted, Why::Cancel),
        At::Holding => limited(limits.hold, lasted, Why::Hold),
        At::InTransaction => match limited(limits.transaction, lasted, Why::Transaction) {
            Some(why) => Some(why),
            None => limited(limits.hold, lasted, Why::Hold),
        },
        At::Free => match limited(limits.idle, lasted, Why::Idle) {
            Some(why) => Some(why),
            None => limited(limits.life, age, Why::Old),
        },
        At::Asking => limited(limits.request, lasted, Why::Request),
        At::Quiet | At::Kept | At::Owed | At::Held => None,
    }
}

fn limited(limit: u64, lasted: u64, why: Why) -> Option<Why> {
    if is_beyond(limit, lasted) {
        Some(why)
    } else {
        None
    }
}
