//! Time limits, in seconds. 0 is none.

/// How long what may last.
#[derive(Clone, Copy)]
pub struct TimeLimits {
    /// A login, on either side.
    pub login: u64,
    /// The wait for a connection.
    pub wait: u64,
    /// A cancel that the server doesn't acknowledge, and a cleaning.
    pub cancel: u64,
    /// A connection that nobody holds.
    pub idle: u64,
    /// A connection from its login on; it is closed once nobody holds it.
    pub life: u64,
    /// An application that holds a connection and asks nothing.
    pub hold: u64,
    /// The same, where a transaction is open on that connection.
    pub transaction: u64,
    /// A request.
    pub request: u64,
    /// What is still open once the relay is to end.
    pub drain: u64,
    /// From one check of free connections to the next.
    pub check: u64,
    /// For how long others are preferred to a server that has failed.
    pub away: u64,
    /// From one authentication of a kind of login to the next (`--judge-again`).
    pub judge_again: u64,
    /// For how long who has shut its sending side may wait for its answer, 0 for not at all.
    pub half: u64,
}

/// The limits where no argument says them.
pub const USUAL: TimeLimits = TimeLimits {
    login: 10,
    wait: 120,
    cancel: 30,
    idle: 600,
    life: 3600,
    hold: 0,
    transaction: 0,
    request: 0,
    drain: 30,
    check: 30,
    away: 10,
    judge_again: 600,
    half: 0,
};

/// The most seconds that an argument may say: a week.
pub const MOST: u64 = 604_800;

/// Whether so many milliseconds are beyond a limit.
pub fn is_beyond(limit: u64, elapsed: u64) -> bool {
    limit != 0 && elapsed > limit.saturating_mul(1000)
}

/// The one of two limits that runs out first.
pub fn lesser(one: u64, other: u64) -> u64 {
    match (one, other) {
        (0, _) => other,
        (_, 0) => one,
        _ => one.min(other),
    }
}
