//! The arguments that are counts.

/// The connections of a group, where no argument says it, and the most of them.
const USUAL: usize = 16;

const MOST: usize = 1024;

/// The connections that aren't shared, and the kinds of logins, where no argument says it, and the most of them; and the
/// most connections of all together.
const USUAL_ALONE: usize = 256;

const MOST_ALONE: usize = 4096;

const MOST_TOTAL: usize = 10_000;

/// An argument that is a count.
#[derive(Clone, Copy)]
pub struct Count {
    pub name: &'static str,
    pub least: usize,
    pub most: usize,
    pub usual: usize,
    /// Of what.
    pub unit: &'static str,
}

pub const COUNT_MOST: Count = Count {
    name: "most",
    least: 1,
    most: MOST,
    usual: USUAL,
    unit: "connections",
};

pub const COUNT_ALONE: Count = Count {
    name: "alone",
    least: 0,
    most: MOST_ALONE,
    usual: USUAL_ALONE,
    unit: "connections",
};

pub const COUNT_TOTAL: Count = Count {
    name: "total",
    least: 1,
    most: MOST_TOTAL,
    usual: MOST_TOTAL,
    unit: "connections",
};

pub const COUNT_KINDS: Count = Count {
    name: "kinds",
    least: 1,
    most: MOST_ALONE,
    usual: USUAL_ALONE,
    unit: "kinds of logins",
};

pub const COUNT_LEAST: Count = Count {
    name: "least",
    least: 0,
    most: MOST,
    usual: 0,
    unit: "connections",
};

pub const COUNT_SPIN: Count = Count {
    name: "spin",
    least: 0,
    most: 1000,
    usual: 0,
    unit: "microseconds",
};
