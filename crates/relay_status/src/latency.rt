//! How long things took: how many of them within each bound.

use std::io::{self, Write};

/// The bounds, in microseconds, and in seconds as they are told. What took longer stands behind them.
const BOUNDS: [(u64, &str); 13] = [
    (250, "0.00025"),
    (500, "0.0005"),
    (1_000, "0.001"),
    (2_500, "0.0025"),
    (5_000, "0.005"),
    (10_000, "0.01"),
    (25_000, "0.025"),
    (50_000, "0.05"),
    (100_000, "0.1"),
    (250_000, "0.25"),
    (500_000, "0.5"),
    (1_000_000, "1"),
    (10_000_000, "10"),
];

/// How long things of a kind took.
#[derive(Clone, Copy)]
pub struct Latency {
    /// How many took at most each bound, and more than the one before.
    within: [u64; 13],
    count: u64,
    /// Of all of them, in microseconds.
    sum: u64,
}

impl Latency {
    pub const fn none() -> Latency {
        Latency {
            within: [0; 13],
            count: 0,
            sum: 0,
        }
    }

    /// One more, which took so many microseconds.
    pub fn add(&mut self, took: u64) {
        self.count = self.count.saturating_add(1);
        self.sum = self.sum.saturating_add(took);
        for ((bound, _), count) in BOUNDS.iter().zip(self.within.iter_mut()) {
            if took <= *bound {
                *count = count.saturating_add(1);
                return;
            }
        }
    }

    /// Appends it in the text form that Prometheus reads: each bound's count is of all within it.
    pub fn put_metrics(&self, body: &mut Vec<u8>, name: &str) -> io::Result<()> {
        write!(body, "# TYPE {name} histogram\n")?;
        let mut all: u64 = 0;
        for ((_, bound), count) in BOUNDS.iter().zip(self.within.iter()) {
            all = all.saturating_add(*count);
            write!(body, "{name}_bucket{{le=\"{bound}\"}} {all}\n")?;
        }
        write!(body, "{name}_bucket{{le=\"+Inf\"}} {}\n", self.count)?;
        let (whole, rest) = (self.sum / 1_000_000, self.sum % 1_000_000);
        write!(body, "{name}_sum {whole}.{rest:06}\n")?;
        write!(body, "{name}_count {}\n", self.count)
    }

    /// Appends it for a reader: how many took how long, without the empty bounds.
    pub fn put_text(&self, body: &mut Vec<u8>, of: &str) -> io::Result<()> {
        write!(body, "  {of}: {}", self.count)?;
        let mut told: u64 = 0;
        for ((_, bound), count) in BOUNDS.iter().zip(self.within.iter()) {
            told = told.saturating_add(*count);
            if *count > 0 {
                write!(body, ", {count} within {bound} s")?;
            }
        }
        let longer = self.count.saturating_sub(told);
        if longer > 0 {
            write!(body, ", {longer} longer")?;
        }
        write!(body, "\n")
    }

    /// Appends it as a value of JSON.
    pub fn put_json(&self, body: &mut Vec<u8>) -> io::Result<()> {
        write!(
            body,
            "{{\"count\":{},\"microseconds\":{},\"within\":[",
            self.count, self.sum
        )?;
        let mut is_first = true;
        for ((bound, _), count) in BOUNDS.iter().zip(self.within.iter()) {
            if !is_first {
                write!(body, ",")?;
            }
            is_first = false;
            write!(body, "[{bound},{count}]")?;
        }
        write!(body, "]}}")
    }
}
