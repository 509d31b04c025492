//! For how long the system is asked again at once, before the relay sleeps: to be woken takes longer than a
//! request's own work.

/// The microseconds for which it is, where the last wait of this kind was no longer.
const SOON: u64 = 50;

/// The two kinds of waits: for what servers answer, behind something that an application said, and for what
/// applications say.
#[derive(Clone, Copy)]
pub struct Polling {
    /// The microsecond of the last report.
    reported: u64,
    /// Whether an application has said something since.
    is_asked: bool,
    /// Whether the last wait of each kind was short.
    answers_soon: bool,
    asks_soon: bool,
}

impl Polling {
    /// Nothing was reported.
    pub fn new() -> Polling {
        Polling {
            reported: 0,
            is_asked: false,
            answers_soon: false,
            asks_soon: false,
        }
    }

    /// The system reports something, in this microsecond. What else it reports with that is no further wait.
    pub fn report(&mut self, now: u64) {
        if now == self.reported {
            return;
        }
        let is_soon = now.saturating_sub(self.reported) < SOON;
        if self.is_asked {
            self.answers_soon = is_soon;
        } else {
            self.asks_soon = is_soon;
        }
        self.is_asked = false;
        self.reported = now;
    }

    /// An application said something.
    pub fn ask(&mut self) {
        self.is_asked = true;
    }

    /// The microsecond up to which the system is asked again at once: for so many behind a report in any case.
    pub fn until(&self, spin: u64) -> u64 {
        let is_soon = if self.is_asked {
            self.answers_soon
        } else {
            self.asks_soon
        };
        let longest = if is_soon { spin.max(SOON) } else { spin };
        self.reported.saturating_add(longest)
    }
}
