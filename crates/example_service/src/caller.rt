//! Who waits for a connection, and what each does with it.

/// What a caller does once it has a connection.
#[derive(Clone, Copy, Debug)]
pub enum Plan {
    /// It asks this, and leaves with the answer.
    Ask(&'static str),
    /// It asks this, and cancels while the answer is on its way.
    Cancel(&'static str),
    /// It asks this, and is gone while the answer is on its way.
    Vanish(&'static str),
    /// Its server answers though it asks nothing.
    BeLiedTo,
}

#[derive(Clone, Copy, Debug)]
pub struct Caller {
    pub name: &'static str,
    pub plan: Plan,
    /// 0 while it waits, and a spent one once it has gone.
    pub lease: u64,
    /// The connection's number.
    pub number: u64,
    pub gone: bool,
}

impl Caller {
    pub fn new(name: &'static str, plan: Plan) -> Caller {
        Caller {
            name,
            plan,
            lease: 0,
            number: 0,
            gone: false,
        }
    }

    /// Whether it has a connection.
    pub fn is_served(&self) -> bool {
        self.lease > 0 && !self.gone
    }
}
