//! What the pool's calls answer.
ghost use Rattle.std.specs.Prelude.{◌≡◌};
ghost use Rattle.tds_pool.specs.Calls.{refusal_number};

use std::alloc::AllocError;

/// Which connection a lease has got.
#[derive(Clone, Copy, PartialEq, Eq, Debug)]
pub enum Opened {
    /// A new one, of this number.
    New(u32),
    /// One that was lent before.
    Reused(u32),
}

/// Where a connection is that was given back, or that drains.
#[derive(Clone, Copy, PartialEq, Eq, Debug)]
pub enum GivenBack {
    /// The connection of this number is free.
    Free(u32),
    /// It is free when its client is idle: `Pool::drained` says when.
    Draining(u32),
    /// Its client was broken: it is in the pool no longer.
    Closed(u32),
    /// There is no such connection.
    Unknown,
}

/// Why the pool refuses. A refusal changes nothing.
#[derive(Debug, Drop)]
pub enum PoolRefusal {
    /// 1: no connection is free, and there are as many as there may be.
    AllInUse,
    /// 2: the lease or ticket is unknown.
    Unknown,
    /// 3: the client is not idle.
    NotIdle,
    /// 4: there is no transaction to keep.
    NoTransaction,
    /// 5: the client is broken.
    Broken,
    /// 6: a growth was refused.
    Memory,
    /// 7: every number was used, after `2^32 - 1` connections.
    NumbersUsedUp,
}

impl PoolRefusal {
    /// The refusal's number, 1 to 7.
    pub fn number(&self) -> u8
        ensures { result ≡ refusal_number self.now }
    {
        match self {
            PoolRefusal::AllInUse => 1,
            PoolRefusal::Unknown => 2,
            PoolRefusal::NotIdle => 3,
            PoolRefusal::NoTransaction => 4,
            PoolRefusal::Broken => 5,
            PoolRefusal::Memory => 6,
            PoolRefusal::NumbersUsedUp => 7,
        }
    }
}

impl From<AllocError> for PoolRefusal {
    ghost use Rattle.tds_pool.specs.declared.answers.PoolRefusal.TheVariants.{Memory};

    ghost from_gives = { λ _ refusal. refusal ≡ Memory };

    fn from(_: AllocError) -> PoolRefusal {
        PoolRefusal::Memory
    }
}
