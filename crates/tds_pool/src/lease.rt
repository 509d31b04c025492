//! Leases and tickets: who holds them may use, or lend again, the connection that they stand for.
ghost use Rattle.std.specs.Prelude.{◌≡◌};
ghost use Rattle.tds_pool.specs.Connections.{next_turn, same_turn};

use std::marker::Model;

/// One lending of a connection: the name of its pool, and how many lendings of the connection had
/// ended before it, at most 2^64 - 1.
#[derive(Clone, Copy, Debug)]
pub struct Turn {
    pub(crate) pool: u32,
    pub(crate) count: u64,
}

impl Turn {
    /// Whether two turns of one connection are the same.
    pub(crate) fn is(self, other: Turn) -> bool
        ensures { result ≡ same_turn self other }
    {
        self.pool == other.pool && self.count == other.count
    }

    /// The turn after this one. The last one stays.
    pub(crate) fn next(self) -> Turn
        ensures { result ≡ next_turn self }
    {
        let count = if self.count < u64::MAX {
            self.count + 1
        } else {
            self.count
        };
        Turn {
            pool: self.pool,
            count,
        }
    }
}

/// A connection that is lent. It can't be copied or dropped, and it must be spent: by
/// `Pool::give_back` or `Pool::keep`, or by `store`, where it is to be kept with other values.
pub struct Lease {
    pub(crate) key: usize,
    pub(crate) number: u32,
    pub(crate) turn: Turn,
}

/// A connection that is kept with its transaction. It can't be copied or dropped, and it must be
/// spent: by `Pool::resume` or `Pool::abandon`, or by `store`.
pub struct Ticket {
    pub(crate) key: usize,
    pub(crate) number: u32,
    pub(crate) turn: Turn,
}

/// A lease that is stored, by `Lease::store`, in a table say. It can't be copied or made, and
/// `Pool::claim` makes a lease of it again. Where it is dropped, its connection stays lent until
/// `Pool::take_back` or `Pool::lost` is called with its number.
#[derive(Debug, Drop)]
pub struct StoredLease {
    key: usize,
    number: u32,
    turn: Turn,
}

/// A ticket that is stored, by `Ticket::store`. It can't be copied or made, and
/// `Pool::claim_ticket` makes a ticket of it again. Where it is dropped, its connection stays kept
/// until `Pool::take_back` or `Pool::lost` is called with its number.
#[derive(Debug, Drop)]
pub struct StoredTicket {
    key: usize,
    number: u32,
    turn: Turn,
}

impl Model for StoredLease {
    ghost use Rattle.tds_pool.specs.declared.lease.Lease.{Lease};

    ghost Value = { Lease };

    ghost view = { λ a. record { key = a.key; number = a.number; turn = a.turn } };
}

impl Model for StoredTicket {
    ghost use Rattle.tds_pool.specs.declared.lease.Ticket.{Ticket};

    ghost Value = { Ticket };

    ghost view = { λ a. record { key = a.key; number = a.number; turn = a.turn } };
}

impl Lease {
    /// The number of its connection.
    pub fn number(&self) -> u32
        ensures { result ≡ self.now.number }
    {
        self.number
    }

    /// The lease, to be stored.
    pub fn store(self) -> StoredLease
        ensures { result ≡ self }
    {
        let Lease { key, number, turn } = self;
        StoredLease { key, number, turn }
    }
}

impl Ticket {
    /// The number of its connection.
    pub fn number(&self) -> u32
        ensures { result ≡ self.now.number }
    {
        self.number
    }

    /// The ticket, to be stored.
    pub fn store(self) -> StoredTicket
        ensures { result ≡ self }
    {
        let Ticket { key, number, turn } = self;
        StoredTicket { key, number, turn }
    }
}

impl StoredLease {
    /// The number of its connection.
    pub fn number(&self) -> u32
        ensures { result ≡ self.now.number }
    {
        self.number
    }

    /// The key of its connection.
    pub(crate) fn key(&self) -> usize
        ensures { result ≡ self.now.key }
    {
        self.key
    }

    /// The turn of its connection.
    pub(crate) fn turn(&self) -> Turn
        ensures { result ≡ self.now.turn }
    {
        self.turn
    }
}

impl StoredTicket {
    /// The number of its connection.
    pub fn number(&self) -> u32
        ensures { result ≡ self.now.number }
    {
        self.number
    }

    /// The key of its connection.
    pub(crate) fn key(&self) -> usize
        ensures { result ≡ self.now.key }
    {
        self.key
    }

    /// The turn of its connection.
    pub(crate) fn turn(&self) -> Turn
        ensures { result ≡ self.now.turn }
    {
        self.turn
    }
}
