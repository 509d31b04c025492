//! Who holds a connection.
ghost use Rattle.std.specs.Prelude.{◌≡◌};
ghost use Rattle.tds_service.specs.Table.{id_of};

/// Who holds a connection.
#[derive(Clone, Copy, Debug, PartialEq, Eq)]
pub enum Place {
    /// The lease of this number.
    Leased(u64),
    /// The lease of this number, to clean it.
    Cleaning(u64),
    /// Nobody, until the ticket of this number is resumed.
    Kept(u64),
    /// Nobody: it may be lent where it is idle.
    Free,
    /// Nobody: it is free once it is idle.
    Draining,
}

/// Where a connection is that nobody holds any more.
#[derive(Clone, Copy, Debug, PartialEq, Eq)]
pub enum Rest {
    /// It may be lent.
    Free,
    /// It is free once its answer, or the acknowledgement of its cancel, has come.
    Draining,
    /// It was broken, or wasn't clean: it is in the service no longer. Close it.
    Closed,
}

/// Who is looked for.
#[derive(Clone, Copy, Debug, PartialEq, Eq)]
pub(crate) enum Holder {
    Lease(u64),
    Ticket(u64),
}

impl Holder {
    pub(crate) fn id(self) -> u64
        ensures { result ≡ id_of self }
    {
        match self {
            Holder::Lease(lease) => lease,
            Holder::Ticket(ticket) => ticket,
        }
    }
}
