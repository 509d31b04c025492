ghost use Rattle.std.specs.Prelude.{◌≡◌};
ghost use Rattle.tds_world.specs.Refusals.{refusal_number};

/// What an event came to.
#[derive(Clone, Copy, Debug, PartialEq, Eq)]
pub enum Outcome {
    /// A connection was lent under this lease.
    Leased {
        lease: u32,
        conn: u32,
        opened: Opened,
    },
    /// A lease was given back.
    GivenBack(GiveBackOutcome),
    /// A lease became this ticket.
    Kept(u32),
    /// A ticket was abandoned.
    Abandoned(AbandonOutcome),
    /// A connection is being cleaned, under this lease of the pool's own, by this request.
    Cleaning {
        lease: u32,
        request: u32,
    },
    /// This request was asked.
    Asked(u32),
    /// A packet of a request went out.
    Sent(SendOutcome),
    /// A cancel was asked for.
    Cancel(CancelOutcome),
    /// A server worked.
    Work(WorkOutcome),
    /// So many bytes came to the server.
    ToServer(u32),
    /// So many bytes came to the client.
    ToClient(u32),
    /// A connection was cut.
    Cut,
    /// The server ended and began anew.
    RestartedServer,
    /// The client ended and began anew.
    RestartedClient,
    /// The event doesn't apply, and changed nothing.
    Refused(Refusal),
    /// An end refused the bytes that came to it, by this fault of this layer. Its connection was
    /// cut.
    Fault {
        end: End,
        layer: Layer,
        number: u8,
    },
}

/// How a lease came by its connection.
#[derive(Clone, Copy, Debug, PartialEq, Eq)]
pub enum Opened {
    /// It was opened.
    New,
    /// It was free.
    Reused,
    /// A ticket kept it.
    Resumed,
}

/// Where the connection of a lease that was given back is then.
#[derive(Clone, Copy, Debug, PartialEq, Eq)]
pub enum GiveBackOutcome {
    /// It can be lent again.
    Free,
    /// It can be lent again once nothing is underway.
    Draining,
    /// It was cut before.
    Closed,
}

/// Where the connection of a ticket that was abandoned is then.
#[derive(Clone, Copy, Debug, PartialEq, Eq)]
pub enum AbandonOutcome {
    /// It can be lent again.
    Free,
    /// It was cut before.
    Closed,
}

/// Whether the packet that went out is the request's last one.
#[derive(Clone, Copy, Debug, PartialEq, Eq)]
pub enum SendOutcome {
    /// More of the request is to be sent.
    More,
    /// All of the request is out.
    Last,
}

/// What a cancel did.
#[derive(Clone, Copy, Debug, PartialEq, Eq)]
pub enum CancelOutcome {
    /// Nothing: nobody waits for an answer.
    Nothing,
    /// Nothing: the request was cancelled before.
    Already,
    /// No packet of the request was out, so none goes out.
    Unsent,
    /// An attention went out (MS-TDS 2.2.1.7).
    Asked,
}

/// What a server's work did.
#[derive(Clone, Copy, Debug, PartialEq, Eq)]
pub enum WorkOutcome {
    /// Nothing: no answer is due.
    Idle,
    /// A step of the answer, and more are due.
    Step,
    /// The last step of the answer.
    Finished,
}

/// Why an event doesn't apply.
#[derive(Clone, Copy, Debug, PartialEq, Eq)]
pub enum Refusal {
    /// 1: there is no such lease, or it ended.
    UnknownLease,
    /// 2: there is no such ticket, or it ended.
    UnknownTicket,
    /// 3: there is no such connection, or it was cut.
    UnknownConnection,
    /// 4: somebody waits for an answer on the connection.
    NotIdle,
    /// 5: no packet of a request is to be sent.
    NotSending,
    /// 6: there is no transaction to keep.
    NothingToKeep,
    /// 7: no connection is free, and none may be opened.
    AllInUse,
    /// 8: the connection of this lease or ticket was cut.
    ConnectionCut,
    /// 9: the connection is not free.
    NotFree,
}

impl Refusal {
    /// The number that the report shows.
    pub fn number(self) -> u8
        ensures { result ≡ refusal_number self }
    {
        match self {
            Refusal::UnknownLease => 1,
            Refusal::UnknownTicket => 2,
            Refusal::UnknownConnection => 3,
            Refusal::NotIdle => 4,
            Refusal::NotSending => 5,
            Refusal::NothingToKeep => 6,
            Refusal::AllInUse => 7,
            Refusal::ConnectionCut => 8,
            Refusal::NotFree => 9,
        }
    }
}

/// An end of a connection.
#[derive(Clone, Copy, Debug, PartialEq, Eq)]
pub enum End {
    /// The server's end.
    Server,
    /// The client's end.
    Client,
}

/// A layer that can refuse bytes.
#[derive(Clone, Copy, Debug, PartialEq, Eq)]
pub enum Layer {
    /// The packet reader.
    Packet,
    /// The client or the server itself.
    Core,
}
