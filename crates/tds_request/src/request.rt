ghost use Rattle.std.specs.Prelude.{◌≡◌};
ghost use Rattle.tds_request.specs.Layout.{kind_of_request, packet_kind};

use crate::isolation::Isolation;
use crate::text::BatchText;
use tds_packet::Kind;

/// What a client asks for.
#[derive(Debug, Drop)]
pub enum Request {
    /// To run the statements of this text (MS-TDS 2.2.6.7).
    Batch(BatchText),
    /// To begin a transaction at this isolation level (MS-TDS 2.2.6.9).
    Begin(Isolation),
    /// To commit the transaction and, with an isolation level, to begin the next one at once
    /// (MS-TDS 2.2.6.9).
    Commit(Option<Isolation>),
    /// To roll the transaction back and, with an isolation level, to begin the next one at once
    /// (MS-TDS 2.2.6.9).
    Rollback(Option<Isolation>),
}

/// Which of the two messages a request is, as the type of its packets says it (MS-TDS 2.2.3.1.1).
#[derive(Clone, Copy, Debug, PartialEq, Eq)]
pub enum RequestKind {
    /// A batch: packet type `01`.
    Batch,
    /// A transaction manager request: packet type `0E`.
    Transaction,
}

impl Request {
    /// Which message it is.
    pub fn kind(&self) -> RequestKind
        ensures { result ≡ kind_of_request self.now }
    {
        match self {
            Request::Batch(_) => RequestKind::Batch,
            Request::Begin(_) => RequestKind::Transaction,
            Request::Commit(_) => RequestKind::Transaction,
            Request::Rollback(_) => RequestKind::Transaction,
        }
    }
}

impl RequestKind {
    /// The type of its packets (MS-TDS 2.2.3.1.1).
    pub fn packet_kind(self) -> Kind
        ensures { result ≡ packet_kind self }
    {
        match self {
            RequestKind::Batch => Kind::Batch,
            RequestKind::Transaction => Kind::Transaction,
        }
    }
}
