ghost use Rattle.std.specs.Prelude.{◌≡◌};
ghost use Rattle.tds_client.specs.Streams.{packets_are, has_headers};

use tds_packet::Kind;

/// Which message a request is, of all that a client sends (MS-TDS 2.2.1).
#[derive(Clone, Copy, PartialEq, Eq, Debug)]
pub enum MessageKind {
    /// A batch of statements: packet type `01` (MS-TDS 2.2.6.7).
    Batch,
    /// A call of procedures (RPC): packet type `03` (MS-TDS 2.2.6.6).
    Procedure,
    /// The rows of a bulk load: packet type `07` (MS-TDS 2.2.6.1).
    BulkLoad,
    /// A transaction manager request: packet type `0E` (MS-TDS 2.2.6.9).
    Transaction,
}

impl MessageKind {
    /// The type of its packets (MS-TDS 2.2.3.1.1).
    pub fn packet_kind(self) -> Kind
        ensures { result ≡ packets_are self }
    {
        match self {
            MessageKind::Batch => Kind::Batch,
            MessageKind::Procedure => Kind::Procedure,
            MessageKind::BulkLoad => Kind::BulkLoad,
            MessageKind::Transaction => Kind::Transaction,
        }
    }

    /// Whether ALL_HEADERS stands in front of its body (MS-TDS 2.2.5.3).
    pub fn has_headers(self) -> bool
        ensures { result ≡ has_headers self }
    {
        match self {
            MessageKind::BulkLoad => false,
            MessageKind::Batch | MessageKind::Procedure | MessageKind::Transaction => true,
        }
    }
}
