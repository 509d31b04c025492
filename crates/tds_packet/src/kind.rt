ghost use Rattle.std.specs.Prelude.{◌≡◌, IfSome};
ghost use Rattle.tds_packet.specs.Layout.{kind_byte, kind_of, direction_of};

/// The way that a packet goes.
#[derive(Clone, Copy, PartialEq, Eq, Debug)]
pub enum Direction {
    ToServer,
    ToClient,
}

/// A packet's type (MS-TDS 2.2.3.1.1), of those that are written here. Four of them are read too:
/// for a reader, `Procedure` and `BulkLoad` are types that it doesn't know.
#[derive(Clone, Copy, PartialEq, Eq, Debug)]
pub enum Kind {
    /// A batch of statements, to the server: `01`.
    Batch,
    /// A call of a procedure (RPC), to the server: `03`. It is written and not read.
    Procedure,
    /// A tabular result, the answer to any request, to the client: `04`.
    Answer,
    /// An attention, which cancels the request underway, to the server: `06`.
    Attention,
    /// Rows of a bulk load, to the server: `07`. It is written and not read.
    BulkLoad,
    /// A transaction manager request, to the server: `0E`.
    Transaction,
}

impl Kind {
    /// The byte on the wire.
    pub fn byte(self) -> u8
        ensures { result ≡ kind_byte self }
    {
        match self {
            Kind::Batch => 0x01,
            Kind::Procedure => 0x03,
            Kind::Answer => 0x04,
            Kind::Attention => 0x06,
            Kind::BulkLoad => 0x07,
            Kind::Transaction => 0x0E,
        }
    }

    /// The type that a byte stands for, or none where it is not read here: `03` and `07` are not.
    #[tactic(auto, unfolding(crate::specs::Layout::kind_of))]
    pub fn from_byte(byte: u8) -> Option<Kind>
        ensures value { result ≡ kind_of byte }
        ensures spelled { IfSome result (λ kind. kind_byte kind ≡ byte) }
    {
        match byte {
            0x01 => Some(Kind::Batch),
            0x04 => Some(Kind::Answer),
            0x06 => Some(Kind::Attention),
            0x0E => Some(Kind::Transaction),
            _ => None,
        }
    }

    /// The way that packets of this type go.
    pub fn direction(self) -> Direction
        ensures { result ≡ direction_of self }
    {
        match self {
            Kind::Answer => Direction::ToClient,
            Kind::Batch | Kind::Procedure | Kind::Attention => Direction::ToServer,
            Kind::BulkLoad | Kind::Transaction => Direction::ToServer,
        }
    }
}
