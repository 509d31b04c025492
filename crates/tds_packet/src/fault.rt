ghost use Rattle.std.specs.Prelude.{◌≡◌};
ghost use Rattle.tds_packet.specs.Faults.{fault_number};

/// Why a packet's header is refused: the first of these that applies (MS-TDS 2.2.3.1).
///
/// A fault is found when the header's eighth byte has come, and no later.
#[derive(Debug, Drop)]
pub enum PacketFault {
    /// 1: the type is none of the four that are spoken here.
    UnknownType,
    /// 2: the type goes in the other direction.
    OtherDirection,
    /// 3: the length is less than the header's own eight bytes.
    ShortLength,
    /// 4: the length is over the packet size.
    LongLength,
    /// 5: the status has a bit that is not defined, or an answer has another status than 0 or 1.
    WrongStatus,
    /// 6: there are no data, and it is not the end of the message.
    EmptyPart,
}

impl PacketFault {
    /// The fault's number, 1 to 6, in the order in which faults are looked for.
    pub fn number(&self) -> u8
        ensures { result ≡ fault_number self.now }
    {
        match self {
            PacketFault::UnknownType => 1,
            PacketFault::OtherDirection => 2,
            PacketFault::ShortLength => 3,
            PacketFault::LongLength => 4,
            PacketFault::WrongStatus => 5,
            PacketFault::EmptyPart => 6,
        }
    }

    /// The same fault, for a reader that answers it to every later piece.
    pub(crate) fn again(&self) -> PacketFault
        ensures { result ≡ self.now }
    {
        match self {
            PacketFault::UnknownType => PacketFault::UnknownType,
            PacketFault::OtherDirection => PacketFault::OtherDirection,
            PacketFault::ShortLength => PacketFault::ShortLength,
            PacketFault::LongLength => PacketFault::LongLength,
            PacketFault::WrongStatus => PacketFault::WrongStatus,
            PacketFault::EmptyPart => PacketFault::EmptyPart,
        }
    }
}
