ghost use Rattle.std.specs.Prelude.{◌≡◌};
ghost use Rattle.tds_front.specs.Faults.{fault_number};

/// What an application did that the protocol doesn't allow. Its end takes nothing any more.
#[derive(Clone, Copy, PartialEq, Eq, Debug)]
pub enum FrontFault {
    /// 1: a packet's type is that of no request and of no attention (MS-TDS 2.2.3.1.1).
    UnknownType,
    /// 2: a packet's status has a bit that isn't defined (MS-TDS 2.2.3.1.2).
    WrongStatus,
    /// 3: a packet's length is below 8, or over the packet size (MS-TDS 2.2.3.1.3).
    WrongLength,
    /// 4: a packet has no data, and begins its message or doesn't end it.
    EmptyPart,
    /// 5: a packet of a request came while a request was underway.
    RequestWhileAnswering,
    /// 6: the packet's type isn't that of the message that it goes on with.
    TypeChanged,
    /// 7: a message's first packet asks for both resets (MS-TDS 2.2.3.1.2).
    BothResets,
    /// 8: an attention has data, or a status other than end of message (MS-TDS 2.2.1.7).
    WrongAttention,
    /// 9: a packet has the ignore bit without end of message (MS-TDS 2.2.3.1.2).
    IgnoredPart,
    /// 10: an attention came before the one before it was acknowledged.
    SecondAttention,
    /// 11: a request has no ALL_HEADERS in front of its body, or one of more than 65,535 bytes
    /// (MS-TDS 2.2.5.3).
    WrongHeaders,
}

impl FrontFault {
    /// The fault's number, 1 to 11.
    pub fn number(&self) -> u8
        ensures { result ≡ fault_number self.now }
    {
        match self {
            FrontFault::UnknownType => 1,
            FrontFault::WrongStatus => 2,
            FrontFault::WrongLength => 3,
            FrontFault::EmptyPart => 4,
            FrontFault::RequestWhileAnswering => 5,
            FrontFault::TypeChanged => 6,
            FrontFault::BothResets => 7,
            FrontFault::WrongAttention => 8,
            FrontFault::IgnoredPart => 9,
            FrontFault::SecondAttention => 10,
            FrontFault::WrongHeaders => 11,
        }
    }
}
