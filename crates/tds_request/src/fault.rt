ghost use Rattle.std.specs.Prelude.{◌≡◌, ◌↔◌, IsTrue};
ghost use Rattle.tds_request.specs.declared.fault.RequestFault.TheVariants.{Memory};
ghost use Rattle.tds_request.specs.Faults.{fault_number};

use std::alloc::AllocError;

/// Why bytes are no request: the first field that is wrong or cut short.
#[derive(Debug, Drop)]
pub enum RequestFault {
    /// 1: under 22 bytes, or the input ends before a field's last byte.
    Short,
    /// 2: the total length of ALL_HEADERS (MS-TDS 2.2.5.3) is not 22.
    WrongTotalLength,
    /// 3: the first header's length is not 18, or its type is not 2 (MS-TDS 2.2.5.3.2).
    WrongHeader,
    /// 4: the count of outstanding requests is not 1 (MS-TDS 2.2.5.3.2).
    WrongCount,
    /// 5: the text of a batch has no byte, an odd number of bytes, or over 4,000 (MS-TDS 2.2.6.7).
    WrongTextLength,
    /// 6: the request type is not begin, commit or rollback (MS-TDS 2.2.6.9).
    WrongRequestType,
    /// 7: the isolation level is over 5 (MS-TDS 2.2.6.9).
    WrongIsolation,
    /// 8: the name of a transaction is not empty (MS-TDS 2.2.6.9).
    WrongName,
    /// 9: the flags of a commit or rollback are neither 0 nor 1 (MS-TDS 2.2.6.9).
    WrongFlags,
    /// 10: there are bytes behind the last field.
    BytesLeftOver,
    /// 11: the bytes spell a request, and a growth was refused.
    Memory,
}

impl RequestFault {
    /// The number of this fault, from 1 to 11.
    pub fn number(&self) -> u8
        ensures { result ≡ fault_number self.now }
    {
        match self {
            RequestFault::Short => 1,
            RequestFault::WrongTotalLength => 2,
            RequestFault::WrongHeader => 3,
            RequestFault::WrongCount => 4,
            RequestFault::WrongTextLength => 5,
            RequestFault::WrongRequestType => 6,
            RequestFault::WrongIsolation => 7,
            RequestFault::WrongName => 8,
            RequestFault::WrongFlags => 9,
            RequestFault::BytesLeftOver => 10,
            RequestFault::Memory => 11,
        }
    }

    /// Whether it says nothing of the bytes: a growth was refused.
    pub fn is_memory(&self) -> bool
        ensures { IsTrue result ↔ (self.now ≡ Memory) }
    {
        matches!(self, RequestFault::Memory)
    }

    /// The same fault again.
    pub fn again(&self) -> RequestFault
        ensures { result ≡ self.now }
    {
        match self {
            RequestFault::Short => RequestFault::Short,
            RequestFault::WrongTotalLength => RequestFault::WrongTotalLength,
            RequestFault::WrongHeader => RequestFault::WrongHeader,
            RequestFault::WrongCount => RequestFault::WrongCount,
            RequestFault::WrongTextLength => RequestFault::WrongTextLength,
            RequestFault::WrongRequestType => RequestFault::WrongRequestType,
            RequestFault::WrongIsolation => RequestFault::WrongIsolation,
            RequestFault::WrongName => RequestFault::WrongName,
            RequestFault::WrongFlags => RequestFault::WrongFlags,
            RequestFault::BytesLeftOver => RequestFault::BytesLeftOver,
            RequestFault::Memory => RequestFault::Memory,
        }
    }
}

impl From<AllocError> for RequestFault {
    ghost from_gives = { λ _ fault. fault ≡ Memory };

    fn from(_: AllocError) -> RequestFault {
        RequestFault::Memory
    }
}
