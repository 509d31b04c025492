use std::alloc::AllocError;
use std::fmt::Write;
use tds_request::RequestFault;

/// What ends the showing of bytes.
#[derive(Clone, Copy, Debug)]
pub(crate) enum ShowFault {
    /// The word is none of hexadecimal digits.
    Hexadecimal,
    /// The bytes end inside a packet.
    Cut,
    /// A header has the packet fault of this number.
    Packet(u8),
    /// An answer's data have the token fault of this number.
    Token(u8),
    /// A whole message has the request fault of this number.
    Request(u8),
    /// Memory. This has no line: nothing is shown then.
    Memory,
}

impl ShowFault {
    /// Appends the fault's line.
    pub(crate) fn put(self, text: &mut String) -> Result<(), AllocError> {
        match self {
            ShowFault::Hexadecimal => text.push_str("fault hex\n"),
            ShowFault::Cut => text.push_str("fault cut\n"),
            ShowFault::Packet(number) => writeln!(text, "fault packet {number}"),
            ShowFault::Token(number) => writeln!(text, "fault token {number}"),
            ShowFault::Request(number) => writeln!(text, "fault request {number}"),
            ShowFault::Memory => Ok(()),
        }
    }
}

impl From<AllocError> for ShowFault {
    fn from(_: AllocError) -> ShowFault {
        ShowFault::Memory
    }
}

impl From<RequestFault> for ShowFault {
    fn from(fault: RequestFault) -> ShowFault {
        match fault {
            RequestFault::Memory => ShowFault::Memory,
            fault => ShowFault::Request(fault.number()),
        }
    }
}
