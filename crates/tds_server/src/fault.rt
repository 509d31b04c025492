//! Why a server is broken.
ghost use Rattle.std.specs.Prelude.{◌≡◌};
ghost use Rattle.tds_server.specs.Faults.{fault_number};

use tds_request::RequestFault;

/// Why a server takes nothing any more: what its peer did that the protocol does not allow, or that
/// the connection was lost.
#[derive(Debug, Drop)]
pub enum ServerFault {
    /// 1: a packet of a request came while a request was being answered.
    RequestWhileAnswering,
    /// 2: the packet's type is not that of the message that it goes on with, or is that of no
    /// request which is taken here, as `03` and `07` are (MS-TDS 2.2.3.1.1).
    TypeChanged,
    /// 3: a message's first packet asks for both resets (MS-TDS 2.2.3.1.2).
    BothResets,
    /// 4: an attention has data, or a status other than end of message (MS-TDS 2.2.1.7).
    WrongAttention,
    /// 5: a message has more than 4,022 bytes of data.
    LongMessage,
    /// 6: a whole message is no request.
    WrongRequest(RequestFault),
    /// 7: a packet has the ignore bit without end of message (MS-TDS 2.2.3.1.2).
    IgnoredPart,
    /// 8: the connection was lost.
    Lost,
}

impl ServerFault {
    /// The fault's number, 1 to 8.
    pub fn number(&self) -> u8
        ensures { result ≡ fault_number self.now }
    {
        match self {
            ServerFault::RequestWhileAnswering => 1,
            ServerFault::TypeChanged => 2,
            ServerFault::BothResets => 3,
            ServerFault::WrongAttention => 4,
            ServerFault::LongMessage => 5,
            ServerFault::WrongRequest(_) => 6,
            ServerFault::IgnoredPart => 7,
            ServerFault::Lost => 8,
        }
    }

    /// The same fault again.
    pub fn again(&self) -> ServerFault
        ensures { result ≡ self.now }
    {
        match self {
            ServerFault::RequestWhileAnswering => ServerFault::RequestWhileAnswering,
            ServerFault::TypeChanged => ServerFault::TypeChanged,
            ServerFault::BothResets => ServerFault::BothResets,
            ServerFault::WrongAttention => ServerFault::WrongAttention,
            ServerFault::LongMessage => ServerFault::LongMessage,
            ServerFault::WrongRequest(fault) => ServerFault::WrongRequest(fault.again()),
            ServerFault::IgnoredPart => ServerFault::IgnoredPart,
            ServerFault::Lost => ServerFault::Lost,
        }
    }
}
