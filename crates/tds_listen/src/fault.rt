//! Why a client is broken by an answer.

ghost use Rattle.std.specs.Prelude.{◌≡◌};
ghost use Rattle.tds_listen.specs.Faults.{fault_number};

use tds_client::ClientFault;
use tds_wire::Refusal;

/// Why a client is broken by an answer. Nothing behind the fault is told.
#[derive(Debug, Drop)]
pub enum ListenFault {
    /// 1: the client refused what it heard. Its fault has a number of its own.
    Client(ClientFault),
    /// 2: the bytes are no tokens of TDS 7.2 to 7.4.
    Wire(Refusal),
    /// 3: a message ended inside a token, and no attention was out (MS-TDS 2.2.7).
    Cut,
    /// 4: a request that asked for a reset has its whole answer, and no ENVCHANGE 18 was among it
    /// (MS-TDS 2.2.7.9).
    ResetUnanswered,
}

impl ListenFault {
    /// The fault's number, 1 to 4.
    pub fn number(&self) -> u8
        ensures { result ≡ fault_number self.now }
    {
        match self {
            ListenFault::Client(_) => 1,
            ListenFault::Wire(_) => 2,
            ListenFault::Cut => 3,
            ListenFault::ResetUnanswered => 4,
        }
    }
}
