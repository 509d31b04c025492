//! Why a service refuses.
ghost use Rattle.std.specs.Prelude.{◌≡◌};
ghost use Rattle.tds_service.specs.Table.{refusal_of};

use tds_client::ClientRefusal;

/// Why a service refuses. A refusal changes nothing.
#[derive(Clone, Copy, Debug, PartialEq, Eq)]
pub enum Refusal {
    /// There is no such lease, ticket or number.
    Unknown,
    /// As many connections are there as may be, and none can be lent.
    AllInUse,
    /// It isn't time for it: the connection isn't idle, has no transaction to be kept, or isn't lent
    /// for this.
    NotNow,
    /// A request is underway.
    NotIdle,
    /// No request is going out.
    NotSending,
    /// The connection is broken.
    Broken,
    /// A growth was refused, or every number was used. The call may be made again.
    Memory,
}

/// What a connection's refusal is to its service.
pub(crate) fn refused(refusal: ClientRefusal) -> Refusal
    ensures { result ≡ refusal_of refusal }
{
    match refusal {
        ClientRefusal::NotIdle => Refusal::NotIdle,
        ClientRefusal::NotSending => Refusal::NotSending,
        ClientRefusal::Broken => Refusal::Broken,
        ClientRefusal::Memory => Refusal::Memory,
    }
}
