//! Why connections are closed.
use tds_listen::ListenFault;
use tds_packet::PacketFault;

/// A connection that is closed for what its server said.
#[derive(Debug, Drop)]
pub(crate) struct Broken {
    pub(crate) number: u64,
    pub(crate) fault: ListenFault,
}

/// A connection that is closed for the header of a packet that came.
#[derive(Debug, Drop)]
pub(crate) struct Refused {
    pub(crate) number: u64,
    pub(crate) fault: PacketFault,
}
