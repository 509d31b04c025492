//! A call at a carrier.

use tds_packet::Direction;

/// A call that a play made at its carrier.
#[derive(Drop)]
pub struct Call {
    /// The event that made it, from 1.
    pub event: u32,
    pub conn: u32,
    pub made: Made,
    /// Whether the connection failed in it.
    pub failed: bool,
}

/// What was asked of a carrier.
#[derive(Drop)]
pub enum Made {
    /// To open the connection.
    Open,
    /// To hand these bytes over.
    Send(Direction, Vec<u8>),
    /// To let bytes come: these came.
    Carry(Direction, Vec<u8>),
    /// To cut the connection.
    Cut,
}
