//! The service.
ghost use Rattle.std.specs.Prelude.{◌≤◌, suc, vec_capacity};
ghost use Rattle.tds_service.specs.Index.{IsIndex, IsIndex-prop, holders_in};
ghost use Rattle.tds_service.specs.Rising.{RiseFrom, RiseFrom-prop, numbers_in};

mod asking;
mod coming;
mod finding;
mod giving;
mod lending;
mod looking;
mod making;

use crate::index::Indexed;
use crate::seat::Seat;
pub use asking::Asked;
pub use lending::Lent;
use std::alloc::Global;
use tds_packet::PacketSize;
use tds_wire::Features;

/// Connections that callers share, before any server. It does no input or output: bytes that came go
/// in, and bytes to be sent are appended, for the connection whose number is answered.
#[derive(Drop)]
pub struct Service {
    alloc: Global,
    size: PacketSize,
    most: u16,
    features: Features,
    max: usize,
    last: u64,
    given: u64,
    seats: Vec<Seat>,
    index: Vec<Indexed>,
    /// Where a connection was found last: looked at first, and no more than a guess.
    latest: usize,
    ghost columns: { most ≤ 4096 },
    ghost rising: { RiseFrom 0 (numbers_in
        seats.items) (suc last) } by { RiseFrom-prop 0 (numbers_in seats.items) (suc last) },
    ghost indexed: { IsIndex (holders_in seats.items) index.items given (vec_capacity
        index) } by { IsIndex-prop (holders_in seats.items) index.items given
            (vec_capacity index) },
}
