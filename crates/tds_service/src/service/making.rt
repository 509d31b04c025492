//! A service without connections.
ghost use Rattle.std.specs.Prelude.{◌≡◌, ◌≤◌, IfSome, IsSome};
ghost use Rattle.tds_service.specs.Service.{new_service};
ghost use Rattle.tds_service.specs.Sizes.{AllSized};
ghost use Rattle.tds_service.specs.Table.{service_in};

use crate::service::Service;
use std::alloc::Global;
use tds_packet::PacketSize;
use tds_wire::Features;

impl Service {
    /// A service of at most `max` connections, each for packets of this size. `most` is how many columns
    /// of a result they can read, at most 4,096, and `features` what their logins acknowledge. It takes
    /// no memory.
    pub fn new(
        alloc: Global,
        max: usize,
        size: PacketSize,
        most: u16,
        features: Features,
    ) -> Option<Service>
        ensures given { most ≤ 4096 → IsSome result }
        ensures value { IfSome result (λ service. service_in service ≡ new_service max) }
        ensures sized { IfSome result (AllSized size) }
        ensures told { IfSome result (λ service. (service.most ≡ most)
            × (service.features ≡ features)) }
    {
        if most > 4096 {
            return None;
        }
        Some(Service {
            alloc,
            size,
            most,
            features,
            max,
            last: 0,
            given: 0,
            seats: Vec::new(alloc),
            index: Vec::new(alloc),
            latest: 0,
        })
    }
}
