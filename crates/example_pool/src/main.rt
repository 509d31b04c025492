//! A service that keeps its callers in a slab, with their leases: more callers than connections, and
//! one that vanishes inside a transaction. Clients and servers are in memory.
#![tactic(auto)]

mod line;
mod service;

use service::Service;

fn main(rt: HostRuntime) -> anyhow::Result<()> {
    let mut service = Service::new(&rt, 2)?;
    let first = service.arrive(&rt, "first")?;
    let second = service.arrive(&rt, "second")?;
    let third = service.arrive(&rt, "third")?;
    let fourth = service.arrive(&rt, "fourth")?;
    service.begin(&rt, first)?;
    service.vanish(&rt, first)?;
    service.commit(&rt, third)?;
    service.leave(&rt, second)?;
    service.leave(&rt, fourth)
}
