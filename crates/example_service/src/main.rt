//! A service in front of servers over sockets, five callers over two connections: a cancel that crosses
//! its answer, a caller that vanishes, a connection that is cleaned, a server that answers unasked.
#![tactic(auto)]

mod caller;
mod server;
mod table;
mod wire;

use caller::Plan;
use table::Table;

fn main(rt: HostRuntime) -> anyhow::Result<()> {
    let mut table = Table::new(&rt, 2)?;
    table.arrive("anna", Plan::Ask("set a 5;get a"))?;
    table.arrive("ben", Plan::Cancel("rows 1 3"))?;
    table.arrive("cleo", Plan::Ask("get a"))?;
    table.arrive("dora", Plan::Vanish("rows 1 3"))?;
    table.arrive("emil", Plan::BeLiedTo)?;
    table.round(&rt)?;
    table.round(&rt)?;
    table.round(&rt)?;
    Ok(())
}
