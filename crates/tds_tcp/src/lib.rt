//! A carrier over TCP: one listener on this machine, and two streams for each connection; and a run
//! over it, from a schedule's bytes to the printed report.
#![tactic(auto)]

mod carrier;
mod flow;
mod pair;
mod past;
mod run;

pub use carrier::TcpCarrier;
pub use run::run_loopback;
