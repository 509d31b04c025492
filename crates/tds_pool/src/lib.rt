//! A pool of connections that speak the Tabular Data Stream (MS-TDS): who holds which one, and which
//! one is lent next. It does no input or output; each connection is a `tds_client::Client`.
#![tactic(auto)]

mod answers;
mod clients;
pub mod laws;
mod lease;
mod pool;
mod seat;

pub use answers::{GivenBack, Opened, PoolRefusal};
pub use lease::{Lease, StoredLease, StoredTicket, Ticket, Turn};
pub use pool::Pool;
pub use seat::Place;
