//! Who is behind a connection that a proxy opened: the header of the PROXY protocol, version 2, which stands
//! before the connection's own bytes. Nothing here does input or output.
//!
//! [`read`] says how many bytes more belong to the header, so that a reader asks its socket for these and
//! for none of those behind them.
#![tactic(auto)]

mod header;
mod laws;
mod reader;
mod source;

pub use header::{Found, LONGEST, read};
pub use laws::{a_client_is_named, what_follows_changes_nothing};
pub use reader::{HeaderReader, Taken};
pub use source::Source;
