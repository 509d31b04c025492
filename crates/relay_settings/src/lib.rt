//! What a relay is set to: the arguments of its command line, its configuration file, and what is wrong with them.
#![tactic(auto)]

mod arguments;
mod config;
mod counts;
mod fault;
mod keys;
mod limits;
mod named;
mod near;
mod proxies;
mod servers;
mod share;
mod system;
mod table;

pub use arguments::{Asked, Settings, is_reached_at, read_arguments};
pub use fault::{Bar, RelayFault};
pub use limits::{TimeLimits, is_beyond, lesser};
pub use named::{Named, named_by};
pub use proxies::Proxies;
pub use servers::{MOST as MOST_SERVERS, Servers, bit, server_of};
pub use share::Share;
pub use system::SystemError;
