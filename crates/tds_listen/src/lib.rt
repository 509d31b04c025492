//! A client's end over the answers of any server of TDS 7.2 to 7.4: where each token ends, what the
//! client hears of it, and which tokens the caller may be told, as bytes come in pieces of any size.
#![tactic(auto)]

mod fault;
mod hearing;
pub mod laws;
mod sign;

pub use fault::ListenFault;
pub use hearing::{Heard, hear_data, hear_end, hear_packet, next, next_to, next_whole, pass_rows};
pub use sign::sign_of;
