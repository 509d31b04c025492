//! What a server tells of a session, so that it can be recovered on another connection, or be told to be as a login
//! leaves it: its states, each with a number, the value of the login and the value of now (MS-TDS 2.2.7.11,
//! 2.2.7.21). No input or output happens here.
#![tactic(auto)]

mod names;
mod state;
mod states;
mod tokens;

pub use names::is_state;
pub use states::{Made, States, Vice};
pub use tokens::{put_features, put_session_state};
