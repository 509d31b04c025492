//! What `tdsserve` does with answers, to put a driver where it hurts: a [`Script`], as a file says it, or what was
//! recorded.
#![tactic(auto)]

mod script;

pub use script::{Breach, Event, Orders, Pattern, Reply, Script, ScriptFault, Which, read_script};
