//! Laws alone: an application behind `tds_relay` is answered as by a server of its own.
#![tactic(auto)]

pub mod laws;
