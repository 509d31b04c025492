//! Laws alone: what holds of the connections of `tds_service` before any server that keeps
//! the rules of MS-TDS.
#![tactic(auto)]

pub mod laws;
pub mod table_laws;
