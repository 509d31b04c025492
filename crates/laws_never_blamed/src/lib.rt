//! Laws alone: `tds_judge` never blames the client of `tds_service`.
#![tactic(auto)]

pub mod laws;
pub mod relay_laws;
