//! Laws alone: our own server, as the model has it, keeps the rules by which
//! `laws_conforming_server` knows one.
#![tactic(auto)]

pub mod laws;
