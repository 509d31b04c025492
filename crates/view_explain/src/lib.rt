//! What is wrong with a schedule file, in words, and where; which events of a play are refused, by which
//! rule; and what else its author may not have meant.
#![tactic(auto)]

mod event;
mod explaining;
mod language;
mod outside;
mod refusals;
mod remarks;
mod similar;

pub use explaining::{Said, what_is_said, why_unplayed, why_unread};
