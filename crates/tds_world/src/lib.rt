//! The model of pooled, cancellable sessions of the Tabular Data Stream (MS-TDS): what each caller
//! is told, and which bytes lie on the wire, after any schedule of leases, requests, cancels,
//! deliveries, cuts and restarts.
//!
//! The types here are what a play is given and what it answers. The model itself is the definitions
//! in `specs/`; nothing in this crate moves a byte.
#![tactic(auto)]

mod event;
pub mod laws;
pub mod losses;
mod outcome;
pub mod report;
mod sequence;

pub use event::{Event, Setup};
pub use outcome::{
    AbandonOutcome, CancelOutcome, End, GiveBackOutcome, Layer, Opened, Outcome, Refusal,
    SendOutcome, WorkOutcome,
};
pub use report::{ClientView, EventReport, Place, Report, RequestReport, RequestStatus, Snapshot};
pub use sequence::Sequence;
