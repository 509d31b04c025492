//! A play, and what went over each connection in it.

use crate::conns::conn_of;
use crate::packets::{Packet, packets_of};
use std::alloc::{AllocError, Global};
use tds_packet::PacketSize;
use tds_play::{Event, EventReport, PlayRefusal, Report, Setup};
use tds_trace::{Trace, play_traced};

/// What went over each connection in a play.
#[derive(Drop)]
pub struct Exchange {
    pub setup: Setup,
    pub events: Vec<Event>,
    pub report: Report,
    /// The connection that each event was about, in the order of the events, also where it was
    /// refused; none where it was about all, or about none that there is.
    pub conns: Vec<Option<u32>>,
    /// The packets, in the order in which they were handed over.
    pub packets: Vec<Packet>,
}

/// Plays a schedule over memory, and reads its trace.
pub fn play_kept(alloc: Global, setup: Setup, events: Vec<Event>) -> Result<Exchange, PlayRefusal> {
    let Trace { report, calls } = play_traced(alloc, &setup, events.as_slice())?;
    let packets = match PacketSize::new(setup.packet_size) {
        Some(size) => packets_of(alloc, size, calls.as_slice())?,
        None => Vec::new(alloc),
    };
    let conns = conns_of(alloc, events.as_slice(), report.events.as_slice())?;
    Ok(Exchange {
        setup,
        events,
        report,
        conns,
        packets,
    })
}

/// The connection that each event was about.
fn conns_of(
    alloc: Global,
    events: &[Event],
    told: &[EventReport],
) -> Result<Vec<Option<u32>>, AllocError> {
    let mut conns = Vec::new(alloc);
    for index in 0..events.len() {
        conns.push(conn_of(events, told, index))?;
    }
    Ok(conns)
}
