//! What is drawn of a connection: its packets round its most serious finding.

use crate::packets::{Packet, Packets};
use std::alloc::{AllocError, Global};
use std::io;
use tds_judge::{Direction, Finding, Level, Name};

/// How many packets are drawn before the finding, and with it and behind it.
const BEFORE: usize = 8;

const BEHIND: usize = 4;

/// A connection that is to be drawn.
#[derive(Drop)]
pub struct Drawn {
    pub stream: u64,
    packets: Packets,
    /// The newest packets, and those round the finding.
    recent: Vec<Packet>,
    kept: Vec<Packet>,
    behind: usize,
    finding: Option<Finding>,
    is_seen: bool,
}

impl Drawn {
    pub fn new(alloc: Global, stream: u64) -> io::Result<Drawn> {
        Ok(Drawn {
            stream,
            packets: Packets::new(alloc, 4096)?,
            recent: Vec::new(alloc),
            kept: Vec::new(alloc),
            behind: 0,
            finding: None,
            is_seen: false,
        })
    }

    /// How many of these bytes belong together: the judge is handed no more at once.
    pub fn count(&mut self, direction: Direction, most: usize) -> usize {
        self.packets.count(direction, most)
    }

    /// Takes bytes that belong together, and what was found of them.
    pub fn take(
        &mut self,
        direction: Direction,
        time: u64,
        bytes: &[u8],
        found: &[Finding],
    ) -> Result<(), AllocError> {
        self.is_seen = true;
        let packet = self.packets.take(direction, time, bytes);
        for finding in found {
            self.find(*finding)?;
        }
        match packet {
            Some(packet) => self.keep(packet),
            None => Ok(()),
        }
    }

    /// Something was found. What is more serious than what was found before is drawn in its place.
    pub fn find(&mut self, finding: Finding) -> Result<(), AllocError> {
        if let Name::TakenUp = finding.name {
            let spot = finding.spot;
            self.packets.begin_behind(spot.direction, spot.offset);
        }
        let is_more = match self.finding {
            Some(before) => weight(finding.name) > weight(before.name),
            None => true,
        };
        if is_more {
            self.finding = Some(finding);
            self.kept.clear();
            self.kept.extend_from_slice(self.recent.as_slice())?;
            self.behind = BEHIND;
        }
        Ok(())
    }

    /// The connection is closed: its number may be used again.
    pub fn close(&mut self) -> Result<(), AllocError> {
        if let None = self.finding {
            self.kept.clear();
            self.kept.extend_from_slice(self.recent.as_slice())?;
        }
        self.packets.restart();
        self.recent.clear();
        self.behind = 0;
        Ok(())
    }

    /// A packet was seen whole.
    fn keep(&mut self, packet: Packet) -> Result<(), AllocError> {
        if self.behind > 0 {
            self.behind = self.behind.saturating_sub(1);
            self.kept.push(packet)?;
        }
        if self.recent.len() >= BEFORE {
            self.recent.remove(0);
        }
        self.recent.push(packet)?;
        Ok(())
    }

    /// What is drawn: the finding, where there is one, and the packets; none where nothing was seen.
    pub fn shown(&self) -> Option<(Option<Finding>, &[Packet])> {
        match self.finding {
            _ if !self.is_seen => None,
            Some(finding) => Some((Some(finding), self.kept.as_slice())),
            None if self.recent.is_empty() => Some((None, self.kept.as_slice())),
            None => Some((None, self.recent.as_slice())),
        }
    }
}

/// How serious a finding is.
fn weight(name: Name) -> u8 {
    match name.level() {
        Level::Breach => 2,
        Level::Risk => 1,
        Level::Note => 0,
    }
}
