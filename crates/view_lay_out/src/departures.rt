//! Packets that leave.

use crate::drawing::{Drawing, Task};
use crate::wording::request_word;
use std::alloc::AllocError;
use std::fmt::Write;
use tds_packet::{Direction, Kind, Reset};
use tds_play::{Event, Outcome};
use tds_request::Request;
use view_paint::{Flight, FlightEnd, Sort};
use view_trace::Packet;

impl<'a> Drawing<'a> {
    /// Takes the next packet that leaves in this event, if there is one.
    pub(crate) fn next_packet(&mut self, number: usize) -> Option<usize> {
        let exchange = self.exchange;
        for (index, packet) in exchange.packets.iter().enumerate().skip(self.left) {
            if packet.event > number {
                return None;
            }
            self.left = index.saturating_add(1);
            if packet.event == number && packet.conn == self.conn {
                return Some(index);
            }
        }
        None
    }

    /// Lets the packets of this event leave, each in a line of its own, the first one in the row's first line.
    pub(crate) fn depart_all(&mut self, number: usize) -> Result<(), AllocError> {
        for _ in 0..3 {
            let Some(index) = self.next_packet(number) else {
                break;
            };
            let line = self.row.start.saturating_add(self.row.wire_used);
            self.depart(line, index)?;
            self.row.wire_used = self.row.wire_used.saturating_add(1);
        }
        Ok(())
    }

    /// Lets this packet leave in this line.
    pub(crate) fn depart(&mut self, line: usize, index: usize) -> Result<(), AllocError> {
        let exchange = self.exchange;
        let Some(packet) = exchange.packets.as_slice().get(index) else {
            return Ok(());
        };
        let sort = self.sort_of(packet);
        if sort == Sort::Request && packet.header.status.reset().is_some() {
            self.reset = packet.header.status.reset();
        }
        let name = self.name_of(sort, packet, index)?;
        self.panel.flights.push(Flight {
            direction: packet.direction,
            sort,
            request: self.request,
            name,
            size: packet.size(),
            came: 0,
            packet: index,
            from: Some(line),
            parts: Vec::new(self.alloc),
            end: FlightEnd::Open,
            note: String::new(self.alloc),
        })?;
        Ok(())
    }

    fn sort_of(&self, packet: &Packet) -> Sort {
        match packet.direction {
            Direction::ToServer if packet.header.kind == Kind::Attention => Sort::Attention,
            Direction::ToServer if packet.header.status.is_ignored() => Sort::Ignore,
            Direction::ToServer => Sort::Request,
            Direction::ToClient if self.is_worked(packet) => Sort::Answer,
            Direction::ToClient => Sort::Acknowledgement,
        }
    }

    /// Whether a packet left in an event in which its server worked.
    fn is_worked(&self, packet: &Packet) -> bool {
        let told = self.exchange.report.events.as_slice();
        let event = told.get(packet.event.saturating_sub(1));
        event.is_some_and(|it| matches!(it.outcome, Outcome::Work(_)))
    }

    fn name_of(&self, sort: Sort, packet: &Packet, index: usize) -> Result<String, AllocError> {
        let alloc = self.alloc;
        match sort {
            Sort::Ignore => String::from_str(alloc, "IGNORE"),
            Sort::Attention => String::from_str(alloc, "ATTENTION"),
            Sort::Acknowledgement => String::from_str(alloc, "ACK"),
            Sort::Answer => {
                let done = match self.task {
                    Task::Whole { done } => done,
                    _ => 0,
                };
                let place = done.saturating_add(1);
                match self.answers_from(index) {
                    Some(left) => format!(in alloc; "answer {place}/{}", done.saturating_add(left)),
                    None => format!(in alloc; "answer {place}"),
                }
            }
            Sort::Request => self.request_name(packet),
        }
    }

    fn request_name(&self, packet: &Packet) -> Result<String, AllocError> {
        let Some(request) = self.asked_request() else {
            return String::from_str(self.alloc, "request");
        };
        let mut name = String::from_str(self.alloc, request_word(request))?;
        let count = self.packets_of(request);
        if count > 1 {
            write!(name, " {}/{count}", packet.header.packet_id)?;
        }
        match packet.header.status.reset() {
            Some(Reset::Full) => name.push_str(" +RESET")?,
            Some(Reset::KeepTransaction) => name.push_str(" +SKIPTRAN")?,
            None => {}
        }
        Ok(name)
    }

    /// The request that the connection is about.
    pub(crate) fn asked_request(&self) -> Option<&'a Request> {
        let place = (self.request as usize).checked_sub(1)?;
        let index = self.asked.get(place)?;
        let exchange = self.exchange;
        match exchange.events.as_slice().get(*index)? {
            Event::Ask(_, request) => Some(request),
            _ => None,
        }
    }

    /// How many packets a request has: a batch has two bytes a unit behind 22 bytes of headers (MS-TDS 2.2.6.7), and the
    /// others fit one packet.
    pub(crate) fn packets_of(&self, request: &Request) -> usize {
        let room = usize::from(self.exchange.setup.packet_size).saturating_sub(8);
        let bytes = match request {
            Request::Batch(text) => text.units().len().saturating_mul(2).saturating_add(22),
            _ => 0,
        };
        let before = bytes.saturating_sub(1).checked_div(room).unwrap_or(0);
        before.saturating_add(1)
    }

    /// How many packets of an answer are left with this one, where all of them are out at some time.
    fn answers_from(&self, index: usize) -> Option<usize> {
        let mut count = 0usize;
        for packet in self.exchange.packets.iter().skip(index) {
            if packet.conn != self.conn || packet.direction == Direction::ToServer {
                continue;
            }
            if !self.is_worked(packet) {
                return None;
            }
            count = count.saturating_add(1);
            if packet.header.status.ends() {
                return Some(count);
            }
        }
        None
    }
}
