//! Packets painted in characters: level from their sender to a lane, down the lane, level to their receiver.

use crate::breaking::cut_to;
use crate::characters::{Canvas, SERVER};
use crate::scene::{Flight, FlightEnd, Sort};
use std::alloc::{AllocError, Global};
use tds_packet::Direction;

/// Where the wire begins.
const WIRE: usize = 45;

/// Where the lanes run, of what goes to the server and of what goes to the client.
const TO_SERVER: [usize; 4] = [75, 73, 71, 69];

const TO_CLIENT: [usize; 4] = [46, 48, 50, 52];

/// Where a packet's label begins, and ends.
const LABEL: usize = 54;

const LABEL_END: usize = 69;

impl Canvas {
    /// Paints the packets: the lanes first, since nothing goes over them.
    pub(crate) fn paint_flights(
        &mut self,
        alloc: Global,
        flights: &[Flight],
    ) -> Result<(), AllocError> {
        let lanes = self.paint_lanes(alloc, flights)?;
        self.paint_all_runs(alloc, flights, lanes.as_slice())
    }

    /// Paints each packet from its lane and to it.
    fn paint_all_runs(
        &mut self,
        alloc: Global,
        flights: &[Flight],
        lanes: &[usize],
    ) -> Result<(), AllocError> {
        for (flight, lane) in flights.iter().zip(lanes.iter()) {
            self.paint_runs(alloc, flight, *lane)?;
        }
        Ok(())
    }

    /// Paints each packet's lane, the first one that is free, and answers where they are.
    fn paint_lanes(&mut self, alloc: Global, flights: &[Flight]) -> Result<Vec<usize>, AllocError> {
        let mut lanes = Vec::new(alloc);
        for flight in flights {
            let lane = self.free_lane(flight);
            self.paint_lane(flight, lane);
            lanes.push(lane)?;
        }
        Ok(lanes)
    }

    /// The first lane that is free where a packet leaves; the last one where none is.
    fn free_lane(&self, flight: &Flight) -> usize {
        let (lanes, last) = match flight.direction {
            Direction::ToServer => (TO_SERVER, TO_SERVER[3]),
            Direction::ToClient => (TO_CLIENT, TO_CLIENT[3]),
        };
        let line = flight.from.unwrap_or(0);
        for lane in lanes {
            if !self.is_lane(line, lane) {
                return lane;
            }
        }
        last
    }

    fn paint_lane(&mut self, flight: &Flight, lane: usize) {
        let Some(end) = flight.end.line() else {
            return;
        };
        let first = flight.from.unwrap_or(0);
        for line in first..end {
            self.set_lane(line, lane, b'|');
        }
        if flight.from.is_some() {
            self.set_lane(first, lane, b'.');
        }
        for line in flight.parts.iter() {
            self.set_lane(*line, lane, b':');
        }
        if let Some(byte) = end_byte(flight.end) {
            self.set_lane(end, lane, byte);
        }
    }

    /// Paints a packet level from its sender to its lane, and from its lane to its receiver.
    fn paint_runs(
        &mut self,
        alloc: Global,
        flight: &Flight,
        lane: usize,
    ) -> Result<(), AllocError> {
        let runs = Runs::of(flight, lane);
        if let Some(line) = flight.from {
            self.run(line, runs.leaving.0, runs.leaving.1, runs.byte);
            self.paint_name(alloc, flight, line)?;
        }
        for line in flight.parts.iter() {
            self.run(*line, runs.coming.0, runs.coming.1, b'.');
        }
        match flight.end {
            FlightEnd::Came(line) => self.paint_arrival(line, runs, runs.arrow),
            FlightEnd::Thrown(line) => self.paint_arrival(line, runs, b'x'),
            FlightEnd::Underway(line) | FlightEnd::Lost(line) => {
                self.paint_note(flight, line, lane);
            }
            FlightEnd::Hidden(_) | FlightEnd::Open => {}
        }
        Ok(())
    }

    fn paint_arrival(&mut self, line: usize, runs: Runs, head: u8) {
        self.run(line, runs.coming.0, runs.coming.1, runs.byte);
        self.set(line, runs.head, head);
    }

    /// Paints what stands beside a loose end, on the receiver's side and behind the other lanes there.
    fn paint_note(&mut self, flight: &Flight, line: usize, lane: usize) {
        let note = flight.note.as_str();
        let mut column = lane;
        match flight.direction {
            Direction::ToClient => {
                for other in TO_CLIENT {
                    if self.is_lane(line, other) {
                        column = column.max(other);
                    }
                }
                self.write(line, column.saturating_add(2), note);
            }
            Direction::ToServer => {
                for other in TO_SERVER {
                    if self.is_lane(line, other) {
                        column = column.min(other);
                    }
                }
                let column = column.saturating_sub(note.len().saturating_add(1));
                self.write(line, column, note);
            }
        }
    }

    /// Paints a packet's label at its sender's end.
    fn paint_name(
        &mut self,
        alloc: Global,
        flight: &Flight,
        line: usize,
    ) -> Result<(), AllocError> {
        let text = name_text(alloc, flight)?;
        let column = match flight.direction {
            Direction::ToServer => LABEL,
            Direction::ToClient => LABEL_END.saturating_sub(text.len()),
        };
        self.write(line, column, text.as_str());
        Ok(())
    }
}

/// A packet's label; where it is too long, without the size.
fn name_text(alloc: Global, flight: &Flight) -> Result<String, AllocError> {
    let width = LABEL_END.saturating_sub(LABEL);
    let text = format!(in alloc; "{}:{} {}", flight.request, flight.name, flight.size)?;
    match text.len() <= width {
        true => Ok(text),
        false => short_name(alloc, flight, width),
    }
}

fn short_name(alloc: Global, flight: &Flight, width: usize) -> Result<String, AllocError> {
    let text = format!(in alloc; "{}:{}", flight.request, flight.name)?;
    cut_to(alloc, text.as_str(), width)
}

/// What stands at the end of a lane.
fn end_byte(end: FlightEnd) -> Option<u8> {
    match end {
        FlightEnd::Came(_) | FlightEnd::Thrown(_) => Some(b'\''),
        FlightEnd::Underway(_) => Some(b'o'),
        FlightEnd::Lost(_) => Some(b'x'),
        FlightEnd::Hidden(_) | FlightEnd::Open => None,
    }
}

/// A packet's two level runs, each from a column to behind another one.
#[derive(Clone, Copy)]
struct Runs {
    /// From its sender to its lane.
    leaving: (usize, usize),
    /// From its lane to its receiver.
    coming: (usize, usize),
    /// What they are painted with.
    byte: u8,
    /// The column of its arrow, and the arrow.
    head: usize,
    arrow: u8,
}

impl Runs {
    fn of(flight: &Flight, lane: usize) -> Runs {
        let byte = match flight.sort {
            Sort::Attention | Sort::Acknowledgement => b'=',
            Sort::Ignore => b'~',
            Sort::Request | Sort::Answer => b'-',
        };
        let left = (WIRE, lane);
        let right = (lane.saturating_add(1), SERVER);
        match flight.direction {
            Direction::ToServer => Runs {
                leaving: left,
                coming: right,
                byte,
                head: SERVER.saturating_sub(1),
                arrow: b'>',
            },
            Direction::ToClient => Runs {
                leaving: right,
                coming: left,
                byte,
                head: WIRE,
                arrow: b'<',
            },
        }
    }
}
