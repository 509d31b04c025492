//! Packets that come.

use crate::answers::{Which, count_told, has_change, tokens_of, told};
use crate::drawing::{Drawing, Moment, Task};
use crate::wording::{put_descriptor, session_text};
use std::alloc::AllocError;
use tds_packet::Direction;
use tds_token::Token;
use view_paint::{BarMark, Flight, FlightEnd, Look, Sort, Spot};
use view_trace::Packet;

impl<'a> Drawing<'a> {
    /// Lets so many bytes come.
    pub(crate) fn deliver(
        &mut self,
        direction: Direction,
        count: u32,
        moment: Moment<'a>,
    ) -> Result<(), AllocError> {
        let spot = match direction {
            Direction::ToServer => Spot::Server,
            Direction::ToClient => Spot::Client,
        };
        if count == 0 {
            self.say(spot, Look::Muted, false, "nothing came")?;
        }
        let mut left = u64::from(count);
        for index in 0..self.panel.flights.len() {
            if left == 0 {
                break;
            }
            match self.panel.flights.get_mut(index) {
                Some(flight) if flight.direction == direction && flight.end == FlightEnd::Open => {
                    left = left.saturating_sub(take_bytes(flight, left));
                    self.arrive(index, spot, moment)?;
                }
                _ => {}
            }
        }
        Ok(())
    }

    /// Tells what has come of a packet: a part of it, or all.
    fn arrive(&mut self, index: usize, spot: Spot, moment: Moment<'a>) -> Result<(), AllocError> {
        let Some(flight) = self.panel.flights.get(index) else {
            return Ok(());
        };
        let (came, size) = (flight.came, flight.size);
        if came < size {
            let text = format!(in self.alloc; "{came} of {size} bytes")?;
            let line = self.say(spot, Look::Muted, false, text.as_str())?;
            if let Some(flight) = self.panel.flights.get_mut(index) {
                flight.parts.push(line)?;
            }
            return Ok(());
        }
        let end = self.come(index, moment)?;
        if let Some(flight) = self.panel.flights.get_mut(index) {
            flight.end = end;
        }
        Ok(())
    }

    /// Lets a packet come, and answers how it ends.
    fn come(&mut self, index: usize, moment: Moment<'a>) -> Result<FlightEnd, AllocError> {
        let exchange = self.exchange;
        let Some(flight) = self.panel.flights.get(index) else {
            return Ok(FlightEnd::Open);
        };
        let sort = flight.sort;
        let Some(packet) = exchange.packets.as_slice().get(flight.packet) else {
            return Ok(FlightEnd::Open);
        };
        match sort {
            Sort::Request => self.take_request(packet),
            Sort::Ignore => {
                let line = self.say(Spot::Server, Look::Muted, true, "forgets it, runs nothing")?;
                self.task = Task::Nothing;
                self.mark(line.saturating_add(1), BarMark::Life)?;
                Ok(FlightEnd::Came(line))
            }
            Sort::Attention => self.take_attention(moment),
            Sort::Answer => self.take_answer(packet, moment),
            Sort::Acknowledgement => {
                let line = self.say(Spot::Client, Look::Bold, true, "acknowledged")?;
                self.row.settled = Some(line);
                let tokens = tokens_of(self.alloc, packet.data())?;
                self.hear(tokens.as_slice(), moment)?;
                Ok(FlightEnd::Came(line))
            }
        }
    }

    fn take_request(&mut self, packet: &Packet) -> Result<FlightEnd, AllocError> {
        if packet.header.status.ends() {
            let line = self.say(Spot::Server, Look::Muted, true, "has the request")?;
            self.task = Task::Whole { done: 0 };
            self.mark(line, BarMark::Busy)?;
            return Ok(FlightEnd::Came(line));
        }
        let count = match self.asked_request() {
            Some(request) => self.packets_of(request),
            None => 0,
        };
        let text = format!(in self.alloc; "{} of {count} packets", packet.header.packet_id)?;
        let line = self.say(Spot::Server, Look::Muted, false, text.as_str())?;
        self.task = Task::Part;
        self.mark(line, BarMark::Passing)?;
        Ok(FlightEnd::Came(line))
    }

    /// Lets an attention come: the server stops, and acknowledges it.
    fn take_attention(&mut self, moment: Moment<'a>) -> Result<FlightEnd, AllocError> {
        let text = match self.task {
            Task::Nothing | Task::Part => String::from_str(self.alloc, "never had it whole")?,
            Task::Whole { done: 0 } => String::from_str(self.alloc, "stops, nothing was run")?,
            Task::Whole { done: 1 } => String::from_str(self.alloc, "stops after 1 step")?,
            Task::Whole { done } => format!(in self.alloc; "stops after {done} steps")?,
            Task::Out => String::from_str(self.alloc, "answer was out already")?,
        };
        let line = self.say(Spot::Server, Look::Bold, true, text.as_str())?;
        self.task = Task::Nothing;
        self.mark(line.saturating_add(1), BarMark::Life)?;
        if let Some(index) = self.next_packet(moment.number) {
            let tokens = self.tokens_at(index, Which::All)?;
            let last = self.say(Spot::Server, Look::Plain, false, tokens.as_str())?;
            self.depart(last, index)?;
        }
        self.tell_session(moment)?;
        Ok(FlightEnd::Came(line))
    }

    /// The tokens of a packet of the play, in words.
    pub(crate) fn tokens_at(&self, index: usize, which: Which) -> Result<String, AllocError> {
        match self.exchange.packets.as_slice().get(index) {
            None => Ok(String::new(self.alloc)),
            Some(packet) => {
                let tokens = tokens_of(self.alloc, packet.data())?;
                told(self.alloc, tokens.as_slice(), which)
            }
        }
    }

    fn take_answer(
        &mut self,
        packet: &Packet,
        moment: Moment<'a>,
    ) -> Result<FlightEnd, AllocError> {
        let tokens = tokens_of(self.alloc, packet.data())?;
        let is_thrown = self.is_thrown(tokens.as_slice());
        let end = self.tell_answer(tokens.as_slice(), is_thrown)?;
        if packet.header.status.ends() {
            match is_thrown {
                true => {
                    self.say(Spot::Client, Look::Bold, false, "waits for DONE attn")?;
                }
                false => self.row.settled = end.line(),
            }
        }
        self.hear(tokens.as_slice(), moment)?;
        Ok(end)
    }

    /// Whether tokens that come were thrown away: the caller was given none so far behind those before
    /// them, by the report.
    fn is_thrown(&mut self, tokens: &[Token]) -> bool {
        self.came = self.came.saturating_add(count_told(tokens));
        let requests = self.exchange.report.requests.as_slice();
        let request = requests.get((self.request as usize).saturating_sub(1));
        let given = request.map(|it| it.tokens.as_slice().len());
        self.came > given.unwrap_or(0)
    }

    /// Tells a packet of an answer: what its caller is given, or would have been given; else what the client hears.
    fn tell_answer(&mut self, tokens: &[Token], is_thrown: bool) -> Result<FlightEnd, AllocError> {
        let given = told(self.alloc, tokens, Which::Told)?;
        if given.is_empty() {
            let heard = told(self.alloc, tokens, Which::Heard)?;
            let line = self.say(Spot::Client, Look::Muted, false, heard.as_str())?;
            return Ok(FlightEnd::Came(line));
        }
        if is_thrown {
            let line = self.say(Spot::Client, Look::Struck, false, given.as_str())?;
            return Ok(FlightEnd::Thrown(line));
        }
        let line = self.say(Spot::Told, Look::Plain, false, given.as_str())?;
        Ok(FlightEnd::Came(line))
    }

    /// Tells the transaction that the client has heard of, where a packet that comes in this event changed it.
    fn hear(&mut self, tokens: &[Token], moment: Moment<'a>) -> Result<(), AllocError> {
        let Some(after) = moment.after else {
            return Ok(());
        };
        if has_change(tokens) && after.descriptor != self.heard {
            self.heard = after.descriptor;
            let mut text = String::new(self.alloc);
            put_descriptor(&mut text, self.heard)?;
            self.say(Spot::Client, Look::Pill, false, text.as_str())?;
        }
        Ok(())
    }

    /// Tells the server's session where the event changed it.
    pub(crate) fn tell_session(&mut self, moment: Moment<'a>) -> Result<(), AllocError> {
        let (Some(before), Some(after)) = (moment.before, moment.after) else {
            return Ok(());
        };
        let is_same = before.server.descriptor() == after.server.descriptor()
            && before.server.settings() == after.server.settings();
        if !is_same {
            let text = session_text(self.alloc, &after.server, Some(&before.server))?;
            self.say(Spot::Server, Look::Pill, false, text.as_str())?;
        }
        Ok(())
    }
}

/// Lets bytes of a packet come, at most so many, and answers how many.
fn take_bytes(flight: &mut Flight, most: u64) -> u64 {
    let part = most.min(flight.size.saturating_sub(flight.came));
    flight.came = flight.came.saturating_add(part);
    part
}
