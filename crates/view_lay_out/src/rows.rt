//! The row of an event.

use crate::answers::{Which, is_no_language, tokens_of, told};
use crate::drawing::{Drawing, Moment, NOTHING, Task};
use crate::wording::{client_text, mark_text, refusal_text, request_text, session_text};
use std::alloc::{AllocError, Global};
use tds_packet::Direction;
use tds_play::{
    AbandonOutcome, CancelOutcome, ClientView, GiveBackOutcome, Opened, Outcome, Place, Snapshot,
    WorkOutcome,
};
use tds_request::Request;
use tds_text::put_units;
use view_paint::{BarMark, Flight, FlightEnd, Look, Spot, cut_to};

/// How wide a statement is shown.
const STATEMENT: usize = 18;

impl<'a> Drawing<'a> {
    /// Draws the row of the event of this number.
    pub(crate) fn draw_event(&mut self, number: usize) -> Result<(), AllocError> {
        let exchange = self.exchange;
        let index = number.saturating_sub(1);
        let Some(told) = exchange.report.events.as_slice().get(index) else {
            return Ok(());
        };
        let outcome = told.outcome;
        let mut opens = false;
        if let Outcome::Leased {
            conn,
            opened: Opened::New,
            ..
        } = outcome
        {
            opens = true;
            self.open(conn);
        }
        let moment = Moment {
            number,
            before: self.shown_at(number.saturating_sub(1)),
            after: self.shown_at(number),
            opens,
        };
        self.begin_row(outcome, moment);
        self.draw_outcome(outcome, moment)?;
        if moment.before.is_some() && moment.after.is_none() {
            self.draw_loss(moment)?;
        }
        Ok(())
    }

    /// Draws the row of an event that is about no connection of the panel.
    pub(crate) fn draw_pause(&mut self, number: usize) {
        let moment = self.resting(number);
        self.begin_row(NOTHING, moment);
    }

    /// The connection as it is after the event of this number, and stays.
    fn resting(&self, number: usize) -> Moment<'a> {
        let shown = self.shown_at(number);
        Moment {
            number: 0,
            before: shown,
            after: shown,
            opens: false,
        }
    }

    fn open(&mut self, conn: u32) {
        self.conn = conn;
        self.request = 0;
        self.reset = None;
        self.task = Task::Nothing;
        self.came = 0;
        self.heard = 0;
    }

    /// The connection as it is after the event of this number.
    fn shown_at(&self, number: usize) -> Option<&'a Snapshot> {
        let exchange = self.exchange;
        let told = exchange
            .report
            .events
            .as_slice()
            .get(number.checked_sub(1)?)?;
        let conn = self.conn;
        told.snapshots
            .as_slice()
            .iter()
            .find(|shown| shown.conn == conn)
    }

    fn draw_outcome(&mut self, outcome: Outcome, moment: Moment<'a>) -> Result<(), AllocError> {
        match outcome {
            Outcome::Leased { opened, .. } => self.draw_lease(opened, moment),
            Outcome::GivenBack(outcome) => self.draw_give_back(outcome, moment),
            Outcome::Kept(_) => self.note("kept"),
            Outcome::Abandoned(AbandonOutcome::Free) => self.note("abandoned, free"),
            Outcome::Abandoned(AbandonOutcome::Closed) => self.note("abandoned, closed"),
            Outcome::Cleaning { request, .. } => self.draw_cleaning(request, moment),
            Outcome::Asked(request) => self.draw_ask(request),
            Outcome::Sent(_) => self.depart_all(moment.number),
            Outcome::Cancel(outcome) => self.draw_cancel(outcome, moment),
            Outcome::Work(outcome) => self.draw_work(outcome, moment),
            Outcome::ToServer(count) => self.deliver(Direction::ToServer, count, moment),
            Outcome::ToClient(count) => self.draw_to_client(count, moment),
            Outcome::Cut | Outcome::RestartedServer | Outcome::RestartedClient => Ok(()),
            Outcome::Refused(why) => {
                self.say(Spot::Place, Look::Red, false, refusal_text(why))?;
                Ok(())
            }
            Outcome::Fault { .. } => {
                self.say(Spot::Client, Look::Red, false, "bytes refused")?;
                Ok(())
            }
        }
    }

    fn note(&mut self, text: &str) -> Result<(), AllocError> {
        self.say(Spot::Place, Look::Muted, false, text)?;
        Ok(())
    }

    fn draw_lease(&mut self, opened: Opened, moment: Moment<'a>) -> Result<(), AllocError> {
        self.note(match opened {
            Opened::New => "new",
            Opened::Reused => "reused",
            Opened::Resumed => "resumed",
        })?;
        if let Some(mark) = moment.after.and_then(|it| it.mark) {
            self.say(Spot::Client, Look::Pill, false, mark_text(mark))?;
        }
        Ok(())
    }

    fn draw_give_back(
        &mut self,
        outcome: GiveBackOutcome,
        moment: Moment<'a>,
    ) -> Result<(), AllocError> {
        match outcome {
            GiveBackOutcome::Closed => self.note("given back closed"),
            GiveBackOutcome::Draining => {
                self.note("given back, drains")?;
                self.depart_all(moment.number)
            }
            GiveBackOutcome::Free => {
                self.note("given back, free")?;
                if moment
                    .before
                    .is_some_and(|it| it.client == ClientView::Sending)
                {
                    self.say(Spot::Client, Look::Muted, true, "never sent")?;
                }
                Ok(())
            }
        }
    }

    /// The pool asks by itself, and its request goes out at once.
    fn draw_cleaning(&mut self, request: u32, moment: Moment<'a>) -> Result<(), AllocError> {
        self.note("cleaned")?;
        self.draw_ask(request)?;
        self.depart_all(moment.number)
    }

    fn draw_ask(&mut self, request: u32) -> Result<(), AllocError> {
        self.request = request;
        self.reset = None;
        self.came = 0;
        let text = match self.asked_request() {
            None => String::new(self.alloc),
            Some(request) => request_text(self.alloc, request)?,
        };
        self.row.asked = self.say(Spot::Asked, Look::Plain, true, text.as_str())?;
        Ok(())
    }

    fn draw_cancel(
        &mut self,
        outcome: CancelOutcome,
        moment: Moment<'a>,
    ) -> Result<(), AllocError> {
        let (look, has_badge, text) = match outcome {
            CancelOutcome::Asked => (Look::Bold, true, "cancel"),
            CancelOutcome::Unsent => (Look::Plain, true, "cancel: never sent"),
            CancelOutcome::Already => (Look::Plain, true, "cancel, again"),
            CancelOutcome::Nothing => (Look::Plain, false, "cancel: nothing to do"),
        };
        self.say(Spot::Asked, look, has_badge, text)?;
        self.depart_all(moment.number)
    }

    fn draw_work(&mut self, outcome: WorkOutcome, moment: Moment<'a>) -> Result<(), AllocError> {
        let Some(index) = self.next_packet(moment.number) else {
            self.say(Spot::Server, Look::Muted, false, "nothing to do")?;
            return Ok(());
        };
        let text = self.step_text(index)?;
        let line = self.server_line();
        self.depart(line, index)?;
        self.say(Spot::Server, Look::Plain, false, text.as_str())?;
        if let Task::Whole { done } = self.task {
            self.task = Task::Whole {
                done: done.saturating_add(1),
            };
        }
        if outcome == WorkOutcome::Finished {
            self.task = Task::Out;
            self.mark(line.saturating_add(1), BarMark::Life)?;
        }
        self.tell_session(moment)
    }

    /// What the server does in a step with this packet: its statement, where it runs one, and its tokens.
    fn step_text(&self, index: usize) -> Result<String, AllocError> {
        let Some(packet) = self.exchange.packets.as_slice().get(index) else {
            return Ok(String::new(self.alloc));
        };
        let tokens = tokens_of(self.alloc, packet.data())?;
        let runs = !packet.header.status.ends() && !is_no_language(tokens.as_slice());
        let mut text = match runs {
            true => self.statement()?,
            false => String::new(self.alloc),
        };
        text.push_str(told(self.alloc, tokens.as_slice(), Which::All)?.as_str())?;
        Ok(text)
    }

    /// The statement that is run next, and a colon.
    fn statement(&self) -> Result<String, AllocError> {
        let mut shown = String::new(self.alloc);
        let Some(units) = self.next_statement() else {
            return Ok(shown);
        };
        put_units(&mut shown, units)?;
        shown = cut_to(self.alloc, shown.as_str(), STATEMENT)?;
        shown.push_str(": ")?;
        Ok(shown)
    }

    /// The statement that is run next: a reset has the first step where one is asked for.
    fn next_statement(&self) -> Option<&'a [u16]> {
        let (Task::Whole { done }, Some(Request::Batch(text))) = (self.task, self.asked_request())
        else {
            return None;
        };
        let place = done.checked_sub(usize::from(self.reset.is_some()))?;
        let semicolon = u16::from(b';');
        text.units().split(|unit| *unit == semicolon).nth(place)
    }

    fn draw_to_client(&mut self, count: u32, moment: Moment<'a>) -> Result<(), AllocError> {
        self.deliver(Direction::ToClient, count, moment)?;
        let was_draining = moment.before.is_some_and(|it| it.place == Place::Draining);
        if was_draining && moment.after.is_some_and(|it| it.place == Place::Free) {
            self.note("drained, free")?;
        }
        Ok(())
    }

    fn draw_loss(&mut self, moment: Moment<'a>) -> Result<(), AllocError> {
        match moment
            .before
            .is_some_and(|it| it.client != ClientView::Idle)
        {
            true => self.say(Spot::Client, Look::Red, true, "cut: request lost")?,
            false => self.say(Spot::Client, Look::Red, false, "cut")?,
        };
        self.end_flights(true)
    }

    /// Ends what hasn't come, in the row's first lines.
    fn end_flights(&mut self, is_lost: bool) -> Result<(), AllocError> {
        self.end_flights_to(Direction::ToServer, is_lost)?;
        self.end_flights_to(Direction::ToClient, is_lost)
    }

    /// Ends what hasn't come in a direction: four in lines of their own, of which the last one tells how many more
    /// there are.
    fn end_flights_to(&mut self, direction: Direction, is_lost: bool) -> Result<(), AllocError> {
        let alloc = self.alloc;
        let open = self.panel.flights.iter().filter(|it| it.end == FlightEnd::Open
            && it.direction == direction);
        let more = open.count().saturating_sub(4);
        let first = self.row.start.saturating_add(self.row.wire_used);
        let mut place = 0usize;
        for flight in self.panel.flights.iter_mut() {
            if flight.end != FlightEnd::Open || flight.direction != direction {
                continue;
            }
            let line = first.saturating_add(place.min(3));
            if place > 3 {
                flight.end = FlightEnd::Hidden(line);
                continue;
            }
            flight.note = match place == 3 && more > 0 {
                true => format!(in alloc; "+{}", more.saturating_add(1))?,
                false => loose_end(alloc, flight, is_lost)?,
            };
            flight.end = match is_lost {
                true => FlightEnd::Lost(line),
                false => FlightEnd::Underway(line),
            };
            place = place.saturating_add(1);
        }
        self.row.wire_used = self.row.wire_used.saturating_add(place);
        Ok(())
    }

    /// Draws the row behind the last event that is drawn, which has this number.
    pub(crate) fn draw_end(&mut self, last: usize) -> Result<(), AllocError> {
        let moment = self.resting(last);
        self.begin_row(NOTHING, moment);
        if let Some(shown) = moment.after {
            let text = client_text(self.alloc, shown)?;
            self.say(Spot::Client, Look::Pill, false, text.as_str())?;
            let text = session_text(self.alloc, &shown.server, None)?;
            self.say(Spot::Server, Look::Pill, false, text.as_str())?;
        }
        self.end_flights(false)
    }
}

/// What stands beside the loose end of a packet: how many of its bytes have not come.
fn loose_end(alloc: Global, flight: &Flight, is_lost: bool) -> Result<String, AllocError> {
    let bytes = flight.size.saturating_sub(flight.came);
    match is_lost {
        true => format!(in alloc; "{bytes} lost"),
        false => format!(in alloc; "{bytes} underway"),
    }
}
