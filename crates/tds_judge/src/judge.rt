//! The judge of a connection.

ghost use Rattle.std.specs.Prelude.{◌≡◌, ◌≤◌, ◌<◌, ◌+◌, vec_len, vec_capacity, IfErr, IfOk, OnOk, OnErr, length, take};
ghost use Rattle.tds_judge.specs.Framing as framing;
ghost use Rattle.tds_judge.specs.Framing.{IsNew, run_of};
ghost use Rattle.tds_judge.specs.declared.finding.Direction.TheVariants.{ToServer};
ghost use Rattle.tds_judge.specs.declared.talk.Event.TheVariants as events;

use crate::NoMemory;
use crate::finding::{Direction, Finding, Spot};
use crate::frame::{Frame, Inside, Part};
use crate::parser::TokenParser;
use crate::talk::{Ending, Event, Limits, Talk};
use std::alloc::Global;

/// What is left of a piece.
#[derive(Clone, Copy)]
pub struct Unfinished {
    /// How many bytes of it have been judged.
    pub done: usize,
}

/// A judge of one connection. It keeps nothing of the bytes that went by.
#[derive(Drop)]
pub struct Judge {
    pub(crate) limits: Limits,
    pub(crate) client: Frame,
    pub(crate) server: Frame,
    pub(crate) talk: Talk,
    /// Where in an answer's tokens it is; none once the judging has ended.
    pub(crate) parser: Option<TokenParser>,
}

impl Judge {
    /// A judge of a connection of which nothing was seen.
    ///
    /// # Errors
    ///
    /// Where a growth was refused.
    pub fn new(alloc: Global, limits: Limits) -> Result<Judge, NoMemory>
        requires { limits.columns ≤ 4096 }
        ensures { IfOk result (λ judge. IsNew limits judge) }
    {
        let parser = TokenParser::new(alloc, limits.columns, limits.features)?;
        Ok(Judge {
            limits,
            client: Frame::new(),
            server: Frame::new(),
            talk: Talk::new(),
            parser: Some(parser),
        })
    }

    /// Takes bytes of one direction, that came at a time, and appends what is found. Pieces may be of any
    /// size. Nothing is done once the judging has ended.
    ///
    /// # Errors
    ///
    /// Where a growth of the findings was refused: so many bytes have been judged, and those behind them
    /// may be handed in again.
    pub fn take(
        &mut self,
        direction: Direction,
        time: u64,
        bytes: &[u8],
        findings: &mut Vec<Finding>,
    ) -> Result<(), Unfinished>
        ensures ok { OnOk result ((run_of self.new findings.new.items)
            ≡ framing.steps direction time bytes.now
            (run_of self.old findings.old.items)) }
        ensures err { IfErr result (λ left. (run_of self.new findings.new.items)
            ≡ framing.steps direction time (take left.done bytes.now)
            (run_of self.old findings.old.items)) }
        ensures within { IfErr result (λ left. left.done < length bytes.now) }
    {
        let mut done = 0;
        'bytes: while done < bytes.len() {
            match self.take_run(direction, time, &bytes[done..], findings) {
                Ok(count) => done += count,
                Err(_) => return Err(Unfinished { done }),
            }
        }
        Ok(())
    }

    /// Takes bytes: at least one, and at most so many as are one step.
    fn take_run(
        &mut self,
        direction: Direction,
        time: u64,
        bytes: &[u8],
        findings: &mut Vec<Finding>,
    ) -> Result<usize, NoMemory>
        requires { 0 < length bytes.now }
        ensures ok { IfOk result (λ count. (run_of self.new findings.new.items)
            ≡ framing.steps direction time (take count bytes.now)
            (run_of self.old findings.old.items)) }
        ensures some { IfOk result (λ count. 0 < count) }
        ensures within { IfOk result (λ count. count ≤ length bytes.now) }
        ensures err { OnErr result ((run_of self.new findings.new.items)
            ≡ (run_of self.old findings.old.items)) }
    {
        findings.reserve(40)?;
        Ok(self.take_some(findings, direction, time, bytes))
    }

    /// Where the client is, at a time.
    fn spot(&self, time: u64) -> Spot
        ensures { result ≡ (record {
          direction = ToServer;
          offset = self.now.client.offset;
          time = time;
        }) }
    {
        Spot {
            direction: Direction::ToServer,
            offset: self.client.offset,
            time,
        }
    }

    /// The next request is the first one of a new borrower of the connection.
    ///
    /// # Errors
    ///
    /// Where a growth of the findings was refused: nothing has changed.
    #[tactic(auto, unfolding(crate::specs::Framing::event_said))]
    pub fn borrow(&mut self, time: u64, findings: &mut Vec<Finding>) -> Result<(), NoMemory>
        ensures ok { OnOk result ((run_of self.new findings.new.items)
            ≡ framing.event_said time events.Borrowed
            (run_of self.old findings.old.items)) }
        ensures err { OnErr result ((run_of self.new findings.new.items)
            ≡ (run_of self.old findings.old.items)) }
    {
        findings.reserve(10)?;
        if !self.has_stopped() {
            let spot = self.spot(time);
            self.say(findings, spot, Event::Borrowed);
        }
        Ok(())
    }

    /// The connection was closed, or reset: the judging ends.
    ///
    /// # Errors
    ///
    /// Where a growth of the findings was refused: nothing has changed.
    #[tactic(auto, unfolding(crate::specs::Framing::closed))]
    pub fn close(&mut self, time: u64, findings: &mut Vec<Finding>) -> Result<(), NoMemory>
        ensures ok { OnOk result ((run_of self.new findings.new.items)
            ≡ framing.closed time
            (run_of self.old findings.old.items)) }
        ensures err { OnErr result ((run_of self.new findings.new.items)
            ≡ (run_of self.old findings.old.items)) }
    {
        findings.reserve(10)?;
        if !self.has_stopped() {
            let spot = self.spot(time);
            let event = self.closing();
            self.stop(findings, spot, event);
        }
        Ok(())
    }

    fn closing(&self) -> Event
        ensures { result ≡ framing.closing self.now }
    {
        let lost = match self.client.part {
            Part::Lost => true,
            _ => false,
        };
        if lost && self.client.offset > 0 {
            Event::Stops(Ending::NotTds, 0)
        } else {
            Event::Closed
        }
    }

    pub(crate) fn frame(&self, direction: Direction) -> Frame
        ensures { result ≡ framing.frame_by direction self.now }
    {
        match direction {
            Direction::ToServer => self.client,
            Direction::ToClient => self.server,
        }
    }

    pub(crate) fn put_frame(&mut self, direction: Direction, frame: Frame)
        ensures { self.new ≡ framing.with_frame direction frame self.old }
    {
        match direction {
            Direction::ToServer => self.client = frame,
            Direction::ToClient => self.server = frame,
        }
    }

    /// Something is said.
    pub(crate) fn say(&mut self, out: &mut Vec<Finding>, spot: Spot, event: Event)
        requires { vec_len out.old + 10 ≤ vec_capacity out.old }
        ensures run { (run_of self.new out.new.items)
            ≡ framing.said spot event (run_of self.old out.old.items) }
        ensures few { vec_len out.new ≤ vec_len out.old + 10 }
        ensures capacity { vec_capacity out.new ≡ vec_capacity out.old }
    {
        let limits = self.limits;
        self.talk.hear(out, &limits, spot, event);
    }

    /// The judging ends.
    pub(crate) fn stop(&mut self, out: &mut Vec<Finding>, spot: Spot, event: Event)
        requires { vec_len out.old + 10 ≤ vec_capacity out.old }
        ensures run { (run_of self.new out.new.items)
            ≡ framing.stops spot event (run_of self.old out.old.items) }
        ensures few { vec_len out.new ≤ vec_len out.old + 10 }
        ensures capacity { vec_capacity out.new ≡ vec_capacity out.old }
    {
        self.parser = None;
        self.say(out, spot, event);
    }

    pub(crate) fn is_whole(&self, inside: Inside) -> bool
        ensures { result ≡ framing.is_whole inside self.now.parser }
    {
        match (inside, &self.parser) {
            (Inside::Walked, Some(parser)) => parser.is_between(),
            _ => true,
        }
    }

    /// Whether the judging has ended.
    pub fn has_stopped(&self) -> bool
        ensures { result ≡ framing.has_stopped self.now }
    {
        match &self.parser {
            Some(_) => false,
            None => true,
        }
    }
}
