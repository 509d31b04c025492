//! Runs of a packet's data, as one step whatever their length.

ghost use Rattle.std.specs.Prelude.{◌≡◌, ◌≤◌, ◌<◌, ◌+◌, ◌-◌, ℕ, List, true, false, vec_len, vec_capacity, length, take, IfSome};
ghost use Rattle.tds_judge.specs.Framing as framing;
ghost use Rattle.tds_judge.specs.Framing.{run_of};
ghost use Rattle.tds_judge.specs.Rows.{IsAtRow};
ghost use Rattle.tds_judge.specs.Talking as talking;
ghost use Rattle.tds_judge.specs.Runs as runs;
ghost use Rattle.tds_judge.specs.declared.finding.Finding.{Finding};
ghost use Rattle.tds_judge.specs.declared.finding.Direction.TheVariants.{ToClient};
ghost use Rattle.tds_judge.specs.declared.frame.Due.TheVariants as dues;
ghost use Rattle.tds_judge.specs.declared.frame.Inside.TheVariants as insides;
ghost use Rattle.tds_judge.specs.declared.talk.Event.TheVariants as events;
ghost use Rattle.tds_wire.specs.declared.told.Told.TheVariants as heard;

use crate::finding::{Direction, Finding, Spot};
use crate::frame::{Due, Inside, refused};
use crate::judge::Judge;
use crate::parser::Went;
use crate::talk::{Event, admits, shows_work};
use tds_wire::{Refusal, Token, Told, cuts_do_not_matter};

impl Judge {
    /// So many bytes of data have gone by, fewer than are left.
    #[inline(always)]
    fn pass(&mut self, direction: Direction, left: u16, count: u16)
        requires { count < left }
        ensures { self.new ≡ runs.passed direction left count self.old }
    {
        let mut frame = self.frame(direction);
        frame.due = Due::Data { left: left - count };
        frame.offset = frame.offset.saturating_add(u64::from(count));
        self.put_frame(direction, frame);
    }

    /// A token has ended with the last of so many bytes.
    #[inline(always)]
    fn end_run(&mut self, out: &mut Vec<Finding>, spot: Spot, left: u16, count: u16, token: Token)
        requires few { count < left }
        requires room { vec_len out.old + 10 ≤ vec_capacity out.old }
        ensures run { (run_of self.new out.new.items)
            ≡ framing.said spot (events.Says token)
            (run_of (runs.passed ToClient left count self.old) out.old.items) }
        ensures few { vec_len out.new ≤ vec_len out.old + 10 }
        ensures capacity { vec_capacity out.new ≡ vec_capacity out.old }
    {
        self.pass(Direction::ToClient, left, count);
        self.say_token(out, spot, token);
    }

    /// Whether a token says nothing of the connection: rows, most of an answer, do only behind a final DONE.
    #[inline(always)]
    fn is_mute(&self, token: &Token) -> bool
        ensures other { result ≡ true → token.now.told ≡ heard.Other }
        ensures open { result ≡ true → self.now.talk.is_final ≡ false }
        ensures outside { result ≡ true → talking.admits token.now.kind ≡ false }
        ensures idle { result ≡ true → talking.shows_work token.now.kind ≡ false }
    {
        match token.told {
            Told::Other => { !self.talk.is_final && !admits(token.kind) && !shows_work(token.kind) }
            _ => false,
        }
    }

    /// A token is said: what is mute is seen here, where it costs little.
    #[inline(always)]
    fn say_token(&mut self, out: &mut Vec<Finding>, spot: Spot, token: Token)
        requires { vec_len out.old + 10 ≤ vec_capacity out.old }
        ensures run { (run_of self.new out.new.items)
            ≡ framing.said spot (events.Says token) (run_of self.old out.old.items) }
        ensures few { vec_len out.new ≤ vec_len out.old + 10 }
        ensures capacity { vec_capacity out.new ≡ vec_capacity out.old }
    {
        if !self.is_mute(&token) {
            self.say(out, spot, Event::Says(token));
        }
    }

    /// The last of so many bytes was refused.
    #[inline(never)]
    fn fail_run(
        &mut self,
        out: &mut Vec<Finding>,
        spot: Spot,
        left: u16,
        count: u16,
        refusal: Refusal,
    )
        requires some { 0 < count }
        requires few { count < left }
        requires room { vec_len out.old + 10 ≤ vec_capacity out.old }
        ensures run { (run_of self.new out.new.items)
            ≡ framing.stops spot (framing.refused_as refusal)
            (run_of (runs.failed left count self.old) out.old.items) }
        ensures few { vec_len out.new ≤ vec_len out.old + 10 }
        ensures capacity { vec_capacity out.new ≡ vec_capacity out.old }
    {
        self.server.due = Due::Data {
            left: left - (count - 1),
        };
        self.server.offset = self.server.offset.saturating_add(u64::from(count));
        self.stop(out, spot, refused(&refusal));
    }

    /// The parser reads a run of data, up to the end of one token: how many bytes of it.
    #[inline(always)]
    fn walk_run(&mut self, out: &mut Vec<Finding>, time: u64, left: u16, run: &[u8]) -> usize
        requires some { 0 < length run.now }
        requires few { length run.now < left }
        requires room { vec_len out.old + 40 ≤ vec_capacity out.old }
        requires due { self.old.server.due ≡ dues.Data left }
        requires inside { self.old.server.inside ≡ insides.Walked }
        ensures some { 0 < result }
        ensures within { result ≤ length run.now }
        ensures run { (run_of self.new out.new.items)
            ≡ framing.steps ToClient time (take result run.now) (run_of self.old out.old.items) }
        ensures few { vec_len out.new ≤ vec_len out.old + 40 }
        ensures capacity { vec_capacity out.new ≡ vec_capacity out.old }
    {
        let Some(parser) = &mut self.parser else {
            return run.len();
        };
        if !parser.takes_runs() {
            self.step(out, Direction::ToClient, time, run[0]);
            return 1;
        }
        cuts_do_not_matter();
        match parser.walk(run) {
            Went::Inside => {
                self.pass(Direction::ToClient, left, run.len() as u16);
                run.len()
            }
            Went::Ends(count, token) => {
                let spot = self.spot_of_last(time, count as u16);
                self.end_run(out, spot, left, count as u16, token);
                count
            }
            Went::Fails(count, refusal) => {
                let spot = self.spot_of_last(time, count as u16);
                self.fail_run(out, spot, left, count as u16, refusal);
                count
            }
        }
    }

    /// Whether a row may come next of which nothing need be known but where it ends.
    fn is_at_row(&self) -> bool
        ensures { result ≡ true → (left : ℕ) → self.now.server.due ≡ dues.Data left
            → self.now.server.inside ≡ insides.Walked → IsAtRow left self.now }
    {
        match &self.parser {
            Some(parser) => !self.talk.is_final && parser.is_between(),
            None => false,
        }
    }

    /// Passes the row that bytes begin with, where it is whole: how many bytes it has, or 0.
    #[inline(always)]
    fn pass_row(&mut self, left: u16, run: &[u8]) -> usize
        requires at { IsAtRow left self.old }
        requires few { length run.now < left }
        ensures within { result ≤ length run.now }
        ensures at { IsAtRow (left - result) self.new }
        ensures same { result ≡ 0 → self.new ≡ self.old }
        ensures run { (time : ℕ) → (told : List Finding) → run_of self.new told
            ≡ framing.steps ToClient time (take result run.now) (run_of self.old told) }
    {
        let Some(parser) = &mut self.parser else {
            return 0;
        };
        cuts_do_not_matter();
        let count = parser.pass_row(run);
        if count > 0 {
            self.pass(Direction::ToClient, left, count as u16);
        }
        count
    }

    /// Passes the rows that bytes begin with and that are whole: how many bytes they have.
    #[inline(always)]
    fn pass_rows(&mut self, left: u16, run: &[u8]) -> usize
        requires few { length run.now < left }
        requires due { self.old.server.due ≡ dues.Data left }
        requires inside { self.old.server.inside ≡ insides.Walked }
        ensures within { result ≤ length run.now }
        ensures same { result ≡ 0 → self.new ≡ self.old }
        ensures run { (time : ℕ) → (told : List Finding) → run_of self.new told
            ≡ framing.steps ToClient time (take result run.now) (run_of self.old told) }
    {
        if !self.is_at_row() {
            return 0;
        }
        let mut done = 0;
        'rows: while done < run.len() {
            let count = self.pass_row(left - done as u16, &run[done..]);
            if count == 0 {
                return done;
            }
            done += count;
        }
        done
    }

    /// Where the last of so many bytes to the client stands.
    fn spot_of_last(&self, time: u64, count: u16) -> Spot
        ensures { result ≡ runs.spot_at (runs.place self.now.server.offset count) time }
    {
        let offset = if count > 1 {
            self.server.offset.saturating_add(u64::from(count - 1))
        } else {
            self.server.offset
        };
        Spot {
            direction: Direction::ToClient,
            offset,
            time,
        }
    }

    /// Takes bytes of a direction: at least one, and at most so many as are one step.
    #[inline(always)]
    pub fn take_some(
        &mut self,
        out: &mut Vec<Finding>,
        direction: Direction,
        time: u64,
        bytes: &[u8],
    ) -> usize
        requires some { 0 < length bytes.now }
        requires room { vec_len out.old + 40 ≤ vec_capacity out.old }
        ensures some { 0 < result }
        ensures within { result ≤ length bytes.now }
        ensures run { (run_of self.new out.new.items)
            ≡ framing.steps direction time (take result bytes.now) (run_of self.old out.old.items) }
    {
        if self.has_stopped() {
            return bytes.len();
        }
        let frame = self.frame(direction);
        match (frame.due, frame.inside, direction) {
            (Due::Data { left }, Inside::Skipped, _) if left > 1 => {
                let count = bytes.len().min(usize::from(left) - 1);
                self.pass(direction, left, count as u16);
                count
            }
            (Due::Data { left }, Inside::Walked, Direction::ToClient) if left > 1 => {
                let count = bytes.len().min(usize::from(left) - 1);
                let rows = self.pass_rows(left, &bytes[..count]);
                if rows > 0 {
                    rows
                } else {
                    self.walk_run(out, time, left, &bytes[..count])
                }
            }
            _ => {
                self.step(out, direction, time, bytes[0]);
                1
            }
        }
    }
}
