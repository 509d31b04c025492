//! How an answer goes out: each step of the server's is told as the request's plan says, in packets of 512
//! bytes, of more or less where that is asked for.
ghost use Rattle.std.specs.Prelude.{◌+◌, ◌≤◌, length, vec_len};
ghost use Rattle.serve_sessions.specs.declared.answering.TheConstants.{MOST_DATA};

mod breaking;

use crate::shaping::{are_rows, put_shaped};
use serve_answers::{DONE_LENGTH, Done, put_done, put_error, put_return_status, put_return_value};
use serve_requests::{Action, End, Habits, Plan};
use serve_scripts::Breach;
use serve_values::text::units_in;
use std::alloc::{AllocError, Global};
use tds_packet::{Kind, Status, put_sent};
use tds_server::{Server, Worked};
use tds_session::ScriptEngine;

/// The most bytes of data in a packet of an answer.
pub const MOST_DATA: usize = 4088;

/// What is told of a text that isn't understood.
const UNKNOWN: &[u8] =
    b"syntax: tdsserve is a test server and does not understand this text. docs/SERVING.md says \
    what it does: of select, literals, parameters, cast, convert and what a server tells of itself.";

/// How many it has at most where nothing else is said.
const USUAL_DATA: usize = 504;

/// What is told of a request.
#[derive(Drop)]
pub struct Answering {
    alloc: Global,
    plan: Plan,
    /// How many statements were told of, and how many of them did what they say.
    place: usize,
    done: usize,
    /// What is to be sent.
    tokens: Vec<u8>,
    /// How many of these were.
    sent: usize,
    /// Of the next packet.
    packet_id: u8,
    /// The DONE of the last statement, where it ends the answer too.
    last_done: Vec<u8>,
    /// Whether the server has answered to the end.
    is_over: bool,
    /// Whether it told of an error.
    pub has_failed: bool,
    /// What it breaks of the protocol.
    pub breach: Option<Breach>,
    /// The most bytes of data in a packet, and where else packets end, as they were recorded.
    most: usize,
    ends: Vec<usize>,
    /// Whether rows have the shapes of a SQL Server's, and what is told before a reset that is done.
    is_real: bool,
    before_reset: Vec<u8>,
    /// What is told behind it.
    behind_reset: Vec<u8>,
}

impl Answering {
    /// The answer to a request of this plan, of which nothing was told.
    pub fn new(alloc: Global, plan: Plan) -> Answering {
        Answering {
            alloc,
            plan,
            place: 0,
            done: 0,
            tokens: Vec::new(alloc),
            sent: 0,
            packet_id: 1,
            last_done: Vec::new(alloc),
            is_over: false,
            has_failed: false,
            breach: None,
            most: USUAL_DATA,
            ends: Vec::new(alloc),
            is_real: false,
            before_reset: Vec::new(alloc),
            behind_reset: Vec::new(alloc),
        }
    }

    /// It is told in the shapes of a SQL Server, these tokens before a reset that is done, in packets with so
    /// many bytes of data at most.
    pub fn make_real(&mut self, before_reset: Vec<u8>, most: usize) {
        self.is_real = true;
        self.before_reset = before_reset;
        self.most = most;
    }

    /// These tokens are told behind a reset that is done.
    pub fn tell_behind_reset(&mut self, tokens: &[u8]) -> Result<(), AllocError> {
        self.behind_reset.extend_from_slice(tokens)
    }

    /// It goes out in packets whose data end there.
    pub fn end_packets_at(&mut self, ends: &[usize]) -> Result<(), AllocError> {
        self.most = MOST_DATA;
        self.ends.extend_from_slice(ends)
    }

    /// Does a step of the server's where nothing waits, and appends a packet of what waits then.
    pub fn step(
        &mut self,
        server: &mut Server<ScriptEngine>,
        habits: &mut Habits,
        out: &mut Vec<u8>,
    ) -> Result<Worked, AllocError>
        ensures { vec_len out.new ≤ vec_len out.old + 4096 }
    {
        if self.left() == 0 && !self.is_over {
            self.work(server, habits)?;
        }
        if self.is_whole() && self.left() <= self.most && !self.is_over {
            self.work(server, habits)?;
        }
        self.put(out)
    }

    /// How many milliseconds go by before it begins.
    pub fn wait(&self) -> u32 {
        self.plan.wait
    }

    /// How many transactions are begun within one another behind what was done, where the plan says it.
    pub fn level(&self) -> Option<u32> {
        let last = self.done.checked_sub(1)?;
        self.plan.levels.get(last).copied()
    }

    /// How many bytes wait.
    fn left(&self) -> usize {
        self.tokens.len().saturating_sub(self.sent)
    }

    /// Whether the statement told of last is the whole answer.
    fn is_whole(&self) -> bool {
        let told = self.plan.actions.get(self.place.saturating_sub(1));
        self.place > 0 && matches!(told, Some(Action::Whole(_)))
    }

    /// Does a step of the server's.
    fn work(
        &mut self,
        server: &mut Server<ScriptEngine>,
        habits: &mut Habits,
    ) -> Result<(), AllocError> {
        let mut packet = Vec::new(self.alloc);
        let worked = server.work(&mut packet)?;
        let data = packet.as_slice().get(8..).unwrap_or(&[]);
        match worked {
            Worked::Step => self.tell(data),
            Worked::Finished => {
                self.is_over = true;
                if !self.is_whole() {
                    let news = habits.news(&server.session().settings())?;
                    self.tokens.extend_from_slice(news.as_slice())?;
                }
                self.end(data)?;
                self.break_end();
                Ok(())
            }
            Worked::Idle => {
                self.is_over = true;
                Ok(())
            }
        }
    }

    /// Appends what is told of a step that isn't the last.
    fn tell(&mut self, data: &[u8]) -> Result<(), AllocError> {
        // a reset that is done
        if matches!(data, [0xe3, _, _, 18, ..]) {
            self.tokens.extend_from_slice(self.before_reset.as_slice())?;
            self.tokens.extend_from_slice(data)?;
            return self.tokens.extend_from_slice(self.behind_reset.as_slice());
        }
        let place = self.place;
        self.place = place.saturating_add(1);
        if matches!(data, [0xaa, ..]) {
            self.has_failed = true;
            return self.tell_error(place, data);
        }
        self.done = self.done.saturating_add(1);
        self.tell_statement(place, data)?;
        self.end_statement();
        Ok(())
    }

    /// Appends an ERROR: the one of the statement at this place, if it is that.
    fn tell_error(&mut self, place: usize, data: &[u8]) -> Result<(), AllocError> {
        match self.plan.actions.get(place) {
            Some(Action::Failed { number, text }) if number_of(data) == *number => {
                put_error(self.alloc, &mut self.tokens, *number, text.as_slice())
            }
            _ if is_unknown(data) => {
                let text = units_in(self.alloc, UNKNOWN)?;
                put_error(
                    self.alloc,
                    &mut self.tokens,
                    number_of(data),
                    text.as_slice(),
                )
            }
            _ => self.tokens.extend_from_slice(data),
        }
    }

    /// Appends what is told of the statement at this place.
    fn tell_statement(&mut self, place: usize, data: &[u8]) -> Result<(), AllocError> {
        match self.plan.actions.get(place) {
            Some(Action::Tokens(tokens)) => {
                let is_last = place.saturating_add(1) == self.plan.actions.len();
                let is_last = is_last && matches!(self.plan.end, End::Batch);
                let (front, done) = split_done(tokens.as_slice(), is_last);
                self.tokens.extend_from_slice(front)?;
                self.last_done.extend_from_slice(done)
            }
            Some(Action::Whole(tokens)) => self.tokens.extend_from_slice(tokens.as_slice()),
            _ if self.is_real && are_rows(data) => put_shaped(&mut self.tokens, data),
            _ => self.tokens.extend_from_slice(data),
        }
    }

    /// Makes DONE at the end of a statement DONEINPROC, in a procedure.
    fn end_statement(&mut self) {
        if matches!(self.plan.end, End::Batch) {
            return;
        }
        let at = self.tokens.len().saturating_sub(DONE_LENGTH);
        if let Some(byte) = self.tokens.get_mut(at) {
            if *byte == Done::Statement.byte() {
                *byte = Done::InProcedure.byte();
            }
        }
    }

    /// Appends what is told at the end.
    fn end(&mut self, data: &[u8]) -> Result<(), AllocError> {
        if self.is_whole() {
            return Ok(());
        }
        self.has_failed = self.has_failed || matches!(data, [0xaa, ..]);
        let end = self.plan.end;
        match end {
            End::Batch => self.end_batch(data),
            End::Procedure { handle } => self.end_procedure(handle),
        }
    }

    /// Appends the last DONE: that of the last statement, where it has one of its own.
    fn end_batch(&mut self, data: &[u8]) -> Result<(), AllocError> {
        if self.has_failed {
            return self.tokens.extend_from_slice(data);
        }
        match self.last_done.as_slice() {
            // without the bit that more follows
            [kind, status, rest @ ..] => {
                self.tokens.extend_from_slice(&[*kind, *status & 0xfe])?;
                self.tokens.extend_from_slice(rest)
            }
            _ => self.tokens.extend_from_slice(data),
        }
    }

    /// Appends what ends a procedure.
    fn end_procedure(&mut self, handle: Option<u32>) -> Result<(), AllocError> {
        let status = if self.has_failed { 2 } else { 0 };
        put_return_status(&mut self.tokens, 0)?;
        if let Some(handle) = handle {
            if !self.has_failed {
                put_return_value(&mut self.tokens, 0, handle)?;
            }
        }
        put_done(&mut self.tokens, Done::Procedure, status, 0)
    }

    /// Breaks the answer's last DONE, where the script says so.
    fn break_end(&mut self) {
        let at = self.tokens.len().saturating_sub(DONE_LENGTH);
        let breach = self.breach;
        match breach {
            Some(Breach::NoDone) => self.tokens.truncate(at),
            Some(Breach::Unasked) => self.add_to_status(at, 0x20),
            Some(Breach::More) => self.add_to_status(at, 0x01),
            Some(Breach::NoEnd) | None => {}
        }
    }

    /// Sets a bit in the status of the token that begins here.
    fn add_to_status(&mut self, at: usize, bit: u8) {
        if let Some(status) = self.tokens.get_mut(at.saturating_add(1)) {
            *status |= bit;
        }
    }

    /// The most bytes of data that the next packet has.
    fn room(&self) -> usize
        ensures { result ≤ MOST_DATA }
    {
        let mut room = self.most;
        for end in &self.ends {
            if *end > self.sent {
                room = room.min(end.saturating_sub(self.sent));
            }
        }
        room.min(MOST_DATA)
    }

    /// Appends a packet of what waits, the last one where the server is done and nothing is left.
    fn put(&mut self, out: &mut Vec<u8>) -> Result<Worked, AllocError>
        ensures { vec_len out.new ≤ vec_len out.old + 4096 }
    {
        let room = self.room();
        let waiting = self.tokens.as_slice().get(self.sent..).unwrap_or(&[]);
        let count = waiting.len().min(room);
        let ends = self.is_over && count == waiting.len();
        if count > 0 || ends {
            let is_marked = ends && self.breach != Some(Breach::NoEnd);
            put_packet(out, is_marked, self.packet_id, &waiting[..count])?;
            self.packet_id = self.packet_id.wrapping_add(1);
            self.sent = self.sent.saturating_add(count);
        }
        if self.left() == 0 {
            self.tokens.clear();
            self.sent = 0;
        }
        Ok(if ends { Worked::Finished } else { Worked::Step })
    }
}

/// Tokens of a statement and, where they are the last ones, the DONE behind them.
fn split_done(tokens: &[u8], is_last: bool) -> (&[u8], &[u8]) {
    let at = tokens.len().saturating_sub(DONE_LENGTH);
    let (front, done) = tokens.split_at(at);
    if is_last && matches!(done, [0xfd, ..]) {
        (front, done)
    } else {
        (tokens, &[])
    }
}

/// Appends a packet of an answer.
fn put_packet(out: &mut Vec<u8>, ends: bool, packet_id: u8, data: &[u8]) -> Result<(), AllocError>
    requires { length «data».now ≤ MOST_DATA }
    ensures { vec_len out.new ≤ vec_len out.old + (8 + length «data».now) }
{
    put_sent(out, Kind::Answer, Status::of_answer(ends), packet_id, data)
}

/// Whether an ERROR is the language's of a text that it doesn't have: 50001, `syntax`.
fn is_unknown(error: &[u8]) -> bool {
    matches!(
        error,
        [_, _, _, 0x51, 0xc3, 0, 0, _, _, 6, 0, 115, 0, 121, ..]
    )
}

/// The number of an ERROR.
fn number_of(error: &[u8]) -> u32 {
    match error {
        [_, _, _, a, b, c, d, ..] => u32::from_le_bytes([*a, *b, *c, *d]),
        _ => 0,
    }
}
