//! One connection: its login, then its requests. No input or output happens here.
ghost use Rattle.std.specs.Prelude.{◌+◌, ◌*◌, ◌≤◌, length, vec_len, IfOk};

mod greeting;
mod notes;
mod stamping;

use crate::asked::keep;
use crate::front::{Front, Hears, Took};
use notes::{put_login_failed, put_not_spoken, put_reset_failed, refused};
pub use notes::{Asked, Note};
use serve_scripts::{Orders, Script};
use serve_values::Moment;
use std::alloc::{AllocError, Global};
use tds_login::{Login, LoginAnswer, put_answer};
use tds_server::{Server, Worked};
use tds_session::{OnAttention, ScriptEngine};

/// How many bytes may wait for a peer before its steps wait too.
pub const FULL: usize = 8_192;

/// How many bytes may wait for a peer before nothing more of it is taken.
pub const CROWDED: usize = 12_288;

/// The most bytes that wait for a peer: those, and what one packet of it is answered with at once.
pub const MOST_WAITING: usize = 16_896;

/// How far a connection is.
#[derive(Drop)]
enum Stage {
    Login(Login),
    Session {
        front: Front,
        server: Server<ScriptEngine>,
    },
    Over,
}

/// What becomes of a request's answer.
#[derive(Clone, Copy, PartialEq, Eq)]
enum Answering {
    /// No request is unanswered.
    No,
    /// A step of an answer may be left to do.
    Works,
    /// The script holds the answer until an attention has come.
    Waits,
    /// An attention has come, and is taken once the answer is sent.
    Crosses,
}

/// What a connection is to do.
#[derive(Clone, Copy, Debug, PartialEq, Eq)]
pub enum Next {
    /// Go on.
    Stay,
    /// Send what is to be sent, and close.
    Close,
}

/// The server's end of one connection.
#[derive(Drop)]
pub struct Peer {
    alloc: Global,
    on_attention: OnAttention,
    stage: Stage,
    answering: Answering,
    /// How many requests have come.
    request: u32,
    /// How many steps of the newest one's answer were done.
    steps: u32,
    /// What the script says of the newest one; of the login before the first.
    orders: Orders,
    /// The bytes of the login's message, as far as they are kept.
    login: Vec<u8>,
    is_real: bool,
    /// Its connection's number, from 1.
    number: u64,
    now: Moment,
}

impl Peer {
    /// A connection as it begins, whose server does this with its transaction at an attention, and answers
    /// in the shapes of a SQL Server or not.
    pub fn new(alloc: Global, on_attention: OnAttention, is_real: bool, number: u64) -> Peer {
        Peer {
            alloc,
            on_attention,
            stage: Stage::Login(Login::new()),
            answering: Answering::No,
            request: 0,
            steps: 0,
            orders: Orders::none(),
            login: Vec::new(alloc),
            is_real,
            number,
            now: Moment::since_1970(0),
        }
    }

    /// The time of what comes now.
    pub fn set_now(&mut self, now: Moment) {
        self.now = now;
    }

    /// Whether it is not logged in yet.
    pub fn is_in_login(&self) -> bool {
        matches!(self.stage, Stage::Login(_))
    }

    /// Whether a step may be left to do.
    pub fn is_busy(&self) -> bool {
        matches!(self.answering, Answering::Works | Answering::Crosses)
    }

    /// Whether nothing more of it is to be taken: an attention waits until the answer is sent.
    pub fn is_crossing(&self) -> bool {
        self.answering == Answering::Crosses
    }

    /// How many requests have come.
    pub fn request(&self) -> u32 {
        self.request
    }

    /// What the script says of the newest request; of the login before the first.
    pub fn orders(&self) -> Orders {
        self.orders
    }

    /// Takes bytes, and answers how many: all, but where an attention is to wait, or too much waits to be
    /// sent. What they are answered with at once is appended to `out`, and what happened to `notes`.
    pub fn take(
        &mut self,
        script: &Script,
        piece: &[u8],
        out: &mut Vec<u8>,
        notes: &mut Vec<Note>,
    ) -> Result<(usize, Next), AllocError>
        ensures within { IfOk result (λ x. x.0 ≤ length piece.now) }
        ensures bounded { vec_len out.old ≤ MOST_WAITING → vec_len out.new ≤ MOST_WAITING }
    {
        let mut rest = piece;
        for _ in 0..piece.len() {
            if rest.is_empty() || self.is_crossing() || out.len() >= CROWDED {
                break;
            }
            let (count, next) = self.take_front(script, rest, out, notes)?;
            if next == Next::Close {
                self.stage = Stage::Over;
                self.answering = Answering::No;
                return Ok((piece.len(), Next::Close));
            }
            rest = &rest[count..];
        }
        Ok((piece.len().saturating_sub(rest.len()), Next::Stay))
    }

    /// Takes bytes up to the end of one message of the login, or of one packet.
    fn take_front(
        &mut self,
        script: &Script,
        piece: &[u8],
        out: &mut Vec<u8>,
        notes: &mut Vec<Note>,
    ) -> Result<(usize, Next), AllocError>
        ensures within { IfOk result (λ x. x.0 ≤ length piece.now) }
        ensures adds { vec_len out.new ≤ vec_len out.old + 4608 }
    {
        let hears = self.hears();
        match &mut self.stage {
            Stage::Login(login) => {
                let Ok(fed) = login.feed(piece) else {
                    notes.push(Note::Rubbish)?;
                    return Ok((0, Next::Close));
                };
                let count = fed.count;
                keep(&mut self.login, &piece[..count])?;
                let Some(answer) = fed.answer else {
                    return Ok((count, Next::Stay));
                };
                Ok((count, self.answer(script, &answer, out, notes)?))
            }
            Stage::Session { front, server } => {
                front.set_now(self.now);
                let (count, took) = front.take(server, script, hears, piece, out)?;
                Ok((count, self.note(script, took, out, notes)?))
            }
            Stage::Over => Ok((0, Next::Close)),
        }
    }

    /// What becomes of an attention that comes now.
    fn hears(&self) -> Hears {
        if self.answering == Answering::No {
            Hears::Takes
        } else if self.orders.is_deaf {
            Hears::Forgets
        } else if self.orders.is_crossed {
            Hears::Waits
        } else {
            Hears::Takes
        }
    }

    /// Answers a message of the login.
    fn answer(
        &mut self,
        script: &Script,
        answer: &LoginAnswer,
        out: &mut Vec<u8>,
        notes: &mut Vec<Note>,
    ) -> Result<Next, AllocError>
        ensures { vec_len out.new ≤ vec_len out.old + 4096 }
    {
        match answer {
            LoginAnswer::Prepare => {
                self.login.clear();
                put_answer(self.alloc, out, *answer)?;
                Ok(Next::Stay)
            }
            LoginAnswer::LetIn(terms) => {
                if script.refuses() {
                    notes.push(Note::Refused)?;
                    put_login_failed(self.alloc, out)?;
                    return Ok(Next::Close);
                }
                notes.push(Note::LoggedIn(terms.size.get()))?;
                self.authenticate(script, *terms, out)
            }
            LoginAnswer::Refuse(refusal) => {
                put_answer(self.alloc, out, *answer)?;
                notes.push(refused(*refusal))?;
                Ok(Next::Close)
            }
        }
    }

    /// Notes what came of a packet.
    fn note(
        &mut self,
        script: &Script,
        took: Took,
        out: &mut Vec<u8>,
        notes: &mut Vec<Note>,
    ) -> Result<Next, AllocError>
        ensures { vec_len out.new ≤ vec_len out.old + 4096 }
    {
        match took {
            Took::Part => return Ok(Next::Stay),
            Took::Batch | Took::Call | Took::Rows | Took::Transaction => {
                self.begin(script, took, notes)?;
                return Ok(Next::Stay);
            }
            Took::Attention => self.answering = Answering::No,
            Took::Held => self.answering = Answering::Crosses,
            Took::Forgotten => {}
            Took::FailedReset => {
                notes.push(Note::FailedReset)?;
                put_reset_failed(self.alloc, out)?;
                return Ok(Next::Close);
            }
            Took::Fault => {
                notes.push(Note::Rubbish)?;
                put_not_spoken(self.alloc, out)?;
                return Ok(Next::Close);
            }
        }
        notes.push(Note::Came(took))?;
        Ok(Next::Stay)
    }

    /// A request has come, and its answer begins.
    fn begin(
        &mut self,
        script: &Script,
        kind: Took,
        notes: &mut Vec<Note>,
    ) -> Result<(), AllocError> {
        self.answering = Answering::Works;
        self.request = self.request.saturating_add(1);
        self.steps = 0;
        let Stage::Session { front, server } = &mut self.stage else {
            return Ok(());
        };
        let mut orders = match front.orders() {
            Some(orders) => orders,
            None => script.orders(self.request, front.text()),
        };
        orders.late = orders.late.max(front.wait());
        front.set_breach(orders.breach);
        self.orders = orders;
        let mut text = Vec::new(self.alloc);
        text.extend_from_slice(front.text().get(..60).unwrap_or(front.text()))?;
        notes.push(Note::Request(Asked {
            request: self.request,
            kind,
            text,
            descriptor: server.session().descriptor(),
        }))?;
        Ok(())
    }

    /// Does so many steps at most, while there is room in `out` and the script lets it. An attention that
    /// waited for the answer's end is taken behind it.
    pub fn work(
        &mut self,
        script: &Script,
        steps: u32,
        out: &mut Vec<u8>,
        notes: &mut Vec<Note>,
    ) -> Result<Next, AllocError>
        // A step appends 4,096 bytes at most, so that so many steps are done at most.
        ensures adds { vec_len out.new ≤ vec_len out.old + (4096 * steps + 4608) }
        ensures bounded { vec_len out.old ≤ MOST_WAITING → vec_len out.new ≤ MOST_WAITING }
    {
        for _ in 0..steps {
            if !self.is_busy() || out.len() >= FULL {
                break;
            }
            if self.is_held() {
                self.answering = Answering::Waits;
                notes.push(Note::Holds(self.steps))?;
                break;
            }
            if self.step(out, notes)? {
                return self.take_held(script, out, notes);
            }
        }
        Ok(Next::Stay)
    }

    /// Whether the script lets no further step be done.
    fn is_held(&self) -> bool {
        match self.orders.steps {
            Some(most) => self.answering == Answering::Works && self.steps >= most,
            None => false,
        }
    }

    /// Does a step of the answer, and says whether an attention that waited for its end is due.
    fn step(&mut self, out: &mut Vec<u8>, notes: &mut Vec<Note>) -> Result<bool, AllocError>
        ensures { vec_len out.new ≤ vec_len out.old + 4096 }
    {
        let Stage::Session { front, server } = &mut self.stage else {
            self.answering = Answering::No;
            return Ok(false);
        };
        match front.step(server, out)? {
            Worked::Step => {
                self.steps = self.steps.saturating_add(1);
                Ok(false)
            }
            Worked::Idle | Worked::Finished => {
                let is_due = self.answering == Answering::Crosses;
                self.answering = Answering::No;
                notes.push(Note::Answered {
                    request: self.request,
                    has_failed: front.has_failed(),
                })?;
                Ok(is_due)
            }
        }
    }

    /// Takes an attention that waited.
    fn take_held(
        &mut self,
        script: &Script,
        out: &mut Vec<u8>,
        notes: &mut Vec<Note>,
    ) -> Result<Next, AllocError>
        ensures { vec_len out.new ≤ vec_len out.old + 4608 }
    {
        let Stage::Session { front, server } = &mut self.stage else {
            return Ok(Next::Stay);
        };
        let (_, took) = front.take(server, script, Hears::Takes, &[], out)?;
        let next = self.note(script, took, out, notes)?;
        if next == Next::Close {
            self.stage = Stage::Over;
        }
        Ok(next)
    }
}
