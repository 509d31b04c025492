//! What stands between a logged-in peer and the server: it plans what is run for each message, hands that
//! on, and tells of it as the plan says.
ghost use Rattle.std.specs.Prelude.{◌+◌, ◌≤◌, length, vec_len, IfOk};

mod packets;
mod planning;
mod recorded;
mod recovering;
mod transactions;

use crate::answering::Answering;
use packets::{attention, batch, message_of};
use recovering::set_back;
use serve_requests::{Habits, MessageKind, MessageReader, Plan, Stop, Whole};
use serve_scripts::{Breach, Orders, Script};
use serve_values::Moment;
use std::alloc::{AllocError, Global};
use tds_packet::{PacketSize, Reset};
use tds_server::{Server, ServerFault, ServerTook, Worked};
use tds_session::ScriptEngine;

/// What came of bytes.
#[derive(Clone, Copy, Debug, PartialEq, Eq)]
pub enum Took {
    /// A part of a packet or of a message, or a message that is to be ignored.
    Part,
    /// A batch.
    Batch,
    /// A call of a procedure.
    Call,
    /// Rows of a bulk load.
    Rows,
    /// A transaction manager request.
    Transaction,
    /// An attention. It is acknowledged.
    Attention,
    /// An attention that is to wait. It is kept, and nothing behind it is taken.
    Held,
    /// An attention that is never acknowledged.
    Forgotten,
    /// A reset that the script lets fail.
    FailedReset,
    /// The server does not take it, and is broken.
    Fault,
}

/// What becomes of an attention.
#[derive(Clone, Copy, Debug, PartialEq, Eq)]
pub enum Hears {
    /// It is taken.
    Takes,
    /// It waits for the answer's end.
    Waits,
    /// It is forgotten.
    Forgets,
}

/// The front of a connection that is logged in.
#[derive(Drop)]
pub struct Front {
    alloc: Global,
    reader: MessageReader,
    habits: Habits,
    answering: Option<Answering>,
    /// The text of the newest request.
    text: Vec<u16>,
    /// Whether the newest request has failed, once all is told of it.
    has_failed: bool,
    /// Whether answers have the shapes of a SQL Server's.
    is_real: bool,
    /// The most bytes of data in a packet of an answer in these shapes.
    most: usize,
    /// The place of the recorded request from which on the next one is looked for.
    place: usize,
    /// What is done with the newest request, where that was recorded.
    orders: Option<Orders>,
    /// Whether the newest request's answer has the acknowledgement of its attention in it.
    is_acknowledged: bool,
    /// What is told of the session's states behind a reset that is done.
    behind_reset: Vec<u8>,
}

/// A plan, and the request that it is of.
#[derive(Drop)]
pub(crate) struct Planned {
    plan: Plan,
    descriptor: u64,
    kind: Took,
    /// Whether the request is a reset, whatever its packets say.
    is_reset: bool,
}

impl Front {
    /// A front for packets of this size, of the session of this number in this database.
    pub fn new(
        alloc: Global,
        size: PacketSize,
        database: &[u16],
        spid: u16,
        is_real: bool,
    ) -> Result<Front, AllocError> {
        Ok(Front {
            alloc,
            reader: MessageReader::new(alloc, size),
            habits: Habits::new(alloc, database, spid)?,
            answering: None,
            text: Vec::new(alloc),
            has_failed: false,
            is_real,
            most: usize::from(size.get()).saturating_sub(8),
            place: 0,
            orders: None,
            is_acknowledged: false,
            behind_reset: Vec::new(alloc),
        })
    }

    /// What a SQL Server tells of the session that begins.
    pub fn session_tokens(&self) -> Result<Vec<u8>, AllocError> {
        self.habits.login_tokens(self.alloc)
    }

    /// The time of what comes now.
    pub fn set_now(&mut self, now: Moment) {
        self.habits.set_now(now);
    }

    /// The text of the newest request; of a call without one the procedure's name, and of a transaction
    /// manager request its own.
    pub fn text(&self) -> &[u16] {
        self.text.as_slice()
    }

    /// Whether the newest request has failed, once all is told of it.
    pub fn has_failed(&self) -> bool {
        self.has_failed
    }

    /// The newest request's answer breaks the protocol so.
    pub fn set_breach(&mut self, breach: Option<Breach>) {
        if let Some(answering) = &mut self.answering {
            answering.breach = breach;
        }
    }

    /// Takes bytes up to the end of one packet, and answers how many. What is answered at once is
    /// appended to `out`. Where attentions are to wait, one that has come is kept, and taken by the first
    /// call in which they aren't.
    ///
    /// `Err` says that memory was wanted. The packet is gone then, with the bytes up to its end, and what
    /// was appended of an answer may be a part of it: the connection is of no use any more.
    pub fn take(
        &mut self,
        server: &mut Server<ScriptEngine>,
        script: &Script,
        hears: Hears,
        piece: &[u8],
        out: &mut Vec<u8>,
    ) -> Result<(usize, Took), AllocError>
        ensures within { IfOk result (λ x. x.0 ≤ length piece.now) }
        ensures adds { vec_len out.new ≤ vec_len out.old + 171 }
    {
        let count = match self.reader.feed(piece) {
            Ok(count) => count,
            Err(Stop::Memory) => return Err(AllocError),
            Err(Stop::Wrong) => return Ok((0, Took::Fault)),
        };
        let Some(whole) = self.reader.whole() else {
            return Ok((count, Took::Part));
        };
        if whole.kind == MessageKind::Attention && hears == Hears::Waits {
            return Ok((count, Took::Held));
        }
        let took = self.take_message(server, script, hears, whole, out)?;
        self.reader.done();
        Ok((count, took))
    }

    /// Takes a message.
    fn take_message(
        &mut self,
        server: &mut Server<ScriptEngine>,
        script: &Script,
        hears: Hears,
        whole: Whole,
        out: &mut Vec<u8>,
    ) -> Result<Took, AllocError>
        ensures { vec_len out.new ≤ vec_len out.old + 171 }
    {
        if whole.is_ignored {
            return Ok(Took::Part);
        }
        if whole.kind == MessageKind::Attention {
            if hears == Hears::Forgets {
                return Ok(Took::Forgotten);
            }
            return self.take_attention(server, out);
        }
        if self.answering.is_some() {
            return Ok(Took::Fault);
        }
        if let Some(recording) = script.recording() {
            return self.take_recorded(server, recording, whole, out);
        }
        if whole.status.reset().is_some() {
            if script.fails_reset() {
                return Ok(Took::FailedReset);
            }
            set_back(&mut self.habits, &mut self.behind_reset)?;
        }
        self.take_request(server, script, whole, out)
    }

    /// Takes an attention: it breaks the answer off that is underway.
    fn take_attention(
        &mut self,
        server: &mut Server<ScriptEngine>,
        out: &mut Vec<u8>,
    ) -> Result<Took, AllocError>
        ensures { vec_len out.new ≤ vec_len out.old + 171 }
    {
        let mut level = None;
        if let Some(answering) = &self.answering {
            answering.break_off(out)?;
            level = answering.level();
        }
        self.answering = None;
        self.habits.told(false);
        let taken = if self.is_acknowledged {
            let mut forgotten = Vec::new(self.alloc);
            server.take(attention(), &mut forgotten)
        } else {
            server.take(attention(), out)
        };
        self.habits.ended(level, server.session().descriptor());
        came_of(Took::Attention, taken)
    }

    /// Takes a request.
    fn take_request(
        &mut self,
        server: &mut Server<ScriptEngine>,
        script: &Script,
        whole: Whole,
        out: &mut Vec<u8>,
    ) -> Result<Took, AllocError>
        ensures { vec_len out.new ≤ vec_len out.old + 35 }
    {
        let reset = whole.status.reset();
        let is_left = reset == Some(Reset::Full);
        let transaction = server.session().descriptor();
        self.habits.settle(if is_left { 0 } else { transaction });
        let planned = match whole.kind {
            MessageKind::Batch => self.plan_batch(script)?,
            MessageKind::Procedure => self.plan_call(script)?,
            MessageKind::BulkLoad => Some(self.plan_rows(server.session().descriptor())?),
            MessageKind::Transaction | MessageKind::Attention => {
                return self.take_transaction(server, script, reset, out);
            }
        };
        match planned {
            Some(planned) => self.hand_on(server, reset, planned, out),
            None => Ok(Took::Fault),
        }
    }

    /// Hands on what is run for a request.
    fn hand_on(
        &mut self,
        server: &mut Server<ScriptEngine>,
        reset: Option<Reset>,
        planned: Planned,
        out: &mut Vec<u8>,
    ) -> Result<Took, AllocError>
        ensures { vec_len out.new ≤ vec_len out.old + 35 }
    {
        let reset = if planned.is_reset {
            Some(Reset::Full)
        } else {
            reset
        };
        let kind = planned.kind;
        let Some(message) = message_of(self.alloc, &planned.plan, planned.descriptor)? else {
            return Ok(Took::Fault);
        };
        let took = came_of(kind, server.take(batch(reset, message.as_slice()), out))?;
        if took == kind {
            self.answer(planned.plan)?;
        }
        Ok(took)
    }

    /// The answer of this plan begins.
    fn answer(&mut self, plan: Plan) -> Result<(), AllocError> {
        let mut answering = Answering::new(self.alloc, plan);
        if self.is_real {
            answering.make_real(self.habits.tokens(self.alloc)?, self.most);
        }
        answering.tell_behind_reset(self.behind_reset.as_slice())?;
        self.behind_reset.clear();
        self.answering = Some(answering);
        Ok(())
    }

    /// Does a step of the answer, and says what is left of it.
    pub fn step(
        &mut self,
        server: &mut Server<ScriptEngine>,
        out: &mut Vec<u8>,
    ) -> Result<Worked, AllocError>
        ensures { vec_len out.new ≤ vec_len out.old + 4096 }
    {
        let Some(answering) = &mut self.answering else {
            return Ok(Worked::Idle);
        };
        let worked = answering.step(server, &mut self.habits, out)?;
        if worked == Worked::Finished {
            self.habits.told(true);
            self.has_failed = answering.has_failed;
            let level = answering.level();
            self.habits.ended(level, server.session().descriptor());
            self.answering = None;
        }
        Ok(worked)
    }
}

impl Planned {
    fn new(plan: Plan, descriptor: u64, kind: Took) -> Planned {
        Planned {
            plan,
            descriptor,
            kind,
            is_reset: false,
        }
    }
}

fn copy(alloc: Global, bytes: &[u8]) -> Result<Vec<u8>, AllocError> {
    let mut copy = Vec::with_capacity(alloc, bytes.len())?;
    copy.extend_from_slice(bytes)?;
    Ok(copy)
}

/// What the server took, as this.
fn came_of(kind: Took, answer: Result<ServerTook, ServerFault>) -> Result<Took, AllocError> {
    match answer {
        Ok(ServerTook::NoMemory) => Err(AllocError),
        Ok(ServerTook::More | ServerTook::Dropped) => Ok(Took::Part),
        Ok(ServerTook::Request | ServerTook::Acknowledged) => Ok(kind),
        Err(_) => Ok(Took::Fault),
    }
}
