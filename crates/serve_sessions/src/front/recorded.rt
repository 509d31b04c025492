//! Requests that a recording answers.
ghost use Rattle.std.specs.Prelude.{◌+◌, ◌≤◌, vec_len};

use crate::answering::MOST_DATA;
use crate::front::{Front, Planned, Took, copy};
use serve_recordings::{Exchange, Recording, Sought, body_of};
use serve_requests::{End, MessageKind, Plan, Whole};
use serve_scripts::Orders;
use serve_values::text::{own, trimmed, units_in, units_of};
use std::alloc::{AllocError, Global};
use tds_server::Server;
use tds_session::ScriptEngine;

impl Front {
    /// The session goes by the recorded connection of this number.
    pub fn go_by(&mut self, recording: &Recording, number: u64) {
        self.place = recording.start(number);
    }

    /// What is done with the newest request, where that was recorded.
    pub fn orders(&self) -> Option<Orders> {
        self.orders
    }

    /// Takes a request, which is answered as it was recorded. The server runs nothing of it.
    pub(crate) fn take_recorded(
        &mut self,
        server: &mut Server<ScriptEngine>,
        recording: &Recording,
        whole: Whole,
        out: &mut Vec<u8>,
    ) -> Result<Took, AllocError>
        ensures { vec_len out.new ≤ vec_len out.old + 35 }
    {
        let body = body_of(whole.kind, self.reader.data());
        let headers = self.reader.data().len().saturating_sub(body.len());
        let sought = Sought {
            kind: whole.kind,
            reset: whole.status.reset(),
            count: self.reader.count().saturating_sub(headers as u64),
            front: body,
        };
        self.text = text_of(self.alloc, whole.kind, body)?;
        let found = recording.find(self.place, sought);
        let plan = self.plan_recorded(found)?;
        let descriptor = server.session().descriptor();
        let planned = Planned::new(plan, descriptor, took_of(whole.kind));
        let took = self.hand_on(server, None, planned, out)?;
        if let Some(answering) = &mut self.answering {
            if let Some((_, exchange)) = found {
                answering.end_packets_at(exchange.ends.as_slice())?;
            }
        }
        Ok(took)
    }

    /// The plan of a request that was found at this place, or nowhere.
    fn plan_recorded(&mut self, found: Option<(usize, &Exchange)>) -> Result<Plan, AllocError> {
        let Some((place, exchange)) = found else {
            self.orders = None;
            self.is_acknowledged = false;
            return unknown(self.alloc);
        };
        self.place = place.saturating_add(1);
        self.orders = Some(Orders::of_recorded(exchange, MOST_DATA));
        self.is_acknowledged = exchange.held.is_some() && acknowledges(exchange.answer.as_slice());
        Plan::whole(self.alloc, copy(self.alloc, exchange.answer.as_slice())?)
    }
}

/// The text of a batch, for the log.
fn text_of(alloc: Global, kind: MessageKind, body: &[u8]) -> Result<Vec<u16>, AllocError> {
    if kind != MessageKind::Batch {
        return Ok(Vec::new(alloc));
    }
    let units = units_of(alloc, body)?;
    own(alloc, trimmed(units.as_slice()))
}

/// The plan of a request that no recorded one is like.
fn unknown(alloc: Global) -> Result<Plan, AllocError> {
    let text = units_in(alloc, b"The recording has no such request.")?;
    Plan::failed(alloc, End::Batch, 50_001, text)
}

fn took_of(kind: MessageKind) -> Took {
    match kind {
        MessageKind::Batch => Took::Batch,
        MessageKind::Procedure => Took::Call,
        MessageKind::BulkLoad => Took::Rows,
        MessageKind::Transaction | MessageKind::Attention => Took::Transaction,
    }
}

/// Whether the last DONE of an answer acknowledges an attention (MS-TDS 2.2.7.6).
fn acknowledges(answer: &[u8]) -> bool {
    let at = answer.len().saturating_sub(13);
    match answer.get(at..) {
        Some([0xfd, status, ..]) => *status & 0x20 != 0,
        _ => false,
    }
}
