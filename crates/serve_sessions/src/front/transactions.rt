//! Transaction manager requests (MS-TDS 2.2.6.9).
ghost use Rattle.std.specs.Prelude.{◌+◌, ◌≤◌, vec_len};

use crate::front::packets::transaction;
use crate::front::{Front, Planned, Took, came_of, copy};
use serve_requests::{Plan, transaction_name};
use serve_scripts::{Reply, Script};
use serve_values::text::units_in;
use std::alloc::AllocError;
use tds_packet::Reset;
use tds_request::{Request, RequestKind, decode};
use tds_server::Server;
use tds_session::ScriptEngine;

impl Front {
    /// Hands a transaction manager request on, or what is run in its place.
    pub(crate) fn take_transaction(
        &mut self,
        server: &mut Server<ScriptEngine>,
        script: &Script,
        reset: Option<Reset>,
        out: &mut Vec<u8>,
    ) -> Result<Took, AllocError>
        ensures { vec_len out.new ≤ vec_len out.old + 35 }
    {
        let name = transaction_name(self.reader.data());
        self.text = units_in(self.alloc, name.as_bytes())?;
        if let Some(planned) = self.plan_transaction(script)? {
            return self.hand_on(server, reset, planned, out);
        }
        self.habits.end_savepoints();
        let packet = transaction(reset, self.reader.data());
        let took = came_of(Took::Transaction, server.take(packet, out))?;
        if took == Took::Transaction {
            self.answer(Plan::same(self.alloc))?;
        }
        Ok(took)
    }

    /// The plan of a request that the script answers, or that counts alone; none of one that the session does.
    fn plan_transaction(&mut self, script: &Script) -> Result<Option<Planned>, AllocError> {
        let read = decode(self.alloc, RequestKind::Transaction, self.reader.data());
        let Ok((descriptor, request)) = read else {
            return Ok(None);
        };
        self.hear_isolation(&request)?;
        let plan = match script.reply_to(self.text.as_slice()) {
            Some(Reply::Tokens(tokens)) => Plan::whole(self.alloc, copy(self.alloc, tokens)?)?,
            Some(Reply::Batch(text)) => self.habits.plan_batch(text)?,
            None => match level_behind(&request, self.habits.level()) {
                Some(level) => self.habits.plan_level(level)?,
                None => return Ok(None),
            },
        };
        Ok(Some(Planned::new(plan, descriptor, Took::Transaction)))
    }
}

/// How many transactions are begun within one another behind a request that counts alone, where so many were:
/// a begin in a transaction, and each commit but the last one.
fn level_behind(request: &Request, level: u32) -> Option<u32> {
    match request {
        Request::Begin(_) if level > 0 => Some(level.saturating_add(1)),
        Request::Commit(None) if level > 1 => Some(level.saturating_sub(1)),
        // what it begins counts again
        Request::Commit(Some(_)) if level > 1 => Some(level),
        _ => None,
    }
}
