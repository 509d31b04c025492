//! The plans of requests, as the script says.

use crate::front::recovering::set_back;
use crate::front::{Front, Planned, Took, copy};
use serve_requests::{Call, CallFault, End, Habits, Plan, Procedure, behind_headers, read_call};
use serve_scripts::{Reply, Script};
use serve_values::text::{own, trimmed, units_in, units_of};
use std::alloc::{AllocError, Global};

impl Front {
    /// The plan of a batch; none where it isn't spelled rightly.
    pub(crate) fn plan_batch(&mut self, script: &Script) -> Result<Option<Planned>, AllocError> {
        let Some((descriptor, body)) = behind_headers(self.reader.data()) else {
            return Ok(None);
        };
        if self.reader.count() % 2 == 1 {
            return Ok(None);
        }
        let units = units_of(self.alloc, body)?;
        self.text = own(self.alloc, trimmed(units.as_slice()))?;
        let plan = match script.reply_to(self.text.as_slice()) {
            Some(Reply::Tokens(tokens)) => Plan::whole(self.alloc, copy(self.alloc, tokens)?)?,
            Some(Reply::Batch(text)) => self.habits.plan_batch(text)?,
            None => self.habits.plan_batch(self.text.as_slice())?,
        };
        Ok(Some(Planned::new(plan, descriptor, Took::Batch)))
    }

    /// The plan of a call; none where its headers aren't spelled rightly.
    pub(crate) fn plan_call(&mut self, script: &Script) -> Result<Option<Planned>, AllocError> {
        let Some((descriptor, body)) = behind_headers(self.reader.data()) else {
            return Ok(None);
        };
        if !self.reader.is_kept() {
            let plan = refused_call(self.alloc, CallFault::Long)?;
            return Ok(Some(Planned::new(plan, descriptor, Took::Call)));
        }
        let call = match read_call(self.alloc, body)? {
            Ok(call) => call,
            Err(fault) => {
                let plan = refused_call(self.alloc, fault)?;
                return Ok(Some(Planned::new(plan, descriptor, Took::Call)));
            }
        };
        self.text = self.habits.text_of(&call)?;
        let is_reset = call.procedure == Procedure::Reset;
        if is_reset {
            set_back(&mut self.habits, &mut self.behind_reset)?;
        }
        let text = self.text.as_slice();
        let plan = reply_to_call(self.alloc, &mut self.habits, script, call, text)?;
        let mut planned = Planned::new(plan, descriptor, Took::Call);
        planned.is_reset = is_reset;
        Ok(Some(planned))
    }

    /// The plan of a bulk load.
    pub(crate) fn plan_rows(&mut self, descriptor: u64) -> Result<Planned, AllocError> {
        self.text.clear();
        let plan = match self.reader.rows() {
            Some(rows) => Plan::counted(self.alloc, rows)?,
            None => {
                let text = units_in(self.alloc, b"These are no rows of a bulk load.")?;
                Plan::failed(self.alloc, End::Batch, 50_006, text)?
            }
        };
        Ok(Planned::new(plan, descriptor, Took::Rows))
    }
}

/// The plan of a call of this text, as the script says.
fn reply_to_call(
    alloc: Global,
    habits: &mut Habits,
    script: &Script,
    call: Call<'_>,
    text: &[u16],
) -> Result<Plan, AllocError> {
    match script.reply_to(text) {
        Some(Reply::Tokens(tokens)) => Plan::whole(alloc, copy(alloc, tokens)?),
        Some(Reply::Batch(batch)) => habits.plan_call(call, batch),
        None => habits.plan_call(call, text),
    }
}

/// The plan of a call that isn't read.
fn refused_call(alloc: Global, fault: CallFault) -> Result<Plan, AllocError> {
    let text: &[u8] = match fault {
        CallFault::Wrong => b"This call is not spelled rightly.",
        CallFault::UnknownType => {
            b"The type of a parameter is not read by tdsserve, a test server; docs/SERVING.md has those that are."
        }
        CallFault::ManyParameters => b"A call may have 256 parameters.",
        CallFault::Long => b"A parameter may have 1048576 bytes, and a call 1114112.",
    };
    let text = units_in(alloc, text)?;
    Plan::failed(alloc, End::Procedure { handle: None }, 50_006, text)
}
