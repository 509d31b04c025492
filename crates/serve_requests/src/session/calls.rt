//! The plans of calls, and the texts that they prepare.

ghost use Rattle.std.specs.Prelude.{◌≤◌, vec_len, IfOk};
ghost use Rattle.serve_requests.specs.declared.plan.TheConstants.{LONGEST};

use crate::call::{Call, Procedure, declared};
use crate::making::Making;
use crate::plan::{Action, End, LONGEST, Plan};
use crate::session::{Habits, MOST, Prepared, ROOM};
use serve_values::Parameter;
use serve_values::text::{is_word, own, units_in};
use std::alloc::AllocError;

/// What is told with the name of a procedure that isn't known.
const HINT: &[u8] =
    b" tdsserve is a test server; docs/SERVING.md has the procedures that it knows.";

impl Habits {
    /// The text that a call runs or prepares; the procedure's name where it has none.
    pub fn text_of(&self, call: &Call<'_>) -> Result<Vec<u16>, AllocError> {
        match call.procedure {
            Procedure::ExecuteText => self.text_at(call, 0),
            Procedure::Prepare | Procedure::PrepareAndExecute => self.text_at(call, 2),
            Procedure::Execute => match self.prepared_by(call) {
                Some(prepared) => own(self.alloc, prepared.text.as_slice()),
                None => own(self.alloc, call.name.as_slice()),
            },
            _ => own(self.alloc, call.name.as_slice()),
        }
    }

    /// The text of a parameter, nothing where there is none.
    fn text_at(&self, call: &Call<'_>, place: usize) -> Result<Vec<u16>, AllocError> {
        let text = match call.parameters.get(place) {
            Some(parameter) => parameter.bytes.text(self.alloc)?,
            None => None,
        };
        Ok(match text {
            Some(text) => text,
            None => Vec::new(self.alloc),
        })
    }

    /// The prepared text whose handle is the call's first parameter.
    fn prepared_by(&self, call: &Call<'_>) -> Option<&Prepared> {
        let handle = handle_of(call)?;
        for prepared in &self.prepared {
            if prepared.handle == handle {
                return Some(prepared);
            }
        }
        None
    }

    /// The plan of a call that runs or prepares this text.
    pub fn plan_call(&mut self, mut call: Call<'_>, text: &[u16]) -> Result<Plan, AllocError>
        ensures fits { IfOk result (λ plan. vec_len plan.text ≤ LONGEST) }
    {
        match call.procedure {
            Procedure::ExecuteText => self.plan_run(&mut call, text, None),
            Procedure::Prepare => {
                let handle = self.prepare(&call, text)?;
                self.plan_silent(Some(handle))
            }
            Procedure::PrepareAndExecute => {
                let handle = self.prepare(&call, text)?;
                self.plan_run(&mut call, text, Some(handle))
            }
            Procedure::Execute => self.plan_execute(&mut call, text),
            Procedure::Unprepare => {
                self.unprepare(&call);
                self.count_handles()?;
                self.plan_silent(None)
            }
            Procedure::Reset => self.plan_silent(None),
            Procedure::Lock => self.plan_lock(&call, Making::Lock),
            Procedure::Unlock => self.plan_lock(&call, Making::Unlock),
            Procedure::Other => self.unknown(&call),
        }
    }

    /// The plan of a call that takes the application lock of its parameter `@Resource`, the first one without a
    /// name, or releases it.
    fn plan_lock(&mut self, call: &Call<'_>, making: Making) -> Result<Plan, AllocError>
        ensures fits { IfOk result (λ plan. vec_len plan.text ≤ LONGEST) }
    {
        let mut place = 0;
        for (at, parameter) in call.parameters.iter().enumerate() {
            if is_word(parameter.name.as_slice(), b"@resource") {
                place = at;
            }
        }
        let name = self.text_at(call, place)?;
        let end = End::Procedure { handle: None };
        let mut plan = Plan::new(self.alloc, end);
        self.add_making(&mut plan, making, name.as_slice())?;
        if plan.text.len() > LONGEST {
            return self.too_long_to_run(end);
        }
        Ok(plan)
    }

    /// The plan of a call of which nothing but its end is told.
    fn plan_silent(&self, handle: Option<u32>) -> Result<Plan, AllocError>
        ensures fits { IfOk result (λ plan. vec_len plan.text ≤ LONGEST) }
    {
        let mut plan = Plan::new(self.alloc, End::Procedure { handle });
        plan.add_silent(self.alloc, Action::Tokens(Vec::new(self.alloc)))?;
        Ok(plan)
    }

    /// The plan of a text that is run with the parameters behind it and its declarations, and before it,
    /// where it is prepared too, its handle.
    fn plan_run(
        &mut self,
        call: &mut Call<'_>,
        text: &[u16],
        handle: Option<u32>,
    ) -> Result<Plan, AllocError>
        ensures fits { IfOk result (λ plan. vec_len plan.text ≤ LONGEST) }
    {
        let from = if handle.is_some() { 3 } else { 2 };
        let declarations = self.text_at(call, 1)?;
        self.name_parameters(call, from, declarations.as_slice())?;
        let end = End::Procedure { handle };
        self.plan_text(text, behind(call, from), end)
    }

    /// The plan of a prepared text that is run.
    fn plan_execute(&mut self, call: &mut Call<'_>, text: &[u16]) -> Result<Plan, AllocError>
        ensures fits { IfOk result (λ plan. vec_len plan.text ≤ LONGEST) }
    {
        let end = End::Procedure { handle: None };
        let declarations = match self.prepared_by(call) {
            Some(prepared) => own(self.alloc, prepared.declarations.as_slice())?,
            None => {
                let text = units_in(self.alloc, b"Could not find the prepared statement.")?;
                return Plan::failed(self.alloc, end, 8179, text);
            }
        };
        self.name_parameters(call, 1, declarations.as_slice())?;
        self.plan_text(text, behind(call, 1), end)
    }

    /// Names parameters from this place on that have no name, as they are declared.
    fn name_parameters(
        &self,
        call: &mut Call<'_>,
        from: usize,
        declarations: &[u16],
    ) -> Result<(), AllocError> {
        for (place, parameter) in call.parameters.iter_mut().enumerate() {
            if place >= from && parameter.name.is_empty() {
                parameter.name = declared(self.alloc, declarations, place - from)?;
            }
        }
        Ok(())
    }

    /// Keeps a text that is prepared, and answers its handle.
    fn prepare(&mut self, call: &Call<'_>, text: &[u16]) -> Result<u32, AllocError> {
        let declarations = self.text_at(call, 1)?;
        self.make_room();
        self.handles = self.handles.saturating_add(1);
        let kept = text.get(..LONGEST + 1).unwrap_or(text);
        let text = own(self.alloc, kept)?;
        let handle = self.handles;
        self.prepared.push(Prepared {
            handle,
            text,
            declarations,
        })?;
        self.count_handles()?;
        Ok(handle)
    }

    /// Forgets the oldest texts that were prepared until there is room for one more.
    fn make_room(&mut self) {
        for _ in 0..MOST {
            if self.prepared.len() < MOST && self.kept() <= ROOM {
                return;
            }
            if !self.prepared.is_empty() {
                let _ = self.prepared.remove(0);
            }
        }
    }

    /// How many units the texts that were prepared have.
    fn kept(&self) -> usize {
        let mut count: usize = 0;
        for prepared in &self.prepared {
            let units = prepared
                .text
                .len()
                .saturating_add(prepared.declarations.len());
            count = count.saturating_add(units);
        }
        count
    }

    /// Forgets a text that was prepared.
    fn unprepare(&mut self, call: &Call<'_>) {
        let Some(handle) = handle_of(call) else {
            return;
        };
        for prepared in &mut self.prepared {
            if prepared.handle == handle {
                prepared.handle = 0;
            }
        }
    }

    /// The plan of a call of a procedure that isn't known.
    fn unknown(&self, call: &Call<'_>) -> Result<Plan, AllocError>
        ensures fits { IfOk result (λ plan. vec_len plan.text ≤ LONGEST) }
    {
        let mut text = units_in(self.alloc, b"Could not find stored procedure '")?;
        let name = call.name.as_slice();
        text.extend_from_slice(name.get(..100).unwrap_or(name))?;
        text.extend_from_slice(&[39, 46])?;
        let hint = units_in(self.alloc, HINT)?;
        text.extend_from_slice(hint.as_slice())?;
        Plan::failed(self.alloc, End::Procedure { handle: None }, 2812, text)
    }
}

/// The handle that is a call's first parameter.
fn handle_of(call: &Call<'_>) -> Option<u32> {
    let number = call.parameters.first()?.bytes.number()?;
    match u32::try_from(number) {
        Ok(0) | Err(_) => None,
        Ok(handle) => Some(handle),
    }
}

/// The parameters from this place on.
fn behind<'a, 'b>(call: &'a Call<'b>, from: usize) -> &'a [Parameter<'b>] {
    let parameters = call.parameters.as_slice();
    &parameters[from.min(parameters.len())..]
}
