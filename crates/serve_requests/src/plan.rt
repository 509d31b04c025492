//! What is run for a request, and what is told in the place of what that tells.

ghost use Rattle.std.specs.Prelude.{◌≡◌, ◌+◌, ◌≤◌, length, vec_len, IfOk};
ghost use Rattle.serve_requests.specs.declared.plan.TheConstants.{LONGEST};

use serve_answers::{Done, put_done};
use serve_values::text::{front, units_in};
use std::alloc::{AllocError, Global};

/// The most units of a text (the batch language's limit).
pub const LONGEST: usize = 2000;

/// How many units a statement that fails has at most: its number has ten digits at most.
const FAILING: usize = 15;

/// A statement of the batch language that changes nothing: it stands in for one that is answered otherwise.
const SILENT: &[u8] = b"get a";

/// What is told of a statement.
#[derive(Debug, Drop)]
pub enum Action {
    /// What the batch language tells of it.
    Same,
    /// These tokens.
    Tokens(Vec<u8>),
    /// An ERROR of this number and text.
    Failed { number: u32, text: Vec<u16> },
    /// These tokens, and nothing behind them: they are the whole answer.
    Whole(Vec<u8>),
}

/// How an answer ends.
#[derive(Clone, Copy, Debug)]
pub enum End {
    /// As that of a batch: DONE.
    Batch,
    /// As that of a procedure: RETURNSTATUS, a handle where it gives one, DONEPROC.
    Procedure { handle: Option<u32> },
}

/// What is run for a request: a text of the batch language, and what is told of each of its statements; of
/// those behind the last action, the same as the language tells.
#[derive(Debug, Drop)]
pub struct Plan {
    pub text: Vec<u16>,
    pub actions: Vec<Action>,
    /// How many transactions are begun within one another behind each statement, where that is known.
    pub levels: Vec<u32>,
    /// How many milliseconds go by before its answer begins.
    pub wait: u32,
    pub end: End,
}

impl Plan {
    /// A plan of no statement yet.
    pub(crate) fn new(alloc: Global, end: End) -> Plan
        ensures { vec_len result.text ≡ 0 }
    {
        Plan {
            text: Vec::new(alloc),
            actions: Vec::new(alloc),
            levels: Vec::new(alloc),
            wait: 0,
            end,
        }
    }

    /// The plan of a request that is handed on as it is, and of which all is told.
    pub fn same(alloc: Global) -> Plan
        ensures { vec_len result.text ≡ 0 }
    {
        Plan::new(alloc, End::Batch)
    }

    /// The plan of an answer that is these tokens.
    pub fn whole(alloc: Global, tokens: Vec<u8>) -> Result<Plan, AllocError>
        ensures fits { IfOk result (λ plan. vec_len plan.text ≤ LONGEST) }
    {
        let mut plan = Plan::new(alloc, End::Batch);
        plan.add_silent(alloc, Action::Whole(tokens))?;
        Ok(plan)
    }

    /// The plan of a request that fails with this error.
    pub fn failed(alloc: Global, end: End, number: u32, text: Vec<u16>) -> Result<Plan, AllocError>
        ensures fits { IfOk result (λ plan. vec_len plan.text ≤ LONGEST) }
    {
        let mut plan = Plan::new(alloc, end);
        plan.add_failed(alloc, number, text)?;
        Ok(plan)
    }

    /// The plan of a batch whose rows were counted.
    pub fn counted(alloc: Global, rows: u64) -> Result<Plan, AllocError>
        ensures fits { IfOk result (λ plan. vec_len plan.text ≤ LONGEST) }
    {
        let mut plan = Plan::new(alloc, End::Batch);
        let mut tokens = Vec::new(alloc);
        put_done(&mut tokens, Done::Statement, 0x11, rows)?;
        plan.add_silent(alloc, Action::Tokens(tokens))?;
        Ok(plan)
    }

    /// Adds a statement of the language, with what is told of it.
    pub(crate) fn add(&mut self, statement: &[u16], action: Action) -> Result<(), AllocError>
        ensures { vec_len self.new.text ≤ vec_len self.old.text + (1 + length statement.now) }
    {
        if !self.actions.is_empty() {
            self.text.push(59)?;
        }
        self.text.extend_from_slice(statement)?;
        self.actions.push(action)?;
        Ok(())
    }

    /// Adds a statement that changes nothing.
    pub(crate) fn add_silent(&mut self, alloc: Global, action: Action) -> Result<(), AllocError>
        ensures { vec_len self.new.text ≤ vec_len self.old.text + 6 }
    {
        let statement = units_in(alloc, SILENT)?;
        self.add(statement.as_slice(), action)
    }

    /// Adds a statement that fails.
    pub(crate) fn add_failed(
        &mut self,
        alloc: Global,
        number: u32,
        text: Vec<u16>,
    ) -> Result<(), AllocError>
        ensures { vec_len self.new.text ≤ vec_len self.old.text + 16 }
    {
        let statement = format!(in alloc; "fail {number}")?;
        let statement = units_in(alloc, statement.as_bytes())?;
        let statement = front(statement.as_slice(), FAILING);
        self.add(statement, Action::Failed { number, text })
    }
}
