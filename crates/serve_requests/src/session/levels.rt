//! Transactions within one another, as a SQL Server counts them, and savepoints.

ghost use Rattle.std.specs.Prelude.{◌≤◌, vec_len, IfOk};
ghost use Rattle.serve_requests.specs.declared.plan.TheConstants.{LONGEST};

use crate::plan::{Action, End, Plan};
use crate::session::{Habits, MOST};
use crate::substituting::substituted;
use serve_answers::{Done, put_done};
use serve_values::text::{is_same, is_word, own, units_in};
use serve_values::{Moment, Parameter};
use std::alloc::AllocError;

/// How many units of a savepoint's name count.
const NAME: usize = 32;

impl Habits {
    /// The time of the requests that come now.
    pub fn set_now(&mut self, now: Moment) {
        self.now = now;
    }

    /// A request comes, and the session is in this transaction, 0 for none.
    pub fn settle(&mut self, transaction: u64) {
        if transaction == 0 {
            self.level = 0;
        } else if transaction != self.transaction {
            self.level = 1;
        }
        self.transaction = transaction;
    }

    /// An answer has ended behind a statement with this level, where that is known, in this transaction.
    pub fn ended(&mut self, level: Option<u32>, transaction: u64) {
        self.settle(transaction);
        if let Some(level) = level {
            self.level = if transaction == 0 { 0 } else { level.max(1) };
        }
    }

    /// How many transactions are begun within one another.
    pub fn level(&self) -> u32 {
        self.level
    }

    /// The plan of a request that counts transactions alone, of which there are so many behind it.
    pub fn plan_level(&self, level: u32) -> Result<Plan, AllocError>
        ensures fits { IfOk result (λ plan. vec_len plan.text ≤ LONGEST) }
    {
        let mut plan = Plan::new(self.alloc, End::Batch);
        let mut tokens = Vec::new(self.alloc);
        put_done(&mut tokens, Done::Statement, 1, 0)?;
        plan.add_silent(self.alloc, Action::Tokens(tokens))?;
        plan.levels.push(level)?;
        Ok(plan)
    }

    /// No savepoint is left: the transaction that had them ends, or begins anew.
    pub fn end_savepoints(&mut self) {
        self.saved.clear();
    }

    /// Adds `begin tran`: in a transaction it counts alone.
    pub(super) fn add_begin(&mut self, plan: &mut Plan, level: &mut u32) -> Result<(), AllocError> {
        *level = level.saturating_add(1);
        if *level > 1 {
            return self.add_done(plan);
        }
        self.add_word(plan, b"begin")
    }

    /// Adds `commit tran`: but for the last one it counts alone.
    pub(super) fn add_commit(
        &mut self,
        plan: &mut Plan,
        level: &mut u32,
    ) -> Result<(), AllocError> {
        *level = level.saturating_sub(1);
        if *level > 0 {
            return self.add_done(plan);
        }
        self.add_word(plan, b"commit")
    }

    /// Adds `rollback tran`, of all transactions or to a savepoint.
    pub(super) fn add_rollback(
        &mut self,
        plan: &mut Plan,
        name: &[u16],
        level: &mut u32,
    ) -> Result<(), AllocError> {
        if self.is_saved(name) {
            return self.add_done(plan);
        }
        *level = 0;
        self.add_word(plan, b"rollback")
    }

    /// Adds a statement of the language that begins or ends the transaction.
    fn add_word(&mut self, plan: &mut Plan, word: &[u8]) -> Result<(), AllocError> {
        self.saved.clear();
        let statement = units_in(self.alloc, word)?;
        plan.add(statement.as_slice(), Action::Same)
    }

    /// Adds a statement of the language, or of no language at all.
    pub(super) fn add_same(
        &mut self,
        plan: &mut Plan,
        statement: &[u16],
        parameters: &[Parameter<'_>],
        level: &mut u32,
    ) -> Result<(), AllocError> {
        if is_word(statement, b"begin") {
            *level = (*level).max(1);
        } else if is_word(statement, b"commit") || is_word(statement, b"rollback") {
            *level = 0;
            self.saved.clear();
        }
        let statement = substituted(self.alloc, statement, parameters)?;
        plan.add(statement.as_slice(), Action::Same)
    }

    /// Whether a savepoint has this name.
    fn is_saved(&self, name: &[u16]) -> bool {
        for saved in &self.saved {
            if is_same(saved.as_slice(), short_name(name)) {
                return true;
            }
        }
        false
    }

    /// Adds a savepoint, which only a transaction has.
    pub(super) fn add_save(
        &mut self,
        plan: &mut Plan,
        name: &[u16],
        level: u32,
    ) -> Result<(), AllocError> {
        if level == 0 {
            let text = units_in(self.alloc, b"There is no active transaction to save.")?;
            return plan.add_failed(self.alloc, 628, text);
        }
        if self.saved.len() >= MOST {
            let _ = self.saved.remove(0);
        }
        self.saved.push(own(self.alloc, short_name(name))?)?;
        self.add_done(plan)
    }
}

/// What counts of a savepoint's name.
fn short_name(name: &[u16]) -> &[u16] {
    name.get(..NAME).unwrap_or(name)
}
