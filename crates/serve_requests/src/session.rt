//! What a session keeps beside the server's own: its database, savepoints, prepared texts.

mod calls;
mod levels;
mod things;

ghost use Rattle.std.specs.Prelude.{◌≤◌, length, vec_len, IfOk};
ghost use Rattle.serve_requests.specs.declared.plan.TheConstants.{LONGEST};

use crate::plan::{Action, End, LONGEST, Plan};
use crate::statements::{Known, statements_of, what_is};
use serve_answers::{
    Column, Done, put_collation_change, put_columns, put_done, put_info, put_row, put_text_change,
};
use serve_states::States;
use serve_values::text::{front, is_word, own, trimmed, units_in};
use serve_values::{Found, Moment, Own, Parameter, Query, columns_of};
use std::alloc::{AllocError, Global};
use things::Thing;

/// The most savepoints, prepared texts and things of a session. Of more, the oldest are forgotten.
const MOST: usize = 32;

/// How many units the prepared texts of a session have before the oldest are forgotten.
const ROOM: usize = 16_384;

/// The most bytes that are told of a text in the place of what the language tells.
const MOST_TOLD: usize = 1_114_112;

/// The language of a session that chose none.
const LANGUAGE: &[u8] = b"us_english";

/// The most units of a database's name, and of a language's.
const LONGEST_NAME: usize = 128;

/// A text that was prepared.
#[derive(Drop)]
struct Prepared {
    handle: u32,
    text: Vec<u16>,
    declarations: Vec<u16>,
}

/// What a session keeps beside the server's own.
#[derive(Drop)]
pub struct Habits {
    alloc: Global,
    /// The database that the login asked for.
    first_database: Vec<u16>,
    database: Vec<u16>,
    language: Vec<u16>,
    saved: Vec<Vec<u16>>,
    prepared: Vec<Prepared>,
    handles: u32,
    /// The session's number.
    spid: u16,
    now: Moment,
    /// How many transactions are begun within one another, and the descriptor of the outermost one, 0 for none.
    level: u32,
    transaction: u64,
    /// What it has made, and what is told of it and of its settings.
    things: Vec<Thing>,
    states: States,
}

impl Habits {
    /// Those of the session of this number, in this database.
    pub fn new(alloc: Global, database: &[u16], spid: u16) -> Result<Habits, AllocError> {
        let language = units_in(alloc, LANGUAGE)?;
        Ok(Habits {
            alloc,
            first_database: own(alloc, database)?,
            database: own(alloc, database)?,
            states: States::new(alloc, database, language.as_slice())?,
            things: Vec::new(alloc),
            language,
            saved: Vec::new(alloc),
            prepared: Vec::new(alloc),
            handles: 0,
            spid,
            now: Moment::since_1970(0),
            level: 0,
            transaction: 0,
        })
    }

    /// A reset: all is as the login left it.
    pub fn reset(&mut self) -> Result<(), AllocError> {
        self.database = own(self.alloc, self.first_database.as_slice())?;
        self.language = units_in(self.alloc, LANGUAGE)?;
        self.saved.clear();
        self.prepared.clear();
        self.reset_things()
    }

    /// What a SQL Server tells of a session that it begins: its database, the collation, its language
    /// (MS-TDS 2.2.7.9, types 1, 7 and 2), each with its INFO (2.2.7.13).
    pub fn login_tokens(&self, alloc: Global) -> Result<Vec<u8>, AllocError> {
        let mut tokens = Vec::new(alloc);
        let database = front(self.database.as_slice(), LONGEST_NAME);
        let language = self.language.as_slice();
        let master = units_in(alloc, b"master")?;
        put_text_change(alloc, &mut tokens, 1, database, master.as_slice())?;
        put_database_info(alloc, &mut tokens, database)?;
        put_collation_change(&mut tokens)?;
        put_text_change(alloc, &mut tokens, 2, language, &[])?;
        put_language_info(alloc, &mut tokens, language)?;
        Ok(tokens)
    }

    /// What a SQL Server tells with a reset that is done: the database and the collation.
    pub fn tokens(&self, alloc: Global) -> Result<Vec<u8>, AllocError> {
        let mut tokens = Vec::new(alloc);
        let database = self.database.as_slice();
        put_text_change(alloc, &mut tokens, 1, database, database)?;
        put_collation_change(&mut tokens)?;
        Ok(tokens)
    }

    /// The plan of a batch.
    pub fn plan_batch(&mut self, text: &[u16]) -> Result<Plan, AllocError>
        ensures fits { IfOk result (λ plan. vec_len plan.text ≤ LONGEST) }
    {
        self.plan_text(text, &[], End::Batch)
    }

    /// The plan of a text with these parameters.
    fn plan_text(
        &mut self,
        text: &[u16],
        parameters: &[Parameter<'_>],
        end: End,
    ) -> Result<Plan, AllocError>
        ensures fits { IfOk result (λ plan. vec_len plan.text ≤ LONGEST) }
    {
        if text.len() > LONGEST {
            return self.too_long(text.len(), end);
        }
        let mut plan = Plan::new(self.alloc, end);
        let mut level = self.level;
        let mut is_known = !parameters.is_empty();
        let mut told: usize = 0;
        let statements = statements_of(self.alloc, text)?;
        for statement in &statements {
            let is_of_drivers = self.add(&mut plan, statement, parameters, &mut level)?;
            plan.levels.push(level)?;
            is_known = is_known || is_of_drivers;
            told = told.saturating_add(last_told(plan.actions.as_slice()));
            if told > MOST_TOLD {
                return self.too_much(end);
            }
            if plan.text.len() > LONGEST {
                return self.too_long_to_run(end);
            }
        }
        if statements.is_empty() {
            return self.silent(end);
        }
        if !is_known {
            return self.as_it_is(text, plan.levels, end);
        }
        Ok(plan)
    }

    /// The plan of a text without a statement.
    fn silent(&self, end: End) -> Result<Plan, AllocError>
        ensures fits { IfOk result (λ plan. vec_len plan.text ≤ LONGEST) }
    {
        let mut plan = Plan::new(self.alloc, end);
        plan.add_silent(self.alloc, Action::Tokens(Vec::new(self.alloc)))?;
        Ok(plan)
    }

    /// The plan of a text that is of the language alone.
    fn as_it_is(&self, text: &[u16], levels: Vec<u32>, end: End) -> Result<Plan, AllocError>
        requires { length text.now ≤ LONGEST }
        ensures fits { IfOk result (λ plan. vec_len plan.text ≤ LONGEST) }
    {
        let mut plan = Plan::new(self.alloc, end);
        plan.text = own(self.alloc, trimmed(text))?;
        plan.levels = levels;
        Ok(plan)
    }

    /// The plan of a text that is too long.
    fn too_long(&self, count: usize, end: End) -> Result<Plan, AllocError>
        ensures fits { IfOk result (λ plan. vec_len plan.text ≤ LONGEST) }
    {
        let alloc = self.alloc;
        let text = format!(in alloc; "This text has {count} units, and may have {LONGEST}.")?;
        let text = units_in(alloc, text.as_bytes())?;
        Plan::failed(alloc, end, 50_005, text)
    }

    /// The plan of a text for which too much would be run, with its parameters.
    fn too_long_to_run(&self, end: End) -> Result<Plan, AllocError>
        ensures fits { IfOk result (λ plan. vec_len plan.text ≤ LONGEST) }
    {
        let alloc = self.alloc;
        let text = format!(in alloc; "What is run for this text has more than {LONGEST} units.")?;
        let text = units_in(alloc, text.as_bytes())?;
        Plan::failed(alloc, end, 50_005, text)
    }

    /// The plan of a text that too much would be told of.
    fn too_much(&self, end: End) -> Result<Plan, AllocError>
        ensures fits { IfOk result (λ plan. vec_len plan.text ≤ LONGEST) }
    {
        Plan::failed(self.alloc, end, 50_005, too_much(self.alloc)?)
    }

    /// Adds a statement, and answers whether it is one that drivers send.
    fn add(
        &mut self,
        plan: &mut Plan,
        statement: &[u16],
        parameters: &[Parameter<'_>],
        level: &mut u32,
    ) -> Result<bool, AllocError> {
        match what_is(statement) {
            Some(Known::IfOpen(then)) if *level > 0 => {
                let _ = self.add_known(plan, then, what_is(then), parameters, level)?;
                Ok(true)
            }
            Some(Known::IfOpen(_)) => {
                self.add_done(plan)?;
                Ok(true)
            }
            None if *level > 1 && is_word(statement, b"commit") => {
                self.add_commit(plan, level)?;
                Ok(true)
            }
            found => self.add_known(plan, statement, found, parameters, level),
        }
    }

    /// The same of a statement without a condition, and of what it is.
    fn add_known(
        &mut self,
        plan: &mut Plan,
        statement: &[u16],
        found: Option<Known<'_>>,
        parameters: &[Parameter<'_>],
        level: &mut u32,
    ) -> Result<bool, AllocError> {
        match found {
            Some(Known::Silent) => self.add_done(plan)?,
            Some(Known::Setting(rest)) => self.add_setting(plan, rest)?,
            Some(Known::Making(making, name)) => self.add_making(plan, making, name)?,
            Some(Known::Options) => self.add_options(plan)?,
            Some(Known::Wait(milliseconds)) => self.add_wait(plan, milliseconds)?,
            Some(Known::Language(name)) => self.add_language(plan, name)?,
            Some(Known::Use(name)) => self.add_use(plan, name)?,
            Some(Known::Begin) => self.add_begin(plan, level)?,
            Some(Known::Commit) => self.add_commit(plan, level)?,
            Some(Known::Rollback(name)) => self.add_rollback(plan, name, level)?,
            Some(Known::Save(name)) => self.add_save(plan, name, *level)?,
            Some(Known::Select(items)) => {
                return self.add_select(plan, statement, items, parameters, *level);
            }
            Some(Known::IfOpen(_)) | None => {
                self.add_same(plan, statement, parameters, level)?;
                return Ok(false);
            }
        }
        Ok(true)
    }

    /// Adds a statement of which nothing but its end is told.
    fn add_done(&self, plan: &mut Plan) -> Result<(), AllocError> {
        let mut tokens = Vec::new(self.alloc);
        put_done(&mut tokens, Done::Statement, 1, 0)?;
        plan.add_silent(self.alloc, Action::Tokens(tokens))
    }

    /// Adds the choice of a language: ENVCHANGE 2 and INFO 5703.
    fn add_language(&mut self, plan: &mut Plan, name: &[u16]) -> Result<(), AllocError> {
        let alloc = self.alloc;
        let name = front(name, LONGEST_NAME);
        let mut tokens = Vec::new(alloc);
        put_text_change(alloc, &mut tokens, 2, name, self.language.as_slice())?;
        put_language_info(alloc, &mut tokens, name)?;
        put_done(&mut tokens, Done::Statement, 1, 0)?;
        self.language = own(alloc, name)?;
        self.set_state(b"language", name)?;
        plan.add_silent(alloc, Action::Tokens(tokens))
    }

    /// Adds the choice of a database: ENVCHANGE 1 and INFO 5701.
    fn add_use(&mut self, plan: &mut Plan, name: &[u16]) -> Result<(), AllocError> {
        let alloc = self.alloc;
        let mut tokens = Vec::new(alloc);
        put_text_change(alloc, &mut tokens, 1, name, self.database.as_slice())?;
        put_database_info(alloc, &mut tokens, name)?;
        put_done(&mut tokens, Done::Statement, 1, 0)?;
        self.database = own(alloc, name)?;
        self.set_state(b"database", name)?;
        plan.add_silent(alloc, Action::Tokens(tokens))
    }

    /// Adds a query, whose items may be known.
    fn add_select(
        &mut self,
        plan: &mut Plan,
        statement: &[u16],
        items: &[u16],
        parameters: &[Parameter<'_>],
        level: u32,
    ) -> Result<bool, AllocError> {
        let found = columns_of(&self.query(parameters, level), items)?;
        self.add_found(plan, statement, &found)
    }

    /// What the items of a query with these parameters are read with.
    fn query<'a, 'b>(&'a self, parameters: &'a [Parameter<'b>], level: u32) -> Query<'a, 'b> {
        let own_values = Own {
            database: self.database.as_slice(),
            level,
            spid: self.spid,
            now: self.now,
        };
        Query {
            alloc: self.alloc,
            own_values,
            parameters,
            most: MOST_TOLD,
        }
    }

    /// Adds what a query gives.
    fn add_found(
        &self,
        plan: &mut Plan,
        statement: &[u16],
        found: &Found,
    ) -> Result<bool, AllocError> {
        let alloc = self.alloc;
        match found {
            Found::Columns(columns) => {
                let tokens = tokens_of(alloc, columns.as_slice())?;
                plan.add_silent(alloc, Action::Tokens(tokens))?;
            }
            Found::Refused(refusal) => {
                let text = units_in(alloc, refusal.text())?;
                plan.add_failed(alloc, refusal.number(), text)?;
            }
            Found::TooMuch => {
                let text = too_much(alloc)?;
                plan.add_failed(alloc, 50_005, text)?;
            }
            Found::Unknown => {
                plan.add(statement, Action::Same)?;
                return Ok(false);
            }
        }
        Ok(true)
    }
}

/// How many bytes the last action tells in the place of what the language tells.
fn last_told(actions: &[Action]) -> usize {
    match actions.last() {
        Some(Action::Tokens(tokens)) => tokens.len(),
        _ => 0,
    }
}

/// Says that too much would be told.
fn too_much(alloc: Global) -> Result<Vec<u16>, AllocError> {
    let text = format!(in alloc; "The answer has more than {MOST_TOLD} bytes.")?;
    units_in(alloc, text.as_bytes())
}

/// The tokens of one row with these columns.
fn tokens_of(alloc: Global, columns: &[Column]) -> Result<Vec<u8>, AllocError> {
    let mut tokens = Vec::new(alloc);
    put_columns(&mut tokens, columns)?;
    put_row(&mut tokens, columns)?;
    put_done(&mut tokens, Done::Statement, 0x11, 1)?;
    Ok(tokens)
}

/// Appends the INFO that a session is in this database.
fn put_database_info(alloc: Global, out: &mut Vec<u8>, name: &[u16]) -> Result<(), AllocError> {
    let mut text = units_in(alloc, b"Changed database context to '")?;
    text.extend_from_slice(front(name, LONGEST_NAME))?;
    text.extend_from_slice(&[39, 46])?;
    put_info(alloc, out, 5701, text.as_slice())
}

/// Appends the INFO that messages are in this language.
fn put_language_info(alloc: Global, out: &mut Vec<u8>, name: &[u16]) -> Result<(), AllocError> {
    let mut text = units_in(alloc, b"Changed language setting to ")?;
    text.extend_from_slice(front(name, LONGEST_NAME))?;
    text.push(46)?;
    put_info(alloc, out, 5703, text.as_slice())
}
