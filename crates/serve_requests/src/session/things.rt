//! What a session makes for itself alone, and its settings, which are told where the login asks for that.

use crate::making::Making;
use crate::plan::{Action, Plan};
use crate::session::{Habits, MOST, tokens_of};
use serve_answers::{COLLATION, Column, Done, Value, put_columns, put_done, put_row};
use serve_states::{Made, Vice};
use serve_values::text::{Piece, front, is_same, is_word, next_piece, own, trimmed, units_in};
use std::alloc::{AllocError, Global};

/// The most units of a thing's name that count.
const NAME: usize = 128;

/// A thing that a session has made.
#[derive(Drop)]
pub(super) struct Thing {
    made: Made,
    name: Vec<u16>,
    /// How many rows a table has.
    rows: u32,
}

impl Habits {
    /// The login has asked for session recovery: its states are told.
    pub fn tell_states(&mut self) {
        self.states.ask();
    }

    /// States are told wrongly so.
    pub fn take_vice(&mut self, vice: &Vice) {
        self.states.take_vice(vice);
    }

    /// The states as a login's answer tells them (MS-TDS 2.2.7.11).
    pub fn initial_states(&self) -> Result<Vec<u8>, AllocError> {
        self.states.initial()
    }

    /// What is to be told of the states behind a request, where the batch language's settings are these.
    pub fn news(&mut self, letters: &[Option<i32>]) -> Result<Vec<u8>, AllocError> {
        self.states.set_letters(letters)?;
        self.states.news()
    }

    /// What a reset that is done tells of the states.
    pub fn news_of_reset(&mut self) -> Result<Vec<u8>, AllocError> {
        self.states.news()
    }

    /// An answer has gone out, whole or broken off.
    pub fn told(&mut self, is_whole: bool) {
        if is_whole {
            self.states.heard();
        } else {
            self.states.unheard();
        }
    }

    /// A reset: nothing of its own is left, and each setting is as the login left it.
    pub(super) fn reset_things(&mut self) -> Result<(), AllocError> {
        self.things.clear();
        self.states.reset()
    }

    /// The session has so many prepared texts.
    pub(super) fn count_handles(&mut self) -> Result<(), AllocError> {
        let mut count: usize = 0;
        for prepared in &self.prepared {
            if prepared.handle > 0 {
                count = count.saturating_add(1);
            }
        }
        self.states.count(Made::Handles, count)
    }

    /// A transaction chooses this isolation level (MS-TDS 2.2.6.9), 0 for the one that is.
    pub fn isolate(&mut self, level: u8) -> Result<(), AllocError> {
        let name: &[u8] = match level {
            1 => b"read uncommitted",
            2 => b"read committed",
            3 => b"repeatable read",
            4 => b"serializable",
            5 => b"snapshot",
            _ => return Ok(()),
        };
        let level = units_in(self.alloc, name)?;
        self.set_state(b"isolation level", level.as_slice())
    }

    /// A setting of this name has this value.
    pub(super) fn set_state(&mut self, name: &[u8], value: &[u16]) -> Result<(), AllocError> {
        let name = units_in(self.alloc, name)?;
        self.states.set(name.as_slice(), value)
    }

    /// Adds a setting, of what stands behind `set`.
    pub(super) fn add_setting(&mut self, plan: &mut Plan, rest: &[u16]) -> Result<(), AllocError> {
        match next_piece(rest) {
            (Piece::Word(word), behind) if is_word(word, b"transaction") => {
                // `isolation level`, and the level
                let (_, behind) = next_piece(behind);
                let (_, level) = next_piece(behind);
                self.set_state(b"isolation level", trimmed(level))?;
            }
            // a variable is none of the session's
            (Piece::Word([64, ..]), _) => {}
            _ => self.set_all(rest)?,
        }
        self.add_done(plan)
    }

    /// Each name before a value has that, as in `ansi_nulls, ansi_padding on`.
    fn set_all(&mut self, text: &[u16]) -> Result<(), AllocError> {
        let value = value_behind(text);
        let mut rest = text;
        for _ in 0..text.len() {
            let (Piece::Word(name) | Piece::Name(name), behind) = next_piece(rest) else {
                break;
            };
            self.states.set(name, value)?;
            match next_piece(behind) {
                (Piece::Sign(44), after) => rest = after,
                _ => break,
            }
        }
        Ok(())
    }

    /// Where a thing of this name stands.
    fn place_of(&self, made: Made, name: &[u16]) -> Option<usize> {
        for (place, thing) in self.things.iter().enumerate() {
            if thing.made == made && is_same(thing.name.as_slice(), front(name, NAME)) {
                return Some(place);
            }
        }
        None
    }

    /// Tells how many such things there are.
    fn count_things(&mut self, made: Made) -> Result<(), AllocError> {
        let mut count: usize = 0;
        for thing in &self.things {
            if thing.made == made {
                count = count.saturating_add(1);
            }
        }
        self.states.count(made, count)
    }

    /// Keeps a thing of this name.
    fn make(&mut self, made: Made, name: &[u16]) -> Result<(), AllocError> {
        if self.things.len() >= MOST {
            let _ = self.things.remove(0);
        }
        let name = own(self.alloc, front(name, NAME))?;
        self.things.push(Thing {
            made,
            name,
            rows: 0,
        })?;
        self.count_things(made)
    }

    /// Adds what is done with a thing of the session's own.
    pub(super) fn add_making(
        &mut self,
        plan: &mut Plan,
        making: Making,
        name: &[u16],
    ) -> Result<(), AllocError> {
        let made = made_of(making);
        let place = self.place_of(made, name);
        match (making, place) {
            (Making::Create | Making::Declare, Some(_)) => self.add_refusal(plan, making, name),
            (Making::Create | Making::Declare | Making::Lock, _) => {
                self.make(made, name)?;
                self.add_done(plan)
            }
            (_, None) => self.add_refusal(plan, making, name),
            (Making::Drop | Making::Deallocate | Making::Unlock, Some(place)) => {
                if place < self.things.len() {
                    let _ = self.things.remove(place);
                }
                self.count_things(made)?;
                self.add_done(plan)
            }
            (Making::Insert, Some(place)) => self.add_insert(plan, place),
            (Making::Count, Some(place)) => self.add_count(plan, place),
            (Making::Fetch, Some(_)) => self.add_done(plan),
        }
    }

    /// Adds a row to the table that stands there.
    fn add_insert(&mut self, plan: &mut Plan, place: usize) -> Result<(), AllocError> {
        if let Some(thing) = self.things.get_mut(place) {
            thing.rows = thing.rows.saturating_add(1);
        }
        let mut tokens = Vec::new(self.alloc);
        put_done(&mut tokens, Done::Statement, 0x11, 1)?;
        plan.add_silent(self.alloc, Action::Tokens(tokens))
    }

    /// Adds the count of the rows of the table that stands there.
    fn add_count(&mut self, plan: &mut Plan, place: usize) -> Result<(), AllocError> {
        let rows = match self.things.get(place) {
            Some(thing) => thing.rows,
            None => 0,
        };
        let mut columns = Vec::new(self.alloc);
        columns.push(number_column(self.alloc, rows)?)?;
        let tokens = tokens_of(self.alloc, columns.as_slice())?;
        plan.add_silent(self.alloc, Action::Tokens(tokens))
    }

    /// Adds the error of a thing that is there, or isn't.
    fn add_refusal(
        &mut self,
        plan: &mut Plan,
        making: Making,
        name: &[u16],
    ) -> Result<(), AllocError> {
        let (number, before, behind) = refusal_of(making);
        let mut text = units_in(self.alloc, before)?;
        text.extend_from_slice(front(name, NAME))?;
        let behind = units_in(self.alloc, behind)?;
        text.extend_from_slice(behind.as_slice())?;
        plan.add_failed(self.alloc, number, text)
    }

    /// Adds a wait, which is the whole answer's.
    pub(super) fn add_wait(&self, plan: &mut Plan, milliseconds: u32) -> Result<(), AllocError> {
        plan.wait = plan.wait.saturating_add(milliseconds);
        self.add_done(plan)
    }

    /// Adds the settings of the session, a row each.
    pub(super) fn add_options(&self, plan: &mut Plan) -> Result<(), AllocError> {
        let mut tokens = Vec::new(self.alloc);
        let mut count: u64 = 0;
        for place in 0..NAME {
            let Some((name, value)) = self.states.setting(place) else {
                break;
            };
            let columns = option_columns(self.alloc, name.as_bytes(), value)?;
            if count == 0 {
                put_columns(&mut tokens, columns.as_slice())?;
            }
            put_row(&mut tokens, columns.as_slice())?;
            count = count.saturating_add(1);
        }
        put_done(&mut tokens, Done::Statement, 0x11, count)?;
        plan.add_silent(self.alloc, Action::Tokens(tokens))
    }
}

/// What stands behind the names of a setting.
fn value_behind(text: &[u16]) -> &[u16] {
    let mut rest = text;
    for _ in 0..text.len() {
        let (_, behind) = next_piece(rest);
        match next_piece(behind) {
            (Piece::Sign(44), after) => rest = after,
            _ => return trimmed(behind),
        }
    }
    &[]
}

/// What is made, or was.
fn made_of(making: Making) -> Made {
    match making {
        Making::Create | Making::Drop | Making::Insert | Making::Count => Made::Tables,
        Making::Declare | Making::Fetch | Making::Deallocate => Made::Cursors,
        Making::Lock | Making::Unlock => Made::Locks,
    }
}

/// The number of the error, and what stands in its text before the name and behind it.
fn refusal_of<'a>(making: Making) -> (u32, &'a [u8], &'a [u8]) {
    match making {
        Making::Create => (
            2714,
            b"There is already an object named '",
            b"' in the database.",
        ),
        Making::Drop => (
            3701,
            b"Cannot drop the table '",
            b"', because it does not exist.",
        ),
        Making::Insert | Making::Count => (208, b"Invalid object name '", b"'."),
        Making::Declare => (16_915, b"A cursor with the name '", b"' already exists."),
        Making::Fetch | Making::Deallocate => {
            (16_916, b"A cursor with the name '", b"' does not exist.")
        }
        Making::Lock | Making::Unlock => {
            (
                1223,
                b"Cannot release the application lock '",
                b"' because it is not held.",
            )
        }
    }
}

/// A column without a name, of INTN of four bytes.
fn number_column(alloc: Global, number: u32) -> Result<Column, AllocError> {
    let mut kind = Vec::new(alloc);
    kind.extend_from_slice(&[0x26, 4])?;
    let mut bytes = Vec::new(alloc);
    bytes.push(4)?;
    bytes.extend_from_slice(&number.to_le_bytes())?;
    Ok(Column {
        name: Vec::new(alloc),
        value: Value { kind, bytes },
    })
}

/// A column of NVARCHAR(128), with the bytes of a value.
fn text_column(alloc: Global, name: &[u8], value: &[u8]) -> Result<Column, AllocError> {
    let [a, b, c, d, e] = COLLATION;
    let mut kind = Vec::new(alloc);
    kind.extend_from_slice(&[0xe7, 0, 1, a, b, c, d, e])?;
    let value = &value[..value.len().min(256)];
    let mut bytes = Vec::new(alloc);
    bytes.extend_from_slice(&((value.len() % 65_536) as u16).to_le_bytes())?;
    bytes.extend_from_slice(value)?;
    Ok(Column {
        name: units_in(alloc, name)?,
        value: Value { kind, bytes },
    })
}

/// The two columns of a setting.
fn option_columns(alloc: Global, name: &[u8], value: &[u8]) -> Result<Vec<Column>, AllocError> {
    let mut wide = Vec::new(alloc);
    for byte in name {
        wide.extend_from_slice(&[*byte, 0])?;
    }
    let mut columns = Vec::new(alloc);
    columns.push(text_column(alloc, b"Set Option", wide.as_slice())?)?;
    columns.push(text_column(alloc, b"Value", value)?)?;
    Ok(columns)
}
