//! All states of a session.

use crate::names::{LETTERS, MADE, SETTINGS, is_name, named};
use crate::state::{State, bytes_in, bytes_of, copy};
use crate::tokens::put_session_state;
use std::alloc::{AllocError, Global};

/// How many states stand before the settings, and behind them.
const LETTERS_COUNT: usize = 26;

const MADE_COUNT: usize = 4;

/// What a session has made that can't be recovered.
#[derive(Clone, Copy, Debug, PartialEq, Eq)]
pub enum Made {
    Tables,
    Cursors,
    Locks,
    Handles,
}

impl Made {
    /// Its state's name.
    fn name(self) -> &'static str {
        match self {
            Made::Tables => "tables",
            Made::Cursors => "cursors",
            Made::Locks => "locks",
            Made::Handles => "handles",
        }
    }
}

/// What a server does wrong of states.
#[derive(Debug, Drop)]
pub enum Vice {
    /// The state of this name is never told.
    Untold(String),
    /// A reset leaves the state of this name as it is, and doesn't tell it.
    Left(String),
    /// Where it isn't what a login leaves, the state of this name is told with so many bytes.
    Long { name: String, bytes: usize },
    /// Each SESSIONSTATE has the last number.
    LastNumber,
    /// Each SESSIONSTATE says that it can't be recovered.
    Unrecoverable,
}

/// The states of a session, and what of them was told.
#[derive(Drop)]
pub struct States {
    alloc: Global,
    states: Vec<State>,
    /// The number of the next SESSIONSTATE.
    number: u32,
    /// Whether they are told: the login has asked for it.
    is_asked: bool,
    has_last_number: bool,
    is_unrecoverable: bool,
}

impl States {
    /// Those of a session as a login leaves it, in this database and with this language. None is told.
    pub fn new(alloc: Global, database: &[u16], language: &[u16]) -> Result<States, AllocError> {
        let mut states = Vec::new(alloc);
        for name in LETTERS.split("|") {
            states.push(State::new(alloc, name, &[0, 0, 0, 0])?)?;
        }
        for part in SETTINGS.split("|") {
            let (name, value) = named(part);
            let initial = match name {
                "database" => bytes_of(alloc, database)?,
                "language" => bytes_of(alloc, language)?,
                _ => bytes_in(alloc, value)?,
            };
            states.push(State::new(alloc, name, initial.as_slice())?)?;
        }
        for name in MADE.split("|") {
            states.push(State::new(alloc, name, &[0, 0, 0, 0])?)?;
        }
        Ok(States {
            alloc,
            states,
            number: 0,
            is_asked: false,
            has_last_number: false,
            is_unrecoverable: false,
        })
    }

    /// From now on they are told.
    pub fn ask(&mut self) {
        self.is_asked = true;
    }

    /// Does this wrong.
    pub fn take_vice(&mut self, vice: &Vice) {
        match vice {
            Vice::LastNumber => self.has_last_number = true,
            Vice::Unrecoverable => self.is_unrecoverable = true,
            Vice::Untold(name) | Vice::Left(name) | Vice::Long { name, .. } => {
                self.take_vice_of(name.as_str(), vice);
            }
        }
    }

    /// Does this wrong of the state of this name.
    fn take_vice_of(&mut self, name: &str, vice: &Vice) {
        for state in &mut self.states {
            if state.name.as_str() == name {
                match vice {
                    Vice::Untold(_) => state.is_untold = true,
                    Vice::Left(_) => state.is_left = true,
                    Vice::Long { bytes, .. } => state.length = *bytes,
                    Vice::LastNumber | Vice::Unrecoverable => {}
                }
            }
        }
    }

    /// The state of this name has this value; of no such name, the one of all others.
    pub fn set(&mut self, name: &[u16], value: &[u16]) -> Result<(), AllocError> {
        let value = bytes_of(self.alloc, value)?;
        for state in &mut self.states {
            if is_name(state.name.as_str(), name) || state.name.as_str() == "others" {
                state.set(value, true);
                return Ok(());
            }
        }
        Ok(())
    }

    /// The batch language's settings have these values. Where states aren't told, that is of no use.
    pub fn set_letters(&mut self, values: &[Option<i32>]) -> Result<(), AllocError> {
        if !self.is_asked {
            return Ok(());
        }
        for (state, value) in self.states.iter_mut().zip(values.iter()) {
            let bytes = value.unwrap_or(0).to_le_bytes();
            if state.value.as_slice() != bytes.as_slice() {
                let value = copy(self.alloc, &bytes)?;
                state.set(value, true);
            }
        }
        Ok(())
    }

    /// The session has so many of these.
    pub fn count(&mut self, made: Made, count: usize) -> Result<(), AllocError> {
        let count = u32::try_from(count).unwrap_or(u32::MAX);
        for state in &mut self.states {
            if state.name.as_str() == made.name() {
                let value = copy(self.alloc, &count.to_le_bytes())?;
                state.set(value, count == 0);
            }
        }
        Ok(())
    }

    /// A reset.
    pub fn reset(&mut self) -> Result<(), AllocError> {
        for state in &mut self.states {
            state.reset(self.alloc)?;
        }
        Ok(())
    }

    /// The states as a login's answer tells them.
    pub fn initial(&self) -> Result<Vec<u8>, AllocError> {
        let mut told = Vec::new(self.alloc);
        for (place, state) in self.states.iter().enumerate() {
            if !state.is_untold {
                state.put(self.alloc, &mut told, number_of(place))?;
            }
        }
        Ok(told)
    }

    /// The tokens of what is to be told: first what can't be recovered.
    pub fn news(&mut self) -> Result<Vec<u8>, AllocError> {
        let mut tokens = Vec::new(self.alloc);
        if self.is_asked {
            self.put_news(&mut tokens, false)?;
            self.put_news(&mut tokens, true)?;
        }
        Ok(tokens)
    }

    /// Appends the token of what is to be told and can be recovered, or can't.
    fn put_news(&mut self, tokens: &mut Vec<u8>, is_recoverable: bool) -> Result<(), AllocError> {
        let mut told = Vec::new(self.alloc);
        for (place, state) in self.states.iter_mut().enumerate() {
            if state.is_due && !state.is_untold && state.is_recoverable == is_recoverable {
                state.put(self.alloc, &mut told, number_of(place))?;
                state.is_due = false;
                state.is_underway = true;
            }
        }
        if told.is_empty() {
            return Ok(());
        }
        let number = if self.has_last_number {
            u32::MAX
        } else {
            self.number
        };
        self.number = self.number.saturating_add(1);
        let is_recoverable = is_recoverable && !self.is_unrecoverable;
        put_session_state(tokens, number, is_recoverable, told.as_slice())
    }

    /// The answer in which news stood has gone out whole.
    pub fn heard(&mut self) {
        for state in &mut self.states {
            state.is_underway = false;
        }
    }

    /// The answer in which news may have stood was broken off: it is told again.
    pub fn unheard(&mut self) {
        for state in &mut self.states {
            state.is_due = state.is_due || state.is_underway;
            state.is_underway = false;
        }
    }

    /// The name and the value of a setting by its place, as `dbcc useroptions` lists them; none behind the last.
    pub fn setting(&self, place: usize) -> Option<(&str, &[u8])> {
        let last = self.states.len().saturating_sub(MADE_COUNT);
        let settings = self.states.get(LETTERS_COUNT..last)?;
        let state = settings.get(place)?;
        Some((state.name.as_str(), state.value.as_slice()))
    }
}

/// The number of the state at this place (StateId).
fn number_of(place: usize) -> u8 {
    u8::try_from(place.saturating_add(1)).unwrap_or(0)
}
