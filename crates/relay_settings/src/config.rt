//! The configuration file: the settings of the command line by name, in TOML.

use crate::fault::RelayFault;
use crate::near::nearest_first;
use crate::system::SystemError;
use std::alloc::{AllocError, Global};
use std::fs::{self, Files};
use std::io::{ErrorKind, Read};
use toml::{Table, Value};

/// The most bytes of a file.
const MOST: usize = 65_536;

/// What a file may set.
const NAMES: [&str; 27] = [
    "most",
    "alone",
    "total",
    "kinds",
    "least",
    "group",
    "share",
    "stats",
    "log",
    "log-json",
    "judge",
    "login",
    "wait",
    "cancel",
    "idle",
    "life",
    "hold",
    "transaction",
    "request",
    "drain",
    "check",
    "away",
    "judge-again",
    "half-closed",
    "spin",
    "keepalive",
    "unacknowledged",
];

/// The settings of a file, or none.
#[derive(Drop)]
pub struct Config {
    alloc: Global,
    path: String,
    text: String,
    table: Table,
}

impl Config {
    pub fn none(alloc: Global) -> Config {
        Config {
            alloc,
            path: String::new(alloc),
            text: String::new(alloc),
            table: Table::new(alloc),
        }
    }

    /// Reads the file of this name. A setting that there is none of is refused.
    pub fn read<R: Files>(rt: &R, alloc: Global, path: &str) -> Result<Config, RelayFault> {
        let text = text_of(rt, alloc, path)?;
        let table = match toml::table_from_str(alloc, text.as_str()) {
            Ok(table) => table,
            Err(error) if error.is_memory() => return Err(RelayFault::Memory),
            Err(error) => {
                let start = match error.span() {
                    Some(range) => range.start,
                    None => 0,
                };
                let why = error.message();
                return Err(fault_at(alloc, path, text.as_str(), start, why)?);
            }
        };
        let config = Config {
            alloc,
            path: String::from_str(alloc, path)?,
            text,
            table,
        };
        config.look_at_names()?;
        Ok(config)
    }

    fn look_at_names(&self) -> Result<(), RelayFault> {
        for (name, _) in self.table.iter() {
            let mut is_known = false;
            for known in NAMES.iter() {
                is_known = is_known || *known == name.as_str();
            }
            if !is_known {
                return Err(self.unknown(name.as_str())?);
            }
        }
        Ok(())
    }

    /// There is no setting of this name: those that are, the nearest one first.
    fn unknown(&self, name: &str) -> Result<RelayFault, AllocError> {
        let known = nearest_first(self.alloc, name, &NAMES)?;
        let why = format!(in self.alloc; "there is no such setting; those that are: {known}")?;
        self.fault(name, why.as_str())
    }

    /// A whole number from this one to that one.
    pub fn number(&self, name: &str, least: u64, most: u64) -> Result<Option<u64>, RelayFault> {
        let Some(value) = self.value(name) else {
            return Ok(None);
        };
        if let Some(number) = value.as_integer() {
            if let Ok(number) = u64::try_from(number) {
                if number >= least && number <= most {
                    return Ok(Some(number));
                }
            }
        }
        let why = format!(in self.alloc; "a whole number from {least} to {most} is wanted")?;
        Err(self.fault(name, why.as_str())?)
    }

    /// A text.
    pub fn text(&self, name: &str) -> Result<Option<&str>, RelayFault> {
        let Some(value) = self.value(name) else {
            return Ok(None);
        };
        match value.as_str() {
            Some(text) => Ok(Some(text)),
            None => Err(self.fault(name, "a text is wanted")?),
        }
    }

    /// True or false.
    pub fn flag(&self, name: &str) -> Result<bool, RelayFault> {
        let Some(value) = self.value(name) else {
            return Ok(false);
        };
        match value.as_bool() {
            Some(flag) => Ok(flag),
            None => Err(self.fault(name, "true or false is wanted")?),
        }
    }

    fn value(&self, name: &str) -> Option<&Value> {
        for (known, value) in self.table.iter() {
            if known.as_str() == name {
                return Some(value);
            }
        }
        None
    }

    /// What is wrong with a setting, with its place.
    pub fn fault(&self, name: &str, why: &str) -> Result<RelayFault, AllocError> {
        let said = format!(in self.alloc; "{name}: {why}")?;
        let start = place_of(self.text.as_str(), name);
        fault_at(
            self.alloc,
            self.path.as_str(),
            self.text.as_str(),
            start,
            said.as_str(),
        )
    }
}

/// The text of a file.
fn text_of<R: Files>(rt: &R, alloc: Global, path: &str) -> Result<String, RelayFault> {
    let mut bytes = Vec::new(alloc);
    let read = match fs::open(rt, path) {
        Ok(file) => file.take(MOST as u64 + 1).read_to_end(&mut bytes),
        Err(error) => Err(error),
    };
    let why = match read {
        Ok(_) if bytes.len() > MOST => {
            format!(in alloc; "{path}: it has more than {MOST} bytes")?
        }
        Ok(_) => match String::from_utf8(bytes) {
            Ok(text) => return Ok(text),
            Err(_) => format!(in alloc; "{path}: it isn't UTF-8")?,
        },
        Err(error) if error.kind() == ErrorKind::OutOfMemory => return Err(RelayFault::Memory),
        Err(error) => {
            let error = SystemError::new(error);
            format!(in alloc; "{path} (--config): {error}")?
        }
    };
    Err(RelayFault::Config(why))
}

/// What is wrong at a byte of a file: its line and its column, from 1, of bytes.
fn fault_at(
    alloc: Global,
    path: &str,
    text: &str,
    start: usize,
    why: &str,
) -> Result<RelayFault, AllocError> {
    let (mut line, mut column): (usize, usize) = (1, 1);
    for (byte, _) in text.as_bytes().iter().zip(0..start) {
        if *byte == b'\n' {
            line = line.saturating_add(1);
            column = 1;
        } else {
            column = column.saturating_add(1);
        }
    }
    Ok(RelayFault::Config(format!(in alloc; "{path}:{line}:{column}: {why}")?))
}

/// The byte at which a line begins that sets this; 0 where none does.
fn place_of(text: &str, name: &str) -> usize {
    let mut place: usize = 0;
    for line in text.split('\n') {
        if let Some(rest) = line.strip_prefix(name) {
            if rest.trim_start().starts_with('=') {
                return place;
            }
        }
        place = place.saturating_add(line.len()).saturating_add(1);
    }
    0
}
