//! The arguments of the command line.

/// The most seconds of a limit.
const MOST_SECONDS: u64 = 86_400;

/// What the arguments ask for.
#[derive(Clone, Copy)]
pub enum Asked {
    Help,
    Version,
    /// The argument of this place is wrong.
    Wrong(usize, Fault),
    /// How the findings are shown; how long a transaction may be idle, in microseconds, 0 for as long as
    /// it likes.
    Judge { form: Form, idle: u64 },
}

/// What is wrong of an argument.
#[derive(Clone, Copy)]
pub enum Fault {
    Unknown,
    /// It is no limit.
    Limit,
    /// It is no connection's number.
    Connection,
    /// Another one is to stand behind it.
    Alone,
}

impl Fault {
    pub fn text(self) -> &'static str {
        match self {
            Fault::Unknown => "no argument of tdswatch, and ./tdswatch found no such file",
            Fault::Limit => "a limit is idle-in-transaction=5s, of 1 to 86400 seconds",
            Fault::Connection => "a connection is a number, as the table has it",
            Fault::Alone => "an argument is missing behind it",
        }
    }
}

/// How findings are shown.
#[derive(Clone, Copy)]
pub enum Form {
    Table,
    Objects,
    /// As a picture of this connection.
    Picture(u64),
}

/// What the next argument is.
#[derive(Clone, Copy)]
enum Next {
    Argument,
    Limit,
    Connection,
}

/// Reads the arguments behind the program's name.
pub fn read_arguments(arguments: &[String]) -> Asked {
    let mut form = Form::Table;
    let mut idle = 0u64;
    let mut next = Next::Argument;
    for (place, argument) in arguments.iter().enumerate() {
        let argument = argument.as_str();
        match (next, argument) {
            (Next::Limit, _) => match read_limit(argument) {
                Some(limit) => idle = limit,
                None => return Asked::Wrong(place, Fault::Limit),
            },
            (Next::Connection, _) => match argument.parse::<u64>() {
                Ok(stream) => form = Form::Picture(stream),
                Err(_) => return Asked::Wrong(place, Fault::Connection),
            },
            (Next::Argument, "--help") => return Asked::Help,
            (Next::Argument, "--version") => return Asked::Version,
            (Next::Argument, "--json") => form = Form::Objects,
            (Next::Argument, "--limit") => {
                next = Next::Limit;
                continue;
            }
            (Next::Argument, "--picture") => {
                next = Next::Connection;
                continue;
            }
            (Next::Argument, _) => return Asked::Wrong(place, Fault::Unknown),
        }
        next = Next::Argument;
    }
    match next {
        Next::Argument => Asked::Judge { form, idle },
        Next::Limit | Next::Connection => {
            Asked::Wrong(arguments.len().saturating_sub(1), Fault::Alone)
        }
    }
}

/// The microseconds of a limit, as `idle-in-transaction=5s`.
fn read_limit(argument: &str) -> Option<u64> {
    let (name, value) = argument.split_once("=")?;
    if name != "idle-in-transaction" {
        return None;
    }
    let (seconds, rest) = value.split_once("s")?;
    if rest != "" {
        return None;
    }
    match seconds.parse::<u64>() {
        Ok(seconds) if seconds >= 1 && seconds <= MOST_SECONDS => Some(seconds * 1_000_000),
        _ => None,
    }
}
