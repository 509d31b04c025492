//! The arguments of a command line.
ghost use Rattle.std.specs.Prelude.{◌≡◌};
ghost use Rattle.tds_text.specs.Faults.{line_fault_number};

use clap::error::ErrorKind;
use clap::{Arg, ArgAction, ArgMatches};
use std::alloc::{AllocError, Global};

/// What the arguments of a command line ask for.
#[derive(Debug, Drop)]
pub enum Command {
    /// To play the schedule in this file over memory.
    Play(String),
    /// To play it over sockets of this machine.
    Loopback(String),
    /// To show the packets that this argument spells.
    Show(String),
    /// To show the tokens of the answers' packets that this argument spells.
    Tokens(String),
    /// To check the vectors.
    Vectors,
}

/// Why arguments name no command.
#[derive(Debug, Drop)]
pub enum LineFault {
    /// 1: they are none of the commands with its one argument.
    Usage,
    /// 2: memory.
    Memory,
}

impl LineFault {
    /// The fault's number.
    pub fn number(&self) -> u8
        ensures { result ≡ line_fault_number self.now }
    {
        match self {
            LineFault::Usage => 1,
            LineFault::Memory => 2,
        }
    }
}

impl From<AllocError> for LineFault {
    ghost use Rattle.tds_text.specs.declared.arguments.LineFault.TheVariants.{Memory};

    ghost from_gives = { λ _ fault. fault ≡ Memory };

    fn from(_: AllocError) -> Self {
        LineFault::Memory
    }
}

impl From<clap::Error> for LineFault {
    fn from(error: clap::Error) -> Self {
        match error.kind() {
            ErrorKind::OutOfMemory => LineFault::Memory,
            _ => LineFault::Usage,
        }
    }
}

/// Reads the arguments behind the program's name.
pub fn read_words(alloc: Global, arguments: &[String]) -> Result<Command, LineFault> {
    let matches = commands(alloc)?.try_get_matches_from(arguments)?;
    command_of(alloc, &matches)
}

/// The command that was met.
fn command_of(alloc: Global, matches: &ArgMatches<'_>) -> Result<Command, LineFault> {
    match matches.subcommand() {
        Some(("play", used)) => Ok(Command::Play(argument_of(alloc, used)?)),
        Some(("loopback", used)) => Ok(Command::Loopback(argument_of(alloc, used)?)),
        Some(("show", used)) => Ok(Command::Show(argument_of(alloc, used)?)),
        Some(("tokens", used)) => Ok(Command::Tokens(argument_of(alloc, used)?)),
        Some(("vectors", _)) => Ok(Command::Vectors),
        _ => Err(LineFault::Usage),
    }
}

/// The argument of the command that was met.
fn argument_of(alloc: Global, used: &ArgMatches<'_>) -> Result<String, LineFault> {
    match used.get_str("argument") {
        None => Err(LineFault::Usage),
        Some(argument) => Ok(String::from_str(alloc, argument)?),
    }
}

/// The commands that there are. A call for help names none of them.
fn commands<'a>(alloc: Global) -> Result<clap::Command<'a>, AllocError> {
    let commands = with_argument(alloc, no_commands(alloc), "play", one_argument(alloc))?;
    let commands = with_argument(alloc, commands, "loopback", one_argument(alloc))?;
    let commands = with_argument(alloc, commands, "show", digits(alloc))?;
    let commands = with_argument(alloc, commands, "tokens", digits(alloc))?;
    commands.subcommand(clap::Command::new(alloc, "vectors"))
}

/// Whether the argument is one of digits is for its command to say, also where it begins with a dash.
fn digits<'a>(alloc: Global) -> Arg<'a> {
    one_argument(alloc).allow_hyphen_values(true)
}

fn no_commands<'a>(alloc: Global) -> clap::Command<'a> {
    clap::Command::new(alloc, "tdsplay")
        .no_binary_name(true)
        .disable_help_flag(true)
        .disable_help_subcommand(true)
        .subcommand_required(true)
}

/// These commands, and one more with its argument.
fn with_argument<'a>(
    alloc: Global,
    commands: clap::Command<'a>,
    name: &'a str,
    argument: Arg<'a>,
) -> Result<clap::Command<'a>, AllocError> {
    commands.subcommand(clap::Command::new(alloc, name).arg(argument)?)
}

/// The one argument behind a command's name.
fn one_argument<'a>(alloc: Global) -> Arg<'a> {
    Arg::new(alloc, "argument")
        .required(true)
        .action(ArgAction::Set)
}
