//! The arguments of the command line.

use crate::fault::ServeFault;
use clap::{Arg, ArgAction, ArgMatches, Command};
use serve_drivers::Style;
use std::alloc::{AllocError, Global};
use tds_session::OnAttention;

/// The seconds that a logged-in peer may be silent, where no argument says it: longer than a person at a
/// breakpoint or an idle pool mostly takes.
const SILENCE: u64 = 900;

/// What the arguments ask for.
#[derive(Drop)]
pub struct Asked {
    /// The argument that stands for the address.
    pub address: String,
    pub lets_others_in: bool,
    pub on_attention: OnAttention,
    /// The milliseconds between two steps of an answer.
    pub pace: u64,
    /// The seconds that a logged-in peer may be silent, 0 for as long as it likes.
    pub silence: u64,
    /// Whether it ends in order where standard input does.
    pub ends_with_input: bool,
    /// The file of the script, if there is one.
    pub script: Option<String>,
    /// The file of the recording, if there is one.
    pub recording: Option<String>,
    /// Whether answers have the shapes of a SQL Server's.
    pub is_real: bool,
    /// Whether each connection begins with who is behind it.
    pub is_proxied: bool,
    /// How each connection and each request has a line on standard error.
    pub style: Style,
}

/// Reads the arguments, the program's name too.
pub fn read_arguments(alloc: Global, arguments: &[String]) -> Result<Asked, ServeFault> {
    let matches = parser(alloc)?.try_get_matches_from(arguments)?;
    let pace = number_of(matches.get_str("pace"), 0, 60_000);
    let silence = number_of(matches.get_str("silence"), SILENCE, 86_400);
    Ok(Asked {
        pace: pace.ok_or(ServeFault::Pace)?,
        silence: silence.ok_or(ServeFault::Silence)?,
        on_attention: on_attention_of(&matches),
        lets_others_in: matches.get_flag("let-others-in"),
        ends_with_input: matches.get_flag("until-input-ends"),
        is_real: matches.get_flag("real"),
        is_proxied: matches.get_flag("proxy"),
        style: style_of(&matches),
        address: String::from_str(alloc, matches.get_str("ADDRESS").unwrap_or(""))?,
        script: file_of(alloc, &matches, "script")?,
        recording: file_of(alloc, &matches, "replay")?,
    })
}

/// The number that an argument is, the usual one where there is no argument; none where it is no number up to
/// the most.
fn number_of(argument: Option<&str>, usual: u64, most: u64) -> Option<u64> {
    let Some(argument) = argument else {
        return Some(usual);
    };
    match argument.parse::<u64>() {
        Ok(number) if number <= most => Some(number),
        _ => None,
    }
}

fn on_attention_of(matches: &ArgMatches<'_>) -> OnAttention {
    if matches.get_flag("rollback-on-attention") {
        OnAttention::RollBack
    } else {
        OnAttention::Keep
    }
}

fn style_of(matches: &ArgMatches<'_>) -> Style {
    if matches.get_flag("log-json") {
        Style::Json
    } else if matches.get_flag("log") {
        Style::Words
    } else {
        Style::Off
    }
}

/// The file that this argument names, if there is one.
fn file_of(
    alloc: Global,
    matches: &ArgMatches<'_>,
    argument: &str,
) -> Result<Option<String>, AllocError> {
    match matches.get_str(argument) {
        Some(path) => Ok(Some(String::from_str(alloc, path)?)),
        None => Ok(None),
    }
}

fn parser<'a>(alloc: Global) -> Result<Command<'a>, AllocError> {
    let parser = no_arguments(alloc).arg(address(alloc))?;
    let parser = parser.arg(pace(alloc))?;
    let parser = parser.arg(silence(alloc))?;
    let parser = parser.arg(script(alloc))?;
    let parser = parser.arg(replay(alloc))?;
    let rollback = flag(
        alloc,
        "rollback-on-attention",
        "an attention that stops an answer rolls the transaction back",
    );
    let parser = parser.arg(rollback)?;
    let log = flag(
        alloc,
        "log",
        "a line for each connection and each request, on standard error",
    );
    let parser = parser.arg(log)?;
    let log_json = flag(alloc, "log-json", "the same, each line a JSON object");
    let parser = parser.arg(log_json)?;
    let real = flag(
        alloc,
        "real",
        "answers have the shapes of a SQL Server's: more types, null values, orders",
    );
    let parser = parser.arg(real)?;
    let parser = parser.arg(proxy(alloc))?;
    let until = flag(
        alloc,
        "until-input-ends",
        "end in order where standard input, a pipe, is closed",
    );
    let parser = parser.arg(until)?;
    parser.arg(flag(
        alloc,
        "let-others-in",
        "listen on an address that isn't this machine's own, and let everybody in who can reach it",
    ))
}

fn proxy<'a>(alloc: Global) -> Arg<'a> {
    flag(
        alloc,
        "proxy",
        "each connection is a proxy's, and begins with a PROXY header, version 2",
    )
}

fn no_arguments<'a>(alloc: Global) -> Command<'a> {
    Command::new(alloc, "tdsserve")
        .version("0.1.0")
        .about("Serves the batch language (docs/PROTOCOL.md) to TDS drivers, on this machine")
        .after_help("Login is not part of what is proved: every name and password is accepted.")
}

fn address<'a>(alloc: Global) -> Arg<'a> {
    Arg::new(alloc, "ADDRESS").required(true).help(
        "where to listen, as 127.0.0.1:1433 or localhost:1433; port 0 is a free one; unix:PATH is a socket that its owner alone may open",
    )
}

fn pace<'a>(alloc: Global) -> Arg<'a> {
    Arg::new(alloc, "pace")
        .long("pace")
        .help(
            "MILLISECONDS between two turns of all connections: a step of an answer each, so that a cancel can meet it",
        )
        .action(ArgAction::Set)
}

fn silence<'a>(alloc: Global) -> Arg<'a> {
    Arg::new(alloc, "silence")
        .long("silence")
        .help(
            "SECONDS that a logged-in peer may be silent before it is cut; 0: as long as it likes [900]",
        )
        .action(ArgAction::Set)
}

fn script<'a>(alloc: Global) -> Arg<'a> {
    Arg::new(alloc, "script")
        .long("script")
        .help("FILE that says what is done with answers (docs/SERVING.md)")
        .action(ArgAction::Set)
}

fn replay<'a>(alloc: Global) -> Arg<'a> {
    Arg::new(alloc, "replay")
        .long("replay")
        .help("FILE of a recorded session, by which requests are answered (docs/SERVING.md)")
        .action(ArgAction::Set)
}

fn flag<'a>(alloc: Global, name: &'a str, help: &'a str) -> Arg<'a> {
    Arg::new(alloc, name)
        .long(name)
        .help(help)
        .action(ArgAction::SetTrue)
}
