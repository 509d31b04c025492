//! The arguments of the command line.

use clap::error::ErrorKind;
use clap::{Arg, ArgAction, ArgMatches, Command as Parser, Error, value_parser};
use std::alloc::{AllocError, Global};
use view_lay_out::{Arrangement, Choice};
use view_listing::BytesForm;

/// What the arguments ask for.
#[derive(Drop)]
pub(crate) enum Command {
    Bytes(String, BytesForm),
    Draw(String, Painter, Choice),
    Snapshots(String),
    Explain(String),
    /// Whether the texts are written.
    Check(Vec<String>, bool),
}

/// How a picture is painted.
#[derive(Clone, Copy)]
pub(crate) enum Painter {
    Vector(Arrangement),
    Characters,
}

/// Reads the arguments behind the program's name.
pub(crate) fn read_arguments(alloc: Global, arguments: &[String]) -> Result<Command, Error> {
    let matches = parser(alloc)?.try_get_matches_from(arguments)?;
    match matches.subcommand() {
        Some(("draw", used)) => {
            let choice = choice_of(used);
            if let (Some(from), Some(to)) = (choice.from, choice.to) {
                if from > to {
                    return Err(behind(alloc, from, to)?);
                }
            }
            Ok(Command::Draw(file_of(alloc, used)?, painter_of(used), choice))
        }
        Some(("snapshots", used)) => Ok(Command::Snapshots(file_of(alloc, used)?)),
        Some(("explain", used)) => Ok(Command::Explain(file_of(alloc, used)?)),
        Some(("check", used)) => {
            Ok(Command::Check(files_of(alloc, used)?, used.get_flag("write")))
        }
        Some((_, used)) => Ok(Command::Bytes(file_of(alloc, used)?, form_of(used))),
        None => Ok(Command::Check(Vec::new(alloc), false)),
    }
}

/// The arguments are wrong: the first event stands behind the last one.
fn behind(alloc: Global, from: usize, to: usize) -> Result<Error, Error> {
    let told = format!(in alloc; "--from {from} stands behind --to {to}")?;
    let mut command = draw(alloc)?.bin_name("tdsview draw")?;
    Ok(command.error(ErrorKind::ValueValidation, told.as_str())?)
}

fn form_of(used: &ArgMatches<'_>) -> BytesForm {
    if used.get_flag("text2pcap") {
        return BytesForm::Frames;
    }
    if used.get_flag("show") {
        return BytesForm::Shown;
    }
    BytesForm::Digits
}

fn painter_of(used: &ArgMatches<'_>) -> Painter {
    if used.get_flag("text") {
        return Painter::Characters;
    }
    if used.get_flag("beside") {
        return Painter::Vector(Arrangement::Beside);
    }
    Painter::Vector(Arrangement::Below)
}

fn choice_of(used: &ArgMatches<'_>) -> Choice {
    Choice {
        from: number_of(used, "from"),
        to: number_of(used, "to"),
    }
}

fn number_of(used: &ArgMatches<'_>, name: &str) -> Option<usize> {
    used.get_one::<u32>(name).map(|number| number as usize)
}

fn file_of(alloc: Global, used: &ArgMatches<'_>) -> Result<String, AllocError> {
    String::from_str(alloc, used.get_str("FILE").unwrap_or(""))
}

fn files_of(alloc: Global, used: &ArgMatches<'_>) -> Result<Vec<String>, AllocError> {
    let mut files = Vec::new(alloc);
    for name in used.get_strs("FILE").unwrap_or(&[]) {
        files.push(String::from_str(alloc, name)?)?;
    }
    Ok(files)
}

fn parser<'a>(alloc: Global) -> Result<Parser<'a>, AllocError> {
    let parser = with(no_commands(alloc), bytes(alloc))?;
    let parser = with(parser, draw(alloc))?;
    let parser = with(parser, snapshots(alloc))?;
    let parser = with(parser, explain(alloc))?;
    with(parser, check(alloc))
}

/// These commands, and one more.
fn with<'a>(
    parser: Parser<'a>,
    command: Result<Parser<'a>, AllocError>,
) -> Result<Parser<'a>, AllocError> {
    parser.subcommand(command?)
}

fn no_commands<'a>(alloc: Global) -> Parser<'a> {
    Parser::new(alloc, "tdsview")
        .version("0.1.0")
        .about("Plays a schedule over memory, and shows more of it than tdsplay prints")
        .after_help(
            "FILE is a schedule (docs/SCHEDULES.md), or a pipe as /dev/stdin.\n\
             Exit status: 0 all is well; 1 it isn't, and the text or a line says why; \
             2 the arguments are wrong",
        )
        .subcommand_required(true)
        .arg_required_else_help(true)
        .disable_help_subcommand(true)
}

fn bytes<'a>(alloc: Global) -> Result<Parser<'a>, AllocError> {
    let parser = Parser::new(alloc, "bytes").about(
        "Prints every packet, in the order of the events, with its event and its bytes",
    );
    let parser = parser.arg(show(alloc))?;
    let parser = parser.arg(frames(alloc)?)?;
    parser.arg(one_file(alloc))
}

fn show<'a>(alloc: Global) -> Arg<'a> {
    Arg::new(alloc, "show")
        .long("show")
        .action(ArgAction::SetTrue)
        .help("Spells each packet out, as tdsplay show does")
}

fn frames<'a>(alloc: Global) -> Result<Arg<'a>, AllocError> {
    let frames = Arg::new(alloc, "text2pcap")
        .long("text2pcap")
        .action(ArgAction::SetTrue)
        .help("Prints what Wireshark's text2pcap takes as it is, with each connection as TCP");
    frames.conflicts_with("show")
}

fn draw<'a>(alloc: Global) -> Result<Parser<'a>, AllocError> {
    let parser = Parser::new(alloc, "draw").about("Draws the play as a sequence picture, as SVG");
    let parser = parser.arg(text(alloc))?;
    let parser = parser.arg(beside(alloc)?)?;
    let first = number(alloc, "from").help("The first event that is drawn");
    let parser = parser.arg(first)?;
    let last = number(alloc, "to").help("The last one; without it 300 events are drawn");
    let parser = parser.arg(last)?;
    parser.arg(one_file(alloc))
}

fn text<'a>(alloc: Global) -> Arg<'a> {
    Arg::new(alloc, "text")
        .long("text")
        .action(ArgAction::SetTrue)
        .help("Draws it in characters, 100 a line, in place of SVG")
}

fn beside<'a>(alloc: Global) -> Result<Arg<'a>, AllocError> {
    let beside = Arg::new(alloc, "beside")
        .long("beside")
        .action(ArgAction::SetTrue)
        .help("Draws connections that are open at once side by side, not one below the other");
    beside.conflicts_with("text")
}

fn number<'a>(alloc: Global, name: &'a str) -> Arg<'a> {
    Arg::new(alloc, name)
        .long(name)
        .action(ArgAction::Set)
        .value_name("N")
        .value_parser(value_parser!(u32).range(1..))
}

fn snapshots<'a>(alloc: Global) -> Result<Parser<'a>, AllocError> {
    Parser::new(alloc, "snapshots")
        .about("Prints each event's line, with the lines of the connections after it")
        .arg(one_file(alloc))
}

fn explain<'a>(alloc: Global) -> Result<Parser<'a>, AllocError> {
    Parser::new(alloc, "explain")
        .about(
            "Says what is wrong with a schedule, and where; or which events are refused, and why",
        )
        .arg(one_file(alloc))
}

fn check<'a>(alloc: Global) -> Result<Parser<'a>, AllocError> {
    let files = one_file(alloc).action(ArgAction::Append).num_args(1..).help(
        "Schedules, each with the text beside it that it must print",
    );
    let parser = Parser::new(alloc, "check").about(
        "Plays each schedule, and compares what is printed with the text beside it",
    );
    let parser = parser.arg(write(alloc))?;
    parser.arg(files)
}

fn write<'a>(alloc: Global) -> Arg<'a> {
    Arg::new(alloc, "write")
        .long("write")
        .action(ArgAction::SetTrue)
        .help("Writes each text that differs or is missing")
}

fn one_file<'a>(alloc: Global) -> Arg<'a> {
    Arg::new(alloc, "FILE")
        .required(true)
        .action(ArgAction::Set)
        .help("A schedule")
}
