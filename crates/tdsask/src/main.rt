//! A client by arguments: it asks a server for what each argument says, in order, and prints what it is told.
#![tactic(auto)]

mod arguments;
mod asking;
mod ends;
mod link;

use anyhow::{Context, bail};
use arguments::{Asked, Step, read_asked};
use asking::Asker;
use link::Link;
use std::process::ExitCode;
use std::time::Duration;
use std::{env, io};

/// What is printed where the arguments are wrong.
const USAGE: &str = "usage: tdsask ADDRESS ARGUMENT.. (tdsask --help lists the arguments)";

const HELP: &str = "\
A client by arguments: it asks a server for what each argument says, in order, and prints what it is told

Usage: tdsask ADDRESS ARGUMENT..

  ADDRESS           where to connect, as 127.0.0.1:1433 or localhost:1433
  TEXT              a batch of this text
  --begin, --commit, --rollback
                    this transaction request
  --commit-begin, --rollback-begin
                    one that begins the next transaction too
  --reset, --reset-keep
                    the next request asks for a reset, or for one that keeps the transaction
  --cancel N        the next request is cancelled once N tokens were told
  --any             answers are read by the rules of any server, and rows passed
  --wait SECONDS    how long the connection, the login's answer and each request's are awaited, each:
                    1 to 86400, and 10 where nothing is said
  --help, --version alone
";

const VERSION: &str = "tdsask 0.1.0\n";

fn main(rt: HostRuntime) -> ExitCode {
    match run(&rt) {
        Ok(()) => ExitCode::from(0),
        Err(error) => {
            let _ = eprintln!(rt; "error: {error:#}");
            ExitCode::from(1)
        }
    }
}

fn run(rt: &HostRuntime) -> anyhow::Result<()> {
    let arguments = given_arguments(rt)?;
    let [first, rest @ ..] = arguments.as_slice() else {
        bail!("{USAGE}");
    };
    match first.as_str() {
        "--help" | "-h" => print(rt, HELP),
        "--version" | "-V" => print(rt, VERSION),
        address => ask_for(rt, address, rest),
    }
}

fn print(rt: &HostRuntime, text: &str) -> anyhow::Result<()> {
    print!(rt; "{text}").context("output")
}

/// Asks there for what the arguments say.
fn ask_for(rt: &HostRuntime, address: &str, arguments: &[String]) -> anyhow::Result<()> {
    match read_asked(rt.alloc(), arguments)? {
        Some(asked) => ask_all(rt, address, &asked).context(address),
        None => bail!("{USAGE}"),
    }
}

/// The arguments of the command line behind the program's name.
fn given_arguments(rt: &HostRuntime) -> io::Result<Vec<String>> {
    let mut arguments = Vec::new(rt.alloc());
    for argument in env::args(rt)?.skip(1) {
        arguments.push(argument)?;
    }
    Ok(arguments)
}

/// Logs in there, does all steps, and prints what comes of them.
fn ask_all(rt: &HostRuntime, address: &str, asked: &Asked) -> anyhow::Result<()> {
    let limit = Duration::from_secs(asked.wait);
    let link = Link::connect(rt, address, limit).context("no connection")?;
    let mut asker = Asker::new(rt, link, asked.is_any)?;
    take_steps(rt, &mut asker, asked.steps.as_slice())?;
    println!(rt; "descriptor {}", asker.descriptor()).context("output")
}

fn take_steps(rt: &HostRuntime, asker: &mut Asker, steps: &[Step]) -> anyhow::Result<()> {
    for step in steps {
        let report = take_step(rt, asker, step)?;
        print!(rt; "{report}").context("output")?;
    }
    Ok(())
}

/// Does what an argument says, and gives the lines of a request.
fn take_step(rt: &HostRuntime, asker: &mut Asker, step: &Step) -> anyhow::Result<String> {
    match step {
        Step::Ask(request) => asker.ask(rt, request),
        Step::Reset(reset) => {
            asker.mark_reset(*reset)?;
            Ok(String::new(rt.alloc()))
        }
        Step::CancelAfter(count) => {
            asker.cancel_after(*count);
            Ok(String::new(rt.alloc()))
        }
    }
}
