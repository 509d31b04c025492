//! Plays schedules of pooled sessions of the Tabular Data Stream, over memory or over sockets, and
//! prints what each caller is told, or each call that was made for it; shows the bytes of packets, and
//! the tokens of answers; and checks the vectors.
#![tactic(auto)]

mod fault;

use fault::ProgramFault;
use std::fs::File;
use std::process::ExitCode;
use std::{env, fs};
use tds_play::{Command, MemoryCarrier, read_words, run_play};
use tds_show::{run_show, run_tokens, run_vectors};
use tds_tcp::{TcpCarrier, run_loopback};
use tds_trace::run_trace;

/// What `--version` alone prints.
const VERSION: &str = "tdsplay 0.1.0\n";

fn main(rt: HostRuntime) -> ExitCode {
    match run(&rt) {
        Ok(status) => ExitCode::from(status),
        Err(fault) => {
            let _ = eprintln!(rt; "{fault}");
            ExitCode::from(fault.status())
        }
    }
}

/// Does what the arguments ask for.
fn run(rt: &HostRuntime) -> Result<u8, ProgramFault> {
    let mut arguments = given_arguments(rt)?;
    let first = arguments.first_mut();
    match first {
        Some(command) if command.as_str() == "trace" => {
            // Its arguments are those of `play`.
            *command = String::from_str(rt.alloc(), "play")?;
            run_traced(rt, read_words(rt.alloc(), arguments.as_slice())?)
        }
        _ => run_untraced(rt, arguments.as_slice()),
    }
}

fn run_untraced(rt: &HostRuntime, arguments: &[String]) -> Result<u8, ProgramFault> {
    match arguments {
        [option] if option.as_str() == "--version" => print_version(rt),
        arguments => run_command(rt, read_words(rt.alloc(), arguments)?),
    }
}

/// Prints the trace of what is to be played.
fn run_traced(rt: &HostRuntime, command: Command) -> Result<u8, ProgramFault> {
    let Command::Play(name) = command else {
        return Err(ProgramFault::Usage);
    };
    let mut file = open(rt, name.as_str())?;
    let mut output = rt.stdout();
    Ok(run_trace(rt.alloc(), &mut file, &mut output, &mut rt.stderr()))
}

fn print_version(rt: &HostRuntime) -> Result<u8, ProgramFault> {
    match print!(rt; "{VERSION}") {
        Ok(()) => Ok(0),
        Err(_) => Err(ProgramFault::Output),
    }
}

/// Runs a command. It finds the faults of opening its file; all else is the run's.
fn run_command(rt: &HostRuntime, command: Command) -> Result<u8, ProgramFault> {
    let alloc = rt.alloc();
    let mut output = rt.stdout();
    let mut errors = rt.stderr();
    match command {
        Command::Play(name) => {
            let mut file = open(rt, name.as_str())?;
            let mut carrier = MemoryCarrier::new(alloc);
            let output = &mut output;
            Ok(run_play(alloc, &mut file, &mut carrier, output, &mut errors))
        }
        Command::Loopback(name) => {
            let mut file = open(rt, name.as_str())?;
            let Ok(mut carrier) = TcpCarrier::listen(alloc, rt) else {
                return Err(ProgramFault::Listen);
            };
            let output = &mut output;
            Ok(run_loopback(alloc, &mut file, &mut carrier, output, &mut errors))
        }
        Command::Show(argument) => Ok(run_show(alloc, argument.as_str(), &mut output, &mut errors)),
        Command::Tokens(argument) => Ok(run_tokens(
            alloc,
            argument.as_str(),
            &mut output,
            &mut errors,
        )),
        Command::Vectors => Ok(run_vectors(alloc, &mut output, &mut errors)),
    }
}

/// The arguments after the program's name.
fn given_arguments(rt: &HostRuntime) -> Result<Vec<String>, ProgramFault> {
    let mut arguments = Vec::new(rt.alloc());
    for argument in env::args(rt).map_err(ProgramFault::of_arguments)?.skip(1) {
        arguments.push(argument)?;
    }
    Ok(arguments)
}

fn open(rt: &HostRuntime, name: &str) -> Result<File, ProgramFault> {
    fs::open(rt, name).map_err(ProgramFault::of_file)
}
