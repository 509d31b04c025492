//! A server of the batch language for TDS drivers, over TCP or a Unix socket: one thread, many
//! connections.
#![tactic(auto)]

mod address;
mod arguments;
mod beginning;
mod fault;

use arguments::read_arguments;
use beginning::begin;
use fault::ServeFault;
use serve_drivers::EventLoop;
use socket_places::Place;
use std::io::{self, Stderr};
use std::process::ExitCode;
use std::{env, fs};

fn main(rt: HostRuntime) -> ExitCode {
    match run(&rt) {
        Ok(()) => ExitCode::from(0),
        Err(fault) => ExitCode::from(answer(&rt, &fault)),
    }
}

/// Prints help or the version, or tells what keeps it from serving, and gives the exit status.
fn answer(rt: &HostRuntime, fault: &ServeFault) -> u8 {
    if !fault.is_told() {
        match print!(rt; "{fault}") {
            Ok(()) => return 0,
            Err(_) => {
                let _ = eprintln!(rt; "error: output");
                return 1;
            }
        }
    }
    let _ = eprintln!(rt; "{fault}");
    fault.status()
}

/// Serves as the arguments ask for.
fn run(rt: &HostRuntime) -> Result<(), ServeFault> {
    let arguments = given_arguments(rt).map_err(ServeFault::of_arguments)?;
    let asked = read_arguments(rt.alloc(), arguments.as_slice())?;
    let (event_loop, place) = begin(rt, &asked)?;
    let done = serve(rt, event_loop, &place);
    if let Place::Unix(path) = &place {
        let _ = fs::remove_file(rt, path.as_str());
    }
    done
}

/// The arguments of the command line, the program's name too.
fn given_arguments(rt: &HostRuntime) -> io::Result<Vec<String>> {
    let mut arguments = Vec::new(rt.alloc());
    for argument in env::args(rt)? {
        arguments.push(argument)?;
    }
    Ok(arguments)
}

/// Says where it serves, serves, and says what it had done once it ends.
fn serve(
    rt: &HostRuntime,
    mut event_loop: EventLoop<Stderr>,
    place: &Place,
) -> Result<(), ServeFault> {
    let _ = match event_loop.address().map_err(ServeFault::Refused)? {
        Some(address) => eprintln!(rt; "serving on {address}"),
        None => eprintln!(rt; "serving on {place}"),
    };
    let open = event_loop.serve(rt).map_err(ServeFault::Refused)?;
    let came = event_loop.opened();
    let _ = eprintln!(rt; "ended: connections {came}, open {open}");
    Ok(())
}
