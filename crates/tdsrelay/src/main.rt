//! A relay before a server of TDS: many applications share few connections, with the drivers that they
//! have. One thread.
#![tactic(auto)]

mod accepting;
mod changing;
mod json;
mod lines;
mod polling;
mod program;
mod standing;
mod sweeping;
mod telling;
mod time_limits;
mod turns;
mod why;
mod writing;

use program::Program;
use relay_settings::{MOST_SERVERS, Named, RelayFault, Servers, SystemError, read_arguments};
use socket_places::Place;
use std::alloc::{AllocError, Global};
use std::net::TcpStream;
use std::process::ExitCode;
use std::time::Duration;
use std::{env, fs, io};

/// For how many milliseconds each server is waited for at the start.
const PATIENCE: u64 = 500;

fn main(rt: HostRuntime) -> ExitCode {
    match run(&rt) {
        Ok(()) => ExitCode::from(0),
        Err(fault) => ExitCode::from(answer(&rt, &fault)),
    }
}

/// Prints help or the version, or tells what keeps it from serving, and gives the exit status.
fn answer(rt: &HostRuntime, fault: &RelayFault) -> u8 {
    if !fault.is_told() {
        match print!(rt; "{fault}") {
            Ok(()) => return 0,
            Err(_) => {
                let _ = eprintln!(rt; "error: output");
                return 1;
            }
        }
    }
    let _ = eprintln!(rt; "{fault}");
    fault.status()
}

fn run(rt: &HostRuntime) -> Result<(), RelayFault> {
    let arguments = given_arguments(rt).map_err(RelayFault::of_arguments)?;
    let settings = read_arguments(rt, rt.alloc(), arguments.as_slice())?;
    let asked = settings.asked;
    let mut program = match Program::new(rt, rt.alloc(), arguments, asked, rt.stderr()) {
        Ok(program) => program,
        Err(error) => return Err(RelayFault::of_listener(Place::Tcp(asked.listen), error)),
    };
    let first = first_of(rt.alloc(), asked.servers, &settings.named)?;
    program
        .event_loop
        .names
        .begin(settings.names, settings.named)?;
    if asked.ends_with_input {
        program.end_with_input().map_err(RelayFault::of_input)?;
    }
    let Some(place) = settings.stats else {
        return serve(rt, &mut program, asked.servers, first.as_str());
    };
    let path = match &place {
        Place::Unix(path) => path.clone()?,
        Place::Tcp(_) => String::new(rt.alloc()),
    };
    tell_at(rt, &mut program, place)?;
    let done = serve(rt, &mut program, asked.servers, first.as_str());
    if !path.is_empty() {
        let _ = fs::remove_file(rt, path.as_str());
    }
    done
}

/// It tells at this place what it does, and says so.
fn tell_at(rt: &HostRuntime, program: &mut Program, place: Place) -> Result<(), RelayFault> {
    let address = match program.tell_at(rt, &place) {
        Ok(address) => address,
        Err(error) => return Err(RelayFault::of_listener(place, error)),
    };
    let _ = match address {
        Some(address) => eprintln!(rt; "telling at {address}"),
        None => eprintln!(rt; "telling at {place}"),
    };
    Ok(())
}

/// Says where it serves, serves, and says how many applications it closed in the middle once it ends.
fn serve(
    rt: &HostRuntime,
    program: &mut Program,
    servers: Servers,
    first: &str,
) -> Result<(), RelayFault> {
    let address = program.address();
    let _ = eprintln!(rt; "relaying {address} to {first}");
    look_at_servers(rt, servers);
    let open = program.serve(rt).map_err(RelayFault::of_system)?;
    let last = format!(in rt.alloc(); "ended: applications {open}")?;
    program.say_last(last.as_str());
    Ok(())
}

/// The first server, as it is told.
fn first_of(alloc: Global, servers: Servers, named: &[Named]) -> Result<String, AllocError> {
    match (servers.at(0), named.first()) {
        (Some(server), _) => format!(in alloc; "{server}"),
        (None, Some(named)) => format!(in alloc; "{}:{}", named.host, named.port),
        (None, None) => Ok(String::new(alloc)),
    }
}

/// Says which servers take no connection now. It serves all the same: each login dials anew.
fn look_at_servers(rt: &HostRuntime, servers: Servers) {
    let patience = Duration::from_millis(PATIENCE);
    for place in 0..MOST_SERVERS {
        if let Some(server) = servers.at(place) {
            if let Err(error) = TcpStream::connect_timeout(rt, &server, patience) {
                let error = SystemError::new(error);
                let _ = eprintln!(rt; "server {server} takes no connection now: {error}");
            }
        }
    }
}

/// The arguments of the command line, the program's name too.
fn given_arguments(rt: &HostRuntime) -> io::Result<Vec<String>> {
    let mut arguments = Vec::new(rt.alloc());
    for argument in env::args(rt)? {
        arguments.push(argument)?;
    }
    Ok(arguments)
}
