//! Shows a play: its bytes, its snapshots, what is wrong with its schedule, and whether it still
//! prints its text.
#![tactic(auto)]

mod arguments;
mod checking;
mod explaining;
mod fault;
mod files;
mod running;

use running::run_view;
use std::env;
use std::io::{self, ErrorKind};
use std::process::ExitCode;

fn main(rt: HostRuntime) -> ExitCode {
    let arguments = match given_arguments(&rt) {
        Ok(arguments) => arguments,
        Err(error) => {
            let (line, status) = match error.kind() {
                ErrorKind::OutOfMemory => ("error: memory", 1),
                _ => ("error: an argument isn't UTF-8", 2),
            };
            let _ = eprintln!(rt; "{line}");
            return ExitCode::from(status);
        }
    };
    let mut output = rt.stdout();
    let mut errors = rt.stderr();
    let status = run_view(&rt, arguments.as_slice(), &mut output, &mut errors);
    ExitCode::from(status)
}

/// The arguments of the command line, the program's name too.
fn given_arguments(rt: &HostRuntime) -> io::Result<Vec<String>> {
    let mut arguments = Vec::new(rt.alloc());
    for argument in env::args(rt)? {
        arguments.push(argument)?;
    }
    Ok(arguments)
}
