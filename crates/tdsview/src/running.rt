//! A run of the program, from its arguments to its exit status.

use crate::arguments::{Command, Painter, read_arguments};
use crate::checking::print_check;
use crate::explaining::print_explanation;
use crate::fault::ViewFault;
use crate::files::{play_named, read_file};
use clap::Error;
use clap::error::ErrorKind;
use std::alloc::{AllocError, Global};
use std::io::Write;
use tds_text::write_whole;
use view_lay_out::{Choice, draw_svg, draw_text};
use view_listing::{BytesForm, print_bytes, print_snapshots};

/// Does what the arguments behind the program's name ask for. It answers the exit status: 0 where all is
/// well, 1 where it isn't or where the text doesn't go out whole, 2 where the arguments are wrong. What a
/// command finds goes to `output`, and what keeps it from that to `errors`.
pub(crate) fn run_view<W: Write, F: Write>(
    rt: &HostRuntime,
    arguments: &[String],
    output: &mut W,
    errors: &mut F,
) -> u8 {
    let alloc = rt.alloc();
    let command = match read_arguments(alloc, arguments) {
        Ok(command) => command,
        Err(error) => return answer_arguments(alloc, &error, output, errors),
    };
    match run(rt, command, output) {
        Ok(true) => 0,
        Ok(false) => 1,
        Err(fault) => {
            tell(&fault, errors);
            1
        }
    }
}

/// Runs a command, and answers whether all is well.
fn run<W: Write>(rt: &HostRuntime, command: Command, output: &mut W) -> Result<bool, ViewFault> {
    match command {
        Command::Bytes(name, form) => print_packets(rt, name.as_str(), form, output)?,
        Command::Draw(name, painter, choice) => print_picture(
            rt,
            name.as_str(),
            painter,
            choice,
            output,
        )?,
        Command::Snapshots(name) => {
            let exchange = play_named(rt, name.as_str())?;
            print_snapshots(rt.alloc(), exchange.report, output)?;
        }
        Command::Explain(name) => {
            let bytes = read_file(rt, name.as_str())?;
            return print_explanation(rt.alloc(), name.as_str(), bytes.as_slice(), output);
        }
        Command::Check(names, writes) => {
            return print_check(rt, names.as_slice(), writes, output);
        }
    }
    Ok(true)
}

/// Prints the packets of the play of a file.
fn print_packets<W: Write>(
    rt: &HostRuntime,
    name: &str,
    form: BytesForm,
    output: &mut W,
) -> Result<(), ViewFault> {
    let exchange = play_named(rt, name)?;
    print_bytes(rt.alloc(), &exchange, form, output)?;
    Ok(())
}

/// Prints the play of a file as a picture.
fn print_picture<W: Write>(
    rt: &HostRuntime,
    name: &str,
    painter: Painter,
    choice: Choice,
    output: &mut W,
) -> Result<(), ViewFault> {
    let alloc = rt.alloc();
    let exchange = play_named(rt, name)?;
    let text = match painter {
        Painter::Vector(arrangement) => draw_svg(alloc, name, &exchange, choice, arrangement)?,
        Painter::Characters => draw_text(alloc, &exchange, choice)?,
    };
    write_whole(output, text.as_str())?;
    Ok(())
}

/// Writes a line about what ended a command. Where that fails, there is nobody to tell.
fn tell<F: Write>(fault: &ViewFault, errors: &mut F) {
    let line = match fault {
        ViewFault::Told(text) => {
            let _ = write_whole(errors, "error: ");
            let _ = write_whole(errors, text.as_str());
            "\n"
        }
        ViewFault::Output => "error: output\n",
        ViewFault::Memory => "error: memory\n",
    };
    let _ = write_whole(errors, line);
}

/// Prints help, the version or what is wrong with the arguments.
fn answer_arguments<W: Write, F: Write>(
    alloc: Global,
    error: &Error,
    output: &mut W,
    errors: &mut F,
) -> u8 {
    let text = match text_of(alloc, error) {
        Ok(text) => text,
        Err(_) => {
            tell(&ViewFault::Memory, errors);
            return 1;
        }
    };
    if error.kind() == ErrorKind::OutOfMemory {
        tell(&ViewFault::Memory, errors);
        return 1;
    }
    if error.use_stderr() {
        // Where that fails, there is nobody to tell.
        let _ = write_whole(errors, text.as_str());
        return 2;
    }
    match write_whole(output, text.as_str()) {
        Ok(()) => 0,
        Err(_) => {
            tell(&ViewFault::Output, errors);
            1
        }
    }
}

fn text_of(alloc: Global, error: &Error) -> Result<String, AllocError> {
    format!(in alloc; "{error}")
}
