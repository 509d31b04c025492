//! Judges the connections of a capture: lines of bytes on standard input, a table of findings on standard
//! output. It ends with status 0 where nothing breaks MS-TDS, 1 where something does, and 2 where it
//! couldn't judge.
#![tactic(auto)]

mod arguments;
mod digits;
mod drawn;
mod line;
mod packets;
mod picture;
mod table;
mod watch;

use arguments::{Asked, Form, read_arguments};
use memchr::memchr_iter;
use std::io::{BufRead, BufReader};
use std::process::ExitCode;
use std::{env, io};
use table::put_tables;
use watch::Watch;

const HELP: &str = "\
Judges the connections of a capture: names each breach of MS-TDS and each risk, with its place

Usage: tdswatch [ARGUMENT..]  (./tdswatch FILE.pcap.. [ARGUMENT..] has tshark read the files)

Standard input has a line for each piece of bytes, in the order in which they were seen:
  STREAM > TIME HEX   bytes to the server; STREAM is a number, TIME microseconds
  STREAM < TIME HEX   bytes to the client
  STREAM borrow TIME  the connection is lent to somebody else
  STREAM close TIME   the connection is closed; its number may be used again

  --json              an object for each finding, in place of the table
  --picture N         the packets of connection N round its first finding of those that weigh most
  --limit idle-in-transaction=5s
                      a transaction that nothing is asked in for longer is a risk
  --help, --version   alone
Status: 0 no breach, 1 a breach, 2 something couldn't be judged
";

const VERSION: &str = "tdswatch 0.1.0\n";

/// After how many bytes a line on standard error says that it goes on.
const TOLD_EACH: u64 = 100_000_000;

/// How many bytes are read at once.
const AT_ONCE: usize = 65_536;

fn main(rt: HostRuntime) -> ExitCode {
    match run(&rt) {
        Ok(status) => ExitCode::from(status),
        Err(error) => {
            let _ = eprintln!(rt; "error: {error}");
            ExitCode::from(2)
        }
    }
}

fn run(rt: &HostRuntime) -> io::Result<u8> {
    let arguments = given_arguments(rt)?;
    match read_arguments(arguments.as_slice()) {
        Asked::Help => print(rt, HELP),
        Asked::Version => print(rt, VERSION),
        Asked::Wrong(place, fault) => {
            let argument = arguments
                .get(place)
                .map_or("", |argument| argument.as_str());
            let told = fault.text();
            eprintln!(rt; "error: {argument}: {told} (tdswatch --help lists the arguments)")?;
            Ok(2)
        }
        Asked::Judge { form, idle } => judge(rt, form, idle),
    }
}

fn print(rt: &HostRuntime, text: &str) -> io::Result<u8> {
    print!(rt; "{text}")?;
    Ok(0)
}

/// The arguments of the command line behind the program's name.
fn given_arguments(rt: &HostRuntime) -> io::Result<Vec<String>> {
    let mut arguments = Vec::new(rt.alloc());
    for argument in env::args(rt)?.skip(1) {
        arguments.push(argument)?;
    }
    Ok(arguments)
}

/// Judges the lines of standard input, and prints what was found.
fn judge(rt: &HostRuntime, form: Form, idle: u64) -> io::Result<u8> {
    let mut watch = Watch::new(rt.alloc(), idle, form)?;
    let mut reader = BufReader::with_capacity(rt.alloc(), AT_ONCE, rt.reader())?;
    let mut begun = Vec::new(rt.alloc());
    for _ in 0..u64::MAX {
        let count = match reader.fill_buf() {
            Ok(bytes) => {
                take_bytes(rt, &mut watch, &mut begun, bytes)?;
                bytes.len()
            }
            Err(error) if error.kind() == io::ErrorKind::Interrupted => continue,
            Err(error) => return Err(error),
        };
        if count == 0 {
            break;
        }
        reader.consume(count);
    }
    if !begun.is_empty() {
        take_line(rt, &mut watch, begun.as_slice())?;
    }
    watch.sort()?;
    show(rt, &watch, form)
}

/// Judges the lines that end among these bytes, where they stand. Of one that doesn't the front is kept.
fn take_bytes(
    rt: &HostRuntime,
    watch: &mut Watch,
    begun: &mut Vec<u8>,
    bytes: &[u8],
) -> io::Result<()> {
    let mut start = 0usize;
    for end in memchr_iter(b'\n', bytes) {
        let line = bytes.get(start..end).unwrap_or(&[]);
        if begun.is_empty() {
            take_line(rt, watch, line)?;
        } else {
            begun.extend_from_slice(line)?;
            take_line(rt, watch, begun.as_slice())?;
            begun.clear();
        }
        start = end.saturating_add(1);
    }
    begun.extend_from_slice(bytes.get(start..).unwrap_or(&[]))?;
    Ok(())
}

/// Judges a line, and says on standard error where it isn't one, and each time that so many bytes more
/// were judged.
fn take_line(rt: &HostRuntime, watch: &mut Watch, line: &[u8]) -> io::Result<()> {
    let line = match line {
        [front @ .., b'\r'] => front,
        _ => line,
    };
    let told = watch.bytes() / TOLD_EACH;
    if !watch.take_line(rt.alloc(), line)? {
        let number = watch.lines();
        eprintln!(rt; "line {number}: not judged")?;
    }
    if watch.bytes() / TOLD_EACH > told {
        let megabytes = watch.bytes() / 1_000_000;
        eprintln!(rt; "{megabytes} MB judged")?;
    }
    Ok(())
}

/// Shows what was found. The exit status.
fn show(rt: &HostRuntime, watch: &Watch, form: Form) -> io::Result<u8> {
    match form {
        Form::Table => put_tables(rt, watch, false)?,
        Form::Objects => put_tables(rt, watch, true)?,
        Form::Picture(stream) => match watch.picture(rt.alloc())? {
            Some(text) => print!(rt; "{text}")?,
            None => {
                eprintln!(rt; "error: connection {stream} isn't there")?;
                return Ok(2);
            }
        },
    }
    Ok(watch.status())
}
