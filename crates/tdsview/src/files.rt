//! Files that are read.

use crate::fault::ViewFault;
use std::alloc::Global;
use std::fs;
use std::io::{ErrorKind, Read};
use tds_play::{Event, PlayRefusal, ScheduleFault, Setup, read_schedule};
use view_explain::{why_unplayed, why_unread};
use view_trace::{Exchange, play_kept};

/// The most bytes of a file, as of `tdsplay`.
const FILE_LIMIT: usize = 33_554_432;

/// All bytes of a file.
pub(crate) fn read_file(rt: &HostRuntime, name: &str) -> Result<Vec<u8>, ViewFault> {
    let alloc = rt.alloc();
    let mut bytes = Vec::new(alloc);
    let read = match fs::open(rt, name) {
        Ok(file) => file.take(FILE_LIMIT as u64 + 1).read_to_end(&mut bytes),
        Err(error) => Err(error),
    };
    match read {
        Ok(_) if bytes.len() <= FILE_LIMIT => Ok(bytes),
        Ok(_) => Err(told(format!(in alloc; "{name}: it has more than 32 MiB")?)),
        Err(error) if error.kind() == ErrorKind::OutOfMemory => Err(ViewFault::Memory),
        Err(error) => Err(told(format!(in alloc; "{name}: {error}")?)),
    }
}

fn told(text: String) -> ViewFault {
    ViewFault::Told(text)
}

/// The play of the schedule in a file. Where it isn't played, the fault says what is wrong, and where.
pub(crate) fn play_named(rt: &HostRuntime, name: &str) -> Result<Exchange, ViewFault> {
    let bytes = read_file(rt, name)?;
    play_bytes(rt.alloc(), name, bytes.as_slice())
}

/// The play of the schedule in bytes of a file of this name.
pub(crate) fn play_bytes(alloc: Global, name: &str, bytes: &[u8]) -> Result<Exchange, ViewFault> {
    match read_schedule(alloc, bytes) {
        Ok((setup, events)) => play_events(alloc, name, bytes, setup, events),
        Err(ScheduleFault::Memory) => Err(ViewFault::Memory),
        Err(fault) => Err(told(why_unread(alloc, name, bytes, &fault)?)),
    }
}

/// The play of these events, which the bytes of a file of this name spell.
fn play_events(
    alloc: Global,
    name: &str,
    bytes: &[u8],
    setup: Setup,
    events: Vec<Event>,
) -> Result<Exchange, ViewFault> {
    let count = events.len();
    match play_kept(alloc, setup, events) {
        Ok(exchange) => Ok(exchange),
        Err(PlayRefusal::Memory) => Err(ViewFault::Memory),
        Err(_) => Err(told(why_unplayed(alloc, name, bytes, setup, count)?)),
    }
}
