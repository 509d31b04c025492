//! The server as the arguments ask for it, before it serves.

use crate::address::find_place;
use crate::arguments::Asked;
use crate::fault::{Bar, ServeFault};
use serve_drivers::{EventLoop, Log, Manner};
use serve_recordings::read_recording;
use serve_scripts::{Script, read_script};
use socket_places::Place;
use std::fs;
use std::io::{self, ErrorKind, Read, Stderr};
use std::os::unix::fs::FileTypeExt;

/// The most bytes of a script file and of a recording, as of a schedule's.
const FILE_LIMIT: usize = 33_554_432;

/// A server that listens as the arguments ask for, and where.
pub fn begin(rt: &HostRuntime, asked: &Asked) -> Result<(EventLoop<Stderr>, Place), ServeFault> {
    let place = find_place(rt, asked.address.as_str(), asked.lets_others_in)?;
    let manner = Manner {
        on_attention: asked.on_attention,
        pace: asked.pace,
        silence: asked.silence,
        is_real: asked.is_real,
        is_proxied: asked.is_proxied,
    };
    let script = script_of(rt, asked)?;
    let log = Log::new(rt.stderr(), asked.style);
    let mut event_loop = match EventLoop::new(rt, rt.alloc(), &place, manner, script, log) {
        Ok(event_loop) => event_loop,
        Err(error) => {
            let bar = bar_of(rt, &place, error);
            return Err(ServeFault::Listen(place, bar));
        }
    };
    if asked.ends_with_input {
        event_loop.end_with_input().map_err(ServeFault::Input)?;
    }
    Ok((event_loop, place))
}

/// Why it can't listen at this place, where the system refuses with this error.
fn bar_of(rt: &HostRuntime, place: &Place, error: io::Error) -> Bar {
    match (place, error.kind()) {
        (Place::Tcp(_), ErrorKind::AddrNotAvailable) => Bar::NoAddress,
        (Place::Tcp(_), ErrorKind::AddrInUse) => Bar::Taken,
        (Place::Unix(path), ErrorKind::AddrInUse) => match fs::symlink_metadata(rt, path.as_str()) {
            Ok(found) if !found.file_type().is_socket() => Bar::File,
            _ => Bar::Served,
        },
        _ => Bar::System(error),
    }
}

/// What the arguments say of answers.
fn script_of(rt: &HostRuntime, asked: &Asked) -> Result<Script, ServeFault> {
    let alloc = rt.alloc();
    match (&asked.script, &asked.recording) {
        (Some(_), Some(_)) => Err(ServeFault::TwoFiles),
        (Some(path), None) => {
            let bytes = bytes_of(rt, path.as_str())?;
            Ok(read_script(alloc, path.as_str(), bytes.as_slice())?)
        }
        (None, Some(path)) => {
            let bytes = bytes_of(rt, path.as_str())?;
            let recording = read_recording(alloc, path.as_str(), bytes.as_slice())?;
            Ok(Script::recorded(alloc, recording))
        }
        (None, None) => Ok(Script::none(alloc)),
    }
}

/// The bytes of the file of this name.
fn bytes_of(rt: &HostRuntime, path: &str) -> Result<Vec<u8>, ServeFault> {
    let alloc = rt.alloc();
    let mut bytes = Vec::new(alloc);
    let read = match fs::open(rt, path) {
        Ok(file) => file.take(FILE_LIMIT as u64 + 1).read_to_end(&mut bytes),
        Err(error) => Err(error),
    };
    match read {
        Ok(_) if bytes.len() <= FILE_LIMIT => Ok(bytes),
        Ok(_) => Err(ServeFault::File(format!(in alloc; "{path}: it has more than 32 MiB")?)),
        Err(error) if error.kind() == ErrorKind::OutOfMemory => Err(ServeFault::Memory),
        Err(error) => Err(ServeFault::File(format!(in alloc; "{path}: {error}")?)),
    }
}
