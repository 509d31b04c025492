//! Schedules as tests: each with the text beside it.

use crate::fault::ViewFault;
use crate::files::{play_bytes, read_file};
use std::alloc::{AllocError, Global};
use std::fs;
use std::io::Write;
use tds_text::write_whole;
use view_listing::report_text;

/// Plays each schedule and prints a line for it; where its text differs, the first line that does,
/// as it is printed and as the text has it. Where `writes`, a text that differs or is missing is written.
/// It answers whether each prints its text, or has it now.
pub(crate) fn print_check<W: Write>(
    rt: &HostRuntime,
    names: &[String],
    writes: bool,
    output: &mut W,
) -> Result<bool, ViewFault> {
    let mut wrong = 0usize;
    for name in names {
        let (line, is_alike) = check_line(rt, name.as_str(), writes)?;
        if !is_alike {
            wrong = wrong.saturating_add(1);
        }
        write_whole(output, line.as_str())?;
    }
    if names.len() > 1 {
        let all = names.len();
        let alike = all.saturating_sub(wrong);
        let line = format!(in rt.alloc(); "{all} schedules: {alike} ok, {wrong} not\n")?;
        write_whole(output, line.as_str())?;
    }
    Ok(wrong == 0)
}

/// What is printed of a schedule, and whether it prints its text.
fn check_line(rt: &HostRuntime, name: &str, writes: bool) -> Result<(String, bool), ViewFault> {
    let alloc = rt.alloc();
    let found = match writes {
        true => written(rt, name),
        false => difference(rt, name),
    };
    match found {
        Ok(None) => Ok((format!(in alloc; "{name}: ok\n")?, true)),
        Ok(Some(text)) => Ok((format!(in alloc; "{name}: {text}")?, writes)),
        Err(ViewFault::Told(text)) => Ok((format!(in alloc; "{text}\n")?, false)),
        Err(fault) => Err(fault),
    }
}

/// The text that a schedule prints.
fn text_of(rt: &HostRuntime, name: &str) -> Result<Vec<u8>, ViewFault> {
    let schedule = read_file(rt, name)?;
    let exchange = play_bytes(rt.alloc(), name, schedule.as_slice())?;
    Ok(report_text(rt.alloc(), &exchange.report)?)
}

/// The name of the text beside a schedule.
fn beside(alloc: Global, name: &str) -> Result<String, AllocError> {
    format!(in alloc; "{}.txt", name.strip_suffix(".json").unwrap_or(name))
}

/// What of a schedule's report is not as the text beside it has it.
fn difference(rt: &HostRuntime, name: &str) -> Result<Option<String>, ViewFault> {
    let alloc = rt.alloc();
    let wanted = read_file(rt, beside(alloc, name)?.as_str())?;
    let printed = text_of(rt, name)?;
    Ok(first_difference(alloc, printed.as_slice(), wanted.as_slice())?)
}

/// Writes the text that a schedule prints beside it, where another stands there or none, and answers
/// that it did.
fn written(rt: &HostRuntime, name: &str) -> Result<Option<String>, ViewFault> {
    let alloc = rt.alloc();
    let printed = text_of(rt, name)?;
    let beside = beside(alloc, name)?;
    if let Ok(stands) = read_file(rt, beside.as_str()) {
        if stands.as_slice() == printed.as_slice() {
            return Ok(None);
        }
    }
    match fs::write(rt, beside.as_str(), printed.as_slice()) {
        Ok(()) => Ok(Some(format!(in alloc; "{beside} is written\n")?)),
        Err(error) => Err(ViewFault::Told(format!(in alloc; "{beside}: {error}")?)),
    }
}

/// The first line in which two texts differ, both ways.
fn first_difference(
    alloc: Global,
    printed: &[u8],
    wanted: &[u8],
) -> Result<Option<String>, AllocError> {
    if printed == wanted {
        return Ok(None);
    }
    let mut wanted = wanted.split(|byte| *byte == b'\n');
    for (index, line) in printed.split(|byte| *byte == b'\n').enumerate() {
        let beside = wanted.next();
        if beside != Some(line) {
            return Ok(Some(told(alloc, index.saturating_add(1), line, beside)?));
        }
    }
    Ok(Some(String::from_str(alloc, "the text beside it goes on behind what is printed\n")?))
}

fn told(
    alloc: Global,
    place: usize,
    printed: &[u8],
    beside: Option<&[u8]>,
) -> Result<String, AllocError> {
    let printed = String::from_utf8_lossy(alloc, printed)?;
    let Some(beside) = beside else {
        return format!(in alloc;
            "line {place} differs\n  printed: {printed}\n  the text beside it has ended\n"
        );
    };
    let beside = String::from_utf8_lossy(alloc, beside)?;
    format!(in alloc; "line {place} differs\n  printed: {printed}\n  its text: {beside}\n")
}
