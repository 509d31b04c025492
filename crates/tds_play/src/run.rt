//! A run from a schedule file to the printed report.
ghost use Rattle.std.specs.Prelude.{◌≡◌, ◌++◌, ◌⊎◌, OnOk, IfOk, IfErr, IfSome, None, string_bytes};
ghost use Rattle.std.specs.Io.KnownBytes.{Appends};
ghost use Rattle.tds_text.specs.Lines.{text_of};
ghost use Rattle.tds_text.specs.Written.{WritesBeginning};
ghost use Rattle.tds_play.specs.Pipe.{AreFaithful};
ghost use Rattle.tds_play.specs.Runs.{AreLeft, IsReportOf, IsFaultOf, IsBeforeOutput, IsLineOf, IsShownBy, IsTextOf, IsUnread, EndsBy, Reports, TellsFault, fault_line, FitsFile, of_schedule, of_refusal};
ghost use Rattle.tds_play.specs.declared.run.RunFault.{RunFault};
ghost use Rattle.tds_play.specs.declared.run.RunFault.TheVariants.{Output, Memory};

use crate::carrier::EventCarrier;
use crate::playing::play;
use crate::refusal::PlayRefusal;
use std::alloc::{AllocError, Global};
use std::io::{ErrorKind, Read, Write};
use tds_text::{RenderFault, ScheduleFault, read_schedule, render, write_whole};
use tds_world::Report;

/// The most bytes of a schedule file: 10,000 texts of 2,000 ASCII characters have 20 million. What
/// is longer would take gigabytes of memory before its events can be counted.
const FILE_LIMIT: usize = 33_554_432;

/// What ends a run before the whole report is printed.
#[derive(Drop)]
pub(crate) enum RunFault {
    /// Reading failed, or there is more than a schedule file may have.
    File,
    /// What was read is no JSON text.
    Json,
    /// The JSON value spells no schedule: the place of the first wrong event, or 0.
    Schedule(usize),
    /// The schedule isn't played, or not to its end.
    Play(PlayRefusal),
    /// A write of the report failed.
    Output,
    /// Memory.
    Memory,
}

impl From<ScheduleFault> for RunFault {
    ghost from_gives = { λ fault e. e ≡ of_schedule fault };

    fn from(fault: ScheduleFault) -> RunFault {
        match fault {
            ScheduleFault::Json => RunFault::Json,
            ScheduleFault::Wrong { place } => RunFault::Schedule(place),
            ScheduleFault::Memory => RunFault::Memory,
        }
    }
}

impl From<PlayRefusal> for RunFault {
    ghost from_gives = { λ refusal e. e ≡ of_refusal refusal };

    fn from(refusal: PlayRefusal) -> RunFault {
        match refusal {
            PlayRefusal::Memory => RunFault::Memory,
            PlayRefusal::TooManyEvents => RunFault::Play(PlayRefusal::TooManyEvents),
            PlayRefusal::WrongSetup => RunFault::Play(PlayRefusal::WrongSetup),
            PlayRefusal::NotCleaned => RunFault::Play(PlayRefusal::NotCleaned),
        }
    }
}

impl RunFault {
    /// Appends the fault's line.
    fn put(&self, line: &mut String) -> Result<(), AllocError>
        ensures { OnOk result
            (string_bytes line.new ≡ string_bytes line.old ++ fault_line self.now) }
    {
        use std::fmt::Write;

        match self {
            RunFault::File => line.push_str("error: file\n"),
            RunFault::Json => line.push_str("error: json\n"),
            RunFault::Schedule(place) => write!(line, "error: schedule {place}\n"),
            RunFault::Play(refusal) => write!(line, "error: play {}\n", refusal.number()),
            RunFault::Output => write!(line, "error: output\n"),
            RunFault::Memory => line.push_str("error: memory\n"),
        }
    }
}

/// Reads a schedule, plays it, and prints the report to `output`, or a line about the first fault
/// to `errors`. It answers the exit status: 0 if the whole report went out, else 1. An event in which
/// the carrier fails is marked lost in the report.
pub fn run_play<R: Read, C: EventCarrier, W: Write, F: Write>(
    alloc: Global,
    reader: &mut R,
    carrier: &mut C,
    output: &mut W,
    errors: &mut F,
) -> u8
    ensures status { (result ≡ 0) ⊎ (result ≡ 1) }
    ensures fits { result ≡ 0 → FitsFile (R.remaining reader.old) }
    // Where what came in the end is the first of what was handed over, what is printed is the report
    // of a play of the schedule that was read.
    ensures report { AreFaithful (C.pipes carrier.new) → result ≡ 0 → Reports
        (C.pipes carrier.new) (R.remaining reader.old) (W.contents output.old)
        (W.contents output.new) }
    ensures silent { result ≡ 0 → F.contents errors.new ≡ F.contents errors.old }
    ensures fault { AreFaithful (C.pipes carrier.new) → result ≡ 1 → (fault : RunFault)
        × EndsBy (C.pipes carrier.new) fault (R.remaining reader.old) (W.contents output.old)
        (W.contents output.new)
        × TellsFault (F.contents errors.old) (F.contents errors.new) fault }
{
    match report_file(alloc, reader, carrier, output) {
        Ok(()) => 0,
        Err(fault) => {
            tell(alloc, &fault, errors);
            1
        }
    }
}

fn tell<F: Write>(alloc: Global, fault: &RunFault, errors: &mut F)
    ensures { TellsFault (F.contents errors.old) (F.contents errors.new) fault.now }
{
    let mut line = String::new(alloc);
    match fault.put(&mut line) {
        Ok(()) => write_line(errors, line.as_str()),
        Err(_) => write_line(errors, "error: memory\n"),
    }
}

/// Writes a line, or a beginning of it where a write fails: then there is nobody to tell.
#[tactic(auto, using(crate::proofs::Running::whole_is_beginning))]
fn write_line<F: Write>(errors: &mut F, line: &str)
    ensures { WritesBeginning (F.contents errors.old) (F.contents errors.new) line.now }
{
    match write_whole(errors, line) {
        Ok(()) => {}
        Err(_) => {}
    }
}

#[tactic(auto, using(crate::proofs::Running::leaves_all))]
fn report_file<R: Read, C: EventCarrier, W: Write>(
    alloc: Global,
    reader: &mut R,
    carrier: &mut C,
    output: &mut W,
) -> Result<(), RunFault>
    ensures fits { OnOk result (FitsFile (R.remaining reader.old)) }
    ensures report { AreFaithful (C.pipes carrier.new) → OnOk result (Reports (C.pipes carrier.new)
        (R.remaining reader.old) (W.contents output.old) (W.contents output.new)) }
    ensures fault { AreFaithful (C.pipes carrier.new) → IfErr result (λ fault. EndsBy
        (C.pipes carrier.new) fault (R.remaining reader.old) (W.contents output.old)
        (W.contents output.new)) }
{
    let bytes = read_file(alloc, reader)?;
    let report = play_file(alloc, bytes.as_slice(), carrier)?;
    print_report(alloc, &report, output)
}

/// Reads what is left; of a file that is too long, one byte more than it may have.
fn read_file<R: Read>(alloc: Global, reader: &mut R) -> Result<Vec<u8>, RunFault>
    ensures bytes { IfOk result (λ bytes. AreLeft (R.remaining reader.old) bytes.items) }
    ensures fits { OnOk result (FitsFile (R.remaining reader.old)) }
    ensures fault { IfErr result (λ fault. IsUnread fault (R.remaining reader.old)) }
{
    let mut bytes = Vec::new(alloc);
    let mut front = reader.take(FILE_LIMIT as u64 + 1);
    match front.read_to_end(&mut bytes) {
        Ok(_) if bytes.len() <= FILE_LIMIT => Ok(bytes),
        Ok(_) => Err(RunFault::File),
        Err(error) => match error.kind() {
            ErrorKind::OutOfMemory => Err(RunFault::Memory),
            _ => Err(RunFault::File),
        },
    }
}

/// Plays the schedule in these bytes, and answers the text of its report; or else the whole line of
/// the fault that they show, or `None` where memory was refused.
pub fn play_text<C: EventCarrier>(
    alloc: Global,
    bytes: &[u8],
    carrier: &mut C,
) -> Result<Vec<u8>, Option<String>>
    ensures report { AreFaithful (C.pipes carrier.new)
        → IfOk result (λ text. IsTextOf (C.pipes carrier.new) bytes.now text.items) }
    ensures line { IfErr result (λ line. IfSome line (λ l. IsLineOf bytes.now (string_bytes l))) }
{
    match text_of_play(alloc, bytes, carrier) {
        Ok(text) => Ok(text),
        Err(fault) => Err(line_of(alloc, &fault)),
    }
}

/// The text of the report of these bytes.
fn text_of_play<C: EventCarrier>(
    alloc: Global,
    bytes: &[u8],
    carrier: &mut C,
) -> Result<Vec<u8>, RunFault>
    ensures report { AreFaithful (C.pipes carrier.new)
        → IfOk result (λ text. IsTextOf (C.pipes carrier.new) bytes.now text.items) }
    ensures fault { IfErr result (λ fault. (fault ≡ Memory) ⊎ IsShownBy fault bytes.now) }
{
    let report = play_file(alloc, bytes, carrier)?;
    let mut text = Vec::new(alloc);
    match print_report(alloc, &report, &mut text) {
        Ok(()) => Ok(text),
        // What is written to a vector fails where memory was refused.
        Err(_) => Err(RunFault::Memory),
    }
}

/// The line of a fault. There is none of memory, nor where memory is refused to make it.
fn line_of(alloc: Global, fault: &RunFault) -> Option<String>
    ensures line { IfSome result (λ line. string_bytes line ≡ fault_line fault.now) }
    ensures memory { fault.now ≡ Memory → result ≡ None }
{
    if let RunFault::Memory = fault {
        return None;
    }
    let mut line = String::new(alloc);
    match fault.put(&mut line) {
        Ok(()) => Some(line),
        Err(_) => None,
    }
}

fn play_file<C: EventCarrier>(
    alloc: Global,
    bytes: &[u8],
    carrier: &mut C,
) -> Result<Report, RunFault>
    ensures played { AreFaithful (C.pipes carrier.new)
        → IfOk result (λ report. IsReportOf (C.pipes carrier.new) bytes.now report) }
    ensures fault { IfErr result (λ fault. IsFaultOf fault bytes.now × IsBeforeOutput fault) }
    ensures shown { IfErr result (λ fault. (fault ≡ Memory) ⊎ IsShownBy fault bytes.now) }
{
    let (setup, events) = read_schedule(alloc, bytes)?;
    Ok(play(alloc, &setup, events.as_slice(), carrier)?)
}

fn print_report<W: Write>(alloc: Global, report: &Report, output: &mut W) -> Result<(), RunFault>
    ensures whole { OnOk result
        (Appends (W.contents output.old) (W.contents output.new) (text_of report.now)) }
    ensures begun { IfErr result (λ fault.
        WritesBeginning (W.contents output.old) (W.contents output.new) (text_of report.now)) }
    ensures fault { IfErr result (λ fault. (fault ≡ Output) ⊎ (fault ≡ Memory)) }
{
    match render(alloc, report, output) {
        Ok(()) => Ok(()),
        Err(RenderFault::Write) => Err(RunFault::Output),
        Err(RenderFault::Memory) => Err(RunFault::Memory),
    }
}
