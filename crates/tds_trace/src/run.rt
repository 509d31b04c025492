//! A run from a schedule file to the printed trace.
ghost use Rattle.std.specs.Prelude.{◌≡◌, ◌⊎◌, IfErr, IfOk, OnOk, string_bytes};
ghost use Rattle.std.specs.Io.KnownBytes.{Appends};
ghost use Rattle.tds_play.specs.Runs.{AreLeft, FitsFile};
ghost use Rattle.tds_text.specs.Written.{WritesBeginning};
ghost use Rattle.tds_trace.specs.Faults.{EndsBy, EndsTold, IsBeforeOutput, IsFaultOf, IsShownBy, IsUnread, TellsFault};
ghost use Rattle.tds_trace.specs.Runs.{IsTraceOf, Traces};
ghost use Rattle.tds_trace.specs.declared.fault.TraceFault.TheVariants.{Memory, Output};

use crate::fault::TraceFault;
use crate::lines::put_trace;
use crate::tracing::play_traced;
use std::alloc::Global;
use std::io::{ErrorKind, Read, Write};
use tds_play::{RenderFault, read_schedule};
use tds_text::write_whole;

/// The most bytes of a schedule file, as of a run of `play`.
const FILE_LIMIT: usize = 33_554_432;

/// Reads a schedule, plays it over memory, and prints the trace to `output`, or a line about the first
/// fault to `errors`: the one that a run of `play` tells. It answers the exit status: 0 if the whole
/// trace went out, else 1.
pub fn run_trace<R: Read, W: Write, F: Write>(
    alloc: Global,
    reader: &mut R,
    output: &mut W,
    errors: &mut F,
) -> u8
    ensures status { (result ≡ 0) ⊎ (result ≡ 1) }
    ensures fits { result ≡ 0 → FitsFile (R.remaining reader.old) }
    ensures trace { result ≡ 0
        → Traces (R.remaining reader.old) (W.contents output.old) (W.contents output.new) }
    ensures silent { result ≡ 0 → F.contents errors.new ≡ F.contents errors.old }
    ensures fault { result ≡ 1 → EndsTold (R.remaining reader.old) (W.contents output.old)
        (W.contents output.new) (F.contents errors.old) (F.contents errors.new) }
{
    match trace_file(alloc, reader, output) {
        Ok(()) => 0,
        Err(fault) => {
            tell(alloc, &fault, errors);
            1
        }
    }
}

fn tell<F: Write>(alloc: Global, fault: &TraceFault, errors: &mut F)
    ensures { TellsFault (F.contents errors.old) (F.contents errors.new) fault.now }
{
    let mut line = String::new(alloc);
    match fault.put(&mut line) {
        Ok(()) => write_line(errors, line.as_str()),
        Err(_) => write_line(errors, "error: memory\n"),
    }
}

/// Writes a line, or a beginning of it where a write fails: then there is nobody to tell.
#[tactic(auto, using(crate::proofs::Ending::whole_is_beginning))]
fn write_line<F: Write>(errors: &mut F, line: &str)
    ensures { WritesBeginning (F.contents errors.old) (F.contents errors.new) line.now }
{
    match write_whole(errors, line) {
        Ok(()) => {}
        Err(_) => {}
    }
}

#[tactic(auto, using(crate::proofs::Ending::leaves_all))]
fn trace_file<R: Read, W: Write>(
    alloc: Global,
    reader: &mut R,
    output: &mut W,
) -> Result<(), TraceFault>
    ensures fits { OnOk result (FitsFile (R.remaining reader.old)) }
    ensures trace { OnOk result
        (Traces (R.remaining reader.old) (W.contents output.old) (W.contents output.new)) }
    ensures fault { IfErr result (λ fault. EndsBy fault (R.remaining reader.old)
        (W.contents output.old) (W.contents output.new)) }
{
    let bytes = read_file(alloc, reader)?;
    let text = trace_of(alloc, bytes.as_slice())?;
    print_trace(text.as_str(), output)
}

/// Writes a trace.
fn print_trace<W: Write>(text: &str, output: &mut W) -> Result<(), TraceFault>
    ensures whole { OnOk result
        (Appends (W.contents output.old) (W.contents output.new) text.now) }
    ensures begun { IfErr result (λ fault.
        WritesBeginning (W.contents output.old) (W.contents output.new) text.now) }
    ensures fault { IfErr result (λ fault. (fault ≡ Output) ⊎ (fault ≡ Memory)) }
{
    match write_whole(output, text) {
        Ok(()) => Ok(()),
        Err(RenderFault::Write) => Err(TraceFault::Output),
        Err(RenderFault::Memory) => Err(TraceFault::Memory),
    }
}

/// The trace of the play that the bytes of a schedule file spell.
fn trace_of(alloc: Global, bytes: &[u8]) -> Result<String, TraceFault>
    ensures trace { IfOk result (λ text. IsTraceOf bytes.now (string_bytes text)) }
    ensures fault { IfErr result (λ fault. IsFaultOf fault bytes.now × IsBeforeOutput fault) }
    ensures shown { IfErr result (λ fault. (fault ≡ Memory) ⊎ IsShownBy fault bytes.now) }
{
    let (setup, events) = read_schedule(alloc, bytes)?;
    let trace = play_traced(alloc, &setup, events.as_slice())?;
    let mut text = String::new(alloc);
    let calls = trace.calls.as_slice();
    put_trace(alloc, &mut text, &setup, &trace.report, calls)?;
    Ok(text)
}

/// Reads what is left; of a file that is too long, one byte more than it may have.
fn read_file<R: Read>(alloc: Global, reader: &mut R) -> Result<Vec<u8>, TraceFault>
    ensures bytes { IfOk result (λ bytes. AreLeft (R.remaining reader.old) bytes.items) }
    ensures fits { OnOk result (FitsFile (R.remaining reader.old)) }
    ensures fault { IfErr result (λ fault. IsUnread fault (R.remaining reader.old)) }
{
    let mut bytes = Vec::new(alloc);
    let mut front = reader.take(FILE_LIMIT as u64 + 1);
    match front.read_to_end(&mut bytes) {
        Ok(_) if bytes.len() <= FILE_LIMIT => Ok(bytes),
        Ok(_) => Err(TraceFault::File),
        Err(error) => match error.kind() {
            ErrorKind::OutOfMemory => Err(TraceFault::Memory),
            _ => Err(TraceFault::File),
        },
    }
}
