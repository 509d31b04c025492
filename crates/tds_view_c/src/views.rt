//! What can be asked of a play.

ghost use Rattle.std.specs.Prelude.{◌≡◌, IfOk, Some};
ghost use Rattle.tds_view_c.specs.Written.{IsReportText};

use crate::explaining::NAME;
use crate::fault::ViewFault;
use std::alloc::Global;
use tds_play::{MemoryCarrier, PlayRefusal, ScheduleFault, laws, read_schedule, run_play};
use view_lay_out::{Arrangement, Choice, draw_svg, draw_text};
use view_listing::{BytesForm, print_bytes, print_snapshots};
use view_trace::{Exchange, play_kept};

#[derive(Clone, Copy)]
pub(crate) enum View {
    Picture,
    Characters,
    Report,
    Bytes,
    Spelled,
    Connections,
}

impl View {
    /// The view of this number.
    pub(crate) fn of(number: u8) -> Option<View>
        ensures { number ≡ 3 → result ≡ Some View.Report }
    {
        match number {
            1 => Some(View::Picture),
            2 => Some(View::Characters),
            3 => Some(View::Report),
            4 => Some(View::Bytes),
            5 => Some(View::Spelled),
            6 => Some(View::Connections),
            _ => None,
        }
    }
}

/// Which events a picture shows: those from the first one to the last one, where they aren't 0.
pub(crate) fn choice_of(first: u32, last: u32) -> Choice {
    Choice {
        from: numbered(first),
        to: numbered(last),
    }
}

fn numbered(number: u32) -> Option<usize> {
    match number {
        0 => None,
        _ => Some(number as usize),
    }
}

/// The text of a view of the play of the schedule in these bytes.
pub(crate) fn view_of(
    alloc: Global,
    view: View,
    choice: Choice,
    bytes: &[u8],
) -> Result<Vec<u8>, ViewFault>
    ensures { view ≡ View.Report → IfOk result (λ text. IsReportText bytes.now text.items) }
{
    match view {
        View::Report => report_of(alloc, bytes),
        View::Picture => picture_of(alloc, choice, bytes),
        View::Characters => characters_of(alloc, choice, bytes),
        View::Bytes => packets_of(alloc, BytesForm::Digits, bytes),
        View::Spelled => packets_of(alloc, BytesForm::Shown, bytes),
        View::Connections => connections_of(alloc, bytes),
    }
}

/// The text of the report.
fn report_of(alloc: Global, bytes: &[u8]) -> Result<Vec<u8>, ViewFault>
    ensures { IfOk result (λ text. IsReportText bytes.now text.items) }
{
    let mut reader = bytes;
    let mut carrier = MemoryCarrier::new(alloc);
    let mut report = Vec::new(alloc);
    let mut line = Vec::new(alloc);
    let status = run_play(alloc, &mut reader, &mut carrier, &mut report, &mut line);
    laws::memory_never_fails();
    if status == 0 {
        Ok(report)
    } else {
        Err(why_unreported(alloc, bytes))
    }
}

/// Why a schedule has no report. Where it is played now, memory was refused before.
fn why_unreported(alloc: Global, bytes: &[u8]) -> ViewFault {
    match played(alloc, bytes) {
        Ok(_) => ViewFault::Memory,
        Err(fault) => fault,
    }
}

fn picture_of(alloc: Global, choice: Choice, bytes: &[u8]) -> Result<Vec<u8>, ViewFault> {
    let exchange = played(alloc, bytes)?;
    let picture = draw_svg(alloc, NAME, &exchange, choice, Arrangement::Below)?;
    Ok(picture.into_bytes())
}

fn characters_of(alloc: Global, choice: Choice, bytes: &[u8]) -> Result<Vec<u8>, ViewFault> {
    let exchange = played(alloc, bytes)?;
    let picture = draw_text(alloc, &exchange, choice)?;
    Ok(picture.into_bytes())
}

fn packets_of(alloc: Global, form: BytesForm, bytes: &[u8]) -> Result<Vec<u8>, ViewFault> {
    let exchange = played(alloc, bytes)?;
    let mut text = Vec::new(alloc);
    print_bytes(alloc, &exchange, form, &mut text)?;
    Ok(text)
}

fn connections_of(alloc: Global, bytes: &[u8]) -> Result<Vec<u8>, ViewFault> {
    let exchange = played(alloc, bytes)?;
    let mut text = Vec::new(alloc);
    print_snapshots(alloc, exchange.report, &mut text)?;
    Ok(text)
}

/// The play of a schedule.
fn played(alloc: Global, bytes: &[u8]) -> Result<Exchange, ViewFault> {
    let (setup, events) = match read_schedule(alloc, bytes) {
        Ok(found) => found,
        Err(ScheduleFault::Memory) => return Err(ViewFault::Memory),
        Err(_) => return Err(ViewFault::Unplayed),
    };
    match play_kept(alloc, setup, events) {
        Ok(exchange) => Ok(exchange),
        Err(PlayRefusal::Memory) => Err(ViewFault::Memory),
        Err(_) => Err(ViewFault::Unplayed),
    }
}
