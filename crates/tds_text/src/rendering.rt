//! The text of a report.
ghost use Rattle.std.specs.Prelude.{◌≡◌, OnOk, OnErr};
ghost use Rattle.std.specs.Io.KnownBytes.{Appends};
ghost use Rattle.std.specs.List.{flat_map};
ghost use Rattle.tds_text.specs.Lines.{event_line, event_lines, request_block, request_blocks, connection_line, last_snapshots, text_of};
ghost use Rattle.tds_text.specs.Written.{WritesBeginning};

mod fault;
mod line;
mod outcome;
mod session;
mod text;
mod token;
mod written;

pub use fault::RenderFault;
use line::{put_connection, put_event, put_request};
use std::alloc::Global;
use std::io::Write;
use tds_world::{EventReport, Report, RequestReport, Snapshot};
pub use text::{put_hex2, put_hex4, put_units};
pub use token::put_token_line;
pub use written::write_whole;

/// Writes the text of a report, line by line. After a fault a beginning of the text went out.
pub fn render<W: Write>(alloc: Global, report: &Report, writer: &mut W) -> Result<(), RenderFault>
    ensures ok { OnOk result
        (Appends (W.contents writer.old) (W.contents writer.new) (text_of report.now)) }
    ensures fault { OnErr result
        (WritesBeginning (W.contents writer.old) (W.contents writer.new) (text_of report.now)) }
{
    let mut line = String::new(alloc);
    let events = report.events.as_slice();
    write_events(writer, &mut line, events)?;
    write_requests(writer, &mut line, report.requests.as_slice())?;
    write_connections(writer, &mut line, last_snapshots_of(events))
}

fn last_snapshots_of(events: &[EventReport]) -> &[Snapshot]
    ensures { result.now ≡ last_snapshots events.now }
{
    match events.last() {
        None => &[],
        Some(last) => last.snapshots.as_slice(),
    }
}

fn write_events<W: Write>(
    writer: &mut W,
    line: &mut String,
    events: &[EventReport],
) -> Result<(), RenderFault>
    ensures ok { OnOk result
        (Appends (W.contents writer.old) (W.contents writer.new) (event_lines 1 events.now)) }
    ensures fault { OnErr result
        (WritesBeginning (W.contents writer.old) (W.contents writer.new)
        (event_lines 1 events.now)) }
{
    for (index, event) in events.iter().enumerate() {
        write_event(writer, line, index + 1, event)?;
    }
    Ok(())
}

fn write_event<W: Write>(
    writer: &mut W,
    line: &mut String,
    place: usize,
    event: &EventReport,
) -> Result<(), RenderFault>
    ensures ok { OnOk result
        (Appends (W.contents writer.old) (W.contents writer.new) (event_line place event.now)) }
    ensures fault { OnErr result
        (WritesBeginning (W.contents writer.old) (W.contents writer.new)
        (event_line place event.now)) }
{
    line.clear();
    put_event(line, place, event)?;
    write_whole(writer, line.as_str())
}

fn write_requests<W: Write>(
    writer: &mut W,
    line: &mut String,
    requests: &[RequestReport],
) -> Result<(), RenderFault>
    ensures ok { OnOk result
        (Appends (W.contents writer.old) (W.contents writer.new) (request_blocks 1 requests.now)) }
    ensures fault { OnErr result
        (WritesBeginning (W.contents writer.old) (W.contents writer.new)
        (request_blocks 1 requests.now)) }
{
    for (index, request) in requests.iter().enumerate() {
        write_request(writer, line, index + 1, request)?;
    }
    Ok(())
}

fn write_request<W: Write>(
    writer: &mut W,
    line: &mut String,
    number: usize,
    request: &RequestReport,
) -> Result<(), RenderFault>
    ensures ok { OnOk result
        (Appends (W.contents writer.old) (W.contents writer.new)
        (request_block number request.now)) }
    ensures fault { OnErr result
        (WritesBeginning (W.contents writer.old) (W.contents writer.new)
        (request_block number request.now)) }
{
    line.clear();
    put_request(line, number, request)?;
    write_whole(writer, line.as_str())
}

fn write_connections<W: Write>(
    writer: &mut W,
    line: &mut String,
    snapshots: &[Snapshot],
) -> Result<(), RenderFault>
    ensures ok { OnOk result
        (Appends (W.contents writer.old) (W.contents writer.new)
        (flat_map connection_line snapshots.now)) }
    ensures fault { OnErr result
        (WritesBeginning (W.contents writer.old) (W.contents writer.new)
        (flat_map connection_line snapshots.now)) }
{
    for snapshot in snapshots {
        write_connection(writer, line, snapshot)?;
    }
    Ok(())
}

fn write_connection<W: Write>(
    writer: &mut W,
    line: &mut String,
    snapshot: &Snapshot,
) -> Result<(), RenderFault>
    ensures ok { OnOk result
        (Appends (W.contents writer.old) (W.contents writer.new) (connection_line snapshot.now)) }
    ensures fault { OnErr result
        (WritesBeginning (W.contents writer.old) (W.contents writer.new)
        (connection_line snapshot.now)) }
{
    line.clear();
    put_connection(line, snapshot)?;
    write_whole(writer, line.as_str())
}
