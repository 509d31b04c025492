//! Lines of a report as texts of JSON.
ghost use Rattle.std.specs.Prelude.{◌≡◌, ◌++◌, ◌-◌, IfOk, OnOk, string_bytes, length, take, drop, codes};
ghost use Rattle.std.specs.List.{flat_map};
ghost use Rattle.tds_text.specs.Lines.{connection_line, event_line, request_block, text_of};
ghost use Rattle.tds_trace.specs.Lines.{event_words, json_char, line_text, request_words, snapshot_text, token_text};

use std::alloc::{AllocError, Global};
use tds_text::{put_token_line, render};
use tds_token::Token;
use tds_world::{EventReport, Outcome, Report, RequestReport, Sequence, Snapshot};

/// Appends what an event came to, as a text of JSON.
#[tactic(auto, unfolding(crate::specs::Lines::event_words))]
pub(super) fn put_event_words(
    alloc: Global,
    text: &mut String,
    event: &EventReport,
) -> Result<(), AllocError>
    ensures { OnOk result
        (string_bytes text.new ≡ string_bytes text.old ++ event_words event.now) }
{
    let alone = EventReport {
        outcome: event.outcome,
        lost: event.lost,
        snapshots: Sequence::new(Vec::new(alloc)),
    };
    let line = event_alone(alloc, alone)?;
    put_line(text, line.as_slice(), 2)
}

/// Appends what is seen of a connection, as a text of JSON.
pub(super) fn put_snapshot(
    alloc: Global,
    text: &mut String,
    snapshot: &Snapshot,
) -> Result<(), AllocError>
    ensures { OnOk result
        (string_bytes text.new ≡ string_bytes text.old ++ snapshot_text snapshot.now) }
{
    let lines = snapshot_alone(alloc, Snapshot { ..*snapshot })?;
    // The line of an event, `1 cut`, stands before it.
    put_line(text, lines.as_slice(), 6)
}

/// Appends what became of a request, as a text of JSON.
pub(super) fn put_request_words(
    alloc: Global,
    text: &mut String,
    request: &RequestReport,
) -> Result<(), AllocError>
    ensures { OnOk result
        (string_bytes text.new ≡ string_bytes text.old ++ request_words request.now) }
{
    let RequestReport {
        lease,
        conn,
        status,
        ran,
        ..
    } = request;
    let alone = RequestReport {
        lease: *lease,
        conn: *conn,
        status: *status,
        ran: *ran,
        tokens: Sequence::new(Vec::new(alloc)),
    };
    let line = request_alone(alloc, alone)?;
    put_line(text, line.as_slice(), 10)
}

/// Appends a token that a caller was given, as a text of JSON.
#[tactic(auto, unfolding(crate::specs::Lines::token_text))]
pub(super) fn put_token(alloc: Global, text: &mut String, token: &Token) -> Result<(), AllocError>
    ensures { OnOk result
        (string_bytes text.new ≡ string_bytes text.old ++ token_text token.now) }
{
    let mut line = String::new(alloc);
    put_token_line(&mut line, token)?;
    put_line(text, line.as_str().as_bytes(), 2)
}

/// The text of a report of one event.
fn event_alone(alloc: Global, event: EventReport) -> Result<Vec<u8>, AllocError>
    ensures { IfOk result (λ bytes. bytes.items
        ≡ event_line 1 event ++ flat_map connection_line event.snapshots) }
{
    let mut events = Vec::new(alloc);
    events.push(event)?;
    let report = Report {
        events: Sequence::new(events),
        requests: Sequence::new(Vec::new(alloc)),
    };
    rendered(alloc, &report)
}

/// The text of a report of one connection, behind the line of an event.
fn snapshot_alone(alloc: Global, snapshot: Snapshot) -> Result<Vec<u8>, AllocError>
    ensures { IfOk result (λ bytes. bytes.items ≡ codes "1 cut\n" ++ connection_line snapshot) }
{
    let mut snapshots = Vec::new(alloc);
    snapshots.push(snapshot)?;
    let event = EventReport {
        outcome: Outcome::Cut,
        lost: false,
        snapshots: Sequence::new(snapshots),
    };
    event_alone(alloc, event)
}

/// The text of a report of one request.
fn request_alone(alloc: Global, request: RequestReport) -> Result<Vec<u8>, AllocError>
    ensures { IfOk result (λ bytes. bytes.items ≡ request_block 1 request) }
{
    let mut requests = Vec::new(alloc);
    requests.push(request)?;
    let report = Report {
        events: Sequence::new(Vec::new(alloc)),
        requests: Sequence::new(requests),
    };
    rendered(alloc, &report)
}

/// The text of a report.
fn rendered(alloc: Global, report: &Report) -> Result<Vec<u8>, AllocError>
    ensures { IfOk result (λ bytes. bytes.items ≡ text_of report.now) }
{
    let mut text = Vec::new(alloc);
    match render(alloc, report, &mut text) {
        Ok(()) => Ok(text),
        // A write into a vector fails for want of memory alone.
        Err(_) => Err(AllocError),
    }
}

/// Appends a line as a text of JSON: behind so many characters, and without the line feed.
fn put_line(text: &mut String, line: &[u8], from: usize) -> Result<(), AllocError>
    ensures { OnOk result
        (string_bytes text.new ≡ string_bytes text.old ++ line_text from line.now) }
{
    text.push_str("\"")?;
    put_chars(text, part(line, from))?;
    text.push_str("\"")
}

/// What stands in a line behind so many characters, without the line feed.
fn part(line: &[u8], from: usize) -> &[u8]
    ensures { result.now ≡ take (length line.now - 1 - from) (drop from line.now) }
{
    let end = line.len().saturating_sub(1);
    match from < end {
        true => &line[from..end],
        false => &[],
    }
}

fn put_chars(text: &mut String, chars: &[u8]) -> Result<(), AllocError>
    ensures { OnOk result
        (string_bytes text.new ≡ string_bytes text.old ++ flat_map json_char chars.now) }
{
    for char in chars {
        put_char(text, *char)?;
    }
    Ok(())
}

fn put_char(text: &mut String, char: u8) -> Result<(), AllocError>
    ensures { OnOk result (string_bytes text.new ≡ string_bytes text.old ++ json_char char) }
{
    match char {
        34 => text.push_str("\\\""),
        92 => text.push_str("\\\\"),
        32..=126 => text.push(char::from(char)),
        _ => text.push_str("?"),
    }
}
