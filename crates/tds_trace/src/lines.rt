//! The lines of a trace.
ghost use Rattle.std.specs.Prelude.{◌≡◌, ◌++◌, OnOk, string_bytes};
ghost use Rattle.tds_text.specs.Texts.{comma_behind};
ghost use Rattle.tds_trace.specs.Lines.{call_json, calls_of, event_front, event_json, event_lines, request_front, request_json, request_lines, rolls_back, setup_head, setup_line, snapshots_text, tokens_text, trace_text};

mod call;
mod line;

use crate::call::Call;
use call::{put_call, put_truth};
use line::{put_event_words, put_request_words, put_snapshot, put_token};
use std::alloc::{AllocError, Global};
use std::fmt::Write;
use tds_session::OnAttention;
use tds_token::Token;
use tds_world::{EventReport, Report, RequestReport, Setup, Snapshot};

/// Appends the trace of a play with this setup, of which this is told, and which made these calls.
pub fn put_trace(
    alloc: Global,
    text: &mut String,
    setup: &Setup,
    report: &Report,
    calls: &[Call],
) -> Result<(), AllocError>
    ensures { OnOk result (string_bytes text.new
        ≡ string_bytes text.old ++ trace_text setup.now report.now calls.now) }
{
    put_setup(text, setup)?;
    put_events(alloc, text, report.events.as_slice(), calls)?;
    put_requests(alloc, text, report.requests.as_slice())
}

fn put_setup(text: &mut String, setup: &Setup) -> Result<(), AllocError>
    ensures { OnOk result (string_bytes text.new ≡ string_bytes text.old ++ setup_line setup.now) }
{
    put_setup_head(text, setup)?;
    put_truth(text, rolls_back_of(setup.on_attention))?;
    text.push_str("}\n")
}

#[tactic(auto, unfolding(crate::specs::Lines::setup_head))]
fn put_setup_head(text: &mut String, setup: &Setup) -> Result<(), AllocError>
    ensures { OnOk result (string_bytes text.new ≡ string_bytes text.old ++ setup_head setup.now) }
{
    let Setup {
        packet_size,
        max,
        ..
    } = setup;
    write!(
        text,
        "{{\"packet_size\":{packet_size},\"max\":{max},\"rollback_on_attention\":"
    )
}

fn rolls_back_of(on_attention: OnAttention) -> bool
    ensures { result ≡ rolls_back on_attention }
{
    match on_attention {
        OnAttention::Keep => false,
        OnAttention::RollBack => true,
    }
}

fn put_events(
    alloc: Global,
    text: &mut String,
    events: &[EventReport],
    calls: &[Call],
) -> Result<(), AllocError>
    ensures { OnOk result
        (string_bytes text.new ≡ string_bytes text.old ++ event_lines 1 events.now calls.now) }
{
    for (index, event) in events.iter().enumerate() {
        put_event(alloc, text, index + 1, event)?;
        put_calls(text, index + 1, calls)?;
    }
    Ok(())
}

fn put_event(
    alloc: Global,
    text: &mut String,
    place: usize,
    event: &EventReport,
) -> Result<(), AllocError>
    ensures { OnOk result
        (string_bytes text.new ≡ string_bytes text.old ++ event_json place event.now) }
{
    put_event_front(text, place)?;
    put_event_words(alloc, text, event)?;
    text.push_str(",\"connections\":[")?;
    put_snapshots(alloc, text, event.snapshots.as_slice())?;
    text.push_str("]}\n")
}

#[tactic(auto, unfolding(crate::specs::Lines::event_front))]
fn put_event_front(text: &mut String, place: usize) -> Result<(), AllocError>
    ensures { OnOk result (string_bytes text.new ≡ string_bytes text.old ++ event_front place) }
{
    write!(text, "{{\"event\":{place},\"outcome\":")
}

fn put_snapshots(alloc: Global, text: &mut String, snapshots: &[Snapshot]) -> Result<(), AllocError>
    ensures { OnOk result
        (string_bytes text.new ≡ string_bytes text.old ++ snapshots_text snapshots.now) }
{
    for (index, snapshot) in snapshots.iter().enumerate() {
        put_comma(text, index)?;
        put_snapshot(alloc, text, snapshot)?;
    }
    Ok(())
}

/// Appends the comma that stands before an item with so many before it.
fn put_comma(text: &mut String, before: usize) -> Result<(), AllocError>
    ensures { OnOk result (string_bytes text.new ≡ string_bytes text.old ++ comma_behind before) }
{
    match before {
        0 => Ok(()),
        _ => text.push_str(","),
    }
}

/// Appends those of these calls that the event at a place made.
fn put_calls(text: &mut String, place: usize, calls: &[Call]) -> Result<(), AllocError>
    ensures { OnOk result
        (string_bytes text.new ≡ string_bytes text.old ++ calls_of place calls.now) }
{
    for call in calls {
        if call.event as usize == place {
            put_call(text, call)?;
        }
    }
    Ok(())
}

fn put_requests(
    alloc: Global,
    text: &mut String,
    requests: &[RequestReport],
) -> Result<(), AllocError>
    ensures { OnOk result
        (string_bytes text.new ≡ string_bytes text.old ++ request_lines 1 requests.now) }
{
    for (index, request) in requests.iter().enumerate() {
        put_request(alloc, text, index + 1, request)?;
    }
    Ok(())
}

fn put_request(
    alloc: Global,
    text: &mut String,
    number: usize,
    request: &RequestReport,
) -> Result<(), AllocError>
    ensures { OnOk result
        (string_bytes text.new ≡ string_bytes text.old ++ request_json number request.now) }
{
    put_request_front(text, number)?;
    put_request_words(alloc, text, request)?;
    text.push_str(",\"told\":[")?;
    put_told(alloc, text, request.tokens.as_slice())?;
    text.push_str("]}\n")
}

#[tactic(auto, unfolding(crate::specs::Lines::request_front))]
fn put_request_front(text: &mut String, number: usize) -> Result<(), AllocError>
    ensures { OnOk result (string_bytes text.new ≡ string_bytes text.old ++ request_front number) }
{
    write!(text, "{{\"request\":{number},\"outcome\":")
}

fn put_told(alloc: Global, text: &mut String, tokens: &[Token]) -> Result<(), AllocError>
    ensures { OnOk result
        (string_bytes text.new ≡ string_bytes text.old ++ tokens_text tokens.now) }
{
    for (index, token) in tokens.iter().enumerate() {
        put_comma(text, index)?;
        put_token(alloc, text, token)?;
    }
    Ok(())
}
