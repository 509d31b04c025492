//! Events and states in words.

use std::alloc::{AllocError, Global};
use std::fmt::Write;
use tds_packet::Reset;
use tds_play::{ClientView, Event, Refusal, Setup, Snapshot};
use tds_request::{Isolation, Request};
use tds_session::{OnAttention, Session};
use tds_text::put_units;

/// An event as it stands in its file, without quotes, and a batch without its text.
pub(crate) fn event_text(alloc: Global, event: &Event) -> Result<String, AllocError> {
    let word = event_word(event);
    match numbers_of(event) {
        (None, _) => String::from_str(alloc, word),
        (Some(first), None) => format!(in alloc; "{word} {first}"),
        (Some(first), Some(second)) => format!(in alloc; "{word} {first} {second}"),
    }
}

fn event_word(event: &Event) -> &'static str {
    match event {
        Event::Lease => "lease",
        Event::Resume(_) => "resume",
        Event::GiveBack(_) => "give_back",
        Event::Keep(_) => "keep",
        Event::Abandon(_) => "abandon",
        Event::Clean(_) => "clean",
        Event::Ask(_, request) => request_word(request),
        Event::Send(_) => "send",
        Event::Cancel(_) => "cancel",
        Event::Work(_) => "work",
        Event::ToServer(_, _) => "to_server",
        Event::ToClient(_, _) => "to_client",
        Event::Cut(_) => "cut",
        Event::RestartServer => "restart_server",
        Event::RestartClient => "restart_client",
    }
}

/// The numbers behind an event's word.
fn numbers_of(event: &Event) -> (Option<u32>, Option<u32>) {
    match event {
        Event::Lease | Event::RestartServer | Event::RestartClient => (None, None),
        Event::Resume(number)
        | Event::GiveBack(number)
        | Event::Keep(number)
        | Event::Abandon(number)
        | Event::Clean(number)
        | Event::Send(number)
        | Event::Cancel(number)
        | Event::Work(number)
        | Event::Cut(number) => (Some(*number), None),
        Event::Ask(lease, request) => (Some(*lease), level_of(request)),
        Event::ToServer(conn, count) | Event::ToClient(conn, count) => (Some(*conn), Some(*count)),
    }
}

/// The isolation level that a request names.
fn level_of(request: &Request) -> Option<u32> {
    match request {
        Request::Begin(level) | Request::Commit(Some(level)) | Request::Rollback(Some(level)) =>
            Some(u32::from(level.get())),
        Request::Batch(_) | Request::Commit(None) | Request::Rollback(None) => None,
    }
}

pub(crate) fn request_word(request: &Request) -> &'static str {
    match request {
        Request::Batch(_) => "batch",
        Request::Begin(_) => "begin",
        Request::Commit(_) => "commit",
        Request::Rollback(_) => "rollback",
    }
}

/// What is asked for.
pub(crate) fn request_text(alloc: Global, request: &Request) -> Result<String, AllocError> {
    let mut text = String::new(alloc);
    put_request(&mut text, request)?;
    Ok(text)
}

fn put_request(text: &mut String, request: &Request) -> Result<(), AllocError> {
    match request {
        Request::Batch(batch) => put_units(text, batch.units()),
        Request::Begin(level) => {
            text.push_str("begin")?;
            put_isolation(text, *level)
        }
        Request::Commit(anew) => put_ending(text, "commit", *anew),
        Request::Rollback(anew) => put_ending(text, "rollback", *anew),
    }
}

fn put_ending(text: &mut String, word: &str, anew: Option<Isolation>) -> Result<(), AllocError> {
    text.push_str(word)?;
    let Some(level) = anew else {
        return Ok(());
    };
    text.push_str(", begin anew")?;
    put_isolation(text, level)
}

fn put_isolation(text: &mut String, level: Isolation) -> Result<(), AllocError> {
    match level.get() {
        0 => Ok(()),
        level => write!(text, " isolation {level}"),
    }
}

pub(crate) fn refusal_text(why: Refusal) -> &'static str {
    match why {
        Refusal::UnknownLease => "refused 1: no lease",
        Refusal::UnknownTicket => "refused 2: no ticket",
        Refusal::UnknownConnection => "refused 3: gone",
        Refusal::NotIdle => "refused 4: not idle",
        Refusal::NotSending => "refused 5: no packet",
        Refusal::NothingToKeep => "refused 6: no tx",
        Refusal::AllInUse => "refused 7: in use",
        Refusal::ConnectionCut => "refused 8: cut",
        Refusal::NotFree => "refused 9: not free",
    }
}

pub(crate) fn mark_text(mark: Reset) -> &'static str {
    match mark {
        Reset::Full => "RESET due",
        Reset::KeepTransaction => "SKIPTRAN due",
    }
}

/// `tx 1`, or `no tx`.
pub(crate) fn put_descriptor(text: &mut String, descriptor: u64) -> Result<(), AllocError> {
    match descriptor {
        0 => text.push_str("no tx"),
        _ => write!(text, "tx {descriptor}"),
    }
}

/// A client's state.
pub(crate) fn client_text(alloc: Global, shown: &Snapshot) -> Result<String, AllocError> {
    let mut text = String::from_str(
        alloc,
        match shown.client {
            ClientView::Idle => "idle, ",
            ClientView::Sending => "sending, ",
            ClientView::Reading => "reading, ",
            ClientView::Cancelling => "cancelling, ",
        },
    )?;
    put_descriptor(&mut text, shown.descriptor)?;
    if let Some(mark) = shown.mark {
        text.push_str(", ")?;
        text.push_str(mark_text(mark))?;
    }
    Ok(text)
}

/// A server's session, and whether it has lost its settings since another one.
pub(crate) fn session_text(
    alloc: Global,
    session: &Session,
    before: Option<&Session>,
) -> Result<String, AllocError> {
    let mut text = String::new(alloc);
    put_descriptor(&mut text, session.descriptor())?;
    put_settings(&mut text, session)?;
    let had_settings = before.is_some_and(|before| has_settings(before));
    if had_settings && !has_settings(session) {
        text.push_str(", no settings")?;
    }
    Ok(text)
}

fn put_settings(text: &mut String, session: &Session) -> Result<(), AllocError> {
    let mut separator = ", ";
    for (index, setting) in session.settings().iter().enumerate() {
        if let Some(value) = setting {
            let key = char::from((index as u8).saturating_add(b'a').min(b'z'));
            write!(text, "{separator}{key}={value}")?;
            separator = ",";
        }
    }
    Ok(())
}

fn has_settings(session: &Session) -> bool {
    session.settings().iter().any(|setting| setting.is_some())
}

/// What the picture is of.
pub(crate) fn setup_text(alloc: Global, setup: Setup) -> Result<String, AllocError> {
    let Setup {
        packet_size,
        max,
        on_attention,
    } = setup;
    let many = match max {
        1 => "",
        _ => "s",
    };
    let rollback = match on_attention {
        OnAttention::Keep => "",
        OnAttention::RollBack => ", rollback on attention",
    };
    format!(in alloc; "packet size {packet_size}, at most {max} connection{many}{rollback}")
}
