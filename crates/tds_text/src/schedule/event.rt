ghost use Rattle.std.specs.Prelude.{◌≡◌, IfOk};
ghost use Rattle.serde_json.specs.View.{view, items_view};
ghost use Rattle.tds_text.specs.Events.{event_of, event_with};

use crate::schedule::fields::{
    alone, cleaned_one, ended_lease, number_and_isolation, number_and_text, one_number, two_numbers,
};
use crate::schedule::version::Version;
use crate::schedule::word::Word;
use serde_json::Value;
use std::alloc::{AllocError, Global};
use tds_request::Request;
use tds_world::Event;

/// The event that a value spells in a file of this version, if it spells one.
pub(crate) fn read_event(
    alloc: Global,
    version: Version,
    value: &Value,
) -> Result<Option<Event>, AllocError>
    ensures { IfOk result (λ event. event ≡ event_of version (view value.now)) }
{
    let Some(values) = value.as_array() else {
        return Ok(None);
    };
    let [first, fields @ ..] = values.as_slice() else {
        return Ok(None);
    };
    match first.as_str().and_then(Word::read) {
        None => Ok(None),
        Some(word) => event_behind(alloc, version, word, fields),
    }
}

fn event_behind(
    alloc: Global,
    version: Version,
    word: Word,
    fields: &[Value],
) -> Result<Option<Event>, AllocError>
    ensures { IfOk result (λ event. event ≡ event_with version word (items_view fields.now)) }
{
    match word {
        Word::Lease => Ok(alone(Event::Lease, fields)),
        Word::Resume => Ok(one_number(fields).map(Event::Resume)),
        Word::GiveBack => Ok(one_number(fields).map(Event::GiveBack)),
        Word::Keep => Ok(one_number(fields).map(Event::Keep)),
        Word::Abandon => Ok(one_number(fields).map(Event::Abandon)),
        Word::Clean => Ok(cleaned_one(version, fields).map(Event::Clean)),
        Word::Batch => Ok(number_and_text(alloc, fields)?.map(|(lease, text)| Event::Ask(
            lease,
            Request::Batch(text),
        ))),
        Word::Begin => Ok(number_and_isolation(fields).map(|(lease, isolation)| Event::Ask(
            lease,
            Request::Begin(isolation),
        ))),
        Word::Commit => Ok(ended_lease(version, fields).map(|(lease, next)| Event::Ask(
            lease,
            Request::Commit(next),
        ))),
        Word::Rollback => Ok(ended_lease(version, fields).map(|(lease, next)| Event::Ask(
            lease,
            Request::Rollback(next),
        ))),
        Word::Send => Ok(one_number(fields).map(Event::Send)),
        Word::Cancel => Ok(one_number(fields).map(Event::Cancel)),
        Word::Work => Ok(one_number(fields).map(Event::Work)),
        Word::ToServer => Ok(two_numbers(fields).map(|(conn, count)| Event::ToServer(conn, count))),
        Word::ToClient => Ok(two_numbers(fields).map(|(conn, count)| Event::ToClient(conn, count))),
        Word::Cut => Ok(one_number(fields).map(Event::Cut)),
        Word::RestartServer => Ok(alone(Event::RestartServer, fields)),
        Word::RestartClient => Ok(alone(Event::RestartClient, fields)),
    }
}
