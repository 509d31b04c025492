//! Schedule files.
ghost use Rattle.std.specs.Prelude.{◌≡◌, Some, None, List, ℕ, true, IfOk, IsErrOf, option_map};
ghost use Rattle.serde_json.specs.View.{view, items_view};
ghost use Rattle.tds_text.specs.Files.{Spells, IsWrongAt, IsNoJson};
ghost use Rattle.tds_text.specs.Schedule.{IsSchedule, has_keys, version_of, values_of};
ghost use Rattle.tds_text.specs.Schedule.{setup_of, on_attention_of};
ghost use Rattle.tds_text.specs.Schedule.{outer_of, events_of, wrong_event, wrong_place};

mod event;
mod fault;
mod fields;
mod laws;
mod version;
mod word;

use event::read_event;
pub use fault::ScheduleFault;
pub use laws::right_or_wrong_somewhere;
use serde_json::Value;
use std::alloc::Global;
use tds_session::OnAttention;
use tds_world::{Event, Setup};
use version::Version;

/// Reads a schedule file of version 1 to 4: a JSON object with the keys `version`, `packet_size`,
/// `max` and `events`, each event an array. Version 2 has the arrays of version 1, and those of a
/// commit and a rollback that begin the next transaction. Version 3 has the further key
/// `rollback_on_attention`, which is true or false; before it the transaction is kept. Version 4 has
/// the further array of a cleaning. Where the bytes are JSON and memory is there, they are a
/// schedule, or the fault tells the first wrong place: 0 outside the events, which are looked at
/// after it, in order, from 1.
pub fn read_schedule(alloc: Global, bytes: &[u8]) -> Result<(Setup, Vec<Event>), ScheduleFault>
    ensures ok { IfOk result (λ found. Spells bytes.now found.0 found.1.items) }
    ensures wrong { (place : ℕ) → IsErrOf result (ScheduleFault.Wrong place)
        → IsWrongAt bytes.now place }
    ensures json { IsErrOf result ScheduleFault.Json → IsNoJson bytes.now }
{
    let value = match Value::from_slice(alloc, bytes) {
        Ok(value) => value,
        Err(error) if error.is_memory() => return Err(ScheduleFault::Memory),
        Err(_) => return Err(ScheduleFault::Json),
    };
    read_value(alloc, &value)
}

fn read_value(alloc: Global, value: &Value) -> Result<(Setup, Vec<Event>), ScheduleFault>
    ensures ok { IfOk result (λ found. IsSchedule (view value.now) found.0 found.1.items) }
    ensures wrong { (place : ℕ) → IsErrOf result (ScheduleFault.Wrong place)
        → wrong_place (view value.now) ≡ Some place }
    ensures json { ¬ IsErrOf result ScheduleFault.Json }
{
    match read_outer(value) {
        None => Err(ScheduleFault::Wrong { place: 0 }),
        Some((version, (setup, values))) => {
            read_events(alloc, version, values).map(|events| (setup, events))
        }
    }
}

fn read_outer(value: &Value) -> Option<(Version, (Setup, &[Value]))>
    ensures { option_map (λ found. (found.0, (found.1.0, items_view found.1.1.now))) result
        ≡ outer_of (view value.now) }
{
    let version = read_version(value)?;
    Some((version, (read_setup(version, value)?, read_values(value)?)))
}

fn read_version(value: &Value) -> Option<Version>
    ensures { result ≡ version_of (view value.now) }
{
    let number = value.get("version").and_then(Value::as_u64)?;
    let version = Version::new(number)?;
    if !has_so_many(version.keys(), value) {
        return None;
    }
    Some(version)
}

fn has_so_many(count: usize, value: &Value) -> bool
    ensures { result ≡ has_keys count (view value.now) }
{
    match value.as_object() {
        None => false,
        Some(members) => members.len() == count,
    }
}

fn read_setup(version: Version, value: &Value) -> Option<Setup>
    ensures { result ≡ setup_of version (view value.now) }
{
    let packet_size = value.get("packet_size").and_then(Value::as_u64)?;
    let max = value.get("max").and_then(Value::as_u64)?;
    Some(Setup {
        packet_size: u16::try_from(packet_size).ok()?,
        max: u8::try_from(max).ok()?,
        on_attention: read_on_attention(version, value)?,
    })
}

fn read_on_attention(version: Version, value: &Value) -> Option<OnAttention>
    ensures { result ≡ on_attention_of version (view value.now) }
{
    match version {
        Version::One | Version::Two => Some(OnAttention::Keep),
        Version::Three | Version::Four => match value.get("rollback_on_attention")?.as_bool()? {
            true => Some(OnAttention::RollBack),
            false => Some(OnAttention::Keep),
        },
    }
}

fn read_values(value: &Value) -> Option<&[Value]>
    ensures { option_map (λ values. items_view values.now) result ≡ values_of (view value.now) }
{
    Some(value.get("events")?.as_array()?.as_slice())
}

fn read_events(
    alloc: Global,
    version: Version,
    values: &[Value],
) -> Result<Vec<Event>, ScheduleFault>
    ensures ok { IfOk result (λ events. events_of version (items_view values.now)
        ≡ Some events.items) }
    ensures wrong { (place : ℕ) → IsErrOf result (ScheduleFault.Wrong place)
        → wrong_event version 1 (items_view values.now) ≡ Some place }
    ensures json { ¬ IsErrOf result ScheduleFault.Json }
{
    let mut events = Vec::new(alloc);
    for (index, value) in values.iter().enumerate() {
        match read_event(alloc, version, value)? {
            Some(event) => events.push(event)?,
            None => return Err(ScheduleFault::Wrong { place: index + 1 }),
        }
    }
    Ok(events)
}
