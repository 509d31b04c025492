ghost use Rattle.std.specs.Prelude.{◌≡◌, IfOk, Some, option_map};
ghost use Rattle.serde_json.specs.View.{view, items_view};
ghost use Rattle.tds_text.specs.Fields.{alone as alone_of, one_field, pair_of, two_fields};
ghost use Rattle.tds_text.specs.Fields.{number_below, number_of, isolation_of, units_of, such};
ghost use Rattle.tds_text.specs.Fields.{is_batch, batch_of, ended_lease as ended_lease_of};
ghost use Rattle.tds_text.specs.Fields.{cleaned_one as cleaned_one_of};

use crate::schedule::version::Version;
use serde_json::Value;
use std::alloc::{AllocError, Global};
use tds_request::{BatchText, Isolation};
use tds_world::Event;

/// The event, if no field stands behind its word.
pub(crate) fn alone(event: Event, fields: &[Value]) -> Option<Event>
    ensures { result ≡ alone_of event (items_view fields.now) }
{
    match fields {
        [] => Some(event),
        _ => None,
    }
}

/// The only field, a number.
pub(crate) fn one_number(fields: &[Value]) -> Option<u32>
    ensures { result ≡ one_field number_of (items_view fields.now) }
{
    match fields {
        [number] => read_number(number),
        _ => None,
    }
}

/// The two fields, both numbers.
pub(crate) fn two_numbers(fields: &[Value]) -> Option<(u32, u32)>
    ensures { result ≡ two_fields number_of number_of (items_view fields.now) }
{
    let (first, second) = pair(fields)?;
    Some((read_number(first)?, read_number(second)?))
}

/// The two fields, a number and an isolation level.
pub(crate) fn number_and_isolation(fields: &[Value]) -> Option<(u32, Isolation)>
    ensures { result ≡ two_fields number_of isolation_of (items_view fields.now) }
{
    let (number, isolation) = pair(fields)?;
    Some((read_number(number)?, read_isolation(isolation)?))
}

/// A lease whose transaction ends and, where the version has it, the isolation level of the one that
/// begins at once.
pub(crate) fn ended_lease(version: Version, fields: &[Value]) -> Option<(u32, Option<Isolation>)>
    ensures { result ≡ ended_lease_of version (items_view fields.now) }
{
    if let Some(lease) = one_number(fields) {
        return Some((lease, None));
    }
    if !version.begins_anew() {
        return None;
    }
    let (lease, isolation) = number_and_isolation(fields)?;
    Some((lease, Some(isolation)))
}

/// The connection that is cleaned, where the version has that.
pub(crate) fn cleaned_one(version: Version, fields: &[Value]) -> Option<u32>
    ensures { result ≡ cleaned_one_of version (items_view fields.now) }
{
    if !version.cleans() {
        return None;
    }
    one_number(fields)
}

/// The two fields, a number and a batch's text.
pub(crate) fn number_and_text(
    alloc: Global,
    fields: &[Value],
) -> Result<Option<(u32, BatchText)>, AllocError>
    ensures { IfOk result (λ found. found ≡ two_fields number_of batch_of (items_view fields.now)) }
{
    let Some((number, text)) = pair(fields) else {
        return Ok(None);
    };
    let Some(number) = read_number(number) else {
        return Ok(None);
    };
    let text = read_text(alloc, text)?;
    Ok(text.map(|text| (number, text)))
}

/// The two fields, as they stand.
fn pair(fields: &[Value]) -> Option<(&Value, &Value)>
    ensures { option_map (λ p. (view p.0.now, view p.1.now)) result
        ≡ pair_of (items_view fields.now) }
{
    if fields.len() != 2 {
        return None;
    }
    Some((&fields[0], &fields[1]))
}

fn read_number(value: &Value) -> Option<u32>
    ensures { result ≡ number_of (view value.now) }
{
    u32::try_from(value.as_u64()?).ok()
}

fn read_isolation(value: &Value) -> Option<Isolation>
    ensures { result ≡ isolation_of (view value.now) }
{
    Isolation::new(u8::try_from(value.as_u64()?).ok()?)
}

fn read_text(alloc: Global, value: &Value) -> Result<Option<BatchText>, AllocError>
    ensures { IfOk result (λ text. text ≡ batch_of (view value.now)) }
{
    let Some(text) = value.as_str() else {
        return Ok(None);
    };
    let units = units_in(alloc, text)?;
    Ok(batch_text(units))
}

fn batch_text(units: Vec<u16>) -> Option<BatchText>
    ensures { result ≡ such is_batch (Some units.items) }
{
    BatchText::new(units)
}

fn units_in(alloc: Global, text: &str) -> Result<Vec<u16>, AllocError>
    ensures { IfOk result (λ units. units.items ≡ units_of text.now) }
{
    let mut units = Vec::new(alloc);
    for unit in text.encode_utf16() {
        units.push(unit)?;
    }
    Ok(units)
}
