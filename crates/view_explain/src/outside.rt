//! What stands outside of the events.

use json_places::{
    Key, Outline, Page, Takes, put_doubled, put_misfit, put_place, put_standing, put_unknown_keys,
    value_at,
};
use std::alloc::{AllocError, Global};
use std::fmt::Write;
use tds_play::Setup;

/// The key that a schedule has from version 3 on.
const LATE_KEY: &str = "rollback_on_attention";

/// The keys of a schedule.
const KEYS: [Key; 5] = [
    Key {
        name: "version",
        takes: Takes::Whole { least: 1, most: 4 },
        wanted: "a number, 1 to 4",
    },
    Key {
        name: "packet_size",
        takes: Takes::Whole {
            least: 0,
            most: 65_535,
        },
        wanted: "a whole number, 512 to 32767",
    },
    Key {
        name: "max",
        takes: Takes::Whole {
            least: 0,
            most: 255,
        },
        wanted: "a whole number, 1 to 64",
    },
    Key {
        name: LATE_KEY,
        takes: Takes::Choice,
        wanted: "true or false",
    },
    Key {
        name: "events",
        takes: Takes::Array { most: usize::MAX },
        wanted: "an array of events",
    },
];

/// Appends a line for each thing that is wrong outside of the events.
pub(crate) fn put_outside_faults(
    alloc: Global,
    text: &mut String,
    page: Page<'_>,
    outline: &Outline,
) -> Result<(), AllocError> {
    if page.bytes.get(outline.start) != Some(&b'{') {
        put_place(text, page, outline.start)?;
        text.push_str(
            "a schedule is an object with the keys version, packet_size, max and events; ",
        )?;
        let value = value_at(alloc, page.bytes, outline.start)?;
        return put_standing(alloc, text, &value);
    }
    let version = version_of(alloc, page.bytes, outline)?;
    for key in &KEYS {
        put_key_fault(alloc, text, page, outline, key, version)?;
    }
    put_early(text, page, outline, version)?;
    let members = outline.members.as_slice();
    put_unknown_keys(
        text,
        page,
        members,
        &KEYS,
        "version, packet_size, max, rollback_on_attention and events",
    )?;
    put_doubled(text, page, members)
}

/// The version that a file says, if it says one.
pub(crate) fn version_of(
    alloc: Global,
    bytes: &[u8],
    outline: &Outline,
) -> Result<Option<u64>, AllocError> {
    match outline.value_at("version") {
        Some(at) => Ok(value_at(alloc, bytes, at)?.as_u64()),
        None => Ok(None),
    }
}

/// Appends a line where a key is missing, or has a value that no schedule has there.
fn put_key_fault(
    alloc: Global,
    text: &mut String,
    page: Page<'_>,
    outline: &Outline,
    key: &Key,
    version: Option<u64>,
) -> Result<(), AllocError> {
    let Some(at) = outline.value_at(key.name) else {
        return put_missing(text, page, outline.start, key.name, version);
    };
    // An array of events is read where they are, one by one.
    if key.name == "events" && page.bytes.get(at) == Some(&b'[') {
        return Ok(());
    }
    let value = value_at(alloc, page.bytes, at)?;
    put_misfit(text, page, at, key, &value)
}

/// Appends a line where a schedule of this version wants a key that is missing.
fn put_missing(
    text: &mut String,
    page: Page<'_>,
    start: usize,
    key: &str,
    version: Option<u64>,
) -> Result<(), AllocError> {
    if key == LATE_KEY && !matches!(version, Some(3 | 4)) {
        return Ok(());
    }
    put_place(text, page, start)?;
    writeln!(text, "the key \"{key}\" is missing")
}

/// Appends a line where a schedule of this version doesn't have the late key yet.
fn put_early(
    text: &mut String,
    page: Page<'_>,
    outline: &Outline,
    version: Option<u64>,
) -> Result<(), AllocError> {
    if !matches!(version, Some(1 | 2)) {
        return Ok(());
    }
    for member in outline.members.iter() {
        if member.key.as_str() == LATE_KEY {
            put_place(text, page, member.key_at)?;
            return writeln!(text, "the key \"{LATE_KEY}\" stands from version 3 on");
        }
    }
    Ok(())
}

/// Appends a line for each limit of a play that a schedule doesn't keep.
pub(crate) fn put_limits(
    text: &mut String,
    page: Page<'_>,
    outline: &Outline,
    setup: Setup,
    events: usize,
) -> Result<(), AllocError> {
    let Setup {
        packet_size,
        max,
        ..
    } = setup;
    if !(512..=32_767).contains(&packet_size) {
        let at = outline.value_at("packet_size").unwrap_or(0);
        put_limit(text, page, at, "packet_size", "512 to 32767", packet_size)?;
    }
    if !(1..=64).contains(&max) {
        let at = outline.value_at("max").unwrap_or(0);
        put_limit(text, page, at, "max", "1 to 64", u16::from(max))?;
    }
    if events > 10_000 {
        put_place(text, page, outline.event_at(10_000))?;
        writeln!(text, "there are {events} events; a play takes 10000")?;
    }
    Ok(())
}

/// Appends what the number of a key is, and what stands there.
fn put_limit(
    text: &mut String,
    page: Page<'_>,
    at: usize,
    key: &str,
    limits: &str,
    number: u16,
) -> Result<(), AllocError> {
    put_place(text, page, at)?;
    writeln!(text, "\"{key}\" is {limits}; here stands {number}")
}
