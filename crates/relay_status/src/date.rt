//! The time in front of a line.

use std::io::{self, Write};

/// Appends a time in milliseconds since 1970, in UTC, as `2026-11-27T22:40:05.123Z`.
pub fn put_time(out: &mut Vec<u8>, time: u64) -> io::Result<()> {
    let (seconds, millis) = (time / 1000, time % 1000);
    put_date(out, seconds / 86_400)?;
    let (hour, minute, second) = (seconds / 3600 % 24, seconds / 60 % 60, seconds % 60);
    write!(out, "T{hour:02}:{minute:02}:{second:02}")?;
    write!(out, ".{millis:03}Z")
}

/// Appends the date of a day, counted from the first one of 1970. Years are counted from March, so that the
/// day that some have more is the last one.
fn put_date(out: &mut Vec<u8>, day: u64) -> io::Result<()> {
    // The day, counted from 1 March of the year 0. 400 years have 146,097 days.
    let day = day.saturating_add(719_468);
    let (era, place) = (day / 146_097, day % 146_097);
    let leaps = (place / 36_524).saturating_sub(place / 146_096);
    let of_year = place.saturating_sub(place / 1460).saturating_add(leaps) / 365;
    let before = (of_year * 365 + of_year / 4).saturating_sub(of_year / 100);
    // Five months from March on have 153 days, and so have those from August on.
    let rest = place.saturating_sub(before) * 5 + 2;
    let (month, in_month) = (rest / 153, rest % 153 / 5 + 1);
    let is_next = u64::from(month >= 10);
    let year = (era * 400).saturating_add(of_year).saturating_add(is_next);
    let month = (month + 3).saturating_sub(12 * is_next);
    write!(out, "{year:04}-{month:02}-{in_month:02}")
}
