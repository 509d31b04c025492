//! Days and times of day.

use crate::text::{number_in, units_in};
use std::alloc::{AllocError, Global};

/// How many days lie between 1 January of the year 1 and those of 1900 and 1970.
const DAYS_TO_1900: u32 = 693_595;

const DAYS_TO_1970: u32 = 719_162;

/// How many days 400 years have, and how many of the first year's stand before its March.
const FOUR_CENTURIES: u32 = 146_097;

const BEFORE_MARCH: u32 = 306;

/// How many parts of 100 ns a second and a day have.
const SECOND: u64 = 10_000_000;

const DAY: u64 = 864_000_000_000;

/// A time of a day.
#[derive(Clone, Copy, Debug)]
pub struct Moment {
    /// How many days lie between 1 January of the year 1 and its own.
    pub day: u32,
    /// How many parts of 100 ns of the day have passed.
    pub time: u64,
}

/// A year, a month from 1, a day from 1.
#[derive(Clone, Copy, Debug)]
struct Date {
    year: u32,
    month: u32,
    day: u32,
}

impl Moment {
    /// So many milliseconds behind the beginning of 1970.
    pub fn since_1970(milliseconds: u64) -> Moment {
        let day = milliseconds / 86_400_000;
        Moment {
            day: DAYS_TO_1970.saturating_add(u32::try_from(day).unwrap_or(0)),
            time: milliseconds % 86_400_000 * 10_000,
        }
    }

    /// The moment of a text, as `2026-11-27` or `2026-11-27 16:05:00.5`.
    pub(crate) fn of_text(text: &[u16]) -> Option<Moment> {
        let day = day_in(text.get(..10)?)?;
        let time = match text.get(10..)? {
            [] => 0,
            // a blank, or T
            [32 | 84, time @ ..] => time_in(time)?,
            _ => return None,
        };
        Some(Moment { day, time })
    }

    /// Its text, to the millisecond.
    pub(crate) fn text(self, alloc: Global) -> Result<Vec<u16>, AllocError> {
        let date = Date::of(self.day);
        let time = self.time / 10_000;
        let mut text = String::new(alloc);
        put_digits(alloc, &mut text, u64::from(date.year), 4, '-')?;
        put_digits(alloc, &mut text, u64::from(date.month), 2, '-')?;
        put_digits(alloc, &mut text, u64::from(date.day), 2, ' ')?;
        put_digits(alloc, &mut text, time / 3_600_000, 2, ':')?;
        put_digits(alloc, &mut text, time / 60_000 % 60, 2, ':')?;
        put_digits(alloc, &mut text, time / 1000 % 60, 2, '.')?;
        put_digits(alloc, &mut text, time % 1000, 3, ' ')?;
        text.pop();
        units_in(alloc, text.as_bytes())
    }

    /// How many days it is behind 1900, none where it is before.
    pub(crate) fn days_since_1900(self) -> Option<u32> {
        self.day.checked_sub(DAYS_TO_1900)
    }

    /// How many parts of 1/300 second of the day have passed.
    pub(crate) fn ticks(self) -> u32 {
        let ticks = self.time % DAY * 3 / 100_000;
        u32::try_from(ticks).unwrap_or(0)
    }
}

/// Appends a number of at least so many digits, and a character.
fn put_digits(
    alloc: Global,
    text: &mut String,
    number: u64,
    width: usize,
    end: char,
) -> Result<(), AllocError> {
    let digits = format!(in alloc; "{number:0>width$}")?;
    text.push_str(digits.as_str())?;
    text.push(end)
}

impl Date {
    /// The date so many days behind 1 January of the year 1. A year begins with March here, so that a day more
    /// is at its end.
    fn of(day: u32) -> Date {
        let day = day.saturating_add(BEFORE_MARCH);
        let within = day % FOUR_CENTURIES;
        let leaps = (within / 36_524).saturating_sub(within / 146_096);
        let year = within.saturating_sub(within / 1460).saturating_add(leaps) / 365;
        let passed = within.saturating_sub(days_before(year));
        let month = (5 * (passed % 366) + 2) / 153;
        let of_month = (passed % 366).saturating_sub((153 * month + 2) / 5);
        let (month, more) = if month >= 10 {
            (month.saturating_sub(9), 1)
        } else {
            (month + 3, 0)
        };
        let centuries = day / FOUR_CENTURIES;
        Date {
            year: year.saturating_add(centuries * 400).saturating_add(more),
            month,
            day: of_month.saturating_add(1),
        }
    }

    /// How many days it is behind 1 January of the year 1; none where there is no such day.
    fn number(self) -> Option<u32> {
        let is_late = self.month > 2;
        let month = if is_late {
            self.month.checked_sub(3)?
        } else {
            self.month.checked_add(9)?
        };
        if month > 11 || self.year == 0 || self.year > 9999 || self.day == 0 || self.day > 31 {
            return None;
        }
        let year = self.year.saturating_sub(u32::from(!is_late));
        let of_year = (153 * month + 2) / 5 + self.day;
        let centuries = (year / 400).checked_mul(FOUR_CENTURIES)?;
        let number = centuries
            .checked_add(days_before(year % 400))?
            .checked_add(of_year)?;
        let number = number.checked_sub(BEFORE_MARCH + 1)?;
        let again = Date::of(number);
        if again.month == self.month && again.day == self.day {
            Some(number)
        } else {
            None
        }
    }
}

/// How many days so many years have, of the first 400.
fn days_before(year: u32) -> u32 {
    let year = year % 401;
    (year * 365 + year / 4).saturating_sub(year / 100)
}

/// The day of a text, as `2026-11-27`.
fn day_in(text: &[u16]) -> Option<u32> {
    if !matches!(text, [_, _, _, _, 45, _, _, 45, _, _]) {
        return None;
    }
    let year = number_in(text.get(..4)?)?;
    let month = number_in(text.get(5..7)?)?;
    let day = number_in(text.get(8..)?)?;
    Date { year, month, day }.number()
}

/// The time of a text, as `16:05:00` or `16:05:00.5`.
fn time_in(text: &[u16]) -> Option<u64> {
    let [_, _, 58, _, _, 58, _, _, fraction @ ..] = text else {
        return None;
    };
    let hours = number_in(text.get(..2)?)?;
    let minutes = number_in(text.get(3..5)?)?;
    let seconds = number_in(text.get(6..8)?)?;
    if hours > 23 || minutes > 59 || seconds > 59 {
        return None;
    }
    let seconds = hours * 3600 + minutes * 60 + seconds;
    let parts = match fraction {
        [] => 0,
        [46, digits @ ..] => fraction_in(digits)?,
        _ => return None,
    };
    Some((u64::from(seconds) * SECOND).saturating_add(parts))
}

/// The parts of 100 ns that one to seven digits behind a point spell.
fn fraction_in(digits: &[u16]) -> Option<u64> {
    if digits.len() > 7 {
        return None;
    }
    let mut parts = u64::from(number_in(digits)?);
    for _ in digits.len()..7 {
        parts = parts.checked_mul(10)?;
    }
    Some(parts)
}
