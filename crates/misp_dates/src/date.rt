//! The days after the beginning of 1970, and the date of a moment.

ghost use Rattle.std.specs.Prelude.{◌≡◌, ◌≤◌, ◌<◌, ◌/◌, ℕ, pos, true, IfOk};
ghost use Rattle.std.specs.String.{string_bytes};
ghost use Rattle.jiff.specs.Words.{epoch_day};
ghost use Rattle.misp_dates.specs.Dates.{is_date, nth_day, last_day, last_second, date_of};

use crate::day::Day;
use jiff::ToSpan;
use jiff::civil::{Date, date};
use std::alloc::{AllocError, Global};

/// The day so many days after the first of 1970.
fn day_at(days: u64) -> Date
    requires { days ≤ last_day }
    ensures { epoch_day result ≡ pos days }
{
    match date(1970, 1, 1).checked_add((days as i64).days()) {
        Ok(day) => day,
        Err(_) => unreachable!(),
    }
}

/// The same, in its parts.
pub(crate) fn nth_day(days: u64) -> Day
    requires { days ≤ last_day }
    ensures value { result ≡ nth_day days }
    ensures small { (result.year < 10000) × (result.month < 100) × (result.day < 100) }
{
    let date = day_at(days);
    Day {
        year: date.year() as u16,
        month: date.month() as u8,
        day: date.day() as u8,
    }
}

/// The date in UTC, as `YYYY-MM-DD`, so many seconds after the beginning of 1970.
pub fn date_of(alloc: Global, seconds: u64) -> Result<String, AllocError>
    requires { seconds ≤ last_second }
    ensures date { IfOk result (λ date. string_bytes date ≡ date_of seconds) }
{
    let day = day_at(seconds / 86400);
    Ok(format!(in alloc; "{day}")?)
}

/// The date of each moment is a date of the calendar.
pub fn the_date_of_a_moment_is_a_date()
    ensures is_date { (now : ℕ) → now ≤ last_second → is_date (date_of now) ≡ true }
{}
