//! Days.

ghost use Rattle.std.specs.Prelude.{◌≡◌, ◌<◌, true};
ghost use Rattle.misp_dates.specs.Dates.{is_day, is_leap_year};
ghost use Rattle.misp_dates.specs.Moments.{days_of_years, days_of_months, day_number};

use jiff::civil::Date;

/// A year from 0 on, a month from 1, and a day of the month from 1. The calendar need not have it.
#[derive(Clone, Copy)]
pub(crate) struct Day {
    pub year: u16,
    pub month: u8,
    pub day: u8,
}

/// The days before each month of a year that is no leap year.
const DAYS_BEFORE: [u16; 12] = [0, 31, 59, 90, 120, 151, 181, 212, 243, 273, 304, 334];

fn is_leap_year(year: u16) -> bool
    ensures { result ≡ is_leap_year year }
{
    year % 4 == 0 && (year % 100 != 0 || year % 400 == 0)
}

/// The days of the first so many years, from the year 0 on.
fn days_of_years(years: u16) -> u32
    requires { years < 10000 }
    ensures value { result ≡ days_of_years years }
    ensures small { result < 3660000 }
{
    let years = u32::from(years);
    365 * years + (years + 3) / 4 + (years + 399) / 400 - (years + 99) / 100
}

/// The days of the first so many months of a year.
fn days_of_months(year: u16, months: u8) -> u16
    requires { months < 12 }
    ensures value { result ≡ days_of_months year months }
    ensures small { result < 336 }
{
    let days = DAYS_BEFORE[months as usize];
    if months > 1 && is_leap_year(year) {
        days + 1
    } else {
        days
    }
}

impl Day {
    /// Whether the calendar has this day.
    pub fn is_there(self) -> bool
        requires years { self.year < 10000 }
        requires months { self.month < 100 }
        requires days { self.day < 100 }
        ensures { result ≡ is_day self }
    {
        Date::new(self.year as i16, self.month as i8, self.day as i8).is_ok()
    }

    /// How many days it is after the first of January of the year 0.
    pub fn number(self) -> u32
        requires years { self.year < 10000 }
        requires is_there { is_day self ≡ true }
        ensures value { result ≡ day_number self }
        ensures small { result < 4000000 }
    {
        let months = u32::from(days_of_months(self.year, self.month - 1));
        days_of_years(self.year) + months + u32::from(self.day - 1)
    }
}
