//! The texts of moments.

ghost use Rattle.std.specs.Prelude.{◌≡◌, ◌<◌, ◌+◌, ◌/◌, ◌%◌};
ghost use Rattle.misp_dates.specs.Dates.{date_text};
ghost use Rattle.misp_dates.specs.Moments.{clock_text, fraction_text, moment_text};

use crate::date::nth_day;
use crate::day::Day;
use crate::moment::Moment;

fn tens(n: u32) -> u8
    requires { n < 100 }
    ensures { result ≡ 48 + n / 10 }
{
    b'0' + (n / 10) as u8
}

fn ones(n: u32) -> u8
    requires { n < 100 }
    ensures { result ≡ 48 + n % 10 }
{
    b'0' + (n % 10) as u8
}

fn date_text(day: Day) -> [u8; 10]
    requires years { day.year < 10000 }
    requires months { day.month < 100 }
    requires days { day.day < 100 }
    ensures { result ≡ date_text day }
{
    let (century, year) = (u32::from(day.year / 100), u32::from(day.year % 100));
    let (m, d) = (u32::from(day.month), u32::from(day.day));
    [
        tens(century),
        ones(century),
        tens(year),
        ones(year),
        b'-',
        tens(m),
        ones(m),
        b'-',
        tens(d),
        ones(d),
    ]
}

fn clock_text(seconds: u32) -> [u8; 8]
    requires { seconds < 86400 }
    ensures { result ≡ clock_text seconds }
{
    let (hour, minute, second) = (seconds / 3600, seconds / 60 % 60, seconds % 60);
    [
        tens(hour),
        ones(hour),
        b':',
        tens(minute),
        ones(minute),
        b':',
        tens(second),
        ones(second),
    ]
}

fn fraction_text(microseconds: u32) -> [u8; 6]
    requires { microseconds < 1000000 }
    ensures { result ≡ fraction_text microseconds }
{
    let (a, b, c) = (
        microseconds / 10_000,
        microseconds / 100 % 100,
        microseconds % 100,
    );
    [tens(a), ones(a), tens(b), ones(b), tens(c), ones(c)]
}

impl Moment {
    /// The moment in UTC, as `YYYY-MM-DDThh:mm:ss.ffffff+00:00`.
    #[tactic(auto, unfolding(crate::specs::Moments::moment_text))]
    pub fn text(&self) -> [u8; 32]
        ensures { result ≡ moment_text self.now }
    {
        let seconds = self.get() / 1_000_000;
        let mut text = *b"0000-00-00T00:00:00.000000+00:00";
        text[..10].copy_from_slice(&date_text(nth_day(seconds / 86_400)));
        text[11..19].copy_from_slice(&clock_text((seconds % 86_400) as u32));
        text[20..26].copy_from_slice(&fraction_text((self.get() % 1_000_000) as u32));
        text
    }
}
