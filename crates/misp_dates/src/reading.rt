//! The moments that texts name.

ghost use Rattle.std.specs.Prelude.{◌≡◌, ◌<◌, ◌≤◌, ℕ, IfSome, Some, length, not, position};
ghost use Rattle.std.specs.Char.{is_ascii_digit};
ghost use Rattle.misp_dates.specs.Moments.{IsNear, IsRest, after_point, after_seconds, local_in, moment_at, read_moment, moment_text};

use crate::clock::{Zone, clock_in, fraction_in, zone_in};
use crate::form::day_in;
use crate::moment::{LAST_MICROSECOND, Moment};

/// The seconds from the beginning of the year 0 to that of 1970.
const SECONDS_TO_1970: u64 = 62_167_219_200;

fn first_no_digit(text: &[u8]) -> Option<usize>
    ensures value { result ≡ position (λ byte. not (is_ascii_digit byte)) text.now }
    ensures inside { IfSome result (λ place. place < length text.now) }
{
    text.iter().position(|byte| !byte.is_ascii_digit())
}

/// The microseconds of a fraction, and the zone after it.
#[tactic(auto, unfolding(crate::specs::Moments::after_point))]
fn after_point(text: &[u8]) -> Option<(u32, Zone)>
    ensures value { result ≡ after_point text.now }
    ensures small { IfSome result IsRest }
{
    let place = first_no_digit(text)?;
    let (digits, zone) = text.split_at(place);
    let microseconds = fraction_in(digits)?;
    let zone = zone_in(zone)?;
    Some((microseconds, zone))
}

/// The microseconds after the second, and the zone.
#[tactic(auto, unfolding(crate::specs::Moments::after_seconds))]
fn after_seconds(text: &[u8]) -> Option<(u32, Zone)>
    ensures value { result ≡ after_seconds text.now }
    ensures small { IfSome result IsRest }
{
    match text {
        [] => None,
        [b'.', rest @ ..] => after_point(rest),
        [_, ..] => {
            let zone = zone_in(text)?;
            Some((0, zone))
        }
    }
}

/// The seconds from the beginning of the year 0 to `YYYY-MM-DDThh:mm:ss`.
#[tactic(auto, unfolding(crate::specs::Moments::local_in))]
fn local_in(text: &[u8]) -> Option<u64>
    requires { length text.now ≡ 19 }
    ensures value { result ≡ local_in text.now }
    ensures small { IfSome result (λ seconds. seconds < 400000000000) }
{
    let day = day_in(&text[..10])?;
    let clock = clock_in(&text[11..])?;
    if text[10] == b'T' && day.is_there() {
        Some(86_400 * u64::from(day.number()) + u64::from(clock))
    } else {
        None
    }
}

/// The moment at which clocks of the zone show this time.
#[tactic(auto, unfolding(crate::specs::Moments::moment_at))]
fn moment_at(local: u64, microseconds: u32, zone: Zone) -> Option<Moment>
    requires local { local < 400000000000 }
    requires microseconds { microseconds < 1000000 }
    requires zone { IsNear zone }
    ensures { result ≡ moment_at local microseconds zone }
{
    let seconds = (local + u64::from(zone.behind)).checked_sub(
        SECONDS_TO_1970 + u64::from(zone.ahead),
    )?;
    Moment::new(1_000_000 * seconds + u64::from(microseconds))
}

impl Moment {
    /// The moment that a text names: `YYYY-MM-DDThh:mm:ss`, a fraction of 1 to 6 digits after a
    /// point or none, and then `Z`, or a sign and the `hh:mm` by which the clock is ahead of UTC or
    /// behind it. It is from 1970 to the end of 9999 in UTC.
    #[tactic(auto, unfolding(crate::specs::Moments::read_moment))]
    pub fn read(text: &[u8]) -> Option<Moment>
        ensures { result ≡ read_moment text.now }
    {
        if text.len() < 19 {
            return None;
        }
        let (local, rest) = text.split_at(19);
        let local = local_in(local)?;
        let (microseconds, zone) = after_seconds(rest)?;
        moment_at(local, microseconds, zone)
    }
}

/// The text of each moment names that moment.
pub fn the_text_of_a_moment_reads_back()
    ensures read_back { (n : ℕ) → n ≤ LAST_MICROSECOND → read_moment (moment_text n) ≡ Some n }
{}
