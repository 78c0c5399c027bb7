//! Dates, moments and colours.

ghost use Rattle.std.specs.Prelude.{◌≡◌};
ghost use Rattle.serde_json.specs.View.{view};
ghost use Rattle.misp_fields.specs.Fields.{Shown, date_text_of, moment_of, colour_in, colour_of};

use crate::need::Need;
use hex::FromHex;
use misp_dates::{Moment, is_date};
use serde_json::Value;

/// A date of the calendar, `YYYY-MM-DD`.
pub fn date<'a>(value: &'a Value) -> Result<&'a str, Need>
    ensures { Shown (λ t. t.now) result (date_text_of (view value.now)) }
{
    match value {
        Value::String(text) if is_date(text.as_bytes()) => Ok(text.as_str()),
        _ => Err(Need::Date),
    }
}

/// A moment as `Moment::read` takes it, or none where the text is empty.
pub fn moment(value: &Value) -> Result<Option<Moment>, Need>
    ensures { result ≡ moment_of (view value.now) }
{
    match value {
        Value::String(text) if text.is_empty() => Ok(None),
        Value::String(text) => match Moment::read(text.as_bytes()) {
            Some(moment) => Ok(Some(moment)),
            None => Err(Need::Moment),
        },
        _ => Err(Need::Moment),
    }
}

fn colour_in(text: &[u8]) -> Option<[u8; 3]>
    ensures { result ≡ colour_in text.now }
{
    match text {
        [b'#', digits @ ..] => <[u8; 3] as FromHex>::from_hex(digits).ok(),
        _ => None,
    }
}

/// Red, green and blue, each in two hexadecimal digits after `#`.
pub fn colour(value: &Value) -> Result<[u8; 3], Need>
    ensures { result ≡ colour_of (view value.now) }
{
    match value {
        Value::String(text) => colour_in(text.as_bytes()).ok_or(Need::Colour),
        _ => Err(Need::Colour),
    }
}
