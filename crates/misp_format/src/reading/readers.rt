//! Readers that take a part of what the readers of fields take.

ghost use Rattle.std.specs.Prelude.{◌≡◌};
ghost use Rattle.serde_json.specs.View.{view};
ghost use Rattle.misp_format.specs.Administering.{api_key_of};
ghost use Rattle.misp_format.specs.Readers.{within, number_within, inst_name_of, is_file};

use misp_fields::{self as fields, Need};
use misp_ids::{ApiKey, InstId};
use serde_json::Value;

/// The number, where it is one of the stated ones.
fn within(number: Result<u64, Need>, least: u8, most: u8) -> Result<u8, Need>
    ensures { result ≡ within least most number }
{
    match number {
        Ok(number) if u64::from(least) <= number && number <= u64::from(most) => Ok(number as u8),
        Ok(_) => Err(Need::Range),
        Err(need) => Err(need),
    }
}

pub(crate) fn number_within(value: &Value, least: u8, most: u8) -> Result<u8, Need>
    ensures { result ≡ number_within least most (view value.now) }
{
    within(fields::number(value), least, most)
}

/// The name of an instance.
pub(crate) fn inst_name(value: &Value) -> Result<InstId, Need>
    ensures { result ≡ inst_name_of (view value.now) }
{
    match fields::text(value) {
        Ok(text) => InstId::read(text).ok_or(Need::Range),
        Err(need) => Err(need),
    }
}

pub(crate) fn api_key(value: &Value) -> Result<ApiKey, Need>
    ensures { result ≡ api_key_of (view value.now) }
{
    match fields::text(value) {
        Ok(text) => ApiKey::read(text).ok_or(Need::Key),
        Err(need) => Err(need),
    }
}

/// Whether it is a text that is not empty.
pub(crate) fn is_file(value: &Value) -> bool
    ensures { result ≡ is_file (view value.now) }
{
    match value {
        Value::String(text) => !text.is_empty(),
        _ => false,
    }
}
