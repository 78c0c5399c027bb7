//! Members, texts, flags, lists and identifiers.

ghost use Rattle.std.specs.Prelude.{◌≡◌, ◌<◌, ◌^◌, IfOk, IfSome, option_map, map};
ghost use Rattle.serde_json.specs.View.{view, items_of};
ghost use Rattle.misp_fields.specs.Fields.{Shown, member_of, text_of, flag_of, flag_in, list_of, uuid_of, optional_uuid_of};

use crate::need::Need;
use misp_ids::Uid;
use serde_json::Value;

/// The member of this name. One that is null counts as absent.
pub fn member<'a>(object: &'a Value, name: &str) -> Option<&'a Value>
    ensures { option_map (λ v. view v.now) result ≡ member_of name.now (view object.now) }
{
    match object.get(name) {
        Some(value) if !value.is_null() => Some(value),
        _ => None,
    }
}

pub fn text<'a>(value: &'a Value) -> Result<&'a str, Need>
    ensures { Shown (λ t. t.now) result (text_of (view value.now)) }
{
    match value {
        Value::String(text) => Ok(text.as_str()),
        _ => Err(Need::Text),
    }
}

pub fn list<'a>(value: &'a Value) -> Result<&'a [Value], Need>
    ensures { Shown (λ vs. items_of (map view vs.now)) result (list_of (view value.now)) }
{
    match value {
        Value::Array(items) => Ok(items.as_slice()),
        _ => Err(Need::List),
    }
}

fn flag_in(text: &str) -> Result<bool, Need>
    ensures { result ≡ flag_in text.now }
{
    if text == "0" {
        Ok(false)
    } else if text == "1" {
        Ok(true)
    } else {
        Err(Need::Flag)
    }
}

pub fn flag(value: &Value) -> Result<bool, Need>
    ensures { result ≡ flag_of (view value.now) }
{
    match value {
        Value::Bool(flag) => Ok(*flag),
        Value::Number(number) => match number.as_u64() {
            Some(0) => Ok(false),
            Some(1) => Ok(true),
            _ => Err(Need::Flag),
        },
        Value::String(text) => flag_in(text.as_str()),
        _ => Err(Need::Flag),
    }
}

pub fn uuid(value: &Value) -> Result<Uid, Need>
    ensures { result ≡ uuid_of (view value.now) }
{
    match value {
        Value::String(text) => Uid::read(text.as_str()).ok_or(Need::Uuid),
        _ => Err(Need::Uuid),
    }
}

/// The identifier, or none where the text is empty.
pub fn optional_uuid(value: &Value) -> Result<Option<Uid>, Need>
    ensures value { result ≡ optional_uuid_of (view value.now) }
    ensures in_range { IfOk result (λ found. IfSome found (λ uuid. uuid.0 < 2 ^ 128)) }
{
    match value {
        Value::String(text) if text.is_empty() => Ok(None),
        Value::String(text) => match Uid::read(text.as_str()) {
            Some(uuid) => Ok(Some(uuid)),
            None => Err(Need::Uuid),
        },
        _ => Err(Need::Uuid),
    }
}
