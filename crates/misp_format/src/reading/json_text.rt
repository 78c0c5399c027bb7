//! Texts that are JSON.

ghost use Rattle.serde_json.specs.View.{view};
ghost use Rattle.misp_format.specs.Json.{json_in};
ghost use Rattle.misp_format.specs.Rows.{Shows};

use crate::fault::FormatFault;
use serde_json::Value;
use std::alloc::Global;

/// The JSON value of a text.
pub fn read_json(alloc: Global, text: &[u8]) -> Result<Value, FormatFault>
    ensures { Shows view result (json_in text.now) }
{
    match Value::from_slice(alloc, text) {
        Ok(value) => Ok(value),
        Err(error) if error.is_memory() => Err(FormatFault::NoMemory),
        Err(_) => Err(FormatFault::NoJson),
    }
}
