//! Texts that are written piece after piece.

ghost use Rattle.std.specs.Prelude.{◌≡◌, ◌++◌, OnOk, decimal, string_bytes};

use misp_ids::NoMemory;
use std::fmt::Write;

pub(crate) fn put(out: &mut String, text: &str) -> Result<(), NoMemory>
    ensures { OnOk result (string_bytes out.new ≡ string_bytes out.old ++ text.now) }
{
    Ok(out.push_str(text)?)
}

pub(crate) fn put_number(out: &mut String, number: u128) -> Result<(), NoMemory>
    ensures { OnOk result (string_bytes out.new ≡ string_bytes out.old ++ decimal number) }
{
    Ok(write!(out, "{number}")?)
}
