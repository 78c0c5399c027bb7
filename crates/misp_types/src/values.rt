//! The form in which the value of an attribute is kept.

ghost use Rattle.std.specs.Prelude.{◌≡◌, IfOk, option_map, string_bytes};
ghost use Rattle.misp_types.specs.Checked.{Shows};
ghost use Rattle.misp_types.specs.Forms.{text_of};
ghost use Rattle.misp_types.specs.Values.{split_value, part_of, pair_of, two_of, kept_of, IsKept};

use crate::fault::ValueFault;
use crate::forms::text_of;
use crate::kinds::{Form, Rule, rule_of};
use std::alloc::Global;

/// What is before and after the last `|`.
fn split_value(value: &str) -> Option<(&str, &str)>
    ensures { option_map (λ parts. (parts.0.now, parts.1.now)) result ≡ split_value value.now }
{
    value.rsplit_once('|')
}

/// A part of a value as it is kept. Each fault of it is one of the part.
fn part_of(alloc: Global, part: u8, form: Form, text: &str) -> Result<String, ValueFault>
    ensures { Shows string_bytes result (part_of part (text_of form text.now)) }
{
    match text_of(alloc, form, text) {
        Ok(kept) => Ok(kept),
        Err(ValueFault::NoMemory) => Err(ValueFault::NoMemory),
        Err(_) => Err(ValueFault::WrongPart(part)),
    }
}

fn pair_of(
    alloc: Global,
    first: Form,
    second: Form,
    front: &str,
    back: &str,
) -> Result<String, ValueFault>
    ensures { Shows string_bytes result (pair_of first second front.now back.now) }
{
    let mut kept = part_of(alloc, 1, first, front)?;
    let behind = part_of(alloc, 2, second, back)?;
    kept.push('|')?;
    kept.push_str(behind.as_str())?;
    Ok(kept)
}

fn two_of(alloc: Global, first: Form, second: Form, value: &str) -> Result<String, ValueFault>
    ensures { Shows string_bytes result (two_of first second value.now) }
{
    if value.is_empty() {
        return Err(ValueFault::WrongLength);
    }
    match split_value(value) {
        Some((front, back)) => pair_of(alloc, first, second, front, back),
        None => Err(ValueFault::WrongPart(2)),
    }
}

/// The form in which the value of an attribute of this type is kept.
#[tactic(auto, unfolding(crate::specs::Values::kept_of))]
pub fn check(alloc: Global, kind: &str, value: &str) -> Result<String, ValueFault>
    ensures kept { Shows string_bytes result (kept_of kind.now value.now) }
    ensures again { IfOk result (λ text. IsKept kind.now (string_bytes text)) }
{
    match rule_of(kind) {
        Rule::One(form) => text_of(alloc, form, value),
        Rule::Two(first, second) => two_of(alloc, first, second, value),
        Rule::File => Err(ValueFault::BinaryType),
    }
}
