//! Reads how many a peer took, and the rule by which it refuses.

ghost use Rattle.std.specs.Prelude.{◌≡◌, IfOk};
ghost use Rattle.serde_json.specs.View.{view};
ghost use Rattle.misp_client.specs.Bodies.{at_most, number_in, rule_in, rule_told, taken_at, taken_in};

use misp_fields::{member, number};
use misp_format::{FormatFault, read_json};
use misp_ids::NoMemory;
use serde_json::Value;
use std::alloc::Global;

// The number in the member of this name.
fn number_in(name: &str, value: &Value) -> Option<u64>
    ensures { result ≡ number_in name.now (view value.now) }
{
    let Some(value) = member(value, name) else {
        return None;
    };
    match number(value) {
        Ok(number) => Some(number),
        Err(_) => None,
    }
}

// The number of the rule that a refusal names.
#[tactic(auto, unfolding(crate::specs::Bodies::rule_in))]
fn rule_in(value: &Value) -> Option<u64>
    ensures { result ≡ rule_in (view value.now) }
{
    number_in("rule", value)
}

/// The same of a body.
#[tactic(auto, unfolding(crate::specs::Bodies::rule_told))]
pub(crate) fn read_rule(alloc: Global, body: &[u8]) -> Result<Option<u64>, NoMemory>
    ensures { IfOk result (λ found. found ≡ rule_told body.now) }
{
    match read_json(alloc, body) {
        Ok(value) => Ok(rule_in(&value)),
        Err(FormatFault::NoMemory) => Err(NoMemory),
        Err(_) => Ok(None),
    }
}

// A number of no more than so many.
fn at_most(most: u64, number: u64) -> Option<u64>
    ensures { result ≡ at_most most number }
{
    if number <= most { Some(number) } else { None }
}

// The number of those that were taken.
#[tactic(auto, unfolding(crate::specs::Bodies::taken_at))]
fn taken_at(most: u64, value: &Value) -> Option<u64>
    ensures { result ≡ taken_at most (view value.now) }
{
    match number_in("taken", value) {
        Some(number) => at_most(most, number),
        None => None,
    }
}

/// How many a body tells that were taken, of at most so many.
#[tactic(auto, unfolding(crate::specs::Bodies::taken_in))]
pub(crate) fn read_taken(alloc: Global, body: &[u8], most: u64) -> Result<Option<u64>, NoMemory>
    ensures { IfOk result (λ found. found ≡ taken_in most body.now) }
{
    match read_json(alloc, body) {
        Ok(value) => Ok(taken_at(most, &value)),
        Err(FormatFault::NoMemory) => Err(NoMemory),
        Err(_) => Ok(None),
    }
}
