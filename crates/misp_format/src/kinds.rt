//! The names of the categories of attributes.

ghost use Rattle.std.specs.Prelude.{◌≡◌, map, position, slice_get, unwrap_or, codes};
ghost use Rattle.std.specs.Str.{bytes_eq};
ghost use Rattle.serde_json.specs.View.{view};
ghost use Rattle.misp_format.specs.Filters.{category_named};
ghost use Rattle.misp_format.specs.Kinds.{category_texts, category_in, category_of, category_name, is_file_type};

use misp_fields::{self as fields, Need};
use serde_json::Value;

/// The categories of attributes, each at its number.
const CATEGORIES: [&str; 16] = [
    "Internal reference",
    "Targeting data",
    "Antivirus detection",
    "Payload delivery",
    "Artifacts dropped",
    "Payload installation",
    "Persistence mechanism",
    "Network activity",
    "Payload type",
    "Attribution",
    "External analysis",
    "Financial fraud",
    "Support Tool",
    "Social network",
    "Person",
    "Other",
];

/// The number of the category `Other`.
pub(crate) const OTHER: u8 = 15;

/// The place of a name in a list.
fn place_in(names: &[&str], text: &str) -> Option<usize>
    ensures { result ≡ position (λ name. bytes_eq name.now text.now) names.now }
{
    names.iter().position(|name| *name == text)
}

/// The place of a name among those of the categories.
fn place_of(text: &str) -> Option<usize>
    ensures { result ≡ position (λ name. bytes_eq name text.now) category_texts }
{
    place_in(&CATEGORIES, text)
}

/// The number of the category of this name.
fn category_number(text: &str) -> Option<u8>
    ensures { result ≡ position (λ name. bytes_eq name text.now) category_texts }
{
    match place_of(text) {
        Some(number) => Some(number as u8),
        None => None,
    }
}

fn category_in(text: &str) -> Result<u8, Need>
    ensures { result ≡ category_in text.now }
{
    category_number(text).ok_or(Need::Range)
}

/// The number of the category that a value names.
pub(crate) fn category(value: &Value) -> Result<u8, Need>
    ensures { result ≡ category_of (view value.now) }
{
    match fields::text(value) {
        Ok(text) => category_in(text),
        Err(need) => Err(need),
    }
}

/// The number of the category of the name that a value is, if there is one.
pub(crate) fn named_category(value: &Value) -> Result<Option<u8>, Need>
    ensures { result ≡ category_named (view value.now) }
{
    match fields::text(value) {
        Ok(text) => Ok(category_number(text)),
        Err(need) => Err(need),
    }
}

/// The name at a place of a list, or that of the last category.
#[tactic(auto, using(crate::proofs::Categories::name_in_map))]
fn name_at(names: &[&'static str], number: usize) -> &'static str
    ensures { result.now
        ≡ unwrap_or (slice_get (map (λ name. name.now) names.now) number) (codes "Other") }
{
    match names.get(number) {
        Some(name) => name,
        None => "Other",
    }
}

/// The name of the category of this number.
#[tactic(auto, unfolding(crate::specs::Kinds::category_name))]
pub(crate) fn category_name(number: u8) -> &'static str
    ensures { result.now ≡ category_name number }
{
    name_at(&CATEGORIES, usize::from(number))
}

/// Whether the values of this type are files.
pub(crate) fn is_file_type(kind: &str) -> bool
    ensures { result ≡ is_file_type kind.now }
{
    kind == "attachment" || kind == "malware-sample"
}
