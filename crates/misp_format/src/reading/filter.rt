//! What a body searches for.

ghost use Rattle.std.specs.Prelude.{◌≡◌, ◌≤◌, ◌++◌, [], Ok, IfOk, codes, map};
ghost use Rattle.serde_json.specs.View.{view, items_of};
ghost use Rattle.misp_fields.specs.Fields.{date_text_of};
ghost use Rattle.misp_format.specs.Edits.{given_row};
ghost use Rattle.misp_format.specs.Filters.{category_named, filter_at, given_names_at, names_at, next_name, text_in};
ghost use Rattle.misp_format.specs.Members.{body_of, path_text};
ghost use Rattle.misp_format.specs.Readers.{number_within};
ghost use Rattle.misp_format.specs.Rows.{Gives, Shows, each, row};

use crate::fault::FormatFault;
use crate::kinds::named_category;
use crate::reading::edit::{given_flag, given_stamp, given_text, given_uuid, org_of};
use crate::reading::members::Members;
use crate::reading::path::Path;
use misp_fields::{self as fields, Need, member};
use misp_ids::{Items, Text};
use misp_search::{Filter, Page};
use serde_json::Value;
use std::alloc::Global;

fn given_date(it: &Members<'_>, name: &str) -> Result<Option<Text>, FormatFault>
    ensures { Gives result (given_row (body_of it.now) name.now date_text_of) }
{
    match member(it.value, name) {
        Some(value) => match fields::date(value) {
            Ok(text) => Ok(Some(Text::of(String::from_str(it.alloc, text)?))),
            Err(need) => it.refused(name, need),
        },
        None => Ok(None),
    }
}

fn given_category(it: &Members<'_>) -> Result<Option<Option<u8>>, FormatFault>
    ensures { Gives result (given_row (body_of it.now) (codes "category") category_named) }
{
    match member(it.value, "category") {
        Some(value) => Ok(Some(it.kept("category", named_category(value))?)),
        None => Ok(None),
    }
}

// A text at a place in a list.
fn text_at(alloc: Global, path: &Path<'_>, value: &Value) -> Result<Text, FormatFault>
    ensures { Gives result (text_in (path_text path.now) (view value.now)) }
{
    match fields::text(value) {
        Ok(text) => Ok(Text::of(String::from_str(alloc, text)?)),
        Err(need) => Err(FormatFault::BadField {
            path: path.text(alloc)?,
            need,
        }),
    }
}

// The texts of a list.
fn texts_in(alloc: Global, path: &Path<'_>, list: &[Value]) -> Result<Vec<Text>, FormatFault>
    ensures { Shows (λ v. v.items) result
        (each (next_name (path_text path.now)) 0 [] (items_of (map view list.now))) }
{
    let mut texts = Vec::with_capacity(alloc, list.len())?;
    for (index, value) in list.iter().enumerate() {
        let path = Path::Item(&*path, index);
        texts.push(text_at(alloc, &path, value)?)?;
    }
    Ok(texts)
}

// The names of tags.
#[tactic(auto, unfolding(crate::specs::Filters::names_at))]
fn names(it: &Members<'_>) -> Result<Items<Text>, FormatFault>
    ensures { Gives result (names_at (body_of it.now)) }
{
    let list = it.list("tags")?;
    let path = Path::Member(it.path, "tags");
    let texts = texts_in(it.alloc, &path, list)?;
    Ok(Items::of(texts))
}

#[tactic(auto, unfolding(crate::specs::Filters::given_names_at))]
fn given_names(it: &Members<'_>) -> Result<Option<Items<Text>>, FormatFault>
    ensures { Gives result (given_names_at (body_of it.now)) }
{
    match member(it.value, "tags") {
        Some(_) => Ok(Some(names(it)?)),
        None => Ok(None),
    }
}

// A number from 1 on.
fn number_to(value: &Value, most: u64) -> Result<u64, Need>
    ensures value { result ≡ number_within 1 most (view value.now) }
    ensures least { IfOk result (λ n. 1 ≤ n) }
    ensures most { IfOk result (λ n. n ≤ most) }
{
    match fields::number(value) {
        Ok(number) if 1 <= number && number <= most => Ok(number),
        Ok(_) => Err(Need::Range),
        Err(need) => Err(need),
    }
}

// A number from 1 on, which is `absent` where it is absent.
fn number(it: &Members<'_>, name: &str, most: u64, absent: u64) -> Result<u64, FormatFault>
    requires least { 1 ≤ absent }
    requires most { absent ≤ most }
    ensures gives { Gives result
        (row (body_of it.now) name.now (number_within 1 most) (Ok absent)) }
    ensures least { IfOk result (λ n. 1 ≤ n) }
    ensures most { IfOk result (λ n. n ≤ most) }
{
    match member(it.value, name) {
        Some(value) => match number_to(value, most) {
            Ok(number) => Ok(number),
            Err(need) => it.refused(name, need),
        },
        None => Ok(absent),
    }
}

/// What a body searches for.
#[tactic(auto, unfolding(crate::specs::Filters::filter_at))]
pub fn read_filter(alloc: Global, value: &Value) -> Result<Filter, FormatFault>
    ensures { Gives result (filter_at (view value.now)) }
{
    let path = Path::Body("Search");
    let it = Members::of(alloc, &path, value)?;
    let kind = given_text(&it, "type")?;
    let category = given_category(&it)?;
    let value = given_text(&it, "value")?;
    let to_ids = given_flag(&it, "to_ids")?;
    let tags = given_names(&it)?;
    let org = org_of(given_uuid(&it, "org")?);
    let published = given_flag(&it, "published")?;
    let from = given_date(&it, "from")?;
    let to = given_date(&it, "to")?;
    let stamp = given_stamp(&it, "timestamp")?;
    let page = number(&it, "page", 1_000_000, 1)?;
    let limit = number(&it, "limit", 1000, 60)?;
    Ok(Filter {
        kind,
        category,
        value,
        to_ids,
        tags,
        org,
        published,
        from,
        to,
        stamp,
        page: Page::of(page, limit),
    })
}
