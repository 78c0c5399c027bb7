//! Tags.

ghost use Rattle.std.specs.Prelude.{◌≡◌, [], Ok, IfOk, codes, map, min};
ghost use Rattle.std.specs.Cmp.Lexicographic.{slice_cmp};
ghost use Rattle.std.specs.List.{AllByRecursion};
ghost use Rattle.std.specs.List.Sorted.{IsStrictlySortedBy};
ghost use Rattle.std.specs.Map.{keys_of};
ghost use Rattle.std.specs.Ordering.{nat_cmp};
ghost use Rattle.serde_json.specs.View.{view, items_of};
ghost use Rattle.misp_fields.specs.Fields.{colour_of};
ghost use Rattle.misp_elem.specs.Fields.{IsTag, tags_size, text_limit};
ghost use Rattle.misp_format.specs.Elements.{white, tag_at, next_tag, tag_of, tags_at};
ghost use Rattle.misp_format.specs.Members.{body_of, path_text};
ghost use Rattle.misp_format.specs.Entries.{FitTags, IsNamed};
ghost use Rattle.misp_format.specs.Rows.{Gives, Shows, row, each};

use crate::fault::FormatFault;
use crate::reading::members::Members;
use crate::reading::path::Path;
use misp_elem::Tag;
use misp_fields::{self as fields, member};
use misp_ids::{Items, Text};
use serde_json::Value;
use std::alloc::Global;
use std::collections::BTreeMap;

/// The colour of a tag that tells none.
pub(crate) const WHITE: [u8; 3] = [255, 255, 255];

fn colour(it: &Members<'_>) -> Result<[u8; 3], FormatFault>
    ensures { Gives result (row (body_of it.now) (codes "colour") colour_of (Ok white)) }
{
    match member(it.value, "colour") {
        Some(value) => it.kept("colour", fields::colour(value)),
        None => Ok(WHITE),
    }
}

/// A tag, whatever stands around it.
#[tactic(auto, unfolding(crate::specs::Elements::tag_at))]
pub(crate) fn tag(alloc: Global, path: &Path<'_>, value: &Value) -> Result<Tag, FormatFault>
    ensures gives { Gives result (tag_at (path_text path.now) (view value.now)) }
    ensures fits { IfOk result (IsTag text_limit []) }
{
    let it = Members::of(alloc, path, value)?;
    let name = it.text_within("name", 1, 255)?;
    let colour = colour(&it)?;
    let exportable = it.flag("exportable", true)?;
    Ok(Tag {
        name,
        colour,
        exportable,
    })
}

/// The colours and flags of tags, by their names.
type Named = BTreeMap<Text, ([u8; 3], bool)>;

/// The tags in a list. Of two of one name the later counts.
fn named_in(alloc: Global, path: &Path<'_>, list: &[Value]) -> Result<Named, FormatFault>
    ensures gives { Shows (λ m. m.entries) result
        (each (next_tag (path_text path.now)) 0 [] (items_of (map view list.now))) }
    ensures fits { IfOk result (λ m. AllByRecursion IsNamed m.entries) }
{
    let mut named = BTreeMap::new(alloc);
    for (index, value) in list.iter().enumerate() {
        let path = Path::Item(&*path, index);
        let tag = tag(alloc, &path, value)?;
        drop(named.insert(tag.name, (tag.colour, tag.exportable))?);
    }
    Ok(named)
}

fn tag_list(alloc: Global, named: Named) -> Result<Vec<Tag>, FormatFault>
    ensures gives { Shows (λ v. v.items) result (Ok (map tag_of named.entries)) }
    ensures ordered { IsStrictlySortedBy (slice_cmp nat_cmp) (keys_of named.entries) }
{
    let mut tags = Vec::new(alloc);
    for (name, (colour, exportable)) in named {
        tags.push(Tag {
            name,
            colour,
            exportable,
        })?;
    }
    Ok(tags)
}

/// The tags of an element, in the order of their names.
#[tactic(auto, unfolding(crate::specs::Elements::tags_at))]
pub(crate) fn tags(it: &Members<'_>) -> Result<Items<Tag>, FormatFault>
    ensures gives { Gives result (tags_at (body_of it.now)) }
    ensures fits { IfOk result FitTags }
{
    let list = it.list("Tag")?;
    let path = Path::Member(it.path, "Tag");
    let named = named_in(it.alloc, &path, list)?;
    let tags = tag_list(it.alloc, named)?;
    Ok(Items::of(tags))
}

/// The bytes of the names of tags, or the greatest number where there are more.
#[tactic(auto, unfolding(misp_elem::specs::Fields::tags_size))]
pub(crate) fn tags_size(tags: &[Tag]) -> usize
    ensures { result ≡ min (tags_size tags.now) usize.MAX }
{
    let mut total: usize = 0;
    for tag in tags {
        total = total.saturating_add(tag.name.as_str().len());
    }
    total
}
