//! What attaching and removing a tag make of what a row says.

ghost use Rattle.std.specs.Prelude.{◌≡◌, bytes_eq, IfOk};
ghost use Rattle.std.specs.List.{list_any, position, position_or_len};
ghost use Rattle.misp_lists.specs.Order.{is_less};
ghost use Rattle.misp_model.specs.Edits.{at_tags, tagged, untagged, has_tag};

use misp_elem::{AttributeBody, Content, EventBody, Row, Shared, Tag};
use misp_ids::{Items, NoMemory, Text};
use std::alloc::Global;

// ---- lists of tags

fn is_named(tag: &Tag, name: &Text) -> bool
    ensures { result ≡ bytes_eq tag.now.name name.now }
{
    tag.name.as_str() == name.as_str()
}

// Whether its name is before that of the other, in the order of their bytes.
#[tactic(auto, using(misp_lists::proofs::Orders::less_is))]
fn is_before(tag: &Tag, other: &Tag) -> bool
    ensures { result ≡ is_less tag.now.name other.now.name }
{
    tag.name.cmp(&other.name).is_lt()
}

fn copy_of(tag: &Tag) -> Result<Tag, NoMemory>
    ensures { IfOk result (λ copy. copy ≡ tag.now) }
{
    Ok(tag.clone()?)
}

// The tags without that of this name.
#[tactic(auto, unfolding(misp_model::specs::Edits::untagged))]
fn untagged(alloc: Global, name: &Text, tags: &[Tag]) -> Result<Vec<Tag>, NoMemory>
    ensures { IfOk result (λ made. made.items ≡ untagged name.now tags.now) }
{
    let mut made = Vec::with_capacity(alloc, tags.len())?;
    for tag in tags {
        if !is_named(tag, name) {
            made.push(copy_of(tag)?)?;
        }
    }
    Ok(made)
}

// The first tag that this one goes before.
fn next_after(tags: &[Tag], tag: &Tag) -> Option<usize>
    ensures { result ≡ position (λ other. is_less tag.now.name other.name) tags.now }
{
    tags.iter().position(|other| is_before(tag, other))
}

// How many tags are before that one.
fn count_before(tags: &[Tag], tag: &Tag) -> usize
    ensures { result ≡ position_or_len (λ other. is_less tag.now.name other.name) tags.now }
{
    match next_after(tags, tag) {
        Some(count) => count,
        None => tags.len(),
    }
}

// The tags with this one, in the place of that of its name.
#[tactic(auto, unfolding(misp_model::specs::Edits::tagged))]
fn tagged(alloc: Global, tag: &Tag, tags: &[Tag]) -> Result<Vec<Tag>, NoMemory>
    ensures { IfOk result (λ made. made.items ≡ tagged tag.now tags.now) }
{
    let mut made = untagged(alloc, &tag.name, tags)?;
    let count = count_before(made.as_slice(), tag);
    made.insert(count, copy_of(tag)?)?;
    Ok(made)
}

fn has_name(tags: &[Tag], name: &Text) -> bool
    ensures { result ≡ list_any (λ t. bytes_eq t.name name.now) tags.now }
{
    tags.iter().any(|tag| is_named(tag, name))
}

// ---- what a row says

/// Whether the row has a tag of this name.
#[tactic(auto, unfolding(misp_model::specs::Edits::has_tag, misp_model::specs::Edits::tags_in))]
pub(crate) fn has_tag(row: &Row, name: &Text) -> bool
    ensures { result ≡ has_tag name.now row.now }
{
    match &row.content {
        Content::Event(body) => has_name(body.tags.as_slice(), name),
        Content::Attribute(body) => has_name(body.tags.as_slice(), name),
        _ => false,
    }
}

fn event_with(
    alloc: Global,
    body: &EventBody,
    tags: Vec<Tag>,
) -> Result<Shared<EventBody>, NoMemory>
    ensures { IfOk result (λ made. made ≡ record body.now { tags = tags.items }) }
{
    let mut made = body.clone()?;
    made.tags = Items::of(tags);
    Ok(Shared::of(alloc, made)?)
}

fn attribute_with(
    alloc: Global,
    body: &AttributeBody,
    tags: Vec<Tag>,
) -> Result<Shared<AttributeBody>, NoMemory>
    ensures { IfOk result (λ made. made ≡ record body.now { tags = tags.items }) }
{
    let mut made = body.clone()?;
    made.tags = Items::of(tags);
    Ok(Shared::of(alloc, made)?)
}

/// The element with the tag.
#[tactic(auto, unfolding(misp_model::specs::Edits::at_tags))]
pub(crate) fn with_tag(alloc: Global, content: &Content, tag: &Tag) -> Result<Content, NoMemory>
    ensures { IfOk result (λ made. made ≡ at_tags (tagged tag.now) content.now) }
{
    match content {
        Content::Event(body) => {
            let tags = tagged(alloc, tag, body.tags.as_slice())?;
            Ok(Content::Event(event_with(alloc, body, tags)?))
        }
        Content::Attribute(body) => {
            let tags = tagged(alloc, tag, body.tags.as_slice())?;
            Ok(Content::Attribute(attribute_with(alloc, body, tags)?))
        }
        _ => Ok(content.clone()?),
    }
}

/// The element without the tag of this name.
#[tactic(auto, unfolding(misp_model::specs::Edits::at_tags))]
pub(crate) fn without_tag(
    alloc: Global,
    content: &Content,
    name: &Text,
) -> Result<Content, NoMemory>
    ensures { IfOk result (λ made. made ≡ at_tags (untagged name.now) content.now) }
{
    match content {
        Content::Event(body) => {
            let tags = untagged(alloc, name, body.tags.as_slice())?;
            Ok(Content::Event(event_with(alloc, body, tags)?))
        }
        Content::Attribute(body) => {
            let tags = untagged(alloc, name, body.tags.as_slice())?;
            Ok(Content::Attribute(attribute_with(alloc, body, tags)?))
        }
        _ => Ok(content.clone()?),
    }
}
