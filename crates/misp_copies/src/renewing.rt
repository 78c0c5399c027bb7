//! A row as a change makes it.

ghost use Rattle.std.specs.Prelude.{◌≡◌, ◌||◌, [], ◌∷◌, false, not, length, max, min, eqb, ◌+◌, IfOk, IfErr};
ghost use Rattle.misp_elem.specs.Fields.{tags_size};
ghost use Rattle.misp_elem.specs.Contents.{text_size};
ghost use Rattle.misp_elem.specs.Row.{IsRow, AreRows};
ghost use Rattle.misp_elem.specs.KeyFacts.{is_statement};
ghost use Rattle.misp_elem.specs.RowFacts.{is_gone};
ghost use Rattle.misp_model.specs.Scene.{is_too_long};
ghost use Rattle.misp_ids.specs.Moments.{last_stamp};
ghost use Rattle.misp_copies.specs.Renewing.{renewed, IsFull};

use crate::change_fault::ChangeFault;
use misp_elem::{Content, KeyForm, Row, RowFields, Tag};
use misp_ids::{Label, OrgId, Stamp, Text};
use std::alloc::Global;

// The bytes of a text.
fn len(text: &Text) -> usize
    ensures { result ≡ length text.now }
{
    text.as_str().len()
}

// The bytes of the names of tags, or the greatest number where there are more.
#[tactic(auto, unfolding(misp_elem::specs::Fields::tags_size))]
fn tags_size(tags: &[Tag]) -> usize
    ensures { result ≡ min (tags_size tags.now) usize.MAX }
{
    let mut total: usize = 0;
    for tag in tags {
        total = total.saturating_add(len(&tag.name));
    }
    total
}

// The bytes of the texts of an element, or the greatest number where there are more.
#[tactic(auto, unfolding(misp_elem::specs::Contents::text_size))]
fn size(content: &Content) -> usize
    ensures { result ≡ min (text_size content.now) usize.MAX }
{
    match content {
        Content::Event(body) => len(&body.info).saturating_add(tags_size(body.tags.as_slice())),
        Content::Object(body) => len(&body.name)
            .saturating_add(len(&body.meta_category))
            .saturating_add(len(&body.description))
            .saturating_add(len(&body.comment)),
        Content::Attribute(body) => len(&body.kind)
            .saturating_add(len(&body.comment))
            .saturating_add(len(&body.value))
            .saturating_add(tags_size(body.tags.as_slice()))
            .saturating_add(len(&body.object_relation)),
        Content::Reference(body) => len(&body.relationship_type).saturating_add(len(&body.comment)),
        Content::Proposal(body) => len(&body.kind)
            .saturating_add(len(&body.comment))
            .saturating_add(len(&body.value)),
        Content::Verdict(_) | Content::Gone => 0,
        Content::Sighting(body) => len(&body.source),
    }
}

/// Whether the element is longer than one may be.
#[tactic(auto, unfolding(misp_model::specs::Scene::is_too_long))]
pub fn is_too_long(content: &Content) -> bool
    ensures { result ≡ is_too_long content.now }
{
    size(content) > 16384
}

// Whether the row of a change is held: it is no statement's and no tombstone.
#[tactic(auto, unfolding(misp_elem::specs::KeyFacts::is_statement, misp_elem::specs::RowFacts::is_gone))]
fn is_held(key: &KeyForm, content: &Content) -> bool
    ensures { result ≡ not (is_statement key.now || is_gone content.now) }
{
    match key {
        KeyForm::Element { .. } | KeyForm::Reference { .. } => !matches!(content, Content::Gone),
        _ => false,
    }
}

fn owner_of(row: &Row) -> OrgId
    ensures { result ≡ row.now.owner }
{
    row.owner
}

fn key_of(row: &Row) -> KeyForm
    ensures { result ≡ row.now.key }
{
    row.key.form
}

/// The label of a row.
pub fn label_of(row: &Row) -> Label
    ensures { result ≡ row.now.label }
{
    row.label
}

// The stamp of a change at this moment, where the row has not the last one.
fn stamp_after(row: &Row, now: Stamp) -> Stamp
    requires { eqb row.now.stamp last_stamp ≡ false }
    ensures { result ≡ max now (row.now.stamp + 1) }
{
    match Stamp::next(row.stamp, now) {
        Some(stamp) => stamp,
        None => unreachable!(),
    }
}

// The row as a change at this moment makes it, where it has not the last stamp.
#[tactic(auto, unfolding(crate::specs::Renewing::renewed))]
fn renewed(row: &Row, label: Label, content: Content, now: Stamp) -> Row
    requires stamp { eqb row.now.stamp last_stamp ≡ false }
    requires is_row { IsRow (renewed now row.now label content) }
    ensures { result ≡ renewed now row.now label content }
{
    let (owner, key) = (owner_of(row), key_of(row));
    let held = is_held(&key, &content);
    let stamp = stamp_after(row, now);
    Row::of(RowFields {
        owner,
        key,
        stamp,
        label,
        held,
        carried: false,
        content,
    })
}

/// The row of a change, if the element does not become too long by it.
pub fn finished(
    alloc: Global,
    row: &Row,
    label: Label,
    content: Content,
    now: Stamp,
) -> Result<Vec<Row>, ChangeFault>
    requires stamp { eqb row.now.stamp last_stamp ≡ false }
    requires is_row { is_too_long content ≡ false → IsRow (renewed now row.now label content) }
    ensures err { IfErr result (IsFull content) }
    ensures ok { IfOk result (λ made. (made.items ≡ renewed now row.now label content ∷ [])
        × (is_too_long content ≡ false)) }
    ensures are_rows { IfOk result (λ made. AreRows made.items) }
{
    if is_too_long(&content) {
        return Err(ChangeFault::ElementFull);
    }
    let mut made = Vec::with_capacity(alloc, 1)?;
    made.push(renewed(row, label, content, now))?;
    Ok(made)
}
