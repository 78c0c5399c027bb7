//! Attaching a tag, and removing one.

ghost use Rattle.std.specs.Prelude.{◌≡◌, ℕ, List, [], ◌∷◌, eqb, false, Option, None, IfOk, IfErr};
ghost use Rattle.std.specs.List.{find};
ghost use Rattle.std.specs.Option.{option_copied};
ghost use Rattle.misp_elem.specs.declared.key.KeyForm.TheVariants.{Element};
ghost use Rattle.misp_elem.specs.Row.{AreRows};
ghost use Rattle.misp_model.specs.declared.change.Change.TheVariants as changes;
ghost use Rattle.misp_model.specs.View.{is_row_of};
ghost use Rattle.misp_model.specs.Changing.{change_rules};
ghost use Rattle.misp_model.specs.Edits.{at_tags, tagged, untagged};
ghost use Rattle.misp_model.specs.Scene.{is_too_long};
ghost use Rattle.misp_ids.specs.Moments.{last_stamp};
ghost use Rattle.misp_copies.specs.Scenes.{scene_for};
ghost use Rattle.misp_copies.specs.declared.change_fault.ChangeFault.TheVariants as faults;
ghost use Rattle.misp_copies.specs.Barring.{Refuses, Names};
ghost use Rattle.misp_copies.specs.Renewing.{IsFull, renewed};
ghost use Rattle.misp_edit.specs.Changing.{Changes};
ghost use Rattle.misp_edit.specs.Limits.{with_tag};

use crate::barring::admitted_row;
use crate::tags::{has_tag, with_tag, without_tag};
use misp_copies::{ChangeFault, Viewer, finished, has_live, label_of, own_row};
use misp_elem::{Content, Place, Row};
use misp_ids::{EventId, NoMemory, OrgId, Stamp, Text};
use misp_model::{NewTag, TaggedPlace};
use std::alloc::Global;

fn tagged_of(alloc: Global, row: &Row, tag: &NewTag) -> Result<Content, NoMemory>
    ensures { IfOk result (λ made. made ≡ at_tags (tagged tag.now) row.now.content) }
{
    with_tag(alloc, &row.content, &tag.tag)
}

fn untagged_of(alloc: Global, row: &Row, name: &Text) -> Result<Content, NoMemory>
    ensures { IfOk result (λ made. made ≡ at_tags (untagged name.now) row.now.content) }
{
    without_tag(alloc, &row.content, name)
}

// The row with the tag, where it has not the last stamp.
fn tagged_row(alloc: Global, row: &Row, tag: &NewTag, now: Stamp) -> Result<Vec<Row>, ChangeFault>
    requires { eqb row.now.stamp last_stamp ≡ false }
    ensures err { IfErr result (IsFull (at_tags (tagged tag.now) row.now.content)) }
    ensures ok { IfOk result (λ made. (made.items
        ≡ renewed now row.now row.now.label (at_tags (tagged tag.now) row.now.content) ∷ [])
        × (is_too_long (at_tags (tagged tag.now) row.now.content) ≡ false)) }
    ensures are_rows { IfOk result (λ made. AreRows made.items) }
{
    let (_now, _held, _exportable) = (now.get(), row.held, tag.tag.exportable);
    match tagged_of(alloc, row, tag) {
        Ok(content) => finished(alloc, row, label_of(row), content, now),
        Err(NoMemory) => Err(ChangeFault::NoMemory),
    }
}

// The row without the tag of this name, where it has not the last stamp.
fn untagged_row(alloc: Global, row: &Row, name: &Text, now: Stamp) -> Result<Vec<Row>, ChangeFault>
    requires { eqb row.now.stamp last_stamp ≡ false }
    ensures err { IfErr result (λ fault. fault ≡ faults.NoMemory) }
    ensures ok { IfOk result (λ made. made.items
        ≡ renewed now row.now row.now.label (at_tags (untagged name.now) row.now.content) ∷ []) }
    ensures are_rows { IfOk result (λ made. AreRows made.items) }
{
    let (_now, _held) = (now.get(), row.held);
    match untagged_of(alloc, row, name) {
        Ok(content) => finished(alloc, row, label_of(row), content, now),
        Err(NoMemory) => Err(ChangeFault::NoMemory),
    }
}

// The owner's row of the element at this place, if it has a tag of this name.
#[tactic(auto, unfolding(crate::specs::Limits::with_tag))]
fn row_with_tag<'a>(
    rows: &'a [Row],
    owner: &OrgId,
    event: &EventId,
    place: &Place,
    name: &Text,
) -> Option<&'a Row>
    ensures { option_copied result ≡ with_tag name.now
        (find (is_row_of owner.now (Element event.now place.now)) rows.now) }
{
    match own_row(rows, owner, event, place) {
        Some(row) => { if has_tag(row, name) { Some(row) } else { None } }
        None => None,
    }
}

/// The row that attaching the tag at this place writes. A tag of its name is replaced. The rows are
/// those that the caller knows of the event.
pub fn tag(
    alloc: Global,
    event: &EventId,
    place: &TaggedPlace,
    tag: &NewTag,
    who: &Viewer,
    now: Stamp,
    rows: &[Row],
) -> Result<Vec<Row>, ChangeFault>
    ensures err { (act : ℕ) (name today : List ℕ) → IfErr result
        (Refuses (change_rules (scene_for act who.now name now today rows.now)
        (changes.Tag event.now place.now tag.now))) }
    ensures ok { (act : ℕ) (name today : List ℕ) → IfOk result (λ made.
        Changes (scene_for act who.now name now today rows.now)
        (changes.Tag event.now place.now tag.now) made.items) }
    ensures are_rows { IfOk result (λ made. AreRows made.items) }
    ensures names { IfErr result (Names None) }
{
    let place = place.get();
    let fits = has_live(rows, &who.org, event, &place);
    let own = own_row(rows, &who.org, event, &place);
    match admitted_row(rows, who, event, fits, own, None, None) {
        Err(fault) => Err(fault),
        Ok(None) => Ok(Vec::new(alloc)),
        Ok(Some(row)) => tagged_row(alloc, row, tag, now),
    }
}

/// The row that removing the tag of this name at this place writes, or none where it is not there.
/// The rows are those that the caller knows of the event.
pub fn untag(
    alloc: Global,
    event: &EventId,
    place: &TaggedPlace,
    name: &Text,
    who: &Viewer,
    now: Stamp,
    rows: &[Row],
) -> Result<Vec<Row>, ChangeFault>
    ensures err { (act : ℕ) (called today : List ℕ) → IfErr result
        (Refuses (change_rules (scene_for act who.now called now today rows.now)
        (changes.Untag event.now place.now name.now))) }
    ensures ok { (act : ℕ) (called today : List ℕ) → IfOk result (λ made.
        Changes (scene_for act who.now called now today rows.now)
        (changes.Untag event.now place.now name.now) made.items) }
    ensures are_rows { IfOk result (λ made. AreRows made.items) }
    ensures names { IfErr result (Names None) }
{
    let place = place.get();
    let fits = has_live(rows, &who.org, event, &place);
    let own = row_with_tag(rows, &who.org, event, &place, name);
    match admitted_row(rows, who, event, fits, own, None, None) {
        Err(fault) => Err(fault),
        Ok(None) => Ok(Vec::new(alloc)),
        Ok(Some(row)) => untagged_row(alloc, row, name, now),
    }
}
