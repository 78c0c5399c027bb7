//! The rows of an added event, and of added parts.

ghost use Rattle.std.specs.Prelude.{◌≡◌, ◌++◌, [], ◌∷◌, map, IfOk, IfSome, Some, is_some, true};
ghost use Rattle.std.specs.List.{filter_map};
ghost use Rattle.misp_dates.specs.Dates.{date_of};
ghost use Rattle.misp_elem.specs.Fields.{IsText, IsDate};
ghost use Rattle.misp_elem.specs.Contents.{IsEventBody};
ghost use Rattle.misp_elem.specs.Row.{IsRow, AreRows};
ghost use Rattle.misp_elem.specs.Draft.{IsOptionalDate, IsLabelOf};
ghost use Rattle.misp_model.specs.Adding.{is_place_of};
ghost use Rattle.misp_edit.specs.Targets.{target_in, AreOfTheirUuids};
ghost use Rattle.misp_edit.specs.Rows.{held_row, part_row, reference_row, row_with_target, date_given, event_row, body_of, added_rows, parts_rows};

use crate::targets::Targets;
use misp_dates::date_of;
use misp_elem::{
    Content, Draft, EventBody, EventDraft, KeyForm, Place, ReferenceDraft, Row, RowFields, Shared,
    Submission,
};
use misp_ids::{EventId, Label, NoMemory, OrgId, Stamp, Text};
use std::alloc::Global;

// A row that is not published.
fn held_row(owner: OrgId, key: KeyForm, now: Stamp, label: Label, content: Content) -> Row
    requires { IsRow (held_row owner key now label content) }
    ensures { result ≡ held_row owner key now label content }
{
    Row::of(RowFields {
        owner,
        key,
        stamp: now,
        label,
        held: true,
        carried: false,
        content,
    })
}

#[tactic(auto, unfolding(crate::specs::Rows::part_row, crate::specs::Rows::new_row, misp_elem::specs::RowFacts::is_gone))]
fn part_row(draft: Draft, owner: OrgId, event: EventId, now: Stamp) -> Row
    ensures value { result ≡ part_row owner event now draft }
    ensures is_row { IsRow result }
{
    let Draft {
        place,
        label,
        content,
        ..
    } = draft;
    let key = KeyForm::Element { event, place };
    held_row(owner, key, now, label, content)
}

// The rows, and after them those of the parts.
fn with_parts(
    mut rows: Vec<Row>,
    parts: Vec<Draft>,
    owner: OrgId,
    event: EventId,
    now: Stamp,
) -> Result<Vec<Row>, NoMemory>
    requires { AreRows rows.items }
    ensures all { IfOk result (λ all. all.items
        ≡ rows.items ++ map (part_row owner event now) parts.items) }
    ensures are_rows { IfOk result (λ all. AreRows all.items) }
{
    for draft in parts {
        rows.push(part_row(draft, owner, event, now))?;
    }
    Ok(rows)
}

// The row of a reference that has this target.
#[tactic(auto, unfolding(crate::specs::Rows::reference_row))]
fn reference_row(
    draft: ReferenceDraft,
    target: Place,
    owner: OrgId,
    event: EventId,
    now: Stamp,
) -> Row
    requires { is_place_of draft.referenced target ≡ true }
    ensures value { result ≡ reference_row owner event now draft target }
    ensures is_row { IsRow result }
{
    let ReferenceDraft {
        object,
        uuid,
        body,
        ..
    } = draft;
    let key = KeyForm::Reference {
        event,
        object,
        target,
        uuid,
    };
    let content = Content::Reference(body);
    held_row(owner, key, now, Label::Inherit, content)
}

// The same, if it has a target.
#[tactic(auto, unfolding(crate::specs::Rows::row_with_target))]
fn row_with_target(
    draft: ReferenceDraft,
    targets: &Targets,
    owner: OrgId,
    event: EventId,
    now: Stamp,
) -> Option<Row>
    requires { AreOfTheirUuids targets.now }
    ensures value { result ≡ row_with_target (target_in targets.now) owner event now draft }
    ensures is_row { IfSome result IsRow }
{
    match targets.get(&draft.referenced.0.0) {
        Some(target) => Some(reference_row(draft, *target, owner, event, now)),
        None => None,
    }
}

// The rows, and after them those of the references that have a target.
fn with_references(
    mut rows: Vec<Row>,
    references: Vec<ReferenceDraft>,
    targets: &Targets,
    owner: OrgId,
    event: EventId,
    now: Stamp,
) -> Result<Vec<Row>, NoMemory>
    requires rows { AreRows rows.items }
    requires targets { AreOfTheirUuids targets.now }
    ensures all { IfOk result (λ all. all.items ≡ rows.items
        ++ filter_map (row_with_target (target_in targets.now) owner event now) references.items) }
    ensures are_rows { IfOk result (λ all. AreRows all.items) }
{
    for draft in references {
        if let Some(row) = row_with_target(draft, targets, owner, event, now) {
            rows.push(row)?;
        }
    }
    Ok(rows)
}

fn zero() -> Stamp
    ensures { result ≡ 0 }
{
    match Stamp::new(0) {
        Some(stamp) => stamp,
        None => unreachable!(),
    }
}

// The date that a body gives, or else that of the moment.
fn new_date(alloc: Global, given: Option<Text>, now: Stamp) -> Result<Text, NoMemory>
    requires { IsOptionalDate given }
    ensures value { IfOk result (λ date. date ≡ date_given given (date_of now)) }
    ensures is_date { IfOk result IsDate }
{
    match given {
        Some(date) => Ok(date),
        None => Ok(Text::of(date_of(alloc, now.get())?)),
    }
}

// The body of an event that this organisation creates at this moment.
#[tactic(auto, unfolding(crate::specs::Rows::body_of))]
fn new_body(
    alloc: Global,
    draft: EventDraft,
    owner: OrgId,
    name: Text,
    now: Stamp,
) -> Result<EventBody, NoMemory>
    requires { IsText 0 64 name }
    ensures value { IfOk result (λ body. body ≡ body_of owner name (date_of now) draft) }
    ensures is_body { IfOk result IsEventBody }
{
    let EventDraft {
        info,
        date,
        threat_level_id,
        analysis,
        extends_uuid,
        tags,
    } = draft;
    let date = new_date(alloc, date, now)?;
    Ok(EventBody {
        info,
        date,
        threat_level_id,
        analysis,
        publish_stamp: zero(),
        extends_uuid,
        orgc: owner,
        orgc_name: name,
        tags,
    })
}

// The event's own row.
#[tactic(auto, unfolding(crate::specs::Rows::event_row, crate::specs::Rows::new_row, misp_elem::specs::RowFacts::is_gone))]
fn event_row(
    alloc: Global,
    draft: EventDraft,
    label: Label,
    owner: OrgId,
    name: Text,
    event: EventId,
    now: Stamp,
) -> Result<Row, NoMemory>
    requires name { IsText 0 64 name }
    requires label { IsLabelOf (Some draft) label }
    ensures value { IfOk result (λ row.
        row ≡ event_row owner name (date_of now) event now label draft) }
    ensures is_row { IfOk result IsRow }
{
    let place = Place::Event;
    let body = Shared::of(alloc, new_body(alloc, draft, owner, name, now)?)?;
    let key = KeyForm::Element { event, place };
    Ok(held_row(owner, key, now, label, Content::Event(body)))
}

// The event's own row, with room for so many others.
fn event_rows(
    alloc: Global,
    draft: EventDraft,
    label: Label,
    owner: OrgId,
    name: &Text,
    event: EventId,
    now: Stamp,
    others: usize,
) -> Result<Vec<Row>, NoMemory>
    requires name { IsText 0 64 name.now }
    requires label { IsLabelOf (Some draft) label }
    ensures all { IfOk result (λ rows. rows.items
        ≡ event_row owner name.now (date_of now) event now label draft ∷ []) }
    ensures are_rows { IfOk result (λ rows. AreRows rows.items) }
{
    let mut rows = Vec::with_capacity(alloc, others.saturating_add(1))?;
    let name = name.clone()?;
    rows.push(event_row(alloc, draft, label, owner, name, event, now)?)?;
    Ok(rows)
}

// The rows of the event, of its parts, and of its references that have a target.
#[tactic(auto, unfolding(crate::specs::Rows::added_rows))]
pub(crate) fn added_rows(
    alloc: Global,
    submission: Submission,
    targets: &Targets,
    owner: OrgId,
    name: &Text,
    now: Stamp,
) -> Result<Vec<Row>, NoMemory>
    requires name { IsText 0 64 name.now }
    requires body { is_some submission.body ≡ true }
    requires targets { AreOfTheirUuids targets.now }
    ensures all { IfOk result (λ added. added.items
        ≡ added_rows (target_in targets.now) owner name.now (date_of now) now submission) }
    ensures are_rows { IfOk result (λ added. AreRows added.items) }
{
    let Submission {
        event,
        body,
        label,
        parts,
        references,
    } = submission;
    let draft = match body {
        Some(draft) => draft,
        None => unreachable!(),
    };
    let others = parts
        .as_slice()
        .len()
        .saturating_add(references.as_slice().len());
    let rows = match event_rows(alloc, draft, label, owner, name, event, now, others) {
        Ok(rows) => rows,
        Err(NoMemory) => {
            drop(parts);
            drop(references);
            return Err(NoMemory);
        }
    };
    let rows = with_parts(rows, parts.into_vec(), owner, event, now)?;
    with_references(rows, references.into_vec(), targets, owner, event, now)
}

// The rows of the parts, and of the references that have a target.
#[tactic(auto, unfolding(crate::specs::Rows::parts_rows))]
pub(crate) fn parts_rows(
    alloc: Global,
    submission: Submission,
    targets: &Targets,
    owner: OrgId,
    now: Stamp,
) -> Result<Vec<Row>, NoMemory>
    requires { AreOfTheirUuids targets.now }
    ensures all { IfOk result (λ added.
        added.items ≡ parts_rows (target_in targets.now) owner now submission) }
    ensures are_rows { IfOk result (λ added. AreRows added.items) }
{
    let Submission {
        event,
        parts,
        references,
        ..
    } = submission;
    let rows = with_parts(Vec::new(alloc), parts.into_vec(), owner, event, now)?;
    with_references(rows, references.into_vec(), targets, owner, event, now)
}
