//! What a publishing writes.

ghost use Rattle.std.specs.Prelude.{◌≡◌, ◌++◌, true, Some, map, is_some, IfOk, IfErr};
ghost use Rattle.std.specs.List.{filter, find};
ghost use Rattle.misp_ids.specs.declared.uid.EventId.{EventId as SomeEvent};
ghost use Rattle.misp_elem.specs.Row.{IsRow, AreRows};
ghost use Rattle.misp_elem.specs.Parents.{event_key, event_of};
ghost use Rattle.misp_history.specs.History.{fresh_row};
ghost use Rattle.misp_model.specs.Edits as asking;
ghost use Rattle.misp_model.specs.Scene.{Scene, is_at_limit, own_row};
ghost use Rattle.misp_copies.specs.Copies.{AreOf, is_event_row};
ghost use Rattle.misp_publish.specs.Release.{Publishes, at_stamp, cleared_row, is_released};
ghost use Rattle.misp_publish.specs.declared.fault.PublishFault.TheVariants as faults;

use crate::fault::PublishFault;
use misp_copies::{event_row, is_itself, is_owned};
use misp_elem::{Content, EventBody, KeyForm, Row, RowFields, Shared};
use misp_ids::{EventId, Label, NoMemory, OrgId, Stamp};
use std::alloc::Global;

// The event, published at this moment.
fn published_body(
    alloc: Global,
    body: &EventBody,
    now: Stamp,
) -> Result<Shared<EventBody>, NoMemory>
    ensures { IfOk result (λ made. made ≡ record body.now { publish_stamp = now }) }
{
    let mut made = body.clone()?;
    made.publish_stamp = now;
    Ok(Shared::of(alloc, made)?)
}

// The content, published at this moment.
#[tactic(auto, unfolding(misp_model::specs::Edits::at_publishing))]
fn published(alloc: Global, content: &Content, now: Stamp) -> Result<Content, NoMemory>
    ensures { IfOk result (λ made. made ≡ asking.at_publishing now content.now) }
{
    match content {
        Content::Event(body) => Ok(Content::Event(published_body(alloc, body, now)?)),
        _ => Ok(content.clone()?),
    }
}

fn owner_of(row: &Row) -> OrgId
    ensures { result ≡ row.now.owner }
{
    row.owner
}

fn key_of(row: &Row) -> KeyForm
    ensures { result ≡ row.now.key }
{
    row.key.form
}

fn label_of(row: &Row) -> Label
    ensures { result ≡ row.now.label }
{
    row.label
}

fn published_content(alloc: Global, row: &Row, now: Stamp) -> Result<Content, NoMemory>
    ensures { IfOk result (λ made. made ≡ asking.at_publishing now row.now.content) }
{
    published(alloc, &row.content, now)
}

// The event's own row, published at this moment under this stamp.
#[tactic(auto, unfolding(crate::specs::Release::at_stamp))]
fn published_row(alloc: Global, row: &Row, stamp: Stamp, now: Stamp) -> Result<Row, NoMemory>
    ensures value { IfOk result (λ made. made ≡ at_stamp stamp now row.now) }
    ensures is_row { IfOk result IsRow }
{
    let (_stamp, _now, _held) = (stamp.get(), now.get(), row.held);
    let content = published_content(alloc, row, now)?;
    let (owner, key, label) = (owner_of(row), key_of(row), label_of(row));
    Ok(Row::of(RowFields {
        owner,
        key,
        stamp,
        label,
        held: false,
        carried: false,
        content,
    }))
}

// The row with no hold.
#[tactic(auto, unfolding(crate::specs::Release::cleared_row))]
fn cleared(row: &Row) -> Result<Row, NoMemory>
    ensures value { IfOk result (λ made. made ≡ cleared_row row.now) }
    ensures is_row { IfOk result IsRow }
{
    Ok(Row::of(RowFields {
        owner: row.owner,
        key: row.key.form,
        stamp: row.stamp,
        label: row.label,
        held: false,
        carried: false,
        content: row.content.clone()?,
    }))
}

// Whether it is a held row of the owner's copy of the event, and not that of the event itself.
#[tactic(auto, unfolding(crate::specs::Release::is_released, misp_ids::specs::Same::same_event))]
fn is_released(row: &Row, owner: &OrgId, event: &EventId) -> bool
    ensures { result ≡ is_released owner.now event.now row.now }
{
    is_owned(row, owner)
        && (row.key.event().0.0 == event.0.0 && (row.held && !is_itself(row, event)))
}

// The rows, and after them the held ones of the copy with no hold.
fn with_cleared(
    mut made: Vec<Row>,
    rows: &[Row],
    owner: &OrgId,
    event: &EventId,
) -> Result<Vec<Row>, NoMemory>
    requires { AreRows made.items }
    ensures all { IfOk result (λ all. all.items
        ≡ made.items ++ map cleared_row (filter (is_released owner.now event.now) rows.now)) }
    ensures are_rows { IfOk result (λ all. AreRows all.items) }
{
    for row in rows {
        if is_released(row, owner, event) {
            made.push(cleared(row)?)?;
        }
    }
    Ok(made)
}

// What a publishing of the event writes, where this is the owner's row of it.
pub(crate) fn release_event(
    alloc: Global,
    event: &EventId,
    own: &Row,
    rows: &[Row],
    owner: &OrgId,
    now: Stamp,
) -> Result<Vec<Row>, PublishFault>
    ensures ok { (s : Scene) → s.rows ≡ rows.now → s.by ≡ owner.now → s.now ≡ now →
        own_row s (event_key event.now) ≡ Some own.now →
        IfOk result (λ made. Publishes s event.now made.items) }
    ensures limit { (s : Scene) → own_row s (event_key event.now) ≡ Some own.now →
        IfErr result (λ fault.
        fault ≡ faults.TimeLimit → is_at_limit s (event_key event.now) ≡ true) }
    ensures are_rows { IfOk result (λ made. AreRows made.items) }
{
    let stamp = match Stamp::next(own.stamp, now) {
        Some(stamp) => stamp,
        None => return Err(PublishFault::TimeLimit),
    };
    let mut made = Vec::with_capacity(alloc, 1)?;
    made.push(published_row(alloc, own, stamp, now)?)?;
    Ok(with_cleared(made, rows, owner, event)?)
}

fn event_of(row: &Row) -> EventId
    ensures { result ≡ event_of row.now.key }
{
    row.key.event()
}

/// The rows that a publishing of the owner's copy writes, where the rows are those of one event and
/// the copy is there: the event's own with a later stamp, published at this moment and with no
/// hold, and each held row of the copy with no hold.
pub fn release(
    alloc: Global,
    rows: &[Row],
    owner: &OrgId,
    now: Stamp,
) -> Result<Vec<Row>, PublishFault>
    requires there { is_some (find (is_event_row owner.now) rows.now) ≡ true }
    ensures ok { (s : Scene) (e : SomeEvent) →
        AreOf e rows.now → s.rows ≡ rows.now → s.by ≡ owner.now → s.now ≡ now →
        IfOk result (λ made. Publishes s e made.items) }
    ensures limit { (s : Scene) (e : SomeEvent) →
        AreOf e rows.now → s.rows ≡ rows.now → s.by ≡ owner.now →
        IfErr result (λ fault. fault ≡ faults.TimeLimit → is_at_limit s (event_key e) ≡ true) }
    ensures are_rows { IfOk result (λ made. AreRows made.items) }
{
    match event_row(rows, owner) {
        Some(own) => release_event(alloc, &event_of(own), own, rows, owner, now),
        None => unreachable!(),
    }
}
