//! A row on the wire.

ghost use Rattle.std.specs.Prelude.{◌≡◌, true, IfOk};
ghost use Rattle.misp_elem.specs.Row.{IsRow};
ghost use Rattle.misp_history.specs.History.{exportable, without_local_tags};
ghost use Rattle.misp_package.specs.Packing.{is_whole, on_wire};

use misp_elem::{AttributeBody, Content, EventBody, Row, Shared, Tag};
use misp_ids::{Items, NoMemory, OrgId, Uid, Way};
use misp_levels::landed;
use std::alloc::Global;

// Those of the tags that are exportable.
#[tactic(auto, unfolding(misp_history::specs::History::exportable))]
fn exportable(tags: Items<Tag>) -> Items<Tag>
    ensures { result ≡ exportable tags }
{
    let mut tags = tags.into_vec();
    tags.retain(|tag| tag.exportable);
    Items::of(tags)
}

// The event without the tags that are not.
fn event_without(alloc: Global, body: &EventBody) -> Result<Shared<EventBody>, NoMemory>
    ensures { IfOk result (λ kept. kept ≡ record body.now { tags = exportable body.now.tags }) }
{
    let copy = body.clone()?;
    let kept = EventBody {
        info: copy.info,
        date: copy.date,
        threat_level_id: copy.threat_level_id,
        analysis: copy.analysis,
        publish_stamp: copy.publish_stamp,
        extends_uuid: copy.extends_uuid,
        orgc: copy.orgc,
        orgc_name: copy.orgc_name,
        tags: exportable(copy.tags),
    };
    Ok(Shared::of(alloc, kept)?)
}

// The attribute without the tags that are not.
fn attribute_without(alloc: Global, body: &AttributeBody) -> Result<Shared<AttributeBody>, NoMemory>
    ensures { IfOk result (λ kept. kept ≡ record body.now { tags = exportable body.now.tags }) }
{
    let copy = body.clone()?;
    let kept = AttributeBody {
        kind: copy.kind,
        category: copy.category,
        to_ids: copy.to_ids,
        comment: copy.comment,
        deleted: copy.deleted,
        value: copy.value,
        tags: exportable(copy.tags),
        object_relation: copy.object_relation,
        first_seen: copy.first_seen,
        last_seen: copy.last_seen,
    };
    Ok(Shared::of(alloc, kept)?)
}

// The content without the tags that are not exportable.
#[tactic(auto, unfolding(misp_history::specs::History::without_local_tags))]
fn without_local_tags(alloc: Global, content: &Content) -> Result<Content, NoMemory>
    ensures { IfOk result (λ kept. kept ≡ without_local_tags content.now) }
{
    match content {
        Content::Event(body) => Ok(Content::Event(event_without(alloc, body)?)),
        Content::Attribute(body) => Ok(Content::Attribute(attribute_without(alloc, body)?)),
        _ => Ok(content.clone()?),
    }
}

/// The row as it arrives on this way at nobody.
#[tactic(auto, unfolding(crate::specs::Packing::on_wire))]
pub(crate) fn on_wire(alloc: Global, way: Way, row: &Row) -> Result<Row, NoMemory>
    requires { is_whole row.now ≡ true }
    ensures wired { IfOk result (λ r. r ≡ on_wire way row.now) }
    ensures row { IsRow (on_wire way row.now) }
{
    let content = without_local_tags(alloc, &row.content)?;
    Ok(Row {
        owner: OrgId(Uid(0)),
        key: row.key,
        stamp: row.stamp,
        label: landed(way, &row.label),
        held: false,
        carried: true,
        content,
    })
}
