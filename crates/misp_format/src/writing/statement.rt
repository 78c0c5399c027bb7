//! References, proposals and sightings as they are written.

ghost use Rattle.std.specs.Prelude.{◌≡◌, OnOk};
ghost use Rattle.misp_elem.specs.declared.content.Content.TheVariants as contents;
ghost use Rattle.misp_format.specs.Tokens.{put_value};
ghost use Rattle.misp_format.specs.Written.{place_uuid, reference_with, proposal_with, sighting_with};

use crate::kinds::category_name;
use crate::writing::group_names::GroupNames;
use crate::writing::keys::place_uuid;
use crate::writing::listed::Listed;
use crate::writing::writer::Writer;
use misp_elem::{
    Content, KeyForm, Place, ProposalBody, ProposalName, ReferenceBody, Row, SightingBody,
};
use misp_ids::{ElemId, EventId, NoMemory, OrgId, Stamp};

/// The references of an object.
pub(crate) struct References;

impl Listed for References {
    ghost use Rattle.misp_format.specs.Written.{reference_data};

    type Item = Row;

    ghost value = { λ _. reference_data };

    #[tactic(auto, unfolding(crate::specs::Written::reference_data))]
    fn put(out: &mut Writer, _names: &GroupNames, row: &Row) -> Result<(), NoMemory> {
        match (row.key.form, &row.content) {
            (
                KeyForm::Reference {
                    event,
                    target,
                    uuid,
                    ..
                },
                Content::Reference(body),
            ) => put_reference(out, row.stamp, event, target, uuid, body),
            _ => out.null(),
        }
    }
}

fn put_reference(
    out: &mut Writer,
    stamp: Stamp,
    event: EventId,
    target: Place,
    uuid: ElemId,
    body: &ReferenceBody,
) -> Result<(), NoMemory>
    ensures { OnOk result (out.new
        ≡ put_value (reference_with stamp (place_uuid event target) uuid
        (contents.Reference body.now)) out.old) }
{
    out.begin_object()?;
    out.text("comment", body.comment.as_str())?;
    out.flag("deleted", body.deleted)?;
    out.uuid("referenced_uuid", &place_uuid(event, target))?;
    out.text("relationship_type", body.relationship_type.as_str())?;
    out.number("timestamp", stamp.get())?;
    out.uuid("uuid", &uuid.0)?;
    out.end_object()?;
    Ok(())
}

/// The open proposals to an attribute or an event.
pub(crate) struct Proposals;

impl Listed for Proposals {
    ghost use Rattle.misp_format.specs.Written.{proposal_data};

    type Item = Row;

    ghost value = { λ _. proposal_data };

    #[tactic(auto, unfolding(crate::specs::Written::proposal_data))]
    fn put(out: &mut Writer, _names: &GroupNames, row: &Row) -> Result<(), NoMemory> {
        match (row.key.form, &row.content) {
            (KeyForm::Proposal { name, .. }, Content::Proposal(body)) => {
                put_proposal(out, row.stamp, &name, body)
            }
            _ => out.null(),
        }
    }
}

fn put_proposal(
    out: &mut Writer,
    stamp: Stamp,
    name: &ProposalName,
    body: &ProposalBody,
) -> Result<(), NoMemory>
    ensures { OnOk result (out.new ≡ put_value
        (proposal_with stamp name.now (contents.Proposal body.now)) out.old) }
{
    out.begin_object()?;
    out.org("Org", &name.by, body.by_name.as_str())?;
    out.text("category", category_name(body.category))?;
    out.text("comment", body.comment.as_str())?;
    out.text("origin", name.at.text())?;
    out.flag("proposal_to_delete", body.remove)?;
    out.number("timestamp", stamp.get())?;
    out.flag("to_ids", body.to_ids)?;
    out.text("type", body.kind.as_str())?;
    out.uuid("uuid", &name.uuid.0)?;
    out.text("value", body.value.as_str())?;
    out.end_object()?;
    Ok(())
}

/// The sightings of an attribute.
pub(crate) struct Sightings;

impl Listed for Sightings {
    ghost use Rattle.misp_format.specs.Written.{sighting_data};

    type Item = Row;

    ghost value = { λ _. sighting_data };

    #[tactic(auto, unfolding(crate::specs::Written::sighting_data))]
    fn put(out: &mut Writer, _names: &GroupNames, row: &Row) -> Result<(), NoMemory> {
        match (row.key.form, &row.content) {
            (KeyForm::Sighting { by, uuid, .. }, Content::Sighting(body)) => {
                put_sighting(out, &by, uuid, body)
            }
            _ => out.null(),
        }
    }
}

fn put_sighting(
    out: &mut Writer,
    by: &OrgId,
    uuid: ElemId,
    body: &SightingBody,
) -> Result<(), NoMemory>
    ensures { OnOk result (out.new ≡ put_value
        (sighting_with by.now uuid (contents.Sighting body.now)) out.old) }
{
    out.begin_object()?;
    out.org("Organisation", by, body.by_name.as_str())?;
    out.number("date_sighting", body.date.get())?;
    out.text("source", body.source.as_str())?;
    out.number("type", u64::from(body.kind))?;
    out.uuid("uuid", &uuid.0)?;
    out.end_object()?;
    Ok(())
}
