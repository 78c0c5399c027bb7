//! Writing what is in a row.

ghost use Rattle.std.specs.Prelude.{◌≡◌, ◌++◌, true, OnOk};
ghost use Rattle.misp_elem.specs.Contents.{IsEventBody, IsObjectBody, IsAttributeBody, IsReferenceBody, IsProposalBody, IsSightingBody, IsContent};
ghost use Rattle.misp_elem.specs.Spelling as spelling;
ghost use Rattle.misp_elem.specs.declared.row.RowForm.TheVariants.{Second};

use crate::content::{
    AttributeBody, Content, EventBody, ObjectBody, ProposalBody, ReferenceBody, SightingBody,
};
use crate::writing::fields::{
    put_byte, put_flag, put_optional_moment, put_optional_uid, put_stamp, put_text, put_u64,
};
use crate::writing::put_uid;
use crate::writing::tags::put_tags;
use std::alloc::AllocError;

fn put_event_body(out: &mut Vec<u8>, body: &EventBody) -> Result<(), AllocError>
    requires { IsEventBody body.now }
    ensures { OnOk result (out.new.items ≡ out.old.items ++ spelling.event_body body.now) }
{
    put_text(out, &body.info)?;
    put_text(out, &body.date)?;
    put_byte(out, body.threat_level_id)?;
    put_byte(out, body.analysis)?;
    put_stamp(out, body.publish_stamp)?;
    put_optional_uid(out, body.extends_uuid)?;
    put_uid(out, body.orgc.0)?;
    put_text(out, &body.orgc_name)?;
    put_tags(out, body.tags.as_slice())?;
    Ok(())
}

fn put_object_body(out: &mut Vec<u8>, body: &ObjectBody) -> Result<(), AllocError>
    requires { IsObjectBody body.now }
    ensures { OnOk result (out.new.items ≡ out.old.items ++ spelling.object_body body.now) }
{
    put_text(out, &body.name)?;
    put_text(out, &body.meta_category)?;
    put_text(out, &body.description)?;
    put_text(out, &body.comment)?;
    put_optional_uid(out, body.template_uuid)?;
    put_u64(out, body.template_version)?;
    put_flag(out, body.deleted)?;
    Ok(())
}

fn put_attribute_body(out: &mut Vec<u8>, body: &AttributeBody) -> Result<(), AllocError>
    requires { IsAttributeBody body.now }
    ensures { OnOk result (out.new.items ≡ out.old.items ++ spelling.attribute_body Second body.now) }
{
    put_text(out, &body.kind)?;
    put_byte(out, body.category)?;
    put_flag(out, body.to_ids)?;
    put_text(out, &body.comment)?;
    put_flag(out, body.deleted)?;
    put_text(out, &body.value)?;
    put_tags(out, body.tags.as_slice())?;
    put_text(out, &body.object_relation)?;
    put_optional_moment(out, body.first_seen)?;
    put_optional_moment(out, body.last_seen)?;
    Ok(())
}

fn put_reference_body(out: &mut Vec<u8>, body: &ReferenceBody) -> Result<(), AllocError>
    requires { IsReferenceBody body.now }
    ensures { OnOk result (out.new.items ≡ out.old.items ++ spelling.reference_body body.now) }
{
    put_text(out, &body.relationship_type)?;
    put_text(out, &body.comment)?;
    put_flag(out, body.deleted)
}

fn put_proposal_body(out: &mut Vec<u8>, body: &ProposalBody) -> Result<(), AllocError>
    requires { IsProposalBody true body.now }
    ensures { OnOk result (out.new.items ≡ out.old.items ++ spelling.proposal_body body.now) }
{
    put_flag(out, body.remove)?;
    put_text(out, &body.by_name)?;
    put_text(out, &body.kind)?;
    put_byte(out, body.category)?;
    put_flag(out, body.to_ids)?;
    put_text(out, &body.comment)?;
    put_text(out, &body.value)?;
    Ok(())
}

fn put_sighting_body(out: &mut Vec<u8>, body: &SightingBody) -> Result<(), AllocError>
    requires { IsSightingBody body.now }
    ensures { OnOk result (out.new.items ≡ out.old.items ++ spelling.sighting_body body.now) }
{
    put_text(out, &body.by_name)?;
    put_byte(out, body.kind)?;
    put_stamp(out, body.date)?;
    put_text(out, &body.source)
}

pub(super) fn put_content(out: &mut Vec<u8>, content: &Content) -> Result<(), AllocError>
    requires { IsContent true content.now }
    ensures { OnOk result (out.new.items ≡ out.old.items ++ spelling.content content.now) }
{
    match content {
        Content::Event(body) => {
            put_byte(out, 0)?;
            put_event_body(out, body)
        }
        Content::Object(body) => {
            put_byte(out, 1)?;
            put_object_body(out, body)
        }
        Content::Attribute(body) => {
            put_byte(out, 2)?;
            put_attribute_body(out, body)
        }
        Content::Reference(body) => {
            put_byte(out, 3)?;
            put_reference_body(out, body)
        }
        Content::Proposal(body) => {
            put_byte(out, 4)?;
            put_proposal_body(out, body)
        }
        Content::Verdict(is_accepted) => {
            put_byte(out, 5)?;
            put_flag(out, *is_accepted)
        }
        Content::Sighting(body) => {
            put_byte(out, 6)?;
            put_sighting_body(out, body)
        }
        Content::Gone => put_byte(out, 7),
    }
}
