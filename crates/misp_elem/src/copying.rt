//! Copies of contents and rows.

ghost use Rattle.std.specs.Prelude.{◌≡◌, IfOk};

use crate::content::{
    AttributeBody, Content, EventBody, ObjectBody, ProposalBody, ReferenceBody, SightingBody, Tag,
};
use crate::row::Row;
use misp_ids::Items;
use std::alloc::AllocError;

impl Clone for Tag {
    ghost is_clone = { λ tag copy. copy ≡ tag };

    fn clone(&self) -> Result<Tag, AllocError> {
        Ok(Tag {
            name: self.name.clone()?,
            colour: self.colour,
            exportable: self.exportable,
        })
    }
}

fn copy_of(tags: &Items<Tag>) -> Result<Items<Tag>, AllocError>
    ensures { IfOk result (λ copy. copy ≡ tags.now) }
{
    let copy = tags.clone()?;
    Ok(copy)
}

impl Clone for EventBody {
    ghost is_clone = { λ body copy. copy ≡ body };

    fn clone(&self) -> Result<EventBody, AllocError> {
        Ok(EventBody {
            info: self.info.clone()?,
            date: self.date.clone()?,
            threat_level_id: self.threat_level_id,
            analysis: self.analysis,
            publish_stamp: self.publish_stamp,
            extends_uuid: self.extends_uuid,
            orgc: self.orgc,
            orgc_name: self.orgc_name.clone()?,
            tags: copy_of(&self.tags)?,
        })
    }
}

impl Clone for ObjectBody {
    ghost is_clone = { λ body copy. copy ≡ body };

    fn clone(&self) -> Result<ObjectBody, AllocError> {
        Ok(ObjectBody {
            name: self.name.clone()?,
            meta_category: self.meta_category.clone()?,
            description: self.description.clone()?,
            comment: self.comment.clone()?,
            template_uuid: self.template_uuid,
            template_version: self.template_version,
            deleted: self.deleted,
        })
    }
}

impl Clone for AttributeBody {
    ghost is_clone = { λ body copy. copy ≡ body };

    fn clone(&self) -> Result<AttributeBody, AllocError> {
        Ok(AttributeBody {
            kind: self.kind.clone()?,
            category: self.category,
            to_ids: self.to_ids,
            comment: self.comment.clone()?,
            deleted: self.deleted,
            value: self.value.clone()?,
            tags: copy_of(&self.tags)?,
            object_relation: self.object_relation.clone()?,
            first_seen: self.first_seen,
            last_seen: self.last_seen,
        })
    }
}

impl Clone for ReferenceBody {
    ghost is_clone = { λ body copy. copy ≡ body };

    fn clone(&self) -> Result<ReferenceBody, AllocError> {
        Ok(ReferenceBody {
            relationship_type: self.relationship_type.clone()?,
            comment: self.comment.clone()?,
            deleted: self.deleted,
        })
    }
}

impl Clone for ProposalBody {
    ghost is_clone = { λ body copy. copy ≡ body };

    fn clone(&self) -> Result<ProposalBody, AllocError> {
        Ok(ProposalBody {
            remove: self.remove,
            by_name: self.by_name.clone()?,
            kind: self.kind.clone()?,
            category: self.category,
            to_ids: self.to_ids,
            comment: self.comment.clone()?,
            value: self.value.clone()?,
        })
    }
}

impl Clone for SightingBody {
    ghost is_clone = { λ body copy. copy ≡ body };

    fn clone(&self) -> Result<SightingBody, AllocError> {
        Ok(SightingBody {
            by_name: self.by_name.clone()?,
            kind: self.kind,
            date: self.date,
            source: self.source.clone()?,
        })
    }
}

impl Clone for Content {
    ghost is_clone = { λ content copy. copy ≡ content };

    fn clone(&self) -> Result<Content, AllocError> {
        Ok(match self {
            Content::Event(body) => Content::Event(body.clone()?),
            Content::Object(body) => Content::Object(body.clone()?),
            Content::Attribute(body) => Content::Attribute(body.clone()?),
            Content::Reference(body) => Content::Reference(body.clone()?),
            Content::Proposal(body) => Content::Proposal(body.clone()?),
            Content::Verdict(is_accepted) => Content::Verdict(*is_accepted),
            Content::Sighting(body) => Content::Sighting(body.clone()?),
            Content::Gone => Content::Gone,
        })
    }
}

impl Clone for Row {
    ghost is_clone = { λ row copy. copy ≡ row };

    fn clone(&self) -> Result<Row, AllocError> {
        let content = self.content.clone()?;
        Ok(Row {
            owner: self.owner,
            key: self.key,
            stamp: self.stamp,
            label: self.label,
            held: self.held,
            carried: self.carried,
            content,
        })
    }
}
