//! Reading what is in a row.

ghost use Rattle.std.specs.Prelude.{◌≡◌};
ghost use Rattle.misp_elem.specs.Contents.{is_removal, least_kind};
ghost use Rattle.misp_elem.specs.Reading.{Reads, Gives};
ghost use Rattle.misp_elem.specs.ContentReading.{event_body_at, object_body_at, attribute_body_at, reference_body_at, removal_at, proposed_value_at, proposal_body_at, sighting_body_at};

use crate::content::{
    AttributeBody, EventBody, ObjectBody, ProposalBody, ReferenceBody, SightingBody,
};
use crate::fault::{BadField, Stop};
use crate::reading::Reader;
use crate::reading::fields::room_after;
use crate::reading::seen::earliest;
use crate::reading::tags::room_after_tags;
use crate::row::RowForm;
use misp_ids::Text;
use std::alloc::Global;

const TEXT_LIMIT: usize = 16384;

/// The fewest bytes of the type in a proposal.
fn least_kind(remove: bool) -> usize
    ensures { result ≡ least_kind remove }
{
    if remove { 0 } else { 1 }
}

impl Reader<'_> {
    #[tactic(auto, unfolding(crate::specs::ContentReading::event_body_at))]
    pub(super) fn event_body(&mut self, alloc: Global) -> Result<EventBody, Stop>
        ensures { Gives result self.new (event_body_at self.old) }
    {
        let info = self.text(alloc, 1, TEXT_LIMIT)?;
        let date = self.date(alloc)?;
        let threat_level_id = self.between(1, 4)?;
        let analysis = self.between(0, 2)?;
        let publish_stamp = self.stamp()?;
        let extends_uuid = self.optional_uid()?;
        let orgc = self.org()?;
        let orgc_name = self.text(alloc, 0, 64)?;
        let tags = self.tags(alloc, room_after(TEXT_LIMIT, &info))?;
        Ok(EventBody {
            info,
            date,
            threat_level_id,
            analysis,
            publish_stamp,
            extends_uuid,
            orgc,
            orgc_name,
            tags,
        })
    }

    #[tactic(auto, unfolding(crate::specs::ContentReading::object_body_at))]
    pub(super) fn object_body(&mut self, alloc: Global) -> Result<ObjectBody, Stop>
        ensures { Gives result self.new (object_body_at self.old) }
    {
        let name = self.text(alloc, 1, TEXT_LIMIT)?;
        let after_name = room_after(TEXT_LIMIT, &name);
        let meta_category = self.text(alloc, 0, after_name)?;
        let after_category = room_after(after_name, &meta_category);
        let description = self.text(alloc, 0, after_category)?;
        let comment = self.text(alloc, 0, room_after(after_category, &description))?;
        let template_uuid = self.optional_uid()?;
        let template_version = self.u64()?;
        let deleted = self.flag()?;
        Ok(ObjectBody {
            name,
            meta_category,
            description,
            comment,
            template_uuid,
            template_version,
            deleted,
        })
    }

    #[tactic(auto, unfolding(crate::specs::ContentReading::attribute_body_at))]
    pub(super) fn attribute_body(
        &mut self,
        alloc: Global,
        form: RowForm,
    ) -> Result<AttributeBody, Stop>
        ensures { Gives result self.new (attribute_body_at form self.old) }
    {
        let kind = self.text(alloc, 1, 100)?;
        let category = self.between(0, 15)?;
        let to_ids = self.flag()?;
        let after_kind = room_after(TEXT_LIMIT, &kind);
        let comment = self.text(alloc, 0, after_kind)?;
        let deleted = self.flag()?;
        let after_comment = room_after(after_kind, &comment);
        let value = self.value(alloc, after_comment, kind.as_str())?;
        let after_value = room_after(after_comment, &value);
        let tags = self.tags(alloc, after_value)?;
        let after_tags = room_after_tags(after_value, &tags);
        let object_relation = self.relation(alloc, form, after_tags)?;
        let first_seen = self.seen(form, 0)?;
        let last_seen = self.seen(form, earliest(&first_seen))?;
        Ok(AttributeBody {
            kind,
            category,
            to_ids,
            comment,
            deleted,
            value,
            tags,
            object_relation,
            first_seen,
            last_seen,
        })
    }

    #[tactic(auto, unfolding(crate::specs::ContentReading::reference_body_at))]
    pub(super) fn reference_body(&mut self, alloc: Global) -> Result<ReferenceBody, Stop>
        ensures { Gives result self.new (reference_body_at self.old) }
    {
        let relationship_type = self.text(alloc, 0, TEXT_LIMIT)?;
        let comment = self.text(alloc, 0, room_after(TEXT_LIMIT, &relationship_type))?;
        let deleted = self.flag()?;
        Ok(ReferenceBody {
            relationship_type,
            comment,
            deleted,
        })
    }

    #[tactic(auto, unfolding(crate::specs::ContentReading::removal_at))]
    fn removal(&mut self, may: bool) -> Result<bool, BadField>
        ensures { Reads result self.new (removal_at may self.old) }
    {
        let bad = self.bad();
        let remove = self.flag()?;
        if may || !remove { Ok(remove) } else { Err(bad) }
    }

    #[tactic(auto, unfolding(crate::specs::ContentReading::proposed_value_at))]
    fn proposed_value(
        &mut self,
        alloc: Global,
        remove: bool,
        room: usize,
        kind: &str,
    ) -> Result<Text, Stop>
        ensures { Gives result self.new (proposed_value_at remove room kind.now self.old) }
    {
        if remove {
            self.text(alloc, 0, 0)
        } else {
            self.value(alloc, room, kind)
        }
    }

    #[tactic(auto, unfolding(crate::specs::ContentReading::proposal_body_at))]
    pub(super) fn proposal_body(&mut self, alloc: Global, may: bool) -> Result<ProposalBody, Stop>
        ensures { Gives result self.new (proposal_body_at may self.old) }
    {
        let remove = self.removal(may)?;
        let by_name = self.text(alloc, 0, 64)?;
        let kind = self.text(alloc, least_kind(remove), 100)?;
        let category = self.between(0, 15)?;
        let to_ids = self.flag()?;
        let after_kind = room_after(TEXT_LIMIT, &kind);
        let comment = self.text(alloc, 0, after_kind)?;
        let after_comment = room_after(after_kind, &comment);
        let value = self.proposed_value(alloc, remove, after_comment, kind.as_str())?;
        Ok(ProposalBody {
            remove,
            by_name,
            kind,
            category,
            to_ids,
            comment,
            value,
        })
    }

    #[tactic(auto, unfolding(crate::specs::ContentReading::sighting_body_at))]
    pub(super) fn sighting_body(&mut self, alloc: Global) -> Result<SightingBody, Stop>
        ensures { Gives result self.new (sighting_body_at self.old) }
    {
        let by_name = self.text(alloc, 0, 64)?;
        let kind = self.between(0, 2)?;
        let date = self.stamp()?;
        let source = self.text(alloc, 0, TEXT_LIMIT)?;
        Ok(SightingBody {
            by_name,
            kind,
            date,
            source,
        })
    }
}
