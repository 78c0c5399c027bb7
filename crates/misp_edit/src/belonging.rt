//! Whether what a body brings has its objects there.

ghost use Rattle.std.specs.Prelude.{◌≡◌, ◌&&◌, IfOk};
ghost use Rattle.std.specs.List.{list_all};
ghost use Rattle.misp_edit.specs.Objects.{has_object, part_belongs, reference_belongs, all_belong, is_brought, is_live_object};
ghost use Rattle.misp_edit.specs.Targets.{target_in};

use crate::objects::{Objects, brought_objects, live_objects};
use crate::targets::Targets;
use misp_elem::{Draft, Place, ReferenceDraft, Row, Submission};
use misp_ids::{NoMemory, OrgId};
use std::alloc::Global;

#[tactic(auto, unfolding(crate::specs::Objects::part_belongs))]
fn part_belongs(place: Place, brought: &Objects, live: &Objects) -> bool
    ensures { result ≡ part_belongs (has_object brought.now) (has_object live.now) place }
{
    match place {
        Place::ObjectAttribute(object, _) => {
            brought.contains(&object.0.0) || live.contains(&object.0.0)
        }
        _ => true,
    }
}

fn parts_belong(parts: &[Draft], brought: &Objects, live: &Objects) -> bool
    ensures { result ≡ list_all
        (λ d. part_belongs (has_object brought.now) (has_object live.now) d.place) parts.now }
{
    parts
        .iter()
        .all(|draft| part_belongs(draft.place, brought, live))
}

#[tactic(auto, unfolding(crate::specs::Objects::reference_belongs))]
fn reference_belongs(
    reference: &ReferenceDraft,
    brought: &Objects,
    live: &Objects,
    targets: &Targets,
) -> bool
    ensures { result ≡ reference_belongs (has_object brought.now) (has_object live.now)
        (target_in targets.now) reference.now }
{
    let object = reference.object.0.0;
    brought.contains(&object)
        || live.contains(&object) && targets.contains_key(&reference.referenced.0.0)
}

fn references_belong(
    references: &[ReferenceDraft],
    brought: &Objects,
    live: &Objects,
    targets: &Targets,
) -> bool
    ensures { result ≡ list_all (reference_belongs (has_object brought.now) (has_object live.now)
        (target_in targets.now)) references.now }
{
    references.iter().all(|reference| reference_belongs(reference, brought, live, targets))
}

// Whether each part and each reference has its object in the body or, live, in the owner's copy,
// and a reference of the latter its target.
#[tactic(auto, unfolding(crate::specs::Objects::all_belong))]
pub(crate) fn all_belong(
    alloc: Global,
    submission: &Submission,
    targets: &Targets,
    rows: &[Row],
    owner: OrgId,
) -> Result<bool, NoMemory>
    ensures { IfOk result (λ fits. fits ≡ all_belong (is_brought submission.now.parts)
        (is_live_object rows.now owner submission.now.event)
        (target_in targets.now) submission.now) }
{
    let parts = submission.parts.as_slice();
    let brought = brought_objects(alloc, parts)?;
    let live = live_objects(alloc, rows, owner, submission.event)?;
    Ok(
        parts_belong(parts, &brought, &live)
            && references_belong(submission.references.as_slice(), &brought, &live, targets),
    )
}
