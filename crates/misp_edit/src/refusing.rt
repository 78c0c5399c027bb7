//! The rules that refuse what a body brings, and those that refuse to add an event.

ghost use Rattle.std.specs.Prelude.{◌≡◌, ℕ, List, IfOk, IfErr, OnOk, None};
ghost use Rattle.misp_ids.specs.Uid.{text_of};
ghost use Rattle.misp_ids.specs.Moments.{Stamp};
ghost use Rattle.misp_model.specs.declared.change.Change.TheVariants.{AddEvent};
ghost use Rattle.misp_model.specs.Scene.{first_rule};
ghost use Rattle.misp_copies.specs.Scenes.{scene_of};
ghost use Rattle.misp_edit.specs.Adding.{refusing};
ghost use Rattle.misp_edit.specs.Refusals.{Refuses, Tells, brought_refusal, brought_rules};
ghost use Rattle.misp_edit.specs.Targets.{target_places, AreTargets};

use crate::clash::first_clash;
use crate::fault::AddFault;
use crate::labels::first_unusable;
use crate::targets::{Targets, targets};
use misp_copies::{has_copy, has_gone};
use misp_elem::{Row, Submission};
use misp_groups::Groups;
use misp_ids::{InstId, NoMemory, OrgId, Refusal, RuleName, Uid};
use std::alloc::Global;

// The refusal by a rule that names this uuid.
fn refused(alloc: Global, name: RuleName, uuid: Uid) -> Result<AddFault, NoMemory>
    ensures { IfOk result (λ fault.
        fault ≡ AddFault.Refused (record { name = name; place = text_of uuid })) }
{
    let place = uuid.to_text(alloc)?;
    Ok(AddFault::Refused(Refusal { name, place }))
}

// The refusal of what a body brings, if a uuid clashes, or if a label may not be used.
pub(crate) fn look_at_brought(
    alloc: Global,
    submission: &Submission,
    targets: &Targets,
    owner: OrgId,
    groups: &Groups,
    here: &InstId,
    rows: &[Row],
) -> Result<(), AddFault>
    requires { AreTargets targets.now
        (target_places rows.now owner submission.now.event submission.now.parts) }
    ensures err { (act : ℕ) (name : List ℕ) (now : Stamp) (today : List ℕ) → IfErr result
        (Tells (brought_refusal
        (scene_of act here.now owner name now today groups.now rows.now) submission.now)) }
    ensures ok { (act : ℕ) (name : List ℕ) (now : Stamp) (today : List ℕ) → OnOk result
        (first_rule (brought_rules
        (scene_of act here.now owner name now today groups.now rows.now) submission.now)
        ≡ None) }
{
    if let Some(uuid) = first_clash(alloc, submission, targets, rows, owner)? {
        return Err(refused(alloc, RuleName::ElementExists, Uid(uuid))?);
    }
    match first_unusable(
        submission.label,
        submission.parts.as_slice(),
        groups,
        here,
        &owner,
    ) {
        Some(group) => Err(refused(alloc, RuleName::GroupNotUsable, group.uuid)?),
        None => Ok(()),
    }
}

// The refusal by the first rule that refuses, or, where none does, what the references name.
pub(crate) fn admitted(
    alloc: Global,
    submission: &Submission,
    owner: OrgId,
    groups: &Groups,
    here: &InstId,
    rows: &[Row],
) -> Result<Targets, AddFault>
    ensures err { (act : ℕ) (name : List ℕ) (now : Stamp) (today : List ℕ) → IfErr result
        (Refuses (scene_of act here.now owner name now today groups.now rows.now)
        (AddEvent submission.now)) }
    ensures ok { (act : ℕ) (name : List ℕ) (now : Stamp) (today : List ℕ) → OnOk result
        (refusing (scene_of act here.now owner name now today groups.now rows.now)
        submission.now ≡ None) }
    ensures targets { IfOk result (λ targets.
        AreTargets targets
        (target_places rows.now owner submission.now.event submission.now.parts)) }
{
    let event = submission.event;
    if has_copy(rows, &owner, &event) {
        return Err(AddFault::Refused(Refusal::bare(alloc, RuleName::EventExists)));
    }
    if has_gone(rows, &owner, &event) {
        return Err(AddFault::Refused(Refusal::bare(alloc, RuleName::EventGone)));
    }
    let targets = targets(alloc, submission.parts.as_slice(), rows, owner, event)?;
    match look_at_brought(alloc, submission, &targets, owner, groups, here, rows) {
        Err(fault) => Err(fault),
        Ok(()) => Ok(targets),
    }
}
