//! Adding parts to an event.

ghost use Rattle.std.specs.Prelude.{◌≡◌, ℕ, List, IfOk, IfErr, OnOk, None};
ghost use Rattle.misp_ids.specs.Moments.{Stamp as Moment};
ghost use Rattle.misp_ids.specs.declared.uid.EventId.{EventId as Event};
ghost use Rattle.misp_elem.specs.Row.{AreRows};
ghost use Rattle.misp_model.specs.declared.change.Change.TheVariants.{AddParts};
ghost use Rattle.misp_model.specs.Changing.{change_rules};
ghost use Rattle.misp_model.specs.Scene.{first_rule};
ghost use Rattle.misp_copies.specs.Barring.{rule_of};
ghost use Rattle.misp_copies.specs.Scenes.{scene_for, scene_of};
ghost use Rattle.misp_edit.specs.Changing.{Changes};
ghost use Rattle.misp_edit.specs.Refusals.{Refuses, bare_fault};
ghost use Rattle.misp_edit.specs.Targets.{target_places, AreTargets};

use crate::belonging::all_belong;
use crate::fault::AddFault;
use crate::refusing::look_at_brought;
use crate::rows::parts_rows;
use crate::rule_names::rule_name;
use crate::targets::{Targets, targets};
use misp_copies::{ChangeFault, Viewer, may_change};
use misp_elem::{Row, Submission};
use misp_ids::{EventId, Refusal, Stamp};
use misp_model::Parts;
use std::alloc::Global;

// The refusal by the rule of a fault, without a place.
#[tactic(auto, unfolding(crate::specs::Refusals::bare_fault))]
fn bare_fault(alloc: Global, fault: ChangeFault) -> AddFault
    ensures { result ≡ bare_fault (rule_of fault) }
{
    match rule_name(fault) {
        Some(name) => AddFault::Refused(Refusal::bare(alloc, name)),
        None => AddFault::NoMemory,
    }
}

// The refusal by the first rule that refuses, or, where none does, what the references name.
fn admitted(
    alloc: Global,
    submission: &Submission,
    who: &Viewer,
    rows: &[Row],
) -> Result<Targets, AddFault>
    ensures err { (e : Event) (act : ℕ) (name : List ℕ) (now : Moment) (today : List ℕ) →
        IfErr result (Refuses (scene_of act who.now.here who.now.org name now today
        who.now.groups.now rows.now) (AddParts e submission.now)) }
    ensures ok { (e : Event) (act : ℕ) (name : List ℕ) (now : Moment) (today : List ℕ) →
        OnOk result (first_rule (change_rules (scene_of act who.now.here who.now.org name now today
        who.now.groups.now rows.now) (AddParts e submission.now)) ≡ None) }
    ensures targets { IfOk result (λ targets.
        AreTargets targets
        (target_places rows.now who.now.org submission.now.event submission.now.parts)) }
{
    let event = submission.event;
    let targets = targets(alloc, submission.parts.as_slice(), rows, who.org, event)?;
    let fits = all_belong(alloc, submission, &targets, rows, who.org)?;
    if let Err(fault) = may_change(rows, who, &event, fits) {
        return Err(bare_fault(alloc, fault));
    }
    match look_at_brought(
        alloc, submission, &targets, who.org, who.groups, &who.here, rows,
    ) {
        Err(fault) => Err(fault),
        Ok(()) => Ok(targets),
    }
}

/// The rows that adding parts to the caller's copy of an event writes: those of the parts in their
/// order, and those of the references that have a target. The rows are those that the caller knows
/// of the event.
pub fn add_parts(
    alloc: Global,
    event: &EventId,
    parts: Parts,
    who: &Viewer,
    now: Stamp,
    rows: &[Row],
) -> Result<Vec<Row>, AddFault>
    ensures err { (act : ℕ) (name today : List ℕ) → IfErr result
        (Refuses (scene_for act who.now name now today rows.now)
        (AddParts event.now parts)) }
    ensures ok { (act : ℕ) (name today : List ℕ) → IfOk result (λ added.
        Changes (scene_for act who.now name now today rows.now)
        (AddParts event.now parts) added.items) }
    ensures are_rows { IfOk result (λ added. AreRows added.items) }
{
    let Parts { submission } = parts;
    match admitted(alloc, &submission, who, rows) {
        Err(fault) => Err(fault),
        Ok(targets) => Ok(parts_rows(alloc, submission, &targets, who.org, now)?),
    }
}
