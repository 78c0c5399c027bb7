//! What a caller hands in: a package, or groups.

ghost use Rattle.std.specs.Prelude.{◌≡◌, [], true, length, List, IfOk, IsSomeAnd};
ghost use Rattle.misp_elem.specs.declared.row.RowFields.{RowFields};
ghost use Rattle.misp_ids.specs.Uid.{IsUid};
ghost use Rattle.misp_ids.specs.declared.uid.OrgId.{OrgId as Owner};
ghost use Rattle.misp_package.specs.Landing.{IsLanding};
ghost use Rattle.misp_model.specs.Machine.{seeing};
ghost use Rattle.misp_model.specs.Package.{IsPackage};
ghost use Rattle.misp_model.specs.declared.ask.Ask.TheVariants.{TakePart};
ghost use Rattle.misp_core.specs.declared.reply.Answer.TheVariants as answers;
ghost use Rattle.misp_core.specs.Effects.{asked, by_keeper, row_batches};
ghost use Rattle.misp_core.specs.HandedGroups.{group_batches, groups_handed};
ghost use Rattle.misp_core.specs.Handing.{scene_in};
ghost use Rattle.misp_core.specs.KeptLanding.{IsLandingFor, PlansBy, StaysOrLands};
ghost use Rattle.misp_core.specs.Planning.{Plans, batches_of, rows_put, stop_planned};
ghost use Rattle.misp_core.specs.Sound.{IsSoundAnswer};
ghost use Rattle.misp_core.specs.Taking.{package_taken};

use crate::answering::forbidden;
use crate::kept_landing::{is_for, landing_of};
use crate::planning::{Batch, NoPlan, Plan};
use crate::reply::Answer;
use crate::saving::rows_put;
use crate::site::{Site, asker};
use crate::taking_groups::{groups_alone, taken_of};
use misp_elem::{NoMemory, Row};
use misp_groups::{Group, Groups};
use misp_model::{Ask, Package};
use misp_orgs::{Caller, Perm, may};
use misp_package::Landing;
use std::alloc::Global;

// The rows of the package that its caller takes, where this is what it has of the event.
fn rows_taken(
    alloc: Global,
    site: &Site<'_>,
    landing: &Landing,
    coming: &Package,
) -> Result<Vec<Row>, NoMemory>
    ensures taken { IfOk result (λ taken. (w : Owner) (rows : List RowFields) →
        IsLanding landing.now site.now.here.now w coming.now.event rows → taken.items
        ≡ package_taken site.now.here.now rows site.now.groups.now w coming.now) }
    ensures owner { IsUid site.now.caller.now.org.0 }
    ensures fits { IsPackage coming.now }
{
    let owner = asker(site.caller);
    let _number = owner.0.0;
    let _event = coming.get().event;
    Ok(landing.taken(alloc, coming, site.groups)?)
}

// Puts the rows that are taken, and tells how many they are.
fn taken(alloc: Global, rows: Vec<Row>) -> Plan
    ensures answer { result.answer ≡ answers.Taken (length rows.items) }
    ensures batches { batches_of result.batch ≡ row_batches rows.items }
    ensures rows { rows_put result.batch ≡ rows.items }
{
    Plan {
        answer: Answer::Taken(rows.len() as u64),
        batch: rows_put(alloc, rows),
    }
}

// What is planned where a caller hands in a package, and this is what it has of the event.
fn plan_landed(
    alloc: Global,
    site: &Site<'_>,
    landing: &Landing,
    coming: &Package,
) -> Result<Plan, NoPlan>
    ensures plans { (rows : List RowFields) →
        IsLanding landing.now site.now.here.now site.now.caller.now.org coming.now.event rows →
        Plans result (asked site.now.admin.now
        (seeing (scene_in site.now) rows) (TakePart coming.now)) }
    ensures sound { IfOk result (λ plan. IsSoundAnswer plan.answer) }
    ensures no_fault { stop_planned result ≡ by_keeper → ⊥ }
{
    let rows = rows_taken(alloc, site, landing, coming)?;
    Ok(taken(alloc, rows))
}

/// What is planned where a caller hands in a package, over all rows of its event that are read.
/// What the caller has of the event is kept.
pub(crate) fn plan_package(
    alloc: Global,
    site: &Site<'_>,
    coming: &Package,
    rows: Vec<Row>,
    kept: &mut Option<Landing>,
) -> Result<Plan, NoPlan>
    ensures plan { Plans result (asked site.now.admin.now
        (seeing (scene_in site.now) rows.items) (TakePart coming.now)) }
    ensures kept { StaysOrLands site.now.here.now site.now.caller.now.org rows.items
        (TakePart coming.now) kept.old kept.new }
    ensures sound { IfOk result (λ plan. IsSoundAnswer plan.answer) }
{
    let owner = asker(site.caller);
    let event = coming.get().event;
    let landing = landing_of(alloc, &rows, &owner, &event, site.here)?;
    let plan = plan_landed(alloc, site, &landing, coming);
    *kept = Some(landing);
    plan
}

/// Whether a package is handed in, and what its caller has of the event is kept.
pub(crate) fn is_landed(site: &Site<'_>, ask: &Ask, kept: &Option<Landing>) -> bool
    ensures { result ≡ true →
        IsSomeAnd kept.now (IsLandingFor site.now.caller.now.org ask.now) }
{
    let Ask::TakePart(coming) = ask else {
        return false;
    };
    match kept {
        Some(landing) => is_for(landing, site.caller, coming),
        None => false,
    }
}

/// What is planned where a caller hands in a package, and what it has of the event is kept.
pub(crate) fn plan_kept(
    alloc: Global,
    site: &Site<'_>,
    ask: &Ask,
    kept: &Option<Landing>,
) -> Result<Plan, NoPlan>
    requires { IsSomeAnd kept.now (IsLandingFor site.now.caller.now.org ask.now) }
    ensures plans { IsSomeAnd kept.now
        (PlansBy site.now.admin.now (scene_in site.now) ask.now result) }
    ensures sound { IfOk result (λ plan. IsSoundAnswer plan.answer) }
    ensures no_fault { stop_planned result ≡ by_keeper → ⊥ }
{
    let Ask::TakePart(coming) = ask else {
        unreachable!()
    };
    let Some(landing) = kept else { unreachable!() };
    plan_landed(alloc, site, landing, coming)
}

// Groups are put in one batch, and no groups in none.
fn groups_put(alloc: Global, groups: Vec<Group>) -> Option<Batch>
    ensures batches { batches_of result ≡ group_batches groups.items }
    ensures rows { rows_put result ≡ [] }
{
    let [_, ..] = groups.as_slice() else {
        return None;
    };
    Some(groups_alone(alloc, groups))
}

/// What is planned where a caller hands in groups, and these are known.
pub(crate) fn plan_groups(
    alloc: Global,
    groups: &Groups,
    caller: &Caller,
    coming: Vec<Group>,
) -> Result<Plan, NoPlan>
    ensures plans { Plans result (groups_handed caller.now coming.items groups.now) }
    ensures sound { IfOk result (λ plan. IsSoundAnswer plan.answer) }
{
    if !may(caller.role, Perm::Sync) {
        return Err(forbidden(alloc, Perm::Sync));
    }
    let taken = taken_of(alloc, groups, coming)?;
    Ok(Plan {
        answer: Answer::Taken(taken.len() as u64),
        batch: groups_put(alloc, taken),
    })
}
