//! What a proposal, a verdict or a sighting comes to over the rows that its caller knows of the
//! event.

ghost use Rattle.std.specs.Prelude.{◌≡◌};
ghost use Rattle.misp_model.specs.declared.ask.Ask.TheVariants.{Judge, Propose, Sight};
ghost use Rattle.misp_model.specs.Machine.{seeing};
ghost use Rattle.misp_core.specs.Effects.{asked};
ghost use Rattle.misp_core.specs.Handing.{scene_in, knowing};
ghost use Rattle.misp_core.specs.Planning.{Plans};

use crate::naming::name_text;
use crate::planning::{NoPlan, Plan};
use crate::saving::saved_or_refused;
use crate::site::{Site, known_at, viewer};
use misp_elem::Row;
use misp_ids::EventId;
use misp_model::{AttributePlace, NamedProposal, ProposalDraft, SightingDraft};
use misp_statements::{judge, propose, sight};
use std::alloc::Global;

fn event_of(draft: &ProposalDraft) -> EventId
    ensures { result ≡ draft.now.event }
{
    draft.get().event
}

// What is planned for a proposal, over the rows that its caller knows.
fn propose_known(
    alloc: Global,
    site: &Site<'_>,
    draft: &ProposalDraft,
    rows: &[Row],
) -> Result<Plan, NoPlan>
    ensures { Plans result (asked site.now.admin.now
        (knowing (scene_in site.now) rows.now) (Propose draft.now)) }
{
    let who = viewer(site);
    let name = name_text(alloc, site.admin, &who.org)?;
    let made = propose(alloc, draft, &who, &name, site.moment, rows);
    saved_or_refused(alloc, event_of(draft), made)
}

// What is planned where a proposal is judged, over the rows that its judge knows.
fn judge_known(
    alloc: Global,
    site: &Site<'_>,
    event: &EventId,
    proposal: &NamedProposal,
    accept: bool,
    rows: &[Row],
) -> Result<Plan, NoPlan>
    ensures { Plans result (asked site.now.admin.now
        (knowing (scene_in site.now) rows.now) (Judge event.now proposal.now accept)) }
{
    let who = viewer(site);
    let made = judge(alloc, event, proposal, accept, &who, site.moment, rows);
    saved_or_refused(alloc, *event, made)
}

// What is planned for a sighting, over the rows that its caller knows.
fn sight_known(
    alloc: Global,
    site: &Site<'_>,
    event: &EventId,
    target: &AttributePlace,
    draft: &SightingDraft,
    rows: &[Row],
) -> Result<Plan, NoPlan>
    ensures { Plans result (asked site.now.admin.now
        (knowing (scene_in site.now) rows.now) (Sight event.now target.now draft.now)) }
{
    let who = viewer(site);
    let name = name_text(alloc, site.admin, &who.org)?;
    let made = sight(alloc, event, target, draft, &who, &name, site.moment, rows);
    saved_or_refused(alloc, *event, made)
}

/// What is planned for a proposal, over all rows of its event that are read.
pub(crate) fn plan_proposal(
    alloc: Global,
    site: &Site<'_>,
    draft: &ProposalDraft,
    rows: Vec<Row>,
) -> Result<Plan, NoPlan>
    ensures { Plans result (asked site.now.admin.now
        (seeing (scene_in site.now) rows.items) (Propose draft.now)) }
{
    let rows = known_at(alloc, site, rows)?;
    propose_known(alloc, site, draft, &rows)
}

/// What is planned where a proposal is accepted or discarded, over all rows of its event that are
/// read.
pub(crate) fn plan_judgement(
    alloc: Global,
    site: &Site<'_>,
    event: &EventId,
    proposal: &NamedProposal,
    accept: bool,
    rows: Vec<Row>,
) -> Result<Plan, NoPlan>
    ensures { Plans result (asked site.now.admin.now
        (seeing (scene_in site.now) rows.items) (Judge event.now proposal.now accept)) }
{
    let rows = known_at(alloc, site, rows)?;
    judge_known(alloc, site, event, proposal, accept, &rows)
}

/// What is planned for a sighting, over all rows of its event that are read.
pub(crate) fn plan_sighting(
    alloc: Global,
    site: &Site<'_>,
    event: &EventId,
    target: &AttributePlace,
    draft: &SightingDraft,
    rows: Vec<Row>,
) -> Result<Plan, NoPlan>
    ensures { Plans result (asked site.now.admin.now
        (seeing (scene_in site.now) rows.items) (Sight event.now target.now draft.now)) }
{
    let rows = known_at(alloc, site, rows)?;
    sight_known(alloc, site, event, target, draft, &rows)
}
