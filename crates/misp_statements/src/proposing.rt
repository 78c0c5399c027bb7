//! Proposals.

ghost use Rattle.std.specs.Prelude.{◌≡◌, ℕ, List, IfOk, IfErr};
ghost use Rattle.misp_ids.specs.Moments as moments;
ghost use Rattle.misp_elem.specs.Fields.{IsText};
ghost use Rattle.misp_elem.specs.Row.{AreRows, IsRow};
ghost use Rattle.misp_model.specs.declared.ask.Ask.TheVariants.{Propose};
ghost use Rattle.misp_model.specs.Answers.{ask_rules};
ghost use Rattle.misp_model.specs.Scene.{first_rule};
ghost use Rattle.misp_model.specs.Statement.{IsProposalDraft};
ghost use Rattle.misp_model.specs.Statements.{propose_rules};
ghost use Rattle.misp_copies.specs.Scenes.{scene_for};
ghost use Rattle.misp_copies.specs.Barring.{NamesUuid, Refuses, outcome};
ghost use Rattle.misp_statements.specs.Rows.{key_of_proposal, named, proposal_row};
ghost use Rattle.misp_statements.specs.Saving.{Saves};

use crate::admitting::{admitted, alone, statement_row};
use crate::targets::{has_own, sees_target};
use misp_copies::{ChangeFault, Viewer, has_gone};
use misp_elem::{Content, Key, KeyForm, ProposalBody, ProposalName, Row, Shared};
use misp_ids::{InstId, NoMemory, OrgId, Stamp, Text};
use misp_model::{ProposalDraft, ProposalDraftFields};
use std::alloc::Global;

fn proposal_key(draft: &ProposalDraftFields, at: InstId, by: OrgId) -> Key
    requires { IsProposalDraft draft.now }
    ensures { result ≡ key_of_proposal at by draft.now }
{
    let name = ProposalName {
        target: draft.target,
        at,
        by,
        uuid: draft.uuid,
    };
    let event = draft.event;
    Key {
        form: KeyForm::Proposal { event, name },
    }
}

// Which rule refuses the proposal.
fn may_propose(
    draft: &ProposalDraftFields,
    who: &Viewer<'_>,
    rows: &[Row],
) -> Result<(), ChangeFault>
    requires { IsProposalDraft draft.now }
    ensures rule { (act : ℕ) (name today : List ℕ) (now : moments.Stamp) → outcome result
        ≡ first_rule (propose_rules (scene_for act who.now name now today rows.now) draft.now) }
    ensures names { IfErr result (NamesUuid draft.now.uuid) }
{
    let seen = sees_target(rows, who, &draft.event, &draft.target);
    let gone = has_gone(rows, &who.org, &draft.event);
    let made = has_own(rows, &who.org, &proposal_key(draft, who.here, who.org));
    admitted(seen, gone, made, ChangeFault::ProposalExists)
}

// The body, under the name of its organisation.
fn named(alloc: Global, body: &ProposalBody, name: &Text) -> Result<Shared<ProposalBody>, NoMemory>
    ensures { IfOk result (λ made. made ≡ named name.now body.now) }
{
    let mut made = body.clone()?;
    made.by_name = name.clone()?;
    Ok(Shared::of(alloc, made)?)
}

fn proposal_row(
    alloc: Global,
    draft: &ProposalDraftFields,
    at: InstId,
    by: OrgId,
    name: &Text,
    now: Stamp,
) -> Result<Row, NoMemory>
    requires draft { IsProposalDraft draft.now }
    requires name { IsText 0 64 name.now }
    ensures value { IfOk result (λ row.
        row ≡ proposal_row at by name.now now draft.now) }
    ensures is_row { IfOk result IsRow }
{
    let _now = now.get();
    let content = Content::Proposal(named(alloc, &draft.body, name)?);
    let key = proposal_key(draft, at, by);
    Ok(statement_row(by, now, key.form, content))
}

/// The row that a proposal writes. The rows are those that the caller knows of the event.
pub fn propose(
    alloc: Global,
    draft: &ProposalDraft,
    who: &Viewer<'_>,
    name: &Text,
    now: Stamp,
    rows: &[Row],
) -> Result<Vec<Row>, ChangeFault>
    requires name { IsText 0 64 name.now }
    ensures err { (act : ℕ) (today : List ℕ) → IfErr result
        (Refuses (ask_rules (scene_for act who.now name.now now today rows.now)
        (Propose draft.now))) }
    ensures ok { (act : ℕ) (today : List ℕ) → IfOk result (λ made.
        Saves (scene_for act who.now name.now now today rows.now) (Propose draft.now) made.items) }
    ensures are_rows { IfOk result (λ made. AreRows made.items) }
    ensures names { IfErr result (NamesUuid draft.now.uuid) }
{
    let draft = draft.get();
    match may_propose(draft, who, rows) {
        Err(fault) => Err(fault),
        Ok(()) => {
            let row = proposal_row(alloc, draft, who.here, who.org, name, now)?;
            Ok(alone(alloc, row)?)
        }
    }
}
