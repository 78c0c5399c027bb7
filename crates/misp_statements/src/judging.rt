//! Accepting and discarding proposals.

ghost use Rattle.std.specs.Prelude.{◌≡◌, ℕ, List, [], ◌∷◌, ◌&&◌, Option, None, eqb, false, true, IfOk, IfErr};
ghost use Rattle.std.specs.List.{find};
ghost use Rattle.std.specs.Option.{option_copied};
ghost use Rattle.misp_elem.specs.declared.key.KeyForm.TheVariants.{Verdict};
ghost use Rattle.misp_elem.specs.Row.{IsRow, AreRows};
ghost use Rattle.misp_ids.specs.Moments.{last_stamp};
ghost use Rattle.misp_model.specs.Answers.{ask_rules};
ghost use Rattle.misp_model.specs.Changing.{row_passes};
ghost use Rattle.misp_model.specs.Scene.{first_rule};
ghost use Rattle.misp_model.specs.Statements.{is_for_new};
ghost use Rattle.misp_model.specs.declared.ask.Ask.TheVariants.{Judge};
ghost use Rattle.misp_copies.specs.Barring.{outcome, NamesUuid, Refuses};
ghost use Rattle.misp_copies.specs.Scenes.{scene_for};
ghost use Rattle.misp_statements.specs.Judging.{accepted_rows, body_accepted, has_verdict, is_full, is_there, IsFullBy, late_rules, own_accepted, ruling, verdict_row};
ghost use Rattle.misp_statements.specs.Saving.{Saves};

use crate::accepting::{accepted_rows, judged_place};
use crate::admitting::statement_row;
use crate::seeing::{body_accepted, is_for_new, may_judge, name_of};
use misp_copies::{ChangeFault, Viewer, is_row_of, is_used, may_change, own_row};
use misp_elem::{Content, Key, KeyForm, Row, uuid_at};
use misp_ids::{ElemId, EventId, InstId, LAST_SECOND, NoMemory, OrgId, Stamp};
use misp_model::NamedProposal;
use std::alloc::Global;

// ---- rules

// Whether a new attribute is accepted whose uuid the caller's copy has.
#[tactic(auto, unfolding(crate::specs::Judging::is_there))]
fn is_there(
    rows: &[Row],
    owner: &OrgId,
    event: &EventId,
    proposal: &NamedProposal,
    accept: bool,
) -> bool
    ensures { result ≡ is_there rows.now owner.now event.now proposal.now accept }
{
    let uuid = uuid_at(*event, judged_place(proposal));
    accept && (is_for_new(proposal) && is_used(rows, *owner, *event, uuid))
}

// The caller's row of what is accepted.
#[tactic(auto, unfolding(crate::specs::Judging::own_accepted, crate::specs::Judging::if_accepted))]
fn own_accepted<'a>(
    rows: &'a [Row],
    owner: &OrgId,
    event: &EventId,
    proposal: &NamedProposal,
    accept: bool,
) -> Option<&'a Row>
    ensures { option_copied result
        ≡ own_accepted rows.now owner.now event.now proposal.now accept }
{
    if !accept {
        return None;
    }
    own_row(rows, owner, event, &judged_place(proposal))
}

// Whether there is a row, and it has the last stamp.
#[tactic(auto, unfolding(misp_model::specs::Changing::row_passes, misp_ids::specs::Moments::last_stamp))]
fn is_last(own: Option<&Row>) -> bool
    ensures { result
        ≡ row_passes (λ row. eqb row.stamp last_stamp) (option_copied own.entry) }
{
    match own {
        Some(row) => row.stamp.get() == LAST_SECOND,
        None => false,
    }
}

fn verdict_key(event: EventId, proposal: &NamedProposal, at: InstId, judge: OrgId) -> Key
    ensures { result ≡ Verdict event proposal.now at judge }
{
    let name = name_of(proposal);
    Key {
        form: KeyForm::Verdict {
            event,
            name,
            at,
            judge,
        },
    }
}

// Whether the caller has judged the proposal.
#[tactic(auto, unfolding(crate::specs::Judging::has_verdict))]
fn has_verdict(rows: &[Row], who: &Viewer, event: &EventId, proposal: &NamedProposal) -> bool
    ensures { result ≡ has_verdict rows.now who.now.here who.now.org event.now proposal.now }
{
    let key = verdict_key(*event, proposal, who.here, who.org);
    rows.iter().any(|row| is_row_of(row, &who.org, &key))
}

fn uuid_of(proposal: &NamedProposal) -> ElemId
    ensures { result ≡ proposal.now.uuid }
{
    proposal.name.uuid
}

// The caller's row of what is accepted, where neither its uuid, its stamp nor a verdict refuses.
fn admitted_row<'a>(
    rows: &'a [Row],
    who: &Viewer,
    event: &EventId,
    proposal: &NamedProposal,
    accept: bool,
) -> Result<Option<&'a Row>, ChangeFault>
    ensures rule { outcome result ≡ first_rule (late_rules rows.now who.now.here who.now.org
        event.now proposal.now accept) }
    ensures own { IfOk result (λ own. option_copied own
        ≡ own_accepted rows.now who.now.org event.now proposal.now accept) }
    ensures names { IfErr result (NamesUuid proposal.now.uuid) }
{
    if is_there(rows, &who.org, event, proposal, accept) {
        return Err(ChangeFault::ElementExists(uuid_of(proposal)));
    }
    let own = own_accepted(rows, &who.org, event, proposal, accept);
    if is_last(own) {
        return Err(ChangeFault::TimeLimit);
    }
    if has_verdict(rows, who, event, proposal) {
        return Err(ChangeFault::ProposalClosed);
    }
    Ok(own)
}

// The same, where the caller may change the event and judge the proposal.
fn admitted<'a>(
    rows: &'a [Row],
    who: &Viewer,
    event: &EventId,
    proposal: &NamedProposal,
    accept: bool,
) -> Result<Option<&'a Row>, ChangeFault>
    ensures rule { outcome result ≡ ruling rows.now who.now.groups.now who.now.here who.now.org
        event.now proposal.now accept }
    ensures own { IfOk result (λ own. option_copied own
        ≡ own_accepted rows.now who.now.org event.now proposal.now accept) }
    ensures names { IfErr result (NamesUuid proposal.now.uuid) }
{
    let fits = may_judge(rows, who, event, proposal);
    match may_change(rows, who, event, fits) {
        Err(fault) => Err(fault),
        Ok(()) => admitted_row(rows, who, event, proposal, accept),
    }
}

// ---- what is written

// The row of the verdict.
#[tactic(auto, unfolding(crate::specs::Judging::verdict_row))]
fn verdict_row(
    owner: OrgId,
    here: InstId,
    event: EventId,
    proposal: &NamedProposal,
    accept: bool,
    now: Stamp,
) -> Row
    ensures value { result ≡ verdict_row owner here event proposal.now accept now }
    ensures is_row { IsRow result }
{
    let key = verdict_key(event, proposal, here, owner);
    statement_row(owner, now, key.form, Content::Verdict(accept))
}

// The rows with this one in front.
fn with_first(row: Row, mut rows: Vec<Row>) -> Result<Vec<Row>, NoMemory>
    requires { AreRows rows.items }
    ensures all { IfOk result (λ all. all.items ≡ row ∷ rows.items) }
    ensures are_rows { IfOk result (λ all. AreRows all.items) }
{
    rows.insert(0, row)?;
    Ok(rows)
}

/// The rows that accepting or discarding a proposal writes, over those that the caller knows of the
/// event. That of the verdict stands first.
pub fn judge(
    alloc: Global,
    event: &EventId,
    proposal: &NamedProposal,
    accept: bool,
    who: &Viewer<'_>,
    now: Stamp,
    rows: &[Row],
) -> Result<Vec<Row>, ChangeFault>
    ensures err { (act : ℕ) (name today : List ℕ) → IfErr result
        (Refuses (ask_rules (scene_for act who.now name now today rows.now)
        (Judge event.now proposal.now accept))) }
    ensures ok { (act : ℕ) (name today : List ℕ) → IfOk result (λ made.
        Saves (scene_for act who.now name now today rows.now)
        (Judge event.now proposal.now accept) made.items) }
    ensures are_rows { IfOk result (λ made. AreRows made.items) }
    ensures names { IfErr result (NamesUuid proposal.now.uuid) }
{
    match admitted(rows, who, event, proposal, accept) {
        Err(fault) => Err(fault),
        Ok(own) => {
            let body = body_accepted(rows, who, event, proposal, accept);
            match accepted_rows(alloc, body, own, who.org, *event, proposal, now) {
                Err(fault) => Err(fault),
                Ok(rest) => {
                    let verdict = verdict_row(who.org, who.here, *event, proposal, accept, now);
                    Ok(with_first(verdict, rest)?)
                }
            }
        }
    }
}
