//! What accepting a proposal makes of the caller's copy.

ghost use Rattle.std.specs.Prelude.{◌≡◌, [], ◌∷◌, true, false, eqb, None, Some, IfOk, IfErr, IfSome, OnOk};
ghost use Rattle.std.specs.Option.{option_copied};
ghost use Rattle.misp_elem.specs.Contents.{IsProposalBody};
ghost use Rattle.misp_elem.specs.declared.key.KeyForm.TheVariants.{Proposal};
ghost use Rattle.misp_elem.specs.Row.{IsRow, AreRows, may_remove};
ghost use Rattle.misp_ids.specs.Moments.{last_stamp};
ghost use Rattle.misp_model.specs.Changing.{row_passes};
ghost use Rattle.misp_model.specs.Edits.{at_attribute};
ghost use Rattle.misp_model.specs.Scene.{is_too_long};
ghost use Rattle.misp_model.specs.Statements.{accepted, judged_place, made, is_for_new};
ghost use Rattle.misp_copies.specs.declared.change_fault.ChangeFault.TheVariants as faults;
ghost use Rattle.misp_copies.specs.Renewing.{IsFull, renewed};
ghost use Rattle.misp_statements.specs.Judging.{accepted_rows, changed_rows, held_row, is_full, IsFullBy, made_row};

use crate::admitting::alone;
use crate::seeing::{is_for_new, name_of};
use misp_copies::{ChangeFault, finished, label_of};
use misp_elem::{AttributeBody, Content, KeyForm, Place, ProposalBody, Row, RowFields, Shared};
use misp_ids::{EventId, Items, Label, NoMemory, OrgId, Stamp, Text};
use misp_model::NamedProposal;
use std::alloc::Global;

// ---- contents

// A new attribute as the proposal makes it.
#[tactic(auto, unfolding(misp_model::specs::Statements::made))]
fn made(alloc: Global, body: &ProposalBody) -> Result<Shared<AttributeBody>, NoMemory>
    ensures { IfOk result (λ attribute. attribute ≡ made body.now) }
{
    let kind = body.kind.clone()?;
    let comment = body.comment.clone()?;
    let value = body.value.clone()?;
    let made = AttributeBody {
        kind,
        category: body.category,
        to_ids: body.to_ids,
        comment,
        deleted: false,
        value,
        tags: Items::of(Vec::new(alloc)),
        object_relation: Text::of(String::new(alloc)),
        first_seen: None,
        last_seen: None,
    };
    Ok(Shared::of(alloc, made)?)
}

// Makes the attribute as the proposal asks: deleted, or with the proposal's texts.
#[tactic(auto, unfolding(misp_model::specs::Statements::accepted))]
fn accept(body: &ProposalBody, attribute: &mut AttributeBody) -> Result<(), NoMemory>
    ensures { OnOk result (attribute.new ≡ accepted body.now attribute.old) }
{
    if body.remove {
        attribute.deleted = true;
        return Ok(());
    }
    attribute.kind = body.kind.clone()?;
    attribute.category = body.category;
    attribute.to_ids = body.to_ids;
    attribute.comment = body.comment.clone()?;
    attribute.value = body.value.clone()?;
    Ok(())
}

// The attribute as the proposal makes it.
fn accepted(
    alloc: Global,
    body: &ProposalBody,
    own: &AttributeBody,
) -> Result<Shared<AttributeBody>, NoMemory>
    ensures { IfOk result (λ attribute. attribute ≡ accepted body.now own.now) }
{
    let mut attribute = own.clone()?;
    match accept(body, &mut attribute) {
        Ok(()) => Ok(Shared::of(alloc, attribute)?),
        Err(NoMemory) => {
            drop(attribute);
            Err(NoMemory)
        }
    }
}

#[tactic(auto, unfolding(misp_model::specs::Edits::at_attribute))]
fn accepted_content(
    alloc: Global,
    body: &ProposalBody,
    content: &Content,
) -> Result<Content, NoMemory>
    ensures { IfOk result (λ made. made ≡ at_attribute (accepted body.now) content.now) }
{
    match content {
        Content::Attribute(own) => Ok(Content::Attribute(accepted(alloc, body, own)?)),
        _ => Ok(content.clone()?),
    }
}

fn accepted_of(alloc: Global, body: &ProposalBody, row: &Row) -> Result<Content, NoMemory>
    ensures { IfOk result (λ made. made ≡ at_attribute (accepted body.now) row.now.content) }
{
    accepted_content(alloc, body, &row.content)
}

// ---- rows

/// The place that the acceptance of the proposal changes or makes.
#[tactic(auto, unfolding(misp_model::specs::Statements::judged_place, misp_model::specs::Statements::judged_at))]
pub(crate) fn judged_place(proposal: &NamedProposal) -> Place
    ensures { result ≡ judged_place proposal.now }
{
    match proposal.name.target {
        Place::Event => Place::Attribute(proposal.name.uuid),
        place => place,
    }
}

// A row that is not published and inherits its label.
#[tactic(auto, unfolding(crate::specs::Judging::held_row))]
fn held_row(owner: OrgId, key: KeyForm, now: Stamp, content: Content) -> Row
    requires { IsRow (held_row owner key now content) }
    ensures { result ≡ held_row owner key now content }
{
    Row::of(RowFields {
        owner,
        key,
        stamp: now,
        label: Label::Inherit,
        held: true,
        carried: false,
        content,
    })
}

// The row of a new attribute.
#[tactic(auto, unfolding(crate::specs::Judging::made_row))]
fn made_row(
    alloc: Global,
    body: &ProposalBody,
    owner: OrgId,
    event: EventId,
    proposal: &NamedProposal,
    now: Stamp,
) -> Result<Row, NoMemory>
    requires new { is_for_new proposal.now ≡ true }
    requires body { IsProposalBody false body.now }
    ensures value { IfOk result (λ row. row ≡ made_row owner event proposal.now now body.now) }
    ensures is_row { IfOk result IsRow }
{
    let (_name, _now) = (name_of(proposal), now.get());
    let place = judged_place(proposal);
    let content = Content::Attribute(made(alloc, body)?);
    let key = KeyForm::Element { event, place };
    Ok(held_row(owner, key, now, content))
}

// The same alone.
fn made_rows(
    alloc: Global,
    body: &ProposalBody,
    owner: OrgId,
    event: EventId,
    proposal: &NamedProposal,
    now: Stamp,
) -> Result<Vec<Row>, NoMemory>
    requires new { is_for_new proposal.now ≡ true }
    requires body { IsProposalBody false body.now }
    ensures ok { IfOk result (λ made.
        made.items ≡ made_row owner event proposal.now now body.now ∷ []) }
    ensures are_rows { IfOk result (λ made. AreRows made.items) }
{
    let row = made_row(alloc, body, owner, event, proposal, now)?;
    alone(alloc, row)
}

// The row as the proposal changes it, where it has not the last stamp.
fn changed_row(
    alloc: Global,
    body: &ProposalBody,
    row: &Row,
    now: Stamp,
) -> Result<Vec<Row>, ChangeFault>
    requires stamp { eqb row.now.stamp last_stamp ≡ false }
    requires body { IsProposalBody true body.now }
    ensures err { IfErr result (IsFull (at_attribute (accepted body.now) row.now.content)) }
    ensures ok { IfOk result (λ made. (made.items ≡ renewed now row.now row.now.label
        (at_attribute (accepted body.now) row.now.content) ∷ [])
        × (is_too_long (at_attribute (accepted body.now) row.now.content) ≡ false)) }
    ensures are_rows { IfOk result (λ made. AreRows made.items) }
{
    let (_now, _held) = (now.get(), row.held);
    match accepted_of(alloc, body, row) {
        Ok(content) => finished(alloc, row, label_of(row), content, now),
        Err(NoMemory) => Err(ChangeFault::NoMemory),
    }
}

// The same, if there is a row.
#[tactic(auto, unfolding(crate::specs::Judging::changed_rows, crate::specs::Judging::is_full, misp_model::specs::Changing::row_passes))]
fn changed_rows(
    alloc: Global,
    body: &ProposalBody,
    own: Option<&Row>,
    now: Stamp,
) -> Result<Vec<Row>, ChangeFault>
    requires stamp { row_passes (λ row. eqb row.stamp last_stamp) (option_copied own) ≡ false }
    requires body { IsProposalBody true body.now }
    ensures err { IfErr result (IsFullBy (Some body.now) (option_copied own.entry)) }
    ensures ok { IfOk result (λ made.
        (made.items ≡ changed_rows now body.now (option_copied own.entry))
        × (is_full (Some body.now) (option_copied own.entry) ≡ false)) }
    ensures are_rows { IfOk result (λ made. AreRows made.items) }
{
    match own {
        Some(row) => changed_row(alloc, body, row, now),
        None => Ok(Vec::new(alloc)),
    }
}

/// The rows of what is accepted: those of a new attribute, or of the caller's row, which has not
/// the last stamp, as the proposal changes it.
#[tactic(auto, unfolding(crate::specs::Judging::accepted_rows, crate::specs::Judging::is_full, misp_model::specs::Changing::row_passes))]
pub(crate) fn accepted_rows(
    alloc: Global,
    body: Option<&ProposalBody>,
    own: Option<&Row>,
    owner: OrgId,
    event: EventId,
    proposal: &NamedProposal,
    now: Stamp,
) -> Result<Vec<Row>, ChangeFault>
    requires stamp { row_passes (λ row. eqb row.stamp last_stamp) (option_copied own) ≡ false }
    requires new { is_for_new proposal.now ≡ true → option_copied own ≡ None }
    requires body { IfSome body (λ body.
        IsProposalBody (may_remove (Proposal event proposal.now)) body.now) }
    ensures err { IfErr result
        (IsFullBy (option_copied body.entry) (option_copied own.entry)) }
    ensures ok { IfOk result (λ made. (made.items ≡ accepted_rows owner event proposal.now now
        (option_copied body.entry) (option_copied own.entry))
        × (is_full (option_copied body.entry) (option_copied own.entry) ≡ false)) }
    ensures are_rows { IfOk result (λ made. AreRows made.items) }
{
    match body {
        None => Ok(Vec::new(alloc)),
        Some(body) => {
            if is_for_new(proposal) {
                Ok(made_rows(alloc, body, owner, event, proposal, now)?)
            } else {
                changed_rows(alloc, body, own, now)
            }
        }
    }
}
