//! The statements that show.

ghost use Rattle.std.specs.Prelude.{◌≡◌, map, IfOk};
ghost use Rattle.std.specs.List.{filter, list_any};
ghost use Rattle.misp_elem.specs.declared.key.KeyForm.{KeyForm as Named};
ghost use Rattle.misp_lists.specs.Order.{in_order};
ghost use Rattle.misp_copies.specs.Keys.{is_about};
ghost use Rattle.misp_view.specs.Order.{goes_before};
ghost use Rattle.misp_copies.specs.StatementsByTarget.{IsByTarget};
ghost use Rattle.misp_view.specs.Statements.{is_told, is_least_of, is_closed_by, is_verdict_of, is_open_among, is_open_proposal, is_least_sighting};

use crate::order::in_order;
use misp_copies::{CopyView, StatementsByKey, StatementsByTarget, is_same_org};
use misp_elem::{KeyForm, Row};
use misp_ids::{NoMemory, OrgId};
use std::alloc::{AllocError, Global};

// Whether it is a statement that is granted.
#[tactic(auto, unfolding(crate::specs::Statements::is_told))]
fn is_told(copy_view: &CopyView, row: &Row) -> bool
    ensures { result ≡ is_told copy_view.now row.now }
{
    row.key.is_statement() && copy_view.grants(row)
}

/// The statements that are granted, in the order in which they stand.
pub(crate) fn told<'a>(
    alloc: Global,
    copy_view: &CopyView,
    rows: &'a [Row],
) -> Result<Vec<&'a Row>, AllocError>
    ensures { IfOk result (λ list. map (λ r. r.now) list.items
        ≡ filter (is_told copy_view.now) rows.now) }
{
    rows.iter()
        .filter(|row| is_told(copy_view, row))
        .collect(alloc)
}

// Whether none of these is of the same key and of a lesser owner.
#[tactic(auto, unfolding(crate::specs::Statements::is_least_of))]
fn is_least_of(by_key: &StatementsByKey, row: &Row) -> bool
    ensures { result ≡ is_least_of by_key.now row.now }
{
    !by_key.has_lesser(row)
}

// Whether it is a verdict of the judge.
#[tactic(auto, unfolding(crate::specs::Statements::is_verdict_of))]
fn is_verdict_of(judge: &OrgId, row: &Row) -> bool
    ensures { result ≡ is_verdict_of judge.now row.now.key }
{
    match &row.key.form {
        KeyForm::Verdict { judge: by, .. } => is_same_org(by, judge),
        _ => false,
    }
}

// The verdicts of the judge.
fn verdicts<'a>(
    alloc: Global,
    told: &[&'a Row],
    judge: &OrgId,
) -> Result<StatementsByTarget<'a>, NoMemory>
    ensures { IfOk result (λ verdicts. (k : Named) → list_any (λ r. is_about k r.key) verdicts
        ≡ is_closed_by (map (λ r. r.now) told.now) judge.now k) }
{
    let mut list = Vec::new(alloc);
    for row in told {
        if is_verdict_of(judge, row) {
            list.push(*row)?;
        }
    }
    let verdicts = StatementsByTarget::of(list)?;
    Ok(verdicts)
}

// Whether it is a proposal that shows, where these are told and these are the verdicts of the
// event's creator.
#[tactic(auto, unfolding(crate::specs::Statements::is_open_among, crate::specs::Statements::is_proposal))]
fn is_open_among(by_key: &StatementsByKey, verdicts: &StatementsByTarget, row: &Row) -> bool
    ensures { result ≡ is_open_among by_key.now verdicts.now row.now }
{
    matches!(&row.key.form, KeyForm::Proposal { .. })
        && is_least_of(by_key, row)
        && !verdicts.has(&row.key)
}

// Whether it is a sighting that shows, where these are told.
#[tactic(auto, unfolding(crate::specs::Statements::is_least_sighting, crate::specs::Statements::is_sighting))]
fn is_least_sighting(by_key: &StatementsByKey, row: &Row) -> bool
    ensures { result ≡ is_least_sighting by_key.now row.now }
{
    matches!(&row.key.form, KeyForm::Sighting { .. }) && is_least_of(by_key, row)
}

// The proposals that show, where these are told and these are the verdicts of the event's creator.
fn open_among<'a>(
    alloc: Global,
    told: &[&'a Row],
    by_key: &StatementsByKey,
    verdicts: &StatementsByTarget,
) -> Result<Vec<&'a Row>, NoMemory>
    ensures { IfOk result (λ list. map (λ r. r.now) list.items
        ≡ filter (is_open_among by_key.now verdicts.now) (map (λ r. r.now) told.now)) }
{
    let mut list = Vec::new(alloc);
    for row in told {
        if is_open_among(by_key, verdicts, row) {
            list.push(*row)?;
        }
    }
    Ok(list)
}

// The sightings that show, where these are told.
fn least_sightings<'a>(
    alloc: Global,
    told: &[&'a Row],
    by_key: &StatementsByKey,
) -> Result<Vec<&'a Row>, NoMemory>
    ensures { IfOk result (λ list. map (λ r. r.now) list.items
        ≡ filter (is_least_sighting by_key.now) (map (λ r. r.now) told.now)) }
{
    let mut list = Vec::new(alloc);
    for row in told {
        if is_least_sighting(by_key, row) {
            list.push(*row)?;
        }
    }
    Ok(list)
}

/// The proposals that show, where these are told and the event's creator is the judge: by what they
/// are about, and those about one key in their order.
pub(crate) fn proposals<'a>(
    alloc: Global,
    told: &[&'a Row],
    judge: &OrgId,
) -> Result<StatementsByTarget<'a>, NoMemory>
    ensures { IfOk result (λ list. IsByTarget list (in_order goes_before
        (filter (is_open_proposal (map (λ r. r.now) told.now) judge.now)
        (map (λ r. r.now) told.now)))) }
{
    let by_key = StatementsByKey::of(alloc, told)?;
    let verdicts = verdicts(alloc, told, judge)?;
    let list = open_among(alloc, told, &by_key, &verdicts)?;
    let ordered = in_order(list)?;
    let proposals = StatementsByTarget::of(ordered)?;
    Ok(proposals)
}

/// The sightings that show, where these are told: by what they are about, and those about one key
/// in their order.
pub(crate) fn sightings<'a>(
    alloc: Global,
    told: &[&'a Row],
) -> Result<StatementsByTarget<'a>, NoMemory>
    ensures { IfOk result (λ list. IsByTarget list (in_order goes_before
        (filter (is_least_sighting (map (λ r. r.now) told.now)) (map (λ r. r.now) told.now)))) }
{
    let by_key = StatementsByKey::of(alloc, told)?;
    let list = least_sightings(alloc, told, &by_key)?;
    let ordered = in_order(list)?;
    let sightings = StatementsByTarget::of(ordered)?;
    Ok(sightings)
}
