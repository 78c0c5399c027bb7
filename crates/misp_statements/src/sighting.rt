//! Sightings.

ghost use Rattle.std.specs.Prelude.{◌≡◌, ℕ, List, IfOk, IfErr};
ghost use Rattle.misp_ids.specs.Moments as moments;
ghost use Rattle.misp_elem.specs.Fields.{IsStamp, IsText};
ghost use Rattle.misp_elem.specs.Row.{AreRows, IsRow};
ghost use Rattle.misp_elem.specs.declared.key.KeyForm.TheVariants.{Sighting};
ghost use Rattle.misp_model.specs.declared.ask.Ask.TheVariants.{Sight};
ghost use Rattle.misp_model.specs.Answers.{ask_rules};
ghost use Rattle.misp_model.specs.Place.{IsAttributePlace};
ghost use Rattle.misp_model.specs.Scene.{first_rule};
ghost use Rattle.misp_model.specs.Statement.{IsSightingDraft};
ghost use Rattle.misp_model.specs.Statements.{sight_rules};
ghost use Rattle.misp_copies.specs.Scenes.{scene_for};
ghost use Rattle.misp_copies.specs.Barring.{NamesUuid, Refuses, outcome};
ghost use Rattle.misp_statements.specs.Rows.{date_of_sighting, sighting_body, sighting_row};
ghost use Rattle.misp_statements.specs.Saving.{Saves};

use crate::admitting::{admitted, alone, statement_row};
use crate::targets::{has_own, sees_live};
use misp_copies::{ChangeFault, Viewer, has_gone};
use misp_elem::{Content, Key, KeyForm, Place, Row, Shared, SightingBody};
use misp_ids::{ElemId, EventId, InstId, NoMemory, OrgId, Stamp, Text};
use misp_model::{AttributePlace, SightingDraft, SightingDraftFields};
use std::alloc::Global;

fn sighting_key(event: EventId, target: Place, at: InstId, by: OrgId, uuid: ElemId) -> Key
    requires { IsAttributePlace target }
    ensures { result ≡ Sighting event target at by uuid }
{
    Key {
        form: KeyForm::Sighting {
            event,
            target,
            at,
            by,
            uuid,
        },
    }
}

// Which rule refuses the sighting.
fn may_sight(
    event: &EventId,
    target: Place,
    draft: &SightingDraftFields,
    who: &Viewer<'_>,
    rows: &[Row],
) -> Result<(), ChangeFault>
    requires { IsAttributePlace target }
    ensures rule { (act : ℕ) (name today : List ℕ) (now : moments.Stamp) → outcome result
        ≡ first_rule (sight_rules (scene_for act who.now name now today rows.now) event.now target
        draft.now) }
    ensures names { IfErr result (NamesUuid draft.now.uuid) }
{
    let seen = sees_live(rows, who, event, &target);
    let gone = has_gone(rows, &who.org, event);
    let made = has_own(
        rows,
        &who.org,
        &sighting_key(*event, target, who.here, who.org, draft.uuid),
    );
    admitted(seen, gone, made, ChangeFault::ElementExists(draft.uuid))
}

// The date that is given, or else the moment.
fn date_of(given: Option<Stamp>, now: Stamp) -> Stamp
    ensures { result ≡ date_of_sighting now given }
{
    match given {
        Some(date) => date,
        None => now,
    }
}

fn sighting_body(
    alloc: Global,
    draft: &SightingDraftFields,
    name: &Text,
    now: Stamp,
) -> Result<Shared<SightingBody>, NoMemory>
    ensures value { IfOk result (λ made. made ≡ sighting_body name.now now draft.now) }
    ensures is_date { IfOk result (λ made. IsStamp made.date) }
{
    let date = date_of(draft.date, now);
    let made = SightingBody {
        by_name: name.clone()?,
        kind: draft.kind,
        date,
        source: draft.source.clone()?,
    };
    Ok(Shared::of(alloc, made)?)
}

fn sighting_row(
    alloc: Global,
    event: EventId,
    target: Place,
    draft: &SightingDraftFields,
    at: InstId,
    by: OrgId,
    name: &Text,
    now: Stamp,
) -> Result<Row, NoMemory>
    requires target { IsAttributePlace target }
    requires draft { IsSightingDraft draft.now }
    requires name { IsText 0 64 name.now }
    ensures value { IfOk result (λ row.
        row ≡ sighting_row at by name.now now event target draft.now) }
    ensures is_row { IfOk result IsRow }
{
    let _now = now.get();
    let content = Content::Sighting(sighting_body(alloc, draft, name, now)?);
    let key = sighting_key(event, target, at, by, draft.uuid);
    Ok(statement_row(by, now, key.form, content))
}

/// The row that a sighting of the attribute at this place writes. The rows are those that the
/// caller knows of the event.
pub fn sight(
    alloc: Global,
    event: &EventId,
    target: &AttributePlace,
    draft: &SightingDraft,
    who: &Viewer<'_>,
    name: &Text,
    now: Stamp,
    rows: &[Row],
) -> Result<Vec<Row>, ChangeFault>
    requires name { IsText 0 64 name.now }
    ensures err { (act : ℕ) (today : List ℕ) → IfErr result
        (Refuses (ask_rules (scene_for act who.now name.now now today rows.now)
        (Sight event.now target.now draft.now))) }
    ensures ok { (act : ℕ) (today : List ℕ) → IfOk result (λ made.
        Saves (scene_for act who.now name.now now today rows.now)
        (Sight event.now target.now draft.now) made.items) }
    ensures are_rows { IfOk result (λ made. AreRows made.items) }
    ensures names { IfErr result (NamesUuid draft.now.uuid) }
{
    let target = target.get();
    let draft = draft.get();
    match may_sight(event, target, draft, who, rows) {
        Err(fault) => Err(fault),
        Ok(()) => {
            let row = sighting_row(alloc, *event, target, draft, who.here, who.org, name, now)?;
            Ok(alone(alloc, row)?)
        }
    }
}
