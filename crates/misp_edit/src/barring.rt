//! Which edits of a row are refused.

ghost use Rattle.std.specs.Prelude.{◌≡◌, eqb, IfErr, IfOk};
ghost use Rattle.std.specs.List.{find};
ghost use Rattle.std.specs.Option.{option_copied, option_map, option_to_list};
ghost use Rattle.misp_ids.specs.declared.label.Label.TheVariants as labels;
ghost use Rattle.misp_ids.specs.Moments.{last_stamp};
ghost use Rattle.misp_model.specs.Scene.{first_rule, is_newer_than};
ghost use Rattle.misp_edit.specs.Labels.{is_unusable};
ghost use Rattle.misp_copies.specs.Barring.{outcome, Names};
ghost use Rattle.misp_edit.specs.Changing.{late_rules, ruling};

use crate::labels::unusable_group;
use misp_copies::{ChangeFault, Viewer, may_change};
use misp_elem::Row;
use misp_ids::{EventId, GroupId, LAST_SECOND, Label, Stamp};

// The group that a given label names, if the caller may not use it.
fn unusable_given(label: Option<Label>, who: &Viewer) -> Option<GroupId>
    ensures { option_map labels.Group result
        ≡ find (is_unusable who.now.groups.now who.now.here who.now.org) (option_to_list label) }
{
    match label {
        Some(label) => unusable_group(label, who.groups, &who.here, &who.org),
        None => None,
    }
}

#[tactic(auto, unfolding(misp_model::specs::Scene::is_newer_than))]
fn is_newer_than(row: &Row, stamp: Option<Stamp>) -> bool
    ensures { result ≡ is_newer_than stamp row.now }
{
    match stamp {
        Some(stamp) => stamp.get() < row.stamp.get(),
        None => false,
    }
}

#[tactic(auto, unfolding(misp_ids::specs::Moments::last_stamp))]
fn has_last_stamp(row: &Row) -> bool
    ensures { result ≡ eqb row.now.stamp last_stamp }
{
    row.stamp.get() == LAST_SECOND
}

/// Whether the label that an edit gives, the stamp that it gives, or that of the row refuses it.
pub(crate) fn late_fault(
    own: Option<&Row>,
    label: Option<Label>,
    stamp: Option<Stamp>,
    who: &Viewer,
) -> Result<(), ChangeFault>
    ensures rule { outcome result ≡ first_rule (late_rules who.now.groups.now who.now.here
        who.now.org (option_copied own.entry) label stamp) }
    ensures names { IfErr result (Names label) }
{
    if let Some(group) = unusable_given(label, who) {
        return Err(ChangeFault::GroupNotUsable(group));
    }
    let row = match own {
        Some(row) => row,
        None => return Ok(()),
    };
    if is_newer_than(row, stamp) {
        return Err(ChangeFault::OlderTime);
    }
    if has_last_stamp(row) {
        return Err(ChangeFault::TimeLimit);
    }
    Ok(())
}

/// The row, where nothing that stands before its texts refuses a change of it.
pub(crate) fn admitted_row<'a>(
    rows: &[Row],
    who: &Viewer,
    event: &EventId,
    fits: bool,
    own: Option<&'a Row>,
    label: Option<Label>,
    stamp: Option<Stamp>,
) -> Result<Option<&'a Row>, ChangeFault>
    ensures rule { outcome result ≡ ruling rows.now who.now.groups.now who.now.here who.now.org
        event.now fits (option_copied own.entry) label stamp }
    ensures own { IfOk result (λ row. option_copied row ≡ option_copied own.entry) }
    ensures names { IfErr result (Names label) }
{
    match may_change(rows, who, event, fits) {
        Err(fault) => Err(fault),
        Ok(()) => match late_fault(own, label, stamp, who) {
            Err(fault) => Err(fault),
            Ok(()) => Ok(own),
        },
    }
}
