//! Adding an event.

ghost use Rattle.std.specs.Prelude.{◌≡◌, ℕ, IfOk, IfErr, is_some, true};
ghost use Rattle.misp_dates.specs.Dates.{date_of};
ghost use Rattle.misp_elem.specs.Fields.{IsText};
ghost use Rattle.misp_elem.specs.Row.{AreRows};
ghost use Rattle.misp_model.specs.declared.change.Change.TheVariants.{AddEvent};
ghost use Rattle.misp_edit.specs.Adding.{Adds};
ghost use Rattle.misp_copies.specs.Scenes.{scene_for};
ghost use Rattle.misp_edit.specs.Refusals.{Refuses};

use crate::fault::AddFault;
use crate::refusing::admitted;
use crate::rows::added_rows;
use misp_copies::Viewer;
use misp_elem::{Row, Submission};
use misp_ids::{Stamp, Text};
use std::alloc::Global;

/// The rows that adding an event writes: the event's own, those of its parts in their order, and
/// those of its references that name a part of the same body or a live element of the caller's
/// copy. An event without a date has that of the moment. The rows are those that the caller knows
/// of the event.
pub fn add_event(
    alloc: Global,
    submission: Submission,
    who: &Viewer,
    name: &Text,
    now: Stamp,
    rows: &[Row],
) -> Result<Vec<Row>, AddFault>
    requires name { IsText 0 64 name.now }
    requires body { is_some submission.body ≡ true }
    ensures err { (act : ℕ) → IfErr result
        (Refuses (scene_for act who.now name.now now (date_of now) rows.now)
        (AddEvent submission)) }
    ensures ok { (act : ℕ) → IfOk result (λ added.
        Adds (scene_for act who.now name.now now (date_of now) rows.now)
        submission added.items) }
    ensures are_rows { IfOk result (λ added. AreRows added.items) }
{
    match admitted(alloc, &submission, who.org, who.groups, &who.here, rows) {
        Err(fault) => Err(fault),
        Ok(targets) => Ok(added_rows(alloc, submission, &targets, who.org, name, now)?),
    }
}
