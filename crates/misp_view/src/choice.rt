//! Which copy of an event is chosen.

ghost use Rattle.std.specs.Prelude.{◌≡◌, true};
ghost use Rattle.std.specs.List.{Contains};
ghost use Rattle.std.specs.Option.{option_copied, option_map};
ghost use Rattle.misp_elem.specs.Parents.{event_key};
ghost use Rattle.misp_elem.specs.SameKey.{same_key};
ghost use Rattle.misp_model.specs.View.{has_copy, chosen};
ghost use Rattle.misp_view.specs.View.{better, is_granted_itself};

use misp_copies::{Viewer, has_copy, is_before, is_itself, is_open};
use misp_elem::Row;
use misp_groups::Groups;
use misp_ids::{EventId, InstId, OrgId};

// The best so far, or one more row, where that counts and goes before it.
fn better<'a>(best: Option<&'a Row>, row: &'a Row, counts: bool) -> Option<&'a Row>
    ensures { option_copied result ≡ better (option_copied best.entry) row.now counts }
{
    match best {
        Some(best) if !counts || !is_before(row, best) => Some(best),
        None if !counts => None,
        _ => Some(row),
    }
}

// Whether a row of the event itself has a copy beside it: it is one where it is no tombstone, so
// only for a tombstone the other rows are looked through.
fn is_of_copy(rows: &[Row], event: &EventId, row: &Row) -> bool
    ensures { Contains rows.now row.now → same_key row.now.key (event_key event.now) ≡ true →
        result ≡ has_copy rows.now row.now.owner event.now }
{
    if !row.is_tombstone() {
        return true;
    }
    has_copy(rows, &row.owner, event)
}

// Whether it is a row of the event itself that is granted.
fn is_candidate(rows: &[Row], who: &Viewer, event: &EventId, row: &Row) -> bool
    ensures { Contains rows.now row.now → result
        ≡ is_granted_itself who.now.groups.now who.now.here who.now.org event.now rows.now row.now }
{
    if !is_itself(row, event) {
        return false;
    }
    if !is_open(row, who) {
        return false;
    }
    is_of_copy(rows, event, row)
}

/// The event row of the chosen copy.
pub(crate) fn chosen_row<'a>(rows: &'a [Row], who: &Viewer, event: &EventId) -> Option<&'a Row>
    ensures { option_copied result
        ≡ chosen rows.now who.now.groups.now who.now.here who.now.org event.now }
{
    let mut best = None;
    for row in rows {
        best = better(best, row, is_candidate(rows, who, event, row));
    }
    best
}

/// Whose copy of the event is chosen for the organisation at this instance, of those granted to it:
/// that of the greatest stamp, of equals one of this instance, and of equals that of the least
/// owner.
pub fn chosen(
    rows: &[Row],
    groups: &Groups,
    here: &InstId,
    org: &OrgId,
    event: &EventId,
) -> Option<OrgId>
    ensures { result
        ≡ option_map (λ row. row.owner) (chosen rows.now groups.now here.now org.now event.now) }
{
    let who = Viewer {
        groups,
        here: *here,
        org: *org,
    };
    match chosen_row(rows, &who, event) {
        Some(row) => Some(row.owner),
        None => None,
    }
}
