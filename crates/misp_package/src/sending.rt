//! Whose copy of an event is sent.

ghost use Rattle.std.specs.Prelude.{◌≡◌, map};
ghost use Rattle.std.specs.List.{filter};
ghost use Rattle.std.specs.Option.{option_copied};
ghost use Rattle.misp_model.specs.View.{first_of_all};
ghost use Rattle.misp_package.specs.Passing.{better, is_candidate, is_owner_sent, route_of, sent_owner};

use crate::outward::lets_out;
use crate::via::Via;
use misp_copies::{is_before, is_itself, is_same_org};
use misp_elem::Row;
use misp_ids::{EventId, OrgId};

// Whether it is a row of the event itself that is let out.
#[tactic(auto, unfolding(crate::specs::Passing::is_candidate))]
fn is_candidate(row: &Row, event: &EventId, via: &Via) -> bool
    ensures { result ≡ is_candidate via.now.groups.now (route_of via.now) event.now row.now }
{
    is_itself(row, event) && lets_out(row, via)
}

// The best so far, or one more row, where that counts and goes before it.
fn better<'a>(best: Option<&'a Row>, row: &'a Row, counts: bool) -> Option<&'a Row>
    ensures { option_copied result ≡ better (option_copied best.entry) row.now counts }
{
    match best {
        Some(best) if !counts || !is_before(row, best) => Some(best),
        None if !counts => None,
        _ => Some(row),
    }
}

// The event row of the copy that is sent, where these are granted.
fn sent_row<'a>(granted: &[&'a Row], event: &EventId, via: &Via) -> Option<&'a Row>
    ensures { option_copied result ≡ first_of_all
        (filter (is_candidate via.now.groups.now (route_of via.now) event.now)
        (map (λ r. r.now) granted.now)) }
{
    let mut best = None;
    for row in granted {
        best = better(best, *row, is_candidate(row, event, via));
    }
    best
}

/// The owner of the copy that is sent, where these are granted.
#[tactic(auto, unfolding(crate::specs::Passing::sent_owner))]
pub(crate) fn sent_owner(granted: &[&Row], event: &EventId, via: &Via) -> Option<OrgId>
    ensures { result ≡ sent_owner (map (λ r. r.now) granted.now) via.now.groups.now
        (route_of via.now) event.now }
{
    match sent_row(granted, event, via) {
        Some(row) => Some(row.owner),
        None => None,
    }
}

/// Whether the owner is that of the copy that is sent.
#[tactic(auto, unfolding(crate::specs::Passing::is_owner_sent))]
pub(crate) fn is_sent(sent: &Option<OrgId>, owner: &OrgId) -> bool
    ensures { result ≡ is_owner_sent sent.now owner.now }
{
    match sent {
        Some(org) => is_same_org(org, owner),
        None => false,
    }
}
