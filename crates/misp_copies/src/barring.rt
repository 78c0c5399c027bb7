//! Who may not change an event.

ghost use Rattle.std.specs.Prelude.{◌≡◌, true, is_some, IfErr, Option};
ghost use Rattle.misp_ids.specs.declared.label.Label as label_of;
ghost use Rattle.misp_ids.specs.declared.uid.ElemId.{ElemId};
ghost use Rattle.misp_model.specs.View.{has_copy, has_home, granted_somewhere};
ghost use Rattle.misp_elem.specs.Parents.{event_key};
ghost use Rattle.misp_copies.specs.Barring.{outcome, rule_of, barring, lacking, Names, NamesUuid};

use crate::change_fault::ChangeFault;
use crate::copies::{has_copy, has_home};
use crate::own::sees_event;
use crate::viewer::Viewer;
use misp_elem::Row;
use misp_ids::EventId;

/// Who may not change the event: the copy is none of the caller's, or one that came, or has nothing
/// that fits.
#[tactic(auto, unfolding(crate::specs::Barring::barring, crate::specs::Barring::rule_of))]
pub fn may_change(
    rows: &[Row],
    who: &Viewer,
    event: &EventId,
    fits: bool,
) -> Result<(), ChangeFault>
    ensures rule { outcome result ≡ barring (has_home rows.now who.now.org event.now)
        (has_copy rows.now who.now.org event.now)
        (granted_somewhere rows.now who.now.groups.now who.now.here who.now.org
        (event_key event.now)) fits }
    ensures names { (l : Option label_of.Label) → IfErr result (Names l) }
    ensures uuid { (u : ElemId) → IfErr result (NamesUuid u) }
    ensures err { IfErr result (λ fault. is_some (rule_of fault) ≡ true) }
{
    if has_home(rows, &who.org, event) {
        return if fits {
            Ok(())
        } else {
            Err(ChangeFault::NotGranted)
        };
    }
    if has_copy(rows, &who.org, event) {
        return Err(ChangeFault::LockedCopy);
    }
    if sees_event(rows, who, event) {
        return Err(ChangeFault::NotOwner);
    }
    Err(ChangeFault::NotGranted)
}

/// Who may not delete the event: the caller that has no copy of it.
#[tactic(auto, unfolding(crate::specs::Barring::lacking, crate::specs::Barring::rule_of))]
pub fn may_delete(rows: &[Row], who: &Viewer, event: &EventId) -> Result<(), ChangeFault>
    ensures rule { outcome result ≡ lacking (has_copy rows.now who.now.org event.now)
        (granted_somewhere rows.now who.now.groups.now who.now.here who.now.org
        (event_key event.now)) }
    ensures err { IfErr result (λ fault. is_some (rule_of fault) ≡ true) }
{
    if has_copy(rows, &who.org, event) {
        return Ok(());
    }
    if sees_event(rows, who, event) {
        return Err(ChangeFault::NotOwner);
    }
    Err(ChangeFault::NotGranted)
}
