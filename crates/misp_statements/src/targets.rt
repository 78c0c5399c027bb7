//! What a statement is on, and whether its maker has made it.

ghost use Rattle.std.specs.Prelude.{◌≡◌, ◌&&◌, ℕ, List};
ghost use Rattle.std.specs.List.{list_any};
ghost use Rattle.misp_ids.specs.Moments as moments;
ghost use Rattle.misp_elem.specs.SameKey.{same_key};
ghost use Rattle.misp_elem.specs.declared.key.KeyForm.TheVariants.{Element};
ghost use Rattle.misp_model.specs.Scene as scene;
ghost use Rattle.misp_model.specs.Statements as statements;
ghost use Rattle.misp_model.specs.View.{granted, is_live, is_row_of};
ghost use Rattle.misp_copies.specs.Scenes.{scene_for};

use misp_copies::{Viewer, are_same, element_key, is_granted, is_row_of, live, sees_event};
use misp_elem::{Key, Place, Row};
use misp_ids::{EventId, OrgId};

// Whether it is a row of this key that is granted and live.
fn is_seen_live(row: &Row, rows: &[Row], who: &Viewer<'_>, key: &Key) -> bool
    ensures { result ≡ (same_key row.now.key key.now
        && (granted rows.now who.now.groups.now who.now.here who.now.org row.now
        && is_live rows.now row.now)) }
{
    are_same(&row.key, key) && (is_granted(rows, who, row) && live(rows, row))
}

// Whether there is one at this place.
fn are_seen_live(rows: &[Row], who: &Viewer<'_>, event: &EventId, place: &Place) -> bool
    ensures { result ≡ list_any (λ row. same_key row.key (Element event.now place.now)
        && (granted rows.now who.now.groups.now who.now.here who.now.org row
        && is_live rows.now row)) rows.now }
{
    let key = element_key(*event, *place);
    rows.iter().any(|row| is_seen_live(row, rows, who, &key))
}

// Whether the element at this place is granted in some copy, and live there.
pub(crate) fn sees_live(rows: &[Row], who: &Viewer<'_>, event: &EventId, place: &Place) -> bool
    ensures { (act : ℕ) (name today : List ℕ) (now : moments.Stamp) → result
        ≡ scene.sees_live (scene_for act who.now name now today rows.now)
        (Element event.now place.now) }
{
    are_seen_live(rows, who, event, place)
}

// Whether the event is granted, or the element at this place granted and live.
#[tactic(auto, unfolding(misp_model::specs::Statements::sees_target, misp_model::specs::Scene::sees))]
pub(crate) fn sees_target(rows: &[Row], who: &Viewer<'_>, event: &EventId, place: &Place) -> bool
    ensures { (act : ℕ) (name today : List ℕ) (now : moments.Stamp) → result
        ≡ statements.sees_target (scene_for act who.now name now today rows.now)
        event.now place.now }
{
    match place {
        Place::Event => sees_event(rows, who, event),
        Place::Object(_) | Place::Attribute(_) | Place::ObjectAttribute(_, _) => {
            sees_live(rows, who, event, place)
        }
    }
}

// Whether the owner has a row of this key.
pub(crate) fn has_own(rows: &[Row], owner: &OrgId, key: &Key) -> bool
    ensures { result ≡ list_any (is_row_of owner.now key.now) rows.now }
{
    rows.iter().any(|row| is_row_of(row, owner, key))
}
