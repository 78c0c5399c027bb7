//! The copies of all owners and those that are gone, found once for each owner.

ghost use Rattle.std.specs.Prelude.{◌≡◌, Bool, ◌&&◌, ◌||◌, IfOk, OnOk};
ghost use Rattle.misp_ids.specs.declared.uid.OrgId.{OrgId as Owner};
ghost use Rattle.misp_ids.specs.declared.uid.EventId.{EventId as Event};
ghost use Rattle.misp_elem.specs.Parents.{event_key};
ghost use Rattle.misp_ids.specs.Same.{same_event, same_org};
ghost use Rattle.misp_model.specs.View.{is_row_of};
ghost use Rattle.misp_copies.specs.Table.{has_pair, IsCopies, IsTombstones};

use misp_elem::{KeyForm, Place, Row};
use misp_ids::{EventId, NoMemory, OrgId};
use std::alloc::Global;
use std::collections::BTreeSet;

/// Events and owners, as their numbers.
pub type Pairs = BTreeSet<(u128, u128)>;

// Adds an event and an owner.
fn put(pairs: &mut Pairs, event: EventId, owner: OrgId) -> Result<(), NoMemory>
    ensures { OnOk result ((e : Event) (w : Owner) →
        has_pair pairs.new e w
        ≡ (has_pair pairs.old e w || (same_event event e && same_org owner w))) }
{
    pairs.insert((event.0.0, owner.0.0))?;
    Ok(())
}

// Adds those of a row of the event itself, where it is wanted.
#[tactic(auto, unfolding(misp_model::specs::View::is_row_of, misp_elem::specs::SameKey::same_key, misp_elem::specs::SameKey::same_place, misp_elem::specs::Parents::event_key))]
fn add(pairs: &mut Pairs, row: &Row, wanted: bool) -> Result<(), NoMemory>
    ensures { OnOk result ((e : Event) (w : Owner) →
        has_pair pairs.new e w
        ≡ (has_pair pairs.old e w || (is_row_of w (event_key e) row.now && wanted))) }
{
    if !wanted {
        return Ok(());
    }
    match &row.key.form {
        KeyForm::Element {
            event,
            place: Place::Event,
        } => {
            put(pairs, *event, row.owner)?;
            Ok(())
        }
        _ => Ok(()),
    }
}

/// Those of whom there is a copy that is not gone.
#[tactic(auto, unfolding(misp_model::specs::View::has_copy), using(crate::proofs::Pairs::empty_has))]
pub(crate) fn copies(alloc: Global, rows: &[Row]) -> Result<Pairs, NoMemory>
    ensures { IfOk result (λ pairs. IsCopies pairs rows.now) }
{
    let mut pairs = BTreeSet::new(alloc);
    for row in rows {
        add(&mut pairs, row, !row.is_tombstone())?;
    }
    Ok(pairs)
}

/// Those whose copy is gone.
#[tactic(auto, unfolding(misp_model::specs::View::has_gone), using(crate::proofs::Pairs::empty_has))]
pub(crate) fn tombstones(alloc: Global, rows: &[Row]) -> Result<Pairs, NoMemory>
    ensures { IfOk result (λ pairs. IsTombstones pairs rows.now) }
{
    let mut pairs = BTreeSet::new(alloc);
    for row in rows {
        add(&mut pairs, row, row.is_tombstone())?;
    }
    Ok(pairs)
}

/// Whether the event and owner are among these.
#[tactic(auto, unfolding(crate::specs::Table::has_pair))]
pub(crate) fn has(pairs: &Pairs, event: &EventId, owner: &OrgId) -> bool
    ensures { result ≡ has_pair pairs.now event.now owner.now }
{
    pairs.contains(&(event.0.0, owner.0.0))
}
