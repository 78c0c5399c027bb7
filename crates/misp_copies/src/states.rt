//! What an owner has of an event.

ghost use Rattle.std.specs.Prelude.{◌≡◌, ◌&&◌, not};
ghost use Rattle.std.specs.List.{list_any};
ghost use Rattle.misp_elem.specs.RowFacts.{is_tombstone};
ghost use Rattle.misp_ids.specs.declared.uid.EventId.{EventId};
ghost use Rattle.misp_ids.specs.Same.{same_inst};
ghost use Rattle.misp_model.specs.Arrival.{is_made_at};
ghost use Rattle.misp_copies.specs.Copies.{AreOf, is_event_key, is_event_row, copy_state, state_by, state_of, takes};

use misp_elem::{Key, KeyForm, Place, Row};
use misp_ids::{InstId, OrgId};

/// What an owner has of an event.
#[derive(Clone, Copy, PartialEq, Eq)]
pub enum CopyState {
    /// Nothing.
    None,
    /// A copy that was added at this instance.
    Home,
    /// A copy that came by a synchronisation.
    Carried,
    /// The tombstone of a deleted event.
    Gone,
}

#[tactic(auto, unfolding(crate::specs::Copies::is_event_key))]
fn is_event_key(key: &KeyForm) -> bool
    ensures { result ≡ is_event_key key.now }
{
    match key {
        KeyForm::Element {
            place: Place::Event,
            ..
        } => true,
        _ => false,
    }
}

/// Whether it is the owner's row of an event itself.
#[tactic(auto, unfolding(crate::specs::Copies::is_event_row, misp_ids::specs::Same::same_org))]
pub fn is_event_row(row: &Row, owner: &OrgId) -> bool
    ensures { result ≡ is_event_row owner.now row.now }
{
    row.owner == *owner && is_event_key(&row.key.form)
}

// By whether there is a tombstone, a copy that was added here, and any copy.
#[tactic(auto, unfolding(crate::specs::Copies::state_by))]
fn state_by(gone: bool, home: bool, copy: bool) -> CopyState
    ensures { result ≡ state_by gone home copy }
{
    if gone {
        CopyState::Gone
    } else if home {
        CopyState::Home
    } else if copy {
        CopyState::Carried
    } else {
        CopyState::None
    }
}

// Whether the owner has the tombstone of an event.
fn has_tombstone(rows: &[Row], owner: &OrgId) -> bool
    ensures { result ≡ list_any (λ row. is_event_row owner.now row && is_tombstone row) rows.now }
{
    rows.iter()
        .any(|row| is_event_row(row, owner) && row.is_tombstone())
}

// Whether it has a copy that was added at this instance.
fn has_home(rows: &[Row], owner: &OrgId) -> bool
    ensures { result ≡ list_any (λ row.
        is_event_row owner.now row && (not (is_tombstone row) && not row.carried)) rows.now }
{
    rows.iter().any(|row| is_event_row(row, owner) && (!row.is_tombstone() && !row.carried))
}

// Whether it has a copy.
fn has_copy(rows: &[Row], owner: &OrgId) -> bool
    ensures { result ≡ list_any (λ row.
        is_event_row owner.now row && not (is_tombstone row)) rows.now }
{
    rows.iter()
        .any(|row| is_event_row(row, owner) && !row.is_tombstone())
}

// Read off the rows of one event.
#[tactic(auto, unfolding(crate::specs::Copies::state_of))]
fn state_of(rows: &[Row], owner: &OrgId) -> CopyState
    ensures { result ≡ state_of rows.now owner.now }
{
    state_by(
        has_tombstone(rows, owner),
        has_home(rows, owner),
        has_copy(rows, owner),
    )
}

/// The state of the owner's copy, where the rows are those of one event.
#[tactic(auto, using(crate::proofs::CopyLemmas::state_is))]
pub fn state(rows: &[Row], owner: &OrgId) -> CopyState
    ensures { (e : EventId) → AreOf e rows.now → result ≡ copy_state rows.now owner.now e }
{
    state_of(rows, owner)
}

// Whether the two are the same instance.
#[tactic(auto, unfolding(misp_ids::specs::Same::same_inst))]
fn is_same_inst(a: &InstId, b: &InstId) -> bool
    ensures { result ≡ same_inst a.now b.now }
{
    a.text() == b.text()
}

/// Whether it is the key of a statement that was made at the instance.
#[tactic(auto, unfolding(misp_model::specs::Arrival::is_made_at))]
pub fn is_made_at(key: &Key, here: &InstId) -> bool
    ensures { result ≡ is_made_at here.now key.now }
{
    match &key.form {
        KeyForm::Element { .. } | KeyForm::Reference { .. } => false,
        KeyForm::Proposal { name, .. } => is_same_inst(&name.at, here),
        KeyForm::Verdict { at, .. } => is_same_inst(at, here),
        KeyForm::Sighting { at, .. } => is_same_inst(at, here),
    }
}

/// Whether a copy of this state takes a row of this key that arrives at the instance, as far as
/// the state and the place where a statement was made decide it.
#[tactic(auto, unfolding(crate::specs::Copies::takes))]
pub fn takes(state: CopyState, key: &Key, here: &InstId) -> bool
    ensures { result ≡ takes state key.now here.now }
{
    match state {
        CopyState::Gone => false,
        CopyState::Home => key.is_statement() && !is_made_at(key, here),
        CopyState::None | CopyState::Carried => !is_made_at(key, here),
    }
}
