//! Rows that ascend by their keys, as a keeper has those of one owner and event.

ghost use Rattle.std.specs.Prelude.{◌≡◌, ◌&&◌, Bool, false, true, leb};
ghost use Rattle.std.specs.List.{find, list_any};
ghost use Rattle.std.specs.List.Sorted.{IsStrictlySortedBy};
ghost use Rattle.std.specs.Option.{option_copied};
ghost use Rattle.std.specs.Ordering.{is_lt};
ghost use Rattle.misp_lists.specs.Prelude.{option_map_or};
ghost use Rattle.misp_elem.specs.SameKey.{same_key};
ghost use Rattle.misp_elem.specs.declared.row.RowFields.{RowFields};
ghost use Rattle.misp_model.specs.View.{is_row_of};
ghost use Rattle.misp_copies.specs.Copies.{copy_state};
ghost use Rattle.misp_copies.specs.Keys.{key_cmp};
ghost use Rattle.misp_package.specs.Landing.{state_by_row};
ghost use Rattle.misp_package.specs.Packing.{key_order};

use misp_copies::{CopyState, event_key, is_owned};
use misp_elem::{Key, Row, compare_keys};
use misp_ids::{EventId, OrgId};
use misp_manifest::KeyStamp;
use std::cmp::Ordering;

// How the key of a row stands to a key.
fn compare(row: &Row, key: &Key) -> Ordering
    ensures { result ≡ key_cmp row.now.key key.now }
{
    let _form = key.form;
    compare_keys(&row.key, key)
}

// Whether the key of the first goes before that of the second.
#[tactic(auto, unfolding(misp_package::specs::Packing::key_order))]
fn goes_before(a: &Row, b: &Row) -> bool
    ensures { result ≡ is_lt (key_order a.now b.now) }
{
    compare(a, &b.key).is_lt()
}

/// Whether the rows ascend by their keys.
pub fn ascend(held: &[Row]) -> bool
    ensures { result ≡ true → IsStrictlySortedBy key_order held.now }
{
    held.is_sorted_by(|a, b| goes_before(a, b))
}

// The row of the key.
fn row_at<'a>(held: &'a [Row], key: &Key) -> Option<&'a Row>
    ensures { IsStrictlySortedBy key_order held.now →
        option_copied result ≡ find (λ row. same_key row.key key.now) held.now }
{
    match held.binary_search_by(|row| compare(row, key)) {
        Ok(place) => Some(&held[place]),
        Err(_) => None,
    }
}

// The owner's row of the key: what tells of it tells of all that the owner has at the key.
fn row_of<'a>(held: &'a [Row], owner: &OrgId, key: &Key) -> Option<&'a Row>
    ensures { IsStrictlySortedBy key_order held.now → (also : RowFields → Bool) →
        list_any (λ row. is_row_of owner.now key.now row && also row) held.now
        ≡ option_map_or also (option_copied result) false }
{
    match row_at(held, key) {
        Some(row) => {
            if is_owned(row, owner) {
                Some(row)
            } else {
                None
            }
        }
        None => None,
    }
}

/// Whether the owner has a row of the key that is as new.
pub(crate) fn has_as_new(held: &[Row], owner: &OrgId, told: &KeyStamp) -> bool
    ensures { IsStrictlySortedBy key_order held.now → result ≡ list_any (λ row.
        is_row_of owner.now told.now.key row && leb told.now.stamp row.stamp) held.now }
{
    match row_of(held, owner, &told.key) {
        Some(row) => told.stamp.get() <= row.stamp.get(),
        None => false,
    }
}

// What an owner has of an event by its own row.
#[tactic(auto, unfolding(misp_package::specs::Landing::state_by_row))]
fn state_by_row(row: &Row) -> CopyState
    ensures { result ≡ state_by_row row.now }
{
    if row.is_tombstone() {
        CopyState::Gone
    } else if row.carried {
        CopyState::Carried
    } else {
        CopyState::Home
    }
}

/// What the owner has of the event.
pub(crate) fn state(held: &[Row], owner: &OrgId, event: &EventId) -> CopyState
    ensures { IsStrictlySortedBy key_order held.now →
        result ≡ copy_state held.now owner.now event.now }
{
    match row_of(held, owner, &event_key(event)) {
        Some(row) => state_by_row(row),
        None => CopyState::None,
    }
}
