//! The stamps of an owner's rows, by their keys.

ghost use Rattle.std.specs.Prelude.{◌≡◌, ℕ, cond, leb, not, ◌&&◌, ◌||◌, Some, IfOk, OnOk};
ghost use Rattle.misp_elem.specs.SameKey.{same_key};
ghost use Rattle.misp_elem.specs.declared.key.KeyForm.{KeyForm};
ghost use Rattle.misp_ids.specs.Same.{same_org};
ghost use Rattle.misp_model.specs.View.{is_row_of};
ghost use Rattle.misp_package.specs.Stamps.{is_as_new, stamp_at, AreNewest};

use misp_copies::is_owned;
use misp_elem::{Key, Row};
use misp_ids::{NoMemory, OrgId, Stamp};
use std::alloc::Global;
use std::collections::BTreeMap;

/// Stamps, by the keys of rows.
pub type Stamps = BTreeMap<Key, Stamp>;

/// Whether there is a stamp at the row's key, as new as the row's.
#[tactic(auto, using(crate::proofs::StampLemmas::found_by_order))]
pub(crate) fn is_as_new(stamps: &Stamps, row: &Row) -> bool
    ensures { result ≡ is_as_new (stamp_at stamps.now row.now.key) row.now.stamp }
{
    match stamps.get(&row.key) {
        Some(stamp) => row.stamp.get() <= stamp.get(),
        None => false,
    }
}

// With the row's stamp at its key.
fn put(stamps: &mut Stamps, row: &Row) -> Result<(), NoMemory>
    ensures { OnOk result ((k : KeyForm) → stamp_at stamps.new k
        ≡ cond (same_key row.now.key k) (Some row.now.stamp) (stamp_at stamps.old k)) }
{
    stamps.insert(row.key, row.stamp)?;
    Ok(())
}

/// With the row's stamp at its key, if it is the owner's.
pub(crate) fn replace(stamps: &mut Stamps, owner: &OrgId, row: &Row) -> Result<(), NoMemory>
    ensures { OnOk result ((k : KeyForm) (s : ℕ) → is_as_new (stamp_at stamps.new k) s
        ≡ cond (is_row_of owner.now k row.now) (leb s row.now.stamp)
        (is_as_new (stamp_at stamps.old k) s)) }
{
    if is_owned(row, owner) {
        put(stamps, row)?;
    }
    Ok(())
}

// Whether it is the owner's, and no stamp at its key is as new.
fn is_new(stamps: &Stamps, owner: &OrgId, row: &Row) -> bool
    ensures { result ≡ (same_org row.now.owner owner.now
        && not (is_as_new (stamp_at stamps.now row.now.key) row.now.stamp)) }
{
    is_owned(row, owner) && !is_as_new(stamps, row)
}

// With the row's stamp at its key, if it is the owner's and none is there that is as new.
fn add(stamps: &mut Stamps, owner: &OrgId, row: &Row) -> Result<(), NoMemory>
    ensures { OnOk result ((k : KeyForm) (s : ℕ) → is_as_new (stamp_at stamps.new k) s
        ≡ (is_as_new (stamp_at stamps.old k) s
        || (is_row_of owner.now k row.now && leb s row.now.stamp))) }
{
    if is_new(stamps, owner, row) {
        put(stamps, row)?;
    }
    Ok(())
}

/// The newest stamps of the owner's rows.
#[tactic(auto, using(crate::proofs::StampLemmas::none_at))]
pub(crate) fn newest(alloc: Global, rows: &[Row], owner: &OrgId) -> Result<Stamps, NoMemory>
    ensures { IfOk result (λ stamps. AreNewest stamps owner.now rows.now) }
{
    let mut stamps = BTreeMap::new(alloc);
    for row in rows {
        add(&mut stamps, owner, row)?;
    }
    Ok(stamps)
}
