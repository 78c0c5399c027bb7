//! The package with some of its rows alone.

ghost use Rattle.std.specs.Prelude.{◌≡◌, ◌||◌, filter, IfOk, OnOk};
ghost use Rattle.std.specs.List.{list_any};
ghost use Rattle.misp_elem.specs.SameKey.{same_key};
ghost use Rattle.misp_elem.specs.declared.key.KeyForm.{KeyForm};
ghost use Rattle.misp_model.specs.Manifests.{only_of};
ghost use Rattle.misp_wanted.specs.Wanting.{has_key, is_kept_by};

use misp_copies::is_itself;
use misp_elem::{Key, Row};
use misp_ids::{EventId, Items, NoMemory};
use misp_model::{Package, PackageFields};
use std::alloc::Global;
use std::collections::BTreeSet;

/// Keys, each once.
type Keys = BTreeSet<Key>;

// With one key more.
fn put(keys: &mut Keys, key: Key) -> Result<(), NoMemory>
    ensures { OnOk result ((k : KeyForm) → has_key keys.new k
        ≡ (has_key keys.old k || same_key k key)) }
{
    keys.insert(key)?;
    Ok(())
}

// These keys.
fn key_set(alloc: Global, list: &[Key]) -> Result<Keys, NoMemory>
    ensures { IfOk result (λ keys. (k : KeyForm) → has_key keys k
        ≡ list_any (same_key k) list.now) }
{
    let mut keys = BTreeSet::new(alloc);
    for key in list {
        put(&mut keys, *key)?;
    }
    Ok(keys)
}

// Whether the key is among these.
#[tactic(auto, unfolding(crate::specs::Wanting::has_key))]
fn has_key(keys: &Keys, key: &Key) -> bool
    ensures { result ≡ has_key keys.now key.now }
{
    keys.contains(key)
}

// Whether it is the event's own row, or one of these keys.
#[tactic(auto, unfolding(crate::specs::Wanting::is_kept_by))]
fn is_kept(keys: &Keys, event: &EventId, row: &Row) -> bool
    ensures { result ≡ is_kept_by keys.now event.now row.now }
{
    is_itself(row, event) || has_key(keys, &row.key)
}

// Those of the rows.
fn rows_kept(keys: &Keys, event: &EventId, rows: Items<Row>) -> Items<Row>
    ensures { result ≡ filter (is_kept_by keys.now event.now) rows }
{
    let mut rows = rows.into_vec();
    rows.retain(|row| is_kept(keys, event, row));
    Items::of(rows)
}

/// The package with the event's own row and those of these keys alone. Other keys are passed over.
/// No row is copied.
pub fn only(alloc: Global, package: Package, keys: &[Key]) -> Result<Package, NoMemory>
    ensures { IfOk result (λ p. p ≡ only_of keys.now «package») }
{
    let set = key_set(alloc, keys)?;
    let fields = package.fields;
    let event = fields.event;
    let rows = rows_kept(&set, &event, fields.rows);
    Ok(Package::of(PackageFields {
        event,
        part: fields.part,
        parts: fields.parts,
        rows,
    }))
}
