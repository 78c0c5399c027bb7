//! Bytes under a number and a name, in the order of both.

ghost use Rattle.std.specs.Prelude.{◌≡◌, OnOk};
ghost use Rattle.std.specs.BTreeMap.{insert_entry, is_at, IsOrdered};
ghost use Rattle.misp_outside.specs.Stored.{key_order, set_back, undone};

use misp_ids::Items;
use std::alloc::AllocError;
use std::collections::BTreeMap;

/// A number and a name.
pub type Key<N> = (N, Vec<u8>);

/// The bytes under each number and name.
pub type Table<N> = BTreeMap<Key<N>, Items<u8>>;

/// A key, and the bytes that were under it before others were put there, if it was there.
pub type Before<N> = (Key<N>, Option<Items<u8>>);

/// Puts the bytes under the key, and notes what was there.
pub fn put<N: Ord + Copy>(
    table: &mut Table<N>,
    key: Key<N>,
    bytes: Items<u8>,
    before: &mut Vec<Before<N>>,
) -> Result<(), AllocError>
    ensures put { OnOk result (table.new.entries
        ≡ insert_entry (key_order N.cmp) table.old.entries key bytes) }
    ensures ordered { OnOk result (IsOrdered (key_order N.cmp) table.old) }
    ensures undo { undone (key_order N.cmp) before.new.items table.new.entries
        ≡ undone (key_order N.cmp) before.old.items table.old.entries }
{
    before.reserve(1)?;
    let name = Vec::from_slice(*key.1.allocator(), key.1.as_slice())?;
    let place = (key.0, name);
    let there = table.insert(key, bytes)?;
    before.push((place, there)).unwrap();
    Ok(())
}

/// Undoes what was put, the last first.
pub fn undo<N: Ord + Copy>(table: &mut Table<N>, mut before: Vec<Before<N>>)
    ensures { table.new.entries ≡ undone (key_order N.cmp) before.items table.old.entries }
{
    while let Some((key, there)) = before.pop() {
        set_back(table, &key, there);
    }
}

// Sets back what was under the key.
fn set_back<N: Ord + Copy>(table: &mut Table<N>, key: &Key<N>, there: Option<Items<u8>>)
    ensures { table.new.entries
        ≡ set_back (is_at (key_order N.cmp key.now)) there table.old.entries }
{
    match there {
        Some(bytes) => {
            if let Some(place) = table.get_mut(key) {
                *place = bytes;
            }
        }
        None => drop(table.remove(key)),
    }
}
