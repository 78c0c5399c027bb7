//! Reads the package of a wanted list.

ghost use Rattle.std.specs.Prelude.{◌≡◌, IfOk, IfSome};
ghost use Rattle.std.specs.List.{list_all, list_any};
ghost use Rattle.misp_elem.specs.SameKey.{same_key};
ghost use Rattle.misp_model.specs.Manifests.{is_asked_for};
ghost use Rattle.misp_model.specs.Package.{IsPackage};
ghost use Rattle.misp_client.specs.Bodies.{is_for, package_in};

use misp_copies::{are_same, is_itself};
use misp_elem::{DecodeFault, Key, Row};
use misp_ids::{EventId, NoMemory};
use misp_manifest::Wanted;
use misp_model::Package;
use misp_package::read_package;
use std::alloc::Global;

// Whether the key is one of these.
fn is_one_of(keys: &[Key], key: &Key) -> bool
    ensures { result ≡ list_any (same_key key.now) keys.now }
{
    keys.iter().any(|one| are_same(key, one))
}

// Whether it is the event's own row, or of one of these keys.
#[tactic(auto, unfolding(misp_model::specs::Manifests::is_asked_for))]
fn is_asked_for(event: &EventId, keys: &[Key], row: &Row) -> bool
    ensures { result ≡ is_asked_for event.now keys.now row.now }
{
    is_itself(row, event) || is_one_of(keys, &row.key)
}

// Whether each row is.
fn are_asked_for(event: &EventId, keys: &[Key], rows: &[Row]) -> bool
    ensures { result ≡ list_all (is_asked_for event.now keys.now) rows.now }
{
    rows.iter().all(|row| is_asked_for(event, keys, row))
}

// Whether the package is that of the wanted list.
#[tactic(auto, unfolding(crate::specs::Bodies::is_for, misp_ids::specs::Same::same_event))]
fn is_for(wanted: &Wanted, parcel: &Package) -> bool
    ensures { result ≡ is_for wanted.now parcel.now }
{
    let asked = wanted.get();
    let fields = parcel.get();
    fields.event == asked.event
        && fields.part == asked.part
        && are_asked_for(&asked.event, asked.keys.as_slice(), fields.rows.as_slice())
}

/// The package of the wanted list that a body spells.
#[tactic(auto, unfolding(crate::specs::Bodies::package_in))]
pub(crate) fn read_part(
    alloc: Global,
    body: &[u8],
    wanted: &Wanted,
) -> Result<Option<Package>, NoMemory>
    ensures value { IfOk result (λ found. found ≡ package_in wanted.now body.now) }
    ensures fits { IfOk result (λ found. IfSome found IsPackage) }
{
    match read_package(alloc, body) {
        Ok(parcel) => {
            if is_for(wanted, &parcel) {
                Ok(Some(parcel))
            } else {
                Ok(None)
            }
        }
        Err(DecodeFault::NoMemory) => Err(NoMemory),
        Err(DecodeFault::BadRow { .. }) => Ok(None),
    }
}
