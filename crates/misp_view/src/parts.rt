//! What belongs to one object.

ghost use Rattle.std.specs.Prelude.{◌≡◌, map, eqb, IfOk};
ghost use Rattle.std.specs.List.{filter};
ghost use Rattle.misp_view.specs.Parts.{around, IsByObject, Rises};

use misp_elem::{KeyForm, Place, Row};
use misp_ids::NoMemory;

// The number of the object that it is, or that it is in.
#[tactic(auto, unfolding(crate::specs::Parts::around))]
fn around(row: &Row) -> u128
    ensures { result ≡ around row.now.key }
{
    match &row.key.form {
        KeyForm::Element {
            place: Place::Object(object) | Place::ObjectAttribute(object, _),
            ..
        } => object.0.0,
        KeyForm::Reference { object, .. } => object.0.0,
        _ => 0,
    }
}

/// The rows by their objects, those of one object in the order in which they stood.
pub(crate) fn by_object<'a>(rows: Vec<&'a Row>) -> Result<Vec<&'a Row>, NoMemory>
    ensures { IfOk result (λ list. IsByObject list.items rows.entry.items) }
{
    let mut list = rows;
    list.sort_by_key(|row| around(row))?;
    Ok(list)
}

/// Those of a list by objects that are in the same object as the row.
pub(crate) fn part<'a, 'b>(list: &'b [&'a Row], row: &Row) -> &'b [&'a Row]
    ensures { Rises list.now → map (λ r. r.now) result.now
        ≡ filter (λ r. eqb (around row.now.key) (around r.key)) (map (λ r. r.now) list.now) }
{
    let object = around(row);
    let low = list.partition_point(|other| around(other) < object);
    let rest = &list[low..];
    let count = rest.partition_point(|other| around(other) <= object);
    &rest[..count]
}
