//! The order of rows in a list.

ghost use Rattle.std.specs.Prelude.{◌≡◌, map, IfOk};
ghost use Rattle.std.specs.Ordering.{is_lt};
ghost use Rattle.misp_lists.specs.Order.{in_order, is_less};
ghost use Rattle.misp_view.specs.Order.{class_of, uuid_of, origin_of, origin_text, rest_of, goes_before};

use misp_elem::{KeyForm, Row, compare_keys, uuid_at};
use misp_ids::{InstId, NoMemory, OrgId};
use std::cmp::Ordering;

// The number of its kind: elements and references, proposals, verdicts, sightings.
#[tactic(auto, unfolding(crate::specs::Order::class_of))]
fn class(row: &Row) -> u8
    ensures { result ≡ class_of row.now.key }
{
    match &row.key.form {
        KeyForm::Element { .. } | KeyForm::Reference { .. } => 0,
        KeyForm::Proposal { .. } => 1,
        KeyForm::Verdict { .. } => 2,
        KeyForm::Sighting { .. } => 3,
    }
}

// The number of what it names.
#[tactic(auto, unfolding(crate::specs::Order::uuid_of))]
fn uuid(row: &Row) -> u128
    ensures { result ≡ uuid_of row.now.key }
{
    match &row.key.form {
        KeyForm::Element { event, place } => uuid_at(*event, *place),
        KeyForm::Reference { uuid, .. } | KeyForm::Sighting { uuid, .. } => uuid.0.0,
        KeyForm::Proposal { name, .. } | KeyForm::Verdict { name, .. } => name.uuid.0.0,
    }
}

// Where and by whom a proposal or a sighting was made.
#[tactic(auto, unfolding(crate::specs::Order::origin_of))]
fn origin(row: &Row) -> Option<(InstId, OrgId)>
    ensures { result ≡ origin_of row.now.key }
{
    match &row.key.form {
        KeyForm::Proposal { name, .. } => Some((name.at, name.by)),
        KeyForm::Sighting { at, by, .. } => Some((*at, *by)),
        _ => None,
    }
}

// Whether the first goes before the second, by the instance and then by the organisation.
fn is_earlier(a: (InstId, OrgId), b: (InstId, OrgId)) -> bool
    ensures { result ≡ is_less (origin_text a) (origin_text b) }
{
    match a.0.text().cmp(b.0.text()) {
        Ordering::Less => true,
        Ordering::Equal => a.1.0.0 < b.1.0.0,
        Ordering::Greater => false,
    }
}

// Whether the first of two rows of one kind and one number goes before the second.
fn rest_goes_before(a: &Row, b: &Row) -> bool
    ensures { class_of a.now.key ≡ class_of b.now.key →
        result ≡ is_less (rest_of a.now.key) (rest_of b.now.key) }
{
    match origin(a) {
        Some(first) => match origin(b) {
            Some(second) => is_earlier(first, second),
            None => false,
        },
        None => compare_keys(&a.key, &b.key).is_lt(),
    }
}

// Whether the first goes before the second.
#[tactic(auto, unfolding(crate::specs::Order::goes_before, misp_lists::specs::Order::is_less))]
fn goes_before(a: &Row, b: &Row) -> bool
    ensures { result ≡ goes_before a.now b.now }
{
    let (x, y) = (class(a), class(b));
    if x != y {
        return x < y;
    }
    let (m, n) = (uuid(a), uuid(b));
    if m != n {
        return m < n;
    }
    rest_goes_before(a, b)
}

// How the first stands to the second.
fn compare(a: &Row, b: &Row) -> Ordering
    ensures { is_lt result ≡ goes_before a.now b.now }
{
    if goes_before(a, b) {
        Ordering::Less
    } else if goes_before(b, a) {
        Ordering::Greater
    } else {
        Ordering::Equal
    }
}

/// The rows in their order; of those that are alike the last stands first.
pub(crate) fn in_order<'a>(rows: Vec<&'a Row>) -> Result<Vec<&'a Row>, NoMemory>
    ensures { IfOk result (λ list. map (λ r. r.now) list.items
        ≡ in_order goes_before (map (λ r. r.now) rows.entry.items)) }
{
    let mut list = rows;
    list.reverse();
    list.sort_by(|a, b| compare(a, b))?;
    Ok(list)
}
