//! The names under which a keeper holds rows.

ghost use Rattle.std.specs.Prelude.{◌≡◌, ◌≤◌, length, bytes_eq};
ghost use Rattle.misp_elem.specs.Spelling as spelling;
ghost use Rattle.misp_model.specs.Machine.{name_bytes};

use misp_elem::{KeyForm, Place, ProposalName, Row};
use misp_ids::InstId;
use misp_outside::RawRow;

// How many bytes spell a place.
#[tactic(auto, unfolding(misp_elem::specs::Spelling::uid))]
fn place_length(place: &Place) -> usize
    ensures length { result ≡ length (spelling.place place.now) }
    ensures most { result ≤ 33 }
{
    match place {
        Place::Event => 1,
        Place::Object(_) | Place::Attribute(_) => 17,
        Place::ObjectAttribute(_, _) => 33,
    }
}

// How many bytes spell the name of an instance.
fn inst_length(name: &InstId) -> usize
    ensures length { result ≡ length (spelling.inst_name name.now) }
    ensures most { result ≤ 33 }
{
    1 + name.text().len()
}

// How many bytes spell the name of a proposal.
fn proposal_length(name: &ProposalName) -> usize
    ensures length { result ≡ length (spelling.proposal_name name.now) }
    ensures most { result ≤ 98 }
{
    place_length(&name.target) + inst_length(&name.at) + 32
}

// How many bytes spell a key.
fn key_length(key: &KeyForm) -> usize
    ensures length { result ≡ length (spelling.key key.now) }
    ensures most { result ≤ 164 }
{
    match key {
        KeyForm::Element { place, .. } => 17 + place_length(place),
        KeyForm::Reference { target, .. } => 49 + place_length(target),
        KeyForm::Proposal { name, .. } => 17 + proposal_length(name),
        KeyForm::Verdict { name, at, .. } => 33 + proposal_length(name) + inst_length(at),
        KeyForm::Sighting { target, at, .. } => 49 + place_length(target) + inst_length(at),
    }
}

/// Whether the row is held under its own name. Its bytes have the name, after their first.
pub(crate) fn is_named(raw: &RawRow, row: &Row) -> bool
    requires { spelling.Spells raw.now.bytes row.now }
    ensures { result ≡ bytes_eq raw.now.name (name_bytes row.now) }
{
    let name = raw.name.as_slice();
    let bytes = raw.bytes.as_slice();
    name.len() == 16 + key_length(&row.key.form) && bytes[1..].starts_with(name)
}
