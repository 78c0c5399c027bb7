//! What is granted to an organisation, found once for all rows.

ghost use Rattle.std.specs.Prelude.{◌≡◌, ◌&&◌, ◌||◌, IfOk};
ghost use Rattle.std.specs.List.{list_any};
ghost use Rattle.misp_elem.specs.KeyFacts as history;
ghost use Rattle.misp_model.specs.View.{row_is_open};
ghost use Rattle.misp_copies.specs.Kinds as kinds;
ghost use Rattle.misp_copies.specs.Grants.{IsOpenings, IsGranted, IsGrants, element_in, granted_in};

use crate::element_set::{ElementSet, add, add_own, has_element, parents_are};
use crate::rows::{is_link, is_of, is_open, is_upper};
use crate::table::{Pairs, copies, has};
use crate::viewer::Viewer;
use misp_elem::{KeyForm, Row};
use misp_ids::NoMemory;
use std::alloc::Global;
use std::collections::BTreeSet;

/// Those of whom there is a copy that is not gone, what is open to the organisation in each copy,
/// and the elements that are granted to it in some copy. The last is empty where there are no
/// statements, and of attributes the second has none where nothing has a target.
#[derive(Drop)]
pub struct Grants {
    pub copied: Pairs,
    pub opened: ElementSet,
    pub granted: ElementSet,
}

/// Whether there is a reference or a statement.
pub fn are_linked(rows: &[Row]) -> bool
    ensures { result ≡ list_any (λ row. kinds.is_link row.key) rows.now }
{
    rows.iter().any(|row| is_link(row))
}

// Whether there is a statement.
fn are_told(rows: &[Row]) -> bool
    ensures { result ≡ list_any (λ row. history.is_statement row.key) rows.now }
{
    rows.iter().any(|row| row.key.is_statement())
}

// Whether it is open to the organisation, and is of an event or an object, or something is linked.
fn is_opening(row: &Row, who: &Viewer, linked: bool) -> bool
    ensures { result ≡ (row_is_open who.now.groups.now who.now.here who.now.org row.now
        && (linked || kinds.is_upper row.now.key)) }
{
    (linked || is_upper(row)) && is_open(row, who)
}

// What is open to the organisation in each copy: events and objects, and where they are linked
// attributes too.
#[tactic(auto, using(crate::proofs::ElementSets::none_has))]
fn openings(alloc: Global, rows: &[Row], who: &Viewer, linked: bool) -> Result<ElementSet, NoMemory>
    ensures { IfOk result (λ elements.
        IsOpenings elements who.now.groups.now who.now.here who.now.org linked rows.now) }
{
    let mut elements = BTreeSet::new(alloc);
    for row in rows {
        let wanted = is_opening(row, who, linked);
        add_own(&mut elements, row, wanted)?;
    }
    Ok(elements)
}

// Whether a row is granted as that of an element or a reference is.
#[tactic(auto, unfolding(crate::specs::Grants::element_in))]
fn is_element_granted(copied: &Pairs, opened: &ElementSet, who: &Viewer, row: &Row) -> bool
    ensures { result ≡ element_in copied.now opened.now who.now.groups.now who.now.here who.now.org
        row.now }
{
    has(copied, &row.key.event(), &row.owner)
        && is_open(row, who)
        && parents_are(opened, &row.owner, row, true)
}

// The elements that are granted to the organisation in some copy, where they are told of.
#[tactic(auto, using(crate::proofs::ElementSets::none_has))]
fn granted(
    alloc: Global,
    rows: &[Row],
    copied: &Pairs,
    opened: &ElementSet,
    who: &Viewer,
    told: bool,
) -> Result<ElementSet, NoMemory>
    ensures { IfOk result (λ elements. IsGranted elements copied.now opened.now
        who.now.groups.now who.now.here who.now.org told rows.now) }
{
    let mut elements = BTreeSet::new(alloc);
    for row in rows {
        let wanted = told && is_element_granted(copied, opened, who, row);
        add(&mut elements, &who.org, row, wanted)?;
    }
    Ok(elements)
}

impl Grants {
    /// What is granted to the organisation of these rows.
    pub fn of(alloc: Global, rows: &[Row], who: &Viewer) -> Result<Grants, NoMemory>
        ensures { IfOk result (λ grants.
            IsGrants grants who.now.groups.now who.now.here who.now.org rows.now) }
    {
        let copied = copies(alloc, rows)?;
        let opened = openings(alloc, rows, who, are_linked(rows))?;
        let granted = granted(alloc, rows, &copied, &opened, who, are_told(rows))?;
        Ok(Grants {
            copied,
            opened,
            granted,
        })
    }

    /// Whether one of the rows is granted to the organisation.
    #[tactic(auto, unfolding(crate::specs::Grants::granted_in, crate::specs::Grants::granted_as))]
    pub fn has(&self, who: &Viewer, row: &Row) -> bool
        ensures { result ≡ granted_in self.now who.now.groups.now who.now.here who.now.org row.now }
    {
        match &row.key.form {
            KeyForm::Element { .. } | KeyForm::Reference { .. } => {
                is_element_granted(&self.copied, &self.opened, who, row)
            }
            KeyForm::Proposal { event, name } | KeyForm::Verdict { event, name, .. } => {
                is_of(&who.org, row) || has_element(&self.granted, &who.org, event, &name.target)
            }
            KeyForm::Sighting { event, target, .. } => {
                is_of(&who.org, row)
                    || has(&self.copied, event, &who.org)
                        && has_element(&self.granted, &who.org, event, target)
            }
        }
    }
}
