//! What an organisation sees of one owner's copy of an event.

ghost use Rattle.std.specs.Prelude.{◌≡◌, IfOk, OnOk};
ghost use Rattle.misp_elem.specs.Row.{AreRows};
ghost use Rattle.misp_copies.specs.Grants.{IsElementSet, granted_in};
ghost use Rattle.misp_elem.specs.RowFacts as view;
ghost use Rattle.misp_copies.specs.CopyView.{IsCopyView, IsSeen, shows_in};

use crate::element_set::{ElementSet, add, add_own, parents_are};
use crate::grants::Grants;
use crate::rows::is_owned;
use crate::table::{Pairs, has, tombstones};
use crate::viewer::Viewer;
use misp_elem::Row;
use misp_ids::{EventId, NoMemory, OrgId};
use std::alloc::Global;
use std::collections::BTreeSet;

/// Who looks at whose copy of which event, what is granted there, which copies are gone, and what
/// is deleted in each.
#[derive(Drop)]
pub struct CopyView<'a> {
    pub who: &'a Viewer<'a>,
    pub event: EventId,
    pub owner: OrgId,
    pub grants: Grants,
    pub gone: Pairs,
    pub deleted: ElementSet,
}

// What is deleted in each copy.
#[tactic(auto, unfolding(misp_model::specs::View::is_row_of), using(crate::proofs::ElementSets::none_has, crate::proofs::RowLists::rows_more, crate::proofs::RowLists::rows_all))]
fn deletions(alloc: Global, rows: &[Row]) -> Result<ElementSet, NoMemory>
    ensures found { IfOk result (λ elements. IsElementSet elements view.is_deleted rows.now) }
    ensures rows { OnOk result (AreRows rows.now) }
{
    let mut elements = BTreeSet::new(alloc);
    for row in rows {
        add(&mut elements, &row.owner, row, row.is_deleted())?;
    }
    Ok(elements)
}

impl<'a> CopyView<'a> {
    /// The view of the owner's copy, where these are the rows.
    pub fn of(
        alloc: Global,
        rows: &[Row],
        who: &'a Viewer<'a>,
        event: &EventId,
        owner: &OrgId,
    ) -> Result<CopyView<'a>, NoMemory>
        ensures found { IfOk result (λ copy_view.
            IsCopyView copy_view who.now.groups.now who.now.here who.now.org
            event.now owner.now rows.now) }
        ensures rows { OnOk result (AreRows rows.now) }
    {
        let grants = Grants::of(alloc, rows, who)?;
        let gone = tombstones(alloc, rows)?;
        let deleted = deletions(alloc, rows)?;
        Ok(CopyView {
            who,
            event: *event,
            owner: *owner,
            grants,
            gone,
            deleted,
        })
    }

    /// Whether one of the rows is granted to the organisation.
    pub fn grants(&self, row: &Row) -> bool
        ensures { result
            ≡ granted_in self.now.grants self.now.who.now.groups.now self.now.who.now.here
            self.now.who.now.org row.now }
    {
        self.grants.has(self.who, row)
    }

    /// Whether one of the rows is of the owner's copy and shows.
    #[tactic(auto, unfolding(crate::specs::CopyView::shows_in))]
    pub fn shows(&self, row: &Row) -> bool
        ensures { result ≡ shows_in self.now row.now }
    {
        is_owned(row, &self.owner)
            && self.grants(row)
            && (!row.is_deleted()
                && !has(&self.gone, &row.key.event(), &row.owner)
                && parents_are(&self.deleted, &row.owner, row, false))
    }
}

/// The places of the elements that show, where there are references.
#[tactic(auto, using(crate::proofs::ElementSets::none_has))]
pub fn seen(
    alloc: Global,
    rows: &[Row],
    copy_view: &CopyView,
    linked: bool,
) -> Result<ElementSet, NoMemory>
    ensures { IfOk result (λ elements. IsSeen elements copy_view.now linked rows.now) }
{
    let mut elements = BTreeSet::new(alloc);
    for row in rows {
        let wanted = linked && copy_view.shows(row);
        add_own(&mut elements, row, wanted)?;
    }
    Ok(elements)
}
