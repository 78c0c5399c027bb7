//! What an owner has of one event, as far as it decides what is taken of a package.

ghost use Rattle.std.specs.Prelude.{◌≡◌, true, List, map, IfOk, OnOk};
ghost use Rattle.std.specs.List.{list_all, list_any};
ghost use Rattle.misp_ids.specs.Same.{Inst};
ghost use Rattle.misp_ids.specs.declared.uid.EventId.{EventId as Event};
ghost use Rattle.misp_ids.specs.declared.uid.OrgId.{OrgId as Owner};
ghost use Rattle.misp_elem.specs.declared.row.RowFields.{RowFields};
ghost use Rattle.misp_model.specs.Machine.{put_all, put_row};
ghost use Rattle.misp_history.specs.Merging.{handed, rows_taken};
ghost use Rattle.misp_copies.specs.Copies.{copy_state};
ghost use Rattle.misp_package.specs.Landing.{IsLanding, has_event, is_copy, is_taken, is_welcome, is_welcome_event, state_after, state_by_row, taken_by};

use crate::arrival::{handed, is_known};
use crate::stamps::{Stamps, is_as_new, newest, replace};
use misp_copies::{CopyState, has_copy, has_gone, has_home, is_itself, is_row_of_event, takes};
use misp_elem::Row;
use misp_groups::Groups;
use misp_ids::{EventId, InstId, NoMemory, OrgId};
use misp_model::Package;
use std::alloc::Global;

/// What an owner has of one event at an instance, as far as it decides what is taken there: the
/// state of its copy, and the newest stamp at each key. It is made once and kept for many packages.
#[derive(Drop)]
pub struct Landing {
    pub here: InstId,
    pub owner: OrgId,
    pub event: EventId,
    pub state: CopyState,
    pub newest: Stamps,
}

// What the owner has of the event.
#[tactic(auto, unfolding(misp_copies::specs::Copies::copy_state, misp_copies::specs::Copies::state_by))]
fn state(held: &[Row], owner: &OrgId, event: &EventId) -> CopyState
    ensures { result ≡ copy_state held.now owner.now event.now }
{
    if has_gone(held, owner, event) {
        CopyState::Gone
    } else if has_home(held, owner, event) {
        CopyState::Home
    } else if has_copy(held, owner, event) {
        CopyState::Carried
    } else {
        CopyState::None
    }
}

// Whether it is a copy that is not gone.
#[tactic(auto, unfolding(crate::specs::Landing::is_copy))]
fn is_copy(state: CopyState) -> bool
    ensures { result ≡ is_copy state }
{
    match state {
        CopyState::Home | CopyState::Carried => true,
        CopyState::None | CopyState::Gone => false,
    }
}

// What an owner has of an event by its own row.
#[tactic(auto, unfolding(crate::specs::Landing::state_by_row))]
fn state_by_row(row: &Row) -> CopyState
    ensures { result ≡ state_by_row row.now }
{
    if row.is_tombstone() {
        CopyState::Gone
    } else if row.carried {
        CopyState::Carried
    } else {
        CopyState::Home
    }
}

impl Landing {
    /// What the owner has, by the rows that are held of the event.
    pub fn of(
        alloc: Global,
        held: &[Row],
        owner: &OrgId,
        event: &EventId,
        here: &InstId,
    ) -> Result<Landing, NoMemory>
        ensures { IfOk result (λ l. IsLanding l here.now owner.now event.now held.now) }
    {
        Ok(Landing {
            here: *here,
            owner: *owner,
            event: *event,
            state: state(held, owner, event),
            newest: newest(alloc, held, owner)?,
        })
    }

    // Whether the row is welcome, whatever else comes.
    #[tactic(auto, unfolding(crate::specs::Landing::is_welcome))]
    fn is_welcome(&self, groups: &Groups, row: &Row) -> bool
        ensures { result ≡ is_welcome self.now groups.now row.now }
    {
        takes(self.state, &row.key, &self.here) && is_known(&row.label, groups)
    }

    // Whether it is the event's own row, and is welcome.
    #[tactic(auto, unfolding(crate::specs::Landing::is_welcome_event))]
    fn is_welcome_event(&self, groups: &Groups, row: &Row) -> bool
        ensures { result ≡ is_welcome_event self.now groups.now row.now }
    {
        is_itself(row, &self.event) && self.is_welcome(groups, row)
    }

    // Whether one of these is.
    fn has_welcome_event(&self, groups: &Groups, coming: &[Row]) -> bool
        ensures { result ≡ list_any (is_welcome_event self.now groups.now) coming.now }
    {
        coming.iter().any(|row| self.is_welcome_event(groups, row))
    }

    // Whether there is a copy, or the event's own row comes and is welcome.
    #[tactic(auto, unfolding(crate::specs::Landing::has_event))]
    fn has_event(&self, groups: &Groups, coming: &[Row]) -> bool
        ensures { result ≡ has_event self.now groups.now coming.now }
    {
        is_copy(self.state) || self.has_welcome_event(groups, coming)
    }

    // Whether the row is taken, where the event is there or comes, or is not.
    #[tactic(auto, unfolding(crate::specs::Landing::is_taken))]
    fn is_taken(&self, groups: &Groups, there: bool, row: &Row) -> bool
        ensures { result ≡ is_taken self.now groups.now there row.now }
    {
        self.is_welcome(groups, row)
            && (row.key.is_statement() || there)
            && !is_as_new(&self.newest, row)
    }

    // Those of the rows that are taken, as they are handed in.
    fn rows_taken(&self, alloc: Global, rows: &[Row], groups: &Groups) -> Result<Vec<Row>, NoMemory>
        requires { list_all (λ row. row.carried) rows.now ≡ true }
        ensures { IfOk result (λ taken. taken.items ≡ taken_by self.now groups.now rows.now) }
    {
        let there = self.has_event(groups, rows);
        let mut taken = Vec::new(alloc);
        for row in rows {
            if self.is_taken(groups, there, row) {
                taken.push(handed(row, &self.owner)?)?;
            }
        }
        Ok(taken)
    }

    /// The rows of the package that are taken, each as it is held then.
    pub fn taken(
        &self,
        alloc: Global,
        coming: &Package,
        groups: &Groups,
    ) -> Result<Vec<Row>, NoMemory>
        ensures { IfOk result (λ taken. (i : Inst) (w : Owner) (held : List RowFields) →
            IsLanding self.now i w coming.now.event held →
            taken.items ≡ rows_taken i held groups.now (map (handed w) coming.now.rows)) }
    {
        let rows = coming.get().rows.as_slice();
        Ok(self.rows_taken(alloc, rows, groups)?)
    }

    // What the owner has once the row is put.
    #[tactic(auto, unfolding(crate::specs::Landing::state_after))]
    fn state_after(&self, row: &Row) -> CopyState
        ensures { result ≡ state_after self.now row.now }
    {
        if is_row_of_event(row, &self.owner, &self.event) {
            state_by_row(row)
        } else {
            self.state
        }
    }

    // With the row in the place of its owner's row of that key.
    fn put_row(&mut self, row: &Row) -> Result<(), NoMemory>
        ensures { OnOk result ((i : Inst) (w : Owner) (e : Event) (held : List RowFields) →
            IsLanding self.old i w e held → IsLanding self.new i w e (put_row row.now held)) }
    {
        self.state = self.state_after(row);
        replace(&mut self.newest, &self.owner, row)?;
        Ok(())
    }

    /// With each of the rows in the place of its owner's row of that key. Where memory runs out
    /// some of them may be in it, and it is to be dropped.
    pub fn put(&mut self, rows: &[Row]) -> Result<(), NoMemory>
        ensures { OnOk result ((i : Inst) (w : Owner) (e : Event) (held : List RowFields) →
            IsLanding self.old i w e held → IsLanding self.new i w e (put_all rows.now held)) }
    {
        for row in rows {
            self.put_row(row)?;
        }
        Ok(())
    }
}

/// The rows of a package that are taken for an owner where these are held of their event, each as
/// it is held then.
pub fn incoming(
    alloc: Global,
    coming: &Package,
    held: &[Row],
    owner: &OrgId,
    here: &InstId,
    groups: &Groups,
) -> Result<Vec<Row>, NoMemory>
    ensures { IfOk result (λ taken. taken.items
        ≡ rows_taken here.now held.now groups.now (map (handed owner.now) coming.now.rows)) }
{
    let landing = Landing::of(alloc, held, owner, &coming.get().event, here)?;
    Ok(landing.taken(alloc, coming, groups)?)
}
