//! Groups that callers add and edit.

ghost use Rattle.std.specs.Prelude.{◌≡◌, ℕ, Bool, false, IfSome};
ghost use Rattle.misp_groups.specs.declared.group.GroupFields.{GroupFields};
ghost use Rattle.misp_history.specs.Acts.{World, Net, step};
ghost use Rattle.misp_ids.specs.Moments.{Stamp as Moment};
ghost use Rattle.misp_model.specs.Permission.{no_permission};
ghost use Rattle.misp_orgs.specs.Keys.{CallerFields};
ghost use Rattle.misp_orgs.specs.Roles.{permits};
ghost use Rattle.misp_orgs.specs.declared.role.Perm.{Perm as Permission};
ghost use Rattle.misp_store.specs.Sharing.{groups_of};
ghost use Rattle.misp_core.specs.Effects.{by_keeper};
ghost use Rattle.misp_core.specs.Keeping.{act_of};
ghost use Rattle.misp_core.specs.Planning.{IsBarred, Plans, stop_planned};
ghost use Rattle.misp_core.specs.Sharing.{act_sharing, group_shared};
ghost use Rattle.misp_core.specs.Standing.{Host};

use crate::answering::forbidden;
use crate::instance::Instance;
use crate::planning::{NoPlan, Plan};
use misp_groups::Group;
use misp_ids::Stamp;
use misp_orgs::{Caller, Perm, may};
use misp_outside::Keeper;
use std::alloc::Global;

impl<K: Keeper> Instance<K> {
    /// Plans what it comes to that a caller adds a group at this moment, or edits the one of its
    /// name. Nothing is put.
    pub fn plan_shared_group(
        &self,
        alloc: Global,
        now: Stamp,
        caller: &Caller,
        add: bool,
        group: Group,
    ) -> Result<Plan, NoPlan>
        // Where the role of the caller permits it, the group is administered by its organisation.
        ensures planned { IfSome self.now.held (λ held.
            Plans result (group_shared now caller.now add group (groups_of held))) }

        // What the role of the caller forbids is refused just so.
        ensures forbidden { permits caller.now.role Permission.Group ≡ false →
            IsBarred (no_permission Permission.Group) self.now self.now result }
        ensures no_fault { stop_planned result ≡ by_keeper → ⊥ }
    {
        if !may(caller.role, Perm::Group) {
            return Err(forbidden(alloc, Perm::Group));
        }
        self.plan_group(alloc, now, &caller.org, group, add)
    }
}

/// A group that a caller adds or edits changes the history as the administration of the group by
/// the caller's organisation does.
pub fn groups_are_shared_by_the_history()
    ensures same { (net : Net) (n : ℕ) (w : World) (host : Host) (now : Moment)
        (caller : CallerFields) (add : Bool) (g : GroupFields) →
        step net n w (act_sharing host now caller add g)
        ≡ step net n w (act_of host.name now caller.org add g) }
{}
