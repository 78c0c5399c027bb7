//! What site administrators ask of an instance.

ghost use Rattle.std.specs.Prelude.{◌≡◌, ◌++◌, ◌∷◌, [], ℕ, false, List, Some, Err, IfOk, OnOk, OnErr};
ghost use Rattle.misp_outside.specs.Causes.{HasCause, StaysUnless};
ghost use Rattle.misp_outside.specs.Held.{Held, with_batch};
ghost use Rattle.misp_outside.specs.Reporting.{StaysHeld, WhereReported};
ghost use Rattle.misp_ids.specs.Moments.{Stamp as Moment};
ghost use Rattle.misp_ids.specs.Same.{Inst, same_inst};
ghost use Rattle.misp_orgs.specs.Keys.{CallerFields};
ghost use Rattle.misp_orgs.specs.Roles.{permits};
ghost use Rattle.misp_orgs.specs.declared.role.Perm.{Perm as Permission};
ghost use Rattle.misp_admins.specs.Asks.{item_of};
ghost use Rattle.misp_admins.specs.Made.{IsItem, put_item};
ghost use Rattle.misp_admins.specs.declared.item.Item.{Item as Made};
ghost use Rattle.misp_effects.specs.Batches.{item_batch};
ghost use Rattle.misp_effects.specs.Effect.{left};
ghost use Rattle.misp_model.specs.Permission.{no_permission};
ghost use Rattle.misp_history.specs.Acts.{World, Net, step};
ghost use Rattle.misp_groups.specs.declared.group.GroupFields.{GroupFields};
ghost use Rattle.misp_store.specs.Batches.{spelled};
ghost use Rattle.misp_store.specs.Sharing.{HoldsGroups};
ghost use Rattle.misp_core.specs.Keeping.{Keeps};
ghost use Rattle.misp_core.specs.Managing.{PlansItem, act_making, asked_managed, item_made};
ghost use Rattle.misp_core.specs.Effects.{by_keeper};
ghost use Rattle.misp_core.specs.Planning.{IsBarred, stop_planned};
ghost use Rattle.misp_core.specs.Standing.{Host};

use crate::answering::forbidden;
use crate::instance::Instance;
use crate::planning::NoPlan;
use misp_admins::{AdminAsk, Item, Room, decide};
use misp_ids::Refusal;
use misp_orgs::{Admin, Caller, Perm, may};
use misp_outside::{Keeper, KeeperFault};
use misp_store::{groups_are_held_as_their_rows, items_are_held_beside_the_groups, spell_item};
use std::alloc::Global;

/// Takes all memory, puts the item, and keeps it beside.
pub(crate) fn settle_item<K: Keeper>(
    keeper: &mut K,
    admin: &mut Admin,
    alloc: Global,
    item: Item,
) -> Result<(), KeeperFault>
    ensures put { OnOk result (WhereReported (K.state keeper.old).held (K.state keeper.new).held
        (λ held new. new ≡ with_batch (spelled (item_batch item)) held)) }
    ensures fits { OnOk result (IsItem item) }
    ensures admin { OnOk result (admin.new ≡ put_item item admin.old) }
    ensures err { OnErr result (StaysHeld (K.state keeper.old).held (K.state keeper.new).held) }
    ensures same { OnErr result (admin.new ≡ admin.old) }
    ensures beside { (groups : List GroupFields) → HoldsGroups (K.state keeper.old).held groups →
        HoldsGroups (K.state keeper.new).held groups }
    ensures cause { HasCause (K.state keeper.old).faults (K.state keeper.new).faults
        (result ≡ Err KeeperFault.Failed) }
    ensures stays { StaysUnless (K.state keeper.old).faults (K.state keeper.new).faults
        (result ≡ Err KeeperFault.Failed) }
{
    groups_are_held_as_their_rows();
    items_are_held_beside_the_groups();
    let raw = spell_item(alloc, &item)?;
    let room = Room::of(admin, alloc, item)?;
    match keeper.apply(raw) {
        Ok(()) => {
            *admin = room.put();
            Ok(())
        }
        Err(stop) => {
            *admin = room.into_admin();
            Err(stop)
        }
    }
}

impl<K: Keeper> Instance<K> {
    /// Plans what a caller asks as a site administrator: the item that is to be put. Nothing is put.
    pub fn plan_managed(
        &self,
        alloc: Global,
        caller: &Caller,
        ask: AdminAsk,
    ) -> Result<Item, NoPlan>
        // Where the role of the caller permits it, the refusal names the first rule against it.
        ensures planned { PlansItem result (asked_managed self.now.admin caller.now ask) }
        ensures item { IfOk result (λ item. item_of self.now.admin ask ≡ Some item) }

        // What the role of the caller forbids is refused just so.
        ensures forbidden { permits caller.now.role Permission.Admin ≡ false →
            IsBarred (no_permission Permission.Admin) self.now self.now result }
        ensures no_fault { stop_planned result ≡ by_keeper → ⊥ }
    {
        if !may(caller.role, Perm::Admin) {
            drop(ask);
            return Err(forbidden(alloc, Perm::Admin));
        }
        match decide(self.setup(), ask) {
            Ok(item) => Ok(item),
            Err(rule) => Err(NoPlan::Refused(Refusal::bare(alloc, rule))),
        }
    }
}

/// What a request makes is put where the history puts it. No rows and no groups change, and nothing
/// that was made elsewhere.
pub fn items_are_made_by_the_history()
    ensures left { (net : Net) (n : ℕ) (w : World) (host : Host) (now : Moment)
        (caller : CallerFields) (item : Made) (held : Held) → IsItem item →
        Keeps host.name w held → Keeps host.name (step net n w (act_making host now caller item))
        (left spelled (item_made item) held) }
    ensures made { (net : Net) (n : ℕ) (w : World) (host : Host) (now : Moment)
        (caller : CallerFields) (item : Made) →
        (step net n w (act_making host now caller item)).made host.name
        ≡ w.made host.name ++ item ∷ [] }
    ensures tables { (net : Net) (n : ℕ) (w : World) (host : Host) (now : Moment)
        (caller : CallerFields) (item : Made) →
        (step net n w (act_making host now caller item)).log ≡ w.log }
    ensures groups { (net : Net) (n : ℕ) (w : World) (host : Host) (now : Moment)
        (caller : CallerFields) (item : Made) →
        (step net n w (act_making host now caller item)).groups ≡ w.groups }
    ensures elsewhere { (net : Net) (n : ℕ) (w : World) (host : Host) (now : Moment)
        (caller : CallerFields) (item : Made) (j : Inst) → same_inst host.name j ≡ false →
        (step net n w (act_making host now caller item)).made j ≡ w.made j }
{
    groups_are_held_as_their_rows();
    items_are_held_beside_the_groups();
}
