//! An instance over a keeper.

ghost use Rattle.std.specs.Prelude.{◌≡◌, ◌≤◌, ℕ, false, true, Err, Some, filter, length, List, IfOk, IfErr, IfSome, OnOk, OnErr, IsOk, Ok, option_map};
ghost use Rattle.std.specs.List.{AllByRecursion};
ghost use Rattle.misp_outside.specs.Causes.{HasCause, StaysUnless};
ghost use Rattle.misp_outside.specs.Reporting.{StaysHeld, WhereReported};
ghost use Rattle.misp_outside.specs.Held.{with_batch};
ghost use Rattle.misp_store.specs.Sharing.{groups_of, AreStorable, HasSoundAdmin};
ghost use Rattle.misp_store.specs.Renewing.{opened, renewed};
ghost use Rattle.misp_store.specs.Batches.{spelled};
ghost use Rattle.misp_admins.specs.Made.{IsItem, put_item, with_items};
ghost use Rattle.misp_admin_rows.specs.Rows.{items_in};
ghost use Rattle.misp_effects.specs.Batches.{item_batch};
ghost use Rattle.misp_store.specs.Seen.{seen_in};
ghost use Rattle.misp_core.specs.Answers.{IsBuilt};
ghost use Rattle.misp_core.specs.Standing.{host_of};
ghost use Rattle.misp_store.specs.Loading.{NamesFault};
ghost use Rattle.misp_model.specs.Package.{IsPackage};
ghost use Rattle.misp_model.specs.Permission.{is_permitted, forbidden, no_permission};
ghost use Rattle.misp_core.specs.Effects.{requested, by_keeper};
ghost use Rattle.misp_core.specs.Planning.{Plans, IsPlanned, batch_of, stop_planned, IsBarred};
ghost use Rattle.misp_core.specs.Administering.{administered};
ghost use Rattle.misp_core.specs.HandedGroups.{groups_handed};
ghost use Rattle.misp_ids.specs.Uid.{IsUid};
ghost use Rattle.misp_orgs.specs.Keys.{CallerFields};
ghost use Rattle.misp_orgs.specs.Roles.{permits};
ghost use Rattle.misp_orgs.specs.declared.role.Perm.{Perm};
ghost use Rattle.misp_core.specs.Pulling.{carries_to};
ghost use Rattle.misp_core.specs.Sending.{packages_pushed};
ghost use Rattle.misp_core.specs.Sound.{IsSoundAnswer, syncs};
ghost use Rattle.misp_core.specs.Taking.{groups_taken, with_groups_taken};
ghost use Rattle.misp_core.specs.Wanting.{IsSomeWanted, TakesOf, WantsOf};
ghost use Rattle.misp_elem.specs.declared.row.RowFields.{RowFields};
ghost use Rattle.misp_groups.specs.Changes.{take_groups};
ghost use Rattle.misp_groups.specs.Group.{IsGroup};
ghost use Rattle.misp_store.specs.declared.reach.Reach.TheVariants as reach;
ghost use Rattle.misp_store.specs.declared.fault.LoadFault.TheVariants as faults;
ghost use Rattle.misp_orgs.specs.Admin.{who_of, link_of};

use crate::administering::plan_group;
use crate::ahead::Ahead;
use crate::answering::forbidden;
use crate::callers::keys_are_owned;
use crate::handing_in::plan_groups;
use crate::kept_landing::settle_beside;
use crate::managing::settle_item;
use crate::opening::load_whole;
use crate::planning::{Batch, NoPlan, Plan};
use crate::pulling::carrying;
use crate::pushing::{load_outgoing, via_from};
use crate::reading::plan_permitted;
use crate::site::Site;
use crate::synced::OwnRows;
use crate::taking::take_part;
use crate::taking_groups::take_groups;
use crate::wanting::wanted_keys;
use misp_admins::Item;
use misp_elem::Key;
use misp_groups::{Group, Groups};
use misp_ids::{ApiKey, EventId, InstId, NoMemory, OrgId, Stamp, Way};
use misp_manifest::KeyStamp;
use misp_model::{Ask, Package, permission_for};
use misp_orgs::{Admin, Caller, Link, may};
use misp_outside::{Keeper, KeeperFault};
use misp_package::Landing;
use misp_store::LoadFault;
use std::alloc::Global;
use std::marker::Model;

/// An instance, seen as its name, its administration, what its keeper holds, and the count of the
/// keeper's faults. It caches the groups, as they are among the rows of the administration, what is
/// packed of the event that a partner asked for last, what the caller has of the event of which it
/// handed in a package last, and the own rows of the owner and event that were synchronised last.
#[derive(Drop)]
pub struct Instance<K: Keeper> {
    name: InstId,
    admin: Admin,
    groups: Groups,
    keeper: K,
    ahead: Option<Ahead>,
    landed: Option<Landing>,
    synced: Option<OwnRows>,
}

impl<K: Keeper> Model for Instance<K> {
    ghost use Rattle.misp_core.specs.Standing.{Standing};

    ghost Value = { Standing };

    ghost view = { λ a. record {
      name = a.name;
      admin = a.admin;
      held = (K.state a.keeper).held;
      faults = (K.state a.keeper).faults;
    } };

    ghost use Rattle.misp_core.specs.Caches.{AreCached};

    ghost invariant = { λ a. AreCached (record { name = a.name; admin = a.admin })
        (K.state a.keeper).held a.groups a.ahead a.landed a.synced };
}

impl<K: Keeper> Instance<K> {
    /// An instance of this name over a keeper, of which it reads the groups, the items and every
    /// row, and puts the rows of the first form anew in the second. What is held of an organisation,
    /// a key or a link stands in place of what was described of it. A keeper over which none is
    /// opened comes back as it was.
    pub fn open(
        alloc: Global,
        name: InstId,
        admin: Admin,
        keeper: K,
    ) -> Result<Instance<K>, (LoadFault, K)>
        ensures name { IfOk result (λ instance. instance.name ≡ name) }
        ensures admin { IfOk result (λ instance. IfSome instance.held (λ held.
            instance.admin ≡ with_items admin (items_in held.admin))) }
        ensures renewed { IfOk result (λ instance. WhereReported (K.state keeper).held
            instance.held (λ held new. new ≡ renewed held)) }

        // All that is held decodes.
        ensures read { IfOk result (λ instance. WhereReported (K.state keeper).held
            instance.held (λ held _. IsOk (opened held))) }
        ensures count { IfOk result (λ instance. (K.state keeper).faults ≤ instance.faults) }
        ensures back { IfErr result (λ e. StaysHeld (K.state keeper).held (K.state e.1).held) }

        // It names the first row that does not decode.
        ensures bad { IfErr result (λ e.
            IfSome (K.state e.1).held (λ held. NamesFault (opened held) e.0)) }
        ensures cause { IfErr result (λ e.
            HasCause (K.state keeper).faults (K.state e.1).faults (e.0 ≡ faults.KeeperFault)) }
        ensures stays { IfErr result (λ e. StaysUnless (K.state keeper).faults
            (K.state e.1).faults (e.0 ≡ faults.KeeperFault)) }
    {
        let mut keeper = keeper;
        match load_whole(&mut keeper, alloc, admin) {
            Ok((groups, admin)) => Ok(Instance {
                name,
                admin,
                groups,
                keeper,
                ahead: None,
                landed: None,
                synced: None,
            }),
            Err(fault) => Err((fault, keeper)),
        }
    }

    /// Gives the keeper back.
    pub fn into_keeper(self) -> K
        ensures held { (K.state result).held ≡ self.held }
        ensures faults { (K.state result).faults ≡ self.faults }
    {
        self.keeper
    }

    /// The name of the instance.
    pub fn name(&self) -> &InstId
        ensures { result.now ≡ self.now.name }
    {
        &self.name
    }

    /// What is set up there.
    pub(crate) fn setup(&self) -> &Admin
        ensures { result.now ≡ self.now.admin }
    {
        &self.admin
    }

    /// Who asks with a key here.
    pub fn who(&self, key: &ApiKey) -> Option<Caller>
        ensures { result ≡ who_of self.now.admin key.now }
    {
        self.admin.who(key)
    }

    /// The link of a name, by which this instance reaches another.
    pub fn link(&self, name: &InstId) -> Option<&Link>
        ensures { option_map (λ link. link.now) result ≡ link_of self.now.admin.links name.now }
    {
        self.admin.link(name)
    }

    /// Shows what holds of every instance: the rows of its administration ascend, and each is a
    /// group or an item.
    pub fn holds_sound_rows(&self)
        ensures { IfSome self.now.held HasSoundAdmin }
    {
        let _groups = &self.groups;
    }

    /// Shows what holds of every instance: each of its keys is of an organisation.
    #[tactic(auto, using(crate::proofs::Owners::owner_of))]
    pub fn has_owners(&self)
        ensures { (key : List ℕ) (caller : CallerFields) →
            who_of self.now.admin key ≡ Some caller → IsUid caller.org.0 }
    {
        keys_are_owned(self.admin.keys.as_slice());
    }

    /// Plans what a request of this moment comes to. Nothing is put.
    pub fn plan(
        &mut self,
        alloc: Global,
        now: Stamp,
        caller: &Caller,
        ask: Ask,
    ) -> Result<Plan, NoPlan>
        requires { IsBuilt ask }

        // The plan is the stated function of what is held, and of what stopped the reading of it.
        ensures planned { IfSome self.new.held (λ held. IsPlanned result
            (requested (host_of self.old) now (caller.now, ask) (seen_in held))) }

        // What the role of the caller forbids is refused just so, and the keeper is as it was.
        ensures forbidden { is_permitted caller.now ask ≡ false →
            IsBarred (forbidden ask) self.old self.new result }

        // What a synchronisation is answered can be read back from its text.
        ensures sound { syncs ask ≡ true → IfOk result (λ plan. IsSoundAnswer plan.answer) }

        // What is held stays, where it is still reported.
        ensures held { StaysHeld self.old.held self.new.held }
        ensures cause { HasCause self.old.faults self.new.faults
            (stop_planned result ≡ by_keeper) }
        ensures stays { StaysUnless self.old.faults self.new.faults
            (stop_planned result ≡ by_keeper) }
        ensures name { self.new.name ≡ self.old.name }
        ensures admin { self.new.admin ≡ self.old.admin }
    {
        let perm = permission_for(&ask);
        if !may(caller.role, perm) {
            drop(ask);
            return Err(forbidden(alloc, perm));
        }
        let site = Site {
            here: &self.name,
            admin: &self.admin,
            groups: &self.groups,
            caller,
            moment: now,
        };
        plan_permitted(
            &mut self.keeper,
            alloc,
            &site,
            ask,
            &mut self.ahead,
            &mut self.landed,
        )
    }

    /// Plans what it comes to that an organisation adds a group at this moment, or edits the one of
    /// its name.
    pub fn plan_group(
        &self,
        alloc: Global,
        now: Stamp,
        by: &OrgId,
        group: Group,
        add: bool,
    ) -> Result<Plan, NoPlan>
        // The refusal names the first rule against it, and where there is none, the group is put.
        ensures planned { IfSome self.now.held (λ held.
            Plans result (administered now by.now add group (groups_of held))) }
        ensures no_fault { stop_planned result ≡ by_keeper → ⊥ }
    {
        plan_group(alloc, &self.groups, now, by, group, add)
    }

    /// Plans what it comes to that a caller hands in groups. Nothing is put.
    pub fn plan_handed_groups(
        &self,
        alloc: Global,
        caller: &Caller,
        coming: Vec<Group>,
    ) -> Result<Plan, NoPlan>
        // Those are put that are taken, and their number is told.
        ensures planned { IfSome self.now.held (λ held.
            Plans result (groups_handed caller.now coming.items (groups_of held))) }

        // What the role of the caller forbids is refused just so.
        ensures forbidden { permits caller.now.role Perm.Sync ≡ false →
            IsBarred (no_permission Perm.Sync) self.now self.now result }
        ensures sound { IfOk result (λ plan. IsSoundAnswer plan.answer) }
        ensures no_fault { stop_planned result ≡ by_keeper → ⊥ }
    {
        plan_groups(alloc, &self.groups, caller, coming)
    }

    /// Takes all memory for a batch, and puts it; or puts nothing.
    pub fn settle(&mut self, alloc: Global, put: Batch) -> Result<(), KeeperFault>
        ensures put { OnOk result (WhereReported self.old.held self.new.held
            (λ held new. new ≡ with_batch (spelled (batch_of put)) held)) }
        ensures storable { OnOk result (AreStorable put.groups) }
        ensures err { OnErr result (StaysHeld self.old.held self.new.held) }
        ensures cause { HasCause self.old.faults self.new.faults
            (result ≡ Err KeeperFault.Failed) }
        ensures stays { StaysUnless self.old.faults self.new.faults
            (result ≡ Err KeeperFault.Failed) }
        ensures name { self.new.name ≡ self.old.name }
        ensures admin { self.new.admin ≡ self.old.admin }
    {
        self.ahead = None; // It is packed of what was held.
        self.synced = None; // These were held before the batch.
        settle_beside(
            &mut self.keeper,
            &mut self.groups,
            &mut self.landed,
            alloc,
            put,
        )
    }

    /// Takes all memory for an item, and puts it; or puts nothing.
    pub fn manage(&mut self, alloc: Global, item: Item) -> Result<(), KeeperFault>
        ensures put { OnOk result (WhereReported self.old.held self.new.held
            (λ held new. new ≡ with_batch (spelled (item_batch item)) held)) }

        // Its row can be read back.
        ensures fits { OnOk result (IsItem item) }
        ensures admin { OnOk result (self.new.admin ≡ put_item item self.old.admin) }
        ensures err { OnErr result (StaysHeld self.old.held self.new.held) }
        ensures same { OnErr result (self.new.admin ≡ self.old.admin) }
        ensures cause { HasCause self.old.faults self.new.faults
            (result ≡ Err KeeperFault.Failed) }
        ensures stays { StaysUnless self.old.faults self.new.faults
            (result ≡ Err KeeperFault.Failed) }
        ensures name { self.new.name ≡ self.old.name }
    {
        self.ahead = None; // It is packed for the names of before.
        self.landed = None;
        self.synced = None;
        settle_item(&mut self.keeper, &mut self.admin, alloc, item)
    }

    /// The keys of a package of an event of which an organisation wants the rows, in their order.
    /// Its own rows of the event are kept for the packages that follow.
    pub fn wanted(
        &mut self,
        alloc: Global,
        owner: &OrgId,
        event: &EventId,
        keys: &[KeyStamp],
    ) -> Result<Vec<Key>, LoadFault>
        // They are wanted over its own rows of the event, which all decode.
        ensures found { IfOk result (λ wanted. IfSome self.new.held
            (WantsOf self.old.name owner.now event.now keys.now wanted.items)) }

        // Whatever the keeper reports, they are wanted over some rows.
        ensures some { IfOk result (λ wanted.
            IsSomeWanted self.old.name owner.now event.now keys.now wanted.items) }

        // Of these rows, it names the first that does not decode.
        ensures bad { IfErr result (λ fault. IfSome self.new.held (λ held.
            NamesFault ((seen_in held).rows (reach.Own owner.now event.now)) fault)) }
        ensures held { StaysHeld self.old.held self.new.held }
        ensures cause { HasCause self.old.faults self.new.faults
            (result ≡ Err faults.KeeperFault) }
        ensures stays { StaysUnless self.old.faults self.new.faults
            (result ≡ Err faults.KeeperFault) }
        ensures name { self.new.name ≡ self.old.name }
        ensures admin { self.new.admin ≡ self.old.admin }
    {
        wanted_keys(
            &mut self.keeper,
            &mut self.synced,
            alloc,
            owner,
            event,
            &self.name,
            keys,
        )
    }

    /// Takes what is new of a package to an organisation, in one batch, or in none where nothing
    /// is. All memory is taken before it is put. What it has of the event is kept for the packages
    /// that follow.
    pub fn take_part(
        &mut self,
        alloc: Global,
        owner: &OrgId,
        coming: &Package,
    ) -> Result<u64, LoadFault>
        // So many rows are taken over its own rows of the event, which all decode.
        ensures taken { IfOk result (λ count. WhereReported self.old.held self.new.held
            (TakesOf self.old.name owner.now coming.now count)) }

        // Of these rows, it names the first that does not decode.
        ensures bad { IfErr result (λ fault. IfSome self.new.held (λ held.
            NamesFault ((seen_in held).rows (reach.Own owner.now coming.now.event)) fault)) }

        ensures none { result ≡ Ok 0 → StaysHeld self.old.held self.new.held }
        ensures err { OnErr result (StaysHeld self.old.held self.new.held) }
        ensures cause { HasCause self.old.faults self.new.faults
            (result ≡ Err faults.KeeperFault) }
        ensures stays { StaysUnless self.old.faults self.new.faults
            (result ≡ Err faults.KeeperFault) }
        ensures name { self.new.name ≡ self.old.name }
        ensures admin { self.new.admin ≡ self.old.admin }
    {
        self.ahead = None;
        self.landed = None;
        take_part(
            &mut self.keeper,
            &mut self.groups,
            &mut self.synced,
            alloc,
            owner,
            &self.name,
            coming,
        )
    }

    /// Takes what is new of groups that come by a synchronisation, in one batch, or in none where
    /// nothing is. All memory is taken before it is put.
    pub fn take_groups(&mut self, alloc: Global, coming: Vec<Group>) -> Result<u64, KeeperFault>
        ensures count { IfOk result (λ n. IfSome self.old.held (λ held.
            n ≡ length (groups_taken (groups_of held) coming.items))) }
        ensures put { OnOk result (WhereReported self.old.held self.new.held
            (λ held new. new ≡ with_groups_taken coming.items held)) }

        // The groups that are held then are those of before with these.
        ensures groups { OnOk result (WhereReported self.old.held self.new.held (λ held new.
            groups_of new ≡ take_groups (groups_of held) coming.items)) }
        ensures fits { OnOk result (IfSome self.old.held (λ held.
            AllByRecursion IsGroup (groups_taken (groups_of held) coming.items))) }

        // Where nothing is taken no keeper is asked.
        ensures none { result ≡ Ok 0 → self.new ≡ self.old }
        ensures err { OnErr result (StaysHeld self.old.held self.new.held) }
        ensures cause { HasCause self.old.faults self.new.faults
            (result ≡ Err KeeperFault.Failed) }
        ensures stays { StaysUnless self.old.faults self.new.faults
            (result ≡ Err KeeperFault.Failed) }
        ensures name { self.new.name ≡ self.old.name }
        ensures admin { self.new.admin ≡ self.old.admin }
    {
        self.ahead = None;
        self.landed = None;
        self.synced = None;
        take_groups(&mut self.keeper, &mut self.groups, alloc, coming)
    }

    /// The groups that carry to an instance what an organisation takes there, in their order.
    pub fn carrying_groups(
        &self,
        alloc: Global,
        org: &OrgId,
        dest: &InstId,
    ) -> Result<Vec<Group>, NoMemory>
        ensures all { IfSome self.now.held (λ held. IfOk result (λ groups.
            groups.items ≡ filter (carries_to org.now dest.now) (groups_of held))) }
        ensures fits { IfOk result (λ groups. AllByRecursion IsGroup groups.items) }
    {
        carrying(alloc, &self.groups, org, dest)
    }

    /// The packages of all that passes on this way to an instance for an organisation, event after
    /// event. All rows are read once.
    pub fn pushed_packages(
        &mut self,
        alloc: Global,
        way: Way,
        org: &OrgId,
        dest: &InstId,
    ) -> Result<Vec<Package>, LoadFault>
        // They are those of all rows that are held, and all of these decode.
        ensures packed { IfOk result (λ all. IfSome self.new.held (λ held.
            (rows : List RowFields) → (seen_in held).rows reach.All ≡ Ok rows → all.items
            ≡ packages_pushed way self.old.name (groups_of held) org.now dest.now rows)) }
        ensures read { OnOk result
            (IfSome self.new.held (λ held. IsOk ((seen_in held).rows reach.All))) }
        ensures each { IfOk result (λ all. AllByRecursion IsPackage all.items) }

        // Of the rows that are read, it names the first that does not decode.
        ensures bad { IfErr result (λ fault. IfSome self.new.held (λ held.
            NamesFault ((seen_in held).rows reach.All) fault)) }
        ensures held { StaysHeld self.old.held self.new.held }
        ensures cause { HasCause self.old.faults self.new.faults
            (result ≡ Err faults.KeeperFault) }
        ensures stays { StaysUnless self.old.faults self.new.faults
            (result ≡ Err faults.KeeperFault) }
        ensures name { self.new.name ≡ self.old.name }
        ensures admin { self.new.admin ≡ self.old.admin }
    {
        let via = via_from(way, &self.name, &self.groups, org, dest);
        load_outgoing(&mut self.keeper, alloc, &via)
    }
}
