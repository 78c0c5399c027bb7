//! What a synchronisation does to the tables.

ghost use Rattle.std.specs.Prelude.{◌≡◌, ◌+◌, ℕ, min, Bool, true, false, List, [], ◌∷◌, ◌++◌, None, Some, cond, filter, flat_map, length, map, take};
ghost use Rattle.std.specs.List.{list_all, slice_get, AllByRecursion, Contains};
ghost use Rattle.misp_ids.specs.Uid.{IsUid};
ghost use Rattle.misp_ids.specs.declared.uid.OrgId.{OrgId};
ghost use Rattle.misp_ids.specs.declared.uid.EventId.{EventId};
ghost use Rattle.misp_elem.specs.declared.row.RowFields.{RowFields as Row};
ghost use Rattle.misp_elem.specs.Row.{AreRows};
ghost use Rattle.misp_groups.specs.declared.group.GroupFields.{GroupFields as Group};
ghost use Rattle.misp_model.specs.declared.package.PackageFields.{PackageFields as Package};
ghost use Rattle.misp_manifest.specs.Manifest.{key_stamp};
ghost use Rattle.misp_manifest.specs.declared.wanted.WantedFields.{WantedFields as Wanted};
ghost use Rattle.misp_model.specs.declared.ask.Ask.TheVariants.{SyncEvents, SyncGroups, SyncManifest, SyncPart, SyncRows, TakePart};
ghost use Rattle.misp_ids.specs.Same.{Inst, same_inst};
ghost use Rattle.misp_groups.specs.Audience.{carries};
ghost use Rattle.misp_model.specs.Version.{Version};
ghost use Rattle.misp_history.specs.History.{tables};
ghost use Rattle.misp_model.specs.View.{IsTable, granted};
ghost use Rattle.misp_model.specs.Machine.{event_rows, put_all};
ghost use Rattle.misp_history.specs.Passing.{Route};
ghost use Rattle.misp_history.specs.Acts.{Act, Caller, World, scene, synced, synced_groups};
ghost use Rattle.misp_model.specs.Answers.{Packed, Refused, Shares, Taken, answer, brings, ok_answer};
ghost use Rattle.misp_model.specs.Manifests.{said_of};
ghost use Rattle.misp_model.specs.Pulling.{pulled_packages, pulled_rows};
ghost use Rattle.misp_model.specs.Scene.{NotGranted, Scene};
ghost use Rattle.misp_groups.specs.Changes.{count_taken};
ghost use Rattle.misp_history.specs.Answered.{PullsBy, events_in, packages_answered, parts_answered, said_in, to_nobody, with_wanted};
ghost use Rattle.misp_history.specs.Outcomes.{arriving, synced_partly, takes};
ghost use Rattle.misp_history.specs.Merging.{IsPackageOf, arrives, arriving_rows, bringing, brought, count_bringing, fresh, handed, is_taken, more_where, merged, merged_by, packages, passing_rows, rows_taken};

/// A synchronisation merges what passes of the sender's rows into the rows of its receiver, and
/// changes no row of another instance.
pub fn one_synchronisation()
    ensures here { (w : World) (r : Route) →
        tables (synced w r).log r.into
        ≡ merged r.into (tables w.log r.into) (synced_groups w.groups r r.into)
        (arriving_rows (tables w.log r.from) (w.groups r.from) r) }
    ensures elsewhere { (w : World) (r : Route) (j : Inst) →
        same_inst r.into j ≡ false → tables (synced w r).log j ≡ tables w.log j }
{}

/// What passes of a table was granted there to the organisation of the synchronisation, and arrives
/// as rows. Of one event the same passes from its own rows as from all.
pub fn what_passes_is_granted()
    ensures rows { (rows : List Row) (groups : List Group) (r : Route) → IsTable rows →
        AreRows rows → IsUid r.holder.0 → AreRows (arriving_rows rows groups r) }
    ensures here { (e : EventId) (rows : List Row) (groups : List Group) (r : Route) →
        arriving_rows (event_rows e rows) groups r ≡ event_rows e (arriving_rows rows groups r) }
    ensures granted { (rows : List Row) (groups : List Group) (r : Route) (x : Row) → IsTable rows →
        Contains (passing_rows rows groups r) x → granted rows groups r.from r.«for» x ≡ true }
{}

/// A package that an organisation hands in is merged into the rows of the instance, each of its rows
/// as it is handed in, and the answer tells how many are taken.
pub fn a_package_is_handed_in()
    ensures here { (n : ℕ) (w : World) (act : Act) (c : Caller) (p : Package) →
        IsTable (map (handed c.org) p.rows) →
        tables (w.log ++ brings (scene n w act c) (TakePart p)) act.at
        ≡ merged act.at (tables w.log act.at) (w.groups act.at) (map (handed c.org) p.rows) }
    ensures elsewhere { (n : ℕ) (w : World) (act : Act) (c : Caller) (p : Package) (j : Inst) →
        same_inst act.at j ≡ false →
        tables (w.log ++ brings (scene n w act c) (TakePart p)) j ≡ tables w.log j }
    ensures answer { (n : ℕ) (w : World) (act : Act) (c : Caller) (p : Package) →
        ok_answer (scene n w act c) (TakePart p)
        ≡ Taken (length (rows_taken act.at (tables w.log act.at) (w.groups act.at)
        (map (handed c.org) p.rows))) }
{}

/// The same synchronisation once more, with both instances unchanged, takes no group and no row, and
/// changes nothing.
pub fn a_second_synchronisation()
    ensures here { (w : World) (r : Route) → same_inst r.into r.from ≡ false →
        tables (synced (synced w r) r).log r.into ≡ tables (synced w r).log r.into }
    ensures elsewhere { (w : World) (r : Route) (j : Inst) → same_inst r.into j ≡ false →
        tables (synced (synced w r) r).log j ≡ tables (synced w r).log j }
    ensures groups { (w : World) (r : Route) → same_inst r.into r.from ≡ false →
        (synced (synced w r) r).groups r.into ≡ (synced w r).groups r.into }
    ensures taken { (w : World) (r : Route) → same_inst r.into r.from ≡ false →
        rows_taken r.into (tables (synced w r).log r.into)
        (synced_groups (synced w r).groups r r.into)
        (arriving_rows (tables (synced w r).log r.from) ((synced w r).groups r.from) r)
        ≡ [] }
    ensures counted { (w : World) (r : Route) → same_inst r.into r.from ≡ false →
        count_taken ((synced w r).groups r.into)
        (filter (λ g. carries g r.«for» r.dest) ((synced w r).groups r.from)) ≡ 0 }
{}

/// The packages up to the n-th that brings a row are the first ones, and so many of them bring one,
/// or all that do. A package brings one where it has a row that passes the test, of a name that none
/// before it has brought.
pub fn the_first_packages_bring_so_many()
    ensures first { (n : ℕ) (test : Row → Bool) (so : List Row) (ps : List (List Row)) →
        (k : ℕ) × (bringing n test so ps ≡ take k ps) }
    ensures count { (n : ℕ) (test : Row → Bool) (so : List Row) (ps : List (List Row)) →
        count_bringing test so (bringing n test so ps) ≡ min n (count_bringing test so ps) }
    ensures last { (test : Row → Bool) (so : List Row) (ps : List (List Row)) (p : List Row) →
        count_bringing test so (ps ++ p ∷ [])
        ≡ count_bringing test so ps + more_where (fresh test (so ++ brought test so ps) p) 0 }
{}

/// Packages that are merged one after another put what is taken of all that comes, each row with the
/// first package that has it. Packages that have all that comes are merged as the whole.
pub fn packages_are_merged_one_by_one()
    ensures some { (i : Inst) (rows : List Row) (groups : List Group) (coming : List Row)
        (w : OrgId) (ps : List (List Row)) →
        IsTable coming → list_all (arrives w) coming ≡ true →
        AllByRecursion (IsPackageOf coming) ps →
        merged_by i rows groups ps
        ≡ put_all (brought (is_taken i rows groups coming) [] ps) rows }
    ensures all { (log : List Version) (i : Inst) (groups : List Group) (coming : List Row)
        (w : OrgId) (ps : List (List Row)) →
        IsTable coming → list_all (arrives w) coming ≡ true →
        AllByRecursion (IsPackageOf coming) ps →
        ((x : Row) → Contains coming x → (p : List Row) × (Contains ps p × Contains p x)) →
        merged_by i (tables log i) groups ps ≡ merged i (tables log i) groups coming }
    ensures next { (i : Inst) (rows : List Row) (groups : List Group) (coming : List Row)
        (w : OrgId) (ps : List (List Row)) (p : List Row) →
        IsTable coming → list_all (arrives w) coming ≡ true →
        AllByRecursion (IsPackageOf coming) ps → IsPackageOf coming p →
        rows_taken i (merged_by i rows groups ps) groups p
        ≡ fresh (is_taken i rows groups coming) (brought (is_taken i rows groups coming) [] ps) p }
{}

/// A synchronisation that stopped after the batches of its first packages has merged these packages
/// into the rows of its receiver, one after another, and one that is done has merged all of them.
/// Neither changes a row of another instance.
pub fn a_synchronisation_by_packages()
    ensures stopped { (k : ℕ) (w : World) (r : Route) (g : Bool) →
        AreRows (tables w.log r.from) →
        tables (synced_partly w r g
        (count_bringing (takes w r (cond g (synced_groups w.groups r) w.groups r.into)) []
        (take k (packages (arriving w r))))).log r.into
        ≡ merged_by r.into (tables w.log r.into) (cond g (synced_groups w.groups r) w.groups r.into)
        (take k (packages (arriving w r))) }
    ensures done { (w : World) (r : Route) → AreRows (tables w.log r.from) →
        tables (synced w r).log r.into
        ≡ merged_by r.into (tables w.log r.into) ((synced w r).groups r.into)
        (packages (arriving w r)) }
    ensures elsewhere { (p : ℕ) (w : World) (r : Route) (g : Bool) (j : Inst) →
        same_inst r.into j ≡ false →
        tables (synced_partly w r g p).log j ≡ tables w.log j }
{}

/// What a synchronising key is answered is what a pull by its partner brings: the groups that
/// carry, and of all that arrives the packages, one event after another and one part after another.
/// The manifest says of each event that is listed the keys and the stamps of its parts.
pub fn a_pull_is_answered_by_packages()
    ensures groups { (n : ℕ) (w : World) (act : Act) (c : Caller) (r : Route) →
        PullsBy r (scene n w act c) →
        answer (scene n w act c) SyncGroups
        ≡ Shares (filter (λ g. carries g r.«for» r.dest) (w.groups r.from)) }
    ensures rows { (n : ℕ) (w : World) (act : Act) (c : Caller) (r : Route) →
        PullsBy r (scene n w act c) →
        pulled_rows (scene n w act c)
        ≡ arriving_rows (tables w.log r.from) (w.groups r.from) (to_nobody r) }
    ensures packages { (n : ℕ) (w : World) (act : Act) (c : Caller) (r : Route) →
        PullsBy r (scene n w act c) →
        packages_answered (scene n w act c)
        ≡ packages (arriving_rows (tables w.log r.from) (w.groups r.from) (to_nobody r)) }
    ensures manifest { (s : Scene) →
        said_in (answer s SyncManifest)
        ≡ map (λ event. said_of event.0 (parts_answered s event))
        (events_in (answer s SyncEvents)) }
    ensures keys { (n : ℕ) (w : World) (act : Act) (c : Caller) (r : Route) →
        PullsBy r (scene n w act c) →
        flat_map (λ said. said.parts) (said_in (answer (scene n w act c) SyncManifest))
        ≡ map (map key_stamp)
        (packages (arriving_rows (tables w.log r.from) (w.groups r.from) (to_nobody r))) }
{}

/// A part that is answered is the one that was asked for, and one that is not there is refused. Where
/// some rows of a part are wanted, the answer is that part with these rows alone.
pub fn a_part_is_the_one_asked_for()
    ensures event { (s : Scene) (e : EventId) (n : ℕ) (p : Package) →
        answer s (SyncPart e n) ≡ Packed p → p.event ≡ e }
    ensures part { (s : Scene) (e : EventId) (n : ℕ) (p : Package) →
        answer s (SyncPart e n) ≡ Packed p → p.part ≡ n }
    ensures parts { (s : Scene) (e : EventId) (n : ℕ) (p : Package) →
        answer s (SyncPart e n) ≡ Packed p → p.parts ≡ length (pulled_packages s e) }
    ensures rows { (s : Scene) (e : EventId) (n : ℕ) (p : Package) →
        answer s (SyncPart e n) ≡ Packed p → slice_get (pulled_packages s e) n ≡ Some p.rows }
    ensures absent { (s : Scene) (e : EventId) (n : ℕ) →
        slice_get (pulled_packages s e) n ≡ None → answer s (SyncPart e n) ≡ Refused NotGranted }
    ensures wanted { (s : Scene) (w : Wanted) →
        answer s (SyncRows w) ≡ with_wanted w.keys (answer s (SyncPart w.event w.part)) }
{}
