//! Laws of what a synchronisation asks and leaves.

ghost use Rattle.std.specs.Prelude.{◌≡◌, ℕ, Contains, List, [], ◌∷◌, None, Option, Some, Ok, false, true};
ghost use Rattle.std.specs.List.{list_all};
ghost use Rattle.misp_ids.specs.Same.{Inst, same_inst};
ghost use Rattle.misp_ids.specs.declared.label.Label.{Label};
ghost use Rattle.misp_ids.specs.declared.label.Way.TheVariants as ways;
ghost use Rattle.misp_ids.specs.declared.label.Way.{Way};
ghost use Rattle.misp_ids.specs.declared.uid.EventId.{EventId};
ghost use Rattle.misp_ids.specs.declared.uid.OrgId.{OrgId};
ghost use Rattle.misp_levels.specs.Levels.{down, landed};
ghost use Rattle.misp_manifest.specs.declared.wanted.WantedFields.{WantedFields as Wanted};
ghost use Rattle.misp_model.specs.Machine.{event_rows, seeing};
ghost use Rattle.misp_model.specs.Manifests.{pulled_only};
ghost use Rattle.misp_model.specs.Passing.{route_to};
ghost use Rattle.misp_model.specs.Prelude.{IsTable};
ghost use Rattle.misp_model.specs.Pulling.{pulled_packages, pulled_part};
ghost use Rattle.misp_model.specs.Scene.{Scene};
ghost use Rattle.misp_model.specs.declared.package.PackageFields.{PackageFields as Package};
ghost use Rattle.misp_ids.specs.declared.label.Direction.TheVariants as directions;
ghost use Rattle.misp_outside.specs.Held.{Held};
ghost use Rattle.misp_outside.specs.Wires as wires;
ghost use Rattle.misp_orgs.specs.Admin.{link_of, who_of};
ghost use Rattle.misp_orgs.specs.Keys.{CallerFields as Caller};
ghost use Rattle.misp_orgs.specs.declared.link.Link.{Link};
ghost use Rattle.misp_groups.specs.Changes.{take_groups};
ghost use Rattle.misp_groups.specs.declared.group.GroupFields.{GroupFields as Group};
ghost use Rattle.misp_elem.specs.declared.row.RowFields.{RowFields as Row};
ghost use Rattle.misp_effects.specs.Batches.{AreReadable, batch};
ghost use Rattle.misp_effects.specs.Effect.{Outcome, effect, left, under};
ghost use Rattle.misp_history.specs.Acts.{Net, World};
ghost use Rattle.misp_history.specs.History.{tables};
ghost use Rattle.misp_history.specs.Merging.{merged};
ghost use Rattle.misp_history.specs.Outcomes.{step_partly};
ghost use Rattle.misp_store.specs.Batches.{spelled};
ghost use Rattle.misp_store.specs.Seen.{Seen, seen_in};
ghost use Rattle.misp_store.specs.declared.reach.Reach.{Reach};
ghost use Rattle.misp_core.specs.Keeping.{Keeps};
ghost use Rattle.misp_protocol.specs.Counts.{no_count, no_tally};
ghost use Rattle.misp_protocol.specs.Text.{synchronising};
ghost use Rattle.misp_protocol.specs.declared.count.SyncCount.{SyncCount};
ghost use Rattle.misp_protocol.specs.declared.cause.Cause.{Cause};
ghost use Rattle.misp_protocol.specs.declared.request.Answer.{Answer};
ghost use Rattle.misp_protocol.specs.declared.request.Request.{Request};
ghost use Rattle.misp_sync.specs.Dialled.{asks_trail, went_to};
ghost use Rattle.misp_core.specs.Sending.{packages_pushed};
ghost use Rattle.misp_core.specs.Standing.{Host, Standing, host_of};
ghost use Rattle.misp_dialogue.specs.Shares.{Exchange, Failure, Goes, share};
ghost use Rattle.misp_dialogue.specs.declared.side.Side.{Side};
ghost use Rattle.misp_sync.specs.History.{applied, pull_act, push_act, push_route_of, route_of, seen_of};
ghost use Rattle.misp_sync.specs.Laws.{AsksAsWanted, Holds, IsGranted, IsGrantedToPartner, IsPullable, IsUpToDate, rows_passed, untouched};
ghost use Rattle.misp_sync.specs.Pulled.{groups_sent, pulled, pulled_by, telling};
ghost use Rattle.misp_sync.specs.Pushed.{push_telling, pushed};
ghost use Rattle.misp_sync.specs.Synchronised.{IsCourse};
ghost use Rattle.misp_sync.specs.WireAnswers.{wire_conduct};
ghost use Rattle.misp_sync.specs.declared.reply.SyncReply.{SyncReply};

/// Where the keepers of two instances hold their tables and groups, a pull of the one from the
/// other comes to what the history says. Whatever stopped it, its keeper holds afterwards what it
/// is to hold after the act. No tables and no groups elsewhere change, and nothing that was made of
/// an administration.
pub fn an_instance_pulls_by_the_history()
    ensures told { (w : World) (here peer : Host) (link : Inst) (own there : Held) →
        Keeps here.name w own → Keeps peer.name w there →
        pulled here link peer (seen_in own) (seen_in there)
        ≡ pulled here link peer (seen_of w here.name) (seen_of w peer.name) }
    ensures left { (net : Net) (n now : ℕ) (w : World) (here peer : Host) (link : Inst)
        (own there : Held) (outcome : Outcome) →
        Keeps here.name w own → Keeps peer.name w there →
        net directions.Pull here.name link w.groups w.made ≡ route_of here link peer →
        AreReadable (under telling outcome
        (pulled here link peer (seen_in own) (seen_in there))).batches →
        Keeps here.name (step_partly net n w (pull_act here.name now link) (applied outcome))
        (left spelled (under telling outcome
        (pulled here link peer (seen_in own) (seen_in there))) own) }
    ensures elsewhere { (net : Net) (n now : ℕ) (w : World) (here peer : Host) (link j : Inst)
        (outcome : Outcome) →
        net directions.Pull here.name link w.groups w.made ≡ route_of here link peer →
        same_inst here.name j ≡ false →
        tables (step_partly net n w (pull_act here.name now link) (applied outcome)).log j
        ≡ tables w.log j }
    ensures groups { (net : Net) (n now : ℕ) (w : World) (here peer : Host) (link j : Inst)
        (outcome : Outcome) →
        net directions.Pull here.name link w.groups w.made ≡ route_of here link peer →
        same_inst here.name j ≡ false →
        (step_partly net n w (pull_act here.name now link) (applied outcome)).groups j
        ≡ w.groups j }
    ensures made { (net : Net) (n now : ℕ) (w : World) (here link : Inst) (outcome : Outcome) →
        (step_partly net n w (pull_act here now link) (applied outcome)).made ≡ w.made }
{}

/// Where the keepers of two instances hold their tables and groups, a push of the one to the other
/// comes to what the history says. Whatever stopped it, the keeper of the other holds afterwards
/// what it is to hold after the act. No tables and no groups elsewhere change, and nothing that was
/// made of an administration.
pub fn an_instance_pushes_by_the_history()
    ensures told { (w : World) (here peer : Host) (link : Inst) (own there : Held) →
        Keeps here.name w own → Keeps peer.name w there →
        pushed here link peer (seen_in own) (seen_in there)
        ≡ pushed here link peer (seen_of w here.name) (seen_of w peer.name) }
    ensures left { (net : Net) (n now : ℕ) (w : World) (here peer : Host) (link : Inst)
        (own there : Held) (outcome : Outcome) →
        Keeps here.name w own → Keeps peer.name w there →
        net directions.Push here.name link w.groups w.made
        ≡ push_route_of here link peer (w.groups here.name) →
        AreReadable (under push_telling outcome
        (pushed here link peer (seen_in own) (seen_in there))).batches →
        Keeps peer.name (step_partly net n w (push_act here.name now link) (applied outcome))
        (left spelled (under push_telling outcome
        (pushed here link peer (seen_in own) (seen_in there))) there) }
    ensures elsewhere { (net : Net) (n now : ℕ) (w : World) (here peer : Host) (link j : Inst)
        (outcome : Outcome) →
        net directions.Push here.name link w.groups w.made
        ≡ push_route_of here link peer (w.groups here.name) →
        same_inst peer.name j ≡ false →
        tables (step_partly net n w (push_act here.name now link) (applied outcome)).log j
        ≡ tables w.log j }
    ensures groups { (net : Net) (n now : ℕ) (w : World) (here peer : Host) (link j : Inst)
        (outcome : Outcome) →
        net directions.Push here.name link w.groups w.made
        ≡ push_route_of here link peer (w.groups here.name) →
        same_inst peer.name j ≡ false →
        (step_partly net n w (push_act here.name now link) (applied outcome)).groups j
        ≡ w.groups j }
    ensures made { (net : Net) (n now : ℕ) (w : World) (here link : Inst) (outcome : Outcome) →
        (step_partly net n w (push_act here now link) (applied outcome)).made ≡ w.made }
{}

/// A pull of what is there already takes nothing: where no group that passes is new, and merging
/// the packages of each event that passes leaves the holder's rows of it what they are. It puts the
/// one batch that has nothing, and nothing that is held changes. Over a link that is on it is done,
/// and counts nothing.
pub fn a_second_pull_takes_nothing()
    ensures effect { (here : Inst) (w : OrgId) (peer : Host) (caller : Caller) (own there : Seen) →
        IsUpToDate here w peer caller own there →
        pulled_by here w peer (Some caller) own there ≡ effect None (batch [] [] ∷ []) }
    ensures left { (here : Inst) (w : OrgId) (peer : Host) (caller : Caller) (held : Held)
        (there : Seen) → IsUpToDate here w peer caller (seen_in held) there →
        left spelled (pulled_by here w peer (Some caller) (seen_in held) there) held ≡ held }
    ensures done { (here peer : Host) (name : Inst) (link : Link) (caller : Caller)
        (own there : Seen) → link_of here.admin.links name ≡ Some link → link.on ≡ true →
        who_of peer.admin link.key ≡ Some caller →
        IsUpToDate here.name link.holder peer caller own there →
        pulled here name peer own there
        ≡ effect (SyncReply.Done no_count) (batch [] [] ∷ []) }
{}

/// A pull by a key that may pull is done. It leaves the rows that were held with those that pass
/// merged into them, as they are handed in for the holder, and the groups with those that carry. Of
/// an event its holder has its own rows with those of the event that pass. A row of whose owner and
/// key nothing passes stays as it was.
pub fn a_pull_leaves_what_was_held_and_what_passes()
    ensures done { (here : Inst) (w : OrgId) (peer : Host) (caller : Caller) (own : Held)
        (there : Seen) (mine : List Row) (groups : List Group) (rows : List Row) →
        IsPullable peer caller own there mine groups rows →
        (pulled_by here w peer (Some caller) (seen_in own) there).reply ≡ None }
    ensures left { (here : Inst) (w : OrgId) (peer : Host) (caller : Caller) (own : Held)
        (there : Seen) (mine : List Row) (groups : List Group) (rows : List Row) →
        IsPullable peer caller own there mine groups rows →
        AreReadable (pulled_by here w peer (Some caller) (seen_in own) there).batches →
        Holds (merged here mine (take_groups groups (groups_sent peer caller there.groups))
        (rows_passed w peer caller there.groups rows))
        (take_groups groups (groups_sent peer caller there.groups))
        (left spelled (pulled_by here w peer (Some caller) (seen_in own) there) own) }
    ensures event { (here : Inst) (w : OrgId) (peer : Host) (caller : Caller) (own : Held)
        (there : Seen) (mine : List Row) (groups : List Group) (rows : List Row) →
        IsPullable peer caller own there mine groups rows →
        AreReadable (pulled_by here w peer (Some caller) (seen_in own) there).batches →
        (e : EventId) (before : List Row) → (seen_in own).rows (Reach.Own w e) ≡ Ok before →
        (seen_in (left spelled (pulled_by here w peer (Some caller) (seen_in own) there) own)).rows
        (Reach.Own w e)
        ≡ Ok (merged here before (take_groups groups (groups_sent peer caller there.groups))
        (event_rows e (rows_passed w peer caller there.groups rows))) }
    ensures others { (here : Inst) (rows : List Row) (groups : List Group) (coming : List Row) →
        untouched coming (merged here rows groups coming) ≡ untouched coming rows }
    ensures seen { (rows : List Row) (groups : List Group) (held : Held) →
        Holds rows groups held →
        ((seen_in held).rows Reach.All ≡ Ok rows) × ((seen_in held).groups ≡ groups) }
{}

/// Every row of a package that is sent is a row there as it arrives, and that row is granted to the
/// organisation for which it passes: in a pull to that of the key, which has a partner, and in a
/// push to that of the link. The ways of a pull and of a push leave its label one step down, and
/// the internal way leaves it as it is. Each instance has one row of an owner and key.
pub fn what_is_sent_was_granted()
    ensures packages { (s : Scene) (rows : List Row) → IsTable rows → (e : EventId) (p : List Row)
        (x : Row) → Contains (pulled_packages (seeing s rows) e) p → Contains p x →
        IsGrantedToPartner s rows x }
    ensures part { (s : Scene) (rows : List Row) → IsTable rows → (e : EventId) (n : ℕ)
        (p : Package) (x : Row) → pulled_part (seeing s rows) e n ≡ Some p → Contains p.rows x →
        IsGrantedToPartner s rows x }
    ensures wanted { (s : Scene) (rows : List Row) → IsTable rows → (w : Wanted) (p : Package)
        (x : Row) → pulled_only (seeing s rows) w ≡ Some p → Contains p.rows x →
        IsGrantedToPartner s rows x }
    ensures pushed { (way : Way) (here : Inst) (groups : List Group) (org : OrgId) (dest : Inst)
        (rows : List Row) → IsTable rows → (p : Package) (x : Row) →
        Contains (packages_pushed way here groups org dest rows) p → Contains p.rows x →
        IsGranted rows groups (route_to way here org dest) x }
    ensures pull { (label : Label) → landed ways.Pull label ≡ down label 1 }
    ensures push { (label : Label) → landed ways.Push label ≡ down label 1 }
    ensures internal { (label : Label) → landed ways.Internal label ≡ label }
{}

/// Where the trail of a wire to an address is that of requests and of bytes of which their replies
/// are read, every ask of its dial went there.
pub fn what_is_asked_goes_to_one_address()
    ensures { (address : List ℕ) (host : Option Host) (key : List ℕ)
        (xs : List (Exchange Request Answer)) (last : Option (Failure Request Cause))
        (asks : List wires.Asked) →
        Goes (wire_conduct host key) xs last (asks_trail address asks) →
        list_all (went_to address) asks ≡ true }
{}

/// A pull that is done, of an instance that reports what it holds, has asked its peer for the
/// groups and for the manifest, and then for those rows of the parts of that manifest which the
/// holder wants over what it holds then, and for nothing else.
pub fn a_pull_asks_for_what_is_wanted()
    ensures { (link : Link) (here : Standing) (own new : Held) (peer left : Option (Host × Held))
        (count : SyncCount) (trail : List (List ℕ))
        (c : IsCourse directions.Pull link here (Some new) peer left (SyncReply.Done count) trail) →
        here.held ≡ Some own →
        AsksAsWanted (host_of here) link own new
        (share Side.Source (synchronising directions.Pull no_tally) c.answers) }
{}
