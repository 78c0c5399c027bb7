//! Laws of the tables and of one act, on which the crates above stand.

ghost use Rattle.std.specs.Prelude.{◌≡◌, ℕ, suc, List, [], ◌∷◌, ◌++◌, map, Bool, true, false, not, ◌&&◌, cond, ltb, leb, Option, Some, is_some};
ghost use Rattle.std.specs.List.{filter, list_any, list_all};
ghost use Rattle.misp_ids.specs.declared.uid.OrgId.{OrgId};
ghost use Rattle.misp_ids.specs.declared.uid.EventId.{EventId};
ghost use Rattle.misp_elem.specs.declared.row.RowFields.{RowFields as Row};
ghost use Rattle.misp_groups.specs.declared.group.GroupFields.{GroupFields as Group};
ghost use Rattle.misp_model.specs.declared.change.Change.{Change};
ghost use Rattle.misp_model.specs.declared.change.Change.TheVariants.{Publish};
ghost use Rattle.misp_model.specs.declared.ask.Ask.{Ask};
ghost use Rattle.misp_model.specs.declared.ask.Ask.TheVariants.{View, Index, Search, Groups};
ghost use Rattle.misp_model.specs.declared.ask.Ask.TheVariants as ask;
ghost use Rattle.misp_ids.specs.Same.{Inst, same_inst, same_org};
ghost use Rattle.misp_elem.specs.SameKey.{same_key};
ghost use Rattle.misp_elem.specs.Parents.{event_key};
ghost use Rattle.misp_lists.specs.Order.{put};
ghost use Rattle.misp_search.specs.Page.{PageNumbers};
ghost use Rattle.misp_search.specs.declared.fitting.Filter.{Filter};
ghost use Rattle.misp_model.specs.View.{has_copy, has_home, has_gone};
ghost use Rattle.misp_model.specs.Version.{Version, Written, is_published, is_event_of};
ghost use Rattle.misp_elem.specs.RowFacts.{is_gone};
ghost use Rattle.misp_history.specs.History.{has_come, same_cell, row_of, fresh_row, newest, tables};
ghost use Rattle.misp_model.specs.RowOrder.{stands_before};
ghost use Rattle.misp_model.specs.Machine.{put_row, put_all, let_go, published_row, hands_in, pulls};
ghost use Rattle.misp_model.specs.Scene.{Scene, own_row};
ghost use Rattle.misp_model.specs.Changing.{change_writes};
ghost use Rattle.misp_model.specs.Numbers.{scene_as, versions_as, reply_as};
ghost use Rattle.misp_model.specs.Scene.{Partner};
ghost use Rattle.misp_history.specs.Acts.{World, Act, Net, Caller, Asks, Misfits, Administers, Nothing, scene, with_groups, step};
ghost use Rattle.misp_model.specs.Answers.{ask_rules, brings, is_accepted, answer};
ghost use Rattle.misp_groups.specs.Changes.{administered};

/// A version that is no publishing is put in the place of its owner's row of its key where it is
/// newer than all versions there, and changes nothing else. Just written, it is a row as it stands.
pub fn one_version_more()
    ensures fresh { (log : List Version) (v : Version) → v.path ≡ [] → v.came ≡ Written →
        list_all (λ u. leb u.act v.act) log ≡ true → row_of log v ≡ fresh_row v }
    ensures placed { (log : List Version) (v : Version) (i : Inst) → is_published v.came ≡ false →
        tables (log ++ v ∷ []) i
        ≡ cond (same_inst v.at i && not (list_any (λ a. same_cell a v && leb v.stamp a.stamp) log))
        (put stands_before (row_of log v)
        (filter (λ r. not (same_org r.owner v.owner && same_key r.key v.key)) (tables log i)))
        (tables log i) }
{}

/// An accepted request puts each version that it brings in its place as a row, at its instance
/// alone. A package that is handed in is another matter: what it brings is put where it is newer.
pub fn an_accepted_request_is_put_row_by_row()
    ensures here { (n : ℕ) (w : World) (act : Act) (c : Caller) (a : Ask) →
        hands_in a ≡ false → is_accepted (scene n w act c) a ≡ true →
        list_all (λ v. ltb v.act n) w.log ≡ true →
        tables (w.log ++ brings (scene n w act c) a) act.at
        ≡ put_all (map fresh_row (brings (scene n w act c) a)) (tables w.log act.at) }
    ensures elsewhere { (n : ℕ) (w : World) (act : Act) (c : Caller) (a : Ask) (j : Inst) →
        same_inst act.at j ≡ false →
        tables (w.log ++ brings (scene n w act c) a) j ≡ tables w.log j }
{}

/// A publishing puts the event's row, with a later stamp and no hold, in its place, and clears the
/// hold of each other row of its caller's copy. Nothing else changes.
pub fn a_publishing_clears_the_holds_of_its_copy()
    ensures tables { (n : ℕ) (w : World) (act : Act) (c : Caller) (e : EventId) (row : Row) →
        is_accepted (scene n w act c) (ask.Change (Publish e)) ≡ true →
        list_all (λ v. ltb v.act n) w.log ≡ true →
        own_row (scene n w act c) (event_key e) ≡ Some row →
        tables (w.log ++ change_writes (scene n w act c) (Publish e)) act.at
        ≡ put_row (published_row act.now row) (map (let_go c.org e) (tables w.log act.at)) }
    ensures row { (n : ℕ) (w : World) (act : Act) (c : Caller) (e : EventId) →
        is_accepted (scene n w act c) (ask.Change (Publish e)) ≡ true →
        is_some (own_row (scene n w act c) (event_key e)) ≡ true }
{}

/// Whether a copy is there, was added at its instance or is gone is told by the newest version of
/// its event: what it says, and how it came.
pub fn a_copy_is_as_its_event_came()
    ensures copy { (log : List Version) (i : Inst) (o : OrgId) (e : EventId) →
        has_copy (tables log i) o e
        ≡ list_any (λ v. is_event_of o e v && not (is_gone v.content)) (newest log i) }
    ensures home { (log : List Version) (i : Inst) (o : OrgId) (e : EventId) →
        has_home (tables log i) o e
        ≡ list_any (λ v. is_event_of o e v && (not (is_gone v.content) && not (has_come v)))
        (newest log i) }
    ensures gone { (log : List Version) (i : Inst) (o : OrgId) (e : EventId) →
        has_gone (tables log i) o e
        ≡ list_any (λ v. is_event_of o e v && is_gone v.content) (newest log i) }
{}

/// An accepted request adds to the history what it brings. A refused one, a view, the index, a
/// search, the groups, what a pull asks, a request refused by its form and an act that does nothing
/// leave the state as it is. An administration changes the groups of its instance, and nothing
/// else. After each act the history has no number of a later one.
pub fn what_an_act_leaves()
    ensures accepted { (net : Net) (n : ℕ) (w : World) (act : Act) (c : Caller) (a : Ask) →
        act.command ≡ Asks c a → is_accepted (scene n w act c) a ≡ true →
        step net n w act ≡ record w { log = w.log ++ brings (scene n w act c) a } }
    ensures changed { (net : Net) (n : ℕ) (w : World) (act : Act) (c : Caller) (x : Change) →
        act.command ≡ Asks c (ask.Change x) → is_accepted (scene n w act c) (ask.Change x) ≡ true →
        step net n w act ≡ record w { log = w.log ++ change_writes (scene n w act c) x } }
    ensures refused { (net : Net) (n : ℕ) (w : World) (act : Act) (c : Caller) (a : Ask) →
        act.command ≡ Asks c a → is_accepted (scene n w act c) a ≡ false → step net n w act ≡ w }
    ensures view { (net : Net) (n : ℕ) (w : World) (act : Act) (c : Caller)
        (e : EventId) (o : Option OrgId) →
        act.command ≡ Asks c (View e o) → step net n w act ≡ w }
    ensures index { (net : Net) (n : ℕ) (w : World) (act : Act) (c : Caller) (page : PageNumbers) →
        act.command ≡ Asks c (Index page) → step net n w act ≡ w }
    ensures search { (net : Net) (n : ℕ) (w : World) (act : Act) (c : Caller)
        (filter : Filter) (whole : Bool) →
        act.command ≡ Asks c (Search filter whole) → step net n w act ≡ w }
    ensures groups { (net : Net) (n : ℕ) (w : World) (act : Act) (c : Caller) →
        act.command ≡ Asks c Groups → step net n w act ≡ w }
    ensures pull { (net : Net) (n : ℕ) (w : World) (act : Act) (c : Caller) (a : Ask) →
        pulls a ≡ true → act.command ≡ Asks c a → step net n w act ≡ w }
    ensures administers { (net : Net) (n : ℕ) (w : World) (act : Act)
        (by : OrgId) (add : Bool) (g : Group) →
        act.command ≡ Administers by add g →
        step net n w act ≡ record w {
          groups = with_groups w.groups act.at
              (administered act.now by add g (w.groups act.at));
        } }
    ensures misfit { (net : Net) (n : ℕ) (w : World) (act : Act) (c : Caller) →
        act.command ≡ Misfits c → step net n w act ≡ w }
    ensures nothing { (net : Net) (n : ℕ) (w : World) (act : Act) →
        act.command ≡ Nothing → step net n w act ≡ w }
    ensures numbers { (net : Net) (n : ℕ) (w : World) (act : Act) →
        list_all (λ v. ltb v.act n) w.log ≡ true →
        list_all (λ v. ltb v.act (suc n)) (step net n w act).log ≡ true }
{}

/// The number of an act is in the versions that its request writes, and nowhere else: the same
/// request of another act is refused, accepted and answered alike, and writes the same rows.
pub fn a_request_is_decided_without_its_number()
    ensures scene { (m n : ℕ) (w : World) (act : Act) (c : Caller) →
        scene n w act c ≡ scene_as n (scene m w act c) }
    ensures rules { (n : ℕ) (s : Scene) (a : Ask) → ask_rules (scene_as n s) a ≡ ask_rules s a }
    ensures accepted { (n : ℕ) (s : Scene) (a : Ask) →
        is_accepted (scene_as n s) a ≡ is_accepted s a }
    ensures answer { (n : ℕ) (s : Scene) (a : Ask) →
        answer (scene_as n s) a ≡ reply_as n (answer s a) }
    ensures versions { (n : ℕ) (s : Scene) (a : Ask) →
        brings (scene_as n s) a ≡ versions_as n (brings s a) }
    ensures rows { (n : ℕ) (s : Scene) (a : Ask) →
        map fresh_row (brings (scene_as n s) a) ≡ map fresh_row (brings s a) }
{}

/// The partner of the caller's key counts for what a pull asks, and for nothing else: any other
/// request with another partner is refused, accepted and answered alike, and writes the same.
pub fn a_partner_counts_for_pulls_alone()
    ensures rules { (p : Option Partner) (s : Scene) (a : Ask) → pulls a ≡ false →
        ask_rules (record s { partner = p }) a ≡ ask_rules s a }
    ensures accepted { (p : Option Partner) (s : Scene) (a : Ask) → pulls a ≡ false →
        is_accepted (record s { partner = p }) a ≡ is_accepted s a }
    ensures answer { (p : Option Partner) (s : Scene) (a : Ask) → pulls a ≡ false →
        answer (record s { partner = p }) a ≡ answer s a }
    ensures versions { (p : Option Partner) (s : Scene) (a : Ask) →
        brings (record s { partner = p }) a ≡ brings s a }
{}
