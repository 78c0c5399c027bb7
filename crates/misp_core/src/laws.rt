//! Laws of what an instance answers.

ghost use Rattle.std.specs.Prelude.{◌≡◌, ℕ, Bool, List, [], true, false, is_some, ltb};
ghost use Rattle.std.specs.List.{list_all};
ghost use Rattle.misp_ids.specs.declared.uid.OrgId.{OrgId};
ghost use Rattle.misp_groups.specs.declared.group.GroupFields.{GroupFields as Group};
ghost use Rattle.misp_model.specs.declared.ask.Ask.{Ask};
ghost use Rattle.misp_orgs.specs.Admin.{AdminFields as Admin};
ghost use Rattle.misp_orgs.specs.Keys.{CallerFields as Caller};
ghost use Rattle.misp_orgs.specs.Roles.{permits};
ghost use Rattle.misp_orgs.specs.declared.role.Perm.{Perm};
ghost use Rattle.misp_outside.specs.Held.{Held};
ghost use Rattle.misp_effects.specs.Batches.{AreReadable};
ghost use Rattle.misp_effects.specs.Effect.{left};
ghost use Rattle.misp_ids.specs.Same.{Inst, same_inst};
ghost use Rattle.misp_ids.specs.Moments.{Stamp};
ghost use Rattle.misp_history.specs.History.{tables};
ghost use Rattle.misp_model.specs.Scene.{Scene};
ghost use Rattle.misp_model.specs.Numbers.{scene_as};
ghost use Rattle.misp_history.specs.Acts.{World, Net, scene, step};
ghost use Rattle.misp_groups.specs.Changes.{administration_fails, count_taken};
ghost use Rattle.misp_groups.specs.Groups.{why_not};
ghost use Rattle.misp_store.specs.Batches.{spelled};
ghost use Rattle.misp_store.specs.Seen.{Seen, seen_in};
ghost use Rattle.misp_store.specs.Sharing.{groups_of};
ghost use Rattle.misp_core.specs.Answers.{Asked, IsBuilt};
ghost use Rattle.misp_core.specs.Effects.{IsRefused, asked, asked_where};
ghost use Rattle.misp_core.specs.Standing.{Host};
ghost use Rattle.misp_core.specs.Administering.{administered};
ghost use Rattle.misp_core.specs.HandedGroups.{act_handing, groups_handed};
ghost use Rattle.misp_core.specs.declared.reply.Answer.{Answer};
ghost use Rattle.misp_core.specs.declared.reply.Reply.{Reply};
ghost use Rattle.misp_core.specs.Keeping.{Keeps, act_at, act_of, caller_at};

use misp_store::groups_are_held_as_their_rows;

/// What a request comes to does not depend on the number of its act.
pub fn a_request_is_replied_without_its_number()
    ensures same { (n : ℕ) (admin : Admin) (s : Scene) (ask : Ask) →
        asked admin (scene_as n s) ask ≡ asked admin s ask }
{}

/// A request that is refused has no batch.
pub fn a_refused_request_writes_nothing()
    ensures writes { (host : Host) (now : ℕ) (it : Asked) (seen : Seen) → IsBuilt it.1 →
        IsRefused (asked_where host now it seen).reply →
        (asked_where host now it seen).batches ≡ [] }
{}

/// Where a keeper holds the tables and groups of its instance, a request comes to what the history
/// says. Where that is of earlier acts, the keeper afterwards holds what it is to hold after the
/// act. No tables elsewhere and no groups change, and nothing is made.
pub fn an_instance_answers_by_the_history()
    ensures told { (n : ℕ) (w : World) (host : Host) (now : ℕ) (it : Asked) (held : Held) →
        IsBuilt it.1 → Keeps host.name w held →
        asked_where host now it (seen_in held)
        ≡ asked host.admin (scene n w (act_at host now it) (caller_at host.admin it.0)) it.1 }
    ensures left { (net : Net) (n : ℕ) (w : World) (host : Host) (now : ℕ) (it : Asked)
        (held : Held) → IsBuilt it.1 → list_all (λ v. ltb v.act n) w.log ≡ true →
        Keeps host.name w held → AreReadable (asked_where host now it (seen_in held)).batches →
        Keeps host.name (step net n w (act_at host now it))
        (left spelled (asked_where host now it (seen_in held)) held) }
    ensures elsewhere { (net : Net) (n : ℕ) (w : World) (host : Host) (now : ℕ) (it : Asked)
        (j : Inst) → IsBuilt it.1 → same_inst host.name j ≡ false →
        tables (step net n w (act_at host now it)).log j ≡ tables w.log j }
    ensures groups { (net : Net) (n : ℕ) (w : World) (host : Host) (now : ℕ) (it : Asked) →
        (step net n w (act_at host now it)).groups ≡ w.groups }
    ensures made { (net : Net) (n : ℕ) (w : World) (host : Host) (now : ℕ) (it : Asked) →
        (step net n w (act_at host now it)).made ≡ w.made }
{}

/// Where a keeper holds the groups of its instance, an administration comes to what the history
/// says, and is refused where the history leaves the groups as they are. The keeper afterwards
/// holds the groups after the act. No tables and no groups elsewhere change, and nothing is made.
pub fn an_instance_is_administered_by_the_history()
    ensures told { (here : Inst) (w : World) (now : Stamp) (by : OrgId) (add : Bool) (g : Group)
        (held : Held) → Keeps here w held →
        administered now by add g (groups_of held) ≡ administered now by add g (w.groups here) }
    ensures left { (net : Net) (n : ℕ) (here : Inst) (w : World) (now : Stamp) (by : OrgId)
        (add : Bool) (g : Group) (held : Held) → Keeps here w held →
        AreReadable (administered now by add g (groups_of held)).batches →
        Keeps here (step net n w (act_of here now by add g))
        (left spelled (administered now by add g (groups_of held)) held) }
    ensures tables { (net : Net) (n : ℕ) (here : Inst) (w : World) (now : Stamp) (by : OrgId)
        (add : Bool) (g : Group) → (step net n w (act_of here now by add g)).log ≡ w.log }
    ensures elsewhere { (net : Net) (n : ℕ) (here : Inst) (w : World) (now : Stamp) (by : OrgId)
        (add : Bool) (g : Group) (j : Inst) → same_inst here j ≡ false →
        (step net n w (act_of here now by add g)).groups j ≡ w.groups j }
    ensures made { (net : Net) (n : ℕ) (here : Inst) (w : World) (now : Stamp) (by : OrgId)
        (add : Bool) (g : Group) → (step net n w (act_of here now by add g)).made ≡ w.made }
    ensures fails { (here : Inst) (w : World) (by : OrgId) (add : Bool) (g : Group)
        (held : Held) → Keeps here w held →
        is_some (why_not add (groups_of held) by g.id)
        ≡ administration_fails by add g (w.groups here) }
{
    groups_are_held_as_their_rows();
}

/// Where a keeper holds the groups of its instance, groups that a caller hands in come to what the
/// history says, which counts those that are taken. The keeper afterwards holds the groups after
/// the act. No tables and no groups elsewhere change, and nothing is made.
pub fn groups_are_handed_in_by_the_history()
    ensures told { (here : Inst) (w : World) (caller : Caller) (coming : List Group)
        (held : Held) → Keeps here w held → groups_handed caller coming (groups_of held)
        ≡ groups_handed caller coming (w.groups here) }
    ensures counted { (here : Inst) (w : World) (caller : Caller) (coming : List Group) →
        permits caller.role Perm.Sync ≡ true →
        (groups_handed caller coming (w.groups here)).reply
        ≡ Reply.Ok (Answer.Taken (count_taken (w.groups here) coming)) }
    ensures left { (net : Net) (n : ℕ) (w : World) (host : Host) (now : Stamp) (caller : Caller)
        (coming : List Group) (held : Held) → permits caller.role Perm.Sync ≡ true →
        Keeps host.name w held →
        AreReadable (groups_handed caller coming (groups_of held)).batches →
        Keeps host.name (step net n w (act_handing host now caller coming))
        (left spelled (groups_handed caller coming (groups_of held)) held) }
    ensures tables { (net : Net) (n : ℕ) (w : World) (host : Host) (now : Stamp)
        (caller : Caller) (coming : List Group) →
        (step net n w (act_handing host now caller coming)).log ≡ w.log }
    ensures elsewhere { (net : Net) (n : ℕ) (w : World) (host : Host) (now : Stamp)
        (caller : Caller) (coming : List Group) (j : Inst) → same_inst host.name j ≡ false →
        (step net n w (act_handing host now caller coming)).groups j ≡ w.groups j }
    ensures made { (net : Net) (n : ℕ) (w : World) (host : Host) (now : Stamp)
        (caller : Caller) (coming : List Group) →
        (step net n w (act_handing host now caller coming)).made ≡ w.made }
{
    groups_are_held_as_their_rows();
}
