//! What is asked of one event needs no row of another.

ghost use Rattle.std.specs.Prelude.{◌≡◌, List, Option, Some};
ghost use Rattle.misp_ids.specs.declared.uid.OrgId.{OrgId};
ghost use Rattle.misp_ids.specs.declared.uid.EventId.{EventId};
ghost use Rattle.misp_elem.specs.declared.row.RowFields.{RowFields as Row};
ghost use Rattle.misp_groups.specs.declared.group.GroupFields.{GroupFields as Group};
ghost use Rattle.misp_model.specs.declared.ask.Ask.{Ask};
ghost use Rattle.misp_ids.specs.Same.{Inst};
ghost use Rattle.misp_model.specs.View.{known};
ghost use Rattle.misp_model.specs.Scene.{Scene};
ghost use Rattle.misp_model.specs.Answers.{answer, ask_rules, brings, is_accepted};
ghost use Rattle.misp_model.specs.Shown.{shown};
ghost use Rattle.misp_model.specs.Machine.{event_rows, seeing, event_asked};

/// What is known of an event's rows is what is of the event in all that is known.
pub fn an_event_is_known_from_its_own_rows()
    ensures known { (e : EventId) (rows : List Row) (groups : List Group) (i : Inst) (o : OrgId) →
        known (event_rows e rows) groups i o
        ≡ event_rows e (known rows groups i o) }
{}

/// An event is seen from its own rows as from all.
pub fn an_event_is_seen_from_its_own_rows()
    ensures shown { (e : EventId) (rows : List Row) (s : Scene) (owner : Option OrgId) →
        shown (seeing s (event_rows e rows)) e owner
        ≡ shown (seeing s rows) e owner }
{}

/// What is asked of one event is refused, answered and written from its own rows as from all.
pub fn an_event_is_asked_from_its_own_rows()
    ensures rules { (e : EventId) (rows : List Row) (s : Scene) (a : Ask) →
        event_asked a ≡ Some e →
        ask_rules (seeing s (event_rows e rows)) a ≡ ask_rules (seeing s rows) a }
    ensures accepted { (e : EventId) (rows : List Row) (s : Scene) (a : Ask) →
        event_asked a ≡ Some e →
        is_accepted (seeing s (event_rows e rows)) a ≡ is_accepted (seeing s rows) a }
    ensures answer { (e : EventId) (rows : List Row) (s : Scene) (a : Ask) →
        event_asked a ≡ Some e →
        answer (seeing s (event_rows e rows)) a ≡ answer (seeing s rows) a }
    ensures brings { (e : EventId) (rows : List Row) (s : Scene) (a : Ask) →
        event_asked a ≡ Some e →
        brings (seeing s (event_rows e rows)) a ≡ brings (seeing s rows) a }
{}
