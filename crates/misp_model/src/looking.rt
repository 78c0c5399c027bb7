//! Laws of what a request looks at of its event.

ghost use Rattle.std.specs.Prelude.{◌≡◌, List, Option, Some, None};
ghost use Rattle.misp_elem.specs.declared.row.RowFields.{RowFields as Row};
ghost use Rattle.misp_model.specs.declared.ask.Ask.{Ask};
ghost use Rattle.misp_model.specs.declared.looks.Looks.{Looks};
ghost use Rattle.misp_model.specs.View.{IsTable};
ghost use Rattle.misp_model.specs.Scene.{Scene};
ghost use Rattle.misp_model.specs.Answers.{answer, ask_rules, brings, is_accepted};
ghost use Rattle.misp_model.specs.Looking.{last_looks, looks_of, more_looks, over, rows_seen_by};
ghost use Rattle.misp_model.specs.Machine.{seeing};

/// What a request looks at then is the same by what it looks at first as by all rows.
pub fn what_is_looked_at_first_says_what_then()
    ensures more { (l : Looks) (rows : List Row) (s : Scene) (a : Ask) →
        looks_of s.at s.by a ≡ Some l →
        more_looks (over s (rows_seen_by l rows)) a ≡ more_looks (over s rows) a }
{}

/// A request is refused, answered and written from the rows that it looks at as from all.
pub fn a_request_looks_at_no_other_rows()
    ensures rules { (l : Looks) (rows : List Row) (s : Scene) (a : Ask) → IsTable rows →
        looks_of s.at s.by a ≡ Some l →
        ask_rules (seeing s (rows_seen_by (last_looks l (more_looks (over s rows) a)) rows)) a
        ≡ ask_rules (seeing s rows) a }
    ensures accepted { (l : Looks) (rows : List Row) (s : Scene) (a : Ask) → IsTable rows →
        looks_of s.at s.by a ≡ Some l →
        is_accepted (seeing s (rows_seen_by (last_looks l (more_looks (over s rows) a)) rows)) a
        ≡ is_accepted (seeing s rows) a }
    ensures answer { (l : Looks) (rows : List Row) (s : Scene) (a : Ask) → IsTable rows →
        looks_of s.at s.by a ≡ Some l →
        answer (seeing s (rows_seen_by (last_looks l (more_looks (over s rows) a)) rows)) a
        ≡ answer (seeing s rows) a }
    ensures brings { (l : Looks) (rows : List Row) (s : Scene) (a : Ask) → IsTable rows →
        looks_of s.at s.by a ≡ Some l →
        brings (seeing s (rows_seen_by (last_looks l (more_looks (over s rows) a)) rows)) a
        ≡ brings (seeing s rows) a }
{}
