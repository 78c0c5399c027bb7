//! What an organisation knows of a table.

ghost use Rattle.std.specs.Prelude.{◌≡◌, false, List, Option};
ghost use Rattle.std.specs.List.{Contains};
ghost use Rattle.misp_ids.specs.declared.uid.OrgId.{OrgId};
ghost use Rattle.misp_ids.specs.declared.uid.EventId.{EventId};
ghost use Rattle.misp_elem.specs.declared.row.RowFields.{RowFields as Row};
ghost use Rattle.misp_groups.specs.declared.group.GroupFields.{GroupFields as Group};
ghost use Rattle.misp_ids.specs.Same.{Inst};
ghost use Rattle.misp_model.specs.View.{IsTable, known, granted, chosen, is_live};
ghost use Rattle.misp_elem.specs.KeyFacts.{is_statement};
ghost use Rattle.misp_model.specs.Machine.{seeing};
ghost use Rattle.misp_model.specs.Scene.{Scene};
ghost use Rattle.misp_model.specs.Shown.{shown, index};

/// What an organisation knows of a table answers for it as the whole table does.
pub fn known_rows_answer_as_all()
    ensures granted { (rows : List Row) (groups : List Group) (i : Inst) (o : OrgId) (row : Row) →
        IsTable rows → Contains rows row →
        granted (known rows groups i o) groups i o row ≡ granted rows groups i o row }
    ensures chosen { (rows : List Row) (groups : List Group) (i : Inst) (o : OrgId) (e : EventId) →
        IsTable rows →
        chosen (known rows groups i o) groups i o e ≡ chosen rows groups i o e }
    // Of an element or a reference.
    ensures live { (rows : List Row) (groups : List Group) (i : Inst) (o : OrgId) (row : Row) →
        IsTable rows → Contains (known rows groups i o) row → is_statement row.key ≡ false →
        is_live (known rows groups i o) row ≡ is_live rows row }
    ensures shown { (rows : List Row) (s : Scene) (e : EventId) (owner : Option OrgId) →
        IsTable rows → shown (seeing s rows) e owner ≡ shown (record s { rows = rows }) e owner }
    ensures index { (rows : List Row) (s : Scene) →
        IsTable rows → index (seeing s rows) ≡ index (record s { rows = rows }) }
{}
