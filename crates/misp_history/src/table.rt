//! What a table keeps.

ghost use Rattle.std.specs.Prelude.{◌≡◌, Bool, true, false, List};
ghost use Rattle.std.specs.List.{filter};
ghost use Rattle.misp_ids.specs.declared.uid.OrgId.{OrgId};
ghost use Rattle.misp_ids.specs.declared.uid.EventId.{EventId};
ghost use Rattle.misp_elem.specs.declared.row.RowFields.{RowFields as Row};
ghost use Rattle.misp_ids.specs.Same.{Inst};
ghost use Rattle.misp_model.specs.View.{IsTable, has_copy, has_gone};
ghost use Rattle.misp_model.specs.Version.{Version};
ghost use Rattle.misp_history.specs.History.{tables};
ghost use Rattle.misp_model.specs.Machine.{put_row};

/// A table has one row for each owner and key: the tables of every history are such, and stay such
/// with a row put in its place or some left out.
pub fn tables_have_one_row_for_each_key()
    ensures written { (log : List Version) (i : Inst) → IsTable (tables log i) }
    ensures put { (row : Row) (rows : List Row) → IsTable rows → IsTable (put_row row rows) }
    ensures unmixed { (rows : List Row) (w : OrgId) (e : EventId) → IsTable rows →
        has_copy rows w e ≡ true → has_gone rows w e ≡ false }
    ensures part { (test : Row → Bool) (rows : List Row) → IsTable rows →
        IsTable (filter test rows) }
{}
