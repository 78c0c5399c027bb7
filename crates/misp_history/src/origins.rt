//! What versions and rows keep of where they come from.

ghost use Rattle.std.specs.Prelude.{◌≡◌, ℕ, List};
ghost use Rattle.std.specs.List.{Contains};
ghost use Rattle.misp_elem.specs.declared.row.RowFields.{RowFields as Row};
ghost use Rattle.misp_ids.specs.Same.{Inst};
ghost use Rattle.misp_levels.specs.Levels.{landed};
ghost use Rattle.misp_model.specs.Version.{Version, label_now};
ghost use Rattle.misp_history.specs.Acts.{Act, Net, World, run};
ghost use Rattle.misp_history.specs.History.{newest, tables};
ghost use Rattle.misp_history.specs.Origins.{HaveOrigins, StandsFor};
ghost use Rattle.misp_history.specs.Passing.{Route, moved};

/// Whatever acts there were, each version comes from one that was written or handed in where it is,
/// and has its key, stamp, label and content.
pub fn each_version_has_an_origin()
    ensures { (net : Net) (n : ℕ) (w : World) (acts : List Act) →
        HaveOrigins w.log → HaveOrigins (run net n w acts).log }
{}

/// Each row of the tables stands for a newest version, and each newest version has its row. The row
/// has the label of the origin, one step down for each hop that is not internal, and the content of
/// the origin, after any hop without the tags that are not exportable. One hop more lands the label
/// as the way of that hop does.
pub fn each_row_has_its_label_of_origin_lowered_by_its_hops()
    ensures rows { (log : List Version) (i : Inst) (row : Row) → Contains (tables log i) row →
        (v : Version) × (Contains (newest log i) v × StandsFor v row) }
    ensures versions { (log : List Version) (i : Inst) (v : Version) → Contains (newest log i) v →
        (row : Row) × (Contains (tables log i) row × StandsFor v row) }
    ensures hop { (r : Route) (v : Version) → label_now (moved r v) ≡ landed r.way (label_now v) }
{}
