//! What holds of wanted rows.

ghost use Rattle.std.specs.Prelude.{◌≡◌, [], List, map};
ghost use Rattle.misp_elem.specs.declared.row.RowFields.{RowFields};
ghost use Rattle.misp_groups.specs.declared.group.GroupFields.{GroupFields};
ghost use Rattle.misp_ids.specs.Same.{Inst};
ghost use Rattle.misp_ids.specs.declared.uid.OrgId.{OrgId as Owner};
ghost use Rattle.misp_manifest.specs.Manifest.{key_stamp};
ghost use Rattle.misp_model.specs.Package.{IsPackage};
ghost use Rattle.misp_model.specs.declared.package.PackageFields.{PackageFields};
ghost use Rattle.misp_history.specs.Merging.{handed, merged, rows_taken};
ghost use Rattle.misp_wanted.specs.Wanting.{wanted_keys, wanted_of};

/// A package with the wanted rows alone brings what the whole package brings. One of which nothing
/// is wanted brings nothing.
pub fn what_is_wanted_is_all_that_is_taken()
    // So it is a package, ...
    ensures package { (i : Inst) (held : List RowFields) (w : Owner) (p : PackageFields) →
        IsPackage p → IsPackage (wanted_of i held w p) }
    // ... of which the same rows are taken, ...
    ensures taken { (i : Inst) (held : List RowFields) (groups : List GroupFields) (w : Owner)
        (p : PackageFields) → IsPackage p →
        rows_taken i held groups (map (handed w) (wanted_of i held w p).rows)
        ≡ rows_taken i held groups (map (handed w) p.rows) }
    // ... and which leaves the same rows.
    ensures merged { (i : Inst) (held : List RowFields) (groups : List GroupFields) (w : Owner)
        (p : PackageFields) → IsPackage p →
        merged i held groups (map (handed w) (wanted_of i held w p).rows)
        ≡ merged i held groups (map (handed w) p.rows) }
    ensures none { (i : Inst) (held : List RowFields) (groups : List GroupFields) (w : Owner)
        (p : PackageFields) → IsPackage p →
        wanted_keys i held w p.event (map key_stamp p.rows) ≡ [] →
        rows_taken i held groups (map (handed w) p.rows) ≡ [] }
{}
