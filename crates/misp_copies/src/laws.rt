//! What arrives at a copy.

ghost use Rattle.std.specs.Prelude.{◌≡◌, ◌&&◌, List};
ghost use Rattle.misp_elem.specs.declared.row.RowFields.{RowFields as Row};
ghost use Rattle.misp_groups.specs.declared.group.GroupFields.{GroupFields as Group};
ghost use Rattle.misp_elem.specs.Parents.{event_of};
ghost use Rattle.misp_groups.specs.Audience.{label_is_known};
ghost use Rattle.misp_model.specs.Version.{Version, label_now};
ghost use Rattle.misp_model.specs.Arrival.{is_welcome};
ghost use Rattle.misp_copies.specs.Copies.{copy_state, takes};

/// An arrival is welcome where the state of its owner's copy takes it and its label is known.
#[tactic(auto, using(crate::proofs::CopyLemmas::welcome_is))]
pub fn a_copy_takes_what_is_welcome()
    ensures welcome { (rows : List Row) (groups : List Group) (v : Version) →
        is_welcome rows groups v
        ≡ (takes (copy_state rows v.owner (event_of v.key)) v.key v.at
        && label_is_known groups (label_now v)) }
{}
