//! A law of keepers that hold nothing.

ghost use Rattle.std.specs.Prelude.{◌≤◌, List, length, take};
ghost use Rattle.misp_net.specs.History.{empty_tables};
ghost use Rattle.misp_net.specs.Opening.{opened_states};
ghost use Rattle.misp_net.specs.Prelude.{Host, KeeperState, Tell};
ghost use Rattle.misp_app.specs.Source.{HoldNothing};

/// Over keepers that hold nothing instances open with nothing, so the history of a run over them is
/// that of its own acts.
pub fn instances_over_empty_keepers_open_with_nothing()
    ensures { (hosts : List Host) (old : List KeeperState) → HoldNothing old →
        length hosts ≤ length old →
        Tell (opened_states (take (length hosts) old)) (empty_tables hosts) }
{}
