//! Laws of what a script is.

ghost use Rattle.std.specs.Prelude.{◌≡◌, List};
ghost use Rattle.std.specs.List.{AllByRecursion};
ghost use Rattle.misp_effects.specs.KeeperStates.{AllReport};
ghost use Rattle.misp_core.specs.Prelude.{Host, KeeperState, Tell};
ghost use Rattle.misp_net.specs.Acts.{AreDone, Done, HasMemory, acts_of};
ghost use Rattle.misp_net.specs.History.{empty_tables};
ghost use Rattle.misp_net.specs.Lines.{Line};
ghost use Rattle.misp_net.specs.Opening.{AreOpened};

/// A script has one list of acts, since the bytes of a line are one list of requests. After a
/// session that ended for want of memory more of them may follow, so it is left out.
pub fn a_script_has_one_list_of_acts()
    ensures { (lines : List Line) (dones others : List Done)
        → AreDone lines dones → AreDone lines others
        → AllByRecursion HasMemory dones → AllByRecursion HasMemory others
        → acts_of dones ≡ acts_of others }
{}

/// Over keepers that hold nothing, and still report what they hold in the end, the instances open as
/// they are described.
pub fn empty_keepers_open_as_described()
    ensures { (described : List Host) (old new : List KeeperState) (hosts : List Host)
        → AreOpened described old new hosts → Tell old (empty_tables described)
        → AllReport new → hosts ≡ described }
{}
