//! Laws of the text of a synchronisation.

ghost use Rattle.std.specs.Prelude.{None, []};
ghost use Rattle.misp_dialogue.specs.Shares.{EndsOnlyBy};
ghost use Rattle.misp_ids.specs.declared.label.Direction.{Direction};
ghost use Rattle.misp_ids.specs.declared.label.Direction.TheVariants as directions;
ghost use Rattle.misp_protocol.specs.Asked.{AsksAboutEach, AsksAsWanted, AsksOnly, HandsInEach, IsAskedOf, IsGarbled};
ghost use Rattle.misp_protocol.specs.Text.{synchronising};
ghost use Rattle.misp_protocol.specs.declared.count.Tally.{Tally};

/// The text itself ends by a reply that has not the form of what was asked, and by nothing else:
/// whatever else a party answers, it goes on.
#[tactic(auto, using(crate::proofs::Asking::ends_garbled))]
pub fn a_synchronisation_ends_itself_only_by_a_garbled_reply()
    ensures { (d : Direction) (n : Tally) → EndsOnlyBy IsGarbled (synchronising d n) }
{}

/// Each side is asked only what is its part.
pub fn each_side_is_asked_its_part()
    ensures { (d : Direction) (n : Tally) → AsksOnly (IsAskedOf d) (synchronising d n) }
{}

/// Rows of a part are asked for exactly where the sink wants some, and are those that it wants.
pub fn what_is_wanted_is_asked_for()
    ensures { (d : Direction) (n : Tally) → AsksAsWanted None (synchronising d n) }
{}

/// A pull that is done has asked the sink about each part that the manifest lists.
pub fn every_part_of_a_manifest_is_asked_about()
    ensures { (n : Tally) → AsksAboutEach [] (synchronising directions.Pull n) }
{}

/// A push that is done has handed in each package that the source listed.
pub fn every_package_is_handed_in()
    ensures { (n : Tally) → HandsInEach [] (synchronising directions.Push n) }
{}
