//! What becomes of a label on the way.

ghost use Rattle.std.specs.Prelude.{◌≡◌};
ghost use Rattle.misp_levels.specs.Levels.{hop, down, landed};

use misp_ids::{Label, Way};

/// The label after a hop. There is none where what has this label is not sent.
#[tactic(auto, unfolding(crate::specs::Levels::hop))]
pub fn hop(way: Way, label: &Label) -> Option<Label>
    ensures { result ≡ hop way label.now }
{
    match (way, label) {
        (Way::Internal, _) => Some(*label),
        (Way::Push, Label::Own | Label::Community) => None,
        (Way::Pull, Label::Own | Label::Community) => Some(Label::Own),
        (_, Label::Connected) => Some(Label::Community),
        (_, Label::All | Label::Group(_) | Label::Inherit) => Some(*label),
    }
}

/// The label after this many hops.
#[tactic(auto, unfolding(crate::specs::Levels::down))]
pub fn down(label: &Label, hops: u64) -> Label
    ensures { result ≡ down label.now hops }
{
    match (label, hops) {
        (Label::Connected, 1) => Label::Community,
        (Label::Connected, 2..) | (Label::Community, 1..) => Label::Own,
        _ => *label,
    }
}

/// The label with which what is sent on this way comes.
#[tactic(auto, unfolding(crate::specs::Levels::landed, crate::specs::Levels::lowering), using(crate::proofs::Steps::down_none))]
pub fn landed(way: Way, label: &Label) -> Label
    ensures { result ≡ landed way label.now }
{
    match way {
        Way::Internal => *label,
        Way::Pull | Way::Push => down(label, 1),
    }
}
