//! Laws of labels on the way.

ghost use Rattle.std.specs.Prelude.{◌≡◌, ℕ, ◌+◌, ◌≤◌, ◌∷◌, List, Some};
ghost use Rattle.misp_ids.specs.declared.label.Label.{Label};
ghost use Rattle.misp_ids.specs.declared.label.Way.{Way};
ghost use Rattle.misp_levels.specs.Levels.{hop, down, landed, lowering};
ghost use Rattle.misp_ids.specs.declared.label.Way.TheVariants as ways;
ghost use Rattle.misp_ids.specs.Labels.{label_kind};

/// What is sent comes with the label one step down, and between instances of one host with the same
/// label.
pub fn a_hop_is_one_step_down()
    ensures pull { (before after : Label) → hop ways.Pull before ≡ Some after →
        after ≡ down before 1 }
    ensures push { (before after : Label) → hop ways.Push before ≡ Some after →
        after ≡ down before 1 }
    ensures internal { (before : Label) → hop ways.Internal before ≡ Some before }
    ensures landed { (way : Way) (before after : Label) → hop way before ≡ Some after →
        after ≡ landed way before }
{}

/// One hop more lowers a label as the way of that hop does.
pub fn a_hop_more_lands_on_its_way()
    ensures { (way : Way) (label : Label) (path : List Way) →
        down label (lowering (way ∷ path)) ≡ landed way (down label (lowering path)) }
{}

/// Some steps down and then some more are as many together.
pub fn steps_down_add_up()
    ensures { (label : Label) (first more : ℕ) →
        down label (first + more) ≡ down (down label first) more }
{}

/// No hop gives a label of a higher level, with which it would go further.
pub fn no_hop_raises_a_label()
    ensures { (way : Way) (before after : Label) → hop way before ≡ Some after →
        label_kind after ≤ label_kind before }
{}
