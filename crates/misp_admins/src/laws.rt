//! Laws of what is made.

ghost use Rattle.std.specs.Prelude.{◌≡◌, ◌++◌, ◌∷◌, [], List};
ghost use Rattle.misp_orgs.specs.Admin.{AdminFields};
ghost use Rattle.misp_admins.specs.Made.{put_item, with_items};
ghost use Rattle.misp_admins.specs.declared.item.Item.{Item};

/// Where no request made anything, the administration is that of the description.
#[tactic(auto, unfolding(crate::specs::Made::with_items))]
pub fn nothing_made_changes_nothing()
    ensures { (described : AdminFields) → with_items described [] ≡ described }
{}

/// One item more is put into the administration with those before.
#[tactic(auto, using(crate::proofs::Items::one_more))]
pub fn an_item_more_is_put()
    ensures { (described : AdminFields) (items : List Item) (item : Item) →
        with_items described (items ++ item ∷ []) ≡ put_item item (with_items described items) }
{}
