//! Sharing groups, read from their texts.

ghost use Rattle.std.specs.Prelude.{◌≡◌, Ok};
ghost use Rattle.misp_groups.specs.declared.group.GroupFields.{GroupFields};
ghost use Rattle.misp_groups.specs.Group.{IsGroup};
ghost use Rattle.misp_format.specs.GroupText.{group_in_text};
ghost use Rattle.misp_format.specs.Rows.{Gives};
ghost use Rattle.misp_format.specs.WholeGroup.{group_text, uncarried};

use crate::fault::FormatFault;
use crate::reading::group::read_group;
use crate::reading::json_text::read_json;
use misp_groups::Group;
use std::alloc::Global;

/// The sharing group that a text is. Its organisations are in the order of their identifiers, and
/// its instances in that of their names.
#[tactic(auto, unfolding(crate::specs::GroupText::group_in_text))]
pub fn read_group_text(alloc: Global, text: &[u8]) -> Result<Group, FormatFault>
    ensures { Gives result (group_in_text text.now) }
{
    let value = read_json(alloc, text)?;
    read_group(alloc, &value)
}

/// A group is read from its text as it is, but for having come by a synchronisation.
pub fn a_group_is_read_from_its_text()
    ensures { (g : GroupFields) → IsGroup g → group_in_text (group_text g) ≡ Ok (uncarried g) }
{}
