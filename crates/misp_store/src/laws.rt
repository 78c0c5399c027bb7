//! Laws of what a keeper holds.

ghost use Rattle.std.specs.Prelude.{◌≡◌, true, List, map, Ok};
ghost use Rattle.std.specs.List.{AllByRecursion};
ghost use Rattle.misp_ids.specs.Uid.{IsUid};
ghost use Rattle.misp_ids.specs.declared.uid.OrgId.{OrgId};
ghost use Rattle.misp_ids.specs.declared.uid.EventId.{EventId};
ghost use Rattle.misp_elem.specs.declared.row.RowFields.{RowFields as Row};
ghost use Rattle.misp_elem.specs.Row.{AreRows};
ghost use Rattle.misp_elem.specs.Spelling.{uid};
ghost use Rattle.misp_groups.specs.declared.group.GroupFields.{GroupFields as Group};
ghost use Rattle.misp_groups.specs.Group.{IsGroup};
ghost use Rattle.misp_outside.specs.declared.row.AdminRow.{AdminRow};
ghost use Rattle.misp_lists.specs.Order.{ascend};
ghost use Rattle.misp_admins.specs.declared.item.Item.{Item};
ghost use Rattle.misp_admins.specs.Made.{IsItem};
ghost use Rattle.misp_admin_rows.specs.Rows.{item_row, item_rows, other_rows};
ghost use Rattle.misp_outside.specs.Held.{admin_before, rows_of, rows_named, put_rows, put_admin};
ghost use Rattle.misp_model.specs.Machine.{put_all, event_rows};
ghost use Rattle.misp_model.specs.declared.looks.Looks.{Looks};
ghost use Rattle.misp_model.specs.Looking.{rows_seen_by};
ghost use Rattle.misp_groups.specs.Changes.{put_group};
ghost use Rattle.misp_store.specs.Raw.{raw_row, rows_in, owner_rows};
ghost use Rattle.misp_store.specs.Seeking.{HasKeys};
ghost use Rattle.misp_store.specs.Seen.{rows_looked};
ghost use Rattle.misp_store.specs.Sharing.{group_row, groups_in};

use misp_admin_rows::{items_are_held_as_their_rows, rows_are_put_among_their_kind};
use misp_format::a_group_is_read_from_its_text;

/// What a keeper holds of rows is read as those rows, told by event, by owner and by what is looked
/// at as they are, and put among others where the tables put it.
pub fn rows_are_held_as_their_bytes()
    ensures read { (rows : List Row) → AreRows rows → rows_in (map raw_row rows) ≡ Ok rows }
    ensures of_event { (e : EventId) (rows : List Row) →
        rows_of e (map raw_row rows) ≡ map raw_row (event_rows e rows) }
    ensures of_owner { (o : OrgId) (e : EventId) (rows : List Row) → IsUid o.0 → AreRows rows →
        rows_named e (uid o.0) (map raw_row rows) ≡ map raw_row (owner_rows o e rows) }
    ensures looked { (l : Looks) (rows : List Row) → HasKeys l → AreRows rows →
        rows_looked l (map raw_row rows) ≡ map raw_row (rows_seen_by l (event_rows l.event rows)) }
    ensures put { (vs rows : List Row) → AreRows vs → AreRows rows →
        put_rows (map raw_row vs) (map raw_row rows) ≡ map raw_row (put_all vs rows) }
    ensures kept { (vs rows : List Row) → AreRows vs → AreRows rows → AreRows (put_all vs rows) }
{}

/// What a keeper holds of groups is read as those groups, and of the rows that are no items nothing
/// else is. The row of a group is put where the group is, and the items stay as they are.
pub fn groups_are_held_as_their_rows()
    ensures read { (groups : List Group) → AllByRecursion IsGroup groups →
        groups_in (map group_row groups) ≡ Ok groups }
    ensures only { (rows : List AdminRow) (groups : List Group) →
        groups_in rows ≡ Ok groups → other_rows rows ≡ map group_row groups }
    ensures put { (g : Group) (rows : List AdminRow) (groups : List Group) → IsGroup g →
        ascend admin_before rows ≡ true → groups_in rows ≡ Ok groups →
        groups_in (put_admin (group_row g) rows) ≡ Ok (put_group g groups) }
    ensures items { (g : Group) (rows : List AdminRow) → IsGroup g →
        ascend admin_before rows ≡ true →
        item_rows (put_admin (group_row g) rows) ≡ item_rows rows }
    ensures order { (row : AdminRow) (rows : List AdminRow) → ascend admin_before rows ≡ true →
        ascend admin_before (put_admin row rows) ≡ true }
{
    a_group_is_read_from_its_text();
    rows_are_put_among_their_kind();
}

/// Where an item is put, the groups stay as they are, and its row is put among those of items.
pub fn items_are_held_beside_the_groups()
    ensures groups { (item : Item) (rows : List AdminRow) (groups : List Group) → IsItem item →
        ascend admin_before rows ≡ true → groups_in rows ≡ Ok groups →
        groups_in (put_admin (item_row item) rows) ≡ Ok groups }
    ensures items { (item : Item) (rows : List AdminRow) → IsItem item →
        ascend admin_before rows ≡ true →
        item_rows (put_admin (item_row item) rows) ≡ put_admin (item_row item) (item_rows rows) }
{
    items_are_held_as_their_rows();
    rows_are_put_among_their_kind();
}
