//! Laws of items and of the rows as which they are held.

ghost use Rattle.std.specs.Prelude.{◌≡◌, true, false, List, Some};
ghost use Rattle.misp_lists.specs.Order.{ascend};
ghost use Rattle.misp_elem.specs.Fields.{IsBytes};
ghost use Rattle.misp_admins.specs.declared.item.Item.{Item};
ghost use Rattle.misp_admins.specs.Made.{IsItem};
ghost use Rattle.misp_outside.specs.declared.row.AdminRow.{AdminRow};
ghost use Rattle.misp_outside.specs.Held.{admin_before, put_admin};
ghost use Rattle.misp_admin_rows.specs.Rows.{are_apart, is_item, is_item_kind, item_in, item_row, item_rows, other_rows};

/// An item is read again from its row. Of a row of bytes just the item is read whose row it is.
pub fn items_are_held_as_their_rows()
    ensures read { (item : Item) → IsItem item → item_in (item_row item) ≡ Some item }
    ensures only { (row : AdminRow) (item : Item) → IsBytes row.name → IsBytes row.bytes →
        item_in row ≡ Some item → row ≡ item_row item }
    ensures is { (row : AdminRow) (item : Item) → IsBytes row.name → IsBytes row.bytes →
        item_in row ≡ Some item → IsItem item }
{}

/// Where the rows of an administration ascend, a row that is put stands there among those that are
/// items where it is one, and among the others where it is none, and they ascend again.
pub fn rows_are_put_among_their_kind()
    ensures order { (row : AdminRow) (rows : List AdminRow) → ascend admin_before rows ≡ true →
        ascend admin_before (put_admin row rows) ≡ true }
    ensures among { (row : AdminRow) (rows : List AdminRow) → ascend admin_before rows ≡ true →
        is_item row ≡ true → item_rows (put_admin row rows) ≡ put_admin row (item_rows rows) }
    ensures others { (row : AdminRow) (rows : List AdminRow) → ascend admin_before rows ≡ true →
        is_item row ≡ false → other_rows (put_admin row rows) ≡ put_admin row (other_rows rows) }

    // An item leaves the others as they are, where they have other kinds than items.
    ensures beside { (row : AdminRow) (rows : List AdminRow) → ascend admin_before rows ≡ true →
        are_apart rows ≡ true → is_item row ≡ true →
        other_rows (put_admin row rows) ≡ other_rows rows }

    // A row of another kind than items leaves the items as they are.
    ensures items { (row : AdminRow) (rows : List AdminRow) → ascend admin_before rows ≡ true →
        is_item_kind row.kind ≡ false → item_rows (put_admin row rows) ≡ item_rows rows }
{}
