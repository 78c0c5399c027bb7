//! What is put at once, as a keeper is given it.

ghost use Rattle.std.specs.Prelude.{◌≡◌, IfOk, OnOk};
ghost use Rattle.misp_admins.specs.Made.{IsItem};
ghost use Rattle.misp_effects.specs.Batches.{batch, item_batch};
ghost use Rattle.misp_store.specs.Batches.{spelled};
ghost use Rattle.misp_store.specs.Sharing.{AreStorable};

use crate::rows::raw_rows;
use crate::sharing::group_rows;
use misp_admin_rows::item_row;
use misp_admins::Item;
use misp_elem::{NoMemory, Row};
use misp_groups::Group;
use misp_ids::Items;
use misp_outside::RawBatch;
use std::alloc::Global;

/// A batch of rows and groups as a keeper is given it.
pub fn spell(alloc: Global, rows: &[Row], groups: &[Group]) -> Result<RawBatch, NoMemory>
    ensures batch { IfOk result (λ raw. raw ≡ spelled (batch rows.now groups.now)) }
    ensures groups { OnOk result (AreStorable groups.now) }
{
    Ok(RawBatch {
        rows: Items::of(raw_rows(alloc, rows)?),
        admin: Items::of(group_rows(alloc, groups)?),
    })
}

/// A batch of one item as a keeper is given it.
pub fn spell_item(alloc: Global, item: &Item) -> Result<RawBatch, NoMemory>
    ensures batch { IfOk result (λ raw. raw ≡ spelled (item_batch item.now)) }
    ensures fits { IsItem item.now }
{
    item.is_fit();
    let mut admin = Vec::with_capacity(alloc, 1)?;
    admin.push(item_row(alloc, item)?)?;
    Ok(RawBatch {
        rows: Items::of(Vec::new(alloc)),
        admin: Items::of(admin),
    })
}
