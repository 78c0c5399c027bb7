//! Writing rows.

ghost use Rattle.std.specs.Prelude.{◌≡◌, ◌++◌, OnOk, IfOk};
ghost use Rattle.misp_elem.specs.Spelling as spelling;

use crate::row::Row;
use crate::writing::bodies::put_content;
use crate::writing::fields::{put_byte, put_stamp};
use crate::writing::{put_key, put_uid};
use misp_ids::{Label, NoMemory};
use std::alloc::{AllocError, Global};

fn put_label(out: &mut Vec<u8>, label: &Label) -> Result<(), AllocError>
    ensures { OnOk result (out.new.items ≡ out.old.items ++ spelling.label label.now) }
{
    match label {
        Label::Own => put_byte(out, 0),
        Label::Community => put_byte(out, 1),
        Label::Connected => put_byte(out, 2),
        Label::All => put_byte(out, 3),
        Label::Group(group) => {
            put_byte(out, 4)?;
            put_uid(out, group.creator.0)?;
            put_uid(out, group.uuid)
        }
        Label::Inherit => put_byte(out, 5),
    }
}

fn put_flags(out: &mut Vec<u8>, held: bool, carried: bool) -> Result<(), AllocError>
    ensures { OnOk result (out.new.items ≡ out.old.items ++ spelling.flags (held, carried)) }
{
    put_byte(
        out,
        match (held, carried) {
            (false, false) => 0,
            (true, false) => 1,
            (false, true) => 2,
            (true, true) => 3,
        },
    )
}

#[tactic(auto, using(crate::proofs::Contents::content_may))]
fn put_row(out: &mut Vec<u8>, row: &Row) -> Result<(), AllocError>
    ensures { OnOk result (out.new.items ≡ out.old.items ++ spelling.row row.now) }
{
    put_byte(out, 2)?;
    put_uid(out, row.owner.0)?;
    put_key(out, &row.key.form)?;
    put_stamp(out, row.stamp)?;
    put_label(out, &row.label)?;
    put_flags(out, row.held, row.carried)?;
    put_content(out, &row.content)
}

/// Room that the rows of most attributes fit into.
const ROW_ROOM: usize = 128;

/// The spelling of a row, in the second form.
pub fn encode(alloc: Global, row: &Row) -> Result<Vec<u8>, NoMemory>
    ensures { IfOk result (λ v. v.items ≡ spelling.row row.now) }
{
    let mut out = Vec::with_capacity(alloc, ROW_ROOM)?;
    match put_row(&mut out, row) {
        Ok(()) => Ok(out),
        Err(_) => Err(NoMemory),
    }
}
