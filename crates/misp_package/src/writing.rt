//! Writing packages.

ghost use Rattle.std.specs.Prelude.{◌≡◌, ◌<◌, ◌^◌, ◌++◌, length, OnOk, IfOk};
ghost use Rattle.misp_elem.specs.Spelling as spelling;
ghost use Rattle.misp_package.specs.Spelling.{form, number, framed_row, framed_rows, spell_package};

use misp_elem::{Row, encode};
use misp_ids::{EventId, NoMemory};
use misp_model::{Package, PackageFields};
use std::alloc::Global;

/// What a package begins with.
pub(crate) const FORM: &[u8] = b"MSP1";

/// Room that a package of few rows fits into.
const PACKAGE_ROOM: usize = 1024;

// Four bytes.
#[tactic(auto, unfolding(crate::specs::Spelling::number))]
fn put_u32(out: &mut Vec<u8>, n: u32) -> Result<(), NoMemory>
    ensures { OnOk result (out.new.items ≡ out.old.items ++ number n) }
{
    out.extend_from_slice(&n.to_be_bytes())?;
    Ok(())
}

// What a package begins with, and the event.
#[tactic(auto, unfolding(misp_elem::specs::Spelling::uid))]
fn put_front(out: &mut Vec<u8>, event: &EventId) -> Result<(), NoMemory>
    ensures { OnOk result (out.new.items ≡ out.old.items ++ (form ++ spelling.uid event.now.0)) }
{
    out.extend_from_slice(FORM)?;
    out.extend_from_slice(&event.0.0.to_be_bytes())?;
    Ok(())
}

// A row after its length.
#[tactic(auto, unfolding(misp_elem::specs::Spelling::text), using(crate::proofs::RowSizes::row_short))]
fn put_row(alloc: Global, out: &mut Vec<u8>, row: &Row) -> Result<(), NoMemory>
    ensures { OnOk result (out.new.items ≡ out.old.items ++ framed_row row.now) }
{
    let _stamp = row.stamp;
    let bytes = encode(alloc, row)?;
    out.extend_from_slice(&(bytes.len() as u32).to_be_bytes())?;
    out.extend_from_slice(bytes.as_slice())?;
    Ok(())
}

// The rows after their number.
fn put_rows(alloc: Global, out: &mut Vec<u8>, rows: &[Row]) -> Result<(), NoMemory>
    requires { length rows.now < 2 ^ 32 }
    ensures { OnOk result (out.new.items ≡ out.old.items ++ framed_rows rows.now) }
{
    put_u32(out, rows.len() as u32)?;
    for row in rows {
        put_row(alloc, out, row)?;
    }
    Ok(())
}

// All of a package.
fn put_package(alloc: Global, out: &mut Vec<u8>, package: &PackageFields) -> Result<(), NoMemory>
    requires { length «package».now.rows < 2 ^ 32 }
    ensures { OnOk result (out.new.items ≡ out.old.items ++ spell_package «package».now) }
{
    put_front(out, &package.event)?;
    put_u32(out, package.part)?;
    put_u32(out, package.parts)?;
    put_rows(alloc, out, package.rows.as_slice())
}

/// The one spelling of a package.
pub fn package_bytes(alloc: Global, package: &Package) -> Result<Vec<u8>, NoMemory>
    ensures { IfOk result (λ bytes. bytes.items ≡ spell_package «package».now) }
{
    let mut bytes = Vec::with_capacity(alloc, PACKAGE_ROOM)?;
    put_package(alloc, &mut bytes, package.get())?;
    Ok(bytes)
}
