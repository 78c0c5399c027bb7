//! Writing numbers, texts and flags.

ghost use Rattle.std.specs.Prelude.{◌≡◌, ◌<◌, ◌^◌, ◌++◌, ◌∷◌, [], length, OnOk};
ghost use Rattle.misp_elem.specs.Spelling as spelling;

use crate::writing::put_uid;
use misp_dates::Moment;
use misp_ids::{Stamp, Text, Uid};
use std::alloc::AllocError;

#[tactic(auto, unfolding(crate::specs::Spelling::text))]
pub(super) fn put_text(out: &mut Vec<u8>, text: &Text) -> Result<(), AllocError>
    requires { length text.now < 2 ^ 32 }
    ensures { OnOk result (out.new.items ≡ out.old.items ++ spelling.text text.now) }
{
    let text = text.as_str().as_bytes();
    out.extend_from_slice(&(text.len() as u32).to_be_bytes())?;
    out.extend_from_slice(text)
}

pub(super) fn put_flag(out: &mut Vec<u8>, flag: bool) -> Result<(), AllocError>
    ensures { OnOk result (out.new.items ≡ out.old.items ++ spelling.flag flag) }
{
    out.push(if flag { 1 } else { 0 })?;
    Ok(())
}

pub(super) fn put_byte(out: &mut Vec<u8>, byte: u8) -> Result<(), AllocError>
    ensures { OnOk result (out.new.items ≡ out.old.items ++ byte ∷ []) }
{
    out.push(byte)?;
    Ok(())
}

pub(super) fn put_optional_uid(out: &mut Vec<u8>, id: Option<Uid>) -> Result<(), AllocError>
    ensures { OnOk result (out.new.items ≡ out.old.items ++ spelling.optional_uid id) }
{
    match id {
        None => put_byte(out, 0),
        Some(id) => {
            put_byte(out, 1)?;
            put_uid(out, id)
        }
    }
}

#[tactic(auto, unfolding(crate::specs::Spelling::stamp))]
pub(super) fn put_u64(out: &mut Vec<u8>, number: u64) -> Result<(), AllocError>
    ensures { OnOk result (out.new.items ≡ out.old.items ++ spelling.stamp number) }
{
    out.extend_from_slice(&number.to_be_bytes())
}

pub(super) fn put_optional_moment(
    out: &mut Vec<u8>,
    moment: Option<Moment>,
) -> Result<(), AllocError>
    ensures { OnOk result (out.new.items ≡ out.old.items ++ spelling.optional_moment moment) }
{
    match moment {
        None => put_byte(out, 0),
        Some(moment) => {
            put_byte(out, 1)?;
            put_u64(out, moment.get())
        }
    }
}

pub(super) fn put_stamp(out: &mut Vec<u8>, stamp: Stamp) -> Result<(), AllocError>
    ensures { OnOk result (out.new.items ≡ out.old.items ++ spelling.stamp stamp) }
{
    put_u64(out, stamp.get())
}
