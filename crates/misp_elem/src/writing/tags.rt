//! Writing tags.

ghost use Rattle.std.specs.Prelude.{◌≡◌, ◌<◌, ◌^◌, ◌++◌, length, All, OnOk};
ghost use Rattle.misp_elem.specs.Spelling as spelling;

use crate::content::Tag;
use crate::writing::fields::{put_flag, put_text};
use std::alloc::AllocError;

fn put_tag(out: &mut Vec<u8>, tag: &Tag) -> Result<(), AllocError>
    requires { length tag.now.name < 2 ^ 32 }
    ensures { OnOk result (out.new.items ≡ out.old.items ++ spelling.tag tag.now) }
{
    put_text(out, &tag.name)?;
    out.extend_from_slice(&tag.colour)?;
    put_flag(out, tag.exportable)
}

#[tactic(auto, unfolding(crate::specs::Spelling::tags))]
pub(super) fn put_tags(out: &mut Vec<u8>, tags: &[Tag]) -> Result<(), AllocError>
    requires few { length tags.now < 2 ^ 32 }
    requires short { All (λ t. length t.name < 2 ^ 32) tags.now }
    ensures { OnOk result (out.new.items ≡ out.old.items ++ spelling.tags tags.now) }
{
    out.extend_from_slice(&(tags.len() as u32).to_be_bytes())?;
    for tag in tags {
        put_tag(out, tag)?;
    }
    Ok(())
}
