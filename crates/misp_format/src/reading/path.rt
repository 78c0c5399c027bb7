//! Where a value is in a body.

ghost use Rattle.std.specs.Prelude.{◌≡◌, ◌++◌, IfOk, OnOk, string_bytes};
ghost use Rattle.misp_format.specs.Path.{member_path};
ghost use Rattle.misp_format.specs.Members.{path_text};

use misp_ids::Text;
use std::alloc::{AllocError, Global};
use std::fmt::Write;

/// Where a value is in a body. The text is made only where a fault names it.
#[derive(Drop)]
pub(crate) enum Path<'a> {
    /// The whole body.
    Body(&'static str),
    /// A member of an object.
    Member(&'a Path<'a>, &'static str),
    /// An item of a list.
    Item(&'a Path<'a>, usize),
}

impl Path<'_> {
    fn write_to(&self, out: &mut String) -> Result<(), AllocError>
        ensures { OnOk result (string_bytes out.new ≡ string_bytes out.old ++ path_text self.now) }
    {
        match self {
            Path::Body(name) => out.push_str(name)?,
            Path::Member(of, name) => {
                of.write_to(out)?;
                out.push_str(".")?;
                out.push_str(name)?;
            }
            Path::Item(of, index) => {
                of.write_to(out)?;
                write!(out, "[{index}]")?;
            }
        }
        Ok(())
    }

    /// The text of the path of a member.
    pub(crate) fn member_text(&self, alloc: Global, name: &str) -> Result<Text, AllocError>
        ensures { IfOk result (λ t. t ≡ member_path (path_text self.now) name.now) }
    {
        let mut text = String::new(alloc);
        self.write_to(&mut text)?;
        text.push_str(".")?;
        text.push_str(name)?;
        Ok(Text::of(text))
    }

    /// The text of the path itself.
    pub(crate) fn text(&self, alloc: Global) -> Result<Text, AllocError>
        ensures { IfOk result (λ t. t ≡ path_text self.now) }
    {
        let mut text = String::new(alloc);
        self.write_to(&mut text)?;
        Ok(Text::of(text))
    }
}
