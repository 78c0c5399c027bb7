//! The entries of lists, and their members.

ghost use Rattle.std.specs.Prelude.{◌≡◌, ◌∷◌, Err, map, option_map, IfOk};
ghost use Rattle.toml.specs.View.{view};
ghost use Rattle.toml.specs.View.{table_view};
ghost use Rattle.misp_script.specs.Faults.{Gives, bad};
ghost use Rattle.misp_script.specs.Seen.{Shows, body_of};
ghost use Rattle.misp_script.specs.Entries.{entry_path, member_path, has, text_in, text_at, text_or_none_at, flag_or_at, said, refused_if, named_among, none_beside, no_other};

use crate::fault::{DescFault, DescNeed};
use misp_ids::Text;
use std::alloc::{AllocError, Global};
use std::fmt::Write;
use toml::{Table, Value};

/// An entry of a list of tables.
#[derive(Clone, Copy, Drop)]
pub(crate) struct Listed<'a> {
    pub(crate) alloc: Global,
    /// The list's name.
    pub(crate) list: &'static str,
    /// The entry's place in the list, from 0.
    pub(crate) index: usize,
    pub(crate) value: &'a Value,
}

/// The path of a member of an entry.
pub(crate) fn path_of(
    alloc: Global,
    list: &str,
    index: usize,
    name: &str,
) -> Result<Text, AllocError>
    ensures { IfOk result (λ t. t ≡ member_path (entry_path list.now index) name.now) }
{
    let mut path = String::new(alloc);
    write!(path, "{list}[{index}]")?;
    path.push_str(".")?;
    path.push_str(name)?;
    Ok(Text::of(path))
}

/// Whether a name is one of these.
pub(crate) fn named_among(names: &[&str], name: &str) -> bool
    ensures { result ≡ named_among (map (λ n. n.now) names.now) name.now }
{
    for known in names {
        if *known == name {
            return true;
        }
    }
    false
}

impl<'a> Listed<'a> {
    /// The fault of a member.
    pub(crate) fn refused<T>(&self, name: &str, need: DescNeed) -> Result<T, DescFault>
        ensures { Gives result (bad (member_path (body_of self.now).path name.now) need) }
    {
        Err(DescFault::Bad {
            path: path_of(self.alloc, self.list, self.index, name)?,
            need,
        })
    }

    /// The fault of a member where a test holds.
    pub(crate) fn refused_if(&self, test: bool, name: &str, need: DescNeed) -> Result<(), DescFault>
        ensures { Gives result (refused_if test (body_of self.now) name.now need) }
    {
        if test {
            return self.refused(name, need);
        }
        Ok(())
    }

    /// What a member says, or its fault.
    pub(crate) fn said<T: Drop>(
        &self,
        name: &str,
        need: DescNeed,
        read: Option<T>,
    ) -> Result<T, DescFault>
        ensures { Gives result (said (body_of self.now) name.now need read) }
    {
        match read {
            Some(value) => Ok(value),
            None => self.refused(name, need),
        }
    }

    /// Whether there is a member of this name.
    pub(crate) fn has(&self, name: &str) -> bool
        ensures { result ≡ has (body_of self.now) name.now }
    {
        self.value.get(name).is_some()
    }

    /// The text that a member must have.
    pub(crate) fn text(&self, name: &str) -> Result<&'a str, DescFault>
        ensures { Shows (λ text. text.now) result (text_at (body_of self.now) name.now) }
    {
        match self.value.get(name) {
            Some(value) => match value.as_str() {
                Some(text) => Ok(text),
                None => self.refused(name, DescNeed::Text),
            },
            None => self.refused(name, DescNeed::Present),
        }
    }

    /// The text of a member, which is empty where there is none.
    pub(crate) fn text_or_none(&self, name: &str) -> Result<&'a str, DescFault>
        ensures { Shows (λ text. text.now) result (text_or_none_at (body_of self.now) name.now) }
    {
        match self.value.get(name) {
            Some(value) => match value.as_str() {
                Some(text) => Ok(text),
                None => self.refused(name, DescNeed::Text),
            },
            None => Ok(""),
        }
    }

    /// The text of a member, if it has one.
    pub(crate) fn text_in(&self, name: &str) -> Option<&'a str>
        ensures { option_map (λ text. text.now) result ≡ text_in (body_of self.now) name.now }
    {
        match self.value.get(name) {
            Some(value) => value.as_str(),
            None => None,
        }
    }

    /// The flag of a member, or what it is where there is none.
    pub(crate) fn flag_or(&self, name: &str, other: bool) -> Result<bool, DescFault>
        ensures { Gives result (flag_or_at (body_of self.now) name.now other) }
    {
        match self.value.get(name) {
            Some(value) => self.said(name, DescNeed::Flag, value.as_bool()),
            None => Ok(other),
        }
    }

    fn none_beside(&self, names: &[&str], table: &Table) -> Result<(), DescFault>
        ensures { Gives result (none_beside (body_of self.now).path
            (map (λ n. n.now) names.now) (table_view table.now)) }
    {
        for (name, _) in table.iter() {
            if !named_among(names, name.as_str()) {
                return self.refused(name.as_str(), DescNeed::Member);
            }
        }
        Ok(())
    }

    /// No member has another name than these.
    pub(crate) fn no_other(&self, names: &[&str]) -> Result<(), DescFault>
        ensures { Gives result (no_other (body_of self.now) (map (λ n. n.now) names.now)) }
    {
        match self.value.as_table() {
            Some(table) => self.none_beside(names, table),
            None => Ok(()),
        }
    }
}
