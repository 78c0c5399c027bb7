//! The members of an object, read by name.

ghost use Rattle.std.specs.Prelude.{◌≡◌, ◌<◌, ◌≤◌, ◌^◌, true, [], None, Ok, Err, IfOk, IfSome, length, map};
ghost use Rattle.serde_json.specs.Data.{no_items};
ghost use Rattle.serde_json.specs.View.{view, items_of};
ghost use Rattle.misp_fields.specs.declared.need.Need.TheVariants as needs;
ghost use Rattle.misp_fields.specs.Fields.{text_of, number_of, flag_of, uuid_of, optional_uuid_of, moment_of, list_of};
ghost use Rattle.misp_format.specs.declared.fault.FormatFault.TheVariants as faults;
ghost use Rattle.misp_format.specs.Path.{member_path};
ghost use Rattle.misp_format.specs.Administering.{api_key_of};
ghost use Rattle.misp_format.specs.Members.{path_text, body_of};
ghost use Rattle.misp_format.specs.Elements.{unless_long};
ghost use Rattle.misp_format.specs.Readers.{number_within, is_long, text_within, some_text_of, inst_name_of};
ghost use Rattle.misp_format.specs.Rows.{Gives, Shows, row, must_be, at, body_at};

use crate::fault::FormatFault;
use crate::reading::path::Path;
use crate::reading::readers::{api_key, inst_name, number_within};
use misp_elem::{Moment, Shared};
use misp_fields::{self as fields, Need, member};
use misp_ids::{ApiKey, InstId, Text, Uid};
use serde_json::Value;
use std::alloc::Global;

/// The most bytes that the texts of an element have together.
pub(crate) const TEXT_LIMIT: usize = 16384;

/// An object that is read, and where it stands.
#[derive(Drop)]
pub(crate) struct Members<'a> {
    pub(crate) alloc: Global,
    pub(crate) path: &'a Path<'a>,
    pub(crate) value: &'a Value,
}

impl<'a> Members<'a> {
    /// The members of the value at a path, which must be an object.
    pub(crate) fn of(
        alloc: Global,
        path: &'a Path<'a>,
        value: &'a Value,
    ) -> Result<Members<'a>, FormatFault>
        ensures { Shows body_of result (body_at (path_text path.now) (view value.now)) }
    {
        if value.is_object() {
            return Ok(Members { alloc, path, value });
        }
        Err(FormatFault::BadField {
            path: path.text(alloc)?,
            need: Need::Object,
        })
    }

    /// The fault of a member.
    pub(crate) fn refused<T>(&self, name: &str, need: Need) -> Result<T, FormatFault>
        ensures { Gives result
            (Err (faults.BadField (member_path (body_of self.now).path name.now) need)) }
    {
        Err(FormatFault::BadField {
            path: self.path.member_text(self.alloc, name)?,
            need,
        })
    }

    /// What was read of a member, or its fault.
    pub(crate) fn kept<T: Drop>(&self, name: &str, read: Result<T, Need>) -> Result<T, FormatFault>
        ensures { Gives result (at (body_of self.now) name.now read) }
    {
        match read {
            Ok(value) => Ok(value),
            Err(need) => self.refused(name, need),
        }
    }

    /// A file at a member.
    pub(crate) fn file<T>(&self, name: &str) -> Result<T, FormatFault>
        ensures { Gives result
            (Err (faults.BinaryType (member_path (body_of self.now).path name.now))) }
    {
        Err(FormatFault::BinaryType {
            path: self.path.member_text(self.alloc, name)?,
        })
    }

    // The texts of an element together have no more bytes than the limit.
    fn unless_long(&self, bytes: usize) -> Result<(), FormatFault>
        ensures { Gives result (unless_long (body_of self.now) bytes) }
    {
        if bytes > TEXT_LIMIT {
            return Err(FormatFault::BadField {
                path: self.path.text(self.alloc)?,
                need: Need::Short,
            });
        }
        Ok(())
    }

    /// What was read, of which the texts together have so many bytes, unless these are too many.
    pub(crate) fn short<T: Drop>(&self, read: T, bytes: usize) -> Result<T, FormatFault>
        ensures same { IfOk result (λ kept. kept ≡ read) }
        ensures gives { Shows (λ _. tt) result (unless_long (body_of self.now) bytes) }
    {
        match self.unless_long(bytes) {
            Ok(()) => Ok(read),
            Err(fault) => {
                drop(read);
                Err(fault)
            }
        }
    }

    /// The same with counted owners.
    pub(crate) fn shared<T: Drop>(&self, read: T, bytes: usize) -> Result<Shared<T>, FormatFault>
        ensures same { IfOk result (λ kept. kept ≡ read) }
        ensures gives { Shows (λ _. tt) result (unless_long (body_of self.now) bytes) }
    {
        let read = self.short(read, bytes)?;
        Ok(Shared::of(self.alloc, read)?)
    }

    pub(crate) fn uuid(&self, name: &str, absent: Uid) -> Result<Uid, FormatFault>
        ensures { Gives result (row (body_of self.now) name.now uuid_of (Ok absent)) }
    {
        match member(self.value, name) {
            Some(value) => self.kept(name, fields::uuid(value)),
            None => Ok(absent),
        }
    }

    pub(crate) fn needed_uuid(&self, name: &str) -> Result<Uid, FormatFault>
        ensures { Gives result (row (body_of self.now) name.now uuid_of (Err needs.Present)) }
    {
        match member(self.value, name) {
            Some(value) => self.kept(name, fields::uuid(value)),
            None => self.refused(name, Need::Present),
        }
    }

    /// An identifier, or none where the text is empty or absent.
    pub(crate) fn optional_uuid(&self, name: &str) -> Result<Option<Uid>, FormatFault>
        ensures gives { Gives result (row (body_of self.now) name.now optional_uuid_of (Ok None)) }
        ensures in_range { IfOk result (λ found. IfSome found (λ uuid. uuid.0 < 2 ^ 128)) }
    {
        match member(self.value, name) {
            Some(value) => match fields::optional_uuid(value) {
                Ok(uuid) => Ok(uuid),
                Err(need) => self.refused(name, need),
            },
            None => Ok(None),
        }
    }

    pub(crate) fn flag(&self, name: &str, absent: bool) -> Result<bool, FormatFault>
        ensures { Gives result (row (body_of self.now) name.now flag_of (Ok absent)) }
    {
        match member(self.value, name) {
            Some(value) => self.kept(name, fields::flag(value)),
            None => Ok(absent),
        }
    }

    /// A number of whatever size.
    pub(crate) fn large_number(&self, name: &str, absent: u64) -> Result<u64, FormatFault>
        ensures { Gives result (row (body_of self.now) name.now number_of (Ok absent)) }
    {
        match member(self.value, name) {
            Some(value) => self.kept(name, fields::number(value)),
            None => Ok(absent),
        }
    }

    pub(crate) fn number(
        &self,
        name: &str,
        least: u8,
        most: u8,
        absent: u8,
    ) -> Result<u8, FormatFault>
        ensures { Gives result
            (row (body_of self.now) name.now (number_within least most) (Ok absent)) }
    {
        match member(self.value, name) {
            Some(value) => self.kept(name, number_within(value, least, most)),
            None => Ok(absent),
        }
    }

    /// A text, which is empty where it is absent.
    pub(crate) fn text(&self, name: &str) -> Result<Text, FormatFault>
        ensures { Gives result (row (body_of self.now) name.now text_of (Ok [])) }
    {
        match member(self.value, name) {
            Some(value) => match fields::text(value) {
                Ok(text) => Ok(Text::of(String::from_str(self.alloc, text)?)),
                Err(need) => self.refused(name, need),
            },
            None => Ok(Text::of(String::new(self.alloc))),
        }
    }

    /// A text of so many bytes, which may not be absent.
    pub(crate) fn text_within(
        &self,
        name: &str,
        least: usize,
        most: usize,
    ) -> Result<Text, FormatFault>
        ensures gives { Gives result
            (row (body_of self.now) name.now (text_within least most) must_be) }
        ensures long { IfOk result (λ t. is_long least most t ≡ true) }
    {
        match member(self.value, name) {
            Some(value) => match fields::text(value) {
                Ok(text) if least <= text.len() && text.len() <= most => {
                    Ok(Text::of(String::from_str(self.alloc, text)?))
                }
                Ok(_) => self.refused(name, Need::Range),
                Err(need) => self.refused(name, need),
            },
            None => self.refused(name, Need::Present),
        }
    }

    /// A text that is not empty, which may not be absent.
    pub(crate) fn some_text(&self, name: &str) -> Result<Text, FormatFault>
        ensures gives { Gives result (row (body_of self.now) name.now some_text_of must_be) }
        ensures long { IfOk result (λ t. 1 ≤ length t) }
    {
        match member(self.value, name) {
            Some(value) => match fields::text(value) {
                Ok(text) if !text.is_empty() => Ok(Text::of(String::from_str(self.alloc, text)?)),
                Ok(_) => self.refused(name, Need::Range),
                Err(need) => self.refused(name, need),
            },
            None => self.refused(name, Need::Present),
        }
    }

    /// A moment, or none where the text is empty or absent.
    pub(crate) fn moment(&self, name: &str) -> Result<Option<Moment>, FormatFault>
        ensures { Gives result (row (body_of self.now) name.now moment_of (Ok None)) }
    {
        match member(self.value, name) {
            Some(value) => self.kept(name, fields::moment(value)),
            None => Ok(None),
        }
    }

    /// The same, which may not be absent.
    pub(crate) fn needed_moment(&self, name: &str) -> Result<Option<Moment>, FormatFault>
        ensures { Gives result (row (body_of self.now) name.now moment_of must_be) }
    {
        match member(self.value, name) {
            Some(value) => self.kept(name, fields::moment(value)),
            None => self.refused(name, Need::Present),
        }
    }

    /// The name of an instance, which may not be absent.
    pub(crate) fn inst_name(&self, name: &str) -> Result<InstId, FormatFault>
        ensures { Gives result (row (body_of self.now) name.now inst_name_of must_be) }
    {
        match member(self.value, name) {
            Some(value) => self.kept(name, inst_name(value)),
            None => self.refused(name, Need::Present),
        }
    }

    /// A key, which may not be absent.
    pub(crate) fn api_key(&self, name: &str) -> Result<ApiKey, FormatFault>
        ensures { Gives result (row (body_of self.now) name.now api_key_of must_be) }
    {
        match member(self.value, name) {
            Some(value) => self.kept(name, api_key(value)),
            None => self.refused(name, Need::Present),
        }
    }

    /// How many items a list has, as a hint of the room that they need.
    pub(crate) fn count(&self, name: &str) -> usize {
        match member(self.value, name) {
            Some(Value::Array(items)) => items.len(),
            _ => 0,
        }
    }

    /// The items of a list, none where it is absent.
    pub(crate) fn list(&self, name: &str) -> Result<&'a [Value], FormatFault>
        ensures { Shows (λ vs. items_of (map view vs.now)) result
            (row (body_of self.now) name.now list_of (Ok no_items)) }
    {
        match member(self.value, name) {
            Some(value) => match fields::list(value) {
                Ok(items) => Ok(items),
                Err(need) => self.refused(name, need),
            },
            None => Ok(&[]),
        }
    }
}
