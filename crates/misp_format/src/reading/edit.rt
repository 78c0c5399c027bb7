//! Members that may be absent, as edits and searches have them.

ghost use Rattle.std.specs.Prelude.{◌≡◌, true, IfOk, IfSome, option_map};
ghost use Rattle.std.specs.Str.{is_utf8};
ghost use Rattle.misp_elem.specs.Row.{IsLabel};
ghost use Rattle.misp_fields.specs.Fields.{text_of, flag_of, stamp_of, uuid_of};
ghost use Rattle.misp_model.specs.Edit.{IsGiven, given_size};
ghost use Rattle.misp_format.specs.Edits.{given_row, given_label_at};
ghost use Rattle.misp_format.specs.Filters.{org_of};
ghost use Rattle.misp_format.specs.Members.{body_of};
ghost use Rattle.misp_format.specs.Rows.{Gives};

use crate::fault::FormatFault;
use crate::reading::label::label;
use crate::reading::members::Members;
use misp_fields::{self as fields, member};
use misp_ids::{Label, OrgId, Stamp, Text, Uid};

pub(crate) fn given_text(it: &Members<'_>, name: &str) -> Result<Option<Text>, FormatFault>
    ensures gives { Gives result (given_row (body_of it.now) name.now text_of) }
    ensures utf8 { IfOk result (λ given. IfSome given (λ text. is_utf8 text ≡ true)) }
{
    match member(it.value, name) {
        Some(_) => Ok(Some(it.text(name)?)),
        None => Ok(None),
    }
}

/// The label by its number, which is at most `most`.
#[tactic(auto, unfolding(crate::specs::Edits::given_label_at))]
pub(crate) fn given_label(it: &Members<'_>, most: u8) -> Result<Option<Label>, FormatFault>
    ensures gives { Gives result (given_label_at (body_of it.now) most) }
    ensures fits { IfOk result (IsGiven IsLabel) }
{
    match member(it.value, "distribution") {
        Some(_) => Ok(Some(label(it, most, 0)?)),
        None => Ok(None),
    }
}

pub(crate) fn given_stamp(it: &Members<'_>, name: &str) -> Result<Option<Stamp>, FormatFault>
    ensures { Gives result (given_row (body_of it.now) name.now stamp_of) }
{
    match member(it.value, name) {
        Some(value) => Ok(Some(it.kept(name, fields::stamp(value))?)),
        None => Ok(None),
    }
}

pub(crate) fn given_flag(it: &Members<'_>, name: &str) -> Result<Option<bool>, FormatFault>
    ensures { Gives result (given_row (body_of it.now) name.now flag_of) }
{
    match member(it.value, name) {
        Some(_) => Ok(Some(it.flag(name, false)?)),
        None => Ok(None),
    }
}

pub(crate) fn given_uuid(it: &Members<'_>, name: &str) -> Result<Option<Uid>, FormatFault>
    ensures { Gives result (given_row (body_of it.now) name.now uuid_of) }
{
    match member(it.value, name) {
        Some(_) => Ok(Some(it.needed_uuid(name)?)),
        None => Ok(None),
    }
}

pub(crate) fn org_of(uuid: Option<Uid>) -> Option<OrgId>
    ensures { result ≡ option_map org_of uuid }
{
    match uuid {
        Some(uuid) => Some(OrgId(uuid)),
        None => None,
    }
}

/// The bytes of a text that is given.
pub(crate) fn given_size(text: &Option<Text>) -> usize
    ensures { result ≡ given_size text.now }
{
    match text {
        Some(text) => text.as_str().len(),
        None => 0,
    }
}
