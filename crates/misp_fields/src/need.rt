//! What a value was needed to be.

ghost use Rattle.std.specs.Prelude.{◌≡◌, ◌++◌, OnOk, string_bytes};
ghost use Rattle.misp_fields.specs.Needs.{need_words};

use std::alloc::AllocError;
use std::fmt::Write;

/// What a value that could not be read was needed to be.
#[derive(Clone, Copy, PartialEq, Eq)]
pub enum Need {
    Text,
    Number,
    Flag,
    Stamp,
    List,
    Uuid,
    Date,
    Moment,
    Colour,
    /// A member that may not be absent.
    Present,
    Object,
    /// A number or a name among those that are stated, or a text that is not empty.
    Range,
    /// A text that is a key of the API.
    Key,
    /// Texts that together are no longer than the limit.
    Short,
    /// A value of the length that its type has.
    Length,
    /// A value without the wrong byte at this place.
    Digit(usize),
    /// A value without the wrong part of this number.
    Part(u8),
    /// The bytes of rows.
    Row,
}

/// Writes the words for a need at the end of a text.
#[tactic(auto, unfolding(crate::specs::Needs::need_words))]
pub fn write_need(out: &mut String, need: Need) -> Result<(), AllocError>
    ensures { OnOk result (string_bytes out.new ≡ string_bytes out.old ++ need_words need) }
{
    match need {
        Need::Text => out.push_str("text"),
        Need::Number => out.push_str("number"),
        Need::Flag => out.push_str("flag"),
        Need::Stamp => out.push_str("stamp"),
        Need::List => out.push_str("list"),
        Need::Uuid => out.push_str("uuid"),
        Need::Date => out.push_str("date"),
        Need::Moment => out.push_str("moment"),
        Need::Colour => out.push_str("colour"),
        Need::Present => out.push_str("present"),
        Need::Object => out.push_str("object"),
        Need::Range => out.push_str("range"),
        Need::Key => out.push_str("key"),
        Need::Short => out.push_str("short"),
        Need::Length => out.push_str("length"),
        Need::Digit(place) => write!(out, "digit {place}"),
        Need::Part(number) => write!(out, "part {number}"),
        Need::Row => out.push_str("row"),
    }
}
