//! Reading numbers, texts and flags.

ghost use Rattle.std.specs.Prelude.{◌≡◌, ◌-◌, length, true, false, MatchOption};
ghost use Rattle.std.specs.Int.{w32, w64};
ghost use Rattle.misp_elem.specs.Fields.{is_text};
ghost use Rattle.misp_elem.specs.Reading.{Reads, Gives, number_at, between_at, stamp_at, text_at, date_at, flag_at, moment_at, optional_at, optional_moment_at};

use crate::fault::{BadField, Stop};
use crate::reading::Reader;
use misp_dates::{Moment, is_date};
use misp_ids::{Stamp, Text, Uid};
use std::alloc::Global;
use std::str;

/// The text that these bytes are, if they are text of so many bytes.
pub(super) fn text_within(bytes: &[u8], least: usize, most: usize) -> Option<&str>
    ensures { MatchOption result
        (is_text least most bytes.now ≡ false)
        (λ text. (text.now ≡ bytes.now) × (is_text least most bytes.now ≡ true)) }
{
    if bytes.len() < least || most < bytes.len() {
        return None;
    }
    match str::from_utf8(bytes) {
        Ok(text) => Some(text),
        Err(_) => None,
    }
}

/// How many bytes a text leaves of the room that there was.
pub(super) fn room_after(room: usize, text: &Text) -> usize
    ensures { result ≡ room - length text.now }
{
    room.saturating_sub(text.as_str().len())
}

impl Reader<'_> {
    pub(super) fn u32(&mut self) -> Result<u32, BadField>
        ensures { Reads result self.new (number_at w32 self.old) }
    {
        if self.rest.len() < 4 {
            return Err(self.bad());
        }
        let (front, rest) = self.rest.split_at(4);
        self.rest = rest;
        Ok(u32::from_be_bytes([front[0], front[1], front[2], front[3]]))
    }

    pub(super) fn u64(&mut self) -> Result<u64, BadField>
        ensures { Reads result self.new (number_at w64 self.old) }
    {
        if self.rest.len() < 8 {
            return Err(self.bad());
        }
        let (front, rest) = self.rest.split_at(8);
        self.rest = rest;
        let mut number = [0; 8];
        number.copy_from_slice(front);
        Ok(u64::from_be_bytes(number))
    }

    #[tactic(auto, unfolding(crate::specs::Reading::between_at))]
    pub(super) fn between(&mut self, least: u8, most: u8) -> Result<u8, BadField>
        ensures { Reads result self.new (between_at least most self.old) }
    {
        let bad = self.bad();
        let byte = self.byte()?;
        if least <= byte && byte <= most {
            Ok(byte)
        } else {
            Err(bad)
        }
    }

    #[tactic(auto, unfolding(crate::specs::Reading::stamp_at))]
    pub(super) fn stamp(&mut self) -> Result<Stamp, BadField>
        ensures { Reads result self.new (stamp_at self.old) }
    {
        let bad = self.bad();
        Stamp::new(self.u64()?).ok_or(bad)
    }

    #[tactic(auto, unfolding(crate::specs::Reading::flag_at))]
    pub(super) fn flag(&mut self) -> Result<bool, BadField>
        ensures { Reads result self.new (flag_at self.old) }
    {
        let bad = self.bad();
        match self.byte()? {
            0 => Ok(false),
            1 => Ok(true),
            _ => Err(bad),
        }
    }

    #[tactic(auto, unfolding(crate::specs::Reading::optional_at))]
    pub(super) fn optional_uid(&mut self) -> Result<Option<Uid>, BadField>
        ensures { Reads result self.new (optional_at self.old) }
    {
        if self.flag()? {
            Ok(Some(self.uid()?))
        } else {
            Ok(None)
        }
    }

    #[tactic(auto, unfolding(crate::specs::Reading::moment_at))]
    fn moment(&mut self, least: u64) -> Result<Moment, BadField>
        ensures { Reads result self.new (moment_at least self.old) }
    {
        let bad = self.bad();
        let number = self.u64()?;
        if number < least {
            return Err(bad);
        }
        Moment::new(number).ok_or(bad)
    }

    #[tactic(auto, unfolding(crate::specs::Reading::optional_moment_at))]
    pub(super) fn optional_moment(&mut self, least: u64) -> Result<Option<Moment>, BadField>
        ensures { Reads result self.new (optional_moment_at least self.old) }
    {
        if self.flag()? {
            Ok(Some(self.moment(least)?))
        } else {
            Ok(None)
        }
    }

    #[tactic(auto, unfolding(crate::specs::Reading::text_at))]
    pub(super) fn text(&mut self, alloc: Global, least: usize, most: usize) -> Result<Text, Stop>
        ensures { Gives result self.new (text_at least most self.old) }
    {
        let bad = Stop::Bad(self.bad());
        let len = self.u32()? as usize;
        if self.rest.len() < len {
            return Err(bad);
        }
        let (text, rest) = self.rest.split_at(len);
        self.rest = rest;
        match text_within(text, least, most) {
            Some(text) => Ok(Text::of(String::from_str(alloc, text)?)),
            None => Err(bad),
        }
    }

    #[tactic(auto, unfolding(crate::specs::Reading::date_at))]
    pub(super) fn date(&mut self, alloc: Global) -> Result<Text, Stop>
        ensures { Gives result self.new (date_at self.old) }
    {
        let bad = Stop::Bad(self.bad());
        let date = self.text(alloc, 10, 10)?;
        if !is_date(date.as_str().as_bytes()) {
            return Err(bad);
        }
        Ok(date)
    }
}
