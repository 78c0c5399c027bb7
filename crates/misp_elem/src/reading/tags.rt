//! Reading tags.

ghost use Rattle.std.specs.Prelude.{◌≡◌, ◌-◌, []};
ghost use Rattle.misp_elem.specs.Fields.{last_name, is_after, tags_size};
ghost use Rattle.misp_elem.specs.Reading.{Reads, Gives};
ghost use Rattle.misp_elem.specs.ContentReading.{colour_at, tag_name_at, tag_at, tags_after, tags_at};

use crate::content::Tag;
use crate::fault::{BadField, Stop};
use crate::reading::Reader;
use crate::reading::fields::room_after;
use misp_ids::{Items, Text};
use std::alloc::Global;

/// Whether a name stands after another in the order of their bytes.
fn is_after(before: &[u8], name: &[u8]) -> bool
    ensures { result ≡ is_after before.now name.now }
{
    before.cmp(name).is_lt()
}

/// The name of the last tag, or nothing where there is none.
fn last_name(tags: &[Tag]) -> &[u8]
    ensures { result.now ≡ last_name tags.now }
{
    match tags.last() {
        Some(tag) => tag.name.as_str().as_bytes(),
        None => &[],
    }
}

/// How many bytes the names of these leave of the room that there was.
#[tactic(auto, unfolding(crate::specs::Fields::tags_size))]
pub(super) fn room_after_tags(room: usize, tags: &Items<Tag>) -> usize
    ensures { result ≡ room - tags_size tags.now }
{
    let mut left = room;
    for tag in tags.as_slice() {
        left = room_after(left, &tag.name);
    }
    left
}

impl Reader<'_> {
    #[tactic(auto, unfolding(crate::specs::ContentReading::colour_at))]
    fn colour(&mut self) -> Result<[u8; 3], BadField>
        ensures { Reads result self.new (colour_at self.old) }
    {
        if self.rest.len() < 3 {
            return Err(self.bad());
        }
        let (front, rest) = self.rest.split_at(3);
        self.rest = rest;
        let mut colour = [0; 3];
        colour.copy_from_slice(front);
        Ok(colour)
    }

    #[tactic(auto, unfolding(crate::specs::ContentReading::tag_name_at))]
    fn tag_name(&mut self, alloc: Global, room: usize, before: &[u8]) -> Result<Text, Stop>
        ensures { Gives result self.new (tag_name_at room before.now self.old) }
    {
        let bad = Stop::Bad(self.bad());
        let name = self.text(alloc, 1, room.min(255))?;
        if !is_after(before, name.as_str().as_bytes()) {
            return Err(bad);
        }
        Ok(name)
    }

    #[tactic(auto, unfolding(crate::specs::ContentReading::tag_at))]
    fn tag(&mut self, alloc: Global, room: usize, before: &[u8]) -> Result<Tag, Stop>
        ensures { Gives result self.new (tag_at room before.now self.old) }
    {
        let name = self.tag_name(alloc, room, before)?;
        let colour = self.colour()?;
        let exportable = self.flag()?;
        Ok(Tag {
            name,
            colour,
            exportable,
        })
    }

    #[tactic(auto, unfolding(crate::specs::ContentReading::tags_at))]
    pub(super) fn tags(&mut self, alloc: Global, room: usize) -> Result<Items<Tag>, Stop>
        ensures { Gives result self.new (tags_at room self.old) }
    {
        let count = self.u32()?;
        self.tags_of(alloc, room, count)
    }

    fn tags_of(&mut self, alloc: Global, room: usize, count: u32) -> Result<Items<Tag>, Stop>
        ensures { Gives result self.new (tags_after room count [] self.old) }
    {
        let mut room = room;
        let mut tags: Vec<Tag> = Vec::new(alloc);
        for _ in 0..count {
            let tag = self.tag(alloc, room, last_name(&tags))?;
            room = room_after(room, &tag.name);
            tags.push(tag)?;
        }
        Ok(Items::of(tags))
    }
}
