//! Reading the values of attributes.

ghost use Rattle.std.specs.Prelude.{Ok, Err, if◌then◌else◌};
ghost use Rattle.misp_types.specs.Values.{is_kept};
ghost use Rattle.misp_elem.specs.Reading.{Gives, GivesAll, value_at};

use crate::fault::{BadField, Stop};
use crate::reading::Reader;
use crate::reading::fields::text_within;
use misp_ids::Text;
use misp_types::{ValueFault, check};
use std::alloc::Global;

/// The value, where it is one of this type that is kept as it is.
#[tactic(auto, unfolding(misp_types::specs::Values::is_kept))]
fn kept(alloc: Global, kind: &str, value: &str, bad: BadField) -> Result<Text, Stop>
    ensures { GivesAll result (if is_kept kind.now value.now then Ok value.now else Err bad.left) }
{
    match check(alloc, kind, value) {
        Ok(kept) => {
            if kept.as_str() == value {
                Ok(Text::of(kept))
            } else {
                Err(Stop::Bad(bad))
            }
        }
        Err(ValueFault::NoMemory) => Err(Stop::NoMemory),
        Err(_) => Err(Stop::Bad(bad)),
    }
}

impl Reader<'_> {
    #[tactic(auto, unfolding(crate::specs::Reading::value_at, crate::specs::Reading::text_at))]
    pub(super) fn value(&mut self, alloc: Global, room: usize, kind: &str) -> Result<Text, Stop>
        ensures { Gives result self.new (value_at room kind.now self.old) }
    {
        let bad = self.bad();
        let len = self.u32()? as usize;
        if self.rest.len() < len {
            return Err(Stop::Bad(bad));
        }
        let (value, rest) = self.rest.split_at(len);
        self.rest = rest;
        match text_within(value, 0, room) {
            Some(value) => kept(alloc, kind, value, bad),
            None => Err(Stop::Bad(bad)),
        }
    }
}
